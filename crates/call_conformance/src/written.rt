//! How a version goes out: its frames one by one, and the trailer behind them.

use crate::gotten::{get_request, ticket};
use crate::served::put;
use crate::support::{backend, upload};
use flight_calls::serve_call;
use std::io::{self, Write};
use std::test::Fail;

/// A writer that takes all bytes of each call, and keeps how many these were.
#[derive(Drop)]
struct Taking {
    taken: Vec<usize>,
}

impl Write for Taking {
    fn write(&mut self, bytes: &[u8]) -> io::Result<usize> {
        match self.taken.push(bytes.len()) {
            Ok(()) => Ok(bytes.len()),
            Err(_) => Err(io::ErrorKind::OutOfMemory.into()),
        }
    }

    fn flush(&mut self) -> io::Result<()> {
        Ok(())
    }
}

/// How many bytes each write has of the answer to the ticket for the first version of t.
fn writes(rt: &HostRuntime) -> Result<Vec<usize>, Fail> {
    let alloc = rt.alloc();
    let mut backend = backend(rt)?;
    put(alloc, &mut backend, &upload(alloc)?)?;
    let request = get_request(alloc, &ticket(alloc, 1)?)?;
    let mut reader = request.as_slice();
    let mut writer = Taking {
        taken: Vec::new(alloc),
    };
    match serve_call(alloc, &mut reader, &mut writer, &mut *backend) {
        Ok(()) => Ok(writer.taken),
        Err(_) => Err(Fail::from("not served")),
    }
}

#[test]
fn a_version_is_written_frame_by_frame(rt: HostRuntime) -> Result<(), Fail> {
    // The frame of the schema, that of the batch, and the trailer's five bytes and payload.
    let writes = writes(&rt)?;
    assert!(rt; writes.as_slice() == [160, 189, 5, 1].as_slice());
    Ok(())
}
