//! Writers that fail, each behind another number of bytes, and one that does not flush.

use audit_command::explain_run;
use std::alloc::Global;
use std::io;
use std::io::Write;

/// Takes `room` bytes in all and then fails, and fails at a flush where it may not flush.
#[derive(Drop)]
struct Narrow {
    written: Vec<u8>,
    room: usize,
    flushes: bool,
}

impl Write for Narrow {
    fn write(&mut self, buf: &[u8]) -> io::Result<usize> {
        if self.room == 0 {
            return Err(io::ErrorKind::BrokenPipe.into());
        }
        let count = buf.len().min(self.room);
        self.written.extend_from_slice(&buf[..count])?;
        self.room -= count;
        Ok(count)
    }

    fn flush(&mut self) -> io::Result<()> {
        if self.flushes {
            Ok(())
        } else {
            Err(io::ErrorKind::BrokenPipe.into())
        }
    }
}

/// A Promise of a ballot that its sender had promised.
const TWICE: &[u8] = br#"{"members":1,"sent":["08022801","08022801"]}"#;

/// What is written of it where there is room.
fn explained(alloc: Global) -> Vec<u8> {
    let mut output = Vec::new(alloc);
    let mut said = Vec::new(alloc);
    let _status = explain_run(alloc, TWICE, &mut output, &mut said);
    output
}

/// Whether a writer of so much room gets the beginning of the text, and `Io` is said.
fn is_cut(alloc: Global, whole: &[u8], room: usize, flushes: bool) -> bool {
    let mut output = Narrow {
        written: Vec::new(alloc),
        room,
        flushes,
    };
    let mut said = Vec::new(alloc);
    let status = explain_run(alloc, TWICE, &mut output, &mut said);
    status == 1
        && said.as_slice() == b"flightd: Io\n".as_slice()
        && output.written.len() == room.min(whole.len())
        && whole.starts_with(output.written.as_slice())
}

#[test]
fn says_io_wherever_the_writer_fails(rt: HostRuntime) {
    let alloc = rt.alloc();
    let whole = explained(alloc);
    assert!(rt; whole.len() > 100);
    for room in 0..whole.len() {
        let cut = is_cut(alloc, &whole, room, true);
        assert!(rt; cut, "{room}");
    }
    let unflushed = is_cut(alloc, &whole, 1000, false);
    assert!(rt; unflushed);
}
