//! Frames of which rows cannot tell: a writer that takes no byte, and the names of all faults.

use super::texts::are_equal;
use grpc_frames::{
    END_FLAG, Frame, FrameFault, MAX_FRAME_PAYLOAD, MESSAGE_FLAG, read_frame, write_frame,
};
use std::alloc::{AllocError, Global};
use std::io;
use std::io::{Read, Write};
use std::test::Fail;

/// Takes `room` bytes, and then none.
#[derive(Drop)]
struct Full {
    written: Vec<u8>,
    room: usize,
}

impl Write for Full {
    fn write(&mut self, buf: &[u8]) -> io::Result<usize> {
        let count = buf.len().min(self.room);
        self.written.extend_from_slice(&buf[..count])?;
        self.room -= count;
        Ok(count)
    }

    fn flush(&mut self) -> io::Result<()> {
        Ok(())
    }
}

/// `read_frame`.
pub fn read<R: Read>(alloc: Global, reader: &mut R) -> Result<Option<Frame>, FrameFault> {
    read_frame(alloc, reader)
}

/// `write_frame`, where such a frame may be written; else why such a frame would be refused.
pub fn write<W: Write>(writer: &mut W, flag: u8, payload: &[u8]) -> Result<(), FrameFault> {
    if flag != MESSAGE_FLAG && flag != END_FLAG {
        return Err(FrameFault::BadFlag);
    }
    if payload.len() > MAX_FRAME_PAYLOAD {
        return Err(FrameFault::TooLong);
    }
    write_frame(writer, flag, payload)
}

/// All faults.
const FAULTS: [FrameFault; 6] = [
    FrameFault::Truncated,
    FrameFault::BadFlag,
    FrameFault::Compressed,
    FrameFault::TooLong,
    FrameFault::Io,
    FrameFault::OutOfMemory,
];

/// The faults' names as they are printed, each with a space behind it.
fn names(alloc: Global) -> Result<String, AllocError> {
    let mut names = String::new(alloc);
    for fault in FAULTS {
        write!(names, "{fault} ")?;
    }
    Ok(names)
}

#[test]
fn faults_print_their_names(rt: HostRuntime) -> Result<(), Fail> {
    let names = names(rt.alloc())?;
    assert!(rt; names.as_str() == "Truncated BadFlag Compressed TooLong Io OutOfMemory ");
    Ok(())
}

/// Whether a frame of nine bytes fails in a writer that takes seven of them.
fn fails_when_full(alloc: Global) -> bool {
    let mut writer = Full {
        written: Vec::new(alloc),
        room: 7,
    };
    let ending = write(&mut writer, MESSAGE_FLAG, b"\x08\x01\x28\x01");
    let is_told = ending == Err(FrameFault::Io);
    is_told && are_equal(writer.written.as_slice(), b"\x00\x00\x00\x00\x04\x08\x01")
}

#[test]
fn a_writer_that_takes_no_byte_fails(rt: HostRuntime) {
    assert!(rt; fails_when_full(rt.alloc()));
}
