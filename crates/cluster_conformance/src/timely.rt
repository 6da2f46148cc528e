//! A writer that gives up behind a write which did not take all of its bytes.

use flight_service::{MOST_WRITE_BYTES, TimelyWriter};
use std::alloc::Global;
use std::io::{self, Write};
use std::test::Fail;

/// A writer that takes so many bytes in all, as a socket does whose peer reads nothing: the last that it has room for are
/// taken of a longer write.
#[derive(Drop)]
struct Room {
    room: usize,
    taken: Vec<u8>,
}

impl Write for Room {
    fn write(&mut self, bytes: &[u8]) -> io::Result<usize> {
        let count = bytes.len().min(self.room);
        match self.taken.extend_from_slice(&bytes[..count]) {
            Ok(()) => {}
            Err(_) => return Err(io::ErrorKind::OutOfMemory.into()),
        }
        self.room -= count;
        Ok(count)
    }

    fn flush(&mut self) -> io::Result<()> {
        Ok(())
    }
}

fn with_room(alloc: Global, room: usize) -> TimelyWriter<Room> {
    TimelyWriter::new(Room {
        room,
        taken: Vec::new(alloc),
    })
}

#[test]
fn a_write_takes_no_more_than_a_peer_has_to_take(rt: HostRuntime) -> Result<(), Fail> {
    let long = [7u8; MOST_WRITE_BYTES + 1];
    let mut writer = with_room(rt.alloc(), long.len());
    assert!(rt; matches!(writer.write(&long), Ok(MOST_WRITE_BYTES)));
    assert!(rt; !writer.is_late());
    assert!(rt; matches!(writer.write(&long[MOST_WRITE_BYTES..]), Ok(1)));
    assert!(rt; !writer.is_late());
    assert!(rt; matches!(writer.write(&[]), Ok(0)));
    assert!(rt; !writer.is_late());
    Ok(())
}

#[test]
fn nothing_is_written_behind_a_short_write(rt: HostRuntime) -> Result<(), Fail> {
    let mut writer = with_room(rt.alloc(), 5);
    assert!(rt; matches!(writer.write(&[1, 2, 3]), Ok(3)));
    assert!(rt; !writer.is_late());
    assert!(rt; matches!(writer.write(&[4, 5, 6]), Ok(2)));
    assert!(rt; writer.is_late());
    let Err(fault) = writer.write(&[6]) else {
        return Err(Fail::from("written behind a short write"));
    };
    assert!(rt; fault.kind() == io::ErrorKind::TimedOut);
    assert!(rt; writer.write_all(&[6]).is_err());
    assert!(rt; writer.flush().is_ok());
    Ok(())
}

#[test]
fn a_write_that_takes_nothing_is_the_last(rt: HostRuntime) -> Result<(), Fail> {
    let mut writer = with_room(rt.alloc(), 0);
    assert!(rt; matches!(writer.write(&[1]), Ok(0)));
    assert!(rt; writer.is_late());
    assert!(rt; writer.write(&[1]).is_err());
    Ok(())
}
