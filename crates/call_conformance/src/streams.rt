//! Readers and writers that fail, or that take few bytes at once.

use std::io::{self, Read, Write};

/// A writer that takes so many bytes, and then fails.
#[derive(Drop)]
pub(crate) struct Narrow {
    pub(crate) room: usize,
}

impl Write for Narrow {
    fn write(&mut self, bytes: &[u8]) -> io::Result<usize> {
        let taken = bytes.len().min(self.room);
        if taken == 0 {
            return Err(io::ErrorKind::BrokenPipe.into());
        }
        self.room -= taken;
        Ok(taken)
    }

    fn flush(&mut self) -> io::Result<()> {
        Ok(())
    }
}

/// A reader that gives these bytes, and then fails.
#[derive(Drop)]
pub(crate) struct Broken<'a> {
    pub(crate) left: &'a [u8],
}

impl<'a> Read for Broken<'a> {
    fn read(&mut self, room: &mut [u8]) -> io::Result<usize> {
        if self.left.is_empty() {
            return Err(io::ErrorKind::ConnectionReset.into());
        }
        self.left.read(room)
    }
}

/// A reader that gives these bytes, one in each read.
#[derive(Drop)]
pub(crate) struct Slow<'a> {
    pub(crate) left: &'a [u8],
}

impl<'a> Read for Slow<'a> {
    fn read(&mut self, room: &mut [u8]) -> io::Result<usize> {
        let most = room.len().min(1);
        self.left.read(&mut room[..most])
    }
}

/// A reader that gives these bytes, no more than so many in each read, and then ends or fails.
#[derive(Drop)]
pub(crate) struct Portions<'a> {
    pub(crate) left: &'a [u8],
    pub(crate) most: usize,
    pub(crate) fails: bool,
}

impl<'a> Read for Portions<'a> {
    fn read(&mut self, room: &mut [u8]) -> io::Result<usize> {
        if self.fails && self.left.is_empty() {
            return Err(io::ErrorKind::ConnectionReset.into());
        }
        let most = room.len().min(self.most);
        self.left.read(&mut room[..most])
    }
}

/// A writer that takes one byte in each write.
#[derive(Drop)]
pub(crate) struct Tight {
    pub(crate) taken: Vec<u8>,
}

impl Write for Tight {
    fn write(&mut self, bytes: &[u8]) -> io::Result<usize> {
        let most = bytes.len().min(1);
        match self.taken.extend_from_slice(&bytes[..most]) {
            Ok(()) => Ok(most),
            Err(_) => Err(io::ErrorKind::OutOfMemory.into()),
        }
    }

    fn flush(&mut self) -> io::Result<()> {
        Ok(())
    }
}
