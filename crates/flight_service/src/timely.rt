//! Bytes that a peer has to take in time.

ghost use Rattle.std.specs.Prelude.{◌≡◌, ◌↔◌, ◌<◌, IsTrue, false, length, min, IfOk, OnOk};
ghost use Rattle.std.specs.Io.{WritesAtMost};
ghost use Rattle.std.specs.Io.KnownBytes.{WriteAppends};

use std::io;
use std::io::{ErrorKind, Write};

/// The bytes that one write hands to the system, at most: so many a peer has to take within the time of a write, or all of
/// fewer.
pub const MOST_WRITE_BYTES: usize = 65_536;

/// A writer whose first write that does not take all of its bytes is its last.
///
/// A socket that blocks takes all the bytes of a write (POSIX.1-2024, `send`), unless the time of a write is over
/// (`SO_SNDTIMEO`) or a signal came. It tells then how many bytes the system has taken, which may be some though the peer has
/// read none: so a peer that reads nothing would be waited for again behind each of these.
#[derive(Drop)]
pub struct TimelyWriter<W> {
    writer: W,
    is_late: bool,
}

impl<W: Write> TimelyWriter<W> {
    /// Writes there.
    pub fn new(writer: W) -> TimelyWriter<W>
        ensures writer { result.writer ≡ writer }
        ensures timely { result.is_late ≡ false }
    {
        TimelyWriter {
            writer,
            is_late: false,
        }
    }

    /// Whether a write took fewer bytes than it was given, so that nothing more is written.
    pub fn is_late(&self) -> bool
        ensures { result ≡ self.now.is_late }
    {
        self.is_late
    }

    /// Writes the bytes, or the first [`MOST_WRITE_BYTES`] of more, and tells how many were taken; `TimedOut`, and nothing is
    /// written, behind a write that took fewer than it was given.
    pub fn write_part(&mut self, buf: &[u8]) -> io::Result<usize>
        ensures bound { WritesAtMost result buf.now }
        ensures bytes { WriteAppends (W.contents self.old.writer) (W.contents self.new.writer) result buf.now }
        ensures late { IsTrue self.old.is_late → OnOk result ⊥ }
        ensures short { IfOk result (λ n. IsTrue self.new.is_late ↔ (n < min (length buf.now) 65536)) }
    {
        if self.is_late {
            return Err(ErrorKind::TimedOut.into());
        }
        let part = &buf[..buf.len().min(MOST_WRITE_BYTES)];
        let count = self.writer.write(part)?;
        self.is_late = count < part.len();
        Ok(count)
    }
}

impl<W: Write> Write for TimelyWriter<W> {
    ghost contents = { λ timely. W.contents timely.writer };

    fn write(&mut self, buf: &[u8]) -> io::Result<usize> {
        self.write_part(buf)
    }

    fn flush(&mut self) -> io::Result<()> {
        self.writer.flush()
    }
}
