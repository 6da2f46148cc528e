//! How far a call has come, for whoever waits for it at a terminal.

use std::io;
use std::io::{Eprint, Read, Write};
use std::time::{Clock, Duration};

/// How long a call takes before anything is said of it, in seconds.
const FIRST_SECONDS: u64 = 1;

/// The longest time between two lines, in seconds.
const MOST_SECONDS: u64 = 16;

/// The bits of a number of bytes that are no whole MiB.
const MIB_BITS: u32 = 20;

/// A stream that counts the bytes which pass it, and says on standard error how many they are: after a second, and then after
/// twice as long each time, up to 16 seconds.
#[derive(Drop)]
pub struct Metered<'a, R, S> {
    rt: &'a R,
    stream: S,
    /// What becomes of the bytes, as a line names it.
    way: &'static str,
    passed: u64,
    wait: u64,
    /// When the next line is due, `None` where none is.
    due: Option<Duration>,
}

impl<'a, R: Clock + Eprint, S> Metered<'a, R, S> {
    /// A stream of which no byte has passed. It says nothing where it is not shown, or the runtime's clock is not to be had.
    pub(crate) fn new(
        rt: &'a R,
        stream: S,
        way: &'static str,
        is_shown: bool,
    ) -> Metered<'a, R, S> {
        let mut metered = Metered {
            rt,
            stream,
            way,
            passed: 0,
            wait: FIRST_SECONDS,
            due: None,
        };
        if is_shown {
            if let Ok(now) = rt.monotonic() {
                metered.due = now.checked_add(Duration::from_secs(FIRST_SECONDS));
            }
        }
        metered
    }

    /// Counts bytes that passed, and says how many have where that is due.
    fn pass(&mut self, count: usize) {
        self.passed = self.passed.saturating_add(count as u64);
        let Some(due) = self.due else {
            return;
        };
        let Ok(now) = self.rt.monotonic() else {
            return;
        };
        if now < due {
            return;
        }
        self.wait = self.wait.saturating_mul(2).min(MOST_SECONDS);
        self.due = now.checked_add(Duration::from_secs(self.wait));
        // Where this can't be written, the call goes on.
        let _ = eprintln!(self.rt; "{} MiB {} so far", self.passed >> MIB_BITS, self.way);
    }
}

impl<R: Clock + Eprint, S: Read> Read for Metered<'_, R, S> {
    fn read(&mut self, buf: &mut [u8]) -> io::Result<usize> {
        let count = self.stream.read(buf)?;
        self.pass(count);
        Ok(count)
    }
}

impl<R: Clock + Eprint, S: Write> Write for Metered<'_, R, S> {
    fn write(&mut self, buf: &[u8]) -> io::Result<usize> {
        let count = self.stream.write(buf)?;
        self.pass(count);
        Ok(count)
    }

    fn flush(&mut self) -> io::Result<()> {
        self.stream.flush()
    }
}
