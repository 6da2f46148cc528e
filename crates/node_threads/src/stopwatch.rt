//! How much time passes from one step of a worker to the next.

ghost use Rattle.std.specs.Prelude.{◌≡◌, ◌+◌, max};

use std::time::{Clock, Instant};

/// Tells how many whole milliseconds have passed since it was asked before. What is left over of one is told with the next, so
/// that many short times add up to what passed in all.
#[derive(Clone, Copy)]
pub(crate) struct Stopwatch {
    start: Option<Instant>,
    /// So many milliseconds were told so far.
    told: u64,
}

impl Stopwatch {
    /// One that begins now.
    pub(crate) fn start<R: Clock>(rt: &R) -> Stopwatch {
        Stopwatch {
            start: Instant::now(rt).ok(),
            told: 0,
        }
    }

    /// How many milliseconds have passed since it was asked before, `None` where the clock can't be read.
    pub(crate) fn lap<R: Clock>(&mut self, rt: &R) -> Option<u64> {
        let start = self.start?;
        let now = Instant::now(rt).ok()?;
        let passed = now.duration_since(start).as_millis();
        Some(self.tell(u64::try_from(passed).unwrap_or(u64::MAX)))
    }

    // What is told where so many have passed since the start: with all that was told before it makes just as many.
    fn tell(&mut self, passed: u64) -> u64
        ensures told { self.new.told ≡ max self.old.told passed }
        ensures rest { self.old.told + result ≡ self.new.told }
    {
        let more = passed.saturating_sub(self.told);
        self.told = self.told.max(passed);
        more
    }
}
