//! How far a start has come, for whoever waits for it.

use std::io::Eprint;
use std::time::{Clock, Duration};

/// How long a start takes before anything is said of it, and then between two lines, in seconds.
const QUIET_SECONDS: u64 = 1;

/// Says on standard error how far a start has come, where it takes longer than a second.
#[derive(Drop)]
pub(crate) struct Progress<'a, R> {
    rt: &'a R,
    /// When a line is due, `None` where the runtime's clock is not to be had.
    due: Option<Duration>,
}

impl<'a, R: Clock + Eprint> Progress<'a, R> {
    /// Of a start that begins now.
    pub(crate) fn new(rt: &'a R) -> Progress<'a, R> {
        let mut progress = Progress { rt, due: None };
        progress.wait();
        progress
    }

    // The next line is due once some time has passed.
    fn wait(&mut self) {
        self.due = match self.rt.monotonic() {
            Ok(now) => now.checked_add(Duration::from_secs(QUIET_SECONDS)),
            Err(_) => None,
        };
    }

    /// Says what was done of a node, where a line is due.
    pub(crate) fn tell(&mut self, node: usize, what: &str) {
        let Some(due) = self.due else {
            return;
        };
        let Ok(now) = self.rt.monotonic() else {
            return;
        };
        if now >= due {
            // Where this can't be written, the start goes on.
            let _ = eprintln!(self.rt; "node {node} {what}");
            self.wait();
        }
    }
}
