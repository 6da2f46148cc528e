//! The worker of a node.

use crate::gate::Gate;
use crate::running::Running;
use crate::stopwatch::Stopwatch;
use crossbeam_channel::{Receiver, RecvTimeoutError};
use node_worker::{LOOK_MILLISECONDS, Next, Note, Pace, step};
use seats::{Beginning, Retention};
use stable_records::Stable;
use std::sync::Wait;
use std::time::{Clock, Duration};

impl<const N: usize, S: Stable + Drop, J: Beginning, G: Gate + Drop, M: Retention> Running<
    N,
    S,
    J,
    G,
    M,
> {
    /// Does the work of this node, one [`step`] after the other, until it is told to stop or nobody is left who could tell it:
    /// hands it each message that was sent, tells all others of those that it sends, gives it a tick when one is due, and ends
    /// the puts whose outcome is known. Returns at once where there is no such node.
    pub fn work<R: Wait + Clock>(
        &self,
        rt: &R,
        node: usize,
        mut pace: Pace,
        notes: &Receiver<Note>,
    ) {
        let Some(mut place) = self.workplace(rt, node) else {
            return;
        };
        let mut watch = Stopwatch::start(rt);
        for _ in rt.forever() {
            let (waited, heard) = next_note(rt, &mut watch, notes);
            let note = if self.is_stopping(rt) {
                Some(Note::Stop)
            } else {
                heard
            };
            if step(&mut place, &mut pace, waited, note) == Next::End {
                return;
            }
        }
    }
}

// Waits for a note, [`LOOK_MILLISECONDS`] at most: how many milliseconds have passed since it was waited before, and the note. Where
// the clock can't be read, only a wait without a note counts.
fn next_note<R: Wait + Clock>(
    rt: &R,
    watch: &mut Stopwatch,
    notes: &Receiver<Note>,
) -> (u64, Option<Note>) {
    let heard = notes.recv_timeout(rt, Duration::from_millis(LOOK_MILLISECONDS));
    let passed = watch.lap(rt);
    match heard {
        Ok(note) => (passed.unwrap_or(0), Some(note)),
        Err(RecvTimeoutError::Timeout) => (passed.unwrap_or(LOOK_MILLISECONDS), None),
        Err(RecvTimeoutError::Disconnected) => (passed.unwrap_or(0), Some(Note::Stop)),
    }
}
