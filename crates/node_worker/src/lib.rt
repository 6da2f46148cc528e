//! The work of a node's worker: what it hands to its node, whom it tells of what went out, when a tick is due, and how the puts that
//! wait at the node end.
//!
//! A [`Workplace`] is all that a worker meets. [`step`] is one turn of it, behind each note that it hears and each wait; a
//! [`Pace`] says when the node's next tick is due. Whoever runs a worker calls `step` until it is [`Next::End`]:
//!
//! ```text
//! let mut pace = Pace::new(me, members);
//! while step(&mut place, &mut pace, waited, note) == Next::Wait { .. }   // wait for a note, LOOK_MILLISECONDS at most
//! ```
//!
//! Nothing is claimed of notes that never come, and of time no more than what the worker is told of it.
#![tactic(auto)]

mod attempt;
mod pace;
mod settling;
mod stepping;
mod telling;
mod workplace;

pub use pace::{LONGEST_WAIT_MILLISECONDS, LOOK_MILLISECONDS, Pace};
pub use settling::{end_each, end_of, look_at_each};
pub use stepping::{Next, step};
pub use workplace::{End, Note, PutId, Sent, WorkInput, Workplace, WorkplaceFault};
