//! Nodes that start again with their records, and hear again what was accepted or decided (Lamport, *Paxos Made
//! Simple*, sections 2.3 and 2.5).
//!
//! A message that was sent once may be delivered any number of times. So a node that starts over the files of an
//! earlier process is handed again the messages that tell which values were chosen, and has learned at once what it had
//! learned.
//!
//! ```text
//! reopen_next(alloc, hashing, me, config, &mut nodes, store)?;   // each node in turn: up, with its records and nothing else
//! let told = chosen_by(alloc, config, nodes.as_slice())?;        // what a majority of them recorded
//! let nodes = hear_together(rt, alloc, config, nodes, told.as_slice())?;   // each has learned it; nothing is kept or sent
//! ```
//!
//! By the law `members_go_on` the history of an earlier process precedes nodes that have started so.
#![tactic(auto)]

mod choosing;
mod fault;
mod hearing;
pub mod laws;
mod pushing;
mod starting;

pub use choosing::chosen_by;
pub use fault::{HearFault, ReopenFault};
pub use hearing::{hear, hear_all, hear_together};
pub use starting::reopen_next;
