//! Why a run is unlawful, in words.
//!
//! `run_breaches` finds the first message that breaks a rule of Paxos, and which rules it breaks. `explanation` says so
//! to a reader: the message by its number, with its slot and its line, and below it each broken rule in plain words,
//! with the earlier message that it goes against (Lamport, *Paxos Made Simple*, section 2). `message_line` is a message
//! as one line, in which a long upload is shown by its ends.
#![tactic(auto)]

mod explaining;
mod lines;

pub use explaining::explanation;
pub use lines::{MAX_WHOLE_BYTES, message_line};
