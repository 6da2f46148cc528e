//! Histories of Paxos messages, and who may have sent them.
//!
//! A history is the members and all messages that were sent, in order (`SentMessages`). `audit` judges one from outside:
//! whether every message is one that a correct node may have sent after those before it (Lamport, *Paxos Made Simple*,
//! section 2). The law `one_value` says what that is worth: a lawful history never chooses two values for one slot.
#![tactic(auto)]

mod judge;
pub mod laws;
mod sayings;
mod trace;

pub use trace::{SentMessages, are_lawful, audit};
