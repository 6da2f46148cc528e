//! The list of decided values that a node knows (Lamport, *Paxos Made Simple*, section 3): one value for each slot, in
//! any order, of which those before the first gap are the prefix.
//!
//! Two calls belong together. `gain` makes all the room that an insert can need, tells by which values the prefix would
//! grow, and changes nothing; `insert` then takes no memory and cannot fail. A slot that has a value keeps it. `asked`
//! is what the node answers to one that asks for the values from a slot on:
//!
//! ```text
//! let values = log.gain(slot, &value)?;  // makes the room; tells what the prefix would grow by; nothing else changes
//! storage.keep(..)?;                     // what the node keeps of it, before anything that follows from it goes out
//! log.insert(slot, value);               // takes no memory
//! tables.apply(&values);                 // log.prefix() has grown by these
//! let messages = log.asked(from)?;       // to a node that asks: sixteen messages at most
//! ```
#![tactic(auto)]

mod copies;
pub mod laws;
mod log;
mod steps;

pub use log::{DecidedLog, MAX_ASKED};
