//! A node that goes down after it keeps a record, before it sends, can't be told from one whose message is late: laws over the
//! definitions of `histories`.
//!
//! A node keeps the record of its answer before it sends the answer (Lamport, *Paxos Made Simple*,
//! section 2.5), so one that goes down in between has answered, but nothing was sent. No other node can tell this from a
//! message that was sent and is late: `Settling` says which history sent it, and leaves the nodes the same.
//!
//! The functions of `laws` do nothing: their contracts are laws of the definitions.
#![tactic(auto)]

pub mod laws;
