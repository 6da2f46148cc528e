//! The rules of a node's part in agreement (Lamport, *Paxos Made Simple*, sections 2 and 3): what it owes to a message and
//! to a tick, by the records that it kept and the calls of its proposer and its learner. Definitions, and laws of them.
//!
//! `Views` has what decides what a node does, and `Due` what it owes: the record that it keeps, the messages that it sends,
//! and what it has afterwards. `Naming`, `Keeping` and `Calling` say which ballots a message names, which record has to be
//! kept before it goes out, and which calls it makes of a node's parts. Whether what is agreed on means anything is not
//! asked here.
//!
//! The functions of `laws` do nothing: their contracts are laws of the definitions.
#![tactic(auto)]

pub mod laws;
