//! Passes on what nodes and their histories are made of, under one name.
//!
//! Nodes that run concurrently name the definitions of some fifteen crates in their contracts. They are passed on from here, and by each crate
//! of that layer to the one above it, as `Rattle.node_parts.specs.ballots` and `Rattle.seats.specs.parts.ballots`, so that a crate need
//! not list all of them. Of code only what a trace is made of is passed on.
#![tactic(auto)]

pub use traces::{Config, MAX_JOURNAL_ENTRIES, MAX_SLOTS, Step, Trace, audit};
