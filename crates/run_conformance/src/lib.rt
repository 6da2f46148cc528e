//! Conformance tests of nodes and of their runs, over the public calls of `node_core` and `schedule_runner`, of which rows
//! cannot tell: nodes that have lost a record, nodes whose disks crash, refused memory, and the limits of a configuration.
//!
//! The crate has no code but tests, so that what is proved in the crates below is not proved again together with them.
//! Rows are told as stories, in `run_stories`, and long runs by `tools/sweeps.py`, which the same program plays.
#![tactic(auto)]

#[cfg(test)]
mod chosen;
#[cfg(test)]
mod config;
#[cfg(test)]
mod duel;
#[cfg(test)]
mod lost_records;
#[cfg(test)]
mod nodes;
#[cfg(test)]
mod refused_memory;
#[cfg(test)]
mod reopened;
#[cfg(test)]
mod support;
