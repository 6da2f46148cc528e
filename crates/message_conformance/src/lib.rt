//! Conformance tests of `ballots`, over its public calls, of which rows cannot tell: what stands at each limit, values
//! that share their bytes, the longest lines, the operators that order ballots, and which records are the same.
//!
//! The crate has no code but tests, so that what is proved in the crate below is not proved again together with them.
//! Rows are told as stories, in `paxos_stories`.
#![tactic(auto)]

#[cfg(test)]
mod bounds;
#[cfg(test)]
mod lines;
#[cfg(test)]
mod order;
#[cfg(test)]
mod records;
#[cfg(test)]
mod refused_memory;
#[cfg(test)]
mod support;
#[cfg(test)]
mod values;
