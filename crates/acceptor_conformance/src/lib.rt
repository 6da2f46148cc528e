//! Conformance tests of `acceptor`: promises of all slots from a first one on that report thousands of acceptances, that
//! are refused memory, and whose records are told in any order, compared with what a plain look through them says of each
//! slot.
//!
//! The crate has no code but tests, so that what is proved in the crates below is not proved again together with them.
#![tactic(auto)]

#[cfg(test)]
mod applied_records;
#[cfg(test)]
mod kept_answers;
#[cfg(test)]
mod long_records;
#[cfg(test)]
mod long_reports;
#[cfg(test)]
mod ranged_records;
#[cfg(test)]
mod refused_memory;
#[cfg(test)]
mod support;
#[cfg(test)]
mod told;
