//! Conformance tests of what `audit_command` explains, of which rows cannot tell: writers that fail. Rows are told as
//! stories, in `paxos_stories`.
//!
//! The crate has no code but tests, so that what is proved in the crate below is not proved again together with them.
#![tactic(auto)]

#[cfg(test)]
mod writers;
