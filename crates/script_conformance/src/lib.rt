//! Conformance tests of `run_files` and `script_calls`, over their public calls: files that tell a script and files that tell none,
//! and the lines of calls that are answered over memory.
//!
//! The crate has no code but tests, so that what is proved in the crates below is not proved again together with them.
#![tactic(auto)]

#[cfg(test)]
mod answers;
#[cfg(test)]
mod files;
#[cfg(test)]
mod played;
#[cfg(test)]
mod support;
