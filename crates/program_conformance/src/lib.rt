//! Conformance tests of `acceptor_command`, `audit_command`, `replay_command`, `serve_command` and `command_line`, over their public calls, of
//! what no clause says: streams that fail, where a reader stands behind a run, and words that no run shows apart. What a
//! whole program writes, says and ends with is looked at by `tools/program.py`.
//!
//! The crate has no code but tests, so that what is proved in the crates below is not proved again together with them.
#![tactic(auto)]

#[cfg(test)]
mod addresses;
#[cfg(test)]
mod audit;
#[cfg(test)]
mod left_behind;
#[cfg(test)]
mod long_runs;
#[cfg(test)]
mod refused_memory;
#[cfg(test)]
mod replay;
#[cfg(test)]
mod streams;
#[cfg(test)]
mod support;
#[cfg(test)]
mod words_of_calls;
