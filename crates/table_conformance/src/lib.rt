//! Conformance tests of `uploads`, `table_types`, `table_versions` and `pending_uploads`, over their public calls, of which rows cannot
//! tell: refused memory, each limit when an upload is made, bytes that are shared, and thousands of uploads that wait.
//!
//! The crate has no code but tests, so that what is proved in the crates below is not proved again together with them.
//! Rows are told as stories, in `table_stories`, and many uploads by `tools/sweeps.py`, which the same program takes.
#![tactic(auto)]

#[cfg(test)]
mod answers;
#[cfg(test)]
mod copies;
#[cfg(test)]
mod held;
#[cfg(test)]
mod limits;
#[cfg(test)]
mod refused_memory;
#[cfg(test)]
mod support;
#[cfg(test)]
mod waiting;
