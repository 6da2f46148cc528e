//! Conformance tests of `flight_calls`, `table_backend` and `client_calls`, over their public calls, of which stories cannot
//! tell: what a client writes and reads, calls that are asked and served one by the other, streams that fail, and thousands
//! of calls.
//!
//! The crate has no code but tests, so that what is proved in the crates below is not proved again together with them.
//! Rows are told as stories, in `call_stories`.
#![tactic(auto)]

#[cfg(test)]
mod asked;
#[cfg(test)]
mod failing;
#[cfg(test)]
mod gotten;
#[cfg(test)]
mod left_unread;
#[cfg(test)]
mod refused_memory;
#[cfg(test)]
mod samples;
#[cfg(test)]
mod served;
#[cfg(test)]
mod streams;
#[cfg(test)]
mod support;
#[cfg(test)]
mod written;
