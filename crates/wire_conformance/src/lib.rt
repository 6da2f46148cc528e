//! Conformance tests of `grpc_frames`, `proto_fields` and `proto_messages`, of which rows cannot tell: readers and writers
//! that fail, long inputs, bytes that are shared, and messages with a field of every kind. Rows are told as stories,
//! in `wire_stories`.
//!
//! The crate has no code but tests, so that what is proved below is not proved again with them.
#![tactic(auto)]

#[cfg(test)]
mod sample;
#[cfg(test)]
mod tests;
