//! Conformance tests of `flatbuf_meta`, where only code can test: the name of a fault that no bytes show, and refused
//! memory. Rows of bytes with what stands there are the stories of `header_stories`.
//!
//! There is no code here but tests, which stand in a crate of their own so that what that crate proves is not proved
//! again with its tests.
#![tactic(auto)]

#[cfg(test)]
mod headers;
