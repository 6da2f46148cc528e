//! Conformance tests of `command_line` and `schema_words`, over their public calls: each command with its options in each place,
//! words that are refused, with the kind of fault that each is, the numbers among the words, and the words of schemas.
//!
//! The crate has no code but tests, so that what is proved in the crate below is not proved again together with them.
#![tactic(auto)]

#[cfg(test)]
mod calls;
#[cfg(test)]
mod faults;
#[cfg(test)]
mod numbers;
#[cfg(test)]
mod places;
#[cfg(test)]
mod schemas;
#[cfg(test)]
mod support;
