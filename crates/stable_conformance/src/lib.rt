//! Conformance tests of `stable_records`: that code which is generic over a store needs only its contract, by functions that
//! are proved from it, and what the contract does not say of the stores that there are.
//!
//! The crate has no code but tests, so that what is proved in the crates below is not proved again together with them.
#![tactic(auto)]

#[cfg(test)]
mod failing;
#[cfg(test)]
mod memory;
#[cfg(test)]
mod refused_memory;
#[cfg(test)]
mod support;
#[cfg(test)]
mod through_the_bound;
