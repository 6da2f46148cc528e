//! Conformance tests of `batch_lengths`: what it says before a batch is built is what is written of it once it is.
//!
//! There is no code here but tests, which stand in a crate of their own so that what that crate proves is not proved
//! again with their tests.
#![tactic(auto)]

#[cfg(test)]
mod drawn;
#[cfg(test)]
mod shared;
#[cfg(test)]
mod told;
#[cfg(test)]
mod worked;
