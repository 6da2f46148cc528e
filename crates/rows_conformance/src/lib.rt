//! Conformance tests of `json_rows`: lines of every type, read and written again, and the fault of each kind of line.
//!
//! There is no code here but tests, which stand in a crate of their own so that what that crate proves is not proved
//! again with their tests.
#![tactic(auto)]

#[cfg(test)]
mod faults;
#[cfg(test)]
mod lines;
#[cfg(test)]
mod schemas;
#[cfg(test)]
mod untold;
#[cfg(test)]
mod untyped;
