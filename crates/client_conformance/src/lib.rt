//! Conformance tests of `client_command`, over connections in memory: what goes over them, and what is printed and
//! reported of it.
//!
//! The crate has no code but tests, so that what is proved in the crates below is not proved again together with them.
#![tactic(auto)]

#[cfg(test)]
mod everywhere;
#[cfg(test)]
mod gets;
#[cfg(test)]
mod played;
#[cfg(test)]
mod puts;
#[cfg(test)]
mod scripted;
#[cfg(test)]
mod tables;
