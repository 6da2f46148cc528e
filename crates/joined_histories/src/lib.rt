//! Histories in two parts, a first one and a tail that starts in the states in which the first left the nodes: laws over the
//! definitions of `histories` and `safe_histories`.
//!
//! Whoever goes on from what an earlier history left knows neither its steps nor its messages. `Joined` says how a tail
//! stands behind it, and that it precedes the tail: all that clients may rely on holds of both together.
//!
//! The functions of `laws` do nothing: their contracts are laws of the definitions.
#![tactic(auto)]

pub mod laws;
