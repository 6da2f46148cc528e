//! What clients may rely on in each history that follows the rules of the nodes, at whatever nodes and times: laws over
//! the definitions of `histories`, of which `replicas_agree` is the sum.
//!
//! `Learning` has what a history shows of a node, by the messages that were delivered to it; `Safe` what clients may
//! rely on. Neither speaks of what a node keeps.
//!
//! The functions of `laws` do nothing: their contracts are laws of the definitions.
#![tactic(auto)]

pub mod laws;
