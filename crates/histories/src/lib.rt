//! Histories of nodes: which of them follow the nodes' rules, and that all of these are lawful. Definitions, and laws of them.
//!
//! `Due` says what a node owes to one input, over the rules of its part in agreement (`agreement_rules`); `Event`,
//! `EventResult` and `History` what can come to nodes and what it gives; `Following` which histories follow the rules of the
//! nodes; `Owning` what one node did of it.
//!
//! The functions of `laws` do nothing: their contracts are laws of the definitions.
#![tactic(auto)]

pub mod laws;
