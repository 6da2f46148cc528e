//! Nodes that all restart from their records and receive again what was accepted or decided, and which history may precede
//! them: laws over the definitions of `histories` and `joined_histories`.
//!
//! `StartingOver` says how nodes start that were left so, and which messages they may hear again: those that tell of a
//! value. `Finding` says which acceptances were kept before they could be told.
//!
//! The functions of `laws` do nothing: their contracts are laws of the definitions.
#![tactic(auto)]

pub mod laws;
