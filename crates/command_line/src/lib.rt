//! The command line of the program.
//!
//! `parse` reads them, and `asked_by` says what they ask for: the acceptor, the audit of a file, with its explanation or
//! without, or its replay; a cluster that is served, or one that a script is run at; a node's records; or a call of a server. A caller prints
//! the error of words that are refused, and of the help and the version, and exits with its status. The numbers among the
//! words are read by `served_by` and `version_by`.
#![tactic(auto)]

mod commands;
mod help;
pub mod laws;
mod numbers;
mod words;

pub use numbers::{
    DEFAULT_NODES, DEFAULT_PORT, DEFAULT_WAIT, LAST_PORT, LEAST_PORT, LONGEST_WAIT, Served,
    WordsFault, served_by, version_by,
};
pub use words::{Asked, asked_by, parse};
