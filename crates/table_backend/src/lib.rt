//! A backend of Flight calls that holds the tables of all uploads that it took, each taken at once: the tables of one process,
//! with nobody to agree with.
//!
//! `specs/Backing` has what it may answer to each request: what the tables say that the uploads make which it took.
#![tactic(auto)]

mod backend;
mod parts;

pub use backend::TableBackend;
pub use table_versions::MAX_VALUES;
