//! What a cluster's folder says of itself: how many nodes the cluster has, its name, and a mark of each node's file
//! of records.
//!
//! A server writes an [`Identity`] beside the files of records, by `identity_text`, and a later one reads it, by
//! `read_identity`. The later one marks what each file now begins with, by `digested_parts` and `mark_of`, and takes
//! the file for the one that was left, whatever was added behind, where it reaches the kept mark's length and the two
//! marks are equal. Nothing here opens a file. What a text means is defined in `specs/Identities`, apart from how it
//! is read, and what a mark is in `specs/Marks`.
#![tactic(auto)]

mod fault;
mod file_mark;
mod identity;
pub mod laws;
mod marking;
mod reading;
mod writing;

pub use fault::IdentityFault;
pub use file_mark::FileMark;
pub use identity::Identity;
pub use marking::{DigestedParts, PART_BYTES, digested_parts, mark_of};
pub use reading::read_identity;
pub use writing::identity_text;
