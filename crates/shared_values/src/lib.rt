//! Values of different nodes' records that are equal, held in memory once.
//!
//! Each node has its own file, and so the bytes of an upload that three nodes accepted come out of three files. A clone of
//! an [`UploadBytes`](ballots::UploadBytes) shares its bytes, so where one node has its records, the next can drop what it
//! read and take clones. [`SharingStable`] is a store over another one, whose recall does so: its records are
//! equal to those of the store beneath, and no contract can tell them apart.
//!
//! ```text
//! let held = HeldValues::of(alloc, first.records())?;    // the values of a node that has started
//! let mut store = SharingStable::new(store, held);       // the store of the next one
//! let records = store.recall(alloc)?;                    // its records, which share the bytes of equal values
//! ```
//!
//! What is shared is this service's own; which records a store has, and when, is in `stable_records`.
#![tactic(auto)]

mod held;
mod sharing;
mod sharing_stable;

pub use held::HeldValues;
pub use sharing::{share, share_all};
pub use sharing_stable::SharingStable;
