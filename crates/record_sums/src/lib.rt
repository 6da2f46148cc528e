//! Sums of a node's records, so that bytes which changed on the medium are found.
//!
//! A store of `disk_records` finds in a file what its gates and lengths say, and trusts each byte: where a gate was
//! changed to another byte, the records behind it are gone, and a node without what it promised may promise it again.
//! So the digest of each record is entered in a file beside it, once the record stands. [`SummedStable`] is a store over
//! another one that does so, and whose recall is [`StoreFault::Damaged`](stable_records::StoreFault::Damaged) where an
//! entry is not its record's.
//!
//! ```text
//! let mut store = SummedStable::new(alloc, DiskStable::new(alloc, records), sums);
//! let records = store.recall(alloc)?;  // reads both, and compares them
//! store.keep(&record)?;                // the record stands, and then its sum is entered, and each that is missing, without a sync
//! ```
//!
//! A crash may leave an entry out, or a part of it, which is none then. So it never leaves an entry that is not its
//! record's, and the records of a folder that has no sums yet are taken as they are. `specs/Sums` has the file.
#![tactic(auto)]

mod checking;
mod damage;
mod entering;
mod entry;
mod file;
pub mod laws;
mod node_files;
mod summed_stable;

pub use checking::first_misfit;
pub use damage::{Damage, DamageKind, damage_in};
pub use entry::ENTRY_BYTES;
pub use node_files::NodeFiles;
pub use summed_stable::SummedStable;
