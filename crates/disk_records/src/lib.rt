//! Records kept in the one file of a disk, so that a node has back after a failure what it answered for (Lamport,
//! *Paxos Made Simple*, 2001, section 2.5).
//!
//! A file is a run of gates. Behind an open gate, a byte 01, stand the length of a record in four bytes, the lowest
//! first, and the record's bytes; a closed gate, any other byte, ends what the file means. [`DiskStable`] is the store:
//! it writes a record behind the closed gate, with a closed gate behind it, and opens the gate only once both stand. So
//! a crash at any moment leaves the record or none of it, and no checksum has to be trusted.
//!
//! ```text
//! let mut store = DiskStable::new(alloc, disk);
//! let records = store.recall(alloc)?;  // syncs, reads the whole file, and begins one that is new
//! store.keep(&record)?;                // writes behind the closed gate, syncs, opens the gate, syncs
//! ```
//!
//! [`Disk`] is the contract of what it stands on, with what a crash may leave of it; [`MemoryDisk`] is one in memory
//! that fails and crashes as it is told. [`read_records`] gives what a file's bytes mean, by the definition in
//! `specs/RecordFile`, or says that they mean nothing, and [`block_of`] is what a keep writes. [`laws`] says what
//! follows from that definition.
#![tactic(auto)]

mod block;
mod disk;
mod disk_calls;
mod disk_stable;
pub mod laws;
mod memory_disk;
mod reading;

pub use block::block_of;
pub use disk::{Disk, DiskFailed};
pub use disk_stable::DiskStable;
pub use memory_disk::{MemoryDisk, Pick};
pub use reading::{FileRecords, read_records};
