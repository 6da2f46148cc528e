//! Nodes that run concurrently: each a seat of its own, all of them with one journal.
//!
//! A [`Seat`] is a node with the store of its records and the list of what it did itself. It enters what it does into the
//! [`Journal`] of all nodes, and does so only where the journal has just its own entries of this node. What has to be
//! worked out is worked out with the seat alone; with the journal too, one step is kept, done and entered:
//!
//! ```text
//! let prepared = seat.prepare(SeatInput::Tick(0))?;    // what is due; nothing changes
//! let receipt = seat.take(&mut journal, prepared)?;    // kept, done and entered: one entry
//! let found = seat.read(Query::Get(ticket))?;          // what the node answers
//! let receipt = seat.serve(&mut journal, found)?;      // entered: one entry
//! let receipt = seat.restart(&mut journal)?;           // the node starts again with the records that it kept
//! ```
//!
//! Where seat and journal each stand behind a lock, the seat's is taken first. Every promise of running nodes is a contract
//! of these calls: they take no lock and start no thread.
#![tactic(auto)]

mod agreeing;
mod compact_entry;
mod entering;
mod fault;
mod handing;
mod input;
pub mod laws;
mod messages;
mod own_entries;
mod query;
mod reading;
mod restarting;
mod seat;
mod serving;
mod taking;

pub use fault::SeatFault;
pub use input::{Prepared, SeatInput};
pub use journal::{
    Beginning, Config, Journal, MAX_JOURNAL_ENTRIES, MAX_SLOTS, OwnEntry, Receipt, Recent,
    Retention, Whole, audit,
};
pub use query::{Found, Query};
pub use seat::Seat;
