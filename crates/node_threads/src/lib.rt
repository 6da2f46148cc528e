//! Several nodes in one process, each protected by a lock of its own, and their one journal by another.
//!
//! A [`Cluster`] has the seats of its nodes and their journal. Its calls take the locks, always a seat's first and then the
//! journal's, and never two seats': what comes to a node is worked out with the seat alone, while other nodes go on; then one
//! step is kept, done and entered with the journal too. Between the two each call passes a [`Gate`].
//!
//! ```text
//! let taken = cluster.take(&rt, &OpenGate, 0, SeatInput::Put(upload))?;     // an entry, and the messages that went out
//! let taken = cluster.deliver(&rt, &OpenGate, 1, number)?;                  // a message of the journal comes to node 1
//! let found = cluster.get(&rt, &OpenGate, 2, ticket)?;                      // what node 2 answers, entered
//! ```
//!
//! Everything that is promised of what the calls enter is the contract of a seat's call (`seats`) or of the journal
//! (`journal`); here is only which lock is taken when. No contract says that a lock is ever had.
#![tactic(auto)]

mod cluster;
mod desk;
mod faults;
mod gate;
mod locks;
mod running;
mod settled;
mod steps;
mod stopwatch;
mod worker;
mod workplace;

pub use cluster::Cluster;
pub use desk::Ending;
pub use gate::{Gate, OpenGate};
pub use node_worker::{LONGEST_WAIT_MILLISECONDS, LOOK_MILLISECONDS, Note, Pace};
pub use running::{Pending, Running};
pub use seats::{
    Beginning, Config, Found, Journal, MAX_JOURNAL_ENTRIES, MAX_SLOTS, OwnEntry, Prepared, Query,
    Receipt, Recent, Retention, Seat, SeatFault, SeatInput, Whole, audit,
};
pub use settled::Settled;
pub use steps::Taken;
