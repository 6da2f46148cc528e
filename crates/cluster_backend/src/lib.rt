//! A backend of Flight's calls over the nodes of a cluster: what one connection asks of one node.
//!
//! [`ClusterBackend`] hands an upload to its node and waits until the outcome is entered, asks it for a ticket, and tells of
//! tables from what the node's tables hold. It knows nodes by the trait [`Nodes`] alone, so that its contract says what it
//! may tell, whatever the nodes are: of a version and of an outcome just what the journal has as the answer of this node to
//! this query, and of tables just what the node's tables hold. The running nodes of `node_threads` are such nodes, and what
//! they are made of can be named from here.
//!
//! [`Receipts`] has the receipts of all answers.
#![tactic(auto)]

mod backend;
mod caller;
mod fault;
mod nodes;
mod receipts;
mod running;

pub use backend::ClusterBackend;
pub use caller::{Caller, Patient, TURN_MILLISECONDS};
pub use fault::back_fault;
pub use node_threads::{
    Beginning, Cluster, Config, Gate, Journal, MAX_JOURNAL_ENTRIES, MAX_SLOTS, Note, OpenGate,
    OwnEntry, Pace, Recent, Retention, Running, Seat, SeatFault, SeatInput, Whole, audit,
};
pub use nodes::Nodes;
pub use receipts::{AllReceipts, KeptReceipts, NoReceipts, Receipts, all_are_held};
