//! What the records of all nodes say of a cluster: what a server that resumes over them serves.
//!
//! A value is chosen for a slot where a majority of the nodes recorded at one ballot that they accepted it, and the
//! chosen values are carried out in the order of their slots, without a gap (Lamport, *Paxos Made Simple*, sections 2.2
//! and 3). So a server that starts over the records serves the tables of the values that are chosen from slot 0 on, up
//! to the first slot of which no value is. [`report_of`] tells how many slots these are, which tables they make, and
//! how each later slot stands for which some node recorded an acceptance: undecided, or decided and waiting for the
//! slots before it.
//!
//! [`write_report`] writes a report as lines.
#![tactic(auto)]

mod fault;
pub mod laws;
mod lines;
mod marks;
mod report;
mod reporting;
mod slots;
mod tables;
mod values;
mod writing;

pub use fault::{ReportFault, WriteFault};
pub use report::{FolderReport, SlotReport, SlotState, TableReport};
pub use reporting::report_of;
pub use writing::write_report;
