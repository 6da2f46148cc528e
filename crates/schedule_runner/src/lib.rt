//! Runs of nodes that are simulated in one process: [`run`] opens all members of a configuration, each with a store of its
//! records in memory (`stored_nodes`), applies a list of events to them, and returns the trace of that run (`traces`).
//!
//! ```text
//! let trace = run(alloc, hashing, config, &events)?;
//! trace.steps();   // each event, with what it gave
//! audit(&trace)    // whether what was sent is lawful, judged from the messages alone
//! ```
#![tactic(auto)]

mod fault;
mod running;
mod seats;

pub use fault::RunFault;
pub use running::run;
pub use traces::{
    Config, Event, EventResult, MAX_JOURNAL_ENTRIES, MAX_SLOTS, Reason, Step, TableText, Trace,
    audit,
};
