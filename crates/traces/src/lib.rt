//! Runs of nodes by a list of events: the result of each event, and what clients may conclude from it.
//!
//! An [`Event`] is of one node: a client hands in an upload or asks for something, time passes, a message is delivered,
//! or the node goes down or restarts. Any list of events may be applied. A message is lost where nothing delivers it;
//! it is repeated and overtaken where deliveries name messages as they like. [`run_on`] applies events to nodes, one
//! after the other, and returns a [`Trace`]: each event with what it gave, and all messages that were sent.
//!
//! ```text
//! let trace = run_on(alloc, config, &mut nodes, &events)?;
//! trace.steps();   // each event, with what it gave
//! audit(&trace)    // whether what was sent is lawful, judged from the messages alone
//! ```
//!
//! Nodes are whatever meets the contract of [`RunNodes`]: each event gives what the rules of a node make it give
//! (`Following` of `histories`). Whoever applies events in another way extends a trace of its own, step by step
//! ([`Trace::push`]). The definitions of `histories` and `safe_histories` speak of events and of what they give by values
//! of their own; `specs/Told` maps the types of this crate to these, and `specs/Runs` says what a run promises. Definitions
//! of the crates below are passed on by `specs/Lib.antt`.
#![tactic(auto)]

mod config;
pub mod laws;
mod nodes;
mod running;
mod step;
mod trace;

pub use config::{Config, MAX_JOURNAL_ENTRIES, MAX_SLOTS};
pub use node_events::{Event, EventResult, Reason, TableText};
pub use nodes::RunNodes;
pub use running::run_on;
pub use step::Step;
pub use trace::{Trace, audit};
