//! One node as a state machine: its part in agreement, its tables, and the uploads that wait at it.
//!
//! A node is told of what comes, one input after the other: an upload that a client hands in, a tick of the clock, or a
//! message. What it owes to each is `Due` in the definitions of `histories` (Lamport, *Paxos Made Simple*, sections 2 and
//! 3; uploads, ticks and limits are this service's own). It reads no clock, no disk and no network: whoever runs it keeps its
//! records and sends its messages, in this order:
//!
//! ```text
//! let plan = node.plan(input)?;                                   // decides; makes all room, and changes no content
//! if let Some(record) = plan.record() { store.keep(record)?; }    // what has to stand before anything goes out
//! send_later.extend(plan.sends());                                // copies of the messages
//! node.commit(plan);                                              // takes no memory, and can't fail
//! send(send_later);                                               // now they may go out
//! ```
//!
//! Between `plan` and `commit` of one input the node takes no other. A node that starts again is opened from its records,
//! with nothing else: [`Node::reopen`] asks its store for them. What a crash in the midst of a step leaves there is what a
//! cut of the step leaves in a history (`laws`). Neither `plan` nor `commit` costs more with slots that are decided or uploads that the tables hold,
//! and a put costs no more with uploads that wait; a tick passes over what was learned behind the first gap.
#![tactic(auto)]

mod attempts;
mod deliveries;
mod input;
pub mod laws;
mod node;
mod opening;
mod plan;
mod planning;
mod puts;
mod queries;
mod reopening;
mod slots;
mod ticks;

pub use agreement::{AgreementConfig, Refusal};
pub use input::Input;
pub use node::Node;
pub use plan::Plan;
pub use reopening::OpenFault;
