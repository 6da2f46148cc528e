//! A node with the store of its records, up or down (Lamport, *Paxos Made Simple*, section 2.5).
//!
//! A [`StoredNode`] applies one event after the other to its node, by the rules of a node: it keeps the record that is due
//! before the node changes, and only then do messages go out. It goes down where an event says so, behind its record,
//! and restarts from all records that it kept.
//!
//! ```text
//! let store = MemoryStable::new(alloc);
//! let seat = StoredNode::open(alloc, hashing, me, config, store)?;  // up, with nothing; none where the store has a record
//! let result = seat.apply(&mut sent, &event)?;  // what the event gives; its messages go behind those in `sent`
//! let again = StoredNode::reopen(alloc, hashing, me, config, store)?;  // up, with the records that the store has
//! ```
//!
//! The parts of an event are calls of their own: [`StoredNode::plan`] tells what is due to an input, [`StoredNode::take`] keeps the
//! record of a plan and then does what was planned, and [`StoredNode::recover`] opens the node with all records that its store
//! has.
//!
//! It works over any store ([`stable_records::Stable`]), which it asks to keep and to recall and nothing else. It also remembers
//! the records that it kept: a restart at which the store returns others is refused ([`StoredNodeFault::Lost`]), so that what a
//! node answers after a restart never depends on a store that forgot.
#![tactic(auto)]

mod due;
mod events;
mod fault;
mod handing;
mod kept;
pub mod laws;
mod opening;
mod queries;
mod reasons;
mod steps;
mod stored_node;

pub use fault::StoredNodeFault;
pub use stored_node::StoredNode;
