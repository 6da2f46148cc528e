//! Stable storage for the records of a node (Lamport, *Paxos Made Simple*, 2001, section 2.5): an acceptor records its
//! response before it sends it, and has its records back when it starts again.
//!
//! [`Stable`] is the contract that every such store meets, in memory or on a disk, and whoever stands on a store is
//! generic over it. What a store means is a relation in `specs/Found`: which lists of records a recall may find. A keep
//! that is `Ok` puts its record behind them; one that failed leaves it there or not, which the next recall says; and a
//! crash at any moment of a keep leaves what was there before it, with the record or without it. Each fault but want of
//! memory raises a count that contracts alone see, so that a fault has a cause.
//!
//! ```text
//! let records = store.recall(alloc)?;  // at a start: the node opens from these, and the store is ready
//! store.keep(&record)?;                // before the node's own state changes and its answer goes out
//! ```
//!
//! After [`StoreFault::Device`] each keep is [`StoreFault::Broken`] until a recall is `Ok`. [`MemoryStable`] is the
//! store in memory, whose only fault is [`StoreFault::OutOfMemory`]. [`FailingStable`] passes calls on to another store
//! and fails once. Both meet the contract by proof, and [`laws`] says what follows from it over many calls. A crate
//! above cites `specs/`, the laws, and of `proofs/` the module `CallerLemmas` alone.
#![tactic(auto)]

mod failing;
mod fault;
mod fault_count;
pub mod laws;
mod memory;
mod stable;

pub use failing::FailingStable;
pub use fault::StoreFault;
pub use fault_count::FaultCount;
pub use memory::MemoryStable;
pub use stable::Stable;
