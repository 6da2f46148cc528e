//! How a node starts again from the records that its store has.

ghost use Rattle.std.specs.Prelude.{IsTrue};
ghost use Rattle.stable_records.specs.Moments.{AnyCrashLeaves};
ghost use Rattle.node_core.specs.Reopening.{ReopenGives, CountsReopening, ReadyAfterReopening};

use crate::node::Node;
use agreement::{AgreementConfig, Refusal};
use ballots::NodeId;
use stable_records::{Stable, StoreFault};
use std::alloc::Global;
use std::hash::RandomState;
use thiserror::Error;

/// Why a node was not opened with the records of its store.
#[derive(Clone, Copy, Debug, PartialEq, Eq, Error)]
pub enum OpenFault {
    /// The store gave no records back.
    #[error("Store: {0}")]
    Store(StoreFault),
    /// The node is no member, or a record names a node that is none or a slot that there is not.
    #[error("OutOfRange")]
    OutOfRange,
    /// Memory for the node was refused.
    #[error("OutOfMemory")]
    OutOfMemory,
}

impl Node {
    /// The node `me` of this configuration with the records that its store recalls, and with nothing else, as
    /// [`Node::open`] opens it (Lamport, *Paxos Made Simple*, section 2.5). From then on these records alone are found in
    /// the store, and it is ready to keep others. A crash at any moment of this call leaves what could be found before it.
    ///
    /// [`OpenFault::Store`] is the store's fault in recalling them. [`OpenFault::OutOfRange`] comes exactly where they were
    /// recalled and are no records of such a member, and [`OpenFault::OutOfMemory`] where they are and memory was refused.
    pub fn reopen<S: Stable>(
        alloc: Global,
        hashing: RandomState,
        me: NodeId,
        config: AgreementConfig,
        store: &mut S,
    ) -> Result<Node, OpenFault>
        ensures gives { ReopenGives S.tells config me (S.finds store.old) (S.finds store.new) result }
        ensures counted { CountsReopening result (S.faults store.old) (S.faults store.new) }
        ensures ready { ReadyAfterReopening result (S.is_ready store.old) (S.is_ready store.new) }
        ensures crash { IsTrue S.tells → AnyCrashLeaves S.moment S.finds_since store.old store.new (S.finds store.old) }
    {
        let records = match store.recall(alloc) {
            Ok(records) => records,
            Err(fault) => return Err(OpenFault::Store(fault)),
        };
        match Node::open(alloc, hashing, me, config, records.as_slice()) {
            Ok(node) => Ok(node),
            Err(Refusal::OutOfMemory) => Err(OpenFault::OutOfMemory),
            Err(_) => Err(OpenFault::OutOfRange),
        }
    }
}
