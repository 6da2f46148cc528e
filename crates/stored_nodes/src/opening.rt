//! How a node is opened over a store that has records.

ghost use Rattle.std.specs.Prelude.{◌≡◌, ◌<◌, IfOk, IfErr, IsTrue, Some};
ghost use Rattle.agreement_rules.specs.Views.{started_with};
ghost use Rattle.histories.specs.Following.{IsUp};
ghost use Rattle.stored_nodes.specs.State.{IsPlaced, Stands};
ghost use Rattle.stable_records.specs.Calls.{RaisesCount};
ghost use Rattle.stored_nodes.specs.Reopening.{ReopenFails, IsOpenFaultFor};

use crate::kept::KeptRecords;
use crate::stored_node::StoredNode;
use ballots::NodeId;
use node_core::{AgreementConfig, Node, OpenFault, Refusal};
use stable_records::Stable;
use std::alloc::Global;
use std::hash::RandomState;

impl<S: Stable + Drop> StoredNode<S> {
    /// The node `me` of this configuration with this store, up with the records that the store has and nothing else, as a
    /// node that was restarted (Lamport, *Paxos Made Simple*, section 2.5). Where it has none, the node has nothing. Memory is
    /// taken from this allocator; `hashing` has the random keys that keep look-ups fast whatever names clients choose.
    ///
    /// [`OpenFault::Store`] is the store's fault in recalling its records; [`OpenFault::OutOfRange`] says that one of them
    /// names a node that is none or a slot that there is not; [`OpenFault::OutOfMemory`] that memory for the node was
    /// refused. Nothing is written to the store but what its own recall writes.
    pub fn reopen(
        alloc: Global,
        hashing: RandomState,
        me: NodeId,
        config: AgreementConfig,
        store: S,
    ) -> Result<StoredNode<S>, OpenFault>
        requires member { me < config.members }
        ensures placed { IfOk result IsPlaced }
        ensures me { IfOk result (λ seat. seat.me ≡ me) }
        ensures config { IfOk result (λ seat. seat.config ≡ config) }
        ensures stands { IfOk result (λ seat. Stands seat (IsUp (started_with seat.records))) }
        ensures found { IfOk result (λ seat. IsTrue S.tells → S.finds store (Some seat.records)) }
        ensures fault { IfErr result (ReopenFails S.tells config me (S.finds store) (λ why.
            (left : S) × RaisesCount why (S.faults store) (S.faults left))) }
    {
        let kept = match KeptRecords::recall(alloc, store) {
            Ok(kept) => kept,
            Err(fault) => return Err(OpenFault::Store(fault)),
        };
        match Node::open(alloc, hashing, me, config, kept.records.as_slice()) {
            Ok(node) => Ok(StoredNode {
                alloc,
                hashing,
                me,
                config,
                kept,
                node: Some(node),
            }),
            Err(refusal) => {
                drop(kept);
                Err(fault_for(refusal))
            }
        }
    }
}

// Why the node was not opened.
fn fault_for(refusal: Refusal) -> OpenFault
    ensures { IsOpenFaultFor refusal result }
{
    match refusal {
        Refusal::OutOfMemory => OpenFault::OutOfMemory,
        _ => OpenFault::OutOfRange,
    }
}
