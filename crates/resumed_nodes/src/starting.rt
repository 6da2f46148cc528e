//! Nodes that start again, one after the other.

ghost use Rattle.std.specs.Prelude.{◌≡◌, ◌<◌, ◌↔◌, [], ◌∷◌, ◌++◌, length, IfErr, IsTrue, OnErr, OnOk};
ghost use Rattle.ballots.specs.declared.record.Record.{Record as Held};
ghost use Rattle.stable_records.specs.Calls.{RaisesCount};
ghost use Rattle.resumed_nodes.specs.declared.fault.ReopenFault.TheVariants.{OutOfMemory};
ghost use Rattle.resumed_nodes.specs.Starting.{AddsNode, AreOwn, AreStarted, IsOwn, IsReopenFaultFor, ReopenFails};

use crate::fault::ReopenFault;
use crate::pushing::push;
use ballots::{NodeId, Record};
use node_core::{AgreementConfig, OpenFault};
use stable_records::Stable;
use std::alloc::Global;
use std::hash::RandomState;
use stored_nodes::StoredNode;

/// Starts the next node again, with the records that its store gives back and nothing else (Lamport, *Paxos Made Simple*,
/// section 2.5): it stands behind the others, each of which is at the place of its number. Memory is taken from this
/// allocator; `hashing` has the random keys that keep look-ups fast whatever names clients choose.
///
/// [`ReopenFault::Store`] is the store's fault in recalling its records. [`ReopenFault::OutOfRange`] says that one of them
/// names a node that is none or a slot that there is not, and [`ReopenFault::AnotherNode`] that the node began a ballot of
/// another node by one of them. After a fault the nodes are those that there were. Nothing is written to the store but what
/// its own recall writes.
pub fn reopen_next<S: Stable + Drop>(
    alloc: Global,
    hashing: RandomState,
    me: NodeId,
    config: AgreementConfig,
    nodes: &mut Vec<StoredNode<S>>,
    store: S,
) -> Result<(), ReopenFault>
    requires member { me < config.members }
    requires next { length nodes.old.items ≡ me }
    requires started { AreStarted config [] nodes.old.items }
    ensures added { OnOk result (AddsNode S.tells (S.finds store) me nodes.old.items nodes.new.items) }
    ensures started { OnOk result (AreStarted config [] nodes.new.items) }
    ensures fault { IfErr result (ReopenFails S.tells config me (S.finds store) (λ why.
        (left : S) × RaisesCount why (S.faults store) (S.faults left))) }
    ensures same { OnErr result (nodes.new.items ≡ nodes.old.items) }
{
    let node = match StoredNode::reopen(alloc, hashing, me, config, store) {
        Ok(node) => node,
        Err(fault) => return Err(fault_for(fault)),
    };
    if !are_own(me, node.records()) {
        drop(node);
        return Err(ReopenFault::AnotherNode);
    }
    push(nodes, node)?;
    Ok(())
}

// Why a node was not opened over its store.
fn fault_for(fault: OpenFault) -> ReopenFault
    ensures { IsReopenFaultFor fault result }
{
    match fault {
        OpenFault::Store(fault) => ReopenFault::Store(fault),
        OpenFault::OutOfRange => ReopenFault::OutOfRange,
        OpenFault::OutOfMemory => ReopenFault::OutOfMemory,
    }
}

// Whether each ballot that was begun by these records is this node's.
fn are_own(me: NodeId, records: &[Record]) -> bool
    ensures { IsTrue result ↔ AreOwn me records.now }
{
    records.iter().all(|told| is_own(me, told))
}

fn is_own(me: NodeId, told: &Record) -> bool
    ensures { IsTrue result ↔ IsOwn me told.now }
{
    match told {
        Record::Began(ballot) => ballot.node() == me,
        Record::Promised(_, _) | Record::Accepted(_, _) | Record::PromisedFrom(_, _) => true,
    }
}
