//! Who recorded an acceptance at one ballot of a slot.

ghost use Rattle.std.specs.Prelude.{◌≡◌, ◌↔◌, IsTrue, IfErr, IfOk, OnOk, Some};
ghost use Rattle.chosen_records.specs.Tallies.{AddsNode, TellsOther};

use crate::fault::ChosenFault;
use ballots::{Ballot, NodeId, NodeSet, OutOfMemory, Slot, Value};
use indexmap::IndexMap;

/// A ballot of a slot. They are ordered by slot, then by ballot.
#[derive(Clone, Copy, Debug, PartialEq, Eq, PartialOrd, Ord, Hash)]
pub(crate) struct SlotBallot {
    pub(crate) slot: Slot,
    pub(crate) ballot: Ballot,
}

/// Who recorded an acceptance at a ballot of a slot, and its value.
#[derive(Debug, Drop)]
pub(crate) struct Tally {
    pub(crate) nodes: NodeSet,
    pub(crate) value: Value,
}

/// The tallies, by slot and ballot.
pub(crate) type Tallies = IndexMap<SlotBallot, Tally>;

/// Adds a node that recorded this value. Where the tally has another value, it stays as it is, and the slot is told.
pub(crate) fn add(
    tally: &mut Tally,
    node: NodeId,
    slot: Slot,
    value: &Value,
) -> Result<(), ChosenFault>
    ensures added { OnOk result (AddsNode (Some tally.old) (Some tally.new) node value.now) }
    ensures other { IfErr result (TellsOther (Some tally.old) slot value.now) }
{
    if !is_same(&tally.value, value) {
        return Err(ChosenFault::Differ(slot));
    }
    tally.nodes = tally.nodes.with(node);
    Ok(())
}

/// The same value, which shares its bytes.
pub(crate) fn copy_of(value: &Value) -> Result<Value, OutOfMemory>
    ensures { IfOk result (λ copy. copy ≡ value.now) }
{
    value.clone()
}

fn is_same(one: &Value, other: &Value) -> bool
    ensures { IsTrue result ↔ (one.now ≡ other.now) }
{
    one == other
}
