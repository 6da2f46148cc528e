//! Who recorded what, counted record by record.

ghost use Rattle.std.specs.Prelude.{◌≡◌, ◌++◌, ◌∷◌, ◌≤◌, [], List, length, map, IfErr, IfOk, OnOk, None};
ghost use Rattle.ballots.specs.Limits.{max_node};
ghost use Rattle.ballots.specs.declared.record.Record.{Record as Kept};
ghost use Rattle.chosen_records.specs.Chosen.{TellsDiffer};
ghost use Rattle.chosen_records.specs.Tallies.{CountsNode, TellsOther, IsTallyOf, tally_at};

use crate::fault::ChosenFault;
use crate::tally::{SlotBallot, Tallies, Tally, add, copy_of};
use ballots::{Members, NodeId, NodeSet, OutOfMemory, Record, Value};
use indexmap::IndexMap;
use std::alloc::Global;

/// The node of this number.
pub(crate) fn node_of(number: u8) -> NodeId
    requires { number ≤ max_node }
    ensures { result ≡ number }
{
    match NodeId::new(number) {
        Some(node) => node,
        None => unreachable!(),
    }
}

/// Who recorded what, of the records of all members.
pub(crate) fn tallied(
    alloc: Global,
    members: Members,
    records: &[Vec<Record>],
) -> Result<Tallies, ChosenFault>
    requires { length records.now ≡ members }
    ensures counted { IfOk result (IsTallyOf (map (λ own. own.items) records.now)) }
    ensures differ { IfErr result (TellsDiffer (map (λ own. own.items) records.now)) }
{
    let mut tallies = IndexMap::new(alloc);
    for number in 0..members.count() {
        let own = records[usize::from(number)].as_slice();
        count_own(&mut tallies, node_of(number), own)?;
    }
    Ok(tallies)
}

// Counts the records of the next node.
fn count_own(tallies: &mut Tallies, node: NodeId, own: &[Record]) -> Result<(), ChosenFault>
    ensures counted { (done : List (List Kept)) → length done ≡ node → IsTallyOf done tallies.old
        → OnOk result (IsTallyOf (done ++ own.now ∷ []) tallies.new) }
    ensures differ { (done : List (List Kept)) → length done ≡ node → IsTallyOf done tallies.old
        → IfErr result (TellsDiffer (done ++ own.now ∷ [])) }
{
    for told in own {
        count_record(tallies, node, told)?;
    }
    Ok(())
}

// Counts a record more of the last node.
fn count_record(tallies: &mut Tallies, node: NodeId, told: &Record) -> Result<(), ChosenFault>
    ensures counted { (done : List (List Kept)) (own : List Kept) → length done ≡ node
        → IsTallyOf (done ++ own ∷ []) tallies.old
        → OnOk result (IsTallyOf (done ++ (own ++ told.now ∷ []) ∷ []) tallies.new) }
    ensures differ { (done : List (List Kept)) (own : List Kept) → length done ≡ node
        → IsTallyOf (done ++ own ∷ []) tallies.old
        → IfErr result (TellsDiffer (done ++ (own ++ told.now ∷ []) ∷ [])) }
{
    match told {
        Record::Accepted(slot, acceptance) => {
            let place = SlotBallot {
                slot: *slot,
                ballot: acceptance.ballot,
            };
            count(tallies, node, place, &acceptance.value)
        }
        Record::Began(_) | Record::Promised(_, _) | Record::PromisedFrom(_, _) => Ok(()),
    }
}

// Counts the node at the place.
fn count(
    tallies: &mut Tallies,
    node: NodeId,
    place: SlotBallot,
    value: &Value,
) -> Result<(), ChosenFault>
    ensures counted { OnOk result (CountsNode tallies.old tallies.new node place value.now) }
    ensures other { IfErr result (TellsOther (tally_at tallies.old place) place.slot value.now) }
{
    if let Some(tally) = tallies.get_mut(&place) {
        return add(tally, node, place.slot, value);
    }
    put(tallies, node, place, value)?;
    Ok(())
}

// Puts a tally of the node alone at the place, which has none.
fn put(
    tallies: &mut Tallies,
    node: NodeId,
    place: SlotBallot,
    value: &Value,
) -> Result<(), OutOfMemory>
    requires { tally_at tallies.old place ≡ None }
    ensures { OnOk result (CountsNode tallies.old tallies.new node place value.now) }
{
    let nodes = NodeSet::new().with(node);
    let value = copy_of(value)?;
    tallies.insert(place, Tally { nodes, value })?;
    Ok(())
}
