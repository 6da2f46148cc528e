//! What is told again of who recorded what.

ghost use Rattle.std.specs.Prelude.{◌≡◌, ◌<◌, ◌+◌, ◌++◌, ℕ, length, IfOk, IsTrue, List, OnOk};
ghost use Rattle.std.specs.List.{All, Any};
ghost use Rattle.std.specs.List.Sorted.{IsNonDecreasingBy};
ghost use Rattle.ballots.specs.Acceptance.{acceptance};
ghost use Rattle.ballots.specs.Ballot.{Ballot as Pair};
ghost use Rattle.ballots.specs.declared.record.Record.{Record as Kept};
ghost use Rattle.ballots.specs.declared.value.Value.{Value as Held};
ghost use Rattle.chosen_records.specs.Chosen.{IsChosenAt, IsRecorded, IsToldChosen, TellsChosen, told_of};
ghost use Rattle.chosen_records.specs.Tallies.{IsTallyOf, RisesUpTo, SlotsRise, TellsUpTo, told_below, told_by};

use crate::counting::node_of;
use crate::tally::{SlotBallot, Tallies, Tally, copy_of};
use ballots::{Acceptance, Body, Members, Message, NodeId, OutOfMemory, Slot};
use std::alloc::Global;

/// The messages of each slot at which a majority is counted at one place, of the first such place, where places of one
/// slot stand together. They go in the order of the places.
pub(crate) fn told_again(
    alloc: Global,
    members: Members,
    tallies: &Tallies,
) -> Result<Vec<Message>, OutOfMemory>
    ensures recorded { (all : List (List Kept)) → IsTallyOf all tallies.now
        → IfOk result (λ told. All (IsRecorded all) told.items) }
    ensures only { (all : List (List Kept)) → IsTallyOf all tallies.now
        → IfOk result (λ told. All (TellsChosen members all) told.items) }
    ensures chosen { (all : List (List Kept)) (slot : ℕ) (ballot : Pair) (value : Held) → IsTallyOf all tallies.now
        → IsChosenAt members all slot ballot value → IfOk result (λ told. IsToldChosen members told.items slot) }
    ensures rising { SlotsRise tallies.now
        → IfOk result (λ told. IsNonDecreasingBy (λ message. message.slot) told.items) }
{
    let mut told = Vec::new(alloc);
    for index in 0..tallies.len() {
        tell_entry(&mut told, members, tallies, index)?;
    }
    Ok(told)
}

// Tells what is to be told of the place of this index.
fn tell_entry(
    told: &mut Vec<Message>,
    members: Members,
    tallies: &Tallies,
    index: usize,
) -> Result<(), OutOfMemory>
    requires { index < length tallies.now.entries }
    ensures tells { TellsUpTo members tallies.now index told.old.items
        → OnOk result (TellsUpTo members tallies.now (index + 1) told.new.items) }
    ensures rises { SlotsRise tallies.now → RisesUpTo tallies.now index told.old.items
        → OnOk result (RisesUpTo tallies.now (index + 1) told.new.items) }
{
    let Some((place, tally)) = tallies.get_index(index) else {
        unreachable!()
    };
    if members.are_majority(tally.nodes) && !ends_at(told.as_slice(), place.slot) {
        tell(told, members, place, tally)?;
    }
    Ok(())
}

// Whether the last message is of this slot.
fn ends_at(told: &[Message], slot: Slot) -> bool
    ensures { IsTrue result → Any (λ message. message.slot ≡ slot) told.now }
{
    match told.last() {
        Some(message) => message.slot == slot,
        None => false,
    }
}

// Tells of each member that is counted that it accepted.
fn tell(
    told: &mut Vec<Message>,
    members: Members,
    place: &SlotBallot,
    tally: &Tally,
) -> Result<(), OutOfMemory>
    ensures { OnOk result (told.new.items ≡ told.old.items ++ told_below members place.now tally.now) }
{
    for number in 0..members.count() {
        tell_node(told, node_of(number), place, tally)?;
    }
    Ok(())
}

// Tells that the node accepted, where it is counted.
fn tell_node(
    told: &mut Vec<Message>,
    node: NodeId,
    place: &SlotBallot,
    tally: &Tally,
) -> Result<(), OutOfMemory>
    ensures { OnOk result (told.new.items ≡ told.old.items ++ told_by node place.now tally.now) }
{
    if tally.nodes.contains(node) {
        told.push(message_of(node, place, tally)?)?;
    }
    Ok(())
}

// The message by which the node told that it accepted. It shares the value's bytes.
fn message_of(node: NodeId, place: &SlotBallot, tally: &Tally) -> Result<Message, OutOfMemory>
    ensures { IfOk result (λ message. message
        ≡ told_of node place.now.slot (acceptance place.now.ballot tally.now.value)) }
{
    let ballot = place.ballot;
    let value = copy_of(&tally.value)?;
    Ok(Message {
        sender: node,
        slot: place.slot,
        body: Body::Accepted(Acceptance { ballot, value }),
    })
}
