//! The two maps of an acceptor, by slots: what is promised, and what is accepted.

ghost use Rattle.std.specs.Prelude.{◌≡◌, ◌<◌, ◌≤◌, ◌+◌, Some, option_map, IfOk, IsSorted};
ghost use Rattle.std.specs.Ordering.{nat_cmp};
ghost use Rattle.indexmap.specs.IndexMap.{keys, spare};
ghost use Rattle.acceptor.specs.AcceptorState.{at};
ghost use Rattle.ballots.specs.Limits.{max_slot};
ghost use Rattle.ballots.specs.Slots.{SetsSlot};
ghost use Rattle.acceptor.specs.Raising.{Raises};
ghost use Rattle.acceptor.specs.Ranged.{AreAcceptances, IsHighestFrom};

use crate::ranges::higher_of;
use ballots::{Acceptance, Ballot, OutOfMemory, Slot};
use indexmap::IndexMap;
use std::alloc::Global;

pub(crate) fn held_promise(promises: &IndexMap<Slot, Ballot>, slot: Slot) -> Option<Ballot>
    ensures { result ≡ at promises.now.entries slot }
{
    promises.get(&slot).copied()
}

pub(crate) fn held_acceptance(
    acceptances: &IndexMap<Slot, Acceptance>,
    slot: Slot,
) -> Option<&Acceptance>
    ensures { option_map (λ held. held.now) result ≡ at acceptances.now.entries slot }
{
    acceptances.get(&slot)
}

// The highest of the promises of this slot and of all above it.
pub(crate) fn highest_promise_from(promises: &IndexMap<Slot, Ballot>, first: Slot) -> Option<Ballot>
    ensures highest { IsHighestFrom (at promises.now.entries) first result }
    ensures within { first ≤ max_slot }
{
    let least = first.number();
    let mut highest = None;
    for (slot, ballot) in promises {
        if least <= slot.number() {
            highest = higher_of(highest, Some(*ballot));
        }
    }
    highest
}

// What this slot and all above it have accepted, from a map that is sorted by slots.
pub(crate) fn acceptances_from(
    alloc: Global,
    acceptances: &IndexMap<Slot, Acceptance>,
    first: Slot,
) -> Result<Vec<(Slot, Acceptance)>, OutOfMemory>
    requires { IsSorted nat_cmp (keys acceptances.now) }
    ensures { IfOk result (λ reports. AreAcceptances (at acceptances.now.entries) first reports.items) }
{
    let mut reports = Vec::new(alloc);
    for (slot, acceptance) in acceptances {
        if first.number() <= slot.number() {
            reports.push((*slot, acceptance.clone()?))?;
        }
    }
    Ok(reports)
}

// Makes this the slot's promise, without memory.
pub(crate) fn put_promise(promises: &mut IndexMap<Slot, Ballot>, slot: Slot, ballot: Ballot)
    requires { 0 < spare promises.old }
    ensures puts { SetsSlot (at promises.old.entries) (at promises.new.entries) slot (Some ballot) }
    ensures room { spare promises.old ≤ spare promises.new + 1 }
{
    let Ok(_) = promises.insert(slot, ballot) else {
        unreachable!()
    };
}

// Makes this what the slot has accepted, without memory.
pub(crate) fn put_acceptance(
    acceptances: &mut IndexMap<Slot, Acceptance>,
    slot: Slot,
    acceptance: Acceptance,
)
    requires { 0 < spare acceptances.old }
    ensures puts { SetsSlot (at acceptances.old.entries) (at acceptances.new.entries) slot (Some acceptance) }
    ensures room { spare acceptances.old ≤ spare acceptances.new + 1 }
{
    let Ok(_) = acceptances.insert(slot, acceptance) else {
        unreachable!()
    };
}

// Makes this the slot's promise, unless a higher one is there, without memory.
pub(crate) fn raise_promise(promises: &mut IndexMap<Slot, Ballot>, slot: Slot, ballot: Ballot)
    requires { 0 < spare promises.old }
    ensures raises { Raises (λ held. held) (at promises.old.entries) (at promises.new.entries) slot ballot }
    ensures room { spare promises.old ≤ spare promises.new + 1 }
{
    if let Some(held) = held_promise(promises, slot) {
        if ballot.is_below(held) {
            return;
        }
    }
    put_promise(promises, slot, ballot);
}

// Makes this what the slot has accepted, unless it has accepted at a higher ballot, without memory.
pub(crate) fn raise_acceptance(
    acceptances: &mut IndexMap<Slot, Acceptance>,
    slot: Slot,
    acceptance: Acceptance,
)
    requires { 0 < spare acceptances.old }
    ensures raises { Raises (λ held. held.ballot) (at acceptances.old.entries) (at acceptances.new.entries)
        slot acceptance }
    ensures room { spare acceptances.old ≤ spare acceptances.new + 1 }
{
    let ballot = acceptance.ballot;
    if let Some(
        Acceptance {
            ballot: highest,
            ..
        },
    ) = held_acceptance(acceptances, slot)
    {
        if ballot.is_below(*highest) {
            return;
        }
    }
    put_acceptance(acceptances, slot, acceptance);
}
