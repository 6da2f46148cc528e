//! Records by their numbers, and what a list of them leaves of a slot: it is looked through from front to back.

use crate::support::{ballot, slot};
use acceptor::Acceptor;
use ballots::{Acceptance, Record, Value};
use std::alloc::Global;
use std::test::Fail;

/// A record by the number of its slot, the first one where it is of more, and by the round of its ballot.
#[derive(Clone, Copy)]
pub(crate) enum Told {
    Promised(u32, u32),
    Accepted(u32, u32),
    PromisedFrom(u32, u32),
}

/// The record itself. All ballots are of one node, and all values are Noops.
pub(crate) fn record(told: Told) -> Result<Record, Fail> {
    match told {
        Told::Promised(number, round) => Ok(Record::Promised(slot(number)?, ballot(round)?)),
        Told::Accepted(number, round) => Ok(Record::Accepted(slot(number)?, proposal(round)?)),
        Told::PromisedFrom(first, round) => Ok(Record::PromisedFrom(slot(first)?, ballot(round)?)),
    }
}

/// A Noop at the ballot of the round.
pub(crate) fn proposal(round: u32) -> Result<Acceptance, Fail> {
    Ok(Acceptance {
        ballot: ballot(round)?,
        value: Value::Noop,
    })
}

// The round that a record promises in the slot of this number, 0 where it promises nothing there.
fn promise_in(told: Told, number: u32) -> u32 {
    match told {
        Told::Promised(of, round) if of == number => round,
        Told::Accepted(of, round) if of == number => round,
        Told::PromisedFrom(first, round) if first <= number => round,
        _ => 0,
    }
}

// The round that a record accepts at in the slot of this number, 0 where it accepts nothing there.
fn acceptance_in(told: Told, number: u32) -> u32 {
    match told {
        Told::Accepted(of, round) if of == number => round,
        _ => 0,
    }
}

fn highest_promise(list: &[Told], number: u32) -> u32 {
    let mut highest = 0;
    for told in list {
        highest = promise_in(*told, number).max(highest);
    }
    highest
}

fn highest_acceptance(list: &[Told], number: u32) -> u32 {
    let mut highest = 0;
    for told in list {
        highest = acceptance_in(*told, number).max(highest);
    }
    highest
}

// Whether the slot of this number has promised the round's ballot, and nothing where the round is 0.
fn has_promised(acceptor: &Acceptor, number: u32, round: u32) -> Result<bool, Fail> {
    match acceptor.promised(slot(number)?) {
        Some(promised) => Ok(promised == ballot(round)?),
        None => Ok(round == 0),
    }
}

fn has_accepted(acceptor: &Acceptor, number: u32, round: u32) -> Result<bool, Fail> {
    match acceptor.accepted(slot(number)?) {
        Some(held) => Ok(*held == proposal(round)?),
        None => Ok(round == 0),
    }
}

/// Whether the acceptor has in the slot of this number what these records leave there.
pub(crate) fn is_left(acceptor: &Acceptor, list: &[Told], number: u32) -> Result<bool, Fail> {
    let is_promised = has_promised(acceptor, number, highest_promise(list, number))?;
    Ok(is_promised && has_accepted(acceptor, number, highest_acceptance(list, number))?)
}

/// Whether the acceptor has that in each of these slots.
pub(crate) fn are_left(acceptor: &Acceptor, list: &[Told], numbers: &[u32]) -> Result<bool, Fail> {
    for number in numbers {
        if !is_left(acceptor, list, *number)? {
            return Ok(false);
        }
    }
    Ok(true)
}

/// The acceptor that these records leave.
pub(crate) fn restored(alloc: Global, list: &[Told]) -> Result<Acceptor, Fail> {
    let mut records = Vec::new(alloc);
    for told in list {
        records.push(record(*told)?)?;
    }
    Ok(Acceptor::from_records(alloc, &records)?)
}
