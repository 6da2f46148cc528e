//! Two leaders that take the promises from each other.

use crate::support::{push_deliveries, upload};
use schedule_runner::Event;
use std::alloc::Global;
use std::test::Fail;

/// How many ballots the two begin.
const BALLOTS: u64 = 20;

// The number of the Prepare of the ballot of this number, from 0 on: the first is message 0, and five more are sent between
// the later ones.
fn prepare_of(ballot: u64) -> u64 {
    ballot.saturating_mul(6).saturating_sub(3)
}

// The leader of this ballot begins: it and node 2 promise.
fn push_begin(events: &mut Vec<Event>, ballot: u64) -> Result<(), Fail> {
    let leader = ballot % 2;
    let prepare = prepare_of(ballot);
    events.push(Event::Tick(leader, 0))?;
    push_deliveries(events, &[(leader, prepare), (2, prepare)])
}

// The leader of this ballot, after the other began the next one, has its two promises and proposes, message `accept`: it
// accepts that itself, node 2 refuses it, and tells the leader.
fn push_proposal(events: &mut Vec<Event>, ballot: u64, accept: u64) -> Result<(), Fail> {
    let leader = ballot % 2;
    let prepare = prepare_of(ballot);
    for number in [1, 2] {
        events.push(Event::Deliver(leader, prepare.saturating_add(number)))?;
    }
    push_deliveries(events, &[(leader, accept), (2, accept)])?;
    for number in [1, 2] {
        events.push(Event::Deliver(leader, accept.saturating_add(number)))?;
    }
    Ok(())
}

/// Nodes 0 and 1 duel: each begins above the other before its proposal comes to node 2.
pub(crate) fn push_duel(events: &mut Vec<Event>, alloc: Global) -> Result<(), Fail> {
    events.push(Event::Put(0, upload(alloc, 0)?))?;
    events.push(Event::Put(1, upload(alloc, 1)?))?;
    push_begin(events, 0)?;
    for ballot in 1..BALLOTS {
        push_begin(events, ballot)?;
        push_proposal(events, ballot - 1, ballot.saturating_mul(6))?;
    }
    Ok(())
}

/// Then node 1, which began last, is left alone, and node 0 begins once more, message 120.
pub(crate) fn push_end(events: &mut Vec<Event>, alloc: Global) -> Result<(), Fail> {
    push_proposal(events, BALLOTS - 1, 117)?;
    events.push(Event::Tick(0, 0))?;
    push_deliveries(events, &[(0, 120), (2, 120), (0, 121), (0, 122)])?;
    push_deliveries(events, &[(0, 123), (2, 123), (0, 124), (0, 125)])?;
    for node in 0..2 {
        for number in 0..2 {
            events.push(Event::Outcome(node, upload(alloc, number)?))?;
        }
    }
    Ok(())
}
