//! Three nodes take the events of a run one by one: the journal is the trace of the run.

use crate::support::{Gave, Trio, check, deliver, serve, take, three, ticket, upload};
use schedule_runner::{Event, EventResult, Trace, run};
use seats::{Query, SeatInput};
use std::alloc::Global;
use std::hash::RandomState;
use std::test::Fail;
use table_versions::Outcome;

/// By which an upload is decided at node 0 where nothing is lost: each message to each of these nodes.
const DELIVERIES: [(u64, u64); 8] = [
    (0, 0),
    (1, 0),
    (0, 1),
    (0, 2),
    (0, 3),
    (1, 3),
    (0, 4),
    (0, 5),
];

// A put, a tick, and the deliveries.
fn attempt(alloc: Global) -> Result<Vec<Event>, Fail> {
    let mut events = Vec::new(alloc);
    events.push(Event::Put(0, upload(alloc, 1)?))?;
    events.push(Event::Tick(0, 0))?;
    for (node, number) in &DELIVERIES {
        events.push(Event::Deliver(*node, *number))?;
    }
    Ok(events)
}

impl Trio {
    // The input of this number comes to the node, a message of the journal.
    fn delivers(&mut self, node: u64, number: u64) -> Result<Gave, Fail> {
        let seat = self.seats.get_mut(node as usize).ok_or("no seat")?;
        deliver(seat, &mut self.journal, number)
    }

    fn takes(&mut self, node: u64, input: SeatInput) -> Result<Gave, Fail> {
        match self.seats.get_mut(node as usize) {
            Some(seat) => Ok(take(seat, &mut self.journal, input)),
            None => {
                drop(input);
                Err(Fail::from("no seat"))
            }
        }
    }

    fn serves(&mut self, node: u64, query: Query) -> Result<Gave, Fail> {
        match self.seats.get_mut(node as usize) {
            Some(seat) => Ok(serve(seat, &mut self.journal, query)),
            None => {
                drop(query);
                Err(Fail::from("no seat"))
            }
        }
    }

    // The same by calls of the seats, behind so many entries.
    fn attempts(&mut self, alloc: Global, before: u64) -> Result<(), Fail> {
        let put = self.takes(0, SeatInput::Put(upload(alloc, 1)?))?;
        check(put == Gave::Entered(before), "the put is not taken")?;
        let mut next = before.saturating_add(1);
        let tick = self.takes(0, SeatInput::Tick(0))?;
        check(tick == Gave::Entered(next), "the tick is not taken")?;
        next = next.saturating_add(1);
        for (node, number) in &DELIVERIES {
            let given = self.delivers(*node, *number)?;
            check(given == Gave::Entered(next), "a delivery is not taken")?;
            next = next.saturating_add(1);
        }
        Ok(())
    }
}

// Whether the two tell the same steps and messages.
fn are_same(one: &Trace, other: &Trace) -> bool {
    one.steps().len() == other.steps().len()
        && one.steps().iter().enumerate().all(|(place, step)| match other.steps().get(place) {
            Some(same) => step.event.same_as(&same.event) && step.result == same.result,
            None => false,
        })
        && one.sent() == other.sent()
}

#[test]
fn the_journal_is_the_trace_of_the_run(rt: HostRuntime) -> Result<(), Fail> {
    let alloc = rt.alloc();
    let hashing = RandomState::new(&rt)?;
    let mut trio = three(alloc, hashing, 100)?;
    trio.attempts(alloc, 0)?;
    let config = trio.journal.config();
    let Ok(trace) = run(alloc, hashing, config, attempt(alloc)?.as_slice()) else {
        return Err(Fail::from("no run"));
    };
    assert!(rt; are_same(trio.journal.trace(), &trace));
    assert!(rt; trio.journal.trace().sent().len() == 6);
    Ok(())
}

// What the last entry of the journal gave.
fn last_given(trio: &Trio) -> Result<&EventResult, Fail> {
    let steps = trio.journal.trace().steps();
    Ok(&steps.last().ok_or("no step")?.result)
}

#[test]
fn clients_are_answered_from_the_tables(rt: HostRuntime) -> Result<(), Fail> {
    let alloc = rt.alloc();
    let mut trio = three(alloc, RandomState::new(&rt)?, 100)?;
    let asked = trio.serves(0, Query::Outcome(upload(alloc, 1)?))?;
    assert!(rt; asked == Gave::Entered(0));
    assert!(rt; *last_given(&trio)? == EventResult::Outcome(Outcome::Unknown));
    trio.attempts(alloc, 1)?;
    let asked = trio.serves(0, Query::Outcome(upload(alloc, 1)?))?;
    assert!(rt; asked == Gave::Entered(11));
    assert!(rt; *last_given(&trio)? == EventResult::Outcome(Outcome::Applied(1)));
    let got = trio.serves(0, Query::Get(ticket(alloc, 1)?))?;
    assert!(rt; got == Gave::Entered(12));
    assert!(rt; matches!(last_given(&trio)?, EventResult::Answer(_)));
    let got = trio.serves(2, Query::Get(ticket(alloc, 1)?))?;
    assert!(rt; got == Gave::Entered(13));
    assert!(rt; *last_given(&trio)? == EventResult::Unavailable);
    Ok(())
}
