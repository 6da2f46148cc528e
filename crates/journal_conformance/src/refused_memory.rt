//! Calls of a seat that are refused memory, and then are made again: behind a refusal seat and journal are as before, or
//! have the one entry of a node that went down.
//! Run with every allocation refused in turn, the test ends as before or for want of memory.

use crate::support::{
    Gave, check, config, deliver, journal, restart, seat, serve, take, ticket, upload,
};
use agreement::Refusal;
use node_events::Event;
use seats::{Journal, Query, Seat, SeatFault, SeatInput};
use stable_records::{MemoryStable, StoreFault};
use std::alloc::Global;
use std::hash::RandomState;
use std::test::Fail;

/// A call of the seat.
#[derive(Clone, Copy)]
enum Call {
    Put,
    Tick,
    Deliver(u64),
    Get,
    Outcome,
    Restart,
}

/// The calls by which an upload is decided at the only member, and what follows.
const CALLS: [Call; 13] = [
    Call::Put,
    Call::Tick,
    Call::Deliver(0),
    Call::Deliver(1),
    Call::Deliver(2),
    Call::Deliver(3),
    Call::Get,
    Call::Outcome,
    Call::Restart,
    Call::Put,
    Call::Tick,
    Call::Deliver(4),
    Call::Get,
];

/// What stands before a call.
#[derive(Clone, Copy)]
struct Before {
    entries: usize,
    messages: usize,
    is_up: bool,
}

fn standing(seat: &Seat<MemoryStable>, journal: &Journal) -> Before {
    Before {
        entries: journal.trace().steps().len(),
        messages: journal.trace().sent().len(),
        is_up: seat.node().is_ok(),
    }
}

fn made(
    alloc: Global,
    seat: &mut Seat<MemoryStable>,
    journal: &mut Journal,
    call: Call,
) -> Result<Gave, Fail> {
    match call {
        Call::Put => Ok(take(seat, journal, SeatInput::Put(upload(alloc, 7)?))),
        Call::Tick => Ok(take(seat, journal, SeatInput::Tick(0))),
        Call::Deliver(number) => deliver(seat, journal, number),
        Call::Get => Ok(serve(seat, journal, Query::Get(ticket(alloc, 1)?))),
        Call::Outcome => Ok(serve(seat, journal, Query::Outcome(upload(alloc, 7)?))),
        Call::Restart => Ok(restart(seat, journal)),
    }
}

/// Whether so many entries more stand behind those from before, and no other messages.
fn has_more(journal: &Journal, before: Before, more: usize) -> bool {
    journal.trace().steps().len() == before.entries.saturating_add(more)
        && journal.trace().sent().len() == before.messages
}

/// Whether the last entry is a cut.
fn ends_in_a_cut(journal: &Journal) -> bool {
    match journal.trace().steps().last() {
        Some(step) => matches!(step.event, Event::TickCut(..) | Event::DeliverCut(..)),
        None => false,
    }
}

/// Whether seat and journal are as what a call gave says, and were so before it.
fn is_promised(
    seat: &Seat<MemoryStable>,
    journal: &Journal,
    call: Call,
    before: Before,
    gave: Gave,
) -> bool {
    let is_up = seat.node().is_ok();
    let is_as = has_more(journal, before, 0) && is_up == before.is_up;
    let is_cut = has_more(journal, before, 1) && !is_up && ends_in_a_cut(journal);
    match gave {
        Gave::Entered(number) => number == before.entries as u64 && is_up,
        Gave::Failed(SeatFault::Refused(Refusal::OutOfMemory)) => is_as,
        Gave::Failed(SeatFault::Store(StoreFault::OutOfMemory)) => match call {
            Call::Restart => is_as,
            _ => is_cut,
        },
        Gave::Failed(_) => false,
    }
}

/// Makes the call once. Whether it was done.
fn make_once(
    alloc: Global,
    seat: &mut Seat<MemoryStable>,
    journal: &mut Journal,
    call: Call,
) -> Result<bool, Fail> {
    let before = standing(seat, journal);
    let gave = made(alloc, seat, journal, call)?;
    check(seat.agrees(journal), "seat and journal differ")?;
    check(
        is_promised(seat, journal, call, before, gave),
        "another answer, or something else stands",
    )?;
    Ok(matches!(gave, Gave::Entered(_)))
}

/// Makes the call, and again where memory was refused; behind a restart where the node went down.
fn make(
    alloc: Global,
    seat: &mut Seat<MemoryStable>,
    journal: &mut Journal,
    call: Call,
) -> Result<(), Fail> {
    for _ in 0..2 {
        if seat.node().is_err() {
            make_once(alloc, seat, journal, Call::Restart)?;
        }
        if make_once(alloc, seat, journal, call)? {
            return Ok(());
        }
    }
    Err(Fail::from("refused again"))
}

/// Makes all calls. A message that was not sent, since the node went down, is passed over.
fn make_all(
    alloc: Global,
    seat: &mut Seat<MemoryStable>,
    journal: &mut Journal,
) -> Result<(), Fail> {
    for call in &CALLS {
        match call {
            Call::Deliver(number) if journal.message(*number).is_none() => {}
            call => make(alloc, seat, journal, *call)?,
        }
    }
    Ok(())
}

#[test]
fn each_call_of_a_seat_is_made_again(rt: HostRuntime) -> Result<(), Fail> {
    let alloc = rt.alloc();
    let config = config(1, 100)?;
    let mut journal = journal(alloc, config)?;
    let store = MemoryStable::new(alloc);
    let mut seat = seat(alloc, RandomState::new(&rt)?, 0, config, store)?;
    make_all(alloc, &mut seat, &mut journal)?;
    assert!(rt; journal.trace().steps().len() >= 9);
    Ok(())
}
