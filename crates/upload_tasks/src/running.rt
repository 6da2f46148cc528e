//! Nodes that share a journal.

ghost use Rattle.std.specs.Prelude.{◌≡◌, IfOk, []};

use crate::events::events_of;
use crate::plan::plan_in;
use crate::runs::weight;
use ballots::NodeId;
use ghost_log::Opened;
use part_tasks::{TaskFault, push};
use schedule_runner::{Config, Event};
use seats::{Beginning, Journal, OwnEntry, Query, Receipt, Seat, SeatFault, SeatInput};
use stable_records::MemoryStable;
use std::alloc::Global;
use std::hash::RandomState;
use std::marker::Brand;

type Members<J> = Vec<Box<Seat<MemoryStable, J>>>;

fn boxed<T: Drop>(alloc: Global, value: T) -> Result<Box<T>, TaskFault> {
    match Box::new(alloc, value) {
        Ok(boxed) => Ok(boxed),
        Err(refused) => {
            drop(refused);
            Err(TaskFault::OutOfMemory)
        }
    }
}

/// The member of this number, with a store in memory.
fn member_of<J: Beginning>(
    alloc: Global,
    hashing: RandomState,
    config: Config,
    number: u8,
) -> Result<Box<Seat<MemoryStable, J>>, TaskFault>
    requires { J.start ≡ [] }
{
    let Some(me) = NodeId::new(number) else {
        return Err(TaskFault::BadConfig);
    };
    if !config.is_within_limits() || !config.members.have(me) {
        return Err(TaskFault::BadConfig);
    }
    match Seat::open(alloc, hashing, me, config, MemoryStable::new(alloc)) {
        Ok(Some(seat)) => boxed(alloc, seat),
        _ => Err(TaskFault::OutOfMemory),
    }
}

fn members_of<J: Beginning>(
    alloc: Global,
    hashing: RandomState,
    config: Config,
) -> Result<Members<J>, TaskFault>
    requires { J.start ≡ [] }
{
    let mut members = Vec::new(alloc);
    for number in 0..config.members.count() {
        push(&mut members, member_of(alloc, hashing, config, number)?)?;
    }
    Ok(members)
}

fn take<J: Beginning>(
    seat: &mut Seat<MemoryStable, J>,
    journal: &mut Journal<J>,
    input: SeatInput,
) -> Result<Receipt, SeatFault> {
    let prepared = seat.prepare(input)?;
    seat.take(journal, prepared)
}

fn serve<J: Beginning>(
    seat: &mut Seat<MemoryStable, J>,
    journal: &mut Journal<J>,
    query: Query,
) -> Result<Receipt, SeatFault> {
    let found = seat.read(query)?;
    seat.serve(journal, found)
}

/// The event at its node, which has a receipt of it.
fn receipt_of<J: Beginning>(
    seat: &mut Seat<MemoryStable, J>,
    journal: &mut Journal<J>,
    event: &Event,
) -> Result<Result<Receipt, SeatFault>, TaskFault> {
    match event {
        Event::Put(_, upload) => Ok(take(seat, journal, SeatInput::Put(upload.clone()?))),
        Event::Tick(_, left) => Ok(take(seat, journal, SeatInput::Tick(*left))),
        Event::Deliver(_, number) => {
            let message = journal.message(*number).ok_or(TaskFault::Refused)?.clone()?;
            Ok(take(seat, journal, SeatInput::Deliver(*number, message)))
        }
        Event::Outcome(_, upload) => Ok(serve(seat, journal, Query::Outcome(upload.clone()?))),
        _ => Err(TaskFault::Refused),
    }
}

/// What the events weigh where they are taken by seats that share this journal.
fn journal_weight<J: Beginning>(
    alloc: Global,
    hashing: RandomState,
    events: &[Event],
    mut journal: Box<Journal<J>>,
) -> Result<u64, TaskFault>
    requires { J.start ≡ [] }
{
    let mut members = members_of(alloc, hashing, journal.config())?;
    for event in events {
        let Some(seat) = members.get_mut(event.node() as usize) else {
            return Err(TaskFault::Refused);
        };
        match receipt_of(seat, &mut journal, event)? {
            Ok(receipt) => drop(receipt),
            Err(_) => return Err(TaskFault::Refused),
        }
    }
    weight(journal.trace())
}

/// The same with a journal that has a log.
fn logged_weight<J: Beginning>(
    alloc: Global,
    hashing: RandomState,
    config: Config,
    events: &[Event],
    log: Opened<OwnEntry>,
) -> Result<u64, TaskFault>
    requires named { log ≡ J.book }
    requires start { J.start ≡ [] }
{
    if !config.is_within_limits() {
        return Err(TaskFault::BadConfig);
    }
    let journal = boxed(alloc, Journal::<J>::with_log(alloc, config, log))?;
    journal_weight(alloc, hashing, events, journal)
}

/// The same with a journal that has none.
fn compared_weight(
    alloc: Global,
    hashing: RandomState,
    config: Config,
    events: &[Event],
) -> Result<u64, TaskFault> {
    if !config.is_within_limits() {
        return Err(TaskFault::BadConfig);
    }
    let journal = boxed(alloc, Journal::<Brand>::new(alloc, config))?;
    journal_weight(alloc, hashing, events, journal)
}

/// The same with a journal that has a log of its own.
fn known_weight(
    alloc: Global,
    hashing: RandomState,
    config: Config,
    events: &[Event],
) -> Result<u64, TaskFault> {
    logged_weight::<Brand>(alloc, hashing, config, events, Opened::new())
}

/// Plays a leader that loses no message so many times at seats that share a journal, each time over new ones. The journal
/// has a log of the nodes' own entries. A repetition weighs what a run of the same events does.
pub fn seat_often(
    alloc: Global,
    hashing: RandomState,
    count: u64,
    bytes: &[u8],
) -> Result<u64, TaskFault>
    ensures none { count ≡ 0 → IfOk result (λ sum. sum ≡ 0) }
{
    let plan = plan_in(alloc, bytes)?;
    let events = events_of(alloc, &plan)?;
    let mut sum: u64 = 0;
    for _ in 0..count {
        sum = sum.wrapping_add(known_weight(alloc, hashing, plan.config, &events)?);
    }
    Ok(sum)
}

/// The same with a journal that has no log, so that each call compares entries.
pub fn compare_often(
    alloc: Global,
    hashing: RandomState,
    count: u64,
    bytes: &[u8],
) -> Result<u64, TaskFault>
    ensures none { count ≡ 0 → IfOk result (λ sum. sum ≡ 0) }
{
    let plan = plan_in(alloc, bytes)?;
    let events = events_of(alloc, &plan)?;
    let mut sum: u64 = 0;
    for _ in 0..count {
        sum = sum.wrapping_add(compared_weight(alloc, hashing, plan.config, &events)?);
    }
    Ok(sum)
}
