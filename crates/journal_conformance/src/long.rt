//! Thousands of entries: the seat agrees with its journal to the end, and what was sent is lawful.

use crate::support::{Gave, check, config, deliver, journal, seat, take, upload};
use schedule_runner::audit;
use seats::{Journal, Seat, SeatInput};
use stable_records::MemoryStable;
use std::alloc::Global;
use std::hash::RandomState;
use std::test::Fail;

const ATTEMPTS: u64 = 500;

// A put, a tick, and the delivery of each message that comes of it to the only member.
fn decide(
    alloc: Global,
    seat: &mut Seat<MemoryStable>,
    journal: &mut Journal,
    number: u64,
) -> Result<(), Fail> {
    let put = take(seat, journal, SeatInput::Put(upload(alloc, number)?));
    check(matches!(put, Gave::Entered(_)), "a put is not taken")?;
    let first = journal.trace().sent().len() as u64;
    let tick = take(seat, journal, SeatInput::Tick(0));
    check(matches!(tick, Gave::Entered(_)), "a tick is not taken")?;
    for message in first..first.saturating_add(4) {
        let given = deliver(seat, journal, message)?;
        check(matches!(given, Gave::Entered(_)), "a message is not taken")?;
    }
    Ok(())
}

#[test]
fn thousands_of_entries_agree(rt: HostRuntime) -> Result<(), Fail> {
    let alloc = rt.alloc();
    let mut config = config(1, 10_000)?;
    config.slot_limit = 1000;
    let mut journal = journal(alloc, config)?;
    let mut seat = seat(
        alloc,
        RandomState::new(&rt)?,
        0,
        config,
        MemoryStable::new(alloc),
    )?;
    for number in 0..ATTEMPTS {
        decide(alloc, &mut seat, &mut journal, number)?;
    }
    assert!(rt; seat.agrees(&journal));
    assert!(rt; journal.trace().steps().len() == 3000 && journal.trace().sent().len() == 2000);
    assert!(rt; audit(journal.trace()));
    Ok(())
}
