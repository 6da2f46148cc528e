//! Stores that fail as a record is kept: one entry says that the node went down, and it starts again with the record or
//! without.

ghost use Rattle.std.specs.Prelude.{true, false};
ghost use Rattle.journal_conformance.specs.Forgetful.{untold};

use crate::support::{
    Gave, check, config, deliver, journal, restart, seat, serve, take, ticket, upload,
};
use ballots::{Body, Record};
use node_events::Event;
use schedule_runner::Config;
use seats::{Journal, Query, Seat, SeatFault, SeatInput};
use stable_records::{FailingStable, MemoryStable, Stable, StoreFault};
use std::alloc::Global;
use std::hash::RandomState;
use std::test::Fail;

type Failing = Seat<FailingStable<MemoryStable>>;

const DEVICE: Gave = Gave::Failed(SeatFault::Store(StoreFault::Device));

const DOWN: Gave = Gave::Failed(SeatFault::Down);

// Whether the last entry is the cut of a tick.
fn ends_in_a_cut(journal: &Journal) -> bool {
    match journal.trace().steps().last() {
        Some(step) => matches!(step.event, Event::TickCut(0, 0)),
        None => false,
    }
}

// The round of the Prepare that was sent last, 0 where none was.
fn last_round(journal: &Journal) -> u32 {
    match journal.trace().sent().last() {
        Some(message) => match &message.body {
            Body::Prepare { ballot } => ballot.round(),
            _ => 0,
        },
        None => 0,
    }
}

// A tick whose record the store fails to keep; the node is down, starts again, and begins at this round.
fn fails_in_a_tick(alloc: Global, hashing: RandomState, keeps_last: bool) -> Result<u32, Fail> {
    let config = config(1, 100)?;
    let mut journal = journal(alloc, config)?;
    let store = FailingStable::new(MemoryStable::new(alloc), 1, keeps_last);
    let mut seat = seat(alloc, hashing, 0, config, store)?;
    let put = take(&mut seat, &mut journal, SeatInput::Put(upload(alloc, 1)?));
    check(put == Gave::Entered(0), "the put is not taken")?;
    let tick = take(&mut seat, &mut journal, SeatInput::Tick(0));
    check(
        tick == DEVICE && ends_in_a_cut(&journal),
        "the tick does not fail",
    )?;
    check(
        is_down(alloc, &mut seat, &mut journal)?,
        "the node is not down",
    )?;
    let started = restart(&mut seat, &mut journal);
    check(started == Gave::Entered(2), "the node does not start again")?;
    check(
        journal.recovered().last() == Some(&keeps_last),
        "the record is recovered otherwise",
    )?;
    let put = take(&mut seat, &mut journal, SeatInput::Put(upload(alloc, 1)?));
    check(put == Gave::Entered(3), "the second put is not taken")?;
    let tick = take(&mut seat, &mut journal, SeatInput::Tick(0));
    check(tick == Gave::Entered(4), "the second tick is not taken")?;
    Ok(last_round(&journal))
}

// Whether every call but a restart says that the node is down, and enters nothing.
fn is_down<S: Stable + Drop>(
    alloc: Global,
    seat: &mut Seat<S>,
    journal: &mut Journal,
) -> Result<bool, Fail> {
    let entries = journal.trace().steps().len();
    let tick = take(seat, journal, SeatInput::Tick(0));
    let get = serve(seat, journal, Query::Get(ticket(alloc, 1)?));
    let outcome = serve(seat, journal, Query::Outcome(upload(alloc, 1)?));
    Ok(
        tick == DOWN
            && get == DOWN
            && outcome == DOWN
            && seat.node().is_err()
            && journal.trace().steps().len() == entries,
    )
}

#[test]
fn a_tick_whose_record_may_be_kept_takes_the_node_down(rt: HostRuntime) -> Result<(), Fail> {
    let hashing = RandomState::new(&rt)?;
    assert!(rt; fails_in_a_tick(rt.alloc(), hashing, false)? == 1);
    assert!(rt; fails_in_a_tick(rt.alloc(), hashing, true)? == 2);
    Ok(())
}

// Three members, of which the second fails to keep the second record that is due.
fn three_of_which_one_fails(
    alloc: Global,
    hashing: RandomState,
    config: Config,
    keeps_last: bool,
) -> Result<Vec<Box<Failing>>, Fail> {
    let mut seats = Vec::new(alloc);
    for number in 0..3 {
        let passed = if number == 1 { 2 } else { 100 };
        let store = FailingStable::new(MemoryStable::new(alloc), passed, keeps_last);
        seats.push(seat(alloc, hashing, number, config, store)?)?;
    }
    Ok(seats)
}

// Each message to each of these nodes, behind a put and a tick at the first: it sends its Accept as the last.
const BEFORE_THE_ACCEPT: [(usize, u64); 4] = [(0, 0), (1, 0), (0, 1), (0, 2)];

// The seat of this number.
fn at(seats: &mut [Box<Failing>], number: usize) -> Result<&mut Box<Failing>, Fail> {
    match seats.get_mut(number) {
        Some(seat) => Ok(seat),
        None => Err(Fail::from("no seat")),
    }
}

// The put and the tick of an attempt at this node, behind so many entries.
fn begins(
    alloc: Global,
    seat: &mut Failing,
    journal: &mut Journal,
    number: u64,
    before: u64,
) -> Result<(), Fail> {
    let put = take(seat, journal, SeatInput::Put(upload(alloc, number)?));
    check(put == Gave::Entered(before), "the put is not taken")?;
    let tick = take(seat, journal, SeatInput::Tick(0));
    check(
        tick == Gave::Entered(before.saturating_add(1)),
        "the tick is not taken",
    )
}

// The second node goes down as it is handed an Accept, and starts again.
fn fails_in_an_accept(
    alloc: Global,
    seats: &mut [Box<Failing>],
    journal: &mut Journal,
    keeps_last: bool,
) -> Result<(), Fail> {
    begins(alloc, at(seats, 0)?, journal, 1, 0)?;
    for (node, number) in &BEFORE_THE_ACCEPT {
        let given = deliver(at(seats, *node)?, journal, *number)?;
        check(matches!(given, Gave::Entered(_)), "a message is not taken")?;
    }
    let second = at(seats, 1)?;
    check(
        deliver(second, journal, 3)? == DEVICE,
        "the Accept does not fail",
    )?;
    check(is_cut(journal, 1, 3), "the last entry is no cut delivery")?;
    check(restart(second, journal) == Gave::Entered(7), "no restart")?;
    check(
        journal.recovered().last() == Some(&keeps_last),
        "it is recovered otherwise",
    )
}

// A node goes down as it is handed an Accept, starts again, and answers the next Prepare; whether it reports the proposal.
fn reports_behind_a_fault(
    alloc: Global,
    hashing: RandomState,
    keeps_last: bool,
) -> Result<bool, Fail> {
    let config = config(3, 100)?;
    let mut journal = journal(alloc, config)?;
    let mut seats = three_of_which_one_fails(alloc, hashing, config, keeps_last)?;
    fails_in_an_accept(alloc, &mut seats, &mut journal, keeps_last)?;
    begins(alloc, at(&mut seats, 2)?, &mut journal, 2, 8)?;
    let given = deliver(at(&mut seats, 1)?, &mut journal, 4)?;
    check(given == Gave::Entered(10), "no Prepare is taken")?;
    is_reported(&journal)
}

// Whether the last entry is the cut of the delivery of this message to this node.
fn is_cut(journal: &Journal, node: u64, number: u64) -> bool {
    match journal.trace().steps().last() {
        Some(step) => matches!(step.event, Event::DeliverCut(at, of) if at == node && of == number),
        None => false,
    }
}

// Whether the promise that was sent last reports a proposal.
fn is_reported(journal: &Journal) -> Result<bool, Fail> {
    let message = journal.trace().sent().last().ok_or("no message")?;
    match &message.body {
        Body::Promise { report, .. } => Ok(report.is_some()),
        _ => Err(Fail::from("the last message is no promise")),
    }
}

#[test]
fn a_delivery_whose_record_may_be_kept_takes_the_node_down(rt: HostRuntime) -> Result<(), Fail> {
    let hashing = RandomState::new(&rt)?;
    assert!(rt; reports_behind_a_fault(rt.alloc(), hashing, true)?);
    assert!(rt; !reports_behind_a_fault(rt.alloc(), hashing, false)?);
    Ok(())
}

#[test]
fn a_restart_that_recalls_nothing_changes_nothing(rt: HostRuntime) -> Result<(), Fail> {
    let alloc = rt.alloc();
    let config = config(1, 100)?;
    let mut journal = journal(alloc, config)?;
    let store = FailingStable::new(MemoryStable::new(alloc), 1, false);
    let mut seat = seat(alloc, RandomState::new(&rt)?, 0, config, store)?;
    assert!(rt; restart(&mut seat, &mut journal) == DEVICE);
    assert!(rt; journal.trace().steps().is_empty() && seat.node().is_ok());
    assert!(rt; restart(&mut seat, &mut journal) == Gave::Entered(0));
    Ok(())
}

/// A store that keeps every record and gives none back. It tells nothing of what it has.
#[derive(Drop)]
struct Forgetful {
    kept: u64,
}

impl Stable for Forgetful {
    ghost tells = { false };

    ghost faults = { λ _. 0 };

    ghost is_ready = { λ _. true };

    ghost finds = { λ _ _. Unit {0} };

    ghost moment = { λ _. 0 };

    ghost finds_since = { λ _ _ _. Unit {0} };

    fn keep(&mut self, _told: &Record) -> Result<(), StoreFault> {
        self.kept = self.kept.saturating_add(1);
        Ok(())
    }

    fn recall(&mut self, alloc: Global) -> Result<Vec<Record>, StoreFault> {
        Ok(Vec::new(alloc))
    }

    ghost ready_finds_one = { λ store told ready. untold told };

    ghost counts_now = { λ store t found le here. tt };

    ghost only_now = { λ store found since. tt };
}

#[test]
fn a_node_does_not_restart_without_its_records(rt: HostRuntime) -> Result<(), Fail> {
    let alloc = rt.alloc();
    let config = config(1, 100)?;
    let mut journal = journal(alloc, config)?;
    let mut seat = seat(
        alloc,
        RandomState::new(&rt)?,
        0,
        config,
        Forgetful { kept: 0 },
    )?;
    let put = SeatInput::Put(upload(alloc, 1)?);
    assert!(rt; take(&mut seat, &mut journal, put) == Gave::Entered(0));
    assert!(rt; take(&mut seat, &mut journal, SeatInput::Tick(0)) == Gave::Entered(1));
    assert!(rt; restart(&mut seat, &mut journal) == Gave::Failed(SeatFault::Lost));
    // The node that there is goes on.
    assert!(rt; journal.trace().steps().len() == 2);
    assert!(rt; take(&mut seat, &mut journal, SeatInput::Tick(0)) == Gave::Entered(2));
    assert!(rt; last_round(&journal) == 2);
    Ok(())
}
