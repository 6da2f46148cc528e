//! Nodes that know the log of their journal: they find at once whether they agree with it, however long it is.

ghost use Rattle.std.specs.Prelude.{◌≡◌, []};

use crate::support::{
    Gave, check, config, deliver, journal_with, restart, seat, serve, take, ticket, upload,
};
use ballots::NodeId;
use ghost_log::Opened;
use schedule_runner::Config;
use seats::{Beginning, Journal, OwnEntry, Query, Seat, SeatFault, SeatInput};
use stable_records::MemoryStable;
use std::alloc::Global;
use std::hash::RandomState;
use std::marker::Brand;
use std::test::Fail;

const STRANGE: Gave = Gave::Failed(SeatFault::Strange);

// A journal without a log, of a configuration within its limits.
fn journal_without<J: Beginning>(alloc: Global, config: Config) -> Result<Box<Journal<J>>, Fail> {
    if !config.is_within_limits() {
        return Err(Fail::from("no configuration"));
    }
    Ok(Box::new(alloc, Journal::new(alloc, config))?)
}

// A put, a tick, and the delivery of each message that comes of it to the only member.
fn decide<J: Beginning>(
    alloc: Global,
    seat: &mut Seat<MemoryStable, J>,
    journal: &mut Journal<J>,
    number: u64,
) -> Result<(), Fail> {
    let put = take(seat, journal, SeatInput::Put(upload(alloc, number)?));
    check(matches!(put, Gave::Entered(_)), "a put is not taken")?;
    let first = journal.trace().sent().len() as u64;
    let tick = take(seat, journal, SeatInput::Tick(0));
    check(matches!(tick, Gave::Entered(_)), "a tick is not taken")?;
    for message in first..first.saturating_add(4) {
        let given = deliver(seat, journal, message)?;
        check(matches!(given, Gave::Entered(_)), "a message is not taken")?;
    }
    Ok(())
}

// Two seats of one node at one journal: the second agrees until the first has an entry, and a query is none.
fn two_of_one_node<J: Beginning>(
    alloc: Global,
    hashing: RandomState,
    log: Opened<OwnEntry>,
) -> Result<(), Fail>
    requires named { log ≡ J.book }
    requires start { J.start ≡ [] }
{
    let config = config(2, 100)?;
    let mut journal = journal_with::<J>(alloc, config, log)?;
    let mut one = seat::<MemoryStable, J>(alloc, hashing, 0, config, MemoryStable::new(alloc))?;
    let mut twin = seat::<MemoryStable, J>(alloc, hashing, 0, config, MemoryStable::new(alloc))?;
    let mut other = seat::<MemoryStable, J>(alloc, hashing, 1, config, MemoryStable::new(alloc))?;
    let asked = serve(&mut twin, &mut journal, Query::Get(ticket(alloc, 1)?));
    check(asked == Gave::Entered(0), "a query is not entered")?;
    let put = take(&mut one, &mut journal, SeatInput::Put(upload(alloc, 1)?));
    check(put == Gave::Entered(1), "a put is not taken")?;
    check(
        one.agrees(&journal) && !twin.agrees(&journal) && other.agrees(&journal),
        "who agrees",
    )?;
    check(
        restart(&mut twin, &mut journal) == STRANGE,
        "the twin is not strange",
    )?;
    check(
        restart(&mut other, &mut journal) == Gave::Entered(2),
        "no restart of the other",
    )?;
    check(
        restart(&mut one, &mut journal) == Gave::Entered(3),
        "no restart",
    )?;
    check(
        one.agrees(&journal) && other.agrees(&journal),
        "a seat does not agree",
    )?;
    let put = take(&mut twin, &mut journal, SeatInput::Put(upload(alloc, 1)?));
    check(put == STRANGE, "the twin takes a put")?;
    counts(&journal)
}

// The two members have two entries of their own, and one; whoever is no member has no count.
fn counts<J: Beginning>(journal: &Journal<J>) -> Result<(), Fail> {
    let first = NodeId::new(0).ok_or("no node")?;
    let second = NodeId::new(1).ok_or("no node")?;
    let third = NodeId::new(2).ok_or("no node")?;
    check(
        journal.own_count(first) == Some(2),
        "the first member's entries",
    )?;
    check(
        journal.own_count(second) == Some(1),
        "the second member's entries",
    )?;
    check(journal.own_count(third).is_none(), "another node's entries")
}

#[test]
fn a_second_seat_of_a_node_is_strange(rt: HostRuntime) -> Result<(), Fail> {
    two_of_one_node::<Brand>(rt.alloc(), RandomState::new(&rt)?, Opened::new())
}

// A seat that knows a log, and a journal that has none: entries are compared one by one.
fn another_journal<J: Beginning>(
    alloc: Global,
    hashing: RandomState,
    log: Opened<OwnEntry>,
) -> Result<(), Fail>
    requires named { log ≡ J.book }
    requires start { J.start ≡ [] }
{
    let config = config(1, 100)?;
    let mut journal = journal_with::<J>(alloc, config, log)?;
    let mut without = journal_without::<J>(alloc, config)?;
    let mut one = seat::<MemoryStable, J>(alloc, hashing, 0, config, MemoryStable::new(alloc))?;
    let mut two = seat::<MemoryStable, J>(alloc, hashing, 0, config, MemoryStable::new(alloc))?;
    decide(alloc, &mut one, &mut journal, 1)?;
    check(
        !one.agrees(&without),
        "it agrees with a journal without an entry",
    )?;
    decide(alloc, &mut two, &mut without, 1)?;
    check(
        one.agrees(&without) && two.agrees(&journal),
        "equal entries do not agree",
    )?;
    let tick = take(&mut one, &mut without, SeatInput::Tick(0));
    check(tick == Gave::Entered(6), "a tick is not taken")?;
    check(
        one.agrees(&without) && !one.agrees(&journal),
        "who agrees behind it",
    )
}

#[test]
fn a_journal_without_a_log_is_compared_by_its_entries(rt: HostRuntime) -> Result<(), Fail> {
    another_journal::<Brand>(rt.alloc(), RandomState::new(&rt)?, Opened::new())
}
