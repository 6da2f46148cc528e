//! A journal that forgets its steps: it is never full, holds the last messages, and its nodes do as they do with one that
//! holds all.

ghost use Rattle.std.specs.Prelude.{◌≡◌, []};

use crate::support::{
    Gave, check, config, deliver, journal_with, restart, seat, serve, serve_in, take, take_in,
    ticket, upload,
};
use ballots::NodeId;
use ghost_log::Opened;
use journal::RECENT_MESSAGES;
use schedule_runner::Config;
use seats::{
    Beginning, Journal, OwnEntry, Query, Receipt, Recent, Retention, Seat, SeatFault, SeatInput,
};
use stable_records::MemoryStable;
use std::alloc::Global;
use std::hash::RandomState;
use std::marker::Brand;
use std::test::Fail;

const STRANGE: Gave = Gave::Failed(SeatFault::Strange);

type Forgetting<J> = Box<Journal<J, Recent>>;

type Counting<J> = Box<Seat<MemoryStable, J, Recent>>;

// A journal without an entry that forgets.
fn forgetting<J: Beginning>(
    alloc: Global,
    config: Config,
    log: Opened<OwnEntry>,
) -> Result<Forgetting<J>, Fail>
    requires { log ≡ J.book }
{
    if !config.is_within_limits() {
        return Err(Fail::from("no configuration"));
    }
    Ok(Box::new(alloc, Journal::recent(alloc, config, log)?)?)
}

// The member of this number, which counts its entries.
fn counting<J: Beginning>(
    alloc: Global,
    hashing: RandomState,
    number: u8,
    config: Config,
    journal: &Journal<J, Recent>,
) -> Result<Counting<J>, Fail>
    requires { J.start ≡ [] }
{
    let me = NodeId::new(number).ok_or("no node")?;
    if !config.is_within_limits() || number >= config.members.count() {
        return Err(Fail::from("no member of a configuration"));
    }
    match Seat::open(alloc, hashing, me, config, MemoryStable::new(alloc)) {
        Ok(Some(seat)) => Ok(Box::new(alloc, seat.counting(journal))?),
        _ => Err(Fail::from("no seat is opened")),
    }
}

// More entries than the configuration allows a journal that holds them.
fn goes_on<J: Beginning>(
    alloc: Global,
    hashing: RandomState,
    log: Opened<OwnEntry>,
) -> Result<(), Fail>
    requires named { log ≡ J.book }
    requires start { J.start ≡ [] }
{
    let config = config(3, 3)?;
    let mut journal = forgetting::<J>(alloc, config, log)?;
    let mut seat = counting::<J>(alloc, hashing, 0, config, &journal)?;
    let put = take(&mut seat, &mut journal, SeatInput::Put(upload(alloc, 1)?));
    check(put == Gave::Entered(0), "a put is not taken")?;
    for number in 1..100 {
        let given = match number % 3 {
            0 => take(&mut seat, &mut journal, SeatInput::Tick(0)),
            1 => serve(&mut seat, &mut journal, Query::Get(ticket(alloc, 1)?)),
            _ => restart(&mut seat, &mut journal),
        };
        check(given == Gave::Entered(number), "an entry is refused")?;
    }
    check(
        !journal.is_full() && journal.step_count() == 100,
        "it is full",
    )?;
    check(journal.steps().is_none(), "it holds its steps")?;
    check(seat.agrees(&journal), "the seat does not agree")
}

#[test]
fn a_journal_that_forgets_is_never_full(rt: HostRuntime) -> Result<(), Fail> {
    goes_on::<Brand>(rt.alloc(), RandomState::new(&rt)?, Opened::new())
}

// Whether the journal holds the message of this number.
fn has<J: Beginning>(journal: &Journal<J, Recent>, number: u64) -> bool {
    journal.message(number).is_some()
}

// So many ticks, each of which sends one message.
fn tick_often<J: Beginning>(
    seat: &mut Seat<MemoryStable, J, Recent>,
    journal: &mut Journal<J, Recent>,
    count: u64,
) -> Result<(), Fail> {
    for _ in 0..count {
        let given = take(seat, journal, SeatInput::Tick(0));
        check(matches!(given, Gave::Entered(_)), "a tick is not taken")?;
    }
    Ok(())
}

// As many messages as are held, and then as many again: those before the last are held no more.
fn forgets<J: Beginning>(
    alloc: Global,
    hashing: RandomState,
    log: Opened<OwnEntry>,
) -> Result<(), Fail>
    requires named { log ≡ J.book }
    requires start { J.start ≡ [] }
{
    let config = config(3, 3)?;
    let mut journal = forgetting::<J>(alloc, config, log)?;
    let mut seat = counting::<J>(alloc, hashing, 0, config, &journal)?;
    let most = RECENT_MESSAGES as u64;
    tick_often(&mut seat, &mut journal, most)?;
    check(journal.sent_count() == most, "a tick sends no message")?;
    check(has(&journal, 0) && !has(&journal, most), "all are held")?;
    tick_often(&mut seat, &mut journal, 10)?;
    check(!has(&journal, 9) && has(&journal, 10), "the last are held")?;
    check(
        has(&journal, most + 9) && !has(&journal, most + 10),
        "the last one is held",
    )?;
    check(
        deliver(&mut seat, &mut journal, most)? == Gave::Entered(most + 10),
        "a message that is held is not taken",
    )?;
    let early = journal.message(most).ok_or("no message")?.clone()?;
    let given = take(&mut seat, &mut journal, SeatInput::Deliver(3, early));
    check(
        given == Gave::Failed(SeatFault::NotSent),
        "a message that is forgotten is taken",
    )
}

#[test]
fn the_last_messages_are_held(rt: HostRuntime) -> Result<(), Fail> {
    forgets::<Brand>(rt.alloc(), RandomState::new(&rt)?, Opened::new())
}

// Two seats of one node: the second agrees until the first has an entry.
fn two_of_one_node<J: Beginning>(
    alloc: Global,
    hashing: RandomState,
    log: Opened<OwnEntry>,
) -> Result<(), Fail>
    requires named { log ≡ J.book }
    requires start { J.start ≡ [] }
{
    let config = config(2, 100)?;
    let mut journal = forgetting::<J>(alloc, config, log)?;
    let mut one = counting::<J>(alloc, hashing, 0, config, &journal)?;
    let mut twin = counting::<J>(alloc, hashing, 0, config, &journal)?;
    let mut other = counting::<J>(alloc, hashing, 1, config, &journal)?;
    let put = take(&mut one, &mut journal, SeatInput::Put(upload(alloc, 1)?));
    check(put == Gave::Entered(0), "a put is not taken")?;
    check(
        one.agrees(&journal) && !twin.agrees(&journal) && other.agrees(&journal),
        "who agrees",
    )?;
    check(restart(&mut twin, &mut journal) == STRANGE, "the twin")?;
    check(
        restart(&mut other, &mut journal) == Gave::Entered(1),
        "the other",
    )?;
    // One that came late knows nothing of the journal's log.
    let mut late = counting::<J>(alloc, hashing, 1, config, &journal)?;
    check(!late.agrees(&journal), "who came late agrees")?;
    let put = take(&mut late, &mut journal, SeatInput::Put(upload(alloc, 1)?));
    check(put == STRANGE, "who came late takes a put")
}

#[test]
fn a_second_seat_of_a_node_is_strange_to_one_that_forgets(rt: HostRuntime) -> Result<(), Fail> {
    two_of_one_node::<Brand>(rt.alloc(), RandomState::new(&rt)?, Opened::new())
}

// Appends what a call gave. It takes that, so that this is the one place where it is dropped.
fn push_given(text: &mut String, given: Result<Receipt, SeatFault>) -> Result<(), Fail> {
    match write!(text, "{given:?} ") {
        Ok(()) => Ok(()),
        Err(_) => Err(Fail::from("OutOfMemory")),
    }
}

// What a node that is the only member gives, put by put, as text.
fn given_by<J: Beginning, M: Retention>(
    alloc: Global,
    seat: &mut Seat<MemoryStable, J, M>,
    journal: &mut Journal<J, M>,
) -> Result<String, Fail> {
    let mut text = String::new(alloc);
    for number in 1..4 {
        let put = SeatInput::Put(upload(alloc, number)?);
        push_given(&mut text, take_in(seat, journal, put))?;
        let first = journal.sent_count();
        push_given(&mut text, take_in(seat, journal, SeatInput::Tick(0)))?;
        for message in first..first.saturating_add(4) {
            write!(text, "{:?} ", deliver(seat, journal, message)?)?;
        }
        let asked = Query::Get(ticket(alloc, number)?);
        push_given(&mut text, serve_in(seat, journal, asked))?;
    }
    Ok(text)
}

// What the only member gives with a journal that holds all.
fn given_with_whole<J: Beginning>(
    alloc: Global,
    hashing: RandomState,
    log: Opened<OwnEntry>,
) -> Result<String, Fail>
    requires named { log ≡ J.book }
    requires start { J.start ≡ [] }
{
    let mut journal = journal_with::<J>(alloc, config(1, 100)?, log)?;
    let member = config(1, 100)?;
    let mut seat = seat::<MemoryStable, J>(alloc, hashing, 0, member, MemoryStable::new(alloc))?;
    given_by(alloc, &mut seat, &mut journal)
}

// The same with one that forgets.
fn given_with_recent<J: Beginning>(
    alloc: Global,
    hashing: RandomState,
    log: Opened<OwnEntry>,
) -> Result<String, Fail>
    requires named { log ≡ J.book }
    requires start { J.start ≡ [] }
{
    let mut journal = forgetting::<J>(alloc, config(1, 100)?, log)?;
    let mut seat = counting::<J>(alloc, hashing, 0, config(1, 100)?, &journal)?;
    given_by(alloc, &mut seat, &mut journal)
}

#[test]
fn nodes_do_the_same_with_either_journal(rt: HostRuntime) -> Result<(), Fail> {
    let (alloc, hashing) = (rt.alloc(), RandomState::new(&rt)?);
    let whole = given_with_whole::<Brand>(alloc, hashing, Opened::new())?;
    let recent = given_with_recent::<Brand>(alloc, hashing, Opened::new())?;
    check(whole == recent, "they do not do the same")
}
