//! A hundred thousand entries of three nodes that know the log of their journal: each finds at once that it agrees.

ghost use Rattle.std.specs.Prelude.{◌≡◌, []};

use crate::support::{
    Gave, check, config, deliver, journal_with, seat, serve_in, take, ticket, upload,
};
use ghost_log::Opened;
use node_events::EventResult;
use schedule_runner::Config;
use seats::{Beginning, Journal, OwnEntry, Query, Seat, SeatInput};
use stable_records::MemoryStable;
use std::alloc::Global;
use std::hash::RandomState;
use std::marker::Brand;
use std::rt::CpuClock;
use std::test::Fail;

type Members<J> = Vec<Box<Seat<MemoryStable, J>>>;

const UPLOADS: u32 = 5_000;

/// The messages of one decision: a Prepare, three promises, an Accept, and what each of the three accepted.
const MESSAGES: u64 = 8;

/// By which an upload is decided at node 0 and learned by all, where nothing is lost: each message, numbered from the
/// Prepare on, to each of these nodes.
const DELIVERIES: [(usize, u64); 18] = [
    (0, 0),
    (1, 0),
    (2, 0),
    (0, 1),
    (0, 2),
    (0, 3),
    (0, 4),
    (1, 4),
    (2, 4),
    (0, 5),
    (1, 5),
    (2, 5),
    (0, 6),
    (1, 6),
    (2, 6),
    (0, 7),
    (1, 7),
    (2, 7),
];

/// The most seconds of a processor that all of it takes.
const MOST_SECONDS: u64 = 20;

// Three members with a slot for each upload, and a journal that takes every entry and some answers.
fn long_config() -> Result<Config, Fail> {
    Ok(Config {
        members: config(3, 100_010)?.members,
        slot_limit: UPLOADS,
        journal_limit: 100_010,
    })
}

// Three members of this configuration.
fn members_of<J: Beginning>(
    alloc: Global,
    hashing: RandomState,
    config: Config,
) -> Result<Members<J>, Fail>
    requires { J.start ≡ [] }
{
    let mut members = Vec::new(alloc);
    for number in 0..3 {
        members.push(seat(alloc, hashing, number, config, MemoryStable::new(alloc))?)?;
    }
    Ok(members)
}

// The member of this number.
fn at<J: Beginning>(
    members: &mut [Box<Seat<MemoryStable, J>>],
    number: usize,
) -> Result<&mut Box<Seat<MemoryStable, J>>, Fail> {
    match members.get_mut(number) {
        Some(member) => Ok(member),
        None => Err(Fail::from("no member")),
    }
}

// An upload is put and decided: twenty entries.
fn decide<J: Beginning>(
    alloc: Global,
    members: &mut [Box<Seat<MemoryStable, J>>],
    journal: &mut Journal<J>,
    number: u64,
) -> Result<(), Fail> {
    let first = at(members, 0)?;
    let put = take(first, journal, SeatInput::Put(upload(alloc, number)?));
    check(matches!(put, Gave::Entered(_)), "a put is not taken")?;
    let tick = take(first, journal, SeatInput::Tick(0));
    check(matches!(tick, Gave::Entered(_)), "a tick is not taken")?;
    let prepare = number.saturating_mul(MESSAGES);
    for (node, further) in &DELIVERIES {
        let given = deliver(
            at(members, *node)?,
            journal,
            prepare.saturating_add(*further),
        )?;
        check(matches!(given, Gave::Entered(_)), "a message is not taken")?;
    }
    Ok(())
}

// All uploads, one after the other.
fn decide_all<J: Beginning>(
    alloc: Global,
    members: &mut [Box<Seat<MemoryStable, J>>],
    journal: &mut Journal<J>,
) -> Result<(), Fail> {
    for number in 0..u64::from(UPLOADS) {
        decide(alloc, members, journal, number)?;
    }
    Ok(())
}

// Each member agrees to the end, and has an answer for the last version.
fn all_answer<J: Beginning>(
    alloc: Global,
    members: &mut [Box<Seat<MemoryStable, J>>],
    journal: &mut Journal<J>,
) -> Result<(), Fail> {
    for member in members {
        check(member.agrees(journal), "a seat does not agree")?;
        let ticket = ticket(alloc, u64::from(UPLOADS))?;
        let Ok(receipt) = serve_in(member, journal, Query::Get(ticket)) else {
            return Err(Fail::from("no answer is served"));
        };
        check(
            matches!(receipt.answer, EventResult::Answer(_)),
            "a member does not have the last version",
        )?;
    }
    Ok(())
}

fn long_run<J: Beginning>(
    alloc: Global,
    hashing: RandomState,
    log: Opened<OwnEntry>,
) -> Result<(), Fail>
    requires named { log ≡ J.book }
    requires start { J.start ≡ [] }
{
    let config = long_config()?;
    let mut journal = journal_with::<J>(alloc, config, log)?;
    let mut members = members_of::<J>(alloc, hashing, config)?;
    decide_all(alloc, &mut members, &mut journal)?;
    let trace = journal.trace();
    check(
        trace.steps().len() == 100_000 && trace.sent().len() == 40_000,
        "there are more entries or fewer",
    )?;
    all_answer(alloc, &mut members, &mut journal)
}

#[test]
fn a_hundred_thousand_entries_take_seconds(rt: HostRuntime) -> Result<(), Fail> {
    long_run::<Brand>(rt.alloc(), RandomState::new(&rt)?, Opened::new())?;
    let took = rt.process_cpu_time().ok().ok_or("no clock")?;
    assert!(rt; took.as_secs() < MOST_SECONDS);
    Ok(())
}
