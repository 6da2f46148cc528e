//! Seats with their journal, and what is asked of them.

ghost use Rattle.std.specs.Prelude.{◌≡◌, []};

use ballots::{Members, NodeId};
use ghost_log::Opened;
use header_types::Schema;
use schedule_runner::Config;
use seats::{Beginning, Journal, OwnEntry, Query, Receipt, Retention, Seat, SeatFault, SeatInput};
use stable_records::{MemoryStable, Stable};
use std::alloc::Global;
use std::hash::RandomState;
use std::marker::Brand;
use std::test::Fail;
use table_types::Ticket;
use uploads::{Upload, UploadFault};

/// A configuration of so many members and ten slots, with a journal of so many entries.
pub(crate) fn config(members: u8, journal_limit: u32) -> Result<Config, Fail> {
    Ok(Config {
        members: Members::new(members).ok_or("no members")?,
        slot_limit: 10,
        journal_limit,
    })
}

/// The upload without batches to the table `t`, of this number.
pub(crate) fn upload(alloc: Global, number: u64) -> Result<Upload, Fail> {
    let schema = Schema {
        fields: Vec::new(alloc),
        metadata: Vec::new(alloc),
    };
    let id = u128::from(number).to_be_bytes();
    match Upload::new(alloc, "t", id, &schema, &[]) {
        Ok(upload) => Ok(upload),
        Err(UploadFault::OutOfMemory) => Err(Fail::from("OutOfMemory")),
        Err(_) => Err(Fail::from("no upload")),
    }
}

/// The ticket for this version of the table `t`.
pub(crate) fn ticket(alloc: Global, version: u64) -> Result<Ticket, Fail> {
    Ok(Ticket::new(String::from_str(alloc, "t")?, version).ok_or("no ticket")?)
}

/// The member of this number, with this store.
pub(crate) fn seat<S: Stable + Drop, J: Beginning>(
    alloc: Global,
    hashing: RandomState,
    number: u8,
    config: Config,
    store: S,
) -> Result<Box<Seat<S, J>>, Fail>
    requires { J.start ≡ [] }
{
    let me = NodeId::new(number).ok_or("no node")?;
    if !config.is_within_limits() || number >= config.members.count() {
        return Err(Fail::from("no member of a configuration"));
    }
    match Seat::open(alloc, hashing, me, config, store) {
        Ok(Some(seat)) => Ok(Box::new(alloc, seat)?),
        _ => Err(Fail::from("no seat is opened")),
    }
}

/// A journal without an entry.
pub(crate) fn journal(alloc: Global, config: Config) -> Result<Box<Journal>, Fail> {
    if !config.is_within_limits() {
        return Err(Fail::from("no configuration"));
    }
    Ok(Box::new(alloc, Journal::<Brand>::new(alloc, config))?)
}

/// A journal without an entry, with this log.
pub(crate) fn journal_with<J: Beginning>(
    alloc: Global,
    config: Config,
    log: Opened<OwnEntry>,
) -> Result<Box<Journal<J>>, Fail>
    requires named { log ≡ J.book }
    requires start { J.start ≡ [] }
{
    if !config.is_within_limits() {
        return Err(Fail::from("no configuration"));
    }
    Ok(Box::new(alloc, Journal::with_log(alloc, config, log))?)
}

/// What a call gave, in short.
#[derive(Clone, Copy, Debug, PartialEq, Eq)]
pub(crate) enum Gave {
    /// An entry of this number.
    Entered(u64),
    Failed(SeatFault),
}

fn told(given: Result<Receipt, SeatFault>) -> Gave {
    match given {
        Ok(receipt) => Gave::Entered(receipt.number),
        Err(fault) => Gave::Failed(fault),
    }
}

/// Prepares an input, and takes it.
pub(crate) fn take_in<S: Stable + Drop, J: Beginning, M: Retention>(
    seat: &mut Seat<S, J, M>,
    journal: &mut Journal<J, M>,
    input: SeatInput,
) -> Result<Receipt, SeatFault> {
    let prepared = seat.prepare(input)?;
    seat.take(journal, prepared)
}

/// Reads an answer, and serves it.
pub(crate) fn serve_in<S: Stable + Drop, J: Beginning, M: Retention>(
    seat: &mut Seat<S, J, M>,
    journal: &mut Journal<J, M>,
    query: Query,
) -> Result<Receipt, SeatFault> {
    let found = seat.read(query)?;
    seat.serve(journal, found)
}

/// Takes an input.
pub(crate) fn take<S: Stable + Drop, J: Beginning, M: Retention>(
    seat: &mut Seat<S, J, M>,
    journal: &mut Journal<J, M>,
    input: SeatInput,
) -> Gave {
    told(take_in(seat, journal, input))
}

/// Takes the message of this number.
pub(crate) fn deliver<S: Stable + Drop, J: Beginning, M: Retention>(
    seat: &mut Seat<S, J, M>,
    journal: &mut Journal<J, M>,
    number: u64,
) -> Result<Gave, Fail> {
    let message = journal.message(number).ok_or("no message")?.clone()?;
    Ok(take(seat, journal, SeatInput::Deliver(number, message)))
}

/// Serves an answer.
pub(crate) fn serve<S: Stable + Drop, J: Beginning, M: Retention>(
    seat: &mut Seat<S, J, M>,
    journal: &mut Journal<J, M>,
    query: Query,
) -> Gave {
    told(serve_in(seat, journal, query))
}

/// Starts a node again.
pub(crate) fn restart<S: Stable + Drop, J: Beginning, M: Retention>(
    seat: &mut Seat<S, J, M>,
    journal: &mut Journal<J, M>,
) -> Gave {
    told(seat.restart(journal))
}

/// Three members with stores in memory, and their journal.
#[derive(Drop)]
pub(crate) struct Trio {
    pub(crate) seats: Vec<Box<Seat<MemoryStable>>>,
    pub(crate) journal: Box<Journal>,
}

/// Three members, and a journal of so many entries.
pub(crate) fn three(alloc: Global, hashing: RandomState, journal_limit: u32) -> Result<Trio, Fail> {
    let config = config(3, journal_limit)?;
    let mut seats = Vec::new(alloc);
    for number in 0..3 {
        seats.push(seat(alloc, hashing, number, config, MemoryStable::new(alloc))?)?;
    }
    Ok(Trio {
        seats,
        journal: journal(alloc, config)?,
    })
}

/// Fails where it does not hold.
pub(crate) fn check(holds: bool, what: &'static str) -> Result<(), Fail> {
    if holds { Ok(()) } else { Err(Fail::from(what)) }
}
