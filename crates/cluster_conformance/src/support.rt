//! Three nodes, and what is asked of them.

ghost use Rattle.std.specs.Prelude.{◌≡◌, []};

use ballots::{Members, NodeId};
use crossbeam_channel::Receiver;
use disk_records::{DiskStable, MemoryDisk};
use flight_service::{
    Beginning, Cluster, Config, Gate, Journal, Note, OpenGate, OwnEntry, Running, Seat,
};
use ghost_log::Opened;
use header_types::Schema;
use stable_records::{MemoryStable, Stable};
use std::alloc::Global;
use std::hash::RandomState;
use std::sync::{Mutex, Wait};
use std::test::Fail;
use table_types::Ticket;
use uploads::{Upload, UploadFault};

pub(crate) type Nodes<J, G> = Running<3, MemoryStable, J, G>;

/// Nodes whose records stand in files of disks in memory.
pub(crate) type DiskNodes<J> = Running<3, DiskStable<MemoryDisk>, J, OpenGate>;

/// How many entries the journal may have, unless a test says otherwise.
const ENTRIES: u32 = 1_000_000;

/// Why a test fails.
pub(crate) type Why = &'static str;

pub(crate) fn members() -> Result<Members, Why> {
    Ok(Members::new(3).ok_or("no members")?)
}

fn config(journal_limit: u32) -> Result<Config, Why> {
    Ok(Config {
        members: members()?,
        slot_limit: 1000,
        journal_limit,
    })
}

fn seat<S: Stable + Drop, J: Beginning>(
    alloc: Global,
    hashing: RandomState,
    number: u8,
    config: Config,
    store: S,
) -> Result<Mutex<Seat<S, J>>, Why>
    requires { J.start ≡ [] }
{
    let me = NodeId::new(number).ok_or("no node")?;
    if !config.is_within_limits() || !config.members.have(me) {
        return Err("no member of a configuration");
    }
    match Seat::open(alloc, hashing, me, config, store) {
        Ok(Some(seat)) => Ok(Mutex::new(seat)),
        _ => Err("no seat is opened"),
    }
}

/// Three nodes with this gate, and what their workers would read.
pub(crate) fn three<R: Wait, J: Beginning, G: Gate + Drop>(
    rt: &R,
    alloc: Global,
    hashing: RandomState,
    log: Opened<OwnEntry>,
    gate: G,
) -> Result<(Nodes<J, G>, Vec<Receiver<Note>>), Why>
    requires named { log ≡ J.book }
    requires start { J.start ≡ [] }
{
    three_up_to(rt, alloc, hashing, log, gate, ENTRIES)
}

/// As [`three`], whose journal may have so many entries.
pub(crate) fn three_up_to<R: Wait, J: Beginning, G: Gate + Drop>(
    rt: &R,
    alloc: Global,
    hashing: RandomState,
    log: Opened<OwnEntry>,
    gate: G,
    journal_limit: u32,
) -> Result<(Nodes<J, G>, Vec<Receiver<Note>>), Why>
    requires named { log ≡ J.book }
    requires start { J.start ≡ [] }
{
    let config = config(journal_limit)?;
    if !config.is_within_limits() {
        return Err("no configuration");
    }
    let seats = [
        seat(alloc, hashing, 0, config, MemoryStable::new(alloc))?,
        seat(alloc, hashing, 1, config, MemoryStable::new(alloc))?,
        seat(alloc, hashing, 2, config, MemoryStable::new(alloc))?,
    ];
    let journal = Journal::<J>::with_log(alloc, config, log);
    let cluster = Cluster::new(rt, seats, journal).ok_or("no cluster")?;
    had(Running::new(alloc, cluster, gate))
}

// A store over a new file, one call of whose disk fails behind so many, where a number is given.
fn disk(alloc: Global, calls_left: Option<u64>) -> DiskStable<MemoryDisk> {
    let mut disk = MemoryDisk::new(alloc, Vec::new(alloc));
    disk.calls_left = calls_left;
    DiskStable::new(alloc, disk)
}

/// Three nodes, and what their workers would read. One call of the disk of node 2 fails, behind so many.
pub(crate) fn three_on_disks<R: Wait, J: Beginning>(
    rt: &R,
    alloc: Global,
    hashing: RandomState,
    log: Opened<OwnEntry>,
    calls_left: u64,
) -> Result<(DiskNodes<J>, Vec<Receiver<Note>>), Why>
    requires named { log ≡ J.book }
    requires start { J.start ≡ [] }
{
    let config = config(ENTRIES)?;
    if !config.is_within_limits() {
        return Err("no configuration");
    }
    let seats = [
        seat(alloc, hashing, 0, config, disk(alloc, None))?,
        seat(alloc, hashing, 1, config, disk(alloc, None))?,
        seat(alloc, hashing, 2, config, disk(alloc, Some(calls_left)))?,
    ];
    let journal = Journal::<J>::with_log(alloc, config, log);
    let cluster = Cluster::new(rt, seats, journal).ok_or("no cluster")?;
    had(Running::new(alloc, cluster, OpenGate))
}

/// The upload without batches to the table `t`, of this number.
pub(crate) fn upload(alloc: Global, number: u64) -> Result<Upload, Why> {
    let schema = Schema {
        fields: Vec::new(alloc),
        metadata: Vec::new(alloc),
    };
    let id = u128::from(number).to_be_bytes();
    match Upload::new(alloc, "t", id, &schema, &[]) {
        Ok(upload) => Ok(upload),
        Err(UploadFault::OutOfMemory) => Err("OutOfMemory"),
        Err(_) => Err("no upload"),
    }
}

/// The ticket for this version of the table `t`.
pub(crate) fn ticket(alloc: Global, version: u64) -> Result<Ticket, Why> {
    let table = had(String::from_str(alloc, "t"))?;
    Ok(Ticket::new(table, version).ok_or("no ticket")?)
}

/// What was done, or the reason as a text that threads can hand to one another; none where memory is refused for it.
pub(crate) fn owned<T>(alloc: Global, done: Result<T, Why>) -> Result<T, String> {
    match done {
        Ok(done) => Ok(done),
        Err(why) => match String::from_str(alloc, why) {
            Ok(text) => Err(text),
            Err(_) => Err(String::new(alloc)),
        },
    }
}

/// Fails for this reason.
pub(crate) fn told(done: Result<(), Why>) -> Result<(), Fail> {
    match done {
        Ok(()) => Ok(()),
        Err(why) => Err(Fail::from(why)),
    }
}

/// What memory was had for.
pub(crate) fn had<T, E: Drop>(made: Result<T, E>) -> Result<T, Why> {
    match made {
        Ok(made) => Ok(made),
        Err(refused) => {
            drop(refused);
            Err("OutOfMemory")
        }
    }
}

/// Fails where it does not hold.
pub(crate) fn check(holds: bool, what: &'static str) -> Result<(), Why> {
    if holds { Ok(()) } else { Err(what) }
}
