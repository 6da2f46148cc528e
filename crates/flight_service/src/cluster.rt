//! Clusters whose nodes have no records yet.

ghost use Rattle.std.specs.Prelude.{◌≡◌, [], IfOk};

use crate::fault::{ServiceFault, store_fault};
use ballots::{Members, NodeId};
use cluster_backend::{
    Beginning, Cluster, Config, Journal, MAX_JOURNAL_ENTRIES, MAX_SLOTS, Note, OpenGate, OwnEntry,
    Recent, Retention, Running, Seat, Whole,
};
use crossbeam_channel::Receiver;
use ghost_log::Opened;
use stable_records::{MemoryStable, Stable};
use std::alloc::Global;
use std::hash::RandomState;
use std::sync::{Mutex, Wait};

/// So many nodes that run, and what the worker of each reads.
pub type Started<const N: usize, S, J, M = Whole> = (
    Running<N, S, J, OpenGate, M>,
    Vec<Receiver<Note>>,
);

/// The configuration of so many nodes, with as many slots and entries of the journal as there may be. [`ServiceFault::Members`] says that
/// there can't be so many nodes.
pub fn config_of(count: u8) -> Result<Config, ServiceFault> {
    let Some(members) = Members::new(count) else {
        return Err(ServiceFault::Members);
    };
    Ok(Config {
        members,
        slot_limit: MAX_SLOTS,
        journal_limit: MAX_JOURNAL_ENTRIES,
    })
}

// The seat of the node of this number, over its store, which is to have no records.
fn seat_without_entries<S: Stable + Drop, J: Beginning>(
    alloc: Global,
    hashing: RandomState,
    number: u8,
    config: Config,
    store: S,
) -> Result<Seat<S, J>, ServiceFault>
    requires { J.start ≡ [] }
    ensures { IfOk result (λ seat. seat.own ≡ []) }
{
    let Some(me) = NodeId::new(number) else {
        return Err(ServiceFault::Members);
    };
    if !config.is_within_limits() || !config.members.have(me) {
        return Err(ServiceFault::Members);
    }
    match Seat::open(alloc, hashing, me, config, store) {
        Ok(Some(seat)) => Ok(seat),
        Ok(None) => Err(ServiceFault::OldRecords),
        Err(fault) => Err(store_fault(fault)),
    }
}

/// The node of this number, with nothing, over its store, which is to have no records: a journal lives as long as its process, and it says
/// nothing of what was kept before.
///
/// [`ServiceFault::OldRecords`] says that the store has records; [`ServiceFault::Damaged`] that what stands in it means none, and
/// [`ServiceFault::Device`] that it could not be read or written; [`ServiceFault::OutOfMemory`] that memory was refused; and
/// [`ServiceFault::Members`] that the node is none of the configuration.
pub fn open_seat<S: Stable + Drop, J: Beginning>(
    alloc: Global,
    hashing: RandomState,
    number: u8,
    config: Config,
    store: S,
) -> Result<Mutex<Seat<S, J>>, ServiceFault>
    requires { J.start ≡ [] }
{
    match seat_without_entries(alloc, hashing, number, config, store) {
        Ok(seat) => Ok(Mutex::new(seat)),
        Err(fault) => Err(fault),
    }
}

/// As [`open_seat`], of a node whose journal forgets.
pub fn open_counting_seat<S: Stable + Drop, J: Beginning>(
    alloc: Global,
    hashing: RandomState,
    number: u8,
    config: Config,
    store: S,
    journal: &Journal<J, Recent>,
) -> Result<Mutex<Seat<S, J, Recent>>, ServiceFault>
    requires { J.start ≡ [] }
{
    match seat_without_entries(alloc, hashing, number, config, store) {
        Ok(seat) => Ok(Mutex::new(seat.counting(journal))),
        Err(fault) => Err(fault),
    }
}

/// The cluster of these nodes, and what the worker of each reads. [`ServiceFault::Members`] says that they are none, or not so many.
pub fn start_nodes<R: Wait, S: Stable + Drop, J: Beginning, M: Retention, const N: usize>(
    rt: &R,
    alloc: Global,
    seats: Vec<Mutex<Seat<S, J, M>>>,
    journal: Journal<J, M>,
) -> Result<Started<N, S, J, M>, ServiceFault> {
    match <[Mutex<Seat<S, J, M>>; N]>::try_from(seats) {
        Ok(seats) => start_seats(rt, alloc, seats, journal),
        Err(_) => Err(ServiceFault::Members),
    }
}

// The cluster of these seats, which are as many as it has nodes.
fn start_seats<R: Wait, S: Stable + Drop, J: Beginning, M: Retention, const N: usize>(
    rt: &R,
    alloc: Global,
    seats: [Mutex<Seat<S, J, M>>; N],
    journal: Journal<J, M>,
) -> Result<Started<N, S, J, M>, ServiceFault> {
    let Some(cluster) = Cluster::new(rt, seats, journal) else {
        return Err(ServiceFault::Members);
    };
    Ok(Running::new(alloc, cluster, OpenGate)?)
}

// The node of this number, over a store in memory.
fn in_memory<J: Beginning>(
    alloc: Global,
    hashing: RandomState,
    number: u8,
    config: Config,
) -> Result<Mutex<Seat<MemoryStable, J>>, ServiceFault>
    requires { J.start ≡ [] }
{
    open_seat(alloc, hashing, number, config, MemoryStable::new(alloc))
}

/// So many nodes whose records are in memory. [`ServiceFault::OutOfMemory`] says that memory was refused, and
/// [`ServiceFault::Members`] that there can't be so many nodes.
pub fn nodes_in_memory<R: Wait, J: Beginning, const N: usize>(
    rt: &R,
    alloc: Global,
    hashing: RandomState,
    log: Opened<OwnEntry>,
) -> Result<Started<N, MemoryStable, J>, ServiceFault>
    requires named { log ≡ J.book }
    requires start { J.start ≡ [] }
{
    let Ok(count) = u8::try_from(N) else {
        return Err(ServiceFault::Members);
    };
    let config = config_of(count)?;
    let mut seats = Vec::new(alloc);
    for number in 0..count {
        let seat = in_memory(alloc, hashing, number, config)?;
        if seats.push(seat).is_err() {
            return Err(ServiceFault::OutOfMemory);
        }
    }
    if !config.is_within_limits() {
        return Err(ServiceFault::Members);
    }
    start_nodes(rt, alloc, seats, Journal::with_log(alloc, config, log))
}
