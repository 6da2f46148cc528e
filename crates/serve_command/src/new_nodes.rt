//! Clusters whose nodes start with nothing, each over a file that has no records.

ghost use Rattle.std.specs.Prelude.{◌≡◌, []};

use crate::fault::{ServeFault, fault_of};
use crate::stores::FileStore;
use flight_service::{
    Beginning, Config, Journal, OwnEntry, Recent, Seat, ServiceFault, Started, config_of,
    open_counting_seat, start_nodes,
};
use ghost_log::Opened;
use std::alloc::Global;
use std::hash::RandomState;
use std::sync::{Mutex, Wait};

// The node of this number, over the last of the stores, whose file is to have no records.
fn seat<J: Beginning>(
    alloc: Global,
    hashing: RandomState,
    number: u8,
    config: Config,
    stores: &mut Vec<FileStore>,
    journal: &Journal<J, Recent>,
) -> Result<Mutex<Seat<FileStore, J, Recent>>, ServeFault>
    requires { J.start ≡ [] }
{
    let Some(store) = stores.pop() else {
        return Err(ServeFault::Members);
    };
    match open_counting_seat(alloc, hashing, number, config, store, journal) {
        Ok(seat) => Ok(seat),
        Err(fault) => Err(fault_of(number, fault)),
    }
}

/// The configuration of so many nodes.
pub(crate) fn configured(count: u8) -> Result<Config, ServeFault> {
    match config_of(count) {
        Ok(config) => Ok(config),
        Err(fault) => Err(fault_of(0, fault)),
    }
}

/// What starts, or why it does not.
pub(crate) fn started<T: Drop>(started: Result<T, ServiceFault>) -> Result<T, ServeFault> {
    match started {
        Ok(nodes) => Ok(nodes),
        Err(fault) => Err(fault_of(0, fault)),
    }
}

/// The journal of a server's nodes: it forgets, so that it is never full, and its nodes' own entries have this log.
pub(crate) fn journal_of<J: Beginning>(
    alloc: Global,
    config: &Config,
    log: Opened<OwnEntry>,
) -> Result<Journal<J, Recent>, ServeFault>
    requires { log ≡ J.book }
{
    if !config.is_within_limits() {
        return Err(ServeFault::Members);
    }
    match Journal::recent(alloc, *config, log) {
        Ok(journal) => Ok(journal),
        Err(_) => Err(ServeFault::OutOfMemory),
    }
}

/// So many nodes over these stores, the last node's first. [`ServeFault::Members`] says that there are fewer stores, or that there can't
/// be so many nodes.
pub(crate) fn new_nodes<R: Wait, J: Beginning, const N: usize>(
    rt: &R,
    alloc: Global,
    hashing: RandomState,
    stores: Vec<FileStore>,
    log: Opened<OwnEntry>,
) -> Result<Started<N, FileStore, J, Recent>, ServeFault>
    requires named { log ≡ J.book }
    requires start { J.start ≡ [] }
{
    let Ok(count) = u8::try_from(N) else {
        return Err(ServeFault::Members);
    };
    let mut stores = stores;
    let config = configured(count)?;
    let journal = journal_of(alloc, &config, log)?;
    let mut seats = Vec::new(alloc);
    for number in 0..count {
        let next = seat(alloc, hashing, number, config, &mut stores, &journal)?;
        if seats.push(next).is_err() {
            return Err(ServeFault::OutOfMemory);
        }
    }
    started(start_nodes(rt, alloc, seats, journal))
}
