//! Three nodes, and the story that a test tells of them.

ghost use Rattle.std.specs.Prelude.{◌≡◌, []};

use crate::support::{Why, config, had};
use crate::tested::Holding;
use ballots::NodeId;
use crossbeam_channel::Receiver;
use ghost_log::Opened;
use node_threads::{Beginning, Cluster, Config, Journal, Note, OpenGate, OwnEntry, Running, Seat};
use stable_records::{FailingStable, MemoryStable, Stable, StoreFault};
use std::alloc::Global;
use std::hash::RandomState;
use std::sync::{Mutex, Wait};
use std::time::Clock;

/// More calls than a store is asked for, so that none of them fails.
pub(crate) const NEVER: u64 = 1_000_000;

/// What the nodes of a story have room for, and when their stores fail.
#[derive(Clone, Copy)]
pub(crate) struct Limits {
    /// How many slots they agree on.
    pub(crate) slots: u32,
    /// How many entries their journal may have.
    pub(crate) entries: u32,
    /// How many calls of each store pass before one fails, the first as its seat is opened. The record of the one that
    /// fails is not kept.
    pub(crate) passed: u64,
}

/// What a test does at three nodes.
pub(crate) trait Story {
    /// What they have room for.
    fn limits(&self) -> Limits;

    /// Tells it of nodes that have done nothing yet, and of the notes that their workers would read. Fails where something is
    /// otherwise than it has to be.
    fn tell<R: Wait + Clock, C: Holding>(
        &self,
        rt: &R,
        alloc: Global,
        nodes: &C,
        notes: &[Receiver<Note>],
    ) -> Result<(), Why>;
}

type Store = FailingStable<MemoryStable>;

type Nodes<J> = Running<3, Store, J, OpenGate>;

fn store(alloc: Global, passed: u64) -> Store {
    FailingStable::new(MemoryStable::new(alloc), passed, false)
}

/// The seat of the node of this number, with this store.
pub(crate) fn seat<S: Stable + Drop, J: Beginning>(
    alloc: Global,
    hashing: RandomState,
    number: u8,
    config: Config,
    store: S,
) -> Result<Mutex<Seat<S, J>>, Why>
    requires { J.start ≡ [] }
{
    let me = NodeId::new(number).ok_or("no node")?;
    if !config.is_within_limits() || !config.members.have(me) {
        return Err("no member of a configuration");
    }
    match Seat::open(alloc, hashing, me, config, store) {
        Ok(Some(seat)) => Ok(Mutex::new(seat)),
        Err(StoreFault::OutOfMemory) => Err("OutOfMemory"),
        _ => Err("no seat is opened"),
    }
}

// Three nodes with these limits, and what their workers would read.
fn three<R: Wait, J: Beginning>(
    rt: &R,
    alloc: Global,
    hashing: RandomState,
    log: Opened<OwnEntry>,
    limits: Limits,
) -> Result<(Nodes<J>, Vec<Receiver<Note>>), Why>
    requires named { log ≡ J.book }
    requires start { J.start ≡ [] }
{
    let config = config(limits.slots, limits.entries)?;
    if !config.is_within_limits() {
        return Err("no configuration");
    }
    let seats = [
        seat(alloc, hashing, 0, config, store(alloc, limits.passed))?,
        seat(alloc, hashing, 1, config, store(alloc, limits.passed))?,
        seat(alloc, hashing, 2, config, store(alloc, limits.passed))?,
    ];
    let journal = Journal::<J>::with_log(alloc, config, log);
    let cluster = Cluster::new(rt, seats, journal).ok_or("no cluster")?;
    had(Running::new(alloc, cluster, OpenGate))
}

/// Tells the story of three nodes.
pub(crate) fn told_of<R: Wait + Clock, J: Beginning, T: Story>(
    rt: &R,
    alloc: Global,
    hashing: RandomState,
    log: Opened<OwnEntry>,
    story: &T,
) -> Result<(), Why>
    requires named { log ≡ J.book }
    requires start { J.start ≡ [] }
{
    let (nodes, notes) = three::<R, J>(rt, alloc, hashing, log, story.limits())?;
    let done = story.tell(rt, alloc, &nodes, &notes);
    drop(notes);
    drop(nodes);
    done
}
