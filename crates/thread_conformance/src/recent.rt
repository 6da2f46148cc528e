//! Three nodes whose journal forgets: they decide and serve, with more entries than a journal that holds them may have.

ghost use Rattle.std.specs.Prelude.{◌≡◌, []};

use crate::calls::{Call, Gave};
use crate::made::{deliver_from, gives, put};
use crate::steps::{receipt_of, served};
use crate::support::{Why, check, config, had, told};
use crate::tested::Tested;
use ballots::NodeId;
use ghost_log::Opened;
use node_threads::{
    Beginning, Cluster, Config, Journal, OpenGate, OwnEntry, Recent, Running, Seat,
};
use stable_records::{MemoryStable, StoreFault};
use std::alloc::Global;
use std::hash::RandomState;
use std::marker::Brand;
use std::sync::{Mutex, Wait};
use std::test::Fail;

type ForgettingNodes<J> = Running<3, MemoryStable, J, OpenGate, Recent>;

// The seat of the node of this number, which counts its entries.
fn seat<J: Beginning>(
    alloc: Global,
    hashing: RandomState,
    number: u8,
    config: Config,
    journal: &Journal<J, Recent>,
) -> Result<Mutex<Seat<MemoryStable, J, Recent>>, Why>
    requires { J.start ≡ [] }
{
    let me = NodeId::new(number).ok_or("no node")?;
    if !config.is_within_limits() || !config.members.have(me) {
        return Err("no member of a configuration");
    }
    match Seat::open(alloc, hashing, me, config, MemoryStable::new(alloc)) {
        Ok(Some(seat)) => Ok(Mutex::new(seat.counting(journal))),
        Err(StoreFault::OutOfMemory) => Err("OutOfMemory"),
        _ => Err("no seat is opened"),
    }
}

// Three nodes, of a configuration whose journals hold three entries.
fn three<R: Wait, J: Beginning>(
    rt: &R,
    alloc: Global,
    hashing: RandomState,
    log: Opened<OwnEntry>,
) -> Result<ForgettingNodes<J>, Why>
    requires named { log ≡ J.book }
    requires start { J.start ≡ [] }
{
    let config = config(10, 3)?;
    if !config.is_within_limits() {
        return Err("no configuration");
    }
    let journal = had(Journal::recent(alloc, config, log))?;
    let seats = [
        seat(alloc, hashing, 0, config, &journal)?,
        seat(alloc, hashing, 1, config, &journal)?,
        seat(alloc, hashing, 2, config, &journal)?,
    ];
    let cluster = Cluster::new(rt, seats, journal).ok_or("no cluster")?;
    let (nodes, notes) = had(Running::new(alloc, cluster, OpenGate))?;
    drop(notes);
    Ok(nodes)
}

// An upload is put at the first node, decided, and served by each.
fn decides<R: Wait, C: Tested>(rt: &R, alloc: Global, nodes: &C) -> Result<(), Why> {
    let pending = put(rt, alloc, nodes, 0, 1)?;
    gives(rt, alloc, nodes, 0, Call::TakeInput, Gave::Done)?;
    deliver_from(rt, alloc, nodes, 0)?;
    nodes.settle_all(rt, 0);
    check(!nodes.waits(rt, 0), "it waits still")?;
    drop(receipt_of(rt, &pending)?);
    drop(served(rt, alloc, nodes)?);
    Ok(())
}

// A node that starts again has what it learned once it is handed it again.
fn starts_again<R: Wait, C: Tested>(rt: &R, alloc: Global, nodes: &C) -> Result<(), Why> {
    gives(rt, alloc, nodes, 2, Call::RunningRestart, Gave::Done)?;
    gives(rt, alloc, nodes, 2, Call::RunningGet, Gave::Nothing)?;
    deliver_from(rt, alloc, nodes, 0)?;
    gives(rt, alloc, nodes, 2, Call::RunningGet, Gave::Done)
}

// There are more than three entries, and none is held.
fn holds_none<R: Wait, J: Beginning>(rt: &R, nodes: &ForgettingNodes<J>) -> Result<(), Why> {
    let journal = nodes.cluster().journal().lock(rt);
    check(
        journal.step_count() > 3 && journal.steps().is_none() && !journal.is_full(),
        "what the journal holds",
    )
}

fn plays<R: Wait, J: Beginning>(
    rt: &R,
    alloc: Global,
    hashing: RandomState,
    log: Opened<OwnEntry>,
) -> Result<(), Why>
    requires named { log ≡ J.book }
    requires start { J.start ≡ [] }
{
    let nodes = three::<R, J>(rt, alloc, hashing, log)?;
    let decided = decides(rt, alloc, &nodes);
    let started = starts_again(rt, alloc, &nodes);
    let held = holds_none(rt, &nodes);
    drop(nodes);
    decided?;
    started?;
    held
}

#[test]
fn nodes_go_on_whose_journal_forgets(rt: HostRuntime) -> Result<(), Fail> {
    told(plays::<_, Brand>(&rt, rt.alloc(), RandomState::new(&rt)?, Opened::new()))
}
