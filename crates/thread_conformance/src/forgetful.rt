//! Stores that keep every record and give none back: no node starts again from one that has kept something.

ghost use Rattle.std.specs.Prelude.{◌≡◌, true, false, []};
ghost use Rattle.thread_conformance.specs.Forgetful.{untold};

use crate::calls::{Call, Gave};
use crate::made::{each_is_done, each_refuses, ended_as, gives, put};
use crate::story::seat;
use crate::support::{Why, check, config, had, told};
use crate::tested::Tested;
use ballots::Record;
use ghost_log::Opened;
use node_threads::{Beginning, Cluster, Journal, OpenGate, OwnEntry, Running, SeatFault};
use stable_records::{Stable, StoreFault};
use std::alloc::Global;
use std::hash::RandomState;
use std::marker::Brand;
use std::sync::Wait;
use std::test::Fail;

/// A store that tells nothing of what it has.
#[derive(Drop)]
struct Forgetful {
    kept: u64,
}

impl Stable for Forgetful {
    ghost tells = { false };

    ghost faults = { λ _. 0 };

    ghost is_ready = { λ _. true };

    ghost finds = { λ _ _. Unit {0} };

    ghost moment = { λ _. 0 };

    ghost finds_since = { λ _ _ _. Unit {0} };

    fn keep(&mut self, _told: &Record) -> Result<(), StoreFault> {
        self.kept = self.kept.saturating_add(1);
        Ok(())
    }

    fn recall(&mut self, alloc: Global) -> Result<Vec<Record>, StoreFault> {
        Ok(Vec::new(alloc))
    }

    ghost ready_finds_one = { λ store told ready. untold told };

    ghost counts_now = { λ store t found le here. tt };

    ghost only_now = { λ store found since. tt };
}

// Three nodes with such stores.
fn three<R: Wait, J: Beginning>(
    rt: &R,
    alloc: Global,
    hashing: RandomState,
    log: Opened<OwnEntry>,
) -> Result<Running<3, Forgetful, J, OpenGate>, Why>
    requires named { log ≡ J.book }
    requires start { J.start ≡ [] }
{
    let config = config(10, 1000)?;
    if !config.is_within_limits() {
        return Err("no configuration");
    }
    let seats = [
        seat(alloc, hashing, 0, config, Forgetful { kept: 0 })?,
        seat(alloc, hashing, 1, config, Forgetful { kept: 0 })?,
        seat(alloc, hashing, 2, config, Forgetful { kept: 0 })?,
    ];
    let journal = Journal::<J>::with_log(alloc, config, log);
    let cluster = Cluster::new(rt, seats, journal).ok_or("no cluster")?;
    let (nodes, notes) = had(Running::new(alloc, cluster, OpenGate))?;
    drop(notes);
    Ok(nodes)
}

// The first node has kept a record, and does not start again: it goes on, and its put waits on. One that has kept none
// starts.
fn forgets<R: Wait, C: Tested>(rt: &R, alloc: Global, nodes: &C) -> Result<(), Why> {
    let pending = put(rt, alloc, nodes, 0, 1)?;
    gives(rt, alloc, nodes, 0, Call::TakeTick(0), Gave::Done)?;
    let starts = [Call::Restart, Call::RunningRestart];
    each_refuses(rt, alloc, nodes, 0, &starts, SeatFault::Lost)?;
    each_is_done(rt, alloc, nodes, 1, &starts)?;
    gives(rt, alloc, nodes, 0, Call::TakeInput, Gave::Done)?;
    check(nodes.waits(rt, 0), "a put ends at a node that stays")?;
    nodes.end_all(rt, 0, SeatFault::Lost);
    ended_as(
        rt,
        nodes,
        0,
        &pending,
        SeatFault::Store(StoreFault::Damaged),
    )
}

fn plays<R: Wait, J: Beginning>(
    rt: &R,
    alloc: Global,
    hashing: RandomState,
    log: Opened<OwnEntry>,
) -> Result<(), Why>
    requires named { log ≡ J.book }
    requires start { J.start ≡ [] }
{
    let nodes = three::<R, J>(rt, alloc, hashing, log)?;
    let done = forgets(rt, alloc, &nodes);
    drop(nodes);
    done
}

#[test]
fn a_store_that_forgets_starts_no_node_again(rt: HostRuntime) -> Result<(), Fail> {
    told(plays::<_, Brand>(&rt, rt.alloc(), RandomState::new(&rt)?, Opened::new()))
}
