//! Calls of a cluster and of its running nodes that are refused memory, and then are made again: after a refusal the
//! journal and all nodes are as before, or there is the one entry of a node that went down, or that of a query.
//! Run with every allocation refused in turn, the test ends as before or for want of memory.

use crate::calls::{Call, Gave};
use crate::made::{ClusterState, at, ended_as, has_one_entry_more, is_cut, what_stands};
use crate::story::{Limits, NEVER, Story, told_of};
use crate::support::{Why, check, held, told};
use crate::tested::{Holding, Tested};
use agreement::Refusal;
use crossbeam_channel::Receiver;
use ghost_log::Opened;
use node_threads::{Note, Pending, SeatFault};
use stable_records::StoreFault;
use std::alloc::Global;
use std::hash::RandomState;
use std::marker::Brand;
use std::sync::Wait;
use std::test::Fail;
use std::time::Clock;
use table_versions::Outcome;
use uploads::Upload;

const REFUSED: SeatFault = SeatFault::Refused(Refusal::OutOfMemory);

/// Each call at a node: those by which an upload that waits at the first is decided there and at the second, and what
/// follows.
const CALLS: [(u64, Call); 19] = [
    (0, Call::TakeTick(0)),
    (0, Call::Deliver(0)),
    (1, Call::Deliver(0)),
    (0, Call::Deliver(1)),
    (0, Call::Deliver(2)),
    (0, Call::Deliver(3)),
    (1, Call::Deliver(3)),
    (0, Call::Deliver(4)),
    (0, Call::Deliver(5)),
    (0, Call::Ask),
    (0, Call::Get),
    (0, Call::Settle(1)),
    (0, Call::RunningGet),
    (1, Call::TakePut(2)),
    (1, Call::Restart),
    (1, Call::TakeInput),
    (2, Call::Put(3)),
    (2, Call::TakeTick(0)),
    (2, Call::RunningRestart),
];

// Whether there is one entry more, and no node has changed.
fn has_one_more(before: &ClusterState, after: &ClusterState) -> bool {
    has_one_entry_more(before, after)
        && after.first == before.first
        && after.second == before.second
        && after.third == before.third
}

// Whether all is as where memory was refused: a query is entered before its answer is copied.
fn stands(before: &ClusterState, after: &ClusterState, call: Call) -> bool {
    match call {
        Call::Get | Call::RunningGet => *before == *after || has_one_more(before, after),
        _ => *before == *after,
    }
}

// Whether all is as what a call returned says.
fn is_promised<R: Wait, C: Holding>(
    rt: &R,
    nodes: &C,
    before: &ClusterState,
    after: &ClusterState,
    node: u64,
    call: Call,
    gave: Gave,
) -> bool {
    match gave {
        Gave::Done | Gave::Nothing => at(after, node).outcome.is_some(),
        Gave::Failed(SeatFault::Refused(Refusal::OutOfMemory)) => stands(before, after, call),
        Gave::Failed(SeatFault::Store(StoreFault::OutOfMemory)) => match call {
            Call::Restart | Call::RunningRestart => *before == *after,
            _ => is_cut(rt, nodes, before, after, node),
        },
        Gave::Failed(_) => false,
    }
}

// Makes the call once. Whether it was done.
fn make_once<R: Wait, C: Holding>(
    rt: &R,
    alloc: Global,
    nodes: &C,
    upload: &Upload,
    node: u64,
    call: Call,
) -> Result<bool, Why> {
    let before = what_stands(rt, nodes, upload)?;
    let gave = nodes.make(rt, alloc, node as usize, call)?;
    let after = what_stands(rt, nodes, upload)?;
    check(
        is_promised(rt, nodes, &before, &after, node, call, gave),
        "another answer, or something else has changed",
    )?;
    Ok(matches!(gave, Gave::Done | Gave::Nothing))
}

// Makes the call, and again where memory was refused; after a restart where the node went down.
fn make<R: Wait, C: Holding>(
    rt: &R,
    alloc: Global,
    nodes: &C,
    upload: &Upload,
    node: u64,
    call: Call,
) -> Result<(), Why> {
    for _ in 0..2 {
        if at(&what_stands(rt, nodes, upload)?, node).outcome.is_none() {
            make_once(rt, alloc, nodes, upload, node, Call::Restart)?;
        }
        if make_once(rt, alloc, nodes, upload, node, call)? {
            return Ok(());
        }
    }
    Err("refused again")
}

// Whether the call hands over a message that was not sent, since a node went down.
fn is_not_sent<R: Wait, C: Tested>(rt: &R, nodes: &C, call: Call) -> bool {
    match call {
        Call::Deliver(number) => number >= nodes.counts(rt).messages,
        _ => false,
    }
}

// Makes all calls.
fn make_all<R: Wait, C: Holding>(
    rt: &R,
    alloc: Global,
    nodes: &C,
    upload: &Upload,
) -> Result<(), Why> {
    for (node, call) in &CALLS {
        if !is_not_sent(rt, nodes, *call) {
            make(rt, alloc, nodes, upload, *node, *call)?;
        }
    }
    Ok(())
}

// Puts the upload at the first node, and again where memory was refused: then nothing waits, and all is as before.
fn put_again<R: Wait, C: Tested>(rt: &R, nodes: &C, upload: &Upload) -> Result<Pending, Why> {
    for _ in 0..2 {
        let before = what_stands(rt, nodes, upload)?;
        match nodes.put(rt, 0, upload) {
            Ok(pending) => return Ok(pending),
            Err(fault) => {
                let after = what_stands(rt, nodes, upload)?;
                check(
                    fault == REFUSED && before == after,
                    "a put that is refused leaves something",
                )?;
            }
        }
    }
    Err("refused again")
}

// Ends the put, and looks again where memory was refused: it is told what became of its upload where the first node
// knows that.
fn ends<R: Wait, C: Tested>(
    rt: &R,
    nodes: &C,
    upload: &Upload,
    pending: &Pending,
) -> Result<(), Why> {
    nodes.settle_all(rt, 0);
    nodes.settle_all(rt, 0);
    let known = what_stands(rt, nodes, upload)?.first.outcome == Some(Outcome::Applied(1));
    check(nodes.waits(rt, 0) != known, "it waits, or waits no more")?;
    if !known {
        nodes.end_all(rt, 0, SeatFault::Down);
        return ended_as(rt, nodes, 0, pending, SeatFault::Down);
    }
    let Ok(settled) = pending.wait(rt) else {
        return Err("what is known of the upload is not told");
    };
    check(settled.outcome() == Outcome::Applied(1), "another outcome")
}

/// Each call is made, and again where memory was refused.
struct Refused;

impl Story for Refused {
    fn limits(&self) -> Limits {
        Limits {
            slots: 1000,
            entries: 1_000_000,
            passed: NEVER,
        }
    }

    fn tell<R: Wait + Clock, C: Holding>(
        &self,
        rt: &R,
        alloc: Global,
        nodes: &C,
        _notes: &[Receiver<Note>],
    ) -> Result<(), Why> {
        let upload = held(alloc, 1)?;
        let pending = put_again(rt, nodes, &upload)?;
        make_all(rt, alloc, nodes, &upload)?;
        ends(rt, nodes, &upload, &pending)
    }
}

#[test]
fn each_call_of_running_nodes_is_made_again(rt: HostRuntime) -> Result<(), Fail> {
    let (alloc, hashing) = (rt.alloc(), RandomState::new(&rt)?);
    told(told_of::<_, Brand, _>(&rt, alloc, hashing, Opened::new(), &Refused))
}
