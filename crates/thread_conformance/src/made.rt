//! What the nodes and their journal are like before a call and after it.

use crate::calls::{Call, Gave, name_of};
use crate::support::{Why, check, held, upload};
use crate::tested::{AtNode, Counts, Holding, Tested};
use node_threads::{Pending, SeatFault};
use std::alloc::Global;
use std::sync::Wait;
use uploads::Upload;

/// More messages than an upload takes.
const MANY: u64 = 100;

/// How long the journal is, and what each of the three nodes reports of an upload.
#[derive(Clone, Copy, PartialEq, Eq)]
pub(crate) struct ClusterState {
    pub(crate) counts: Counts,
    pub(crate) first: AtNode,
    pub(crate) second: AtNode,
    pub(crate) third: AtNode,
}

/// How all is, with what each node reports of this upload. It takes each lock, and no memory.
pub(crate) fn what_stands<R: Wait, C: Tested>(
    rt: &R,
    nodes: &C,
    upload: &Upload,
) -> Result<ClusterState, Why> {
    Ok(ClusterState {
        counts: nodes.counts(rt),
        first: nodes.at_node(rt, upload, 0)?,
        second: nodes.at_node(rt, upload, 1)?,
        third: nodes.at_node(rt, upload, 2)?,
    })
}

/// What this node reports.
pub(crate) fn at(standing: &ClusterState, node: u64) -> AtNode {
    match node {
        0 => standing.first,
        1 => standing.second,
        _ => standing.third,
    }
}

// Whether the nodes but this one are as before.
fn others_stand(before: &ClusterState, after: &ClusterState, node: u64) -> bool {
    (node == 0 || before.first == after.first)
        && (node == 1 || before.second == after.second)
        && (node == 2 || before.third == after.third)
}

/// Whether there is one entry more, and no message more.
pub(crate) fn has_one_entry_more(before: &ClusterState, after: &ClusterState) -> bool {
    after.counts.entries == before.counts.entries.saturating_add(1)
        && after.counts.messages == before.counts.messages
}

/// Whether one entry more says that this node went down in the midst, and nothing else has changed: it is down, what
/// waits there waits on, and the others are as before.
pub(crate) fn is_cut<R: Wait, C: Holding>(
    rt: &R,
    nodes: &C,
    before: &ClusterState,
    after: &ClusterState,
    node: u64,
) -> bool {
    has_one_entry_more(before, after)
        && nodes.ends_in_a_cut(rt, node)
        && at(after, node).outcome.is_none()
        && at(after, node).waits == at(before, node).waits
        && others_stand(before, after, node)
}

/// Fails where the call returns something else than this fault, or where something changes.
pub(crate) fn refuses<R: Wait, C: Tested>(
    rt: &R,
    alloc: Global,
    nodes: &C,
    node: usize,
    call: Call,
    fault: SeatFault,
) -> Result<(), Why> {
    let upload = held(alloc, 1)?;
    let before = what_stands(rt, nodes, &upload)?;
    let gave = nodes.make(rt, alloc, node, call)?;
    check(gave == Gave::Failed(fault), name_of(call))?;
    let after = what_stands(rt, nodes, &upload)?;
    check(after == before, "a fault changes something")
}

/// Fails where one of the calls does.
pub(crate) fn each_refuses<R: Wait, C: Tested>(
    rt: &R,
    alloc: Global,
    nodes: &C,
    node: usize,
    calls: &[Call],
    fault: SeatFault,
) -> Result<(), Why> {
    for call in calls {
        refuses(rt, alloc, nodes, node, *call, fault)?;
    }
    Ok(())
}

/// Fails where the call returns something else.
pub(crate) fn gives<R: Wait, C: Tested>(
    rt: &R,
    alloc: Global,
    nodes: &C,
    node: usize,
    call: Call,
    wanted: Gave,
) -> Result<(), Why> {
    let gave = nodes.make(rt, alloc, node, call)?;
    check(gave == wanted, name_of(call))
}

/// Fails where one of the calls is not done.
pub(crate) fn each_is_done<R: Wait, C: Tested>(
    rt: &R,
    alloc: Global,
    nodes: &C,
    node: usize,
    calls: &[Call],
) -> Result<(), Why> {
    for call in calls {
        gives(rt, alloc, nodes, node, *call, Gave::Done)?;
    }
    Ok(())
}

/// Hands each message from this number on to each node, until no more are sent.
pub(crate) fn deliver_from<R: Wait, C: Tested>(
    rt: &R,
    alloc: Global,
    nodes: &C,
    first: u64,
) -> Result<(), Why> {
    for number in first..MANY {
        for node in 0..3 {
            match nodes.make(rt, alloc, node, Call::Deliver(number))? {
                Gave::Done => {}
                Gave::Failed(SeatFault::NotSent) => return Ok(()),
                _ => return Err("a message is not taken"),
            }
        }
    }
    Err("messages without end")
}

/// Three nodes agree on the upload 1, which is put at the first.
pub(crate) fn decides<R: Wait, C: Tested>(rt: &R, alloc: Global, nodes: &C) -> Result<(), Why> {
    let calls = [Call::TakePut(1), Call::TakeTick(0)];
    each_is_done(rt, alloc, nodes, 0, &calls)?;
    deliver_from(rt, alloc, nodes, 0)
}

/// Hands an upload of this number to the node, where it waits.
pub(crate) fn put<R: Wait, C: Tested>(
    rt: &R,
    alloc: Global,
    nodes: &C,
    node: usize,
    number: u64,
) -> Result<Pending, Why> {
    let upload = upload(alloc, number)?;
    match nodes.put(rt, node, &upload) {
        Ok(pending) => Ok(pending),
        Err(_) => Err("a put fails"),
    }
}

/// Fails where a put waits at the node, or where this one did not end with this fault.
pub(crate) fn ended_as<R: Wait, C: Tested>(
    rt: &R,
    nodes: &C,
    node: usize,
    pending: &Pending,
    fault: SeatFault,
) -> Result<(), Why> {
    check(!nodes.waits(rt, node), "it waits after its end")?;
    match pending.wait(rt) {
        Ok(settled) => {
            drop(settled);
            Err("a put ends with an outcome")
        }
        Err(end) => check(end == fault, "a put ends with another fault"),
    }
}
