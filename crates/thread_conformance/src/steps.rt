//! Three nodes, one step after the other: an upload that is put at one is served at each.

use crate::calls::{Call, Gave};
use crate::made::{deliver_from, ended_as, gives, put};
use crate::story::{Limits, NEVER, Story, told_of};
use crate::support::{Why, check, had, told};
use crate::tested::{Holding, Tested};
use crossbeam_channel::Receiver;
use ghost_log::Opened;
use node_threads::{Note, Pending, Receipt, SeatFault};
use std::alloc::Global;
use std::hash::RandomState;
use std::marker::Brand;
use std::sync::Wait;
use std::test::Fail;
use std::time::Clock;
use table_versions::{Answer, Outcome};

// The put is settled at the first node once its upload is decided, and no earlier.
fn settles<R: Wait, C: Tested>(rt: &R, alloc: Global, nodes: &C) -> Result<(), Why> {
    check(nodes.waits(rt, 0) && !nodes.waits(rt, 1), "what waits")?;
    nodes.settle_all(rt, 0);
    check(nodes.waits(rt, 0), "it is settled before it is known")?;
    gives(rt, alloc, nodes, 0, Call::TakeInput, Gave::Done)?;
    deliver_from(rt, alloc, nodes, 0)?;
    nodes.settle_all(rt, 0);
    check(!nodes.waits(rt, 0), "it waits still")
}

/// The receipt of the put, which made the first version.
pub(crate) fn receipt_of<R: Wait>(rt: &R, pending: &Pending) -> Result<Receipt, Why> {
    let Ok(settled) = pending.wait(rt) else {
        return Err("the put ends with a fault");
    };
    check(settled.outcome() == Outcome::Applied(1), "another outcome")?;
    Ok(settled.into_receipt())
}

/// A version that a node has, with the receipt of its answer.
pub(crate) type Served = Box<(Answer, Receipt)>;

// The first version, as this node has it.
fn served_at<R: Wait, C: Tested>(
    rt: &R,
    alloc: Global,
    nodes: &C,
    node: usize,
) -> Result<Served, Why> {
    had(Box::new(alloc, nodes.first_version(rt, alloc, node)?))
}

/// All three nodes have the same first version, as the first two give it.
pub(crate) fn served<R: Wait, C: Tested>(
    rt: &R,
    alloc: Global,
    nodes: &C,
) -> Result<(Served, Served), Why> {
    let first = served_at(rt, alloc, nodes, 0)?;
    let second = served_at(rt, alloc, nodes, 1)?;
    let third = served_at(rt, alloc, nodes, 2)?;
    check(first.0 == second.0 && second.0 == third.0, "answers differ")?;
    Ok((first, second))
}

// An upload is put, decided and served; every receipt is confirmed by the journal, which is lawful.
fn decides<R: Wait, C: Holding>(rt: &R, alloc: Global, nodes: &C) -> Result<(), Why> {
    let pending = put(rt, alloc, nodes, 0, 1)?;
    settles(rt, alloc, nodes)?;
    let settled = had(Box::new(alloc, receipt_of(rt, &pending)?))?;
    let (got, got_too) = served(rt, alloc, nodes)?;
    check(
        nodes.meets(rt, &settled, &got.1),
        "a receipt is not confirmed",
    )?;
    check(
        nodes.meets(rt, &settled, &got_too.1),
        "another is not confirmed",
    )?;
    check(nodes.is_lawful(rt), "what was sent is not lawful")
}

// A node that starts again ends its puts, and has what it learned once it is handed it again.
fn starts_again<R: Wait, C: Tested>(rt: &R, alloc: Global, nodes: &C) -> Result<(), Why> {
    let pending = put(rt, alloc, nodes, 2, 2)?;
    gives(rt, alloc, nodes, 2, Call::RunningRestart, Gave::Done)?;
    ended_as(rt, nodes, 2, &pending, SeatFault::Down)?;
    gives(rt, alloc, nodes, 2, Call::RunningGet, Gave::Nothing)?;
    deliver_from(rt, alloc, nodes, 0)?;
    gives(rt, alloc, nodes, 2, Call::RunningGet, Gave::Done)?;
    let nowhere = Gave::Failed(SeatFault::Down);
    gives(rt, alloc, nodes, 3, Call::RunningRestart, nowhere)
}

// The worker of a node at which an upload waits gives it a tick, and ends the put once it is told to stop.
fn stops<R: Wait + Clock, C: Holding>(
    rt: &R,
    alloc: Global,
    nodes: &C,
    notes: &[Receiver<Note>],
) -> Result<(), Why> {
    let pending = put(rt, alloc, nodes, 1, 3)?;
    let before = nodes.counts(rt).messages;
    nodes.works_to_its_end(rt, 1, notes.get(1).ok_or("no notes")?)?;
    let after = nodes.counts(rt).messages;
    check(before < after, "no tick is given")?;
    ended_as(rt, nodes, 1, &pending, SeatFault::Down)
}

/// An upload is decided and served, a node starts again, and a worker stops.
struct Steps;

impl Story for Steps {
    fn limits(&self) -> Limits {
        Limits {
            slots: 1000,
            entries: 1_000_000,
            passed: NEVER,
        }
    }

    fn tell<R: Wait + Clock, C: Holding>(
        &self,
        rt: &R,
        alloc: Global,
        nodes: &C,
        notes: &[Receiver<Note>],
    ) -> Result<(), Why> {
        decides(rt, alloc, nodes)?;
        starts_again(rt, alloc, nodes)?;
        stops(rt, alloc, nodes, notes)
    }
}

#[test]
fn an_upload_is_decided_and_served(rt: HostRuntime) -> Result<(), Fail> {
    let (alloc, hashing) = (rt.alloc(), RandomState::new(&rt)?);
    told(told_of::<_, Brand, _>(&rt, alloc, hashing, Opened::new(), &Steps))
}
