//! Stores that fail: the node goes down and no other, and a restart brings it back.

use crate::calls::{Call, Gave};
use crate::made::{
    at, deliver_from, each_is_done, each_refuses, ended_as, gives, is_cut, put, refuses,
    what_stands,
};
use crate::story::{Limits, Story, told_of};
use crate::support::{Why, check, held, told};
use crate::tested::{Holding, Tested};
use crossbeam_channel::Receiver;
use ghost_log::Opened;
use node_threads::{Note, SeatFault};
use stable_records::StoreFault;
use std::alloc::Global;
use std::hash::RandomState;
use std::marker::Brand;
use std::sync::Wait;
use std::test::Fail;
use std::time::Clock;

const DEVICE: SeatFault = SeatFault::Store(StoreFault::Device);

/// All that a node refuses that is down.
const REFUSED: [Call; 10] = [
    Call::TakePut(4),
    Call::TakeTick(0),
    Call::TakeFirst(0),
    Call::Deliver(0),
    Call::Ask,
    Call::Get,
    Call::Settle(1),
    Call::Put(4),
    Call::TakeInput,
    Call::RunningGet,
];

/// What another node does meanwhile.
const DONE: [Call; 5] = [
    Call::TakePut(4),
    Call::TakeFirst(0),
    Call::Deliver(0),
    Call::Ask,
    Call::TakeInput,
];

// The node's store fails in this call: one entry more says so, and the node is down. Its put waits on, and no other
// node changes.
fn goes_down<R: Wait, C: Holding>(
    rt: &R,
    alloc: Global,
    nodes: &C,
    node: u64,
    call: Call,
) -> Result<(), Why> {
    let upload = held(alloc, 1)?;
    let before = what_stands(rt, nodes, &upload)?;
    let gave = nodes.make(rt, alloc, node as usize, call)?;
    check(gave == Gave::Failed(DEVICE), "the store does not fail")?;
    let after = what_stands(rt, nodes, &upload)?;
    check(at(&after, node).waits, "a put waits no more")?;
    check(
        is_cut(rt, nodes, &before, &after, node),
        "something else than a cut",
    )
}

// A store that fails as it recalls: the node stays up, its put waits on, and the next restart is done.
fn fails_in_a_restart<R: Wait, C: Tested>(rt: &R, alloc: Global, nodes: &C) -> Result<(), Why> {
    let pending = put(rt, alloc, nodes, 1, 3)?;
    refuses(rt, alloc, nodes, 1, Call::RunningRestart, DEVICE)?;
    check(nodes.waits(rt, 1), "a put ends at a node that stays")?;
    gives(rt, alloc, nodes, 1, Call::RunningRestart, Gave::Done)?;
    ended_as(rt, nodes, 1, &pending, SeatFault::Down)
}

// The second node asks for promises. The first fails as it is handed that, and the third in a tick: both refuse all, and
// the second goes on.
fn fail_in_inputs<R: Wait, C: Holding>(rt: &R, alloc: Global, nodes: &C) -> Result<(), Why> {
    goes_down(rt, alloc, nodes, 0, Call::Deliver(0))?;
    goes_down(rt, alloc, nodes, 2, Call::TakeInput)?;
    each_refuses(rt, alloc, nodes, 0, &REFUSED, SeatFault::Down)?;
    each_refuses(rt, alloc, nodes, 2, &REFUSED, SeatFault::Down)?;
    each_is_done(rt, alloc, nodes, 1, &DONE)?;
    nodes.settle_all(rt, 0);
    nodes.end_all(rt, 2, DEVICE);
    Ok(())
}

// Puts wait at the nodes that go down, and are told why they end.
fn puts_end<R: Wait, C: Holding>(rt: &R, alloc: Global, nodes: &C) -> Result<(), Why> {
    let calls = [Call::TakePut(1), Call::TakeTick(0)];
    each_is_done(rt, alloc, nodes, 1, &calls)?;
    let first = put(rt, alloc, nodes, 0, 2)?;
    let third = put(rt, alloc, nodes, 2, 3)?;
    fail_in_inputs(rt, alloc, nodes)?;
    ended_as(rt, nodes, 0, &first, SeatFault::Down)?;
    ended_as(rt, nodes, 2, &third, DEVICE)?;
    refuses(rt, alloc, nodes, 0, Call::Put(4), SeatFault::Down)
}

// The nodes that went down start again, and all three agree on an upload.
fn come_back<R: Wait, C: Tested>(rt: &R, alloc: Global, nodes: &C) -> Result<(), Why> {
    gives(rt, alloc, nodes, 0, Call::Restart, Gave::Done)?;
    gives(rt, alloc, nodes, 2, Call::RunningRestart, Gave::Done)?;
    let calls = [Call::TakePut(1), Call::TakeTick(0)];
    each_is_done(rt, alloc, nodes, 0, &calls)?;
    deliver_from(rt, alloc, nodes, 0)?;
    gives(rt, alloc, nodes, 0, Call::Get, Gave::Done)?;
    gives(rt, alloc, nodes, 1, Call::Get, Gave::Done)?;
    gives(rt, alloc, nodes, 2, Call::RunningGet, Gave::Done)
}

/// A store that fails takes its node down and no other, until it starts again.
struct Failing;

impl Story for Failing {
    fn limits(&self) -> Limits {
        Limits {
            slots: 10,
            entries: 1000,
            passed: 1,
        }
    }

    fn tell<R: Wait + Clock, C: Holding>(
        &self,
        rt: &R,
        alloc: Global,
        nodes: &C,
        _notes: &[Receiver<Note>],
    ) -> Result<(), Why> {
        fails_in_a_restart(rt, alloc, nodes)?;
        puts_end(rt, alloc, nodes)?;
        come_back(rt, alloc, nodes)
    }
}

#[test]
fn a_store_that_fails_takes_its_node_down_and_no_other(rt: HostRuntime) -> Result<(), Fail> {
    let (alloc, hashing) = (rt.alloc(), RandomState::new(&rt)?);
    told(told_of::<_, Brand, _>(&rt, alloc, hashing, Opened::new(), &Failing))
}
