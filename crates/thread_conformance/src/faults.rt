//! Faults that change nothing: of inputs and messages that are none, of a journal that is another, of nodes that are
//! not there.

use crate::calls::{Call, Gave};
use crate::made::{
    decides, each_is_done, each_refuses, ended_as, gives, put, refuses, what_stands,
};
use crate::story::{Limits, NEVER, Story, told_of};
use crate::support::{Why, check, held, told};
use crate::tested::{Holding, Tested};
use agreement::Refusal;
use crossbeam_channel::Receiver;
use ghost_log::Opened;
use node_threads::{Note, SeatFault};
use stable_records::StoreFault;
use std::alloc::Global;
use std::hash::RandomState;
use std::marker::Brand;
use std::sync::Wait;
use std::test::Fail;
use std::time::Clock;

/// A number that no message has.
const LATE: u64 = 1000;

/// Every call at a node.
const EACH: [Call; 12] = [
    Call::TakePut(3),
    Call::TakeTick(0),
    Call::TakeFirst(0),
    Call::Deliver(0),
    Call::Ask,
    Call::Get,
    Call::Settle(1),
    Call::RunningGet,
    Call::TakeInput,
    Call::Put(3),
    Call::RunningRestart,
    Call::Restart,
];

/// Those at a node that has no version, whose journal has no message.
const WITHOUT_A_MESSAGE: [Call; 9] = [
    Call::TakePut(3),
    Call::TakeTick(0),
    Call::Ask,
    Call::Get,
    Call::Restart,
    Call::Put(3),
    Call::TakeInput,
    Call::RunningGet,
    Call::RunningRestart,
];

// Messages that were not sent, and a tick that leaves too many slots, each beside one that is taken.
fn looks_at_inputs<R: Wait, C: Tested>(rt: &R, alloc: Global, nodes: &C) -> Result<(), Why> {
    let not_sent = [
        Call::Deliver(LATE),
        Call::TakeFirst(LATE),
        Call::TakeFirst(1),
    ];
    each_refuses(rt, alloc, nodes, 1, &not_sent, SeatFault::NotSent)?;
    check(
        nodes.no_message(rt, LATE) == Some(SeatFault::NotSent),
        "a message that was not sent",
    )?;
    check(nodes.no_message(rt, 0).is_none(), "no message")?;
    let out = SeatFault::Refused(Refusal::OutOfRange);
    refuses(rt, alloc, nodes, 1, Call::TakeTick(8), out)?;
    let sound = [
        Call::TakeFirst(0),
        Call::Deliver(1),
        Call::TakeTick(7),
        Call::Get,
    ];
    each_is_done(rt, alloc, nodes, 1, &sound)
}

// Every call at a node that there is not.
fn looks_for_a_node<R: Wait, C: Tested>(rt: &R, alloc: Global, nodes: &C) -> Result<(), Why> {
    each_refuses(rt, alloc, nodes, 3, &EACH, SeatFault::Down)?;
    let upload = held(alloc, 1)?;
    let before = what_stands(rt, nodes, &upload)?;
    nodes.settle_all(rt, 3);
    nodes.end_all(rt, 3, SeatFault::Down);
    check(!nodes.waits(rt, 3), "something waits at no node")?;
    check(
        what_stands(rt, nodes, &upload)? == before,
        "a node that is not there changes something",
    )?;
    each_is_done(rt, alloc, nodes, 2, &EACH)
}

/// Inputs, messages and nodes that are none.
struct Inputs;

impl Story for Inputs {
    fn limits(&self) -> Limits {
        Limits {
            slots: 10,
            entries: 1000,
            passed: NEVER,
        }
    }

    fn tell<R: Wait + Clock, C: Holding>(
        &self,
        rt: &R,
        alloc: Global,
        nodes: &C,
        _notes: &[Receiver<Note>],
    ) -> Result<(), Why> {
        decides(rt, alloc, nodes)?;
        looks_at_inputs(rt, alloc, nodes)?;
        looks_for_a_node(rt, alloc, nodes)
    }
}

#[test]
fn inputs_and_nodes_that_are_none_are_refused(rt: HostRuntime) -> Result<(), Fail> {
    let (alloc, hashing) = (rt.alloc(), RandomState::new(&rt)?);
    told(told_of::<_, Brand, _>(&rt, alloc, hashing, Opened::new(), &Inputs))
}

// The first node has an entry, which another journal has not: it does nothing there, while a node without one answers.
fn one_is_strange<R: Wait, C: Holding>(rt: &R, alloc: Global, nodes: &C) -> Result<(), Why> {
    gives(rt, alloc, nodes, 0, Call::TakePut(1), Gave::Done)?;
    let upload = held(alloc, 1)?;
    let before = what_stands(rt, nodes, &upload)?;
    let own = nodes.exchanged(rt, C::another_journal(alloc)?);
    let refused = each_refuses(rt, alloc, nodes, 0, &WITHOUT_A_MESSAGE, SeatFault::Strange);
    let answered = gives(rt, alloc, nodes, 1, Call::Ask, Gave::Done);
    drop(nodes.exchanged(rt, own));
    refused?;
    answered?;
    check(
        what_stands(rt, nodes, &upload)? == before,
        "another journal changes something",
    )
}

// A put whose outcome is known waits at the first node, and ends as with a store's fault where its journal is another.
fn a_put_is_strange<R: Wait, C: Holding>(rt: &R, alloc: Global, nodes: &C) -> Result<(), Why> {
    let pending = put(rt, alloc, nodes, 0, 1)?;
    let own = nodes.exchanged(rt, C::another_journal(alloc)?);
    let refused = refuses(rt, alloc, nodes, 0, Call::Settle(1), SeatFault::Strange);
    nodes.settle_all(rt, 0);
    drop(nodes.exchanged(rt, own));
    refused?;
    ended_as(
        rt,
        nodes,
        0,
        &pending,
        SeatFault::Store(StoreFault::Damaged),
    )?;
    gives(rt, alloc, nodes, 0, Call::Settle(1), Gave::Done)
}

/// The nodes have another journal for a while.
struct Strange;

impl Story for Strange {
    fn limits(&self) -> Limits {
        Limits {
            slots: 10,
            entries: 1000,
            passed: NEVER,
        }
    }

    fn tell<R: Wait + Clock, C: Holding>(
        &self,
        rt: &R,
        alloc: Global,
        nodes: &C,
        _notes: &[Receiver<Note>],
    ) -> Result<(), Why> {
        one_is_strange(rt, alloc, nodes)?;
        decides(rt, alloc, nodes)?;
        a_put_is_strange(rt, alloc, nodes)
    }
}

#[test]
fn nodes_of_another_journal_are_strange(rt: HostRuntime) -> Result<(), Fail> {
    let (alloc, hashing) = (rt.alloc(), RandomState::new(&rt)?);
    told(told_of::<_, Brand, _>(&rt, alloc, hashing, Opened::new(), &Strange))
}
