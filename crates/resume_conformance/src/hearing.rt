//! Nodes that hear again what was chosen, and records that are refused.

use agreement::AgreementConfig;
use ballots::{Acceptance, Ballot, Body, Members, Message, NodeId, Record, Slot, Value};
use node_core::Input;
use resumed_nodes::{
    HearFault, ReopenFault, chosen_by, hear, hear_all, hear_together, reopen_next,
};
use stable_records::{MemoryStable, Stable};
use std::alloc::Global;
use std::hash::RandomState;
use std::test::*;
use std::thread::Threads;
use stored_nodes::StoredNode;

// Node 0 of three, with five thousand slots and no records.
fn seat(alloc: Global, hashing: RandomState) -> Result<Box<StoredNode<MemoryStable>>, Fail> {
    let me = NodeId::new(0).ok_or("no node")?;
    let members = Members::new(3).ok_or("no members")?;
    let config = AgreementConfig::new(members, 5_000).ok_or("no config")?;
    match StoredNode::reopen(alloc, hashing, me, config, MemoryStable::new(alloc)) {
        Ok(seat) => Ok(Box::new(alloc, seat)?),
        Err(_) => Err(Fail::from("no seat")),
    }
}

// A message of this node about this slot.
fn message(sender: u8, slot: u32, body: Body) -> Result<Message, Fail> {
    match (NodeId::new(sender), Slot::new(slot)) {
        (Some(sender), Some(slot)) => Ok(Message { sender, slot, body }),
        _ => {
            drop(body);
            Err(Fail::from("no message"))
        }
    }
}

// This node accepted a no-op for the slot, at the ballot 1.0.
fn accepted(sender: u8, slot: u32) -> Result<Message, Fail> {
    let node = NodeId::new(0).ok_or("no node")?;
    let ballot = Ballot::new(1, node).ok_or("no ballot")?;
    let value = Value::Noop;
    message(sender, slot, Body::Accepted(Acceptance { ballot, value }))
}

// How many values the node tells to whoever asks it from this slot on.
fn tells_from(seat: &mut StoredNode<MemoryStable>, slot: u32) -> Result<usize, Fail> {
    match seat.plan(Input::Deliver(message(1, slot, Body::Ask)?)) {
        Ok(plan) => {
            let count = plan.sends().len();
            drop(plan);
            Ok(count)
        }
        Err(_) => Err(Fail::from("nothing is due")),
    }
}

// The node hears the message. It takes the message, so that this is the one place where one is dropped.
fn heard(seat: &mut StoredNode<MemoryStable>, message: Message) -> Result<(), HearFault> {
    hear(seat, &message)
}

#[test]
fn a_majority_is_heard(rt: HostRuntime) -> Result<(), Fail> {
    let mut seat = seat(rt.alloc(), RandomState::new(&rt)?)?;
    assert!(rt; heard(&mut seat, accepted(0, 0)?).is_ok());
    assert!(rt; tells_from(&mut seat, 0)? == 0);
    assert!(rt; heard(&mut seat, accepted(2, 0)?).is_ok());
    assert!(rt; tells_from(&mut seat, 0)? == 1);
    Ok(())
}

#[test]
fn what_tells_no_value_is_not_heard(rt: HostRuntime) -> Result<(), Fail> {
    let mut seat = seat(rt.alloc(), RandomState::new(&rt)?)?;
    assert!(rt; heard(&mut seat, message(1, 0, Body::Ask)?) == Err(HearFault::NoValue));
    assert!(rt; heard(&mut seat, accepted(3, 0)?) == Err(HearFault::OutOfRange));
    assert!(rt; heard(&mut seat, accepted(0, 5_000)?) == Err(HearFault::OutOfRange));
    Ok(())
}

// What two nodes accepted for so many slots.
fn told(alloc: Global, slots: u32) -> Result<Vec<Message>, Fail> {
    let mut told = Vec::new(alloc);
    for slot in 0..slots {
        told.push(accepted(0, slot)?)?;
        told.push(accepted(1, slot)?)?;
    }
    Ok(told)
}

#[test]
fn thousands_of_slots_are_heard(rt: HostRuntime) -> Result<(), Fail> {
    let mut seat = seat(rt.alloc(), RandomState::new(&rt)?)?;
    let told = told(rt.alloc(), 4_000)?;
    assert!(rt; hear_all(&mut seat, told.as_slice()).is_ok());
    assert!(rt; tells_from(&mut seat, 0)? == 16);
    assert!(rt; tells_from(&mut seat, 3_999)? == 1);
    assert!(rt; tells_from(&mut seat, 4_000)? == 0);
    Ok(())
}

// The store keeps the record.
fn keep(store: &mut MemoryStable, record: Record) -> Result<(), Fail> {
    match store.keep(&record) {
        Ok(()) => Ok(()),
        Err(_) => Err(Fail::from("it is not kept")),
    }
}

// A store of what this node kept: it promised a ballot of node 0, and accepted a no-op at each of so many slots.
fn store(alloc: Global, slots: u32) -> Result<MemoryStable, Fail> {
    let node = NodeId::new(0).ok_or("no node")?;
    let ballot = Ballot::new(1, node).ok_or("no ballot")?;
    let mut store = MemoryStable::new(alloc);
    for number in 0..slots {
        let slot = Slot::new(number).ok_or("no slot")?;
        let value = Value::Noop;
        keep(
            &mut store,
            Record::Accepted(slot, Acceptance { ballot, value }),
        )?;
    }
    Ok(store)
}

// The fault of a node that starts over this store, as the second of three.
fn fault_over(
    alloc: Global,
    hashing: RandomState,
    store: MemoryStable,
) -> Result<ReopenFault, Fail> {
    let members = Members::new(3).ok_or("no members")?;
    let config = AgreementConfig::new(members, 10).ok_or("no config")?;
    let mut nodes = Vec::new(alloc);
    let first = NodeId::new(0).ok_or("no node")?;
    let second = NodeId::new(1).ok_or("no node")?;
    match reopen_next(
        alloc,
        hashing,
        first,
        config,
        &mut nodes,
        MemoryStable::new(alloc),
    ) {
        Ok(()) => {}
        Err(fault) => return Ok(fault),
    }
    match reopen_next(alloc, hashing, second, config, &mut nodes, store) {
        Ok(()) => Err(Fail::from("it has started")),
        Err(fault) => Ok(fault),
    }
}

#[test]
fn records_of_others_are_refused(rt: HostRuntime) -> Result<(), Fail> {
    let alloc = rt.alloc();
    let hashing = RandomState::new(&rt)?;
    assert!(rt; fault_over(alloc, hashing, store(alloc, 11)?)? == ReopenFault::OutOfRange);
    let node = NodeId::new(0).ok_or("no node")?;
    let ballot = Ballot::new(1, node).ok_or("no ballot")?;
    let mut other = MemoryStable::new(alloc);
    keep(&mut other, Record::Began(ballot))?;
    assert!(rt; fault_over(alloc, hashing, other)? == ReopenFault::AnotherNode);
    Ok(())
}

// Three nodes that start again, of which the first accepted at one slot less.
fn three<R: Threads + Sync>(
    rt: &R,
    alloc: Global,
    hashing: RandomState,
) -> Result<Box<Vec<StoredNode<MemoryStable>>>, Fail> {
    let members = Members::new(3).ok_or("no members")?;
    let config = AgreementConfig::new(members, 5_000).ok_or("no config")?;
    let mut nodes = Vec::new(alloc);
    for number in 0..3 {
        let me = NodeId::new(number).ok_or("no node")?;
        let store = store(alloc, if number == 0 { 2_999 } else { 3_000 })?;
        if reopen_next(alloc, hashing, me, config, &mut nodes, store).is_err() {
            return Err(Fail::from("it has not started"));
        }
    }
    let told = match chosen_by(alloc, config, nodes.as_slice()) {
        Ok(told) => told,
        Err(_) => return Err(Fail::from("nothing is told")),
    };
    let nodes = hear_together(rt, alloc, config, nodes, told.as_slice())?;
    Ok(Box::new(alloc, nodes)?)
}

#[test]
fn all_have_learned_what_was_chosen(rt: HostRuntime) -> Result<(), Fail> {
    let mut nodes = three(&rt, rt.alloc(), RandomState::new(&rt)?)?;
    for node in nodes.iter_mut() {
        assert!(rt; tells_from(node, 2_999)? == 1);
        assert!(rt; tells_from(node, 3_000)? == 0);
    }
    Ok(())
}
