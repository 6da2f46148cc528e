//! Nodes that start over a store that has records.

use crate::support::{Gave, apply, check, is_down, last_round, upload};
use agreement::AgreementConfig;
use ballots::{Ballot, Members, NodeId, Record};
use node_core::OpenFault;
use node_events::Event;
use stable_records::{FailingStable, MemoryStable, Stable, StoreFault};
use std::alloc::Global;
use std::hash::RandomState;
use std::test::Fail;
use stored_nodes::StoredNode;

// A store that has one record: that this node began an attempt at this round.
fn store_with(alloc: Global, round: u32, node: u8) -> Result<MemoryStable, Fail> {
    let node = NodeId::new(node).ok_or("no node")?;
    let ballot = Ballot::new(round, node).ok_or("no ballot")?;
    let mut store = MemoryStable::new(alloc);
    match store.keep(&Record::Began(ballot)) {
        Ok(()) => Ok(store),
        Err(_) => Err(Fail::from("the record is not kept")),
    }
}

// The only member of a configuration of a hundred slots, over this store, or why it is not opened.
fn reopened<S: Stable + Drop>(
    alloc: Global,
    hashing: RandomState,
    store: S,
) -> Result<Result<Box<StoredNode<S>>, OpenFault>, Fail> {
    let me = NodeId::new(0).ok_or("no node")?;
    let members = Members::new(1).ok_or("no members")?;
    let config = AgreementConfig::new(members, 100).ok_or("no config")?;
    match StoredNode::reopen(alloc, hashing, me, config, store) {
        Ok(seat) => Ok(Ok(Box::new(alloc, seat)?)),
        Err(fault) => Ok(Err(fault)),
    }
}

// At which round the node begins that is opened over this store.
fn begins_at<S: Stable + Drop>(alloc: Global, hashing: RandomState, store: S) -> Result<u32, Fail> {
    let Ok(mut seat) = reopened(alloc, hashing, store)? else {
        return Err(Fail::from("the node is not opened"));
    };
    check(!is_down(alloc, &mut seat)?, "the node is down")?;
    let mut sent = Vec::new(alloc);
    let put = apply(&mut seat, &mut sent, Event::Put(0, upload(alloc, 1)?));
    check(put == Gave::Done, "the put is not done")?;
    let _ = apply(&mut seat, &mut sent, Event::Tick(0, 0));
    Ok(last_round(sent.as_slice()))
}

#[test]
fn a_node_begins_above_what_its_store_has(rt: HostRuntime) -> Result<(), Fail> {
    let hashing = RandomState::new(&rt)?;
    assert!(rt; begins_at(rt.alloc(), hashing, store_with(rt.alloc(), 5, 0)?)? == 6);
    assert!(rt; begins_at(rt.alloc(), hashing, MemoryStable::new(rt.alloc()))? == 1);
    Ok(())
}

// Why no node is opened over this store.
fn fault_over<S: Stable + Drop>(
    alloc: Global,
    hashing: RandomState,
    store: S,
) -> Result<Option<OpenFault>, Fail> {
    Ok(reopened(alloc, hashing, store)?.err())
}

#[test]
fn records_of_another_configuration_open_no_node(rt: HostRuntime) -> Result<(), Fail> {
    let store = store_with(rt.alloc(), 5, 1)?;
    let fault = fault_over(rt.alloc(), RandomState::new(&rt)?, store)?;
    assert!(rt; fault == Some(OpenFault::OutOfRange));
    Ok(())
}

#[test]
fn a_store_that_fails_opens_no_node(rt: HostRuntime) -> Result<(), Fail> {
    let store = FailingStable::new(MemoryStable::new(rt.alloc()), 0, false);
    let fault = fault_over(rt.alloc(), RandomState::new(&rt)?, store)?;
    assert!(rt; fault == Some(OpenFault::Store(StoreFault::Device)));
    Ok(())
}
