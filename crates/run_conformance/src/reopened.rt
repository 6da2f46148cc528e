//! A node whose disk stops at each of its calls: it is reopened from what the crash leaves, and goes on as the rules have it.

use crate::chosen::is_chosen_twice;
use crate::nodes::{boxed, config, node, send, take};
use crate::support::{members, upload};
use ballots::{Message, NodeId};
use disk_records::{DiskStable, MemoryDisk, Pick};
use lawful_histories::are_lawful;
use node_core::{Input, Node, OpenFault};
use stable_records::{Stable, StoreFault};
use std::alloc::Global;
use std::hash::RandomState;
use std::test::Fail;

/// More calls of the disk than the run below makes.
const MOST_CALLS: u64 = 24;

/// Rounds in which each new message comes to two nodes: enough for what one of them proposes.
const ROUNDS: u32 = 4;

/// What a disk has after a crash: what it may leave of each write that is not synced, or, against the rules, nothing.
#[derive(Clone, Copy, PartialEq, Eq)]
enum Crash {
    Leaves(Pick),
    Forgets,
}

/// Node 1 of three, with its store on a disk.
#[derive(Drop)]
struct OnDisk {
    node: Box<Node>,
    store: DiskStable<MemoryDisk>,
    crash: Crash,
}

// The store on a disk whose file has these bytes.
fn store(alloc: Global, bytes: Vec<u8>, calls: Option<u64>) -> DiskStable<MemoryDisk> {
    let mut disk = MemoryDisk::new(alloc, bytes);
    disk.calls_left = calls;
    DiskStable::new(alloc, disk)
}

// The store on what a crash leaves of this one's disk.
fn crashed(
    alloc: Global,
    store_before: &DiskStable<MemoryDisk>,
    crash: Crash,
) -> Result<DiskStable<MemoryDisk>, Fail> {
    match crash {
        Crash::Leaves(pick) => {
            let left = store_before.disk().crashed(pick)?;
            Ok(store(alloc, left, None))
        }
        Crash::Forgets => Ok(store(alloc, Vec::new(alloc), None)),
    }
}

// Node 1, as the store's records left it, or none where the disk fails.
fn reopened(
    alloc: Global,
    hashing: RandomState,
    store: &mut DiskStable<MemoryDisk>,
) -> Result<Option<Box<Node>>, Fail> {
    let me = NodeId::new(1).ok_or("no node")?;
    match Node::reopen(alloc, hashing, me, config()?, store) {
        Ok(node) => Ok(Some(boxed(alloc, node)?)),
        Err(OpenFault::Store(StoreFault::Device)) => Ok(None),
        Err(_) => Err(Fail::from("not reopened")),
    }
}

// The node and its store after a crash.
fn restarted(
    alloc: Global,
    hashing: RandomState,
    before: &DiskStable<MemoryDisk>,
    crash: Crash,
) -> Result<Box<OnDisk>, Fail> {
    let mut store = crashed(alloc, before, crash)?;
    match reopened(alloc, hashing, &mut store)? {
        Some(node) => Ok(Box::new(alloc, OnDisk { node, store, crash })?),
        None => Err(Fail::from("a disk failed twice")),
    }
}

// The node with a new disk that stops behind so many calls, and crashes then.
fn opened(
    alloc: Global,
    hashing: RandomState,
    calls: u64,
    crash: Crash,
) -> Result<Box<OnDisk>, Fail> {
    let mut store = store(alloc, Vec::new(alloc), Some(calls));
    match reopened(alloc, hashing, &mut store)? {
        Some(node) => Ok(Box::new(alloc, OnDisk { node, store, crash })?),
        None => restarted(alloc, hashing, &store, crash),
    }
}

// Lets the node do what is due to an input, behind its record. It is false where the disk fails: nothing is sent then.
fn takes(member: &mut OnDisk, sent: &mut Vec<Message>, input: Input) -> Result<bool, Fail> {
    let plan = match member.node.plan(input) {
        Ok(plan) => plan,
        Err(_) => return Err(Fail::from("refused")),
    };
    let is_kept = match plan.record() {
        Some(record) => member.store.keep(record).is_ok(),
        None => true,
    };
    if !is_kept {
        drop(plan);
        return Ok(false);
    }
    match send(sent, plan.sends()) {
        Ok(()) => {
            member.node.commit(plan);
            Ok(true)
        }
        Err(fail) => {
            drop(plan);
            Err(fail)
        }
    }
}

// Hands the node the message of this number, and says whether its record was kept.
fn hands(member: &mut OnDisk, sent: &mut Vec<Message>, number: usize) -> Result<bool, Fail> {
    let message = sent.get(number).ok_or("not sent")?.clone()?;
    takes(member, sent, Input::Deliver(message))
}

// Hands the node the message of this number. Where its disk fails it crashes, is reopened, and is handed the message again.
fn hand(
    alloc: Global,
    hashing: RandomState,
    member: Box<OnDisk>,
    sent: &mut Vec<Message>,
    number: usize,
) -> Result<Box<OnDisk>, Fail> {
    let mut member = member;
    if hands(&mut member, sent, number)? {
        return Ok(member);
    }
    let mut member = restarted(alloc, hashing, &member.store, member.crash)?;
    if hands(&mut member, sent, number)? {
        Ok(member)
    } else {
        Err(Fail::from("a disk failed twice"))
    }
}

// Hands these messages, from the first number up to the other, to the node.
fn hand_all(
    alloc: Global,
    hashing: RandomState,
    member: Box<OnDisk>,
    sent: &mut Vec<Message>,
    (first, end): (usize, usize),
) -> Result<Box<OnDisk>, Fail> {
    let mut member = member;
    for number in first..end {
        member = hand(alloc, hashing, member, sent, number)?;
    }
    Ok(member)
}

// The node of this number begins for an upload, and node 1 has a part in it: each new message comes to both, and to no other.
fn decide(
    alloc: Global,
    hashing: RandomState,
    member: Box<OnDisk>,
    sent: &mut Vec<Message>,
    number: u8,
) -> Result<Box<OnDisk>, Fail> {
    let mut member = member;
    let mut other = node(alloc, hashing, number, &[])?;
    let mut kept = Vec::new(alloc);
    let upload = upload(alloc, u64::from(number))?;
    let mut first = sent.len();
    take(&mut other, &mut kept, sent, Input::Put(upload))?;
    take(&mut other, &mut kept, sent, Input::Tick(0))?;
    for _ in 0..ROUNDS {
        let end = sent.len();
        member = hand_all(alloc, hashing, member, sent, (first, end))?;
        for place in first..end {
            let message = sent.get(place).ok_or("not sent")?.clone()?;
            take(&mut other, &mut kept, sent, Input::Deliver(message))?;
        }
        first = end;
    }
    Ok(member)
}

// Whether all that is sent is lawful, and nothing chosen twice, where node 0 and then node 2 decide with node 1 alone, whose
// disk stops behind so many calls.
fn is_safe(alloc: Global, hashing: RandomState, calls: u64, crash: Crash) -> Result<bool, Fail> {
    let mut sent = Vec::new(alloc);
    let member = opened(alloc, hashing, calls, crash)?;
    let member = decide(alloc, hashing, member, &mut sent, 0)?;
    let _member = decide(alloc, hashing, member, &mut sent, 2)?;
    Ok(are_lawful(members(3)?, &sent) && !is_chosen_twice(members(3)?, &sent))
}

#[test]
fn a_node_is_reopened_from_what_each_crash_leaves(rt: HostRuntime) -> Result<(), Fail> {
    let hashing = RandomState::new(&rt)?;
    for calls in 0..MOST_CALLS {
        for pick in [Pick::Written, Pick::Unwritten, Pick::Filled] {
            let is_safe = is_safe(rt.alloc(), hashing, calls, Crash::Leaves(pick))?;
            assert!(rt; is_safe, "at {calls}");
        }
    }
    Ok(())
}

#[test]
fn a_node_that_lost_its_file_breaks_the_rules(rt: HostRuntime) -> Result<(), Fail> {
    let hashing = RandomState::new(&rt)?;
    let mut broken = 0_u32;
    for calls in 0..MOST_CALLS {
        if !is_safe(rt.alloc(), hashing, calls, Crash::Forgets)? {
            broken = broken.saturating_add(1);
        }
    }
    assert!(rt; broken > 0);
    Ok(())
}
