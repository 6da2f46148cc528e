//! Limits that are reached: a journal that is full, and slots that are spent.

use crate::calls::{Call, Gave};
use crate::made::{
    decides, deliver_from, each_is_done, each_refuses, ended_as, gives, put, refuses, what_stands,
};
use crate::story::{Limits, NEVER, Story, told_of};
use crate::support::{Why, check, held, told};
use crate::tested::{Holding, Tested};
use agreement::Refusal;
use crossbeam_channel::Receiver;
use ghost_log::Opened;
use node_threads::{Note, SeatFault};
use std::alloc::Global;
use std::hash::RandomState;
use std::marker::Brand;
use std::sync::Wait;
use std::test::Fail;
use std::time::Clock;

const SPENT: SeatFault = SeatFault::Refused(Refusal::SlotsSpent);

/// All that a full journal has no room for.
const ENTERED: [Call; 12] = [
    Call::TakePut(3),
    Call::TakeTick(0),
    Call::TakeFirst(0),
    Call::Deliver(0),
    Call::Ask,
    Call::Get,
    Call::Settle(1),
    Call::Restart,
    Call::Put(3),
    Call::TakeInput,
    Call::RunningGet,
    Call::RunningRestart,
];

/// All that a node does whose slots are spent.
const DONE: [Call; 10] = [
    Call::TakePut(1),
    Call::TakeTick(0),
    Call::TakeFirst(0),
    Call::Deliver(0),
    Call::Ask,
    Call::Get,
    Call::Settle(1),
    Call::Put(1),
    Call::TakeInput,
    Call::RunningGet,
];

// Asks the third node for its version, until the journal is full.
fn fills<R: Wait, C: Tested>(rt: &R, alloc: Global, nodes: &C) -> Result<(), Why> {
    for _ in 0..100 {
        match nodes.make(rt, alloc, 2, Call::Ask)? {
            Gave::Done => {}
            gave => return check(
                gave == Gave::Failed(SeatFault::JournalFull),
                "another fault",
            ),
        }
    }
    Err("the journal is not full")
}

// Every call that would be entered is refused at each node; what enters nothing is done.
fn is_full<R: Wait, C: Tested>(rt: &R, alloc: Global, nodes: &C) -> Result<(), Why> {
    let full = SeatFault::JournalFull;
    each_refuses(rt, alloc, nodes, 0, &ENTERED, full)?;
    each_refuses(rt, alloc, nodes, 1, &ENTERED, full)?;
    each_refuses(rt, alloc, nodes, 2, &ENTERED, full)?;
    gives(rt, alloc, nodes, 0, Call::Settle(2), Gave::Nothing)?;
    check(
        nodes.no_message(rt, 0).is_none(),
        "a full journal has no message",
    )
}

// Puts that wait at two nodes are looked at where the journal is full, which does not grow: the one whose outcome is known
// ends, since that can't be entered, and the other waits on.
fn settles_nothing<R: Wait, C: Tested>(rt: &R, alloc: Global, nodes: &C) -> Result<(), Why> {
    let upload = held(alloc, 1)?;
    let before = what_stands(rt, nodes, &upload)?;
    nodes.settle_all(rt, 0);
    nodes.settle_all(rt, 1);
    check(!nodes.waits(rt, 0), "it waits for an entry without room")?;
    check(nodes.waits(rt, 1), "what is not known ends")?;
    let after = what_stands(rt, nodes, &upload)?;
    check(before.counts == after.counts, "a full journal grows")
}

/// Puts wait at two nodes as the journal is filled, and are told that it is full.
struct Full;

impl Story for Full {
    fn limits(&self) -> Limits {
        Limits {
            slots: 10,
            entries: 60,
            passed: NEVER,
        }
    }

    fn tell<R: Wait + Clock, C: Holding>(
        &self,
        rt: &R,
        alloc: Global,
        nodes: &C,
        _notes: &[Receiver<Note>],
    ) -> Result<(), Why> {
        decides(rt, alloc, nodes)?;
        let known = put(rt, alloc, nodes, 0, 1)?;
        let unknown = put(rt, alloc, nodes, 1, 2)?;
        fills(rt, alloc, nodes)?;
        is_full(rt, alloc, nodes)?;
        settles_nothing(rt, alloc, nodes)?;
        ended_as(rt, nodes, 0, &known, SeatFault::JournalFull)?;
        nodes.end_all(rt, 1, SeatFault::JournalFull);
        ended_as(rt, nodes, 1, &unknown, SeatFault::JournalFull)
    }
}

#[test]
fn a_full_journal_refuses_what_is_entered(rt: HostRuntime) -> Result<(), Fail> {
    let (alloc, hashing) = (rt.alloc(), RandomState::new(&rt)?);
    told(told_of::<_, Brand, _>(&rt, alloc, hashing, Opened::new(), &Full))
}

// An upload waits at the second node as the only slot is decided for another: it and each new one are refused, and all
// else is done.
fn a_slot_is_spent<R: Wait, C: Tested>(rt: &R, alloc: Global, nodes: &C) -> Result<(), Why> {
    let waiting = put(rt, alloc, nodes, 1, 2)?;
    decides(rt, alloc, nodes)?;
    let puts = [Call::TakePut(3), Call::Put(3)];
    each_refuses(rt, alloc, nodes, 0, &puts, SPENT)?;
    each_refuses(rt, alloc, nodes, 1, &puts, SPENT)?;
    let ticks = [Call::TakeTick(0), Call::TakeInput];
    each_refuses(rt, alloc, nodes, 1, &ticks, SPENT)?;
    each_is_done(rt, alloc, nodes, 0, &DONE)?;
    nodes.settle_all(rt, 1);
    check(nodes.waits(rt, 1), "what is not known ends")?;
    nodes.end_all(rt, 1, SPENT);
    ended_as(rt, nodes, 1, &waiting, SPENT)
}

// A node that starts again knows of no decision, so it takes an upload until it has learned one.
fn starts_again<R: Wait, C: Tested>(rt: &R, alloc: Global, nodes: &C) -> Result<(), Why> {
    refuses(rt, alloc, nodes, 2, Call::Put(3), SPENT)?;
    let calls = [Call::Restart, Call::TakePut(3)];
    each_is_done(rt, alloc, nodes, 2, &calls)?;
    deliver_from(rt, alloc, nodes, 0)?;
    refuses(rt, alloc, nodes, 2, Call::Put(4), SPENT)
}

/// The only slot is spent.
struct Spent;

impl Story for Spent {
    fn limits(&self) -> Limits {
        Limits {
            slots: 1,
            entries: 1000,
            passed: NEVER,
        }
    }

    fn tell<R: Wait + Clock, C: Holding>(
        &self,
        rt: &R,
        alloc: Global,
        nodes: &C,
        _notes: &[Receiver<Note>],
    ) -> Result<(), Why> {
        a_slot_is_spent(rt, alloc, nodes)?;
        starts_again(rt, alloc, nodes)
    }
}

#[test]
fn spent_slots_refuse_uploads(rt: HostRuntime) -> Result<(), Fail> {
    let (alloc, hashing) = (rt.alloc(), RandomState::new(&rt)?);
    told(told_of::<_, Brand, _>(&rt, alloc, hashing, Opened::new(), &Spent))
}
