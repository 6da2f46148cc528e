//! What puts that wait are told where all of a node's end for a fault.

use crate::made::{ended_as, put};
use crate::story::{Limits, NEVER, Story, told_of};
use crate::support::{Why, check, told};
use crate::tested::{Holding, Tested};
use agreement::Refusal;
use crossbeam_channel::Receiver;
use ghost_log::Opened;
use node_threads::{Note, SeatFault};
use stable_records::StoreFault;
use std::alloc::Global;
use std::hash::RandomState;
use std::marker::Brand;
use std::sync::Wait;
use std::test::Fail;
use std::time::Clock;

/// Faults, and what puts that wait are told of each, `None` where they wait on.
const ENDS: [(SeatFault, Option<SeatFault>); 11] = [
    (SeatFault::Down, Some(SeatFault::Down)),
    (
        SeatFault::Strange,
        Some(SeatFault::Store(StoreFault::Damaged)),
    ),
    (SeatFault::JournalFull, Some(SeatFault::JournalFull)),
    (SeatFault::NotSent, None),
    (SeatFault::Refused(Refusal::OutOfRange), None),
    (
        SeatFault::Refused(Refusal::SlotsSpent),
        Some(SeatFault::Refused(Refusal::SlotsSpent)),
    ),
    (
        SeatFault::Refused(Refusal::RoundsSpent),
        Some(SeatFault::Refused(Refusal::RoundsSpent)),
    ),
    (SeatFault::Refused(Refusal::OutOfMemory), None),
    (
        SeatFault::Store(StoreFault::Device),
        Some(SeatFault::Store(StoreFault::Device)),
    ),
    (
        SeatFault::Store(StoreFault::OutOfMemory),
        Some(SeatFault::Store(StoreFault::OutOfMemory)),
    ),
    (SeatFault::Lost, Some(SeatFault::Store(StoreFault::Damaged))),
];

// A put at the first node, all of which end with this fault: it is told that, or waits on.
fn one_ends<R: Wait, C: Tested>(
    rt: &R,
    alloc: Global,
    nodes: &C,
    number: u64,
    fault: SeatFault,
    wanted: Option<SeatFault>,
) -> Result<(), Why> {
    let pending = put(rt, alloc, nodes, 0, number)?;
    nodes.end_all(rt, 0, fault);
    check(
        nodes.waits(rt, 0) == wanted.is_none(),
        "it waits, or waits no more",
    )?;
    nodes.end_all(rt, 0, SeatFault::Down);
    ended_as(rt, nodes, 0, &pending, wanted.unwrap_or(SeatFault::Down))
}

// Every fault, one after the other.
fn each_ends<R: Wait, C: Tested>(rt: &R, alloc: Global, nodes: &C) -> Result<(), Why> {
    let mut number: u64 = 2;
    for (fault, wanted) in &ENDS {
        one_ends(rt, alloc, nodes, number, *fault, *wanted)?;
        number = number.saturating_add(1);
    }
    Ok(())
}

/// Each fault ends the puts of its node alone.
struct Endings;

impl Story for Endings {
    fn limits(&self) -> Limits {
        Limits {
            slots: 10,
            entries: 1000,
            passed: NEVER,
        }
    }

    fn tell<R: Wait + Clock, C: Holding>(
        &self,
        rt: &R,
        alloc: Global,
        nodes: &C,
        _notes: &[Receiver<Note>],
    ) -> Result<(), Why> {
        let other = put(rt, alloc, nodes, 1, 1)?;
        each_ends(rt, alloc, nodes)?;
        check(nodes.waits(rt, 1), "a put at another node ends")?;
        nodes.end_all(rt, 1, SeatFault::JournalFull);
        ended_as(rt, nodes, 1, &other, SeatFault::JournalFull)
    }
}

#[test]
fn puts_that_wait_are_told_why_they_end(rt: HostRuntime) -> Result<(), Fail> {
    let (alloc, hashing) = (rt.alloc(), RandomState::new(&rt)?);
    told(told_of::<_, Brand, _>(&rt, alloc, hashing, Opened::new(), &Endings))
}
