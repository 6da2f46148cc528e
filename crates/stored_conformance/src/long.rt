//! A node whose store fails in each of its calls in turn: it restarts, and in the end has every upload once.

use crate::support::{Gave, apply, check, seat, upload};
use ballots::{Members, Message};
use lawful_histories::are_lawful;
use node_events::Event;
use stable_records::{FailingStable, MemoryStable};
use std::alloc::Global;
use std::hash::RandomState;
use std::test::Fail;
use stored_nodes::{StoredNode, StoredNodeFault};

const UPLOADS: u64 = 8;

type Failing = StoredNode<FailingStable<MemoryStable>>;

// The version of which the upload is, 0 where none is known.
fn version_of(alloc: Global, seat: &mut Failing, number: u64) -> Result<u64, Fail> {
    let mut sent = Vec::new(alloc);
    let asked = Event::Outcome(0, upload(alloc, number)?);
    match apply(seat, &mut sent, asked) {
        Gave::Applied(version) => Ok(version),
        _ => Ok(0),
    }
}

// The event is applied; where the store fails in it, the node restarts.
fn apply_or_restart(seat: &mut Failing, sent: &mut Vec<Message>, event: Event) -> u64 {
    match apply(seat, sent, event) {
        Gave::Failed(StoredNodeFault::Store(_)) => {
            let _ = apply(seat, sent, Event::Restart(0));
            1
        }
        _ => 0,
    }
}

// Hands in the upload until it is decided: a put, a tick, and each message that comes of it. A node that restarts learns
// one slot after the other again. How often the store failed.
fn decide(
    alloc: Global,
    seat: &mut Failing,
    sent: &mut Vec<Message>,
    number: u64,
) -> Result<u64, Fail> {
    let mut failures: u64 = 0;
    for _ in 0..2 * UPLOADS {
        if version_of(alloc, seat, number)? != 0 {
            break;
        }
        let next = sent.len() as u64;
        failures = failures.saturating_add(apply_or_restart(
            seat,
            sent,
            Event::Put(0, upload(alloc, number)?),
        ));
        failures = failures.saturating_add(apply_or_restart(seat, sent, Event::Tick(0, 0)));
        for place in next..next.saturating_add(4) {
            failures = failures.saturating_add(apply_or_restart(
                seat,
                sent,
                Event::Deliver(0, place),
            ));
        }
    }
    Ok(failures)
}

// How often the store failed that fails behind so many calls; each upload was decided, and what was sent is lawful.
fn fails_behind(
    alloc: Global,
    hashing: RandomState,
    calls: u64,
    keeps_last: bool,
) -> Result<u64, Fail> {
    let store = FailingStable::new(MemoryStable::new(alloc), calls, keeps_last);
    let Ok(mut seat) = seat(alloc, hashing, store)? else {
        return Err(Fail::from("no seat is opened"));
    };
    let mut sent = Vec::new(alloc);
    let mut failures: u64 = 0;
    for number in 0..UPLOADS {
        failures = failures.saturating_add(decide(alloc, &mut seat, &mut sent, number)?);
    }
    let _ = apply(&mut seat, &mut sent, Event::Restart(0));
    for message in 0..sent.len() as u64 {
        let _ = apply(&mut seat, &mut sent, Event::Deliver(0, message));
    }
    for number in 0..UPLOADS {
        let version = version_of(alloc, &mut seat, number)?;
        check(version == number + 1, "an upload is of another version")?;
    }
    let members = Members::new(1).ok_or("no members")?;
    check(
        are_lawful(members, sent.as_slice()),
        "what was sent is not lawful",
    )?;
    Ok(failures)
}

#[test]
fn whichever_call_fails_each_upload_stands_once(rt: HostRuntime) -> Result<(), Fail> {
    let hashing = RandomState::new(&rt)?;
    let mut failures: u64 = 0;
    for calls in 1..24 {
        failures = failures.saturating_add(fails_behind(rt.alloc(), hashing, calls, false)?);
        failures = failures.saturating_add(fails_behind(rt.alloc(), hashing, calls, true)?);
    }
    assert!(rt; failures == 46);
    Ok(())
}
