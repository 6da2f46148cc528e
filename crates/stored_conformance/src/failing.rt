//! Stores that fail in one call: a recall is their first, and each record that is due one more.

use crate::support::{Gave, Unopened, apply, check, is_down, last_round, seat, upload};
use ballots::Message;
use node_events::Event;
use stable_records::{FailingStable, MemoryStable, Stable, StoreFault};
use std::alloc::Global;
use std::hash::RandomState;
use std::test::Fail;
use stored_nodes::{StoredNode, StoredNodeFault};

const DEVICE: Gave = Gave::Failed(StoredNodeFault::Store(StoreFault::Device));

const BROKEN: Gave = Gave::Failed(StoredNodeFault::Store(StoreFault::Broken));

/// A seat whose store fails behind so many calls.
#[derive(Drop)]
struct Failing {
    alloc: Global,
    seat: Box<StoredNode<FailingStable<MemoryStable>>>,
    sent: Vec<Message>,
}

fn failing_behind(
    alloc: Global,
    hashing: RandomState,
    calls: u64,
    keeps_last: bool,
) -> Result<Failing, Fail> {
    let store = FailingStable::new(MemoryStable::new(alloc), calls, keeps_last);
    match seat(alloc, hashing, store)? {
        Ok(seat) => Ok(Failing {
            alloc,
            seat,
            sent: Vec::new(alloc),
        }),
        Err(_) => Err(Fail::from("no seat is opened")),
    }
}

impl Failing {
    fn apply(&mut self, event: Event) -> Gave {
        apply(&mut self.seat, &mut self.sent, event)
    }

    fn put(&mut self) -> Result<Gave, Fail> {
        let event = Event::Put(0, upload(self.alloc, 1)?);
        Ok(self.apply(event))
    }

    fn is_down(&mut self) -> Result<bool, Fail> {
        is_down(self.alloc, &mut self.seat)
    }

    // The round at which the node begins behind a restart.
    fn restarts_and_begins(&mut self) -> Result<u32, Fail> {
        if self.apply(Event::Restart(0)) != Gave::Done || self.put()? != Gave::Done {
            return Ok(0);
        }
        let _ = self.apply(Event::Tick(0, 0));
        Ok(last_round(self.sent.as_slice()))
    }
}

// A tick whose record the store fails to keep, and at which round the node begins when it is back.
fn fails_in_a_tick(alloc: Global, hashing: RandomState, keeps_last: bool) -> Result<u32, Fail> {
    let mut failing = failing_behind(alloc, hashing, 1, keeps_last)?;
    check(failing.put()? == Gave::Done, "the put is not done")?;
    check(
        failing.apply(Event::Tick(0, 0)) == DEVICE,
        "the tick does not fail",
    )?;
    check(
        failing.sent.is_empty() && failing.is_down()?,
        "the node is not down",
    )?;
    failing.restarts_and_begins()
}

#[test]
fn a_tick_whose_record_may_be_kept_takes_the_node_down(rt: HostRuntime) -> Result<(), Fail> {
    let hashing = RandomState::new(&rt)?;
    assert!(rt; fails_in_a_tick(rt.alloc(), hashing, false)? == 1);
    assert!(rt; fails_in_a_tick(rt.alloc(), hashing, true)? == 2);
    Ok(())
}

// The same of a cut, which is done whatever the store answers.
fn fails_in_a_cut(alloc: Global, hashing: RandomState, keeps_last: bool) -> Result<u32, Fail> {
    let mut failing = failing_behind(alloc, hashing, 1, keeps_last)?;
    check(failing.put()? == Gave::Done, "the put is not done")?;
    check(
        failing.apply(Event::TickCut(0, 0)) == Gave::Done,
        "the cut is not done",
    )?;
    check(
        failing.sent.is_empty() && failing.is_down()?,
        "the node is not down",
    )?;
    failing.restarts_and_begins()
}

#[test]
fn a_cut_is_done_whatever_the_store_answers(rt: HostRuntime) -> Result<(), Fail> {
    let hashing = RandomState::new(&rt)?;
    assert!(rt; fails_in_a_cut(rt.alloc(), hashing, false)? == 1);
    assert!(rt; fails_in_a_cut(rt.alloc(), hashing, true)? == 2);
    Ok(())
}

#[test]
fn a_restart_that_recalls_nothing_leaves_the_node_up(rt: HostRuntime) -> Result<(), Fail> {
    let mut failing = failing_behind(rt.alloc(), RandomState::new(&rt)?, 1, false)?;
    assert!(rt; failing.apply(Event::Restart(0)) == DEVICE && !failing.is_down()?);
    assert!(rt; failing.put()? == Gave::Done);
    assert!(rt; failing.apply(Event::Tick(0, 0)) == BROKEN && failing.is_down()?);
    assert!(rt; failing.restarts_and_begins()? == 1);
    Ok(())
}

#[test]
fn a_store_that_fails_or_has_a_record_opens_no_seat(rt: HostRuntime) -> Result<(), Fail> {
    let hashing = RandomState::new(&rt)?;
    let failing = FailingStable::new(MemoryStable::new(rt.alloc()), 0, false);
    let unopened = seat(rt.alloc(), hashing, failing)?.err();
    assert!(rt; unopened == Some(Unopened::Store(StoreFault::Device)));
    let mut memory = MemoryStable::new(rt.alloc());
    let ballot = ballots::NodeId::new(0)
        .and_then(|node| ballots::Ballot::new(1, node))
        .ok_or("no ballot")?;
    let kept = memory.keep(&ballots::Record::Began(ballot));
    let unopened = seat(rt.alloc(), hashing, memory)?.err();
    assert!(rt; kept.is_ok() && unopened == Some(Unopened::HasRecords));
    Ok(())
}
