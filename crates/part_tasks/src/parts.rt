//! Parts of a node that are called for slot after slot.

use crate::fault::TaskFault;
use crate::shared::push;
use acceptor::{Acceptor, Answer};
use ballots::{Acceptance, Ballot, Members, NodeId, Slot, Value};
use decided_log::DecidedLog;
use learner::Learner;
use std::alloc::{AllocError, Global};

/// Makes an acceptor so many times, and has it accept for slot after slot. A repetition weighs its grants.
pub fn call_acceptor(alloc: Global, count: u64, slots: usize) -> Result<u64, TaskFault> {
    let slots = first_slots(alloc, slots)?;
    let mut sum: u64 = 0;
    for _ in 0..count {
        sum = sum.wrapping_add(grants(alloc, &slots)?);
    }
    Ok(sum)
}

/// Makes a learner so many times, and tells it that each of three members accepted for slot after slot. A repetition
/// weighs the slots that it learned.
pub fn call_learner(alloc: Global, count: u64, slots: usize) -> Result<u64, TaskFault> {
    let slots = first_slots(alloc, slots)?;
    let mut sum: u64 = 0;
    for _ in 0..count {
        sum = sum.wrapping_add(slots_learned(alloc, &slots)?);
    }
    Ok(sum)
}

/// Makes a log so many times, and inserts a value for slot after slot. A repetition weighs the values by which its
/// prefix grew.
pub fn call_log(alloc: Global, count: u64, slots: usize) -> Result<u64, TaskFault> {
    let slots = first_slots(alloc, slots)?;
    let mut sum: u64 = 0;
    for _ in 0..count {
        sum = sum.wrapping_add(prefix_grown(alloc, &slots)?);
    }
    Ok(sum)
}

// So many as slots are numbered, where there are some.
fn first_slots(alloc: Global, count: usize) -> Result<Vec<Slot>, TaskFault> {
    let mut slots = Vec::new(alloc);
    match u32::try_from(count) {
        Ok(count) if count != 0 => push_slots(&mut slots, count)?,
        _ => return Err(TaskFault::Slots),
    }
    Ok(slots)
}

fn push_slots(slots: &mut Vec<Slot>, count: u32) -> Result<(), TaskFault> {
    for number in 0..count {
        match Slot::new(number) {
            Some(slot) => push(slots, slot)?,
            None => return Err(TaskFault::Slots),
        }
    }
    Ok(())
}

/// One of three members.
pub(crate) fn node(number: u8) -> NodeId {
    NodeId::new(number % 3).unwrap()
}

/// The first ballot of the first member.
pub(crate) fn first_ballot() -> Ballot {
    Ballot::new(1, node(0)).unwrap()
}

fn grants(alloc: Global, slots: &[Slot]) -> Result<u64, AllocError> {
    let mut acceptor = Acceptor::new(alloc);
    let sum = grants_by(&mut acceptor, slots);
    drop(acceptor);
    sum
}

fn grants_by(acceptor: &mut Acceptor, slots: &[Slot]) -> Result<u64, AllocError> {
    let mut sum: u64 = 0;
    for slot in slots {
        if is_granted(acceptor, *slot)? {
            sum = sum.wrapping_add(1);
        }
    }
    Ok(sum)
}

fn is_granted(acceptor: &mut Acceptor, slot: Slot) -> Result<bool, AllocError> {
    let proposal = Acceptance {
        ballot: first_ballot(),
        value: Value::Noop,
    };
    let answer = acceptor.on_accept(slot, proposal)?;
    let granted = matches!(&answer, Answer::Granted);
    drop(answer);
    Ok(granted)
}

fn slots_learned(alloc: Global, slots: &[Slot]) -> Result<u64, AllocError> {
    let mut learner = Learner::new(alloc, Members::new(3).unwrap());
    let sum = slots_learned_by(&mut learner, slots);
    drop(learner);
    sum
}

fn slots_learned_by(learner: &mut Learner, slots: &[Slot]) -> Result<u64, AllocError> {
    let mut sum: u64 = 0;
    for slot in slots {
        sum = sum.wrapping_add(votes_that_taught(learner, *slot)?);
    }
    Ok(sum)
}

// Tells the votes of all three members, and counts those by which the slot was learned.
fn votes_that_taught(learner: &mut Learner, slot: Slot) -> Result<u64, AllocError> {
    let mut sum: u64 = 0;
    for number in 0..3u8 {
        if is_taught(learner, node(number), slot)? {
            sum = sum.wrapping_add(1);
        }
    }
    Ok(sum)
}

// Tells one vote, and whether the slot was learned by it.
fn is_taught(learner: &mut Learner, acceptor: NodeId, slot: Slot) -> Result<bool, AllocError> {
    let (ballot, value) = (first_ballot(), Value::Noop);
    match learner.see_on_accepted(acceptor, slot, ballot, &value) {
        Ok(told) => {
            learner.on_accepted(acceptor, slot, ballot, value);
            let taught = told.is_some();
            drop(told);
            Ok(taught)
        }
        Err(refused) => {
            drop(value);
            Err(refused)
        }
    }
}

fn prefix_grown(alloc: Global, slots: &[Slot]) -> Result<u64, AllocError> {
    let mut log = DecidedLog::new(alloc, node(0));
    let sum = prefix_grown_of(&mut log, slots);
    drop(log);
    sum
}

fn prefix_grown_of(log: &mut DecidedLog, slots: &[Slot]) -> Result<u64, AllocError> {
    let mut sum: u64 = 0;
    for slot in slots {
        sum = sum.wrapping_add(values_gained(log, *slot)?);
    }
    Ok(sum)
}

// Inserts a value, and counts those by which the prefix grew.
fn values_gained(log: &mut DecidedLog, slot: Slot) -> Result<u64, AllocError> {
    let value = Value::Noop;
    match log.gain(slot, &value) {
        Ok(values) => {
            log.insert(slot, value);
            let gained = values.len() as u64;
            drop(values);
            Ok(gained)
        }
        Err(refused) => {
            drop(value);
            Err(refused)
        }
    }
}
