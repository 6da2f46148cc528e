//! The calls of a log of decided values (Lamport, *Paxos Made Simple*, section 3).

use crate::{shown, words};
use ballots::{Body, Slot, Value};
use decided_log::DecidedLog;
use std::alloc::Global;
use std::mem;
use story_requests::{RequestFault, Response, Words};

/// Answers a call of the log.
pub(crate) fn answer(
    alloc: Global,
    log: &mut DecidedLog,
    words: &mut Words<'_>,
    answer: &mut Response,
) -> Result<(), RequestFault> {
    match words.next() {
        "new" => make(alloc, log, words),
        "insert" => insert(alloc, log, words, answer),
        "asked" => ask(alloc, log, words, answer),
        "holds" => holds(alloc, log, words, answer),
        _ => Err(RequestFault::BadRequest),
    }
}

// Puts a log of this node in its place.
fn make(alloc: Global, log: &mut DecidedLog, words: &mut Words<'_>) -> Result<(), RequestFault> {
    let node = words::node(words)?;
    drop(mem::replace(log, DecidedLog::new(alloc, node)));
    Ok(())
}

// Inserts the value of a Decided, and gives how long the prefix is then, and the values by which it has grown.
fn insert(
    alloc: Global,
    log: &mut DecidedLog,
    words: &mut Words<'_>,
    answer: &mut Response,
) -> Result<(), RequestFault> {
    let message = words::message(alloc, words)?;
    let slot = message.slot;
    match message.body {
        Body::Decided { value } => insert_value(log, slot, value, answer),
        _ => Err(RequestFault::BadRequest),
    }
}

fn insert_value(
    log: &mut DecidedLog,
    slot: Slot,
    value: Value,
    answer: &mut Response,
) -> Result<(), RequestFault> {
    let gained = log.gain(slot, &value)?;
    log.insert(slot, value);
    show_gained(&gained, log.prefix().len(), answer)
}

fn show_gained(gained: &[Value], len: usize, answer: &mut Response) -> Result<(), RequestFault> {
    answer.number(len as u64)?;
    for value in gained {
        answer.bytes(value.as_bytes())?;
    }
    Ok(())
}

// How many values it tells who asks for them from this slot on.
fn ask(
    alloc: Global,
    log: &DecidedLog,
    words: &mut Words<'_>,
    answer: &mut Response,
) -> Result<(), RequestFault> {
    let slot = words::slot(alloc, words)?;
    let told = log.asked(slot)?;
    answer.number(told.len() as u64)
}

// The value of this slot in the prefix, if it goes so far.
fn holds(
    alloc: Global,
    log: &DecidedLog,
    words: &mut Words<'_>,
    answer: &mut Response,
) -> Result<(), RequestFault> {
    let slot = words::slot(alloc, words)?;
    shown::perhaps(log.prefix().get(slot.number() as usize), answer)
}
