//! The calls of a learner (Lamport, *Paxos Made Simple*, section 2.3). Each is told beforehand what it will make
//! learned.

use crate::{shown, words};
use ballots::{Acceptance, Body, NodeId, Slot, Value};
use learner::Learner;
use std::alloc::Global;
use std::mem;
use story_requests::{RequestFault, Response, Words};

/// Answers a call of the learner.
pub(crate) fn answer(
    alloc: Global,
    learner: &mut Learner,
    words: &mut Words<'_>,
    answer: &mut Response,
) -> Result<(), RequestFault> {
    match words.next() {
        "new" => make(alloc, learner, words),
        "hand" => tell(alloc, learner, words, answer),
        "knows" => knows(alloc, learner, words, answer),
        _ => Err(RequestFault::BadRequest),
    }
}

// Puts a learner of so many members in its place.
fn make(alloc: Global, learner: &mut Learner, words: &mut Words<'_>) -> Result<(), RequestFault> {
    let members = words::members(words)?;
    drop(mem::replace(learner, Learner::new(alloc, members)));
    Ok(())
}

// Tells it an Accepted or a Decided, and gives the value that it learns, if any.
fn tell(
    alloc: Global,
    learner: &mut Learner,
    words: &mut Words<'_>,
    answer: &mut Response,
) -> Result<(), RequestFault> {
    let message = words::message(alloc, words)?;
    let sender = message.sender;
    let slot = message.slot;
    match message.body {
        Body::Accepted(acceptance) => accepted(learner, sender, slot, acceptance, answer),
        Body::Decided { value } => decided(learner, slot, value, answer),
        _ => Err(RequestFault::BadRequest),
    }
}

fn accepted(
    learner: &mut Learner,
    sender: NodeId,
    slot: Slot,
    acceptance: Acceptance,
    answer: &mut Response,
) -> Result<(), RequestFault> {
    let Acceptance { ballot, value } = acceptance;
    let learned = learner.see_on_accepted(sender, slot, ballot, &value)?;
    learner.on_accepted(sender, slot, ballot, value);
    shown::perhaps(learned.as_ref(), answer)
}

fn decided(
    learner: &mut Learner,
    slot: Slot,
    value: Value,
    answer: &mut Response,
) -> Result<(), RequestFault> {
    let learned = learner.see_on_decided(slot, &value)?;
    learner.on_decided(slot, value);
    shown::perhaps(learned.as_ref(), answer)
}

// The value that it has learned for the slot, if any.
fn knows(
    alloc: Global,
    learner: &Learner,
    words: &mut Words<'_>,
    answer: &mut Response,
) -> Result<(), RequestFault> {
    let slot = words::slot(alloc, words)?;
    shown::perhaps(learner.decided(slot), answer)
}
