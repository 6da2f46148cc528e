//! The calls of a proposer (Lamport, *Paxos Made Simple*, section 2.2). Each is told beforehand what it will give.

use crate::{leaders, shown, words};
use ballots::{Acceptance, Ballot, Body, NodeId, Slot, Value};
use proposer::{Proposer, RoundsSpent};
use std::alloc::Global;
use std::mem;
use story_requests::{RequestFault, Response, Words};

/// Answers a call of the proposer.
pub(crate) fn answer(
    alloc: Global,
    proposer: &mut Proposer,
    words: &mut Words<'_>,
    answer: &mut Response,
) -> Result<(), RequestFault> {
    match words.next() {
        "new" => make(proposer, words),
        "begin" => begin(alloc, proposer, words, answer),
        "begin-from" => leaders::begin(alloc, proposer, words, answer),
        "hand" => tell(alloc, proposer, words, answer),
        "hand-from" => leaders::tell(alloc, proposer, words, answer),
        "go-on" => leaders::go_on(alloc, proposer, words, answer),
        "next" => leaders::next(proposer, answer),
        "attempt" => attempt(alloc, proposer, answer),
        _ => Err(RequestFault::BadRequest),
    }
}

// Puts a proposer in its place: its node, how many members there are, and the highest round that it has begun.
fn make(proposer: &mut Proposer, words: &mut Words<'_>) -> Result<(), RequestFault> {
    let node = words::node(words)?;
    let members = words::members(words)?;
    let round = words::number(words)?;
    drop(mem::replace(proposer, Proposer::new(node, members, round)));
    Ok(())
}

// Begins an attempt: the highest round that was seen, and a Decided of the slot and the proposer's own value.
fn begin(
    alloc: Global,
    proposer: &mut Proposer,
    words: &mut Words<'_>,
    answer: &mut Response,
) -> Result<(), RequestFault> {
    let seen = words::number(words)?;
    let message = words::message(alloc, words)?;
    let slot = message.slot;
    match message.body {
        Body::Decided { value } => begin_with(alloc, proposer, slot, seen, value, answer),
        _ => Err(RequestFault::BadRequest),
    }
}

fn begin_with(
    alloc: Global,
    proposer: &mut Proposer,
    slot: Slot,
    seen: u32,
    candidate: Value,
    answer: &mut Response,
) -> Result<(), RequestFault> {
    let foretold = proposer.see_begin(slot, seen, &candidate);
    let begun = proposer.begin(slot, seen, candidate);
    show_begun(alloc, foretold, begun, answer)
}

/// Puts the ballot that was begun, or why none was.
pub(crate) fn show_begun(
    alloc: Global,
    foretold: Result<Ballot, RoundsSpent>,
    begun: Result<Ballot, RoundsSpent>,
    answer: &mut Response,
) -> Result<(), RequestFault> {
    if foretold != begun {
        return answer.word("ForetoldOtherwise");
    }
    match begun {
        Ok(ballot) => shown::ballot(alloc, ballot, answer),
        Err(fault) => {
            let name = fault.to_string(alloc)?;
            answer.word(name.as_str())
        }
    }
}

// Tells it a Promise, and gives what it asks to accept; or a Nack, of which nothing is foretold.
fn tell(
    alloc: Global,
    proposer: &mut Proposer,
    words: &mut Words<'_>,
    answer: &mut Response,
) -> Result<(), RequestFault> {
    let message = words::message(alloc, words)?;
    let sender = message.sender;
    let slot = message.slot;
    match &message.body {
        Body::Promise { ballot, report } => {
            promise(alloc, proposer, (sender, slot, *ballot), report, answer)
        }
        Body::Nack { ballot, .. } => nack(alloc, proposer, slot, *ballot, answer),
        _ => Err(RequestFault::BadRequest),
    }
}

fn nack(
    alloc: Global,
    proposer: &mut Proposer,
    slot: Slot,
    ballot: Ballot,
    answer: &mut Response,
) -> Result<(), RequestFault> {
    proposer.see_on_nack(slot, ballot);
    proposer.on_nack(slot, ballot);
    attempt(alloc, proposer, answer)
}

fn promise(
    alloc: Global,
    proposer: &mut Proposer,
    (sender, slot, ballot): (NodeId, Slot, Ballot),
    report: &Option<Acceptance>,
    answer: &mut Response,
) -> Result<(), RequestFault> {
    let foretold = proposer.see_on_promise(sender, slot, ballot, report)?;
    let given = proposer.on_promise(sender, slot, ballot, report.clone()?);
    if foretold != given {
        return answer.word("ForetoldOtherwise");
    }
    show_accept(alloc, &given, answer)
}

/// Puts the slot, the ballot and the value of the Accept, where there is one.
pub(crate) fn show_accept(
    alloc: Global,
    accept: &Option<(Slot, Ballot, Value)>,
    answer: &mut Response,
) -> Result<(), RequestFault> {
    match accept {
        Some((slot, ballot, value)) => {
            show_place(alloc, *slot, *ballot, answer)?;
            answer.bytes(value.as_bytes())
        }
        None => Ok(()),
    }
}

fn show_place(
    alloc: Global,
    slot: Slot,
    ballot: Ballot,
    answer: &mut Response,
) -> Result<(), RequestFault> {
    answer.number(u64::from(slot.number()))?;
    shown::ballot(alloc, ballot, answer)
}

// The slot and the ballot of the attempt that is open, if any, and whether it has its majority.
fn attempt(alloc: Global, proposer: &Proposer, answer: &mut Response) -> Result<(), RequestFault> {
    match proposer.attempt() {
        Some((slot, ballot)) => {
            show_place(alloc, slot, ballot, answer)?;
            shown::whether(proposer.has_majority(), answer)
        }
        None => Ok(()),
    }
}
