//! The calls of a proposer about attempts for all slots from one on (Lamport, *Paxos Made Simple*, section 3). Each is
//! told beforehand what it will give.

use crate::proposers::{show_accept, show_begun};
use crate::{shown, words};
use ballots::{Acceptance, Ballot, Body, NodeId, Slot, Value};
use proposer::Proposer;
use std::alloc::Global;
use story_requests::{RequestFault, Response, Words};

/// Begins an attempt: the highest round that was seen, and a Decided of the first slot and the proposer's own value for
/// it.
pub(crate) fn begin(
    alloc: Global,
    proposer: &mut Proposer,
    words: &mut Words<'_>,
    answer: &mut Response,
) -> Result<(), RequestFault> {
    let seen = words::number(words)?;
    let message = words::message(alloc, words)?;
    let slot = message.slot;
    match message.body {
        Body::Decided { value } => begin_with(alloc, proposer, slot, seen, value, answer),
        _ => Err(RequestFault::BadRequest),
    }
}

fn begin_with(
    alloc: Global,
    proposer: &mut Proposer,
    slot: Slot,
    seen: u32,
    candidate: Value,
    answer: &mut Response,
) -> Result<(), RequestFault> {
    let foretold = proposer.see_begin(slot, seen, &candidate);
    let begun = proposer.begin_from(slot, seen, candidate);
    show_begun(alloc, foretold, begun, answer)
}

/// Tells it a promise of all slots from one on, and gives what it asks to accept: a Promise without a report, how many
/// slots are reported, and an Accepted of each of these.
pub(crate) fn tell(
    alloc: Global,
    proposer: &mut Proposer,
    words: &mut Words<'_>,
    answer: &mut Response,
) -> Result<(), RequestFault> {
    let message = words::message(alloc, words)?;
    let sender = message.sender;
    let slot = message.slot;
    let reports = reports(alloc, words)?;
    match &message.body {
        Body::Promise { ballot, .. } => {
            promise(alloc, proposer, (sender, slot, *ballot), reports, answer)
        }
        _ => Err(RequestFault::BadRequest),
    }
}

fn promise(
    alloc: Global,
    proposer: &mut Proposer,
    (sender, slot, ballot): (NodeId, Slot, Ballot),
    reports: Vec<(Slot, Acceptance)>,
    answer: &mut Response,
) -> Result<(), RequestFault> {
    let foretold = proposer.see_on_promise_from(sender, slot, ballot, reports.as_slice())?;
    let given = proposer.on_promise_from(sender, slot, ballot, reports);
    if foretold != given {
        return answer.word("ForetoldOtherwise");
    }
    show_accept(alloc, &given, answer)
}

fn reports(alloc: Global, words: &mut Words<'_>) -> Result<Vec<(Slot, Acceptance)>, RequestFault> {
    let mut reports = Vec::new(alloc);
    for _ in 0..words.number()? {
        if let Err(refused) = reports.push(report(alloc, words)?) {
            drop(refused);
            return Err(RequestFault::OutOfMemory);
        }
    }
    Ok(reports)
}

fn report(alloc: Global, words: &mut Words<'_>) -> Result<(Slot, Acceptance), RequestFault> {
    let message = words::message(alloc, words)?;
    let slot = message.slot;
    match message.body {
        Body::Accepted(acceptance) => Ok((slot, acceptance)),
        _ => Err(RequestFault::BadRequest),
    }
}

/// Has it go on to the next slot, with the value of a Decided as its own for that, and gives what it asks to accept.
pub(crate) fn go_on(
    alloc: Global,
    proposer: &mut Proposer,
    words: &mut Words<'_>,
    answer: &mut Response,
) -> Result<(), RequestFault> {
    let message = words::message(alloc, words)?;
    match message.body {
        Body::Decided { value } => go_on_with(alloc, proposer, value, answer),
        _ => Err(RequestFault::BadRequest),
    }
}

fn go_on_with(
    alloc: Global,
    proposer: &mut Proposer,
    candidate: Value,
    answer: &mut Response,
) -> Result<(), RequestFault> {
    let foretold = proposer.see_go_on(&candidate)?;
    let next = proposer.next();
    let given = proposer.go_on(candidate);
    if foretold != given || next != slot_of(&given) {
        return answer.word("ForetoldOtherwise");
    }
    show_accept(alloc, &given, answer)
}

fn slot_of(accept: &Option<(Slot, Ballot, Value)>) -> Option<Slot> {
    match accept {
        Some((slot, ..)) => Some(*slot),
        None => None,
    }
}

/// The slot that it would go on to, if any, and whether something is reported from there on.
pub(crate) fn next(proposer: &Proposer, answer: &mut Response) -> Result<(), RequestFault> {
    match proposer.next() {
        Some(slot) => {
            answer.number(u64::from(slot.number()))?;
            shown::whether(proposer.has_report_ahead(), answer)
        }
        None if proposer.has_report_ahead() => answer.word("ForetoldOtherwise"),
        None => Ok(()),
    }
}
