//! The calls of an acceptor (Lamport, *Paxos Made Simple*, sections 2.2 and 3).

use crate::{shown, words};
use acceptor::{Acceptor, Answer as Reply};
use ballots::{Acceptance, Ballot, Body, Message, Record, Slot};
use std::alloc::Global;
use std::mem;
use story_requests::{RequestFault, Response, Words};

/// Answers a call of the acceptor.
pub(crate) fn answer(
    alloc: Global,
    acceptor: &mut Acceptor,
    words: &mut Words<'_>,
    answer: &mut Response,
) -> Result<(), RequestFault> {
    match words.next() {
        "new" => make(alloc, acceptor, words),
        "take" => take(alloc, acceptor, words),
        "hand" => ask(alloc, acceptor, words, answer),
        "hand-from" => prepare_from(alloc, acceptor, words, answer),
        "would-grant" => would_grant(alloc, acceptor, words, answer),
        "would-promise-from" => would_promise_from(alloc, acceptor, words, answer),
        "promised" => promised(alloc, acceptor, words, answer),
        "accepted" => accepted(alloc, acceptor, words, answer),
        _ => Err(RequestFault::BadRequest),
    }
}

// Puts the acceptor in its place that these records leave: how many they are, and their encodings.
fn make(alloc: Global, acceptor: &mut Acceptor, words: &mut Words<'_>) -> Result<(), RequestFault> {
    let mut records = Vec::new(alloc);
    for _ in 0..words.number()? {
        let record = record_of(alloc, words)?;
        push(&mut records, record)?;
    }
    let restored = Acceptor::from_records(alloc, &records)?;
    drop(mem::replace(acceptor, restored));
    Ok(())
}

// Has it take a record as the last of those that it has. The room is for a record of any slot.
fn take(alloc: Global, acceptor: &mut Acceptor, words: &mut Words<'_>) -> Result<(), RequestFault> {
    let record = record_of(alloc, words)?;
    acceptor.make_room(Slot::new(0).unwrap())?;
    acceptor.apply(record);
    Ok(())
}

fn record_of(alloc: Global, words: &mut Words<'_>) -> Result<Record, RequestFault> {
    let bytes = words.bytes(alloc)?;
    match Record::decode(alloc, &bytes) {
        Ok(record) => Ok(record),
        Err(_) => Err(RequestFault::BadRequest),
    }
}

fn push(records: &mut Vec<Record>, record: Record) -> Result<(), RequestFault> {
    match records.push(record) {
        Ok(()) => Ok(()),
        Err(_) => Err(RequestFault::OutOfMemory),
    }
}

// Hands it a Prepare or an Accept, and gives what it replies.
fn ask(
    alloc: Global,
    acceptor: &mut Acceptor,
    words: &mut Words<'_>,
    answer: &mut Response,
) -> Result<(), RequestFault> {
    let message = words::message(alloc, words)?;
    let slot = message.slot;
    match &message.body {
        Body::Prepare { ballot } => prepare(alloc, acceptor, slot, *ballot, answer),
        Body::Accept(proposal) => accept(alloc, acceptor, slot, proposal, answer),
        _ => Err(RequestFault::BadRequest),
    }
}

fn prepare(
    alloc: Global,
    acceptor: &mut Acceptor,
    slot: Slot,
    ballot: Ballot,
    answer: &mut Response,
) -> Result<(), RequestFault> {
    let reply = acceptor.on_prepare(slot, ballot)?;
    show(alloc, &reply, answer)
}

// Hands it the ballot of a Prepare, for all slots from the Prepare's on.
fn prepare_from(
    alloc: Global,
    acceptor: &mut Acceptor,
    words: &mut Words<'_>,
    answer: &mut Response,
) -> Result<(), RequestFault> {
    let (slot, ballot) = prepare_of(alloc, words)?;
    let reply = acceptor.on_prepare_from(slot, ballot)?;
    show(alloc, &reply, answer)
}

// The slot and the ballot of the Prepare that the next word is.
fn prepare_of(alloc: Global, words: &mut Words<'_>) -> Result<(Slot, Ballot), RequestFault> {
    let message = words::message(alloc, words)?;
    match &message.body {
        Body::Prepare { ballot } => Ok((message.slot, *ballot)),
        _ => Err(RequestFault::BadRequest),
    }
}

fn accept(
    alloc: Global,
    acceptor: &mut Acceptor,
    slot: Slot,
    proposal: &Acceptance,
    answer: &mut Response,
) -> Result<(), RequestFault> {
    let reply = acceptor.on_accept(slot, proposal.clone()?)?;
    show(alloc, &reply, answer)
}

fn show(alloc: Global, reply: &Reply, answer: &mut Response) -> Result<(), RequestFault> {
    match reply {
        Reply::Promise(None) => answer.word("Promise"),
        Reply::Promise(Some(report)) => {
            answer.word("Promise")?;
            shown::acceptance(alloc, report, answer)
        }
        Reply::PromiseFrom(reports) => show_reports(alloc, reports, answer),
        Reply::Granted => answer.word("Granted"),
        Reply::Nack(promised) => {
            answer.word("Nack")?;
            shown::ballot(alloc, *promised, answer)
        }
    }
}

// Puts what a promise of all slots from a first one on reports: slots, ballots and values.
fn show_reports(
    alloc: Global,
    reports: &[(Slot, Acceptance)],
    answer: &mut Response,
) -> Result<(), RequestFault> {
    answer.word("PromiseFrom")?;
    for (slot, report) in reports {
        answer.number(u64::from(slot.number()))?;
        shown::acceptance(alloc, report, answer)?;
    }
    Ok(())
}

// Whether it would grant a Prepare or an Accept.
fn would_grant(
    alloc: Global,
    acceptor: &Acceptor,
    words: &mut Words<'_>,
    answer: &mut Response,
) -> Result<(), RequestFault> {
    let message = words::message(alloc, words)?;
    shown::whether(would_take(acceptor, &message)?, answer)
}

fn would_take(acceptor: &Acceptor, message: &Message) -> Result<bool, RequestFault> {
    let slot = message.slot;
    match &message.body {
        Body::Prepare { ballot } => Ok(acceptor.would_promise(slot, *ballot)),
        Body::Accept(proposal) => Ok(acceptor.would_grant(slot, proposal.ballot)),
        _ => Err(RequestFault::BadRequest),
    }
}

// Whether it would promise the ballot of a Prepare for all slots from the Prepare's on.
fn would_promise_from(
    alloc: Global,
    acceptor: &Acceptor,
    words: &mut Words<'_>,
    answer: &mut Response,
) -> Result<(), RequestFault> {
    let (slot, ballot) = prepare_of(alloc, words)?;
    shown::whether(acceptor.would_promise_from(slot, ballot), answer)
}

// The ballot that it promised for the slot, if any.
fn promised(
    alloc: Global,
    acceptor: &Acceptor,
    words: &mut Words<'_>,
    answer: &mut Response,
) -> Result<(), RequestFault> {
    let slot = words::slot(alloc, words)?;
    match acceptor.promised(slot) {
        Some(ballot) => shown::ballot(alloc, ballot, answer),
        None => Ok(()),
    }
}

// What it accepted for the slot, if anything.
fn accepted(
    alloc: Global,
    acceptor: &Acceptor,
    words: &mut Words<'_>,
    answer: &mut Response,
) -> Result<(), RequestFault> {
    let slot = words::slot(alloc, words)?;
    match acceptor.accepted(slot) {
        Some(acceptance) => shown::acceptance(alloc, acceptance, answer),
        None => Ok(()),
    }
}
