//! Ballots, values, messages and records, read and written, as lines and as bytes (Protocol Buffers, "Encoding").

use crate::{shown, words};
use ballots::{Ballot, Body, LineFault, Message, MessageFault, Record, Slot, Value};
use std::alloc::Global;
use std::str::{FromStr, from_utf8};
use story_requests::{RequestFault, Response, Words};

/// Answers with what a line says or bytes mean, or with what is wrong with them; or with the encoding of a record.
pub(crate) fn answer(
    alloc: Global,
    asked: &str,
    words: &mut Words<'_>,
    answer: &mut Response,
) -> Result<(), RequestFault> {
    match asked {
        "ballot" | "value" | "message" => read_line(alloc, asked, words, answer),
        "decode" => decode(alloc, words, answer),
        "decode-record" => decode_record(alloc, words, answer),
        _ => encode_record(alloc, asked, words, answer),
    }
}

fn read_line(
    alloc: Global,
    asked: &str,
    words: &mut Words<'_>,
    answer: &mut Response,
) -> Result<(), RequestFault> {
    let bytes = words.bytes(alloc)?;
    let Ok(line) = from_utf8(&bytes) else {
        return Err(RequestFault::BadRequest);
    };
    match asked {
        "ballot" => read_ballot(alloc, line, answer),
        "value" => read_value(alloc, line, answer),
        _ => read_message(alloc, line, answer),
    }
}

fn read_ballot(alloc: Global, line: &str, answer: &mut Response) -> Result<(), RequestFault> {
    match Ballot::from_str(line) {
        Ok(ballot) => show_ballot(alloc, ballot, answer),
        Err(fault) => name(alloc, fault, answer),
    }
}

fn read_value(alloc: Global, line: &str, answer: &mut Response) -> Result<(), RequestFault> {
    match Value::from_str(alloc, line) {
        Ok(value) => show_value(alloc, &value, answer),
        Err(fault) => name(alloc, fault, answer),
    }
}

fn read_message(alloc: Global, line: &str, answer: &mut Response) -> Result<(), RequestFault> {
    match Message::from_str(alloc, line) {
        Ok(message) => show_message(alloc, &message, answer),
        Err(fault) => name(alloc, fault, answer),
    }
}

fn name(alloc: Global, fault: LineFault, answer: &mut Response) -> Result<(), RequestFault> {
    let name = fault.to_string(alloc)?;
    answer.word(name.as_str())
}

// The round and the node, and the line that is written.
fn show_ballot(alloc: Global, ballot: Ballot, answer: &mut Response) -> Result<(), RequestFault> {
    answer.number(u64::from(ballot.round()))?;
    answer.number(u64::from(ballot.node().number()))?;
    let line = ballot.to_string(alloc)?;
    answer.bytes(line.as_bytes())
}

// The bytes, and the line that is written.
fn show_value(alloc: Global, value: &Value, answer: &mut Response) -> Result<(), RequestFault> {
    answer.bytes(value.as_bytes())?;
    let line = value.to_string(alloc)?;
    answer.bytes(line.as_bytes())
}

// The encoding, and the line that is written.
fn show_message(
    alloc: Global,
    message: &Message,
    answer: &mut Response,
) -> Result<(), RequestFault> {
    let mut bytes = Vec::new(alloc);
    message.encode(&mut bytes)?;
    answer.bytes(&bytes)?;
    let line = message.to_string(alloc)?;
    answer.bytes(line.as_bytes())
}

fn decode(alloc: Global, words: &mut Words<'_>, answer: &mut Response) -> Result<(), RequestFault> {
    let bytes = words.bytes(alloc)?;
    match Message::decode(alloc, &bytes) {
        Ok(message) => show_message(alloc, &message, answer),
        Err(fault) => message_fault(alloc, fault, answer),
    }
}

fn decode_record(
    alloc: Global,
    words: &mut Words<'_>,
    answer: &mut Response,
) -> Result<(), RequestFault> {
    let bytes = words.bytes(alloc)?;
    match Record::decode(alloc, &bytes) {
        Ok(record) => show_record(alloc, &record, answer),
        Err(fault) => message_fault(alloc, fault, answer),
    }
}

fn message_fault(
    alloc: Global,
    fault: MessageFault,
    answer: &mut Response,
) -> Result<(), RequestFault> {
    let name = fault.to_string(alloc)?;
    answer.word(name.as_str())
}

fn show_record(alloc: Global, record: &Record, answer: &mut Response) -> Result<(), RequestFault> {
    match record {
        Record::Began(ballot) => {
            answer.word("began")?;
            shown::ballot(alloc, *ballot, answer)
        }
        Record::Promised(slot, ballot) => show_promise(alloc, "promised", *slot, *ballot, answer),
        Record::Accepted(slot, acceptance) => {
            answer.word("accepted")?;
            answer.number(u64::from(slot.number()))?;
            shown::acceptance(alloc, acceptance, answer)
        }
        Record::PromisedFrom(first, ballot) => {
            show_promise(alloc, "promised-from", *first, *ballot, answer)
        }
    }
}

fn show_promise(
    alloc: Global,
    kind: &str,
    slot: Slot,
    ballot: Ballot,
    answer: &mut Response,
) -> Result<(), RequestFault> {
    answer.word(kind)?;
    answer.number(u64::from(slot.number()))?;
    shown::ballot(alloc, ballot, answer)
}

// The encoding of the record of this kind with the slot, the ballot and the value of a Prepare or an Accept.
fn encode_record(
    alloc: Global,
    kind: &str,
    words: &mut Words<'_>,
    answer: &mut Response,
) -> Result<(), RequestFault> {
    let message = words::message(alloc, words)?;
    let record = record_of(kind, &message)?;
    show_encoding(alloc, &record, answer)
}

fn show_encoding(
    alloc: Global,
    record: &Record,
    answer: &mut Response,
) -> Result<(), RequestFault> {
    let mut bytes = Vec::new(alloc);
    record.encode(&mut bytes)?;
    answer.bytes(&bytes)
}

fn record_of(kind: &str, message: &Message) -> Result<Record, RequestFault> {
    let slot = message.slot;
    match &message.body {
        Body::Prepare { ballot } => record_of_ballot(kind, slot, *ballot),
        Body::Accept(acceptance) if kind == "keep-accepted" => {
            Ok(Record::Accepted(slot, acceptance.clone()?))
        }
        _ => Err(RequestFault::BadRequest),
    }
}

fn record_of_ballot(kind: &str, slot: Slot, ballot: Ballot) -> Result<Record, RequestFault> {
    match kind {
        "keep-began" => Ok(Record::Began(ballot)),
        "keep-promised" => Ok(Record::Promised(slot, ballot)),
        "keep-promised-from" => Ok(Record::PromisedFrom(slot, ballot)),
        _ => Err(RequestFault::BadRequest),
    }
}
