//! The longest message and the longest record: what is written of them is as long as a message and a record may be, is
//! read back, and is refused with a byte more in its value. What is written stands behind what was there.

use crate::support::{ballot, expect, long_value, node, slot};
use ballots::{
    Acceptance, Body, MAX_MESSAGE_BYTES, MAX_RECORD_BYTES, Message, MessageFault, Record,
};
use std::alloc::{AllocError, Global};
use std::test::Fail;

/// The longest value, accepted at the last ballot that there is.
fn longest_acceptance(alloc: Global) -> Result<Acceptance, Fail> {
    let ballot = ballot(4_000_000_000, 6)?;
    let value = long_value(alloc, 16_777_216)?;
    Ok(Acceptance { ballot, value })
}

/// The Promise of the last ballot, which reports it.
fn longest_promise(alloc: Global) -> Result<Body, Fail> {
    let ballot = ballot(4_000_000_000, 6)?;
    let report = Some(longest_acceptance(alloc)?);
    Ok(Body::Promise { ballot, report })
}

/// The message of the last node for the last slot that has it.
fn longest_message(alloc: Global) -> Result<Message, Fail> {
    let sender = node(6)?;
    let slot = slot(999_999)?;
    let body = longest_promise(alloc)?;
    Ok(Message { sender, slot, body })
}

/// Whether this message was read.
fn is_message(read: &Result<Message, MessageFault>, message: &Message) -> bool {
    match read {
        Ok(read) => *read == *message,
        Err(_) => false,
    }
}

/// Whether the message is written in so many bytes, and read back.
fn is_message_of(alloc: Global, message: &Message, len: usize) -> Result<bool, Fail> {
    let mut out = Vec::new(alloc);
    write_message(message, &mut out)?;
    let is_back = is_message(&Message::decode(alloc, out.as_slice()), message);
    Ok(is_back && out.len() == len)
}

/// The longest message is written as 29 bytes beside its value, and read back.
#[test]
fn the_longest_message(rt: HostRuntime) -> Result<(), Fail> {
    let message = longest_message(rt.alloc())?;
    expect(&rt, is_message_of(rt.alloc(), &message, 16_777_216 + 29))
}

/// Whether this record was read.
fn is_record(read: &Result<Record, MessageFault>, record: &Record) -> bool {
    match read {
        Ok(read) => *read == *record,
        Err(_) => false,
    }
}

/// Whether the record is written in so many bytes, and read back.
fn is_record_of(alloc: Global, record: &Record, len: usize) -> Result<bool, Fail> {
    let mut out = Vec::new(alloc);
    write_record(record, &mut out)?;
    let is_back = is_record(&Record::decode(alloc, out.as_slice()), record);
    Ok(is_back && out.len() == len)
}

#[test]
fn the_most_bytes(rt: HostRuntime) {
    assert!(rt; MAX_MESSAGE_BYTES == 16_777_216 + 29 && MAX_RECORD_BYTES == 16_777_216 + 19);
}

/// The longest acceptance, kept for the last slot.
fn longest_record(alloc: Global) -> Result<Record, Fail> {
    let slot = slot(999_999)?;
    Ok(Record::Accepted(slot, longest_acceptance(alloc)?))
}

/// The longest record is written as 19 bytes beside its value, and read back.
#[test]
fn the_longest_record(rt: HostRuntime) -> Result<(), Fail> {
    let record = longest_record(rt.alloc())?;
    expect(&rt, is_record_of(rt.alloc(), &record, 16_777_216 + 19))
}

/// An Ask.
fn ask() -> Result<Message, Fail> {
    let sender = node(2)?;
    let slot = slot(0)?;
    Ok(Message {
        sender,
        slot,
        body: Body::Ask,
    })
}

fn write_message(message: &Message, out: &mut Vec<u8>) -> Result<(), Fail> {
    Ok(message.encode(out)?)
}

fn write_ask(out: &mut Vec<u8>) -> Result<(), Fail> {
    let message = ask()?;
    write_message(&message, out)
}

/// The record of a ballot that was begun.
fn began() -> Result<Record, Fail> {
    Ok(Record::Began(ballot(3, 2)?))
}

fn write_record(record: &Record, out: &mut Vec<u8>) -> Result<(), Fail> {
    Ok(record.encode(out)?)
}

fn write_began(out: &mut Vec<u8>) -> Result<(), Fail> {
    let record = began()?;
    write_record(&record, out)
}

/// Writes both.
fn write_both(out: &mut Vec<u8>) -> Result<(), Fail> {
    write_ask(out)?;
    write_began(out)
}

/// What is written of a message and of a record stands behind the bytes that were there.
#[test]
fn encodings_are_appended(rt: HostRuntime) -> Result<(), Fail> {
    let mut out = Vec::from_slice(rt.alloc(), &[0xee])?;
    write_both(&mut out)?;
    assert!(rt; out.as_slice() == b"\xee\x08\x06\x10\x02\x08\x01\x18\x03\x20\x02".as_slice());
    Ok(())
}

/// Puts a key of bytes, 16,777,217 as their length, and so many bytes.
fn push_long_value(text: &mut Vec<u8>, key: u8) -> Result<(), AllocError> {
    text.extend_from_slice(&[key, 0x81, 0x80, 0x80, 0x08])?;
    let len = text.len();
    text.resize(len.saturating_add(16_777_217), 7)
}

/// The same behind these fields.
fn with_a_long_value(alloc: Global, fields: &[u8], key: u8) -> Result<Vec<u8>, AllocError> {
    let mut text = Vec::from_slice(alloc, fields)?;
    push_long_value(&mut text, key)?;
    Ok(text)
}

/// A value of one byte more is out of range, in a Decided.
#[test]
fn a_longer_value_in_a_message(rt: HostRuntime) -> Result<(), Fail> {
    let text = with_a_long_value(rt.alloc(), &[0x08, 0x07], 0x4a)?;
    let fault = Message::decode(rt.alloc(), text.as_slice()).err();
    assert!(rt; fault == Some(MessageFault::OutOfRange));
    Ok(())
}

/// And in an Accepted that is kept.
#[test]
fn a_longer_value_in_a_record(rt: HostRuntime) -> Result<(), Fail> {
    let text = with_a_long_value(rt.alloc(), &[0x08, 0x03, 0x18, 0x01], 0x2a)?;
    let fault = Record::decode(rt.alloc(), text.as_slice()).err();
    assert!(rt; fault == Some(MessageFault::OutOfRange));
    Ok(())
}
