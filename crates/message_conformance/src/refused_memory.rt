//! A message and a record with an upload that are refused memory as they are read and as they are written, and then are
//! read and written again: the refusal has its name, and what was written before stands alone. Lines of values and of
//! messages that are refused memory as they are read, and then are read again: no other fault is told of them; and lines
//! that mean nothing, whose own fault is told then.
//! Run with every allocation refused in turn, each test ends as before or for want of memory.

use crate::support::{ballot, long_value, node, slot};
use ballots::{Acceptance, Body, LineFault, Message, MessageFault, NodeId, Record, Slot, Value};
use std::alloc::Global;
use std::test::Fail;

/// What stands before each is written.
const BEFORE: [u8; 2] = [0xee, 0xef];

/// An upload of 300 bytes, accepted.
fn acceptance(alloc: Global) -> Result<Acceptance, Fail> {
    let ballot = ballot(2, 1)?;
    let value = long_value(alloc, 300)?;
    Ok(Acceptance { ballot, value })
}

/// The Promise that reports it.
fn promise(alloc: Global) -> Result<Message, Fail> {
    let ballot = ballot(3, 2)?;
    let report = Some(acceptance(alloc)?);
    let sender = node(0)?;
    let slot = slot(5)?;
    Ok(Message {
        sender,
        slot,
        body: Body::Promise { ballot, report },
    })
}

/// Writes the message; where memory is refused, the bytes before stand alone, and it is written again.
fn write_message(message: &Message, out: &mut Vec<u8>) -> Result<(), Fail> {
    match message.encode(out) {
        Ok(()) => Ok(()),
        Err(_) if out.as_slice() == BEFORE.as_slice() => Ok(message.encode(out)?),
        Err(_) => Err(Fail::from("other bytes")),
    }
}

/// The message that the bytes mean; where memory is refused, they are read again.
fn read_message(alloc: Global, bytes: &[u8]) -> Result<Message, MessageFault> {
    match Message::decode(alloc, bytes) {
        Err(MessageFault::OutOfMemory) => Message::decode(alloc, bytes),
        read => read,
    }
}

#[test]
fn a_promise_comes_back(rt: HostRuntime) -> Result<(), Fail> {
    let message = Box::new(rt.alloc(), promise(rt.alloc())?)?;
    let mut out = Vec::from_slice(rt.alloc(), &BEFORE)?;
    write_message(&message, &mut out)?;
    let text = out.get(2..).ok_or("no message")?;
    let read = read_message(rt.alloc(), text)?;
    assert!(rt; read == *message);
    Ok(())
}

/// Writes the record; where memory is refused, the bytes before stand alone, and it is written again.
fn write_record(record: &Record, out: &mut Vec<u8>) -> Result<(), Fail> {
    match record.encode(out) {
        Ok(()) => Ok(()),
        Err(_) if out.as_slice() == BEFORE.as_slice() => Ok(record.encode(out)?),
        Err(_) => Err(Fail::from("other bytes")),
    }
}

/// The record that the bytes mean; where memory is refused, they are read again.
fn read_record(alloc: Global, bytes: &[u8]) -> Result<Record, MessageFault> {
    match Record::decode(alloc, bytes) {
        Err(MessageFault::OutOfMemory) => Record::decode(alloc, bytes),
        read => read,
    }
}

#[test]
fn a_record_comes_back(rt: HostRuntime) -> Result<(), Fail> {
    let record = Record::Accepted(slot(5)?, acceptance(rt.alloc())?);
    let record = Box::new(rt.alloc(), record)?;
    let mut out = Vec::from_slice(rt.alloc(), &BEFORE)?;
    write_record(&record, &mut out)?;
    let text = out.get(2..).ok_or("no record")?;
    let read = read_record(rt.alloc(), text)?;
    assert!(rt; read == *record);
    Ok(())
}

/// The value that the line means; where memory is refused, it is read again.
fn line_value(alloc: Global, line: &str) -> Result<Value, LineFault> {
    match Value::from_str(alloc, line) {
        Err(LineFault::OutOfMemory) => Value::from_str(alloc, line),
        read => read,
    }
}

#[test]
fn a_value_of_a_line_comes_back(rt: HostRuntime) -> Result<(), Fail> {
    let value = long_value(rt.alloc(), 300)?;
    let line = value.to_string(rt.alloc())?;
    let read = line_value(rt.alloc(), line.as_str())?;
    assert!(rt; read == value);
    Ok(())
}

/// The message that the line means; where memory is refused, it is read again.
fn line_message(alloc: Global, line: &str) -> Result<Message, LineFault> {
    match Message::from_str(alloc, line) {
        Err(LineFault::OutOfMemory) => Message::from_str(alloc, line),
        read => read,
    }
}

/// Whether the message is what its own line says.
fn is_its_line(alloc: Global, message: &Message) -> Result<bool, Fail> {
    let line = message.to_string(alloc)?;
    let read = line_message(alloc, line.as_str())?;
    Ok(read == *message)
}

#[test]
fn a_promise_of_a_line_comes_back(rt: HostRuntime) -> Result<(), Fail> {
    let message = Box::new(rt.alloc(), promise(rt.alloc())?)?;
    assert!(rt; is_its_line(rt.alloc(), &message)?);
    Ok(())
}

/// Whether the message of this body is what its own line says.
fn body_is_its_line(alloc: Global, at: (NodeId, Slot), body: Body) -> Result<bool, Fail> {
    let (sender, slot) = at;
    let message = Box::new(alloc, Message { sender, slot, body })?;
    is_its_line(alloc, &message)
}

/// An upload that is proposed, that is accepted and that is decided.
#[test]
fn messages_of_lines_come_back(rt: HostRuntime) -> Result<(), Fail> {
    let alloc = rt.alloc();
    let at = (node(0)?, slot(5)?);
    assert!(rt; body_is_its_line(alloc, at, Body::Accept(acceptance(alloc)?))?);
    assert!(rt; body_is_its_line(alloc, at, Body::Accepted(acceptance(alloc)?))?);
    let value = long_value(alloc, 300)?;
    assert!(rt; body_is_its_line(alloc, at, Body::Decided { value })?);
    Ok(())
}

/// Whether the line of a message has this fault; where memory is refused, as it is read again.
fn has_fault(alloc: Global, line: &str, fault: LineFault) -> bool {
    match line_message(alloc, line) {
        Ok(message) => {
            drop(message);
            false
        }
        Err(told) => told == fault,
    }
}

/// Lines that begin as those of messages do, with an upload that ends in half a byte, with a digit that is none, and with
/// a word that no message has.
#[test]
fn faults_of_lines_are_told_again(rt: HostRuntime) -> Result<(), Fail> {
    let alloc = rt.alloc();
    let half = "node 0 slot 5 Accept 2.1 000102030";
    assert!(rt; has_fault(alloc, half, LineFault::BadValue));
    let other = "node 0 slot 5 Promise 3.2 accepted 2.1 0001020g";
    assert!(rt; has_fault(alloc, other, LineFault::BadValue));
    let none = "node 0 slot 5 Chosen 2.1 00010203";
    assert!(rt; has_fault(alloc, none, LineFault::BadMessage));
    match line_value(alloc, "0001020g") {
        Ok(value) => {
            drop(value);
            Err(Fail::from("a value of digits that are none"))
        }
        Err(fault) => {
            assert!(rt; fault == LineFault::BadValue);
            Ok(())
        }
    }
}
