//! Records by rows: the bytes of each kind, which of them are the same, and bytes that mean a promise of all slots from
//! a first one on, or none (Lamport, *Paxos Made Simple*, section 3).

use crate::support::{ballot, expect_of, slot};
use ballots::{Acceptance, Record, Value};
use std::alloc::Global;
use std::test::Fail;

/// A Noop that slot 5 has accepted at (2, 0).
fn accepted() -> Result<Record, Fail> {
    let ballot = ballot(2, 0)?;
    let value = Value::Noop;
    Ok(Record::Accepted(slot(5)?, Acceptance { ballot, value }))
}

/// The promise of all slots from this one on.
fn promised_from(first: u32, round: u32, number: u8) -> Result<Record, Fail> {
    Ok(Record::PromisedFrom(slot(first)?, ballot(round, number)?))
}

/// The record of this row.
fn record_of(row: usize) -> Result<Record, Fail> {
    match row {
        0 => Ok(Record::Began(ballot(2, 0)?)),
        1 => Ok(Record::Promised(slot(5)?, ballot(2, 0)?)),
        2 => accepted(),
        3 => promised_from(5, 2, 0),
        4 => promised_from(6, 2, 0),
        5 => promised_from(5, 2, 1),
        6 => promised_from(0, 1, 0),
        _ => promised_from(999_999, 4_000_000_000, 6),
    }
}

/// What is written of the records of these rows.
const WRITTEN: [&[u8]; 8] = [
    &[0x08, 1, 0x18, 2],
    &[0x08, 2, 0x10, 5, 0x18, 2],
    &[0x08, 3, 0x10, 5, 0x18, 2],
    &[0x08, 4, 0x10, 5, 0x18, 2],
    &[0x08, 4, 0x10, 6, 0x18, 2],
    &[0x08, 4, 0x10, 5, 0x18, 2, 0x20, 1],
    &[0x08, 4, 0x18, 1],
    &[
        0x08, 4, 0x10, 0xbf, 0x84, 0x3d, 0x18, 0x80, 0xd0, 0xac, 0xf3, 0x0e, 0x20, 6,
    ],
];

/// Whether the bytes mean this record.
fn means(alloc: Global, text: &[u8], record: &Record) -> bool {
    match Record::decode(alloc, text) {
        Ok(read) => read == *record,
        Err(_) => false,
    }
}

/// Whether the record of this row is written as these bytes, which mean it.
fn is_written(alloc: Global, row: usize, text: &[u8]) -> Result<bool, Fail> {
    let record = record_of(row)?;
    let mut out = Vec::new(alloc);
    record.encode(&mut out)?;
    Ok(out.as_slice() == text && means(alloc, text, &record))
}

#[test]
fn each_is_written_and_read(rt: HostRuntime) -> Result<(), Fail> {
    for (row, text) in WRITTEN.iter().enumerate() {
        expect_of(&rt, is_written(rt.alloc(), row, text)?, row);
    }
    Ok(())
}

/// Whether the record of this row is told from those of the others.
fn is_told(row: usize) -> Result<bool, Fail> {
    let record = record_of(row)?;
    let mut is_right = true;
    for (other, _) in WRITTEN.iter().enumerate() {
        is_right = is_right && (record == record_of(other)?) == (row == other);
    }
    Ok(is_right)
}

/// A promise of all slots from one on is neither that of the slot, nor one from another slot on or of another ballot.
#[test]
fn each_is_the_same_as_itself_alone(rt: HostRuntime) -> Result<(), Fail> {
    for (row, _) in WRITTEN.iter().enumerate() {
        expect_of(&rt, is_told(row)?, row);
    }
    Ok(())
}

/// Bytes that mean a promise of all slots from 5 on of ballot (2, 0): fields in other orders; a kind, a slot, a round
/// and a node before the last one, of which some are out of range; a node that is written though it is 0; a value, a
/// value that is a number, and a field that no record has; and a kind in more bytes than it takes.
const MEANING: [&[u8]; 11] = [
    &[0x18, 2, 0x10, 5, 0x08, 4],
    &[0x10, 5, 0x08, 4, 0x18, 2],
    &[0x08, 2, 0x08, 4, 0x10, 5, 0x18, 2],
    &[0x08, 4, 0x10, 1, 0x10, 5, 0x18, 2],
    &[0x08, 4, 0x10, 0xc0, 0x84, 0x3d, 0x10, 5, 0x18, 2],
    &[0x08, 4, 0x10, 5, 0x18, 0, 0x18, 2, 0x20, 7, 0x20, 0],
    &[0x08, 4, 0x10, 5, 0x18, 2, 0x20, 0],
    &[0x08, 4, 0x10, 5, 0x18, 2, 0x2a, 1, 0x61],
    &[0x08, 4, 0x10, 5, 0x18, 2, 0x28, 5],
    &[0x08, 4, 0x10, 5, 0x18, 2, 0x32, 2, 0xff, 0xff],
    &[0x08, 0x84, 0, 0x10, 5, 0x18, 2],
];

#[test]
fn other_bytes_of_a_promise_of_all_slots(rt: HostRuntime) -> Result<(), Fail> {
    let record = promised_from(5, 2, 0)?;
    for (row, text) in MEANING.iter().enumerate() {
        expect_of(&rt, means(rt.alloc(), text, &record), row);
    }
    Ok(())
}

/// What is wrong with bytes that mean no such promise, by the name that is printed, and the bytes.
type Refused = (&'static str, &'static [u8]);

/// No ballot, with a slot and without; round 0, 4,000,000,001, and 2 to the 32nd and 1; node 7; slots 1,000,000, and 2 to
/// the 32nd and 1. Then a kind, a slot, a round and a node as bytes or of four bytes. Then kinds 5, 0, and 2 to the 32nd
/// and 4, with all that such a promise has.
const REFUSED: [Refused; 16] = [
    ("OutOfRange", &[0x08, 4, 0x10, 5]),
    ("OutOfRange", &[0x08, 4]),
    ("OutOfRange", &[0x08, 4, 0x10, 5, 0x18, 0]),
    (
        "OutOfRange",
        &[0x08, 4, 0x10, 5, 0x18, 0x81, 0xd0, 0xac, 0xf3, 0x0e],
    ),
    (
        "OutOfRange",
        &[0x08, 4, 0x10, 5, 0x18, 0x81, 0x80, 0x80, 0x80, 0x10],
    ),
    ("OutOfRange", &[0x08, 4, 0x10, 5, 0x18, 2, 0x20, 7]),
    ("OutOfRange", &[0x08, 4, 0x10, 0xc0, 0x84, 0x3d, 0x18, 2]),
    (
        "OutOfRange",
        &[0x08, 4, 0x10, 0x81, 0x80, 0x80, 0x80, 0x10, 0x18, 2],
    ),
    ("BadWireType", &[0x0a, 1, 4, 0x10, 5, 0x18, 2]),
    ("BadWireType", &[0x08, 4, 0x12, 0, 0x18, 2]),
    ("BadWireType", &[0x08, 4, 0x15, 5, 0, 0, 0, 0x18, 2]),
    ("BadWireType", &[0x08, 4, 0x10, 5, 0x1d, 2, 0, 0, 0]),
    ("BadWireType", &[0x08, 4, 0x10, 5, 0x18, 2, 0x22, 0]),
    ("BadKind", &[0x08, 5, 0x10, 5, 0x18, 2]),
    ("BadKind", &[0x08, 0, 0x10, 5, 0x18, 2]),
    (
        "BadKind",
        &[0x08, 0x84, 0x80, 0x80, 0x80, 0x10, 0x10, 5, 0x18, 2],
    ),
];

/// Whether the bytes are refused with the fault of this name.
fn is_refused(alloc: Global, text: &[u8], name: &str) -> Result<bool, Fail> {
    match Record::decode(alloc, text) {
        Ok(_) => Ok(false),
        Err(fault) => Ok(fault.to_string(alloc)?.as_str() == name),
    }
}

#[test]
fn bytes_that_are_refused(rt: HostRuntime) -> Result<(), Fail> {
    for (row, (name, text)) in REFUSED.iter().enumerate() {
        expect_of(&rt, is_refused(rt.alloc(), text, name)?, row);
    }
    Ok(())
}
