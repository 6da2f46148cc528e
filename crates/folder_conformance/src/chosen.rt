//! Rows of records, worked by hand, and some thousands of slots.
//!
//! A record of an acceptance is written as four characters: the slot, the ballot's round and its node, and the value,
//! of which `-` is a Noop. A message has its sender before these.

use ballots::{Acceptance, Ballot, Body, Members, Message, NodeId, Record, Slot, Value};
use chosen_records::{ChosenFault, chosen_again};
use std::alloc::{AllocError, Global};
use std::test::Fail;

// The number that the digit shows.
fn number(digit: u8) -> u8 {
    digit.wrapping_sub(b'0')
}

fn ballot(round: u32, node: u8) -> Result<Ballot, Fail> {
    let node = NodeId::new(node).ok_or("no node")?;
    Ok(Ballot::new(round, node).ok_or("no ballot")?)
}

fn slot(number: u32) -> Result<Slot, Fail> {
    Ok(Slot::new(number).ok_or("no slot")?)
}

// The upload of this byte: that of a record's encoding, an acceptance of slot 1 at ballot (1, 1).
fn upload(alloc: Global, byte: u8) -> Result<Value, Fail> {
    let encoded = [8, 3, 16, 1, 24, 1, 32, 1, 42, 1, byte];
    match Record::decode(alloc, &encoded) {
        Ok(Record::Accepted(_, acceptance)) => Ok(acceptance.value),
        _ => Err(Fail::from("no upload")),
    }
}

// The upload of this byte, or a Noop.
fn value(alloc: Global, byte: u8) -> Result<Value, Fail> {
    match byte {
        b'-' => Ok(Value::Noop),
        _ => upload(alloc, byte),
    }
}

// The record of these four characters.
fn accepted(alloc: Global, row: [u8; 4]) -> Result<Record, Fail> {
    let [at, round, node, byte] = row;
    let slot = slot(u32::from(number(at)))?;
    let ballot = ballot(u32::from(number(round)), number(node))?;
    let value = value(alloc, byte)?;
    Ok(Record::Accepted(slot, Acceptance { ballot, value }))
}

fn put<T: Drop>(list: &mut Vec<T>, item: T) -> Result<(), AllocError> {
    list.push(item)?;
    Ok(())
}

// The records of a node: a promise, those of the row, and a promise of all slots from slot 1 on.
fn node_records(alloc: Global, row: &[[u8; 4]]) -> Result<Vec<Record>, Fail> {
    let mut records = Vec::new(alloc);
    put(&mut records, Record::Promised(slot(0)?, ballot(1, 0)?))?;
    for place in 0..row.len() {
        put(&mut records, accepted(alloc, row[place])?)?;
    }
    put(&mut records, Record::PromisedFrom(slot(1)?, ballot(3, 2)?))?;
    Ok(records)
}

// The last digit of the number.
fn digit(number: u32) -> u8 {
    (number % 10) as u8 + b'0'
}

fn value_byte(value: &Value) -> u8 {
    match value {
        Value::Noop => b'-',
        Value::Upload(upload) => upload.as_slice().first().copied().unwrap_or(b'?'),
    }
}

// The five characters of a message.
fn written(message: &Message) -> [u8; 5] {
    let (ballot, byte) = match &message.body {
        Body::Accepted(acceptance) => (acceptance.ballot, value_byte(&acceptance.value)),
        _ => return *b"other",
    };
    [
        digit(u32::from(message.sender.number())),
        digit(message.slot.number()),
        digit(ballot.round()),
        digit(u32::from(ballot.node().number())),
        byte,
    ]
}

// Whether these messages are told.
fn are_told(told: &[Message], rows: &[[u8; 5]]) -> bool {
    for place in 0..told.len() {
        if rows.get(place).copied() != Some(written(&told[place])) {
            return false;
        }
    }
    told.len() == rows.len()
}

// What is told again of three nodes with these records.
fn told_of_three(
    alloc: Global,
    first: &[[u8; 4]],
    second: &[[u8; 4]],
    third: &[[u8; 4]],
) -> Result<Result<Vec<Message>, ChosenFault>, Fail> {
    let members = Members::new(3).ok_or("no members")?;
    let records = [
        node_records(alloc, first)?,
        node_records(alloc, second)?,
        node_records(alloc, third)?,
    ];
    Ok(chosen_again(alloc, members, &records))
}

// Whether of three nodes with these records these messages are told.
fn tells(
    alloc: Global,
    first: &[[u8; 4]],
    second: &[[u8; 4]],
    third: &[[u8; 4]],
    rows: &[[u8; 5]],
) -> Result<bool, Fail> {
    match told_of_three(alloc, first, second, third)? {
        Ok(told) => Ok(are_told(told.as_slice(), rows)),
        Err(_) => Ok(false),
    }
}

// Of promises alone, also of all slots from slot 1 on, nothing is told.
#[test]
fn nothing_is_told_of_nothing(rt: HostRuntime) -> Result<(), Fail> {
    let told = tells(rt.alloc(), &[], &[], &[], &[])?;
    assert!(rt; told);
    Ok(())
}

#[test]
fn a_majority_is_told(rt: HostRuntime) -> Result<(), Fail> {
    let told = tells(
        rt.alloc(),
        &[*b"010a", *b"110-"],
        &[*b"010a"],
        &[*b"110-"],
        &[*b"0010a", *b"1010a", *b"0110-", *b"2110-"],
    )?;
    assert!(rt; told);
    Ok(())
}

#[test]
fn a_minority_is_not_told(rt: HostRuntime) -> Result<(), Fail> {
    let told = tells(rt.alloc(), &[*b"010a", *b"010a"], &[*b"021a"], &[], &[])?;
    assert!(rt; told);
    Ok(())
}

#[test]
fn the_ballot_of_the_majority_is_told(rt: HostRuntime) -> Result<(), Fail> {
    let told = tells(
        rt.alloc(),
        &[*b"010a"],
        &[*b"021b"],
        &[*b"021b"],
        &[*b"1021b", *b"2021b"],
    )?;
    assert!(rt; told);
    Ok(())
}

#[test]
fn one_ballot_a_slot_is_told(rt: HostRuntime) -> Result<(), Fail> {
    let told = tells(
        rt.alloc(),
        &[*b"110c", *b"010a", *b"021a"],
        &[*b"010a", *b"021a", *b"110c"],
        &[],
        &[*b"0010a", *b"1010a", *b"0110c", *b"1110c"],
    )?;
    assert!(rt; told);
    Ok(())
}

#[test]
fn two_values_at_one_ballot_differ(rt: HostRuntime) -> Result<(), Fail> {
    let told = told_of_three(rt.alloc(), &[*b"010a", *b"110a"], &[*b"010a"], &[*b"110b"])?;
    let differs = told.err() == Some(ChosenFault::Differ(slot(1)?));
    assert!(rt; differs);
    Ok(())
}

// The records of so many slots, from the last slot on where they fall.
fn many_records(alloc: Global, slots: u32, falling: bool) -> Result<Vec<Record>, Fail> {
    let mut records = Vec::new(alloc);
    let ballot = ballot(1, 0)?;
    for place in 0..slots {
        let number = if falling { slots - 1 - place } else { place };
        let value = Value::Noop;
        put(
            &mut records,
            Record::Accepted(slot(number)?, Acceptance { ballot, value }),
        )?;
    }
    Ok(records)
}

// Whether each slot is told by nodes 0 and 1, and slots rise.
fn rise(told: &[Message]) -> bool {
    for place in 0..told.len() {
        let message = &told[place];
        if message.slot.number() as usize != place / 2 {
            return false;
        }
        if usize::from(message.sender.number()) != place % 2 {
            return false;
        }
    }
    true
}

#[test]
fn thousands_of_slots_rise(rt: HostRuntime) -> Result<(), Fail> {
    let alloc = rt.alloc();
    let members = Members::new(3).ok_or("no members")?;
    let records = [
        many_records(alloc, 5000, true)?,
        many_records(alloc, 5000, false)?,
        Vec::new(alloc),
    ];
    let told = chosen_again(alloc, members, &records)
        .ok()
        .ok_or("nothing")?;
    assert!(rt; told.len() == 10_000 && rise(told.as_slice()));
    Ok(())
}
