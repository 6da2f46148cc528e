//! Values of every length as lines and back, and the names of what is wrong with lines and with texts.

use crate::support::{ballot, expect_of, long_value, names};
use ballots::{LineFault, MessageFault, Value};
use std::alloc::Global;
use std::test::Fail;

/// Whether this value was read.
fn is_value(read: &Result<Value, LineFault>, value: &Value) -> bool {
    match read {
        Ok(read) => *read == *value,
        Err(_) => false,
    }
}

fn line_of(alloc: Global, value: &Value) -> Result<String, Fail> {
    Ok(value.to_string(alloc)?)
}

/// Whether the value is what its own line says, which has two digits for each byte.
fn is_its_line(alloc: Global, value: &Value, len: usize) -> Result<bool, Fail> {
    let line = line_of(alloc, value)?;
    let is_long = line.len() / 2 == len && line.len() % 2 == 0;
    Ok(is_long && is_value(&Value::from_str(alloc, line.as_str()), value))
}

/// Whether a value of so many bytes is.
fn has_its_line(alloc: Global, len: usize) -> Result<bool, Fail> {
    let value = long_value(alloc, len)?;
    is_its_line(alloc, &value, len)
}

/// Values of every length up to 300 bytes.
#[test]
fn values_as_lines(rt: HostRuntime) -> Result<(), Fail> {
    for len in 1..=300 {
        expect_of(&rt, has_its_line(rt.alloc(), len)?, len);
    }
    Ok(())
}

/// One of 100,000, and the longest.
#[test]
fn long_values_as_lines(rt: HostRuntime) -> Result<(), Fail> {
    expect_of(&rt, has_its_line(rt.alloc(), 100_000)?, 100_000);
    expect_of(&rt, has_its_line(rt.alloc(), 16_777_216)?, 16_777_216);
    Ok(())
}

/// The line of the longest value.
fn longest_line(alloc: Global) -> Result<String, Fail> {
    let value = long_value(alloc, 16_777_216)?;
    line_of(alloc, &value)
}

/// The same with a byte more.
fn longer_line(alloc: Global) -> Result<String, Fail> {
    let mut line = longest_line(alloc)?;
    line.push_str("00")?;
    Ok(line)
}

/// A value of one byte more than the longest is no value.
#[test]
fn a_longer_line(rt: HostRuntime) -> Result<(), Fail> {
    let line = longer_line(rt.alloc())?;
    let fault = Value::from_str(rt.alloc(), line.as_str()).err();
    assert!(rt; fault == Some(LineFault::BadValue));
    Ok(())
}

/// A ballot is printed by its numbers.
#[test]
fn a_ballot_by_its_numbers(rt: HostRuntime) -> Result<(), Fail> {
    let told = names(rt.alloc(), &[ballot(2, 1)?])?;
    assert!(rt; told.as_str() == "2.1 ");
    Ok(())
}

/// What is wrong with lines.
const LINE_FAULTS: [LineFault; 4] = [
    LineFault::BadBallot,
    LineFault::BadValue,
    LineFault::BadMessage,
    LineFault::OutOfMemory,
];

/// The faults are printed by their names.
#[test]
fn line_faults_by_name(rt: HostRuntime) -> Result<(), Fail> {
    let told = names(rt.alloc(), &LINE_FAULTS)?;
    assert!(rt; told.as_str() == "BadBallot BadValue BadMessage OutOfMemory ");
    Ok(())
}

/// What is wrong with texts that are not those of a list of fields.
const MESSAGE_FAULTS: [MessageFault; 3] = [
    MessageFault::BadKind,
    MessageFault::OutOfRange,
    MessageFault::OutOfMemory,
];

#[test]
fn message_faults_by_name(rt: HostRuntime) -> Result<(), Fail> {
    let told = names(rt.alloc(), &MESSAGE_FAULTS)?;
    assert!(rt; told.as_str() == "BadKind OutOfRange OutOfMemory ");
    Ok(())
}
