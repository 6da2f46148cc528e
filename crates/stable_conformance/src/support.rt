//! Records by their numbers, and whether a store has them.

use ballots::{Acceptance, Ballot, NodeId, Record, Slot, UploadBytes, Value};
use bytes::Bytes;
use stable_records::Stable;
use std::alloc::Global;
use std::process::Abort;
use std::test::Fail;

pub(crate) fn ballot(round: u32) -> Result<Ballot, Fail> {
    let node = NodeId::new(1).ok_or("no node")?;
    Ok(Ballot::new(round, node).ok_or("no ballot")?)
}

/// The value of these bytes.
pub(crate) fn value_of(alloc: Global, bytes: &[u8]) -> Result<Value, Fail> {
    let shared = Bytes::copy_from_slice(alloc, bytes)?;
    Ok(Value::Upload(UploadBytes::new(shared).ok_or("no upload")?))
}

/// An acceptance of the value.
fn accepted(slot: Slot, ballot: Ballot, value: &Value) -> Result<Record, Fail> {
    let value = value.clone()?;
    Ok(Record::Accepted(slot, Acceptance { ballot, value }))
}

/// An attempt begun, a promise and an acceptance by turns, each of this number.
pub(crate) fn record_of(number: u32, value: &Value) -> Result<Record, Fail> {
    let ballot = ballot(number.saturating_add(1))?;
    let slot = Slot::new(number).ok_or("no slot")?;
    match number % 3 {
        0 => Ok(Record::Began(ballot)),
        1 => Ok(Record::Promised(slot, ballot)),
        _ => accepted(slot, ballot, value),
    }
}

/// Puts the record of this number behind the others.
pub(crate) fn push_record(
    records: &mut Vec<Record>,
    number: u32,
    value: &Value,
) -> Result<(), Fail> {
    let record = record_of(number, value)?;
    Ok(records.push(record)?)
}

/// The records of the numbers below this one, in order.
pub(crate) fn records_below(alloc: Global, count: u32, value: &Value) -> Result<Vec<Record>, Fail> {
    let mut records = Vec::new(alloc);
    for number in 0..count {
        push_record(&mut records, number, value)?;
    }
    Ok(records)
}

/// Whether these records are recalled.
pub(crate) fn is_recalled<S: Stable>(
    alloc: Global,
    store: &mut S,
    wanted: &[Record],
) -> Result<bool, Fail> {
    let found = store.recall(alloc)?;
    Ok(found.as_slice() == wanted)
}

/// Ends the test where this is not so.
pub(crate) fn expect(rt: &impl Abort, is_so: Result<bool, Fail>) -> Result<(), Fail> {
    let is_so = is_so?;
    assert!(rt; is_so);
    Ok(())
}
