//! The store in memory over many records, and the names of the faults.

use crate::support::{expect, is_recalled, record_of, records_below, value_of};
use ballots::{Record, Value};
use stable_records::{MemoryStable, Stable, StoreFault};
use std::alloc::{AllocError, Global};
use std::test::Fail;

// How many records the long run keeps: a store that gave up after a hundred would pass every short case.
const RECORDS: u32 = 10_000;

fn keep<S: Stable>(store: &mut S, record: &Record) -> Result<(), Fail> {
    Ok(store.keep(record)?)
}

/// Keeps the record of this number.
fn keep_number<S: Stable>(store: &mut S, number: u32, value: &Value) -> Result<(), Fail> {
    let record = record_of(number, value)?;
    keep(store, &record)
}

/// Keeps the records of all numbers.
fn keep_all<S: Stable>(store: &mut S, value: &Value) -> Result<(), Fail> {
    for number in 0..RECORDS {
        keep_number(store, number, value)?;
    }
    Ok(())
}

/// Whether the store has these records, and recalls them.
fn has(alloc: Global, store: &mut MemoryStable, told: &[Record]) -> Result<bool, Fail> {
    let is_recalled = is_recalled(alloc, store, told)?;
    Ok(is_recalled && store.records() == told)
}

/// Whether it has those of all numbers.
fn has_all(alloc: Global, store: &mut MemoryStable, value: &Value) -> Result<bool, Fail> {
    let told = records_below(alloc, RECORDS, value)?;
    has(alloc, store, told.as_slice())
}

/// Whether a new store recalls what it is told to keep.
fn keeps_all(alloc: Global, store: &mut MemoryStable, value: &Value) -> Result<bool, Fail> {
    keep_all(store, value)?;
    has_all(alloc, store, value)
}

/// Whether one that is made here does.
fn are_kept(alloc: Global, value: &Value) -> Result<bool, Fail> {
    let mut store = MemoryStable::new(alloc);
    keeps_all(alloc, &mut store, value)
}

/// Thousands of records are recalled as they were kept.
#[test]
fn many_records(rt: HostRuntime) -> Result<(), Fail> {
    let value = value_of(rt.alloc(), b"abc")?;
    expect(&rt, are_kept(rt.alloc(), &value))
}

/// Keeps one record many times.
fn keep_often<S: Stable>(store: &mut S, record: &Record) -> Result<(), StoreFault> {
    for _ in 0..RECORDS {
        store.keep(record)?;
    }
    Ok(())
}

/// Whether a new store recalls as many as it was told to keep.
fn keeps_often(alloc: Global, store: &mut MemoryStable, record: &Record) -> Result<bool, Fail> {
    keep_often(store, record)?;
    let found = store.recall(alloc)?;
    Ok(found.len() == 10_000)
}

/// Whether one that is made here does.
fn is_kept_often(alloc: Global, record: &Record) -> Result<bool, Fail> {
    let mut store = MemoryStable::new(alloc);
    keeps_often(alloc, &mut store, record)
}

/// A value of so many bytes.
fn long_value(alloc: Global, len: usize) -> Result<Value, Fail> {
    let bytes = Vec::from_elem(alloc, 7, len)?;
    value_of(alloc, bytes.as_slice())
}

/// A record of it.
fn long_record(alloc: Global, len: usize) -> Result<Record, Fail> {
    let value = long_value(alloc, len)?;
    record_of(2, &value)
}

/// Records of one long value share its bytes, in the store and in what is recalled: copies would be 160 GB each.
#[test]
fn records_share_their_values(rt: HostRuntime) -> Result<(), Fail> {
    let record = long_record(rt.alloc(), 16_777_216)?;
    expect(&rt, is_kept_often(rt.alloc(), &record))
}

/// All faults.
const FAULTS: [StoreFault; 4] = [
    StoreFault::Device,
    StoreFault::Damaged,
    StoreFault::Broken,
    StoreFault::OutOfMemory,
];

/// Their names as they are printed, each with a space behind it.
fn names(alloc: Global) -> Result<String, AllocError> {
    let mut names = String::new(alloc);
    for fault in FAULTS {
        write!(names, "{fault} ")?;
    }
    Ok(names)
}

/// Each fault is printed by its name.
#[test]
fn names_of_faults(rt: HostRuntime) -> Result<(), Fail> {
    let names = names(rt.alloc())?;
    assert!(rt; names.as_str() == "Device Damaged Broken OutOfMemory ");
    Ok(())
}
