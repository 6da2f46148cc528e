//! Records that a store keeps and recalls.

ghost use Rattle.std.specs.Prelude.{◌≡◌, IfOk};

use crate::opening::{FileStore, fault_of, open_store};
use ballots::Record;
use disk_records::read_records;
use part_tasks::{TaskFault, weight_of};
use stable_records::Stable;
use std::alloc::{Alloc, Global};
use std::fs::{File, Files};

/// The records that a file of these bytes means.
fn records_in(alloc: Global, bytes: &[u8]) -> Result<Vec<Record>, TaskFault> {
    match read_records(alloc, bytes) {
        Ok(read) => Ok(read.records),
        Err(fault) => Err(fault_of(fault)),
    }
}

/// A store over the file whose path is this one with `.kept` behind it.
fn open_beside<R: Files<File = File> + Alloc>(
    files: &R,
    alloc: Global,
    path: &str,
) -> Result<FileStore, TaskFault> {
    let beside = format!(in alloc; "{path}.kept")?;
    open_store(files, alloc, beside.as_str())
}

/// Keeps the records, each in turn, and gives how many they are.
fn keep_all(store: &mut FileStore, records: &[Record]) -> Result<u64, TaskFault> {
    for told in records {
        if let Err(fault) = store.keep(told) {
            return Err(fault_of(fault));
        }
    }
    Ok(records.len() as u64)
}

/// Keeps the records of a file of these bytes so many times, each in turn, in a store over another file, whose path is
/// that one's with `.kept` behind it. The sum counts them.
///
/// The other file is made where it is missing, and recalled once before anything is kept.
pub fn keep_often<R: Files<File = File> + Alloc>(
    files: &R,
    alloc: Global,
    count: u64,
    bytes: &[u8],
    path: &str,
) -> Result<u64, TaskFault>
    ensures none { count ≡ 0 → IfOk result (λ sum. sum ≡ 0) }
{
    let records = records_in(alloc, bytes)?;
    let mut store = open_beside(files, alloc, path)?;
    let mut sum: u64 = 0;
    for _ in 0..count {
        sum = sum.wrapping_add(keep_all(&mut store, &records)?);
    }
    Ok(sum)
}

/// The length and the last byte of the value that was accepted, 0 in a record of another kind.
fn record_weight(told: &Record) -> u64 {
    match told {
        Record::Accepted(_, acceptance) => weight_of(acceptance.value.as_bytes()),
        Record::Began(_) | Record::Promised(..) | Record::PromisedFrom(..) => 0,
    }
}

/// How many records there are, and what the last of them weighs.
fn records_weight(records: &[Record]) -> u64 {
    match records.last() {
        Some(last) => (records.len() as u64).wrapping_add(record_weight(last)),
        None => 0,
    }
}

/// Recalls the records of a store, and weighs them.
fn recalled_weight(alloc: Global, store: &mut FileStore) -> Result<u64, TaskFault> {
    match store.recall(alloc) {
        Ok(records) => Ok(records_weight(&records)),
        Err(fault) => Err(fault_of(fault)),
    }
}

/// Recalls the records of the file at this path so many times, each time from its first byte on, behind a first recall
/// that counts for nothing. A repetition weighs the number of records, and the length and the last byte of the value
/// that was accepted last.
pub fn recall_often<R: Files<File = File> + Alloc>(
    files: &R,
    alloc: Global,
    count: u64,
    path: &str,
) -> Result<u64, TaskFault>
    ensures none { count ≡ 0 → IfOk result (λ sum. sum ≡ 0) }
{
    let mut store = open_store(files, alloc, path)?;
    let mut sum: u64 = 0;
    for _ in 0..count {
        sum = sum.wrapping_add(recalled_weight(alloc, &mut store)?);
    }
    Ok(sum)
}
