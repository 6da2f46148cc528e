//! A store on a disk in memory, which is refused memory: what it had stands, and the call is made again. Where the disk
//! itself is refused memory it fails, and then the record that was to be kept may stand too.
//! Run with every allocation refused in turn, the test ends as before or for want of memory.

use crate::support::{accepted, ballot};
use ballots::Record;
use disk_records::{DiskStable, MemoryDisk};
use stable_records::{Stable, StoreFault};
use std::alloc::Global;
use std::test::Fail;

/// The records of the store; where memory is refused, to it or to its disk, they are recalled again.
fn recall<S: Stable>(alloc: Global, store: &mut S) -> Result<Vec<Record>, StoreFault> {
    match store.recall(alloc) {
        Err(StoreFault::OutOfMemory | StoreFault::Device) => store.recall(alloc),
        recalled => recalled,
    }
}

/// Keeps the record again behind so many, where it does not stand; it may stand where the disk failed.
fn keep_again<S: Stable>(
    alloc: Global,
    store: &mut S,
    told: &Record,
    before: usize,
    may_stand: bool,
) -> Result<(), Fail> {
    let found = recall(alloc, store)?;
    if found.len() == before {
        return Ok(store.keep(told)?);
    }
    if may_stand && found.len() == before.saturating_add(1) && found.last() == Some(told) {
        return Ok(());
    }
    Err(Fail::from("other records"))
}

/// Keeps the record behind so many; where memory is refused, these stand alone, and it is kept again.
fn keep<S: Stable>(alloc: Global, store: &mut S, told: &Record, before: usize) -> Result<(), Fail> {
    match store.keep(told) {
        Ok(()) => Ok(()),
        Err(StoreFault::OutOfMemory) => keep_again(alloc, store, told, before, false),
        Err(StoreFault::Device) => keep_again(alloc, store, told, before, true),
        Err(_) => Err(Fail::from("another fault")),
    }
}

/// Whether a store keeps and recalls these records.
fn are_kept<S: Stable>(alloc: Global, store: &mut S, told: &[Record]) -> Result<bool, Fail> {
    recall(alloc, store)?;
    for (before, record) in told.iter().enumerate() {
        keep(alloc, store, record, before)?;
    }
    let found = recall(alloc, store)?;
    Ok(found.as_slice() == told)
}

#[test]
fn records_are_kept_again(rt: HostRuntime) -> Result<(), Fail> {
    let alloc = rt.alloc();
    let told = [
        Record::Began(ballot(1)?),
        accepted(alloc, 0, 300)?,
        Record::Began(ballot(2)?),
    ];
    let mut store = DiskStable::new(alloc, MemoryDisk::new(alloc, Vec::new(alloc)));
    assert!(rt; are_kept(alloc, &mut store, &told)?);
    Ok(())
}
