//! A store in memory that is refused memory: what it had stands alone, and the call is made again.
//! Run with every allocation refused in turn, the test ends as before or for want of memory.

use crate::support::{records_below, value_of};
use ballots::Record;
use stable_records::{MemoryStable, Stable, StoreFault};
use std::alloc::Global;
use std::test::Fail;

/// Keeps the record; where memory is refused, as many stand as before, and it is kept again.
fn keep(store: &mut MemoryStable, told: &Record) -> Result<(), Fail> {
    let before = store.records().len();
    match store.keep(told) {
        Ok(()) => Ok(()),
        Err(StoreFault::OutOfMemory) if store.records().len() == before => Ok(store.keep(told)?),
        Err(_) => Err(Fail::from("other records or another fault")),
    }
}

/// The records; where memory is refused, they are recalled again.
fn recall(alloc: Global, store: &mut MemoryStable) -> Result<Vec<Record>, StoreFault> {
    match store.recall(alloc) {
        Err(StoreFault::OutOfMemory) => store.recall(alloc),
        recalled => recalled,
    }
}

/// Whether a store keeps and recalls these records.
fn are_kept(alloc: Global, store: &mut MemoryStable, told: &[Record]) -> Result<bool, Fail> {
    for record in told {
        keep(store, record)?;
    }
    let found = recall(alloc, store)?;
    Ok(found.as_slice() == told && store.records() == told)
}

#[test]
fn records_are_kept_again(rt: HostRuntime) -> Result<(), Fail> {
    let value = value_of(rt.alloc(), b"abc")?;
    let told = records_below(rt.alloc(), 20, &value)?;
    let mut store = MemoryStable::new(rt.alloc());
    assert!(rt; are_kept(rt.alloc(), &mut store, told.as_slice())?);
    Ok(())
}
