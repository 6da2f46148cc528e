//! A store that is stopped at each call of its disk, in a run of two recalls and three keeps.

use crate::support::{accepted, ballot};
use crate::torn_disk::TornDisk;
use ballots::Record;
use disk_records::{DiskStable, MemoryDisk, Pick};
use stable_records::{Stable, StoreFault};
use std::alloc::Global;
use std::test::Fail;

/// More calls of the disk than the run makes, and than a store makes here that is not to be stopped.
const MOST_CALLS: u64 = 30;

/// The files that are left behind a run which is stopped at each of so many calls, where a crash may tear each write into parts of
/// three bytes. Three ways for each part: of a begun ballot's 11 bytes four parts, of the 16 of an acceptance six, one of a gate;
/// each while it is written and while it is synced. At each other call one.
const TORN_FILES: u32 = 2 * 3 + 2 * (2 * 81 + 2 * 3) + (2 * 729 + 2 * 3) + 3 + 3 + 10;

// The records that a run keeps.
fn three(alloc: Global) -> Result<[Record; 3], Fail> {
    Ok([
        Record::Began(ballot(1)?),
        accepted(alloc, 0, 3)?,
        Record::Began(ballot(2)?),
    ])
}

// Whether these are the first so many of the records.
fn are_first(found: &[Record], records: &[Record], count: usize) -> bool {
    match records.get(..count) {
        Some(first) => *found == *first,
        None => false,
    }
}

// Keeps a record, and counts it where it was kept. It is false where the disk failed.
fn keep<S: Stable>(store: &mut S, kept: &Record, count: &mut usize) -> bool {
    match store.keep(kept) {
        Ok(()) => {
            *count = count.saturating_add(1);
            true
        }
        Err(_) => false,
    }
}

// Recalls the records that were kept, and no others. It is false where the disk failed.
fn recalls<S: Stable>(
    alloc: Global,
    store: &mut S,
    records: &[Record],
    count: usize,
) -> Result<bool, Fail> {
    match store.recall(alloc) {
        Ok(found) if are_first(&found, records, count) => Ok(true),
        Ok(_) => Err(Fail::from("other records")),
        Err(fault) if fault == StoreFault::Device => Ok(false),
        Err(_) => Err(Fail::from("another fault")),
    }
}

// Two recalls and three keeps, up to the first that fails: how many records were kept, and whether a keep failed.
fn run<S: Stable>(
    alloc: Global,
    store: &mut S,
    records: &[Record; 3],
) -> Result<(usize, bool), Fail> {
    let mut count = 0;
    if !recalls(alloc, store, records, count)? {
        return Ok((count, false));
    }
    if !keep(store, &records[0], &mut count) || !keep(store, &records[1], &mut count) {
        return Ok((count, true));
    }
    if !recalls(alloc, store, records, count)? {
        return Ok((count, false));
    }
    let is_kept = keep(store, &records[2], &mut count);
    Ok((count, !is_kept))
}

// Whether a store finds just what was kept, or one record more where a keep failed.
fn finds<S: Stable>(
    alloc: Global,
    store: &mut S,
    records: &[Record],
    ended: (usize, bool),
) -> Result<bool, Fail> {
    let (kept, is_in_doubt) = ended;
    let found = store.recall(alloc)?;
    let is_one_more = is_in_doubt && are_first(&found, records, kept.saturating_add(1));
    Ok(is_one_more || are_first(&found, records, kept))
}

// Whether a run that is stopped behind so many calls, and then by a crash, leaves what a store may find.
fn is_left(alloc: Global, calls: u64, pick: Pick) -> Result<bool, Fail> {
    let records = three(alloc)?;
    let mut disk = MemoryDisk::new(alloc, Vec::new(alloc));
    disk.calls_left = Some(calls);
    let mut store = DiskStable::new(alloc, disk);
    let ended = run(alloc, &mut store, &records)?;
    let left = store.disk().crashed(pick)?;
    let mut again = DiskStable::new(alloc, MemoryDisk::new(alloc, left));
    finds(alloc, &mut again, &records, ended)
}

#[test]
fn each_stop_leaves_what_was_kept(rt: HostRuntime) -> Result<(), Fail> {
    for calls in 0..MOST_CALLS {
        for pick in [Pick::Written, Pick::Unwritten, Pick::Filled] {
            assert!(rt; is_left(rt.alloc(), calls, pick)?, "at {calls}");
        }
    }
    Ok(())
}

// Whether one more record is kept behind those that are found, over the bytes that a crash left there.
fn takes_more<S: Stable>(alloc: Global, store: &mut S, more: &Record) -> Result<bool, Fail> {
    let before = store.recall(alloc)?;
    store.keep(more)?;
    let after = store.recall(alloc)?;
    let is_last = after.last() == Some(more);
    Ok(
        is_last
            && after.len() == before.len().saturating_add(1)
            && are_first(&before, &after, before.len()),
    )
}

// Whether a store finds what it may in a file that a crash left, and goes on from there.
fn goes_on(
    alloc: Global,
    left: Vec<u8>,
    records: &[Record; 3],
    ended: (usize, bool),
) -> Result<bool, Fail> {
    let mut store = DiskStable::new(alloc, TornDisk::new(alloc, left, MOST_CALLS));
    Ok(finds(alloc, &mut store, records, ended)? && takes_more(alloc, &mut store, &records[0])?)
}

// How many files a crash may leave of a run that is stopped behind so many calls. Each of them is looked at.
fn torn_files(alloc: Global, calls: u64) -> Result<u32, Fail> {
    let records = three(alloc)?;
    let mut store = DiskStable::new(alloc, TornDisk::new(alloc, Vec::new(alloc), calls));
    let ended = run(alloc, &mut store, &records)?;
    let choices = store.disk().choices();
    for picks in 0..choices {
        if !goes_on(alloc, store.disk().crashed(picks)?, &records, ended)? {
            return Err(Fail::from("other records are found"));
        }
    }
    Ok(choices)
}

#[test]
fn each_part_of_a_write_is_left_on_its_own(rt: HostRuntime) -> Result<(), Fail> {
    let mut files: u32 = 0;
    for calls in 0..MOST_CALLS {
        files = files.saturating_add(torn_files(rt.alloc(), calls)?);
    }
    assert_eq!(rt; files, TORN_FILES);
    Ok(())
}

#[test]
fn a_whole_run_keeps_all(rt: HostRuntime) -> Result<(), Fail> {
    let alloc = rt.alloc();
    let records = three(alloc)?;
    let mut store = DiskStable::new(alloc, MemoryDisk::new(alloc, Vec::new(alloc)));
    let ended = run(alloc, &mut store, &records)?;
    assert!(rt; ended == (3, false));
    assert!(rt; finds(alloc, &mut store, &records, ended)?);
    Ok(())
}
