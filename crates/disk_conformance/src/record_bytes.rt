//! Files, byte by byte, and what stops leave of them.

use ballots::{Ballot, NodeId, Record, Slot};
use disk_records::{Disk, DiskFailed, DiskStable, MemoryDisk, Pick};
use stable_records::{Stable, StoreFault};
use std::alloc::Global;
use std::test::Fail;

/// The file of a node that began at (1, 0).
const ONE: [u8; 10] = [1, 4, 0, 0, 0, 8, 1, 0x18, 1, 0];

/// The file once slot 0 has promised (1, 0).
const TWO: [u8; 19] = [
    1, 4, 0, 0, 0, 8, 1, 0x18, 1, 1, 4, 0, 0, 0, 8, 2, 0x18, 1, 0,
];

/// The file once all slots from slot 5 on have promised (2, 0) too.
const THREE: [u8; 30] = [
    1, 4, 0, 0, 0, 8, 1, 0x18, 1, 1, 4, 0, 0, 0, 8, 2, 0x18, 1, 1, 6, 0, 0, 0, 8, 4, 0x10, 5, 0x18,
    2, 0,
];

/// The calls of a recall of a file that is not new.
const RECALL_CALLS: u64 = 3;

/// The calls of a keep.
const KEEP_CALLS: u64 = 4;

fn ballot() -> Result<Ballot, Fail> {
    let node = NodeId::new(0).ok_or("no node")?;
    Ok(Ballot::new(1, node).ok_or("no ballot")?)
}

fn promised() -> Result<Record, Fail> {
    let slot = Slot::new(0).ok_or("no slot")?;
    Ok(Record::Promised(slot, ballot()?))
}

/// The promise of (2, 0) by all slots from slot 5 on.
fn promised_from() -> Result<Record, Fail> {
    let first = Slot::new(5).ok_or("no slot")?;
    let node = NodeId::new(0).ok_or("no node")?;
    let ballot = Ballot::new(2, node).ok_or("no ballot")?;
    Ok(Record::PromisedFrom(first, ballot))
}

/// A store over a file of these bytes, whose disk fails at the call behind so many.
fn store_of(
    alloc: Global,
    file: &[u8],
    calls: Option<u64>,
) -> Result<DiskStable<MemoryDisk>, Fail> {
    let mut disk = MemoryDisk::new(alloc, file.to_vec(alloc)?);
    disk.calls_left = calls;
    Ok(DiskStable::new(alloc, disk))
}

/// A store as another thread would get it.
fn handed_on<S: Stable + Send>(store: S) -> S {
    store
}

/// How many records a recall of this file finds.
fn found_in(alloc: Global, file: &[u8]) -> Result<usize, Fail> {
    let mut store = handed_on(store_of(alloc, file, None)?);
    Ok(store.recall(alloc)?.len())
}

#[test]
fn each_keep_leaves_its_bytes(rt: HostRuntime) -> Result<(), Fail> {
    let alloc = rt.alloc();
    let mut store = store_of(alloc, &[], None)?;
    assert_eq!(rt; store.recall(alloc)?.len(), 0);
    assert_eq!(rt; store.disk().bytes()?.as_slice(), [0].as_slice());
    store.keep(&Record::Began(ballot()?))?;
    assert_eq!(rt; store.disk().bytes()?.as_slice(), ONE.as_slice());
    store.keep(&promised()?)?;
    assert_eq!(rt; store.disk().bytes()?.as_slice(), TWO.as_slice());
    store.keep(&promised_from()?)?;
    assert_eq!(rt; store.disk().bytes()?.as_slice(), THREE.as_slice());
    Ok(())
}

#[test]
fn a_promise_of_all_slots_is_read_back(rt: HostRuntime) -> Result<(), Fail> {
    let alloc = rt.alloc();
    let mut store = store_of(alloc, &THREE, None)?;
    let found = store.recall(alloc)?;
    let wanted = [Record::Began(ballot()?), promised()?, promised_from()?];
    assert!(rt; found.as_slice() == wanted.as_slice());
    Ok(())
}

#[test]
fn a_record_of_no_kind_is_damage(rt: HostRuntime) -> Result<(), Fail> {
    let alloc = rt.alloc();
    let mut file = THREE;
    file[24] = 5;
    let mut store = store_of(alloc, &file, None)?;
    assert!(rt; store.recall(alloc).err() == Some(StoreFault::Damaged));
    Ok(())
}

#[test]
fn files_mean_their_records(rt: HostRuntime) -> Result<(), Fail> {
    let alloc = rt.alloc();
    let behind = [
        1, 4, 0, 0, 0, 8, 1, 0x18, 1, 0, 0xff, 0xff, 0xff, 0xff, 0xff,
    ];
    assert_eq!(rt; found_in(alloc, &behind)?, 1);
    assert_eq!(rt; found_in(alloc, &TWO)?, 2);
    let mut cut = store_of(alloc, &ONE[..4], None)?;
    assert!(rt; cut.recall(alloc).err() == Some(StoreFault::Damaged));
    Ok(())
}

/// Whether a second keep that is stopped behind so many calls, and left so by a crash, is found as it was answered.
fn is_found(alloc: Global, calls: u64, pick: Pick) -> Result<bool, Fail> {
    let mut store = store_of(alloc, &ONE, Some(RECALL_CALLS.saturating_add(calls)))?;
    let _ = store.recall(alloc)?;
    let is_kept = store.keep(&promised()?).is_ok();
    let found = found_in(alloc, &store.disk().crashed(pick)?)?;
    Ok(is_kept == (calls == KEEP_CALLS) && (found == 2 || (found == 1 && !is_kept)))
}

#[test]
fn a_stopped_keep_is_whole_or_not_there(rt: HostRuntime) -> Result<(), Fail> {
    for calls in 0..=KEEP_CALLS {
        for pick in [Pick::Written, Pick::Unwritten, Pick::Filled] {
            assert!(rt; is_found(rt.alloc(), calls, pick)?, "at {calls}");
        }
    }
    Ok(())
}

#[test]
fn a_keep_waits_for_a_recall(rt: HostRuntime) -> Result<(), Fail> {
    let alloc = rt.alloc();
    let mut store = store_of(alloc, &ONE, Some(0))?;
    assert!(rt; store.recall(alloc).err() == Some(StoreFault::Device));
    assert!(rt; store.keep(&promised()?) == Err(StoreFault::Broken));
    assert_eq!(rt; store.recall(alloc)?.len(), 1);
    store.keep(&promised()?)?;
    assert_eq!(rt; store.disk().bytes()?.as_slice(), TWO.as_slice());
    Ok(())
}

#[test]
fn a_crash_leaves_what_is_picked(rt: HostRuntime) -> Result<(), Fail> {
    let alloc = rt.alloc();
    let mut disk = MemoryDisk::new(alloc, [1, 2, 3].to_vec(alloc)?);
    disk.calls_left = Some(0);
    assert!(rt; disk.write_at(2, &[7, 8]) == Err(DiskFailed));
    assert_eq!(rt; disk.bytes()?.as_slice(), [1, 2, 7, 8].as_slice());
    assert_eq!(rt;
        disk.crashed(Pick::Unwritten)?.as_slice(),
        [1, 2, 3].as_slice()
    );
    assert_eq!(rt;
        disk.crashed(Pick::Filled)?.as_slice(),
        [1, 2, 0xff, 0xff].as_slice()
    );
    Ok(())
}
