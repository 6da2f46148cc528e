//! Files of sums, byte by byte, and bytes that changed.

use ballots::{Ballot, NodeId, Record, Slot};
use disk_records::{Disk, DiskStable, MemoryDisk, Pick};
use record_sums::{DamageKind, ENTRY_BYTES, SummedStable, damage_in, first_misfit};
use stable_records::{Stable, StoreFault};
use std::alloc::Global;
use std::test::Fail;

/// The file of a node that began at (1, 0), and of which slot 0 has promised (1, 0).
const RECORDS: [u8; 19] = [
    1, 4, 0, 0, 0, 8, 1, 0x18, 1, 1, 4, 0, 0, 0, 8, 2, 0x18, 1, 0,
];

/// Its file of sums, as Python's hashlib has it.
const SUMS: &str =
    "a7d0ea800c3efd42ac587765fec9ab9d560b2ee894880810ffd4af960480ff755236f36c15cbfe9a9a74c86f31b8597d";

/// The place of the second record's gate.
const SECOND_GATE: usize = 9;

/// The calls that a recall makes of either disk where the file of sums is written.
const RECALL_CALLS: u64 = 3;

/// The calls that a keep makes of the disk with the records. It makes one of the other.
const KEEP_CALLS: u64 = 4;

type TriedStore = SummedStable<DiskStable<MemoryDisk>, MemoryDisk>;

fn ballot() -> Result<Ballot, Fail> {
    let node = NodeId::new(0).ok_or("no node")?;
    Ok(Ballot::new(1, node).ok_or("no ballot")?)
}

fn promised(slot: u32) -> Result<Record, Fail> {
    let slot = Slot::new(slot).ok_or("no slot")?;
    Ok(Record::Promised(slot, ballot()?))
}

fn store_of(alloc: Global, records: &[u8], sums: &[u8]) -> Result<TriedStore, Fail> {
    let disk = MemoryDisk::new(alloc, records.to_vec(alloc)?);
    let beside = MemoryDisk::new(alloc, sums.to_vec(alloc)?);
    Ok(SummedStable::new(alloc, DiskStable::new(alloc, disk), beside))
}

/// How many records are found in these files, or why none are.
fn found_in(alloc: Global, records: &[u8], sums: &[u8]) -> Result<Result<usize, StoreFault>, Fail> {
    let mut store = store_of(alloc, records, sums)?;
    Ok(match store.recall(alloc) {
        Ok(found) => Ok(found.len()),
        Err(fault) => Err(fault),
    })
}

fn sums(alloc: Global) -> Result<Vec<u8>, Fail> {
    Ok(hex::decode(alloc, SUMS)?)
}

#[test]
fn each_keep_enters_its_sum(rt: HostRuntime) -> Result<(), Fail> {
    let alloc = rt.alloc();
    let mut store = store_of(alloc, &[], &[])?;
    assert_eq!(rt; store.recall(alloc)?.len(), 0);
    assert_eq!(rt; store.sums().bytes()?.len(), 0);
    store.keep(&Record::Began(ballot()?))?;
    store.keep(&promised(0)?)?;
    assert_eq!(rt;
        store.store().disk().bytes()?.as_slice(),
        RECORDS.as_slice()
    );
    assert_eq!(rt; store.sums().bytes()?.as_slice(), sums(alloc)?.as_slice());
    Ok(())
}

#[test]
fn a_byte_that_changed_is_found(rt: HostRuntime) -> Result<(), Fail> {
    let alloc = rt.alloc();
    let sums = sums(alloc)?;
    assert!(rt; found_in(alloc, &RECORDS, &sums)? == Ok(2));
    for place in 0..RECORDS.len() - 1 {
        for byte in [0, 2, 0xff] {
            let mut changed = RECORDS;
            changed[place] ^= byte;
            let found = found_in(alloc, &changed, &sums)?;
            let wanted = if byte == 0 {
                Ok(2)
            } else {
                Err(StoreFault::Damaged)
            };
            assert!(rt; found == wanted, "at {place}");
        }
    }
    Ok(())
}

#[test]
fn gates_that_were_closed_are_found(rt: HostRuntime) -> Result<(), Fail> {
    let alloc = rt.alloc();
    let sums = sums(alloc)?;
    for place in [0, SECOND_GATE] {
        let mut closed = RECORDS;
        closed[place] = 0;
        assert!(rt;
            found_in(alloc, &closed, &sums)? == Err(StoreFault::Damaged),
            "at {place}"
        );
    }
    assert!(rt; found_in(alloc, &[], &sums)? == Err(StoreFault::Damaged));
    Ok(())
}

/// Where these files are damaged.
fn place_in(
    alloc: Global,
    records: &[u8],
    sums: &[u8],
) -> Result<Option<(usize, DamageKind)>, Fail> {
    Ok(match damage_in(alloc, records, sums)? {
        Some(damage) => Some((damage.place, damage.kind)),
        None => None,
    })
}

#[test]
fn damage_has_its_place(rt: HostRuntime) -> Result<(), Fail> {
    let alloc = rt.alloc();
    let sums = sums(alloc)?;
    let mut changed = RECORDS;
    assert!(rt; place_in(alloc, &changed, &sums)? == None);
    changed[17] = 2;
    assert!(rt; place_in(alloc, &changed, &sums)? == Some((SECOND_GATE, DamageKind::Changed)));
    changed[SECOND_GATE] = 0;
    assert!(rt; place_in(alloc, &changed, &sums)? == Some((SECOND_GATE, DamageKind::Closed)));
    changed[0] = 0;
    assert!(rt; place_in(alloc, &changed, &sums)? == Some((0, DamageKind::Closed)));
    let cut = &RECORDS[..15];
    assert!(rt; place_in(alloc, cut, &sums)? == Some((SECOND_GATE, DamageKind::NoRecord)));
    Ok(())
}

#[test]
fn an_entry_that_is_missing_or_torn_is_entered(rt: HostRuntime) -> Result<(), Fail> {
    let alloc = rt.alloc();
    let whole = sums(alloc)?;
    for end in 0..whole.len() {
        let mut torn = whole[..end].to_vec(alloc)?;
        torn.extend_from_slice(&[0xff; 5])?;
        let mut store = store_of(alloc, &RECORDS, &torn)?;
        assert_eq!(rt; store.recall(alloc)?.len(), 2);
        assert!(rt;
            store.sums().bytes()?.as_slice() == torn.as_slice(),
            "cut at {end}"
        );
        store.keep(&promised(1)?)?;
        let left = store.sums().bytes()?;
        assert!(rt;
            left.starts_with(&whole) && left.len() == 3 * ENTRY_BYTES,
            "cut at {end}"
        );
    }
    Ok(())
}

#[test]
fn entries_of_other_numbers_are_none(rt: HostRuntime) -> Result<(), Fail> {
    let alloc = rt.alloc();
    let whole = sums(alloc)?;
    let mut swapped = whole.get(ENTRY_BYTES..).ok_or("no entry")?.to_vec(alloc)?;
    swapped.extend_from_slice(whole.get(..ENTRY_BYTES).ok_or("no entry")?)?;
    assert!(rt; found_in(alloc, &RECORDS, &swapped)? == Ok(2));
    Ok(())
}

/// Whether a second keep, of which so many calls of either disk pass, is found as it was answered once a crash has left of each
/// disk what is picked of it.
fn is_found(alloc: Global, calls: [u64; 2], picks: [Pick; 2]) -> Result<bool, Fail> {
    let mut disk = MemoryDisk::new(alloc, RECORDS[..=SECOND_GATE].to_vec(alloc)?);
    let mut beside = MemoryDisk::new(alloc, Vec::new(alloc));
    disk.write_at(SECOND_GATE, &[0])?;
    disk.calls_left = Some(RECALL_CALLS.saturating_add(calls[0]));
    beside.calls_left = Some(RECALL_CALLS.saturating_add(calls[1]));
    let mut store = SummedStable::new(alloc, DiskStable::new(alloc, disk), beside);
    drop(store.recall(alloc)?);
    let is_kept = store.keep(&promised(0)?).is_ok();
    let records = store.store().disk().crashed(picks[0])?;
    let sums = store.sums().crashed(picks[1])?;
    let found = found_in(alloc, &records, &sums)?;
    Ok(found == Ok(2) || (found == Ok(1) && !is_kept))
}

#[test]
fn a_crash_leaves_what_is_found(rt: HostRuntime) -> Result<(), Fail> {
    let alloc = rt.alloc();
    let picks = [Pick::Written, Pick::Unwritten, Pick::Filled];
    for calls in 0..=KEEP_CALLS {
        for pick in picks {
            for beside in picks {
                let cut = is_found(alloc, [calls, 1], [pick, beside])?;
                let late = is_found(alloc, [calls, 0], [pick, beside])?;
                assert!(rt; cut && late, "at {calls}");
            }
        }
    }
    Ok(())
}

#[test]
fn a_keep_waits_for_a_recall(rt: HostRuntime) -> Result<(), Fail> {
    let alloc = rt.alloc();
    let mut store = store_of(alloc, &RECORDS, &[0; ENTRY_BYTES])?;
    assert!(rt; store.keep(&promised(1)?) == Err(StoreFault::Broken));
    assert_eq!(rt; store.recall(alloc)?.len(), 2);
    store.keep(&promised(1)?)?;
    assert_eq!(rt; store.sums().bytes()?.len(), 3 * ENTRY_BYTES);
    Ok(())
}

/// Promises of so many slots.
fn promises(alloc: Global, count: u32) -> Result<Vec<Record>, Fail> {
    let mut records = Vec::new(alloc);
    for slot in 0..count {
        records.push(promised(slot)?)?;
    }
    Ok(records)
}

/// The sums of these records and of one more, of which none was entered before the last one was kept.
fn sums_of(alloc: Global, records: &[Record], last: &Record) -> Result<Vec<u8>, Fail> {
    let mut plain = DiskStable::new(alloc, MemoryDisk::new(alloc, Vec::new(alloc)));
    drop(plain.recall(alloc)?);
    for record in records {
        plain.keep(record)?;
    }
    let file = plain.disk().bytes()?;
    let mut store = store_of(alloc, file.as_slice(), &[])?;
    drop(store.recall(alloc)?);
    store.keep(last)?;
    Ok(store.sums().bytes()?)
}

#[test]
fn thousands_of_records_fit_their_sums(rt: HostRuntime) -> Result<(), Fail> {
    let alloc = rt.alloc();
    let mut records = promises(alloc, 4999)?;
    let sums = sums_of(alloc, &records, &promised(4999)?)?;
    records.push(promised(4999)?)?;
    assert!(rt; first_misfit(alloc, &sums, &records)? == None);
    let fewer = records.get(..4999).ok_or("no records")?;
    assert!(rt; first_misfit(alloc, &sums, fewer)? == Some(4999));
    *records.get_mut(4321).ok_or("no record")? = promised(4320)?;
    assert!(rt; first_misfit(alloc, &sums, &records)? == Some(4321));
    Ok(())
}
