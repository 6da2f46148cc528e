//! Values that are shared, and values that are not.
//!
//! Whether bytes are shared shows in their owners: what one record alone had has another owner once a record took a clone.

use ballots::{Acceptance, Ballot, NodeId, Record, Slot, UploadBytes, Value};
use bytes::Bytes;
use shared_values::{HeldValues, SharingStable};
use stable_records::{FailingStable, MemoryStable, Stable, StoreFault};
use std::alloc::Global;
use std::test::Fail;

/// A slot, and bytes that it accepted.
type Row = (u32, &'static [u8]);

/// What one slot accepted.
const HELD: [Row; 1] = [(5, b"held")];

/// Values that are not the slot's own: of equal length, longer, and of another slot.
const UNLIKE: [Row; 3] = [(5, b"help"), (5, b"held on"), (6, b"held")];

/// How many records a long file has.
const MANY: u32 = 5_000;

fn ballot() -> Result<Ballot, Fail> {
    let node = NodeId::new(0).ok_or("no node")?;
    Ok(Ballot::new(1, node).ok_or("no ballot")?)
}

fn slot(number: u32) -> Result<Slot, Fail> {
    Ok(Slot::new(number).ok_or("no slot")?)
}

/// A record that the slot accepted these bytes, which it alone has.
fn accepted(alloc: Global, number: u32, bytes: &[u8]) -> Result<Record, Fail> {
    let own = Bytes::copy_from_slice(alloc, bytes)?;
    let value = Value::Upload(UploadBytes::new(own).ok_or("no value")?);
    let ballot = ballot()?;
    Ok(Record::Accepted(slot(number)?, Acceptance { ballot, value }))
}

/// Records of these rows.
fn records_of(alloc: Global, rows: &[Row]) -> Result<Vec<Record>, Fail> {
    let mut records = Vec::new(alloc);
    for (number, bytes) in rows {
        records.push(accepted(alloc, *number, bytes)?)?;
    }
    Ok(records)
}

/// Records without an upload, of each kind.
fn without_uploads(alloc: Global) -> Result<Vec<Record>, Fail> {
    let (slot, ballot) = (slot(5)?, ballot()?);
    let value = Value::Noop;
    let mut records = Vec::new(alloc);
    records.push(Record::Began(ballot))?;
    records.push(Record::Promised(slot, ballot))?;
    records.push(Record::Accepted(slot, Acceptance { ballot, value }))?;
    records.push(Record::PromisedFrom(slot, ballot))?;
    Ok(records)
}

/// Acceptances of so many slots, each with its number as its value.
fn many(alloc: Global) -> Result<Vec<Record>, Fail> {
    let mut records = Vec::new(alloc);
    for number in 0..MANY {
        records.push(accepted(alloc, number, &number.to_le_bytes())?)?;
    }
    Ok(records)
}

/// Whether another value has the bytes of this record's too.
fn is_shared(told: &Record) -> bool {
    match told {
        Record::Accepted(_, acceptance) => match &acceptance.value {
            Value::Upload(value) => !value.as_bytes().is_unique(),
            Value::Noop => false,
        },
        Record::Began(_) | Record::Promised(_, _) | Record::PromisedFrom(_, _) => false,
    }
}

/// How many of these records share their bytes with others.
fn shared_count(records: &[Record]) -> usize {
    records.iter().filter(|told| is_shared(told)).count()
}

/// A store in memory with these records.
fn memory_of(alloc: Global, records: &[Record]) -> Result<MemoryStable, Fail> {
    let mut store = MemoryStable::new(alloc);
    for told in records {
        store.keep(told)?;
    }
    Ok(store)
}

/// How many of `others` share their bytes with what is recalled of `own`, where that is equal to it.
fn shared_by(alloc: Global, own: &[Record], others: &[Record]) -> Result<usize, Fail> {
    let held = HeldValues::of(alloc, others)?;
    let mut store = SharingStable::new(memory_of(alloc, own)?, held);
    let recalled = store.recall(alloc)?;
    if recalled.as_slice() != own || store.store().records() != own {
        return Err("other records".into());
    }
    Ok(shared_count(others))
}

#[test]
fn an_equal_value_is_shared(rt: HostRuntime) -> Result<(), Fail> {
    let alloc = rt.alloc();
    let others = records_of(alloc, &HELD)?;
    assert_eq!(rt; shared_by(alloc, &records_of(alloc, &HELD)?, &others)?, 1);
    assert_eq!(rt; shared_count(&others), 0, "something holds it still");
    Ok(())
}

#[test]
fn other_values_are_left(rt: HostRuntime) -> Result<(), Fail> {
    let alloc = rt.alloc();
    let others = records_of(alloc, &HELD)?;
    assert_eq!(rt; shared_by(alloc, &records_of(alloc, &UNLIKE)?, &others)?, 0);
    assert_eq!(rt; shared_by(alloc, &without_uploads(alloc)?, &others)?, 0);
    Ok(())
}

#[test]
fn the_last_value_of_a_slot_is_held(rt: HostRuntime) -> Result<(), Fail> {
    let alloc = rt.alloc();
    let others = records_of(alloc, &[(5, b"old"), (5, b"new")])?;
    assert_eq!(rt;
        shared_by(alloc, &records_of(alloc, &[(5, b"old")])?, &others)?,
        0
    );
    assert_eq!(rt;
        shared_by(alloc, &records_of(alloc, &[(5, b"new")])?, &others)?,
        1
    );
    Ok(())
}

#[test]
fn each_of_many_is_shared_by_its_slot(rt: HostRuntime) -> Result<(), Fail> {
    let alloc = rt.alloc();
    let others = many(alloc)?;
    assert_eq!(rt; shared_by(alloc, &many(alloc)?, &others)?, others.len());
    Ok(())
}

/// Whether what is recalled shares its bytes with the others, where two records are.
fn is_shared_by_two(
    alloc: Global,
    store: &mut impl Stable,
    others: &[Record],
) -> Result<bool, Fail> {
    let recalled = store.recall(alloc)?;
    Ok(recalled.len() == 2 && shared_count(others) == 1)
}

#[test]
fn faults_are_those_beneath(rt: HostRuntime) -> Result<(), Fail> {
    let alloc = rt.alloc();
    let own = records_of(alloc, &HELD)?;
    let others = records_of(alloc, &HELD)?;
    let told = Record::Began(ballot()?);
    let failing = FailingStable::new(memory_of(alloc, &own)?, 0, false);
    let mut store = SharingStable::new(failing, HeldValues::none(alloc));
    store.hold(HeldValues::of(alloc, &others)?);
    assert!(rt; store.keep(&told) == Err(StoreFault::Broken));
    assert!(rt; store.recall(alloc) == Err(StoreFault::Device));
    assert!(rt;
        shared_count(&others) == 1,
        "it is held until a recall is Ok"
    );
    Ok(())
}

#[test]
fn a_later_recall_keeps_its_own(rt: HostRuntime) -> Result<(), Fail> {
    let alloc = rt.alloc();
    let own = records_of(alloc, &[(5, b"held"), (7, b"held")])?;
    let others = records_of(alloc, &HELD)?;
    let held = HeldValues::of(alloc, &others)?;
    let mut store = SharingStable::new(memory_of(alloc, &own)?, held);
    assert!(rt; is_shared_by_two(alloc, &mut store, &others)?);
    assert!(rt; !is_shared_by_two(alloc, &mut store, &others)?);
    Ok(())
}
