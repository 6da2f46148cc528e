//! Records, and files of them.

use ballots::{Acceptance, Ballot, NodeId, Record, Slot, UploadBytes, Value};
use bytes::Bytes;
use disk_records::block_of;
use std::alloc::Global;
use std::test::Fail;

pub fn ballot(round: u32) -> Result<Ballot, Fail> {
    let node = NodeId::new(2).ok_or("no node")?;
    Ok(Ballot::new(round, node).ok_or("no ballot")?)
}

/// The record of an upload of so many bytes that was accepted in this slot.
pub fn accepted(alloc: Global, slot: u32, count: usize) -> Result<Record, Fail> {
    let slot = Slot::new(slot).ok_or("no slot")?;
    let mut bytes = Vec::new(alloc);
    bytes.resize(count, 0x5a)?;
    let bytes = Bytes::from_vec(bytes)?;
    let value = Value::Upload(UploadBytes::new(bytes).ok_or("no upload")?);
    let ballot = ballot(7)?;
    Ok(Record::Accepted(slot, Acceptance { ballot, value }))
}

/// Puts the open gate of a record and the record behind a file's other gates; its last byte is the closed gate.
pub fn push_record(alloc: Global, file: &mut Vec<u8>, kept: &Record) -> Result<(), Fail> {
    file.pop();
    file.push(1)?;
    file.extend_from_slice(&block_of(alloc, kept)?)?;
    Ok(())
}

/// The file of a begun ballot, a promise, an upload that was accepted, and a promise of all slots from a first one on.
pub fn four_records(alloc: Global) -> Result<Vec<u8>, Fail> {
    let mut file = [0].to_vec(alloc)?;
    push_record(alloc, &mut file, &Record::Began(ballot(3)?))?;
    let slot = Slot::new(300).ok_or("no slot")?;
    push_record(alloc, &mut file, &Record::Promised(slot, ballot(300)?))?;
    push_record(alloc, &mut file, &accepted(alloc, 5, 40)?)?;
    push_record(alloc, &mut file, &Record::PromisedFrom(slot, ballot(301)?))?;
    Ok(file)
}
