//! A record as it is written behind a gate.

ghost use Rattle.std.specs.Prelude.{◌≡◌, ◌≤◌, ◌<◌, ◌^◌, ◌++◌, length, drop, IfOk, OnOk};
ghost use Rattle.byteorder.specs.Endian.{little_bytes};
ghost use Rattle.ballots.specs.Record.{IsRecordText, canonical_record};
ghost use Rattle.disk_records.specs.RecordFile.{behind_gate};

use ballots::{MAX_RECORD_BYTES, MAX_UPLOAD_BYTES, OutOfMemory, Record};
use byteorder::{ByteOrder, LittleEndian};
use std::alloc::Global;

/// The byte of an open gate, behind which a record stands.
pub(crate) const OPEN: u8 = 1;

/// The byte of a closed gate that is written.
pub(crate) const CLOSED: u8 = 0;

/// The bytes of a length.
const LEN_BYTES: usize = 4;

/// The most bytes behind a gate that are not a value's: the length, the record's other fields, and a closed gate.
const HEAD_BYTES: usize = LEN_BYTES + (MAX_RECORD_BYTES - MAX_UPLOAD_BYTES) + 1;

/// What is written behind a closed gate so that the file has one record more once that gate is open: the length of the
/// record's bytes in four bytes, the lowest first, the bytes, and a closed gate.
///
/// The record's value is written once, straight into these bytes, whose room is taken before.
pub fn block_of(alloc: Global, told: &Record) -> Result<Vec<u8>, OutOfMemory>
    ensures bytes { IfOk result (λ block. block.items ≡ behind_gate (canonical_record told.now)) }
    ensures means { OnOk result (IsRecordText (canonical_record told.now) told.now) }
    ensures fits { OnOk result (length (canonical_record told.now) < 2 ^ 32) }
{
    let mut block = Vec::with_capacity(alloc, room_for(told))?;
    block.extend_from_slice(&[0; LEN_BYTES])?;
    told.encode(&mut block)?;
    let len = (block.len() - LEN_BYTES) as u32;
    write_len(&mut block, len);
    block.push(CLOSED)?;
    Ok(block)
}

/// The bytes that are needed for a record behind a gate, at most.
fn room_for(told: &Record) -> usize {
    match told {
        Record::Accepted(_, acceptance) => HEAD_BYTES + acceptance.value.as_bytes().len(),
        Record::Began(_) | Record::Promised(..) | Record::PromisedFrom(..) => HEAD_BYTES,
    }
}

/// Writes the length over the first four bytes.
fn write_len(block: &mut Vec<u8>, len: u32)
    requires { 4 ≤ length block.old.items }
    ensures { block.new.items ≡ little_bytes 4 len ++ drop 4 block.old.items }
{
    LittleEndian::write_u32(block.as_mut_slice(), len);
}
