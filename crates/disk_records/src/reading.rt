//! The records of a file, read from its bytes.

ghost use Rattle.std.specs.Prelude.{◌≡◌, ◌≢◌, ◌<◌, ◌++◌, [], ◌∷◌, length, slice_index, MatchOption, OnOk};
ghost use Rattle.ballots.specs.Record.{IsRecordText};
ghost use Rattle.disk_records.specs.RecordFile.{IsClosedAt, GatesMean, FileMeans};
ghost use Rattle.disk_records.specs.Reading.{Reads, ReadsRecords, MeansNothing, IsCut, IsUncut, BeginsWith};
ghost use Rattle.disk_records.specs.Reading.{BeginsWithNone, TakesBlock, IsReadAs};

use crate::block::OPEN;
use ballots::{MessageFault, Record, records_are_one};
use stable_records::StoreFault;
use std::alloc::{AllocError, Global};

/// The most bytes of a file that is new.
pub(crate) const NEW_FILE_BYTES: usize = 1;

/// The records of a file.
#[derive(Debug, Drop)]
pub struct FileRecords {
    /// What the file means, the record that was kept first first.
    pub records: Vec<Record>,
    /// The place of the closed gate behind them, in bytes from the file's start; 0 in a file that is new.
    pub gate: usize,
}

/// Reads the bytes of a whole file.
///
/// It is [`StoreFault::Damaged`] exactly where they mean no records, want of memory apart: an open gate has no whole
/// record, or a record that can't be read, or no gate behind it. Its only other fault is [`StoreFault::OutOfMemory`].
/// The length in front of a record is believed only where so many bytes stand behind it, and no memory is taken by it.
pub fn read_records(alloc: Global, file: &[u8]) -> Result<FileRecords, StoreFault>
    ensures { Reads (λ read. ReadsRecords file.now read.records.items read.gate)
        (MeansNothing (FileMeans file.now)) result }
{
    if file.len() <= NEW_FILE_BYTES {
        return Ok(FileRecords {
            records: Vec::new(alloc),
            gate: 0,
        });
    }
    read_gates(alloc, file)
}

/// Reads a file gate by gate.
fn read_gates(alloc: Global, file: &[u8]) -> Result<FileRecords, StoreFault>
    requires { 0 < length file.now }
    ensures { Reads (λ read. IsClosedAt file.now read.records.items read.gate)
        (MeansNothing (GatesMean file.now)) result }
{
    records_are_one();
    let mut records = Vec::new(alloc);
    let mut rest = file;
    while let Some(after) = behind_open(rest) {
        rest = take_block(alloc, &mut records, after)?;
    }
    Ok(FileRecords {
        records,
        gate: file.len() - rest.len(),
    })
}

/// What stands behind an open gate, `None` at a closed one.
fn behind_open(rest: &[u8]) -> Option<&[u8]>
    ensures { MatchOption result (slice_index rest.now 0 ≢ 1) (λ after. rest.now ≡ 1 ∷ after.now) }
{
    match rest {
        [OPEN, after @ ..] => Some(after),
        _ => None,
    }
}

/// Reads the record behind an open gate and puts it behind the others, and gives what stands behind it.
fn take_block<'a>(
    alloc: Global,
    records: &mut Vec<Record>,
    after: &'a [u8],
) -> Result<&'a [u8], StoreFault>
    ensures { Reads (λ rest. TakesBlock (1 ∷ after.now) records.old.items records.new.items rest.now)
        (BeginsWithNone (1 ∷ after.now)) result }
{
    let (told, later) = read_block(alloc, after)?;
    push_record(records, told)?;
    Ok(later)
}

/// Puts a record behind the others.
fn push_record(records: &mut Vec<Record>, told: Record) -> Result<(), AllocError>
    ensures ok { OnOk result (records.new.items ≡ records.old.items ++ told ∷ []) }
{
    records.push(told)?;
    Ok(())
}

/// Reads the record behind an open gate, and gives what stands behind it.
fn read_block(alloc: Global, after: &[u8]) -> Result<(Record, &[u8]), StoreFault>
    ensures { Reads (λ read. BeginsWith (1 ∷ after.now) read.0 read.1.now) (BeginsWithNone (1 ∷ after.now)) result }
{
    let Some((text, later)) = split_text(after) else {
        return Err(StoreFault::Damaged);
    };
    match read_record(alloc, text) {
        Ok(told) => Ok((told, later)),
        Err(fault) => Err(fault),
    }
}

/// The bytes of a record behind their length, and what stands behind them, `None` where nothing does.
fn split_text(after: &[u8]) -> Option<(&[u8], &[u8])>
    ensures { MatchOption result (IsUncut after.now) (λ parts. IsCut after.now parts.0.now parts.1.now) }
{
    let [a, b, c, d, rest @ ..] = after else {
        return None;
    };
    let len = u32::from_le_bytes([*a, *b, *c, *d]) as usize;
    if rest.len() <= len {
        return None;
    }
    Some(rest.split_at(len))
}

/// Reads a record from its bytes.
fn read_record(alloc: Global, text: &[u8]) -> Result<Record, StoreFault>
    ensures { Reads (IsRecordText text.now) (MeansNothing (IsRecordText text.now)) result }
{
    match Record::decode(alloc, text) {
        Ok(told) => Ok(told),
        Err(fault) => Err(fault_of(fault)),
    }
}

/// Bytes that are no record are damage.
fn fault_of(fault: MessageFault) -> StoreFault
    ensures { IsReadAs fault result }
{
    match fault {
        MessageFault::Wire(_) | MessageFault::BadKind | MessageFault::OutOfRange => {
            StoreFault::Damaged
        }
        MessageFault::OutOfMemory => StoreFault::OutOfMemory,
    }
}
