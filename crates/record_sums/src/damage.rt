//! Where a node's files are damaged.

ghost use Rattle.std.specs.Prelude.{◌≡◌, ◌<◌, ◌≤◌, ℕ, None, length, IfOk, MatchOption};
ghost use Rattle.std.specs.Option.{IfSome};
ghost use Rattle.disk_records.specs.RecordFile.{FileMeans};
ghost use Rattle.record_sums.specs.Sums.{Fits, IsFirstMisfit};
ghost use Rattle.record_sums.specs.Damage.{AreWhole, IsDamagedSo, IsMisfitSo};

use crate::checking::first_misfit;
use ballots::{OutOfMemory, Record};
use disk_records::laws::files_mean_one;
use disk_records::{FileRecords, read_records};
use stable_records::StoreFault;
use std::alloc::{AllocError, Global};
use thiserror::Error;

/// What is wrong at a gate of a node's file of records.
#[derive(Clone, Copy, Debug, PartialEq, Eq, Error)]
pub enum DamageKind {
    /// It is open, and no whole record with a gate behind it follows.
    #[error("this gate is open, but the record after it is incomplete")]
    NoRecord,
    /// The record behind it is not the one that was kept.
    #[error("the record after this gate is not the one that was written")]
    Changed,
    /// It is closed, and a record was kept behind it.
    #[error("this gate is closed, but a record was written after it")]
    Closed,
}

/// A gate of a node's file of records that is damaged, or what follows it.
#[derive(Clone, Copy, Debug, PartialEq, Eq, Error)]
#[error("byte {place}: {kind}")]
pub struct Damage {
    /// The gate's place, in bytes from the file's start.
    pub place: usize,
    /// What is wrong there.
    pub kind: DamageKind,
}

// What stands behind the record of an open gate, where a whole one and a gate stand there.
fn behind_record(alloc: Global, after: &[u8]) -> Option<&[u8]>
    ensures { IfSome result (λ later. length later.now < length after.now) }
{
    let [a, b, c, d, rest @ ..] = after else {
        return None;
    };
    let len = u32::from_le_bytes([*a, *b, *c, *d]) as usize;
    if rest.len() <= len || Record::decode(alloc, &rest[..len]).is_err() {
        return None;
    }
    Some(&rest[len..])
}

// What stands behind an open gate and its record.
fn behind_gate(alloc: Global, rest: &[u8]) -> Option<&[u8]>
    ensures { IfSome result (λ later. length later.now < length rest.now) }
{
    match rest {
        [1, after @ ..] => behind_record(alloc, after),
        _ => None,
    }
}

// The place of the gate behind so many records, or of the first behind which no record stands.
fn place_behind(alloc: Global, file: &[u8], count: usize) -> usize
    ensures { result ≤ length file.now }
{
    let mut rest = file;
    for _ in 0..count {
        match behind_gate(alloc, rest) {
            Some(later) => rest = later,
            None => break,
        }
    }
    file.len() - rest.len()
}

/// Where a node's file of records is damaged, by itself or beside the file of their sums: the first gate that is, `None` exactly
/// where the file means records that fit their sums.
///
/// It takes the memory that the records take, and 24 bytes for each.
pub fn damage_in(alloc: Global, file: &[u8], sums: &[u8]) -> Result<Option<Damage>, OutOfMemory>
    ensures whole { IfOk result (λ found. MatchOption found (AreWhole file.now sums.now) (λ _. AreWhole file.now sums.now → ⊥)) }
    ensures kind { IfOk result (λ found. IfSome found (λ damage. IsDamagedSo file.now sums.now damage.kind)) }
    ensures place { IfOk result (λ found. IfSome found (λ damage. damage.place ≤ length file.now)) }
{
    files_mean_one();
    match read_records(alloc, file) {
        Ok(read) => damage_of(alloc, file, sums, &read),
        Err(StoreFault::Damaged) => Ok(Some(Damage {
            place: place_behind(alloc, file, file.len()),
            kind: DamageKind::NoRecord,
        })),
        Err(StoreFault::OutOfMemory) => Err(AllocError),
        // Bytes that are there do not fail.
        Err(StoreFault::Device | StoreFault::Broken) => unreachable!(),
    }
}

// The damage of a file that means these records.
fn damage_of(
    alloc: Global,
    file: &[u8],
    sums: &[u8],
    read: &FileRecords,
) -> Result<Option<Damage>, OutOfMemory>
    requires { FileMeans file.now read.now.records.items }
    ensures none { IfOk result (λ found. found ≡ None → Fits sums.now read.now.records.items) }
    ensures some { IfOk result (λ found. IfSome found (λ damage. (number : ℕ) × IsFirstMisfit sums.now read.now.records.items number
        × IsMisfitSo number (length read.now.records.items) damage.kind)) }
    ensures place { IfOk result (λ found. IfSome found (λ damage. damage.place ≤ length file.now)) }
{
    let Some(number) = first_misfit(alloc, sums, read.records.as_slice())? else {
        return Ok(None);
    };
    let kind = if number < read.records.len() {
        DamageKind::Changed
    } else {
        DamageKind::Closed
    };
    let place = place_behind(alloc, file, number);
    Ok(Some(Damage { place, kind }))
}
