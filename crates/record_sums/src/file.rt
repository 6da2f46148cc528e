//! The file of sums: read whole, compared, and written.

ghost use Rattle.std.specs.Prelude.{◌≡◌, ◌+◌, ◌*◌, ◌≤◌, ◌<◌, ◌^◌, None, IsTrue, length, take, IfOk, OnOk};
ghost use Rattle.disk_records.specs.Disk.{CountsFailure, written_at};
ghost use Rattle.disk_records.specs.DiskCalls.{CountsDevice};
ghost use Rattle.record_sums.specs.Recalling.{ComparesAll};
ghost use Rattle.record_sums.specs.Reading.{Compares, ReadsAll, with_text};

use crate::checking::first_wrong;
use crate::entering::{entries_of, text_of};
use crate::entry::Entry;
use ballots::Record;
use disk_records::{Disk, DiskFailed};
use stable_records::StoreFault;
use std::alloc::Global;

// All bytes of the file.
fn all_bytes<D: Disk>(alloc: Global, sums: &mut D) -> Result<Vec<u8>, StoreFault>
    ensures counted { CountsDevice result (D.failures sums.old) (D.failures sums.new) }
    ensures read { IsTrue D.tells → ReadsAll result (D.content sums.old) (D.content sums.new) }
{
    let len = sums.len()?;
    let mut bytes = Vec::from_elem(alloc, 0, len)?;
    sums.read_at(0, bytes.as_mut_slice())?;
    Ok(bytes)
}

// Whether these bytes begin with this text.
fn begins_with(found: &[u8], text: &[u8]) -> bool
    ensures { IsTrue result → take (length text.now) found.now ≡ text.now }
{
    if found.len() < text.len() {
        return false;
    }
    let (front, _) = found.split_at(text.len());
    front == text
}

// The entries of these records, which these bytes are compared with.
fn compared(alloc: Global, found: &[u8], records: &[Record]) -> Result<Vec<Entry>, StoreFault>
    ensures { Compares result found.now records.now }
{
    let entries = entries_of(alloc, records)?;
    match first_wrong(found, entries.as_slice()) {
        None => Ok(entries),
        Some(_) => {
            drop(entries);
            Err(StoreFault::Damaged)
        }
    }
}

/// Compares the file with these records, and gives what it has to begin with so that it has the sum of each, `None` where it
/// has. Nothing is written.
///
/// It is [`StoreFault::Damaged`] exactly where an entry is not its record's, and [`StoreFault::Device`] only where a call of
/// the disk failed; its only other fault is [`StoreFault::OutOfMemory`].
pub(crate) fn missing_in<D: Disk>(
    alloc: Global,
    sums: &mut D,
    records: &[Record],
) -> Result<Option<Vec<u8>>, StoreFault>
    ensures counted { CountsDevice result (D.failures sums.old) (D.failures sums.new) }
    ensures compared { IsTrue D.tells → ComparesAll result (D.content sums.old) (D.content sums.new) records.now }
    ensures reaches { IsTrue D.tells → IfOk result (λ missing. 24 * length records.now
        ≤ length (with_text (D.content sums.new) missing)) }
    ensures small { OnOk result (24 * length records.now < 2 ^ 64) }
{
    let found = all_bytes(alloc, sums)?;
    let entries = compared(alloc, found.as_slice(), records)?;
    let text = text_of(alloc, entries.as_slice())?;
    if begins_with(found.as_slice(), text.as_slice()) {
        return Ok(None);
    }
    Ok(Some(text))
}

/// Writes what is missing, and then an entry at this place.
pub(crate) fn enter<D: Disk>(
    sums: &mut D,
    missing: &mut Option<Vec<u8>>,
    place: usize,
    entry: &Entry,
) -> Result<(), DiskFailed>
    requires { IsTrue D.tells → place ≤ length (with_text (D.content sums.old) missing.old) }
    ensures counted { CountsFailure result (D.failures sums.old) (D.failures sums.new) }
    ensures limit { OnOk result (place + length entry.now < 2 ^ 63) }
    ensures entered { IsTrue D.tells → OnOk result (D.content sums.new
        ≡ written_at (with_text (D.content sums.old) missing.old) place entry.now) }
    ensures none { OnOk result (missing.new ≡ None) }
{
    if let Some(text) = missing.take() {
        sums.write_at(0, text.as_slice())?;
    }
    sums.write_at(place, entry)
}
