//! The entries of all records.

ghost use Rattle.std.specs.Prelude.{◌≡◌, ◌++◌, IfOk, OnOk};
ghost use Rattle.record_sums.specs.Entering.{AreEntries, entries_text};

use crate::entry::{Entry, entry_of};
use ballots::{OutOfMemory, Record};
use std::alloc::{AllocError, Global};

/// An entry for each of these records. It takes 24 bytes a record, and the memory of one record's bytes at a time.
pub(crate) fn entries_of(alloc: Global, records: &[Record]) -> Result<Vec<Entry>, OutOfMemory>
    ensures { IfOk result (λ entries. AreEntries entries.items records.now) }
{
    let mut entries = Vec::with_capacity(alloc, records.len())?;
    for number in 0..records.len() {
        entries.push(entry_of(alloc, number, &records[number])?)?;
    }
    Ok(entries)
}

/// The bytes of entries, one behind the other.
pub(crate) fn text_of(alloc: Global, entries: &[Entry]) -> Result<Vec<u8>, AllocError>
    ensures { IfOk result (λ text. text.items ≡ entries_text entries.now) }
{
    let mut text = Vec::new(alloc);
    for entry in entries {
        append(&mut text, entry)?;
    }
    Ok(text)
}

fn append(text: &mut Vec<u8>, entry: &Entry) -> Result<(), AllocError>
    ensures { OnOk result (text.new.items ≡ text.old.items ++ entry.now) }
{
    text.extend_from_slice(entry)
}
