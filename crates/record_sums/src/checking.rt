//! Entries of a file beside those that are due.

ghost use Rattle.std.specs.Prelude.{◌≡◌, ◌↔◌, ◌<◌, ◌/◌, ℕ, Some, None, IsTrue, IfOk, MatchOption, length, option_map, slice_get};
ghost use Rattle.record_sums.specs.Sums.{Fits, IsFirstMisfit, bytes_at};
ghost use Rattle.record_sums.specs.Checking.{IsWrong, IsWrongAt};

use crate::entering::entries_of;
use crate::entry::{ENTRY_BYTES, Entry, is_entry};
use ballots::{OutOfMemory, Record};
use std::alloc::Global;

/// The number of the first entry of these bytes that is not its record's: another's, or one of a record that is not there.
/// It is `None` exactly where the entries are those of these records, each that there is.
///
/// It takes 24 bytes a record, and the memory of one record's bytes at a time.
pub fn first_misfit(
    alloc: Global,
    sums: &[u8],
    records: &[Record],
) -> Result<Option<usize>, OutOfMemory>
    ensures { IfOk result (λ found. MatchOption found (Fits sums.now records.now) (IsFirstMisfit sums.now records.now)) }
{
    let entries = entries_of(alloc, records)?;
    Ok(first_wrong(sums, entries.as_slice()))
}

/// The number of the first entry of these bytes that is not the one which is due.
pub(crate) fn first_wrong(sums: &[u8], entries: &[Entry]) -> Option<usize>
    ensures none { result ≡ None → (number : ℕ) → IsWrongAt sums.now entries.now number → ⊥ }
    ensures first { (number : ℕ) → result ≡ Some number → IsWrongAt sums.now entries.now number }
    ensures before { (number other : ℕ) → result ≡ Some number → other < number → IsWrongAt sums.now entries.now other → ⊥ }
{
    for number in 0..sums.len() / ENTRY_BYTES {
        if is_wrong_at(sums, entries, number) {
            return Some(number);
        }
    }
    None
}

// Whether the entry of this number is not the one that is due.
fn is_wrong_at(sums: &[u8], entries: &[Entry], number: usize) -> bool
    requires { number < length sums.now / 24 }
    ensures { IsTrue result ↔ IsWrongAt sums.now entries.now number }
{
    is_wrong(number, bytes_at(sums, number), due_at(entries, number))
}

// The entry that is due at this number.
fn due_at(entries: &[Entry], number: usize) -> Option<&Entry>
    ensures { option_map (λ entry. entry.now) result ≡ slice_get entries.now number }
{
    entries.get(number)
}

// The bytes that the entry of this number takes.
fn bytes_at(sums: &[u8], number: usize) -> &[u8]
    requires { number < length sums.now / 24 }
    ensures { result.now ≡ bytes_at sums.now number }
{
    let (_, rest) = sums.split_at(number * ENTRY_BYTES);
    let (found, _) = rest.split_at(ENTRY_BYTES);
    found
}

// Whether an entry of this number is found which is not the one that is due.
fn is_wrong(number: usize, found: &[u8], due: Option<&Entry>) -> bool
    ensures { IsTrue result ↔ IsWrong number found.now (option_map (λ entry. entry.now) due.entry) }
{
    match due {
        Some(entry) if found == entry.as_slice() => false,
        _ => is_entry(number, found),
    }
}
