//! Whether texts are UTF-8.

ghost use Rattle.std.specs.Prelude.{◌≡◌, ◌↔◌, ◌+◌, ◌-◌, ◌*◌, ◌<◌, ◌≤◌, ℕ, IsTrue, length};
ghost use Rattle.std.specs.List.{AllByRecursion, range_with_len};
ghost use Rattle.std.specs.Str.{IsUtf8, IsCharBoundary};
ghost use Rattle.batch_types.specs.Placed.{bytes_from, start_of, value_bytes};
ghost use Rattle.batch_columns.specs.Held.{layout_named};
ghost use Rattle.batch_checking.specs.SourceRules.{AreSpreadWithin, TextsSpread};
ghost use Rattle.batch_checking.specs.Around.{Holds, IsValidAt, places_around, AreSteady, TextsHold};

use crate::around::belongs;
use crate::validity::is_valid;
use batch_columns::{EncodedColumn, Layout, start_at};
use header_types::MAX_DEPTH;
use simdutf8::basic::from_utf8;

/// The bytes of a run of some.
fn part(bytes: &[u8], start: usize, end: usize) -> &[u8]
    requires { (start ≤ end) × (end ≤ length bytes.now) }
    ensures { result.now ≡ bytes_from bytes.now start (end - start) }
{
    &bytes[start..end]
}

/// Whether some bytes are UTF-8.
fn is_utf8(bytes: &[u8]) -> bool
    ensures { IsTrue result ↔ IsUtf8 bytes.now }
{
    match from_utf8(bytes) {
        Ok(_) => true,
        Err(_) => false,
    }
}

/// Whether the text of a row that is there is UTF-8, by itself.
fn is_text(source: &EncodedColumn, row: usize) -> bool
    requires within { row < source.now.length }
    requires spread { AreSpreadWithin source.now.offsets.now source.now.length (length source.now.values.now) }
    ensures { IsTrue result ↔ IsUtf8 (value_bytes 4 source.now.offsets.now source.now.values.now row) }
{
    let start = start_at(source.offsets, row);
    let end = start_at(source.offsets, row + 1);
    is_utf8(part(source.values, start, end))
}

/// Whether a row that is there has no text, or one in UTF-8, or none that belongs to the batch.
fn is_fine(
    source: &EncodedColumn,
    rows: usize,
    around: &[EncodedColumn],
    row: usize,
    guesses: &mut [usize; MAX_DEPTH],
) -> bool
    requires within { row < source.now.length }
    requires spread { AreSpreadWithin source.now.offsets.now source.now.length (length source.now.values.now) }
    requires steady { AreSteady (range_with_len 0 rows) around.now }
    requires few { length around.now ≤ 16 }
    requires room { length guesses.old ≡ 16 }
    ensures room { length guesses.new ≡ 16 }
    ensures fine { IsTrue result ↔ (Holds (places_around (range_with_len 0 rows) around.now) row → IsValidAt source.now row
        → IsUtf8 (value_bytes 4 source.now.offsets.now source.now.values.now row)) }
{
    !is_valid(source, row) || is_text(source, row) || !belongs(rows, around, row, guesses)
}

/// Whether each text that belongs to the batch and is valid is UTF-8, one by one.
fn are_fine(source: &EncodedColumn, rows: usize, around: &[EncodedColumn]) -> bool
    requires spread { AreSpreadWithin source.now.offsets.now source.now.length (length source.now.values.now) }
    requires steady { AreSteady (range_with_len 0 rows) around.now }
    requires few { length around.now ≤ 16 }
    ensures { IsTrue result ↔ ((row : ℕ) → row < source.now.length
        → Holds (places_around (range_with_len 0 rows) around.now) row → IsValidAt source.now row
        → IsUtf8 (value_bytes 4 source.now.offsets.now source.now.values.now row)) }
{
    let mut guesses = [0; MAX_DEPTH];
    for row in 0..source.length {
        if !is_fine(source, rows, around, row, &mut guesses) {
            return false;
        }
    }
    true
}

/// Whether a character of a text begins at the offset of each of so many rows, and at the end of the last one.
fn are_boundaries(text: &str, offsets: &[u8], count: usize) -> bool
    requires { 4 * (count + 1) ≤ length offsets.now }
    ensures { IsTrue result → (row : ℕ) → row < count + 1 → IsCharBoundary text.now (start_of 4 offsets.now row) }
{
    for row in 0..count + 1 {
        if !text.is_char_boundary(start_at(offsets, row)) {
            return false;
        }
    }
    true
}

/// Whether the bytes of all texts are one text in UTF-8, of which each is a part that begins and ends between characters.
fn are_parts(source: &EncodedColumn) -> bool
    requires some { 0 < source.now.length }
    requires spread { AreSpreadWithin source.now.offsets.now source.now.length (length source.now.values.now) }
    ensures { IsTrue result → (row : ℕ) → row < source.now.length
        → IsUtf8 (value_bytes 4 source.now.offsets.now source.now.values.now row) }
{
    match from_utf8(source.values) {
        Ok(text) => are_boundaries(text, source.offsets, source.length),
        Err(_) => false,
    }
}

/// Whether each text that belongs to the batch and is valid is UTF-8. Most often all of them are, and are looked at
/// together; where they are not, each is looked at by itself.
fn are_texts(source: &EncodedColumn, rows: usize, around: &[EncodedColumn]) -> bool
    requires spread { AreSpreadWithin source.now.offsets.now source.now.length (length source.now.values.now) }
    requires steady { AreSteady (range_with_len 0 rows) around.now }
    requires few { length around.now ≤ 16 }
    ensures { IsTrue result ↔ ((row : ℕ) → row < source.now.length
        → Holds (places_around (range_with_len 0 rows) around.now) row → IsValidAt source.now row
        → IsUtf8 (value_bytes 4 source.now.offsets.now source.now.values.now row)) }
{
    if source.length > 0 && are_parts(source) {
        return true;
    }
    are_fine(source, rows, around)
}

/// The same of a column of any layout: only one of texts has texts.
pub(crate) fn has_texts(source: &EncodedColumn, rows: usize, around: &[EncodedColumn]) -> bool
    requires spread { TextsSpread (layout_named source.now.layout) source.now.length source.now.offsets.now
        source.now.values.now }
    requires steady { AreSteady (range_with_len 0 rows) around.now }
    requires few { length around.now ≤ 16 }
    requires within { AllByRecursion (λ row. row < source.now.length)
        (places_around (range_with_len 0 rows) around.now) }
    ensures { IsTrue result ↔ TextsHold (layout_named source.now.layout) source.now.validity.now source.now.offsets.now
        source.now.values.now (places_around (range_with_len 0 rows) around.now) }
{
    match source.layout {
        Layout::Utf8 => are_texts(source, rows, around),
        Layout::Null
        | Layout::Bits
        | Layout::Bytes { .. }
        | Layout::Binary
        | Layout::List
        | Layout::FixedSizeList { .. }
        | Layout::Struct => true,
    }
}
