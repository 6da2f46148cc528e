//! The bytes of selected values that stand where offsets say.

ghost use Rattle.std.specs.Prelude.{◌≡◌, ℕ, ◌+◌, ◌-◌, ◌<◌, ◌≤◌, ◌++◌, [], map, length, IfOk, OnOk};
ghost use Rattle.std.specs.List.{flat_map};
ghost use Rattle.byteorder.specs.Endian.{little_bytes};
ghost use Rattle.batch_types.specs.Canonical.{offsets_of};
ghost use Rattle.batch_types.specs.Placed.{bytes_from, value_bytes};
ghost use Rattle.batch_reading.specs.Spots.{spots_of, IsSelection};
ghost use Rattle.batch_reading.specs.Spread.{HasSpans};
ghost use Rattle.batch_reading.specs.Taken.{span_taken};

use crate::one_run::{contiguous_range, run_spans};
use crate::selection::{Cursor, Selection, is_marked, next_place};
use batch_columns::{put_offset, start_at};
use std::alloc::{AllocError, Global};

/// A part of some bytes.
pub(crate) fn part(bytes: &[u8], start: usize, end: usize) -> &[u8]
    requires { (start ≤ end) × (end ≤ length bytes.now) }
    ensures { result.now ≡ bytes_from bytes.now start (end - start) }
{
    &bytes[start..end]
}

/// The bytes of the value at a place.
fn span<'a>(offsets: &[u8], bytes: &'a [u8], place: usize) -> &'a [u8]
    requires { (limit : ℕ) × HasSpans offsets.now limit (length bytes.now) × (place < limit) }
    ensures { result.now ≡ value_bytes 4 offsets.now bytes.now place }
{
    let start = start_at(offsets, place);
    let end = start_at(offsets, place + 1);
    part(bytes, start, end)
}

/// The bytes of the value at a place, or none.
fn span_or<'a>(offsets: &[u8], bytes: &'a [u8], place: usize, taken: bool) -> &'a [u8]
    requires { (limit : ℕ) × HasSpans offsets.now limit (length bytes.now) × (place < limit) }
    ensures { result.now ≡ span_taken offsets.now bytes.now (place, taken) }
{
    if taken {
        span(offsets, bytes, place)
    } else {
        &[]
    }
}

/// Appends the bytes of a value, and the offset where they end.
fn append_variable(
    offsets: &mut Vec<u8>,
    bytes: &mut Vec<u8>,
    more: &[u8],
) -> Result<(), AllocError>
    ensures bytes { OnOk result (bytes.new.items ≡ bytes.old.items ++ more.now) }
    ensures offsets { OnOk result
        (offsets.new.items ≡ offsets.old.items ++ little_bytes 4 (length (bytes.old.items ++ more.now))) }
{
    bytes.extend_from_slice(more)?;
    put_offset(offsets, bytes.len())
}

/// The offsets and the bytes of the selected values, no bytes where the value is not selected, one by one.
fn picked_spans(
    alloc: Global,
    offsets: &[u8],
    bytes: &[u8],
    selection: &Selection<'_>,
) -> Result<(Vec<u8>, Vec<u8>), AllocError>
    requires { (limit : ℕ) × IsSelection limit selection.now × HasSpans offsets.now limit (length bytes.now) }
    ensures offsets { IfOk result (λ made. made.0.items
        ≡ offsets_of 4 (map (λ spot. length (span_taken offsets.now bytes.now spot)) (spots_of selection.now))) }
    ensures bytes { IfOk result (λ made. made.1.items
        ≡ flat_map (span_taken offsets.now bytes.now) (spots_of selection.now)) }
{
    let mut ends = Vec::new(alloc);
    let mut spans = Vec::new(alloc);
    let mut cursor = Cursor::FIRST;
    put_offset(&mut ends, 0)?;
    for number in 0..selection.count {
        let place = next_place(selection.runs, &mut cursor);
        let taken = is_marked(selection.there, selection.count, number);
        let more = span_or(offsets, bytes, place, taken);
        append_variable(&mut ends, &mut spans, more)?;
    }
    Ok((ends, spans))
}

/// The offsets and the bytes of the selected values, no bytes where the value is not selected.
pub(crate) fn spans_taken(
    alloc: Global,
    offsets: &[u8],
    bytes: &[u8],
    selection: &Selection<'_>,
) -> Result<(Vec<u8>, Vec<u8>), AllocError>
    requires { (limit : ℕ) × IsSelection limit selection.now × HasSpans offsets.now limit (length bytes.now) }
    ensures offsets { IfOk result (λ made. made.0.items
        ≡ offsets_of 4 (map (λ spot. length (span_taken offsets.now bytes.now spot)) (spots_of selection.now))) }
    ensures bytes { IfOk result (λ made. made.1.items
        ≡ flat_map (span_taken offsets.now bytes.now) (spots_of selection.now)) }
{
    match contiguous_range(selection) {
        Some(run) => run_spans(alloc, offsets, bytes, run),
        None => picked_spans(alloc, offsets, bytes, selection),
    }
}
