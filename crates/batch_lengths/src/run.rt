//! A run of following places of a column.

ghost use Rattle.std.specs.Prelude.{◌≡◌, ◌+◌, ◌*◌, ◌<◌, ◌≤◌, ◌^◌, length, false, not};
ghost use Rattle.batch_types.specs.Placed.{start_of};
ghost use Rattle.batch_types.specs.LaysOut.{values_limit};
ghost use Rattle.batch_columns.specs.Held.{layout_named};
ghost use Rattle.batch_reading.specs.Taken.{valid_in};
ghost use Rattle.batch_lengths.specs.Along.{run_spots, source_spots};
ghost use Rattle.batch_lengths.specs.Counted.{has_null, span_total, IsCounted};
ghost use Rattle.batch_lengths.specs.Reach.{DoReach, ReadsTo, end_inside};

use crate::counted::Counted;
use batch_columns::{EncodedColumn, Layout, start_at};
use bitmaps::{bit, count_zeros};

/// Whether the value at a place is valid by a bitmap ("Validity bitmaps").
pub(crate) fn is_valid(validity: &[u8], place: usize) -> bool
    ensures { result ≡ valid_in validity.now place }
{
    validity.is_empty() || bit(validity, place)
}

/// Whether each value of a run is valid by a bitmap.
pub(crate) fn is_whole(validity: &[u8], start: usize, count: usize) -> bool
    requires { start + count ≤ values_limit }
    ensures { result ≡ not (has_null validity.now (run_spots start count)) }
{
    validity.is_empty() || count_zeros(validity, start, count) == 0
}

/// How many bytes or elements the values of a run have in all, by their offsets.
fn span_of(offsets: &[u8], start: usize, count: usize) -> usize
    requires some { 0 < count }
    requires reach { DoReach offsets.now (start + count) }
    ensures { result + start_of 4 offsets.now start ≡ start_of 4 offsets.now (start + count) }
{
    start_at(offsets, start + count) - start_at(offsets, start)
}

/// How many bytes or elements the values of a run have in all; none in layouts where all have as many.
fn length_of(source: &EncodedColumn, start: usize, count: usize) -> usize
    requires some { 0 < count }
    requires reads { ReadsTo source.now (start + count) }
    ensures { result ≡ span_total (layout_named source.now.layout) source.now.offsets.now (run_spots start count) }
{
    if source.layout.has_offsets() {
        span_of(source.offsets, start, count)
    } else {
        0
    }
}

/// What is counted of a run of values that are valid.
fn count_whole(source: &EncodedColumn, start: usize, count: usize) -> Counted
    requires some { 0 < count }
    requires reads { ReadsTo source.now (start + count) }
    requires whole { has_null source.now.validity.now (run_spots start count) ≡ false }
    ensures { IsCounted source.now (run_spots start count) result }
{
    Counted {
        has_null: false,
        total: length_of(source, start, count),
    }
}

/// What is counted of the value at a place.
pub(crate) fn count_one(source: &EncodedColumn, place: usize) -> Counted
    requires { ReadsTo source.now (place + 1) }
    ensures { IsCounted source.now (run_spots place 1) result }
{
    if is_valid(source.validity, place) {
        count_whole(source, place, 1)
    } else {
        Counted {
            has_null: true,
            total: 0,
        }
    }
}

/// What is counted of a run of values, one by one.
fn count_each(source: &EncodedColumn, start: usize, count: usize) -> Counted
    requires { ReadsTo source.now (start + count) }
    ensures { IsCounted source.now (run_spots start count) result }
{
    let mut counted = Counted::NONE;
    for place in start..start + count {
        counted = counted.with(count_one(source, place));
    }
    counted
}

/// What is counted of a run of values. Only where some of them are null and any number of bytes or elements stands under
/// those, they are looked at one by one.
pub(crate) fn count_run(source: &EncodedColumn, start: usize, count: usize) -> Counted
    requires some { 0 < count }
    requires reads { ReadsTo source.now (start + count) }
    ensures { IsCounted source.now (run_spots start count) result }
{
    if is_whole(source.validity, start, count) {
        return count_whole(source, start, count);
    }
    if source.layout.has_offsets() {
        return count_each(source, start, count);
    }
    Counted {
        has_null: true,
        total: 0,
    }
}

/// Where inside a column the places begin that belong to a run of values that are valid, and how many they are.
pub(crate) fn run_inside(source: &EncodedColumn, start: usize, count: usize) -> (usize, usize)
    requires some { 0 < count }
    requires reads { ReadsTo source.now (start + count) }
    requires whole { has_null source.now.validity.now (run_spots start count) ≡ false }
    ensures spots { source_spots source.now (run_spots start count) ≡ run_spots result.0 result.1 }
    ensures begin { result.0 ≡ end_inside (layout_named source.now.layout) source.now.offsets.now start }
    ensures end { result.0 + result.1
        ≡ end_inside (layout_named source.now.layout) source.now.offsets.now (start + count) }
{
    match source.layout {
        Layout::List => (
            start_at(source.offsets, start),
            span_of(source.offsets, start, count),
        ),
        Layout::FixedSizeList { size } => (size as usize * start, size as usize * count),
        Layout::Struct => (start, count),
        Layout::Null | Layout::Bits | Layout::Bytes { .. } | Layout::Binary | Layout::Utf8 => (
            0, 0,
        ),
    }
}
