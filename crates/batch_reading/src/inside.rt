//! What is selected inside lists.

ghost use Rattle.std.specs.Prelude.{◌≡◌, ℕ, ◌+◌, ◌*◌, ◌<◌, ◌≤◌, ◌++◌, [], map, length};
ghost use Rattle.std.specs.Prelude.{replicate, slice_index_or, false, IfOk, OnOk};
ghost use Rattle.std.specs.List.{flat_map, range_with_len};
ghost use Rattle.byteorder.specs.Endian.{little_bytes};
ghost use Rattle.batch_types.specs.Canonical.{offsets_of};
ghost use Rattle.batch_types.specs.Layouts.{list_layout, fixed_size_list_layout};
ghost use Rattle.batch_types.specs.LaysOut.{values_limit};
ghost use Rattle.batch_types.specs.Placed.{start_of};
ghost use Rattle.batch_reading.specs.Gathered.{scaled, places_gathered, AreGathered};
ghost use Rattle.batch_reading.specs.Planned.{elements_taken, spots_inside, AreInside};
ghost use Rattle.batch_reading.specs.Spots.{DoRun, places_of, marks_of, HasMarks, spots_of, IsSelection};
ghost use Rattle.batch_reading.specs.Spread.{HasSpans};

use crate::one_run::{contiguous_range, run_lists};
use crate::plan::ChildSelection;
use crate::selection::{Cursor, Run, Selection, bit_at, is_marked, next_place};
use batch_columns::{put_offset, start_at};
use bitmaps::Bitmap;
use std::alloc::{AllocError, Global};

/// The runs with so many places for each of theirs.
fn scaled_runs(alloc: Global, size: usize, runs: &[Run]) -> Result<Vec<Run>, AllocError>
    requires { (limit : ℕ) × DoRun 0 limit runs.now × (size * limit ≤ values_limit) }
    ensures { IfOk result (λ made. made.items ≡ map (scaled size) runs.now) }
{
    let mut made = Vec::new(alloc);
    for run in runs {
        made.push(Run {
            start: size * run.start,
            count: size * run.count,
        })?;
    }
    Ok(made)
}

/// The bits with each so many times.
fn repeated_bits(alloc: Global, size: usize, bits: &Bitmap) -> Result<Bitmap, AllocError>
    ensures { IfOk result (λ made. made ≡ flat_map (replicate size) bits.now) }
{
    let mut made = Bitmap::new(alloc);
    for number in 0..bits.len() {
        made.push_run(bit_at(bits, number), size)?;
    }
    Ok(made)
}

/// The marks with each so many times.
fn repeated(
    alloc: Global,
    size: usize,
    marks: &Option<Bitmap>,
    count: usize,
) -> Result<Option<Bitmap>, AllocError>
    requires { HasMarks count marks.now }
    ensures marks { IfOk result (λ made. marks_of (size * count) made
        ≡ flat_map (replicate size) (marks_of count marks.now)) }
    ensures marked { IfOk result (λ made. HasMarks (size * count) made) }
{
    match marks {
        Some(bits) => Ok(Some(repeated_bits(alloc, size, bits)?)),
        None => Ok(None),
    }
}

/// What is selected inside a list of this size, which is not 0.
pub(crate) fn fixed_inside(
    alloc: Global,
    size: usize,
    selection: &Selection<'_>,
) -> Result<ChildSelection, AllocError>
    requires { (limit : ℕ) × IsSelection limit selection.now × (size * limit ≤ values_limit) × (0 < size) }
    ensures { IfOk result
        (λ inside. AreInside (spots_inside (fixed_size_list_layout size) [] (spots_of selection.now)) inside) }
{
    Ok(ChildSelection {
        count: size * selection.count,
        runs: scaled_runs(alloc, size, selection.runs)?,
        there: repeated(alloc, size, selection.there, selection.count)?,
    })
}

/// Places that are gathered one behind the other.
#[derive(Drop)]
struct Spans {
    /// The runs that are done.
    runs: Vec<Run>,
    /// The last run, which may become longer, or is empty.
    last: Run,
    /// How many places there are.
    count: usize,
}

/// Appends a run, if it is not empty.
fn close(runs: &mut Vec<Run>, last: Run) -> Result<(), AllocError>
    requires { DoRun 0 last.start runs.old.items }
    ensures places { OnOk result
        (places_of runs.new.items ≡ places_of runs.old.items ++ range_with_len last.start last.count) }
    ensures rising { OnOk result (DoRun 0 (last.start + last.count) runs.new.items) }
{
    if last.count == 0 {
        return Ok(());
    }
    runs.push(last)?;
    Ok(())
}

/// Appends following places, which lie behind the others, to the last run where they follow it.
fn put_places(spans: &mut Spans, start: usize, count: usize) -> Result<(), AllocError>
    requires kept { (end : ℕ) × AreGathered end spans.old × (end ≤ start) }
    requires within { start + count ≤ values_limit }
    ensures places { OnOk result
        (places_gathered spans.new ≡ places_gathered spans.old ++ range_with_len start count) }
    ensures kept { OnOk result (AreGathered (start + count) spans.new) }
{
    if spans.last.start + spans.last.count == start {
        spans.last.count += count;
        spans.count += count;
        return Ok(());
    }
    close(&mut spans.runs, spans.last)?;
    spans.last = Run { start, count };
    spans.count += count;
    Ok(())
}

/// Appends the places of the elements of the list at a place, where it is taken.
fn put_elements(
    spans: &mut Spans,
    offsets: &[u8],
    place: usize,
    taken: bool,
) -> Result<(), AllocError>
    requires offsets { (limit : ℕ) × (total : ℕ) × HasSpans offsets.now limit total × (place < limit)
        × (total ≤ values_limit) }
    requires kept { (end : ℕ) × AreGathered end spans.old × (end ≤ start_of 4 offsets.now place) }
    ensures places { OnOk result
        (places_gathered spans.new ≡ places_gathered spans.old ++ elements_taken offsets.now (place, taken)) }
    ensures kept { OnOk result (AreGathered (start_of 4 offsets.now (place + 1)) spans.new) }
{
    if !taken {
        return Ok(());
    }
    let start = start_at(offsets, place);
    let end = start_at(offsets, place + 1);
    if start == end {
        return Ok(());
    }
    put_places(spans, start, end - start)
}

/// Appends the places of the elements of the list at a place, where it is taken, and the offset where they end.
fn put_list(
    ends: &mut Vec<u8>,
    spans: &mut Spans,
    offsets: &[u8],
    place: usize,
    taken: bool,
) -> Result<(), AllocError>
    requires offsets { (limit : ℕ) × (total : ℕ) × HasSpans offsets.now limit total × (place < limit)
        × (total ≤ values_limit) }
    requires kept { (end : ℕ) × AreGathered end spans.old × (end ≤ start_of 4 offsets.now place) }
    ensures places { OnOk result
        (places_gathered spans.new ≡ places_gathered spans.old ++ elements_taken offsets.now (place, taken)) }
    ensures kept { OnOk result (AreGathered (start_of 4 offsets.now (place + 1)) spans.new) }
    ensures ends { OnOk result
        (ends.new.items ≡ ends.old.items ++ little_bytes 4 (length (places_gathered spans.new))) }
{
    put_elements(spans, offsets, place, taken)?;
    put_offset(ends, spans.count)
}

/// The offsets of the selected lists, and what is selected inside: the elements of those that are selected, list by list.
fn picked_lists(
    alloc: Global,
    offsets: &[u8],
    selection: &Selection<'_>,
) -> Result<(Vec<u8>, ChildSelection), AllocError>
    requires { (limit : ℕ) × (total : ℕ) × IsSelection limit selection.now × HasSpans offsets.now limit total
        × (total ≤ values_limit) }
    ensures offsets { IfOk result
        (λ made. made.0.items
        ≡ offsets_of 4 (map (λ spot. length (elements_taken offsets.now spot)) (spots_of selection.now))) }
    ensures inside { IfOk result
        (λ made. AreInside (spots_inside (list_layout 4) offsets.now (spots_of selection.now)) made.1) }
{
    let mut ends = Vec::new(alloc);
    let mut spans = Spans {
        runs: Vec::new(alloc),
        last: Run { start: 0, count: 0 },
        count: 0,
    };
    let mut cursor = Cursor::FIRST;
    put_offset(&mut ends, 0)?;
    for number in 0..selection.count {
        let place = next_place(selection.runs, &mut cursor);
        let taken = is_marked(selection.there, selection.count, number);
        put_list(&mut ends, &mut spans, offsets, place, taken)?;
    }
    let Spans {
        mut runs,
        last,
        count,
    } = spans;
    close(&mut runs, last)?;
    Ok((
        ends,
        ChildSelection {
            count,
            runs,
            there: None,
        },
    ))
}

/// The offsets of the selected lists, and what is selected inside: the elements of those that are selected.
pub(crate) fn lists_inside(
    alloc: Global,
    offsets: &[u8],
    selection: &Selection<'_>,
) -> Result<(Vec<u8>, ChildSelection), AllocError>
    requires { (limit : ℕ) × (total : ℕ) × IsSelection limit selection.now × HasSpans offsets.now limit total
        × (total ≤ values_limit) }
    ensures offsets { IfOk result
        (λ made. made.0.items
        ≡ offsets_of 4 (map (λ spot. length (elements_taken offsets.now spot)) (spots_of selection.now))) }
    ensures inside { IfOk result
        (λ made. AreInside (spots_inside (list_layout 4) offsets.now (spots_of selection.now)) made.1) }
{
    match contiguous_range(selection) {
        Some(run) => run_lists(alloc, offsets, run),
        None => picked_lists(alloc, offsets, selection),
    }
}
