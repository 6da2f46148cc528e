//! Values and elements of one run of places, of which none is left out.

ghost use Rattle.std.specs.Prelude.{◌≡◌, ℕ, ◌+◌, ◌-◌, ◌*◌, ◌<◌, ◌≤◌, None, IfSome, [], ◌∷◌, length, IfOk};
ghost use Rattle.std.specs.List.{range_with_len};
ghost use Rattle.batch_types.specs.LaysOut.{values_limit};
ghost use Rattle.batch_types.specs.Placed.{bytes_from, start_of};
ghost use Rattle.batch_reading.specs.OneRun.{offsets_from_zero, runs_from, AreElements};
ghost use Rattle.batch_reading.specs.Spots.{places_of};
ghost use Rattle.batch_reading.specs.Spread.{HasSpans};

use crate::plan::ChildSelection;
use crate::selection::{Run, Selection};
use crate::spans::part;
use batch_columns::{put_offset, start_at};
use std::alloc::{AllocError, Global};

/// The run that is selected, where it is the only one and no cell of it is left out.
pub(crate) fn contiguous_range(selection: &Selection<'_>) -> Option<Run>
    ensures runs { IfSome result (λ run. selection.now.runs.now ≡ run ∷ []) }
    ensures there { IfSome result (λ run. selection.now.there.now ≡ None) }
{
    match (selection.runs, selection.there) {
        ([run], None) => Some(*run),
        _ => None,
    }
}

/// The offsets of a run with this one, which is the first of them, taken off each.
fn moved_offsets(
    alloc: Global,
    offsets: &[u8],
    run: Run,
    first: usize,
) -> Result<Vec<u8>, AllocError>
    requires offsets { (limit : ℕ) × (total : ℕ) × HasSpans offsets.now limit total × (run.start + run.count ≤ limit) }
    requires long { 4 * (run.start + run.count) + 4 ≤ length offsets.now }
    requires some { 0 < run.count }
    requires first { first ≡ start_of 4 offsets.now run.start }
    ensures { IfOk result (λ made. made.items ≡ offsets_from_zero offsets.now run.start run.count) }
{
    let mut ends = Vec::new(alloc);
    for number in 0..run.count + 1 {
        put_offset(&mut ends, start_at(offsets, run.start + number) - first)?;
    }
    Ok(ends)
}

/// The offsets of a run, from 0 on.
fn run_offsets(alloc: Global, offsets: &[u8], run: Run, first: usize) -> Result<Vec<u8>, AllocError>
    requires offsets { (limit : ℕ) × (total : ℕ) × HasSpans offsets.now limit total × (run.start + run.count ≤ limit) }
    requires some { 0 < run.count }
    requires first { first ≡ start_of 4 offsets.now run.start }
    ensures { IfOk result (λ made. made.items ≡ offsets_from_zero offsets.now run.start run.count) }
{
    if first > 0 {
        return moved_offsets(alloc, offsets, run, first);
    }
    let start = 4 * run.start;
    Vec::from_slice(alloc, part(offsets, start, start + 4 * (run.count + 1)))
}

/// The offsets of the values of a run, from 0 on, and their bytes.
pub(crate) fn run_spans(
    alloc: Global,
    offsets: &[u8],
    bytes: &[u8],
    run: Run,
) -> Result<(Vec<u8>, Vec<u8>), AllocError>
    requires offsets { (limit : ℕ) × HasSpans offsets.now limit (length bytes.now) × (run.start + run.count ≤ limit) }
    requires some { 0 < run.count }
    ensures offsets { IfOk result (λ made. made.0.items ≡ offsets_from_zero offsets.now run.start run.count) }
    ensures bytes { IfOk result (λ made. made.1.items ≡ bytes_from bytes.now (start_of 4 offsets.now run.start)
        (start_of 4 offsets.now (run.start + run.count) - start_of 4 offsets.now run.start)) }
{
    let start = start_at(offsets, run.start);
    let end = start_at(offsets, run.start + run.count);
    let spans = Vec::from_slice(alloc, part(bytes, start, end))?;
    Ok((run_offsets(alloc, offsets, run, start)?, spans))
}

/// The run of so many places, none where there is no place.
fn run_of(alloc: Global, start: usize, count: usize) -> Result<Vec<Run>, AllocError>
    ensures { IfOk result (λ runs. runs.items ≡ runs_from start count) }
{
    let mut runs = Vec::new(alloc);
    if count > 0 {
        runs.push(Run { start, count })?;
    }
    Ok(runs)
}

/// The offsets of the lists of a run, from 0 on, and what is selected inside: their elements.
pub(crate) fn run_lists(
    alloc: Global,
    offsets: &[u8],
    run: Run,
) -> Result<(Vec<u8>, ChildSelection), AllocError>
    requires offsets { (limit : ℕ) × (total : ℕ) × HasSpans offsets.now limit total × (run.start + run.count ≤ limit) }
    requires some { 0 < run.count }
    ensures offsets { IfOk result (λ made. made.0.items ≡ offsets_from_zero offsets.now run.start run.count) }
    ensures inside { IfOk result (λ made. AreElements offsets.now run.start run.count made.1) }
{
    let start = start_at(offsets, run.start);
    let end = start_at(offsets, run.start + run.count);
    let inside = ChildSelection {
        count: end - start,
        runs: run_of(alloc, start, end - start)?,
        there: None,
    };
    Ok((run_offsets(alloc, offsets, run, start)?, inside))
}
