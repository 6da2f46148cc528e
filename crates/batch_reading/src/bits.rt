//! The bits of selected places.

ghost use Rattle.std.specs.Prelude.{◌≡◌, ℕ, ◌<◌, ◌≤◌, map, length, replicate, true, Some, IfOk};
ghost use Rattle.std.specs.List.{zip};
ghost use Rattle.bitmaps.specs.Bits.{bit_of, zeros};
ghost use Rattle.bitmaps.specs.Joined.{set_in_one};
ghost use Rattle.batch_types.specs.LaysOut.{values_limit};
ghost use Rattle.batch_columns.specs.Made.{validity_bytes};
ghost use Rattle.batch_reading.specs.Spots.{DoRun, places_of, HasMarks, spots_at, spots_of, IsSelection};
ghost use Rattle.batch_reading.specs.Taken.{is_shown, seen, bit_taken};

use crate::selection::{Run, Selection};
use bitmaps::Bitmap;
use std::alloc::{AllocError, Global};

/// The bits at the places of some runs.
fn run_bits(alloc: Global, bytes: &[u8], runs: &[Run]) -> Result<Bitmap, AllocError>
    requires { DoRun 0 values_limit runs.now }
    ensures { IfOk result (λ bits. bits ≡ map (bit_of bytes.now) (places_of runs.now)) }
{
    let mut bits = Bitmap::new(alloc);
    for run in runs {
        bits.extend_from(bytes, run.start, run.count)?;
    }
    Ok(bits)
}

/// These bits, which are set only where a mark is, and set bits where none is.
fn set_unmarked(alloc: Global, bits: &Bitmap, marks: &Bitmap) -> Result<Bitmap, AllocError>
    requires { length bits.now ≡ length marks.now }
    ensures { IfOk result
        (λ made. made ≡ set_in_one (set_in_one (replicate (length marks.now) true) marks.now) bits.now) }
{
    let mut made = Bitmap::new(alloc);
    made.push_run(true, marks.len())?;
    made.xor_with(marks);
    made.xor_with(bits);
    Ok(made)
}

/// The bits at the selected places, and the other bit where the cell is not marked.
fn marked_bits(
    alloc: Global,
    bytes: &[u8],
    selection: &Selection<'_>,
    marks: &Bitmap,
    other: bool,
) -> Result<Bitmap, AllocError>
    requires selection { (limit : ℕ) × IsSelection limit selection.now }
    requires marks { selection.now.there.now ≡ Some marks.now }
    ensures { IfOk result (λ bits. bits ≡ map (bit_taken bytes.now other) (spots_of selection.now)) }
{
    let mut bits = run_bits(alloc, bytes, selection.runs)?;
    bits.and_with(marks);
    if other {
        set_unmarked(alloc, &bits, marks)
    } else {
        Ok(bits)
    }
}

/// The bits at the selected places, and the other bit where the cell is not selected.
pub(crate) fn bits_taken(
    alloc: Global,
    bytes: &[u8],
    selection: &Selection<'_>,
    other: bool,
) -> Result<Bitmap, AllocError>
    requires { (limit : ℕ) × IsSelection limit selection.now }
    ensures { IfOk result (λ bits. bits ≡ map (bit_taken bytes.now other) (spots_of selection.now)) }
{
    match selection.there {
        Some(marks) => marked_bits(alloc, bytes, selection, marks, other),
        None => run_bits(alloc, bytes, selection.runs),
    }
}

/// Which of the selected cells are null, and which values are taken.
#[derive(Drop)]
pub(crate) struct SelectedValidity {
    /// The validity bitmap of the column that is built, no bytes where nothing is null.
    pub validity: Vec<u8>,
    /// How many cells are null.
    pub nulls: usize,
    /// Which values are taken, all where there is no bitmap.
    pub taken: Option<Bitmap>,
}

/// The same marks.
fn same_marks(marks: &Option<Bitmap>) -> Result<Option<Bitmap>, AllocError>
    ensures { IfOk result (λ copy. copy ≡ marks.now) }
{
    match marks {
        Some(bits) => Ok(Some(bits.clone()?)),
        None => Ok(None),
    }
}

/// The marks where all selected cells are valid.
fn without_nulls(
    alloc: Global,
    validity: &[u8],
    selection: &Selection<'_>,
) -> Result<SelectedValidity, AllocError>
    requires selection { (limit : ℕ) × IsSelection limit selection.now }
    requires valid { zeros (map (is_shown validity.now) (spots_of selection.now)) ≡ 0 }
    ensures validity { IfOk result (λ marks. marks.validity.items
        ≡ validity_bytes (map (is_shown validity.now) (spots_of selection.now))) }
    ensures nulls { IfOk result (λ marks. marks.nulls ≡ zeros (map (is_shown validity.now) (spots_of selection.now))) }
    ensures taken { IfOk result (λ marks. spots_at selection.now.runs.now selection.now.count marks.taken
        ≡ map (seen validity.now) (spots_of selection.now)) }
    ensures marked { IfOk result (λ marks. HasMarks selection.now.count marks.taken) }
{
    Ok(SelectedValidity {
        validity: Vec::new(alloc),
        nulls: 0,
        taken: same_marks(selection.there)?,
    })
}

/// The marks where so many of the selected cells are null.
fn with_nulls(
    alloc: Global,
    validity: &[u8],
    selection: &Selection<'_>,
    shown: Bitmap,
    nulls: usize,
) -> Result<SelectedValidity, AllocError>
    requires selection { (limit : ℕ) × IsSelection limit selection.now }
    requires some { (0 < length validity.now) × (0 < nulls) }
    requires shown { shown ≡ map (is_shown validity.now) (spots_of selection.now) }
    requires nulls { nulls ≡ zeros shown }
    ensures validity { IfOk result (λ marks. marks.validity.items
        ≡ validity_bytes (map (is_shown validity.now) (spots_of selection.now))) }
    ensures nulls { IfOk result (λ marks. marks.nulls ≡ zeros (map (is_shown validity.now) (spots_of selection.now))) }
    ensures taken { IfOk result (λ marks. spots_at selection.now.runs.now selection.now.count marks.taken
        ≡ map (seen validity.now) (spots_of selection.now)) }
    ensures marked { IfOk result (λ marks. HasMarks selection.now.count marks.taken) }
{
    Ok(SelectedValidity {
        taken: Some(bits_taken(alloc, validity, selection, false)?),
        validity: shown.into_bytes(),
        nulls,
    })
}

/// Which of the selected cells are null by this validity bitmap, and which values are taken.
pub(crate) fn marks_at(
    alloc: Global,
    validity: &[u8],
    selection: &Selection<'_>,
) -> Result<SelectedValidity, AllocError>
    requires { (limit : ℕ) × IsSelection limit selection.now }
    ensures validity { IfOk result (λ marks. marks.validity.items
        ≡ validity_bytes (map (is_shown validity.now) (spots_of selection.now))) }
    ensures nulls { IfOk result (λ marks. marks.nulls ≡ zeros (map (is_shown validity.now) (spots_of selection.now))) }
    ensures taken { IfOk result (λ marks. spots_at selection.now.runs.now selection.now.count marks.taken
        ≡ map (seen validity.now) (spots_of selection.now)) }
    ensures marked { IfOk result (λ marks. HasMarks selection.now.count marks.taken) }
{
    if validity.is_empty() {
        return without_nulls(alloc, validity, selection);
    }
    let shown = bits_taken(alloc, validity, selection, true)?;
    let nulls = shown.count_zeros();
    if nulls == 0 {
        return without_nulls(alloc, validity, selection);
    }
    with_nulls(alloc, validity, selection, shown, nulls)
}
