//! What a column is built of, layout by layout.

ghost use Rattle.std.specs.Prelude.{◌≡◌, ℕ, ◌*◌, ◌≤◌, List, [], length, IfOk};
ghost use Rattle.batch_types.specs.Layouts.{null_layout, bits_layout, bytes_layout, list_layout, fixed_size_list_layout, struct_layout};
ghost use Rattle.batch_types.specs.LaysOut.{values_limit};
ghost use Rattle.batch_columns.specs.Held.{layout_named};
ghost use Rattle.batch_reading.specs.Planned.{spots_inside, AreInside, IsPlanned};
ghost use Rattle.batch_reading.specs.Spots.{spots_of, IsSelection};
ghost use Rattle.batch_reading.specs.Spread.{HasSpans, IsSpread, ReadsWithin};

use crate::bits::{SelectedValidity, bits_taken, marks_at};
use crate::blocks::blocks_taken;
use crate::inside::{fixed_inside, lists_inside};
use crate::selection::{Run, Selection};
use crate::spans::spans_taken;
use batch_columns::{EncodedColumn, Layout};
use bitmaps::Bitmap;
use std::alloc::{AllocError, Global};

/// The places that are selected of the columns inside a column.
#[derive(Drop)]
pub(crate) struct ChildSelection {
    /// How many there are.
    pub count: usize,
    /// The places, as runs that are not empty and lie behind one another.
    pub runs: Vec<Run>,
    /// Which of the cells there are selected, all where there is no bitmap.
    pub there: Option<Bitmap>,
}

impl ChildSelection {
    ghost use Rattle.std.specs.Prelude.{◌≡◌};

    /// The places, lent.
    pub fn selection(&self) -> Selection<'_>
        ensures count { result.count ≡ self.now.count }
        ensures runs { result.runs.now ≡ self.now.runs.items }
        ensures there { result.there.now ≡ self.now.there }
    {
        Selection {
            count: self.count,
            runs: self.runs.as_slice(),
            there: &self.there,
        }
    }
}

/// What a column is built of, its layout and the number of its cells aside.
#[derive(Drop)]
pub(crate) struct Plan {
    /// How many cells are null.
    pub nulls: usize,
    /// The validity bitmap, no bytes where nothing is null.
    pub validity: Vec<u8>,
    /// Where each value begins, and where the last one ends, in the layouts of variable size.
    pub offsets: Vec<u8>,
    /// The values, or the bytes that offsets lead into.
    pub values: Vec<u8>,
    /// What is selected of the columns inside.
    pub inside: ChildSelection,
}

/// Nothing inside.
fn nothing_inside(alloc: Global) -> ChildSelection
    ensures { AreInside [] result }
{
    ChildSelection {
        count: 0,
        runs: Vec::new(alloc),
        there: None,
    }
}

/// The plan in the layout `Null`. It takes no memory.
fn plan_nulls(alloc: Global, selection: &Selection<'_>) -> Plan
    requires { (limit : ℕ) × IsSelection limit selection.now }
    ensures { (validity offsets values : List ℕ)
        → IsPlanned null_layout validity offsets values (spots_of selection.now) result }
{
    Plan {
        nulls: selection.count,
        validity: Vec::new(alloc),
        offsets: Vec::new(alloc),
        values: Vec::new(alloc),
        inside: nothing_inside(alloc),
    }
}

/// The plan in the layout `Bits`.
fn plan_bits(
    alloc: Global,
    validity: &[u8],
    values: &[u8],
    selection: &Selection<'_>,
) -> Result<Plan, AllocError>
    requires { (limit : ℕ) × IsSelection limit selection.now }
    ensures { IfOk result (λ plan. (offsets : List ℕ)
        → IsPlanned bits_layout validity.now offsets values.now (spots_of selection.now) plan) }
{
    let SelectedValidity {
        validity,
        nulls,
        taken,
    } = marks_at(alloc, validity, selection)?;
    let valid = Selection {
        there: &taken,
        ..*selection
    };
    let bits = bits_taken(alloc, values, &valid, false)?;
    Ok(Plan {
        nulls,
        validity,
        offsets: Vec::new(alloc),
        values: bits.into_bytes(),
        inside: nothing_inside(alloc),
    })
}

/// The plan in the layout `Bytes` of this size.
fn plan_blocks(
    alloc: Global,
    size: u32,
    validity: &[u8],
    values: &[u8],
    selection: &Selection<'_>,
) -> Result<Plan, AllocError>
    requires { (limit : ℕ) × IsSelection limit selection.now × (size * limit ≤ length values.now) }
    ensures { IfOk result
        (λ plan. (offsets : List ℕ)
        → IsPlanned (bytes_layout size) validity.now offsets values.now (spots_of selection.now) plan) }
{
    let SelectedValidity {
        validity,
        nulls,
        taken,
    } = marks_at(alloc, validity, selection)?;
    let valid = Selection {
        there: &taken,
        ..*selection
    };
    Ok(Plan {
        nulls,
        validity,
        offsets: Vec::new(alloc),
        values: blocks_taken(alloc, size as usize, values, &valid)?,
        inside: nothing_inside(alloc),
    })
}

/// The plan in the layouts `Binary` and `Utf8`.
fn plan_spans(
    alloc: Global,
    layout: Layout,
    validity: &[u8],
    offsets: &[u8],
    values: &[u8],
    selection: &Selection<'_>,
) -> Result<Plan, AllocError>
    requires layout { IsSpread (layout_named layout) }
    requires selection { (limit : ℕ) × IsSelection limit selection.now
        × HasSpans offsets.now limit (length values.now) }
    ensures { IfOk result
        (λ plan. IsPlanned (layout_named layout) validity.now offsets.now values.now (spots_of selection.now) plan) }
{
    let SelectedValidity {
        validity,
        nulls,
        taken,
    } = marks_at(alloc, validity, selection)?;
    let valid = Selection {
        there: &taken,
        ..*selection
    };
    let (offsets, values) = spans_taken(alloc, offsets, values, &valid)?;
    Ok(Plan {
        nulls,
        validity,
        offsets,
        values,
        inside: nothing_inside(alloc),
    })
}

/// The same runs.
fn same_runs(alloc: Global, runs: &[Run]) -> Result<Vec<Run>, AllocError>
    ensures { IfOk result (λ copy. copy.items ≡ runs.now) }
{
    let mut copy = Vec::new(alloc);
    for run in runs {
        copy.push(*run)?;
    }
    Ok(copy)
}

/// The plan in the layout `Struct`.
fn plan_struct(
    alloc: Global,
    validity: &[u8],
    selection: &Selection<'_>,
) -> Result<Plan, AllocError>
    requires { (limit : ℕ) × IsSelection limit selection.now }
    ensures { IfOk result (λ plan. (offsets values : List ℕ)
        → IsPlanned struct_layout validity.now offsets values (spots_of selection.now) plan) }
{
    let SelectedValidity {
        validity,
        nulls,
        taken,
    } = marks_at(alloc, validity, selection)?;
    Ok(Plan {
        nulls,
        validity,
        offsets: Vec::new(alloc),
        values: Vec::new(alloc),
        inside: ChildSelection {
            count: selection.count,
            runs: same_runs(alloc, selection.runs)?,
            there: taken,
        },
    })
}

/// What is selected inside a list of this size.
fn sized_inside(
    alloc: Global,
    size: u32,
    selection: &Selection<'_>,
) -> Result<ChildSelection, AllocError>
    requires { (limit : ℕ) × IsSelection limit selection.now × (size * limit ≤ values_limit) }
    ensures { IfOk result
        (λ inside. AreInside (spots_inside (fixed_size_list_layout size) [] (spots_of selection.now)) inside) }
{
    if size == 0 {
        return Ok(nothing_inside(alloc));
    }
    fixed_inside(alloc, size as usize, selection)
}

/// The plan in the layout `FixedSizeList` of this size.
fn plan_sized_lists(
    alloc: Global,
    size: u32,
    validity: &[u8],
    selection: &Selection<'_>,
) -> Result<Plan, AllocError>
    requires { (limit : ℕ) × IsSelection limit selection.now × (size * limit ≤ values_limit) }
    ensures { IfOk result
        (λ plan. (offsets values : List ℕ)
        → IsPlanned (fixed_size_list_layout size) validity.now offsets values (spots_of selection.now) plan) }
{
    let SelectedValidity {
        validity,
        nulls,
        taken,
    } = marks_at(alloc, validity, selection)?;
    let valid = Selection {
        there: &taken,
        ..*selection
    };
    Ok(Plan {
        nulls,
        validity,
        offsets: Vec::new(alloc),
        values: Vec::new(alloc),
        inside: sized_inside(alloc, size, &valid)?,
    })
}

/// The plan in the layout `List`.
fn plan_lists(
    alloc: Global,
    validity: &[u8],
    offsets: &[u8],
    selection: &Selection<'_>,
) -> Result<Plan, AllocError>
    requires { (limit : ℕ) × (total : ℕ) × IsSelection limit selection.now × HasSpans offsets.now limit total
        × (total ≤ values_limit) }
    ensures { IfOk result (λ plan. (values : List ℕ)
        → IsPlanned (list_layout 4) validity.now offsets.now values (spots_of selection.now) plan) }
{
    let SelectedValidity {
        validity,
        nulls,
        taken,
    } = marks_at(alloc, validity, selection)?;
    let valid = Selection {
        there: &taken,
        ..*selection
    };
    let (offsets, inside) = lists_inside(alloc, offsets, &valid)?;
    Ok(Plan {
        nulls,
        validity,
        offsets,
        values: Vec::new(alloc),
        inside,
    })
}

/// The plan of the column of the selected cells of a source.
pub(crate) fn plan_column(
    alloc: Global,
    source: &EncodedColumn<'_>,
    selection: &Selection<'_>,
) -> Result<Plan, AllocError>
    requires { (limit : ℕ) × (total : ℕ) × IsSelection limit selection.now
        × ReadsWithin (layout_named source.now.layout) limit total source.now.offsets.now source.now.values.now }
    ensures { IfOk result (λ plan. IsPlanned (layout_named source.now.layout) source.now.validity.now
        source.now.offsets.now source.now.values.now (spots_of selection.now) plan) }
{
    let (validity, offsets, values) = (source.validity, source.offsets, source.values);
    match source.layout {
        Layout::Null => Ok(plan_nulls(alloc, selection)),
        Layout::Bits => plan_bits(alloc, validity, values, selection),
        Layout::Bytes { size } => plan_blocks(alloc, size, validity, values, selection),
        Layout::Binary => plan_spans(alloc, Layout::Binary, validity, offsets, values, selection),
        Layout::Utf8 => plan_spans(alloc, Layout::Utf8, validity, offsets, values, selection),
        Layout::List => plan_lists(alloc, validity, offsets, selection),
        Layout::FixedSizeList { size } => plan_sized_lists(alloc, size, validity, selection),
        Layout::Struct => plan_struct(alloc, validity, selection),
    }
}
