//! Columns around the columns inside them.

ghost use Rattle.std.specs.Prelude.{◌≡◌, false, not, map, IfOk};
ghost use Rattle.bitmaps.specs.Bits.{zeros};
ghost use Rattle.batch_types.specs.Cells.{Cell as Seen};
ghost use Rattle.batch_types.specs.Canonical.{is_null as is_null_cell};
ghost use Rattle.batch_types.specs.Shapes.{shape};
ghost use Rattle.batch_columns.specs.Held.{layout_named, shapes_held};
ghost use Rattle.batch_columns.specs.Made.{validity_bytes};
ghost use Rattle.batch_cells.specs.CellViews.{cell_of};
ghost use Rattle.column_building.specs.Slots.{slot_there, slot_cells};
ghost use Rattle.column_building.specs.Built.{CanSurround};

use batch_cells::Cell;
use batch_columns::{Column, Layout};
use bitmaps::Bitmap;
use std::alloc::{AllocError, Global};

/// Whether a cell is not null.
fn has_value(cell: &Cell) -> bool
    ensures { result ≡ not (is_null_cell (cell_of cell.now)) }
{
    match cell {
        Cell::Null => false,
        Cell::Bit(_) | Cell::Bytes(_) | Cell::List(_) | Cell::Tuple(_) => true,
    }
}

/// Whether a slot is not null.
fn is_there(slot: &Option<&Cell>) -> bool
    ensures { result ≡ slot_there slot.now }
{
    match slot {
        Some(cell) => has_value(cell),
        None => true,
    }
}

/// Which of some slots are not null.
fn marks(alloc: Global, slots: &[Option<&Cell>]) -> Result<Bitmap, AllocError>
    ensures { IfOk result (λ bits. bits ≡ map slot_there slots.now) }
{
    let mut bits = Bitmap::new(alloc);
    for slot in slots {
        bits.push(is_there(slot))?;
    }
    Ok(bits)
}

/// The validity of some slots as it is written, and how many of them are null.
fn validity(alloc: Global, slots: &[Option<&Cell>]) -> Result<(Vec<u8>, usize), AllocError>
    ensures bytes { IfOk result (λ made. made.0.items ≡ validity_bytes (map slot_there slots.now)) }
    ensures nulls { IfOk result (λ made. made.1 ≡ zeros (map slot_there slots.now)) }
{
    let there = marks(alloc, slots)?;
    let nulls = there.count_zeros();
    if nulls == 0 {
        return Ok((Vec::new(alloc), 0));
    }
    Ok((there.into_bytes(), nulls))
}

/// The column of some slots around the columns inside it, with these offsets.
pub(crate) fn around(
    alloc: Global,
    layout: Layout,
    slots: &[Option<&Cell>],
    offsets: Vec<u8>,
    inside: Vec<Column>,
) -> Result<Column, AllocError>
    requires { (blank : Seen) × (is_null_cell blank ≡ false)
        × CanSurround (layout_named layout) (slot_cells blank slots.now) offsets.items inside.items }
    ensures shape { IfOk result (λ column. column.shape ≡ shape (layout_named layout) (shapes_held inside.items)) }
    ensures cells { IfOk result (λ column. (blank : Seen) → is_null_cell blank ≡ false
        → CanSurround (layout_named layout) (slot_cells blank slots.now) offsets.items inside.items
        → column.cells ≡ slot_cells blank slots.now) }
{
    let (validity, nulls) = validity(alloc, slots)?;
    Ok(Column::from_parts(
        layout,
        slots.len(),
        nulls,
        validity,
        offsets,
        Vec::new(alloc),
        inside,
    ))
}
