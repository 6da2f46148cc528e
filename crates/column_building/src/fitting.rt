//! Which cells are of which fields.

ghost use Rattle.std.specs.Prelude.{◌↔◌, Bool, IsTrue, map};
ghost use Rattle.std.specs.List.{AllByRecursion};
ghost use Rattle.batch_types.specs.Cells.{bit_cell, bytes_cell, cells_of};
ghost use Rattle.batch_types.specs.Shapes.{shape, no_shape};
ghost use Rattle.batch_types.specs.Typed.{IsCellOf, IsElementOf, AreFieldsOf, AllCells};
ghost use Rattle.batch_columns.specs.FieldShapes.{field_shapes};
ghost use Rattle.batch_columns.specs.Held.{layout_named};
ghost use Rattle.batch_cells.specs.CellViews.{cell_of};
ghost use Rattle.column_building.specs.Whole.{field_shape};
ghost use Rattle.column_building.specs.Kinds.{IsListOf, IsStruct};

use crate::fields::{fields_in, layout_in};
use batch_cells::Cell;
use batch_columns::Layout;
use header_types::Field;

/// Whether a bit is a value of this layout.
fn fits_bits(layout: Layout) -> bool
    ensures { (bit : Bool) → IsTrue result ↔ IsCellOf (shape (layout_named layout) no_shape) (bit_cell bit) }
{
    match layout {
        Layout::Bits => true,
        Layout::Null
        | Layout::Bytes { .. }
        | Layout::Binary
        | Layout::Utf8
        | Layout::List
        | Layout::FixedSizeList { .. }
        | Layout::Struct => false,
    }
}

/// Whether bytes are a value of this layout.
fn fits_bytes(layout: Layout, bytes: &[u8]) -> bool
    ensures { IsTrue result ↔ IsCellOf (shape (layout_named layout) no_shape) (bytes_cell bytes.now) }
{
    match layout {
        Layout::Bytes { size } => bytes.len() == size as usize,
        Layout::Binary => true,
        Layout::Utf8 => str::from_utf8(bytes).is_ok(),
        Layout::Null
        | Layout::Bits
        | Layout::List
        | Layout::FixedSizeList { .. }
        | Layout::Struct => false,
    }
}

/// Whether a list of so many elements is a value of this layout, the elements themselves aside.
fn fits_lists(layout: Layout, count: usize) -> bool
    ensures { IsTrue result ↔ IsListOf (layout_named layout) count }
{
    match layout {
        Layout::List => true,
        Layout::FixedSizeList { size } => count == size as usize,
        Layout::Null
        | Layout::Bits
        | Layout::Bytes { .. }
        | Layout::Binary
        | Layout::Utf8
        | Layout::Struct => false,
    }
}

/// Whether the values of this layout have fields.
fn fits_structs(layout: Layout) -> bool
    ensures { IsTrue result ↔ IsStruct (layout_named layout) }
{
    match layout {
        Layout::Struct => true,
        Layout::Null
        | Layout::Bits
        | Layout::Bytes { .. }
        | Layout::Binary
        | Layout::Utf8
        | Layout::List
        | Layout::FixedSizeList { .. } => false,
    }
}

/// Whether a cell is one of a field: a null, or a value of its type.
#[cycle(fitting)]
fn is_cell_of(field: &Field, cell: &Cell) -> bool
    ensures { IsTrue result ↔ IsCellOf (field_shape field.now) (cell_of cell.now) }
{
    let layout = layout_in(field);
    match cell {
        Cell::Null => true,
        Cell::Bit(_) => fits_bits(layout),
        Cell::Bytes(bytes) => fits_bytes(layout, bytes),
        Cell::List(cells) => {
            let cells = cells.as_slice();
            fits_lists(layout, cells.len()) && are_elements_of(fields_in(field), cells)
        }
        Cell::Tuple(cells) => fits_structs(layout) && are_fields_of(fields_in(field), cells),
    }
}

/// Whether the cells are of the first of these fields, the only one inside a list.
#[cycle(fitting)]
fn are_elements_of(fields: &[Field], cells: &[Cell]) -> bool
    ensures { IsTrue result ↔ AllCells (IsElementOf (field_shapes fields.now)) (cells_of (map cell_of cells.now)) }
{
    match fields {
        [field, ..] => are_cells_of(field, cells),
        [] => cells.is_empty(),
    }
}

/// Whether each of the cells is one of a field.
#[cycle(fitting)]
pub(crate) fn are_cells_of(field: &Field, cells: &[Cell]) -> bool
    ensures { IsTrue result ↔ AllByRecursion (IsCellOf (field_shape field.now)) (map cell_of cells.now) }
{
    for cell in cells {
        if !is_cell_of(field, cell) {
            return false;
        }
    }
    true
}

/// Whether the cells are one of each of these fields, in order.
#[cycle(fitting)]
fn are_fields_of(fields: &[Field], cells: &[Cell]) -> bool
    ensures { IsTrue result ↔ AreFieldsOf (field_shapes fields.now) (cells_of (map cell_of cells.now)) }
{
    if fields.len() != cells.len() {
        return false;
    }
    for index in 0..cells.len() {
        if !is_cell_of(&fields[index], &cells[index]) {
            return false;
        }
    }
    true
}
