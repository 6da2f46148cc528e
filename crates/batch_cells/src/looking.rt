//! The cells of a column, as plain values.

ghost use Rattle.std.specs.Prelude.{◌≡◌, ◌+◌, ◌-◌, ◌*◌, ◌≤◌, ◌<◌, List, map, length, true, false, IfOk, IsTrue};
ghost use Rattle.std.specs.List.{AllByRecursion, range_with_len};
ghost use Rattle.batch_types.specs.Cells.{null_cell, bit_cell, bytes_cell, list_cell, tuple_cell};
ghost use Rattle.batch_types.specs.Cells.{cells_of as cells_inside};
ghost use Rattle.batch_types.specs.Layouts.{list_layout, fixed_size_list_layout};
ghost use Rattle.batch_types.specs.Typed.{IsCellOf};
ghost use Rattle.batch_columns.specs.Contents.{Contents, layout_in, shapes_in};
ghost use Rattle.batch_columns.specs.Held.{shapes_held, elements_held};
ghost use Rattle.batch_columns.specs.Kept.{HaveInside};
ghost use Rattle.batch_cells.specs.CellViews.{cell_of};
ghost use Rattle.batch_cells.specs.Places.{cell_in, IsThere, is_flat};

use crate::cell::Cell;
use batch_columns::{Column, Layout, start_at};
use batch_types::laws::written_values_are_the_cells;
use std::alloc::{AllocError, Global};

/// Whether there is a cell of this row that is not null.
fn is_there(column: &Column, row: usize) -> bool
    ensures there { IsTrue result → IsThere column.now row }
    ensures blank { result ≡ false → cell_in column.now row ≡ null_cell }
{
    match column.is_null(row) {
        Some(null) => !null,
        None => false,
    }
}

/// The null.
fn null() -> Cell
    ensures { cell_of result ≡ null_cell }
{
    Cell::Null
}

/// The cell of a bit.
fn bit_of(bit: bool) -> Cell
    ensures { cell_of result ≡ bit_cell bit }
{
    Cell::Bit(bit)
}

/// The cell of these bytes.
fn bytes_of(bytes: Vec<u8>) -> Cell
    ensures { cell_of result ≡ bytes_cell bytes.items }
{
    Cell::Bytes(bytes)
}

/// The cell of a row, in a layout that has no column inside it.
fn flat_cell(alloc: Global, column: &Column, row: usize) -> Result<Cell, AllocError>
    requires flat { is_flat (layout_in column.now) ≡ true }
    requires fit { AllByRecursion (IsCellOf column.now.shape) column.now.cells }
    ensures { IfOk result (λ cell. cell_of cell ≡ cell_in column.now row) }
{
    if let Some(bit) = column.bit(row) {
        return Ok(bit_of(bit));
    }
    match column.bytes(row) {
        Some(bytes) => Ok(bytes_of(Vec::from_slice(alloc, bytes)?)),
        None => Ok(null()),
    }
}

/// Where the elements of a row that is there begin and end in the column inside, in the layout of lists.
fn list_span(column: &Column, row: usize) -> (usize, usize)
    requires list { layout_in column.now ≡ list_layout 4 }
    requires there { IsThere column.now row }
    ensures { (inside : List Contents) → HaveInside (layout_in column.now) column.now.cells inside
        → shapes_held inside ≡ shapes_in column.now
        → list_cell (elements_held inside (range_with_len result.0 (result.1 - result.0))) ≡ cell_in column.now row }
{
    written_values_are_the_cells();
    let offsets = column.offsets();
    (start_at(offsets, row), start_at(offsets, row + 1))
}

/// Where the elements of a row begin and end in the column of all elements, so many of each row.
fn block_span(elements: &Column, size: usize, row: usize) -> (usize, usize)
    requires { size * row + size ≤ length elements.now.cells }
    ensures start { result.0 ≡ size * row }
    ensures end { result.1 ≡ size * row + size }
{
    let end = elements.len();
    let start = size * row;
    (start, end.min(start + size))
}

/// A list of these elements.
fn list_of(cells: Vec<Cell>) -> Cell
    ensures { cell_of result ≡ list_cell (cells_inside (map cell_of cells.items)) }
{
    Cell::List(cells)
}

/// A struct's cell of these fields.
fn tuple_of(cells: Vec<Cell>) -> Cell
    ensures { cell_of result ≡ tuple_cell (cells_inside (map cell_of cells.items)) }
{
    Cell::Tuple(cells)
}

/// The cell of a row, null behind the last.
#[cycle(cell)]
fn cell_at(alloc: Global, column: &Column, row: usize) -> Result<Cell, AllocError>
    ensures { IfOk result (λ cell. cell_of cell ≡ cell_in column.now row) }
{
    written_values_are_the_cells();
    if !is_there(column, row) {
        return Ok(Cell::Null);
    }
    match column.layout() {
        Layout::List => {
            let (start, end) = list_span(column, row);
            list_at(alloc, column.inside(), start, end)
        }
        Layout::FixedSizeList { size } => block_at(alloc, column, size as usize, row),
        Layout::Struct => Ok(tuple_of(fields_at(alloc, column.inside(), row)?)),
        Layout::Null | Layout::Bits | Layout::Bytes { .. } | Layout::Binary | Layout::Utf8 => {
            flat_cell(alloc, column, row)
        }
    }
}

/// The list of the elements from this place up to that one, of the first of these columns.
#[cycle(cell)]
fn list_at(alloc: Global, columns: &[Column], start: usize, end: usize) -> Result<Cell, AllocError>
    ensures { IfOk result
        (λ cell. cell_of cell ≡ list_cell (elements_held columns.now (range_with_len start (end - start)))) }
{
    match columns {
        [elements, ..] => Ok(list_of(cells_between(alloc, elements, start, end)?)),
        [] => Ok(list_of(Vec::new(alloc))),
    }
}

/// The list of a row that is there, in the layout of lists of one size.
#[cycle(cell)]
fn block_at(alloc: Global, column: &Column, size: usize, row: usize) -> Result<Cell, AllocError>
    requires sized { layout_in column.now ≡ fixed_size_list_layout size }
    requires there { IsThere column.now row }
    ensures { IfOk result (λ cell. cell_of cell ≡ cell_in column.now row) }
{
    written_values_are_the_cells();
    // What it says of itself with its layout: each row that is not null has so many elements.
    let _ = column.layout();
    match column.inside() {
        [elements, ..] => {
            let (start, end) = block_span(elements, size, row);
            Ok(list_of(cells_between(alloc, elements, start, end)?))
        }
        [] => Ok(Cell::Null),
    }
}

/// The cells from this row up to that one.
#[cycle(cell)]
fn cells_between(
    alloc: Global,
    column: &Column,
    start: usize,
    end: usize,
) -> Result<Vec<Cell>, AllocError>
    ensures { IfOk result
        (λ cells. map cell_of cells.items ≡ map (cell_in column.now) (range_with_len start (end - start))) }
{
    let mut cells = Vec::new(alloc);
    for row in start..end {
        cells.push(cell_at(alloc, column, row)?)?;
    }
    Ok(cells)
}

/// The cell of this row of each of the columns.
#[cycle(cell)]
fn fields_at(alloc: Global, columns: &[Column], row: usize) -> Result<Vec<Cell>, AllocError>
    ensures { IfOk result (λ cells. map cell_of cells.items ≡ map (λ column. cell_in column row) columns.now) }
{
    let mut cells = Vec::new(alloc);
    for column in columns {
        cells.push(cell_at(alloc, column, row)?)?;
    }
    Ok(cells)
}

/// The cells of a column, one a row, with all that is inside them (Apache Arrow, "Arrow Columnar Format", "Physical
/// memory layout"). The only error is that memory is refused.
pub fn cells_of(alloc: Global, column: &Column) -> Result<Vec<Cell>, AllocError>
    ensures { IfOk result (λ cells. map cell_of cells.items ≡ column.now.cells) }
{
    cells_between(alloc, column, 0, column.len())
}
