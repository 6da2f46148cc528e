//! Columns without columns inside them.

ghost use Rattle.std.specs.Prelude.{◌≡◌, ◌≤◌, [], map, length, replicate, true, false, IfOk, IfErr, IsUtf8};
ghost use Rattle.std.specs.List.{AllByRecursion, list_all};
ghost use Rattle.batch_types.specs.Cells.{bit_cell, bytes_cell};
ghost use Rattle.batch_types.specs.LaysOut.{values_limit};
ghost use Rattle.batch_types.specs.Layouts.{bits_layout, bytes_layout, binary_layout, utf8_layout};
ghost use Rattle.batch_types.specs.Shapes.{shape, no_shape};
ghost use Rattle.batch_types.specs.Typed.{IsBit, AreBytes};
ghost use Rattle.batch_columns.specs.Made.{bit_or_null, bytes_or_null, has_size};
ghost use Rattle.batch_cells.specs.CellViews.{cell_of};
ghost use Rattle.column_building.specs.Slots.{slot_cell, slot_cells};
ghost use Rattle.column_building.specs.Built.{IsBuilt, IsCause};

use crate::fault::CellsFault;
use batch_cells::Cell;
use batch_columns::Column;
use std::alloc::{AllocError, Global};

/// The bit of a cell, none where it has none.
fn bit_in(cell: &Cell) -> Option<bool>
    requires { IsBit (cell_of cell.now) }
    ensures { bit_or_null result ≡ cell_of cell.now }
{
    match cell {
        Cell::Bit(bit) => Some(*bit),
        Cell::Null | Cell::Bytes(_) | Cell::List(_) | Cell::Tuple(_) => None,
    }
}

/// The bit of a slot, not set where it is blank, and none under a null.
fn bit_at(slot: &Option<&Cell>) -> Option<bool>
    requires { IsBit (slot_cell (bit_cell false) slot.now) }
    ensures { bit_or_null result ≡ slot_cell (bit_cell false) slot.now }
{
    match slot {
        Some(cell) => bit_in(cell),
        None => Some(false),
    }
}

/// The bits of some slots.
fn bits(alloc: Global, slots: &[Option<&Cell>]) -> Result<Vec<Option<bool>>, AllocError>
    requires { AllByRecursion IsBit (slot_cells (bit_cell false) slots.now) }
    ensures { IfOk result (λ made. map bit_or_null made.items ≡ slot_cells (bit_cell false) slots.now) }
{
    let mut made = Vec::new(alloc);
    for slot in slots {
        made.push(bit_at(slot))?;
    }
    Ok(made)
}

/// The column of bits.
pub(crate) fn bits_column(alloc: Global, slots: &[Option<&Cell>]) -> Result<Column, CellsFault>
    requires fit { AllByRecursion IsBit (slot_cells (bit_cell false) slots.now) }
    requires few { length slots.now ≤ values_limit }
    ensures built { IfOk result
        (λ column. IsBuilt (shape bits_layout no_shape) (slot_cells (bit_cell false) slots.now) column) }
    ensures cause { IfErr result
        (λ fault. IsCause (shape bits_layout no_shape) (slot_cells (bit_cell false) slots.now) fault) }
{
    let bits = bits(alloc, slots)?;
    Ok(Column::from_bits(alloc, &bits)?)
}

/// The bytes of a cell, none where it has none.
fn bytes_in(cell: &Cell) -> Option<&[u8]>
    requires { AreBytes (λ bytes. Unit {0}) (cell_of cell.now) }
    ensures { bytes_or_null result ≡ cell_of cell.now }
{
    match cell {
        Cell::Bytes(bytes) => Some(bytes),
        Cell::Null | Cell::Bit(_) | Cell::List(_) | Cell::Tuple(_) => None,
    }
}

/// The bytes of a slot, these where it is blank, and none under a null.
fn bytes_at<'a>(slot: &Option<&'a Cell>, blank: &'a [u8]) -> Option<&'a [u8]>
    requires { AreBytes (λ bytes. Unit {0}) (slot_cell (bytes_cell blank.now) slot.now) }
    ensures { bytes_or_null result ≡ slot_cell (bytes_cell blank.now) slot.now }
{
    match slot {
        Some(cell) => bytes_in(cell),
        None => Some(blank),
    }
}

/// The bytes of some slots, these where they are blank.
fn bytes<'a>(
    alloc: Global,
    slots: &[Option<&'a Cell>],
    blank: &'a [u8],
) -> Result<Vec<Option<&'a [u8]>>, AllocError>
    requires { AllByRecursion (AreBytes (λ bytes. Unit {0})) (slot_cells (bytes_cell blank.now) slots.now) }
    ensures { IfOk result (λ made. map bytes_or_null made.items ≡ slot_cells (bytes_cell blank.now) slots.now) }
{
    let mut made = Vec::new(alloc);
    for slot in slots {
        made.push(bytes_at(slot, blank))?;
    }
    Ok(made)
}

/// The column of bytes of any number.
pub(crate) fn binary_column(alloc: Global, slots: &[Option<&Cell>]) -> Result<Column, CellsFault>
    requires fit { AllByRecursion (AreBytes (λ bytes. Unit {0})) (slot_cells (bytes_cell []) slots.now) }
    requires few { length slots.now ≤ values_limit }
    ensures built { IfOk result
        (λ column. IsBuilt (shape (binary_layout 4) no_shape) (slot_cells (bytes_cell []) slots.now) column) }
    ensures cause { IfErr result
        (λ fault. IsCause (shape (binary_layout 4) no_shape) (slot_cells (bytes_cell []) slots.now) fault) }
{
    let bytes = bytes(alloc, slots, &[])?;
    Ok(Column::from_binary(alloc, &bytes)?)
}

/// So many zero bytes.
fn zeros(alloc: Global, size: usize) -> Result<Vec<u8>, AllocError>
    ensures { IfOk result (λ bytes. bytes.items ≡ replicate size 0) }
{
    let mut bytes = Vec::new(alloc);
    bytes.resize(size, 0)?;
    Ok(bytes)
}

/// So many zero bytes where one of the slots is blank, else none.
fn blank_bytes(alloc: Global, size: usize, slots: &[Option<&Cell>]) -> Result<Vec<u8>, AllocError>
    ensures { IfOk result (λ bytes. slot_cells (bytes_cell bytes.items) slots.now
        ≡ slot_cells (bytes_cell (replicate size 0)) slots.now) }
{
    for slot in slots {
        if slot.is_none() {
            return zeros(alloc, size);
        }
    }
    Ok(Vec::new(alloc))
}

/// The column of bytes, which are so many in each cell.
fn sized(alloc: Global, size: u32, cells: &[Option<&[u8]>]) -> Result<Column, AllocError>
    requires { list_all (has_size size) cells.now ≡ true }
    ensures shape { IfOk result (λ column. column.shape ≡ shape (bytes_layout size) no_shape) }
    ensures cells { IfOk result (λ column. column.cells ≡ map bytes_or_null cells.now) }
{
    match Column::from_sized(alloc, size, cells) {
        Ok(column) => Ok(column),
        Err(_) => Err(AllocError),
    }
}

/// The column of bytes, so many in each cell.
pub(crate) fn sized_column(
    alloc: Global,
    size: u32,
    slots: &[Option<&Cell>],
) -> Result<Column, CellsFault>
    requires fit { AllByRecursion (AreBytes (λ bytes. length bytes ≡ size))
        (slot_cells (bytes_cell (replicate size 0)) slots.now) }
    requires few { length slots.now ≤ values_limit }
    ensures built { IfOk result (λ column. IsBuilt (shape (bytes_layout size) no_shape)
        (slot_cells (bytes_cell (replicate size 0)) slots.now) column) }
    ensures cause { IfErr result (λ fault. IsCause (shape (bytes_layout size) no_shape)
        (slot_cells (bytes_cell (replicate size 0)) slots.now) fault) }
{
    let blank = blank_bytes(alloc, size as usize, slots)?;
    let bytes = bytes(alloc, slots, &blank)?;
    Ok(sized(alloc, size, &bytes)?)
}

/// The text of a cell, none where it has none.
fn text_in(cell: &Cell) -> Option<&str>
    requires { AreBytes IsUtf8 (cell_of cell.now) }
    ensures { bytes_or_null result ≡ cell_of cell.now }
{
    match cell {
        Cell::Bytes(bytes) => str::from_utf8(bytes).ok(),
        Cell::Null | Cell::Bit(_) | Cell::List(_) | Cell::Tuple(_) => None,
    }
}

/// The text of a slot, empty where it is blank, and none under a null.
fn text_at<'a>(slot: &Option<&'a Cell>) -> Option<&'a str>
    requires { AreBytes IsUtf8 (slot_cell (bytes_cell []) slot.now) }
    ensures { bytes_or_null result ≡ slot_cell (bytes_cell []) slot.now }
{
    match slot {
        Some(cell) => text_in(cell),
        None => Some(""),
    }
}

/// The texts of some slots.
fn texts<'a>(alloc: Global, slots: &[Option<&'a Cell>]) -> Result<Vec<Option<&'a str>>, AllocError>
    requires { AllByRecursion (AreBytes IsUtf8) (slot_cells (bytes_cell []) slots.now) }
    ensures { IfOk result (λ made. map bytes_or_null made.items ≡ slot_cells (bytes_cell []) slots.now) }
{
    let mut made = Vec::new(alloc);
    for slot in slots {
        made.push(text_at(slot))?;
    }
    Ok(made)
}

/// The column of texts.
pub(crate) fn texts_column(alloc: Global, slots: &[Option<&Cell>]) -> Result<Column, CellsFault>
    requires fit { AllByRecursion (AreBytes IsUtf8) (slot_cells (bytes_cell []) slots.now) }
    requires few { length slots.now ≤ values_limit }
    ensures built { IfOk result
        (λ column. IsBuilt (shape (utf8_layout 4) no_shape) (slot_cells (bytes_cell []) slots.now) column) }
    ensures cause { IfErr result
        (λ fault. IsCause (shape (utf8_layout 4) no_shape) (slot_cells (bytes_cell []) slots.now) fault) }
{
    let texts = texts(alloc, slots)?;
    Ok(Column::from_texts(alloc, &texts)?)
}
