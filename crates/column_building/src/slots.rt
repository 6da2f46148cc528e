//! The cells that a column is built of, which are lent, and those that the columns inside it are built of.

ghost use Rattle.std.specs.Prelude.{◌≡◌, ◌↔◌, ◌<◌, ◌++◌, ℕ, [], map, length, replicate, None, IfOk, IfSome, IfNone};
ghost use Rattle.std.specs.Prelude.{OnOk, IsTrue};
ghost use Rattle.std.specs.List.{flat_map};
ghost use Rattle.byteorder.specs.Endian.{little_bytes};
ghost use Rattle.batch_types.specs.Cells.{Cell as Seen, null_cell, list_cell, tuple_cell, no_cell, cells_of};
ghost use Rattle.batch_types.specs.Canonical.{elements_or, field_or, elements_lengths, offsets_of};
ghost use Rattle.batch_types.specs.LaysOut.{values_limit};
ghost use Rattle.batch_cells.specs.CellViews.{cell_of};
ghost use Rattle.column_building.specs.Slots.{slot_cell, slot_cells, elements_seen, elements_count, elements_counted};

use batch_cells::Cell;
use batch_columns::{VALUES_LIMIT, put_offset};
use std::alloc::{AllocError, Global};

/// The cells as they are lent, none of them blank.
pub(crate) fn slots_of<'a>(
    alloc: Global,
    cells: &'a [Cell],
) -> Result<Vec<Option<&'a Cell>>, AllocError>
    ensures { IfOk result (λ slots. (blank : Seen) → slot_cells blank slots.items ≡ map cell_of cells.now) }
{
    let mut slots = Vec::new(alloc);
    put_cells(&mut slots, cells)?;
    Ok(slots)
}

/// Appends the cells.
fn put_cells<'a>(slots: &mut Vec<Option<&'a Cell>>, cells: &'a [Cell]) -> Result<(), AllocError>
    ensures { OnOk result ((blank : Seen) → slot_cells blank slots.new.items
        ≡ slot_cells blank slots.old.items ++ map cell_of cells.now) }
{
    for cell in cells {
        slots.push(Some(cell))?;
    }
    Ok(())
}

/// Appends so many blank cells.
fn put_blanks(slots: &mut Vec<Option<&Cell>>, count: usize) -> Result<(), AllocError>
    ensures { OnOk result ((blank : Seen) → slot_cells blank slots.new.items
        ≡ slot_cells blank slots.old.items ++ replicate count blank) }
{
    for _ in 0..count {
        slots.push(None)?;
    }
    Ok(())
}

/// The elements of a list, none for any other cell.
fn elements_in(cell: &Cell) -> Option<&[Cell]>
    ensures some { IfSome result (λ cells. cell_of cell.now ≡ list_cell (cells_of (map cell_of cells.now))) }
    ensures none { IfNone result (elements_seen (cell_of cell.now) ≡ None) }
{
    match cell {
        Cell::List(cells) => Some(cells.as_slice()),
        Cell::Null | Cell::Bit(_) | Cell::Bytes(_) | Cell::Tuple(_) => None,
    }
}

/// Appends the elements of a list, or so many blank ones for any other cell.
fn put_elements<'a>(
    slots: &mut Vec<Option<&'a Cell>>,
    cell: &'a Cell,
    size: usize,
) -> Result<(), AllocError>
    ensures { OnOk result ((blank : Seen) → slot_cells blank slots.new.items
        ≡ slot_cells blank slots.old.items ++ elements_or (replicate size blank) (cell_of cell.now)) }
{
    match elements_in(cell) {
        Some(cells) => put_cells(slots, cells),
        None => put_blanks(slots, size),
    }
}

/// Appends the elements of the list in a slot, or so many blank ones where there is none.
fn put_list<'a>(
    slots: &mut Vec<Option<&'a Cell>>,
    slot: &Option<&'a Cell>,
    size: usize,
) -> Result<(), AllocError>
    ensures { OnOk result ((blank : Seen) → slot_cells blank slots.new.items ≡ slot_cells blank slots.old.items
        ++ elements_or (replicate size blank) (slot_cell (list_cell (cells_of (replicate size blank))) slot.now)) }
{
    match slot {
        Some(cell) => put_elements(slots, cell, size),
        None => put_blanks(slots, size),
    }
}

/// Appends the elements of the list in a slot, and the offset where they end.
fn append_variable<'a>(
    offsets: &mut Vec<u8>,
    elements: &mut Vec<Option<&'a Cell>>,
    slot: &Option<&'a Cell>,
) -> Result<(), AllocError>
    ensures elements { OnOk result ((blank : Seen) → slot_cells blank elements.new.items
        ≡ slot_cells blank elements.old.items ++ elements_or [] (slot_cell (list_cell no_cell) slot.now)) }
    ensures offsets { OnOk result
        (offsets.new.items ≡ offsets.old.items ++ little_bytes 4 (length elements.new.items)) }
{
    put_list(elements, slot, 0)?;
    put_offset(offsets, elements.len())
}

/// The offsets and the elements of some lists, none where there is no list.
pub(crate) fn spans<'a>(
    alloc: Global,
    slots: &[Option<&'a Cell>],
) -> Result<(Vec<u8>, Vec<Option<&'a Cell>>), AllocError>
    ensures offsets { IfOk result
        (λ made. made.0.items ≡ offsets_of 4 (elements_lengths (slot_cells (list_cell no_cell) slots.now))) }
    ensures elements { IfOk result (λ made. (blank : Seen) → slot_cells blank made.1.items
        ≡ flat_map (elements_or []) (slot_cells (list_cell no_cell) slots.now)) }
{
    let mut offsets = Vec::new(alloc);
    let mut elements = Vec::new(alloc);
    put_offset(&mut offsets, 0)?;
    for slot in slots {
        append_variable(&mut offsets, &mut elements, slot)?;
    }
    Ok((offsets, elements))
}

/// The elements of some lists of one size, so many blank ones where there is no list.
pub(crate) fn blocks<'a>(
    alloc: Global,
    size: usize,
    slots: &[Option<&'a Cell>],
) -> Result<Vec<Option<&'a Cell>>, AllocError>
    ensures { IfOk result (λ made. (blank : Seen) → slot_cells blank made.items
        ≡ flat_map (elements_or (replicate size blank))
        (slot_cells (list_cell (cells_of (replicate size blank))) slots.now)) }
{
    let mut elements = Vec::new(alloc);
    for slot in slots {
        put_list(&mut elements, slot, size)?;
    }
    Ok(elements)
}

/// How many elements a list has, or so many for any other cell.
fn count_in(cell: &Cell, size: usize) -> usize
    ensures { result ≡ length (elements_or (replicate size null_cell) (cell_of cell.now)) }
{
    match elements_in(cell) {
        Some(cells) => cells.len(),
        None => size,
    }
}

/// How many elements the list in a slot has, or so many where there is none.
fn count_at(slot: &Option<&Cell>, size: usize) -> usize
    ensures { result ≡ elements_count size slot.now }
{
    match slot {
        Some(cell) => count_in(cell, size),
        None => size,
    }
}

/// Whether some lists have more elements in all than a column may have values, so many where there is no list.
pub(crate) fn are_many(size: usize, slots: &[Option<&Cell>]) -> bool
    ensures { IsTrue result ↔ (values_limit < elements_counted size slots.now) }
{
    let mut total = 0;
    for slot in slots {
        let more = count_at(slot, size);
        if VALUES_LIMIT - total < more {
            return true;
        }
        total += more;
    }
    false
}

/// The fields of a struct's cell, none for any other cell.
fn fields_of(cell: &Cell) -> Option<&[Cell]>
    ensures some { IfSome result (λ cells. cell_of cell.now ≡ tuple_cell (cells_of (map cell_of cells.now))) }
    ensures none { IfNone result ((blank : Seen) (index : ℕ) → field_or blank index (cell_of cell.now) ≡ blank) }
{
    match cell {
        Cell::Tuple(cells) => Some(cells.as_slice()),
        Cell::Null | Cell::Bit(_) | Cell::Bytes(_) | Cell::List(_) => None,
    }
}

/// Field `index` of a struct's cell, blank for any other cell.
fn field_in(cell: &Cell, index: usize) -> Option<&Cell>
    ensures { (blank : Seen) → slot_cell blank result ≡ field_or blank index (cell_of cell.now) }
{
    match fields_of(cell) {
        Some(cells) => cells.get(index),
        None => None,
    }
}

/// Field `index` of the struct's cell in a slot, blank where there is none.
fn field_at<'a>(slot: &Option<&'a Cell>, index: usize) -> Option<&'a Cell>
    ensures { (blank whole : Seen) → field_or blank index whole ≡ blank
        → slot_cell blank result ≡ field_or blank index (slot_cell whole slot.now) }
{
    match slot {
        Some(cell) => field_in(cell, index),
        None => None,
    }
}

/// Field `index` of the cells of structs, blank where there is none.
pub(crate) fn fields_at<'a>(
    alloc: Global,
    index: usize,
    slots: &[Option<&'a Cell>],
) -> Result<Vec<Option<&'a Cell>>, AllocError>
    ensures { IfOk result (λ made. (blank whole : Seen) → field_or blank index whole ≡ blank
        → slot_cells blank made.items ≡ map (field_or blank index) (slot_cells whole slots.now)) }
{
    let mut fields = Vec::new(alloc);
    for slot in slots {
        fields.push(field_at(slot, index))?;
    }
    Ok(fields)
}
