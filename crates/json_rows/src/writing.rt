//! The text of cells.

ghost use Rattle.std.specs.List.{AllZip};
ghost use Rattle.std.specs.Prelude.{◌≡◌, ◌↔◌, suc, List, length, map, OnOk, OnErr, IfErr, IfSome, IfNone, IsTrue};
ghost use Rattle.serde_json.specs.Data.{Data};
ghost use Rattle.header_types.specs.Views.{tree_of};
ghost use Rattle.header_types.specs.Limits.{tree_depth, forest_depth};
ghost use Rattle.batch_types.specs.Cells.{Cell as Seen, null_cell, list_cell, tuple_cell, cells_of};
ghost use Rattle.batch_cells.specs.CellViews.{cell_of as seen};
ghost use Rattle.json_rows.specs.declared.fault.CellFault.TheVariants.{OutOfMemory};
ghost use Rattle.json_rows.specs.Cells.{TellsCell, TellsElement, TellsElements, TellsFields, TellsForm, TellsMembers, forest_in};
ghost use Rattle.json_rows.specs.Written.{GoesOn, WritesValue, WritesElements, WritesMembers, WritesMember, HasOwnNames, HaveOwnNames};

use crate::fault::CellFault;
use crate::flat_writing::write_flat;
use crate::form::{Form, form_of};
use crate::tokens::put_null;
use batch_cells::Cell;
use header_types::Field;
use json::Writer;
use std::alloc::Global;

/// Whether the cell is a null.
fn is_null(cell: &Cell) -> bool
    ensures { IsTrue result ↔ (seen cell.now ≡ null_cell) }
{
    matches!(cell, Cell::Null)
}

/// The elements of a list, where the cell is one.
fn elements_in(cell: &Cell) -> Option<&[Cell]>
    ensures some { IfSome result (λ cells. seen cell.now ≡ list_cell (cells_of (map seen cells.now))) }
    ensures none { IfNone result ((cells : List Seen) → seen cell.now ≡ list_cell (cells_of cells) → ⊥) }
{
    match cell {
        Cell::List(cells) => Some(cells.as_slice()),
        Cell::Null | Cell::Bit(_) | Cell::Bytes(_) | Cell::Tuple(_) => None,
    }
}

/// The fields of a struct, where the cell is one.
fn fields_in(cell: &Cell) -> Option<&[Cell]>
    ensures some { IfSome result (λ cells. seen cell.now ≡ tuple_cell (cells_of (map seen cells.now))) }
    ensures none { IfNone result ((cells : List Seen) → seen cell.now ≡ tuple_cell (cells_of cells) → ⊥) }
{
    match cell {
        Cell::Tuple(cells) => Some(cells.as_slice()),
        Cell::Null | Cell::Bit(_) | Cell::Bytes(_) | Cell::List(_) => None,
    }
}

/// Writes the value that tells a cell of a field, after what `out` holds: a null where the cell is one and the field may
/// have one, else a value of the field's form. The names of the fields inside it have to differ, side by side. It is
/// refused exactly where no value tells the cell, memory apart; then a part of its text may stand behind
/// what `out` held.
#[cycle(writing)]
pub fn write_cell(
    alloc: Global,
    out: &mut Writer,
    field: &Field,
    cell: &Cell,
) -> Result<(), CellFault>
    requires names { HasOwnNames (tree_of field.now) }
    ensures written { OnOk result (WritesValue (λ d. TellsCell (tree_of field.now) d (seen cell.now))
        (tree_depth (tree_of field.now)) out.old.tokens out.new.tokens) }
    ensures refused { (d : Data) → TellsCell (tree_of field.now) d (seen cell.now)
        → IfErr result (λ fault. fault ≡ OutOfMemory) }
    ensures before { out.new.before ≡ out.old.before }
    ensures begun { OnErr result (GoesOn out.old.tokens out.new.tokens) }
{
    if !is_null(cell) {
        return write_form(
            alloc,
            out,
            form_of(&field.ty),
            field.children.as_slice(),
            cell,
        );
    }
    if field.nullable {
        Ok(put_null(out)?)
    } else {
        Err(CellFault::NullValue)
    }
}

/// Writes the value that tells a cell in a form, with these fields inside it.
#[cycle(writing)]
fn write_form(
    alloc: Global,
    out: &mut Writer,
    form: Form,
    fields: &[Field],
    cell: &Cell,
) -> Result<(), CellFault>
    requires names { HaveOwnNames (forest_in fields.now) }
    ensures written { OnOk result (WritesValue (λ d. TellsForm form (TellsElement (forest_in fields.now))
        (TellsFields (forest_in fields.now)) d (seen cell.now)) (suc (forest_depth (forest_in fields.now)))
        out.old.tokens out.new.tokens) }
    ensures refused { (d : Data) → TellsForm form (TellsElement (forest_in fields.now))
        (TellsFields (forest_in fields.now)) d (seen cell.now) → IfErr result (λ fault. fault ≡ OutOfMemory) }
    ensures before { out.new.before ≡ out.old.before }
    ensures begun { OnErr result (GoesOn out.old.tokens out.new.tokens) }
{
    match form {
        Form::List => match elements_in(cell) {
            Some(cells) => write_elements(alloc, out, fields, cells),
            None => Err(CellFault::WrongKind),
        },
        Form::SizedList { size } => match elements_in(cell) {
            Some(cells) if cells.len() == size as usize => {
                write_elements(alloc, out, fields, cells)
            }
            Some(_) | None => Err(CellFault::WrongKind),
        },
        Form::Struct => match fields_in(cell) {
            Some(cells) => write_members(alloc, out, fields, cells),
            None => Err(CellFault::WrongKind),
        },
        Form::Null
        | Form::Bool
        | Form::Whole { .. }
        | Form::Single
        | Form::Double
        | Form::Text
        | Form::Bytes
        | Form::SizedBytes { .. }
        | Form::Unsupported => write_flat(alloc, out, form, cell),
    }
}

/// Writes an array of these cells, of the first of these fields.
#[cycle(writing)]
fn write_elements(
    alloc: Global,
    out: &mut Writer,
    fields: &[Field],
    cells: &[Cell],
) -> Result<(), CellFault>
    requires names { HaveOwnNames (forest_in fields.now) }
    ensures written { OnOk result (WritesValue (λ d. TellsElements (TellsElement (forest_in fields.now)) d
        (map seen cells.now)) (suc (forest_depth (forest_in fields.now))) out.old.tokens out.new.tokens) }
    ensures refused { (d : Data) → TellsElements (TellsElement (forest_in fields.now)) d (map seen cells.now)
        → IfErr result (λ fault. fault ≡ OutOfMemory) }
    ensures before { out.new.before ≡ out.old.before }
    ensures begun { OnErr result (GoesOn out.old.tokens out.new.tokens) }
{
    out.begin_array()?;
    match fields {
        [field, ..] => write_each(alloc, out, field, cells),
        [] if cells.is_empty() => Ok(out.end_array()?),
        [] => Err(CellFault::WrongKind),
    }
}

/// Writes these cells of a field and the bracket that closes their array.
#[cycle(writing)]
fn write_each(
    alloc: Global,
    out: &mut Writer,
    field: &Field,
    cells: &[Cell],
) -> Result<(), CellFault>
    requires names { HasOwnNames (tree_of field.now) }
    ensures written { OnOk result (WritesElements (TellsCell (tree_of field.now)) (tree_depth (tree_of field.now))
        (map seen cells.now) out.old.tokens out.new.tokens) }
    ensures refused { (values : List Data) → AllZip (TellsCell (tree_of field.now)) values (map seen cells.now)
        → IfErr result (λ fault. fault ≡ OutOfMemory) }
    ensures before { out.new.before ≡ out.old.before }
    ensures begun { OnErr result (GoesOn out.old.tokens out.new.tokens) }
{
    for cell in cells {
        write_cell(alloc, out, field, cell)?;
    }
    Ok(out.end_array()?)
}

/// Writes an object with a member for each of these fields.
#[cycle(writing)]
fn write_members(
    alloc: Global,
    out: &mut Writer,
    fields: &[Field],
    cells: &[Cell],
) -> Result<(), CellFault>
    requires names { HaveOwnNames (forest_in fields.now) }
    ensures written { OnOk result (WritesValue (λ d. TellsFields (forest_in fields.now) d (map seen cells.now))
        (suc (forest_depth (forest_in fields.now))) out.old.tokens out.new.tokens) }
    ensures refused { (d : Data) → TellsFields (forest_in fields.now) d (map seen cells.now)
        → IfErr result (λ fault. fault ≡ OutOfMemory) }
    ensures before { out.new.before ≡ out.old.before }
    ensures begun { OnErr result (GoesOn out.old.tokens out.new.tokens) }
{
    if fields.len() != cells.len() {
        return Err(CellFault::WrongKind);
    }
    out.begin_object()?;
    write_each_member(alloc, out, fields, cells)
}

/// Writes a member for each of these fields and the bracket that closes their object.
#[cycle(writing)]
fn write_each_member(
    alloc: Global,
    out: &mut Writer,
    fields: &[Field],
    cells: &[Cell],
) -> Result<(), CellFault>
    requires names { HaveOwnNames (forest_in fields.now) }
    requires counts { length cells.now ≡ length fields.now }
    ensures written { OnOk result (WritesMembers (forest_in fields.now) (map seen cells.now) out.old.tokens
        out.new.tokens) }
    ensures refused { (d : Data) → TellsMembers (forest_in fields.now) d (map seen cells.now)
        → IfErr result (λ fault. fault ≡ OutOfMemory) }
    ensures before { out.new.before ≡ out.old.before }
    ensures begun { OnErr result (GoesOn out.old.tokens out.new.tokens) }
{
    for index in 0..fields.len() {
        write_member(alloc, out, &fields[index], &cells[index])?;
    }
    Ok(out.end_object()?)
}

/// Writes the member of a field.
#[cycle(writing)]
pub(crate) fn write_member(
    alloc: Global,
    out: &mut Writer,
    field: &Field,
    cell: &Cell,
) -> Result<(), CellFault>
    requires names { HasOwnNames (tree_of field.now) }
    ensures written { OnOk result (WritesMember (tree_of field.now) (seen cell.now) out.old.tokens out.new.tokens) }
    ensures refused { (d : Data) → TellsCell (tree_of field.now) d (seen cell.now)
        → IfErr result (λ fault. fault ≡ OutOfMemory) }
    ensures before { out.new.before ≡ out.old.before }
    ensures begun { OnErr result (GoesOn out.old.tokens out.new.tokens) }
{
    out.key(&field.name)?;
    write_cell(alloc, out, field, cell)
}
