//! Cells of fields from the values that tell them.

ghost use Rattle.std.specs.Prelude.{◌≡◌, ◌↔◌, List, length, map, true, IfOk, IfErr, IsTrue};
ghost use Rattle.std.specs.List.{AllZip};
ghost use Rattle.serde_json.specs.View.{view, members_view};
ghost use Rattle.header_types.specs.Views.{tree_of};
ghost use Rattle.batch_types.specs.Cells.{Cell as Seen, list_cell, cells_of as cells_inside};
ghost use Rattle.batch_cells.specs.CellViews.{cell_of as seen};
ghost use Rattle.json_rows.specs.declared.fault.CellFault.TheVariants.{OutOfMemory};
ghost use Rattle.json_rows.specs.Cells.{AreNamesOf, IsNameOf, TellsCell, TellsElement, TellsElements, TellsFields, TellsForm, TellsMembers, forest_in, name_of, told_at};

use crate::fault::CellFault;
use crate::flat::flat_cell;
use crate::form::{Form, form_of};
use batch_cells::Cell;
use header_types::Field;
use serde_json::{Map, Value};
use std::alloc::Global;

/// Whether one of the fields has this name.
pub(crate) fn is_name_of(fields: &[Field], name: &str) -> bool
    ensures { IsTrue result ↔ IsNameOf (forest_in fields.now) name.now }
{
    for field in fields {
        if field.name.as_str() == name {
            return true;
        }
    }
    false
}

/// Whether each of the members has the name of a field.
pub(crate) fn are_names_of(fields: &[Field], members: &Map<String, Value>) -> bool
    ensures { IsTrue result ↔ AreNamesOf (forest_in fields.now) (members_view members.now.entries) }
{
    for (name, _) in members.iter() {
        if !is_name_of(fields, name.as_str()) {
            return false;
        }
    }
    true
}

/// A list of these elements.
fn list_of(cells: Vec<Cell>) -> Cell
    ensures { seen result ≡ list_cell (cells_inside (map seen cells.items)) }
{
    Cell::List(cells)
}

/// The cell of a field that a value tells: a null where the value is null and the field may have one, else a cell of the
/// field's form. There is one exactly where the value tells one, memory apart, and then it is that one.
#[cycle(reading)]
pub fn cell_of(alloc: Global, field: &Field, value: &Value) -> Result<Cell, CellFault>
    ensures read { IfOk result (λ cell. TellsCell (tree_of field.now) (view value.now) (seen cell)) }
    ensures refused { (cell : Seen) → TellsCell (tree_of field.now) (view value.now) cell
        → IfErr result (λ fault. fault ≡ OutOfMemory) }
{
    if !value.is_null() {
        return form_cell(alloc, form_of(&field.ty), field.children.as_slice(), value);
    }
    if field.nullable {
        Ok(Cell::Null)
    } else {
        Err(CellFault::NullValue)
    }
}

/// The cell that a value tells in a form, with these fields inside it.
#[cycle(reading)]
fn form_cell(alloc: Global, form: Form, fields: &[Field], value: &Value) -> Result<Cell, CellFault>
    ensures read { IfOk result (λ cell. TellsForm form (TellsElement (forest_in fields.now))
        (TellsFields (forest_in fields.now)) (view value.now) (seen cell)) }
    ensures refused { (cell : Seen) → TellsForm form (TellsElement (forest_in fields.now))
        (TellsFields (forest_in fields.now)) (view value.now) cell → IfErr result (λ fault. fault ≡ OutOfMemory) }
{
    match form {
        Form::List => Ok(list_of(elements_of(alloc, fields, value)?)),
        Form::SizedList { size } => {
            let cells = elements_of(alloc, fields, value)?;
            if cells.len() == size as usize {
                Ok(list_of(cells))
            } else {
                Err(CellFault::WrongKind)
            }
        }
        Form::Struct => Ok(Cell::Tuple(members_of(alloc, fields, value)?)),
        Form::Null
        | Form::Bool
        | Form::Whole { .. }
        | Form::Single
        | Form::Double
        | Form::Text
        | Form::Bytes
        | Form::SizedBytes { .. }
        | Form::Unsupported => flat_cell(alloc, form, value),
    }
}

/// The elements of the array that a value is, of the first of these fields.
#[cycle(reading)]
fn elements_of(alloc: Global, fields: &[Field], value: &Value) -> Result<Vec<Cell>, CellFault>
    ensures read { IfOk result (λ cells. TellsElements (TellsElement (forest_in fields.now)) (view value.now)
        (map seen cells.items)) }
    ensures refused { (cells : List Seen) → TellsElements (TellsElement (forest_in fields.now)) (view value.now) cells
        → IfErr result (λ fault. fault ≡ OutOfMemory) }
{
    let Some(values) = value.as_array() else {
        return Err(CellFault::WrongKind);
    };
    match fields {
        [field, ..] => cells_of(alloc, field, values),
        [] if values.is_empty() => Ok(Vec::new(alloc)),
        [] => Err(CellFault::WrongKind),
    }
}

/// The cells of a field that these values tell, one each.
#[cycle(reading)]
pub fn cells_of(alloc: Global, field: &Field, values: &[Value]) -> Result<Vec<Cell>, CellFault>
    ensures read { IfOk result (λ cells. AllZip (TellsCell (tree_of field.now)) (map view values.now)
        (map seen cells.items)) }
    ensures refused { (cells : List Seen) → AllZip (TellsCell (tree_of field.now)) (map view values.now) cells
        → IfErr result (λ fault. fault ≡ OutOfMemory) }
{
    let mut cells = Vec::new(alloc);
    for value in values {
        let cell = cell_of(alloc, field, value)?;
        if cells.push(cell).is_err() {
            return Err(CellFault::OutOfMemory);
        }
    }
    Ok(cells)
}

/// The cells of the fields that an object tells, which has no other members.
#[cycle(reading)]
pub(crate) fn members_of(
    alloc: Global,
    fields: &[Field],
    value: &Value,
) -> Result<Vec<Cell>, CellFault>
    ensures read { IfOk result (λ cells. TellsFields (forest_in fields.now) (view value.now) (map seen cells.items)) }
    ensures refused { (cells : List Seen) → TellsFields (forest_in fields.now) (view value.now) cells
        → IfErr result (λ fault. fault ≡ OutOfMemory) }
{
    let Some(members) = value.as_object() else {
        return Err(CellFault::WrongKind);
    };
    if !are_names_of(fields, members) {
        return Err(CellFault::UnknownMember);
    }
    cells_at(alloc, fields, value)
}

/// The cell of each of the fields, told by the member of its name.
#[cycle(reading)]
fn cells_at(alloc: Global, fields: &[Field], value: &Value) -> Result<Vec<Cell>, CellFault>
    ensures read { IfOk result (λ cells. TellsMembers (forest_in fields.now) (view value.now) (map seen cells.items)) }
    ensures refused { (cells : List Seen) → TellsMembers (forest_in fields.now) (view value.now) cells
        → IfErr result (λ fault. fault ≡ OutOfMemory) }
{
    let mut cells = Vec::new(alloc);
    for field in fields {
        let cell = member_cell(alloc, field, value)?;
        if cells.push(cell).is_err() {
            return Err(CellFault::OutOfMemory);
        }
    }
    Ok(cells)
}

/// The cell of a field that the member of its name tells, or its null where there is none.
#[cycle(reading)]
pub(crate) fn member_cell(alloc: Global, field: &Field, value: &Value) -> Result<Cell, CellFault>
    ensures read { IfOk result (λ cell. TellsCell (tree_of field.now)
        (told_at (name_of (tree_of field.now)) (view value.now)) (seen cell)) }
    ensures refused { (cell : Seen) → TellsCell (tree_of field.now)
        (told_at (name_of (tree_of field.now)) (view value.now)) cell → IfErr result (λ fault. fault ≡ OutOfMemory) }
{
    match value.get(field.name.as_str()) {
        Some(told) => cell_of(alloc, field, told),
        None => cell_of(alloc, field, &Value::Null),
    }
}
