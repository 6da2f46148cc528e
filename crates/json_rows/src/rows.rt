//! Batches from the values of lines.

ghost use Rattle.std.specs.Prelude.{◌≡◌, ◌≢◌, ◌↔◌, ◌≤◌, ℕ, List, length, map, Some, None, IfOk, IfErr, IsErrOf, IfSome, IfNone, IsTrue};
ghost use Rattle.std.specs.List.{AllByRecursion};
ghost use Rattle.serde_json.specs.View.{view};
ghost use Rattle.header_types.specs.Views.{schema_of, tree_of};
ghost use Rattle.batch_types.specs.Cells.{Cell as Seen};
ghost use Rattle.batch_columns.specs.Batches.{IsBatchOf, rows_of};
ghost use Rattle.batch_cells.specs.CellViews.{cell_of as seen};
ghost use Rattle.json_rows.specs.declared.fault.CellFault.TheVariants as CellFault;
ghost use Rattle.json_rows.specs.declared.fault.JsonFault.TheVariants.{OutOfMemory};
ghost use Rattle.json_rows.specs.declared.fault.JsonFault.TheVariants as JsonFault;
ghost use Rattle.json_rows.specs.Cells.{IsObjectOf, TellsCell, forest_in, name_of, told_at};
ghost use Rattle.json_rows.specs.Lines.{IsOfLines, IsOfSchema, TellsColumn, TellsColumns, TellsRows, TellsSomeRow};

use crate::fault::{CellFault, JsonFault, JsonLineFault};
use crate::reading::{are_names_of, member_cell};
use batch_cells::Cell;
use batch_columns::Batch;
use column_building::{CellsFault, RowsFault as BuildFault, batch_of};
use header_types::{Field, Schema};
use serde_json::Value;
use std::alloc::Global;

/// Whether the value is an object with no other members than the fields.
fn is_object_of(fields: &[Field], value: &Value) -> bool
    ensures { IsTrue result ↔ IsObjectOf (forest_in fields.now) (view value.now) }
{
    match value.as_object() {
        Some(members) => are_names_of(fields, members),
        None => false,
    }
}

/// The place of the first value that is no object of the fields.
fn first_other(fields: &[Field], values: &[Value]) -> Option<usize>
    ensures none { IfNone result (AllByRecursion (IsObjectOf (forest_in fields.now)) (map view values.now)) }
    ensures some { IfSome result (λ _. AllByRecursion (IsObjectOf (forest_in fields.now)) (map view values.now) → ⊥) }
{
    for index in 0..values.len() {
        if !is_object_of(fields, &values[index]) {
            return Some(index);
        }
    }
    None
}

/// The cells of a field, one of each object; else the place of the first object that tells none, and why.
fn column_at(
    alloc: Global,
    field: &Field,
    values: &[Value],
) -> Result<Vec<Cell>, (usize, CellFault)>
    ensures read { IfOk result (λ cells. TellsColumn (map view values.now) (tree_of field.now) (map seen cells.items)) }
    ensures refused { AllByRecursion (λ d. (cell : Seen) × TellsCell (tree_of field.now)
        (told_at (name_of (tree_of field.now)) d) cell) (map view values.now)
        → IfErr result (λ fault. fault.1 ≡ CellFault.OutOfMemory) }
{
    let mut cells = Vec::new(alloc);
    for index in 0..values.len() {
        match member_cell(alloc, field, &values[index]) {
            Ok(cell) => {
                if cells.push(cell).is_err() {
                    return Err((index, CellFault::OutOfMemory));
                }
            }
            Err(fault) => return Err((index, fault)),
        }
    }
    Ok(cells)
}

/// The fault of a member of a line.
pub(crate) fn fault_at(first: u64, field: usize, fault: (usize, CellFault)) -> JsonFault
    ensures memory { fault.1 ≡ CellFault.OutOfMemory → result ≡ OutOfMemory }
    ensures kind { IsOfSchema result → ⊥ }
{
    match fault.1 {
        CellFault::OutOfMemory => JsonFault::OutOfMemory,
        CellFault::WrongKind
        | CellFault::OutOfRange
        | CellFault::NullValue
        | CellFault::UnknownMember
        | CellFault::Unsupported => JsonFault::Cell {
            line: first.saturating_add(fault.0 as u64),
            field,
            fault: fault.1,
        },
    }
}

/// The cells of each field, one of each object, where the first stands in the line of this number.
fn columns_of(
    alloc: Global,
    fields: &[Field],
    values: &[Value],
    first: u64,
) -> Result<Vec<Vec<Cell>>, JsonFault>
    ensures read { IfOk result (λ columns. TellsColumns (forest_in fields.now) (map view values.now)
        (map (λ cells. map seen cells.items) columns.items)) }
    ensures refused { AllByRecursion (TellsSomeRow (forest_in fields.now)) (map view values.now)
        → IfErr result (λ fault. fault ≡ OutOfMemory) }
    ensures kind { IfErr result (λ fault. IsOfSchema fault → ⊥) }
{
    let mut columns = Vec::new(alloc);
    for index in 0..fields.len() {
        match column_at(alloc, &fields[index], values) {
            Ok(cells) => {
                if columns.push(cells).is_err() {
                    return Err(JsonFault::OutOfMemory);
                }
            }
            Err(fault) => return Err(fault_at(first, index, fault)),
        }
    }
    Ok(columns)
}

/// What is told of rows that make no batch, the first of which stands in the line of this number.
fn fault_of(first: u64, fault: BuildFault) -> JsonFault
    ensures lines { IsOfLines result → ⊥ }
    ensures same { result ≢ JsonFault.SameNames }
    ensures some { result ≢ JsonFault.NoRows }
{
    match fault {
        BuildFault::Cells(CellsFault::OutOfMemory) => JsonFault::OutOfMemory,
        BuildFault::TooManyRows | BuildFault::Cells(CellsFault::TooMany | CellsFault::TooLong) => {
            JsonFault::TooLarge { line: first }
        }
        BuildFault::WrongColumns
        | BuildFault::WrongLength
        | BuildFault::Cells(CellsFault::WrongChildren | CellsFault::NotOfField) => {
            JsonFault::BadSchema
        }
    }
}

/// The batch of the rows that these values tell, where the first stands in the line of this number.
pub(crate) fn batch_of_values(
    alloc: Global,
    schema: &Schema,
    values: &[Value],
    first: u64,
) -> Result<Batch, JsonFault>
    ensures read { IfOk result (λ batch. TellsRows (schema_of schema.now).fields (map view values.now) (rows_of batch)) }
    ensures of_schema { IfOk result (λ batch. IsBatchOf (schema_of schema.now) batch) }
    ensures refused { AllByRecursion (TellsSomeRow (schema_of schema.now).fields) (map view values.now)
        → IfErr result (λ fault. IsOfLines fault → ⊥) }
    ensures same { IsErrOf result JsonFault.SameNames → ⊥ }
    ensures some { IsErrOf result JsonFault.NoRows → ⊥ }
{
    let fields = schema.fields.as_slice();
    if let Some(index) = first_other(fields, values) {
        return Err(JsonFault::Line {
            line: first.saturating_add(index as u64),
            fault: JsonLineFault::UnknownMember,
        });
    }
    let columns = columns_of(alloc, fields, values, first)?;
    match batch_of(alloc, schema, values.len() as u64, &columns) {
        Ok(batch) => Ok(batch),
        Err(fault) => Err(fault_of(first, fault)),
    }
}
