//! Rows as lines.

ghost use Rattle.std.specs.Prelude.{◌≡◌, ◌≤◌, ◌<◌, suc, List, length, map, true, false, IfErr, IfOk, IsErrOf, OnOk, IsTrue};
ghost use Rattle.std.specs.List.{AllByRecursion};
ghost use Rattle.serde_json.specs.Data.{Data};
ghost use Rattle.header_types.specs.Limits.{forest_depth};
ghost use Rattle.header_types.specs.Views.{schema_of};
ghost use Rattle.header_types.specs.Profile.{InProfile};
ghost use Rattle.batch_columns.specs.Batches.{IsBatchOf, rows_of};
ghost use Rattle.json_rows.specs.declared.fault.CellFault.TheVariants as CellFault;
ghost use Rattle.json_rows.specs.declared.fault.JsonFault.TheVariants as JsonFault;
ghost use Rattle.batch_columns.specs.Few.{columns_cells};
ghost use Rattle.batch_cells.specs.CellViews.{cell_of as seen};
ghost use Rattle.json_rows.specs.Cells.{IsObjectOf, TellsFields, TellsMembers, forest_in};
ghost use Rattle.json_rows.specs.Written.{HaveOwnNames, WritesMembers, WritesValue};
ghost use Rattle.json_rows.specs.Lines.{EndsLines, IsOfCell, IsOfSchema, TellsColumns, TellsLine, TellsRows, TellsValues, WritesLine, WritesRows, cell_at, has_feed};

use crate::fault::{CellFault, JsonFault, JsonLineFault};
use crate::names::have_own_names;
use crate::rows::fault_at;
use crate::writing::write_member;
use batch_cells::{Cell, cells_of};
use batch_columns::{Batch, Column};
use header_types::{Field, Schema};
use json::Writer;
use memchr::memchr;
use std::alloc::{AllocError, Global};

/// Writes a member for each of the fields, of a row of these columns, and the bracket that closes their object; else the
/// place of the field that is refused, and why.
fn write_row_members(
    alloc: Global,
    out: &mut Writer,
    fields: &[Field],
    columns: &[Vec<Cell>],
    row: usize,
) -> Result<(), (usize, CellFault)>
    requires names { HaveOwnNames (forest_in fields.now) }
    requires counts { length columns.now ≡ length fields.now }
    requires within { AllByRecursion (λ cells. row < length cells.items) columns.now }
    ensures written { OnOk result (WritesMembers (forest_in fields.now) (map (cell_at row) columns.now) out.old.tokens
        out.new.tokens) }
    ensures refused { (d : Data) → TellsMembers (forest_in fields.now) d (map (cell_at row) columns.now)
        → IfErr result (λ fault. fault.1 ≡ CellFault.OutOfMemory) }
    ensures before { out.new.before ≡ out.old.before }
{
    for index in 0..fields.len() {
        if let Err(fault) = write_member(alloc, out, &fields[index], &columns[index][row]) {
            return Err((index, fault));
        }
    }
    match out.end_object() {
        Ok(()) => Ok(()),
        Err(_) => Err((0, CellFault::OutOfMemory)),
    }
}

/// Writes the object of a row of these columns.
fn write_row(
    alloc: Global,
    out: &mut Writer,
    fields: &[Field],
    columns: &[Vec<Cell>],
    row: usize,
) -> Result<(), JsonFault>
    requires names { HaveOwnNames (forest_in fields.now) }
    requires counts { length columns.now ≡ length fields.now }
    requires within { AllByRecursion (λ cells. row < length cells.items) columns.now }
    ensures written { OnOk result (WritesValue (λ d. TellsFields (forest_in fields.now) d (map (cell_at row) columns.now))
        (suc (forest_depth (forest_in fields.now))) out.old.tokens out.new.tokens) }
    ensures refused { (d : Data) → TellsFields (forest_in fields.now) d (map (cell_at row) columns.now)
        → IfErr result (λ fault. fault ≡ JsonFault.OutOfMemory) }
    ensures before { out.new.before ≡ out.old.before }
    ensures kind { IfErr result (λ fault. IsOfSchema fault → ⊥) }
{
    out.begin_object()?;
    match write_row_members(alloc, out, fields, columns, row) {
        Ok(()) => Ok(()),
        Err(fault) => Err(fault_at((row as u64).saturating_add(1), fault.0, (0, fault.1))),
    }
}

/// Whether no line feed stands in a text.
fn is_one_line(text: &[u8]) -> bool
    ensures { IsTrue result → has_feed text.now ≡ false }
{
    memchr(b'\n', text).is_none()
}

/// The text of a row of these columns, which is the text of a value.
fn row_text(
    alloc: Global,
    fields: &[Field],
    columns: &[Vec<Cell>],
    row: usize,
) -> Result<Vec<u8>, JsonFault>
    requires names { HaveOwnNames (forest_in fields.now) }
    requires counts { length columns.now ≡ length fields.now }
    requires within { AllByRecursion (λ cells. row < length cells.items) columns.now }
    requires shallow { forest_depth (forest_in fields.now) ≤ 126 }
    ensures written { IfOk result (λ line. (value : Data) × TellsLine line.items value
        × TellsFields (forest_in fields.now) value (map (cell_at row) columns.now)) }
    ensures refused { (d : Data) → TellsFields (forest_in fields.now) d (map (cell_at row) columns.now)
        → IfErr result (λ fault. fault ≡ JsonFault.OutOfMemory) }
    ensures kind { IfErr result (λ fault. IsOfSchema fault → ⊥) }
{
    let mut out = Writer::new(Vec::new(alloc));
    write_row(alloc, &mut out, fields, columns, row)?;
    Ok(out.into_inner())
}

/// Appends the line of a row of these columns.
fn put_line(
    alloc: Global,
    text: &mut Vec<u8>,
    fields: &[Field],
    columns: &[Vec<Cell>],
    row: usize,
) -> Result<(), JsonFault>
    requires names { HaveOwnNames (forest_in fields.now) }
    requires counts { length columns.now ≡ length fields.now }
    requires within { AllByRecursion (λ cells. row < length cells.items) columns.now }
    requires shallow { forest_depth (forest_in fields.now) ≤ 126 }
    ensures written { OnOk result (WritesLine (forest_in fields.now) (map (cell_at row) columns.now) text.old.items
        text.new.items) }
    ensures told { (d : Data) → TellsFields (forest_in fields.now) d (map (cell_at row) columns.now)
        → IfErr result (λ fault. IsOfCell fault → ⊥) }
    ensures kind { IfErr result (λ fault. IsOfSchema fault → ⊥) }
{
    let mut line = row_text(alloc, fields, columns, row)?;
    if !is_one_line(&line) {
        return Err(JsonFault::Line {
            line: (row as u64).saturating_add(1),
            fault: JsonLineFault::LineFeed,
        });
    }
    if line.push(b'\n').is_err() {
        return Err(JsonFault::OutOfMemory);
    }
    text.extend_from_slice(&line)?;
    Ok(())
}

/// The lines of so many rows of these columns.
fn lines_text(
    alloc: Global,
    fields: &[Field],
    columns: &[Vec<Cell>],
    rows: usize,
) -> Result<Vec<u8>, JsonFault>
    requires names { HaveOwnNames (forest_in fields.now) }
    requires counts { length columns.now ≡ length fields.now }
    requires long { AllByRecursion (λ cells. length cells.items ≡ rows) columns.now }
    requires shallow { forest_depth (forest_in fields.now) ≤ 126 }
    ensures written { IfOk result (λ text. WritesRows (forest_in fields.now) (map (λ cells. map seen cells.items) columns.now)
        rows text.items) }
    ensures told { (values : List Data) → length values ≡ rows → AllByRecursion (IsObjectOf (forest_in fields.now)) values
        → TellsColumns (forest_in fields.now) values (map (λ cells. map seen cells.items) columns.now)
        → IfErr result (λ fault. IsOfCell fault → ⊥) }
    ensures kind { IfErr result (λ fault. IsOfSchema fault → ⊥) }
{
    let mut text = Vec::new(alloc);
    for row in 0..rows {
        put_line(alloc, &mut text, fields, columns, row)?;
    }
    Ok(text)
}

/// The cells of each column.
fn all_cells(alloc: Global, columns: &[Column]) -> Result<Vec<Vec<Cell>>, AllocError>
    ensures { IfOk result (λ all. map (λ cells. map seen cells.items) all.items ≡ columns_cells columns.now) }
{
    let mut all = Vec::new(alloc);
    for column in columns {
        let cells = cells_of(alloc, column)?;
        all.push(cells)?;
    }
    Ok(all)
}

/// The lines of a batch of a table of this schema, one a row, each with a line feed behind it (RFC 8259; JSON Lines): an
/// object with a member for each field, in the order of the schema. Reading them with the schema gives the same rows.
///
/// It is `BadSchema` where the batch is none of the schema or the schema is not in profile, and `SameNames` where two fields
/// side by side have one name; else `Cell` of a cell that no value tells: a null in a field that may have none, a NaN
/// of other bits than that of `"NaN"`, a type that is not carried; or memory is refused.
pub fn rows_text(alloc: Global, schema: &Schema, batch: &Batch) -> Result<Vec<u8>, JsonFault>
    ensures written { IfOk result (λ text. (values : List Data) × TellsValues text.items values
        × TellsRows (schema_of schema.now).fields values (rows_of batch.now)) }
    ensures ends { IfOk result (λ text. EndsLines text.items) }
    // A cell is refused only where no values tell the rows.
    ensures cell { (values : List Data) → TellsRows (schema_of schema.now).fields values (rows_of batch.now)
        → IfErr result (λ fault. IsOfCell fault → ⊥) }
    ensures schema { IsErrOf result JsonFault.BadSchema → InProfile (schema_of schema.now)
        → IsBatchOf (schema_of schema.now) batch.now → ⊥ }
    ensures same { IsErrOf result JsonFault.SameNames → HaveOwnNames (schema_of schema.now).fields → ⊥ }
    ensures some { IsErrOf result JsonFault.NoRows → ⊥ }
    ensures names { OnOk result (HaveOwnNames (schema_of schema.now).fields) }
{
    if !schema.in_profile() || !batch.is_of(schema) {
        return Err(JsonFault::BadSchema);
    }
    let fields = schema.fields.as_slice();
    if !have_own_names(fields) {
        return Err(JsonFault::SameNames);
    }
    let columns = all_cells(alloc, &batch.columns)?;
    lines_text(alloc, fields, &columns, batch.rows as usize)
}
