//! A batch of some rows, made of plain cells.

ghost use Rattle.std.specs.Prelude.{◌≡◌, ◌≢◌, ◌↔◌, ◌<◌, ◌++◌, ◌∷◌, [], map, length, IfOk, OnOk, IfErr, IsErrOf, IsTrue};
ghost use Rattle.std.specs.List.{AllByRecursion};
ghost use Rattle.header_types.specs.Views.{schema_of};
ghost use Rattle.batch_types.specs.LaysOut.{rows_limit};
ghost use Rattle.batch_columns.specs.Batches.{IsBatchOf, rows_of};
ghost use Rattle.batch_columns.specs.FieldShapes.{field_shapes};
ghost use Rattle.batch_cells.specs.CellViews.{cell_of};
ghost use Rattle.batch_columns.specs.Contents.{Contents};
ghost use Rattle.column_building.specs.Built.{IsBuilt};
ghost use Rattle.column_building.specs.Rows.{AreMade, CanBeMade, IsTold, IsToldOfFirst, IsToldOfCells};
ghost use Rattle.column_building.specs.Whole.{field_shape};

use crate::building::{column_of, put_column};
use crate::fault::{CellsFault, RowsFault};
use batch_cells::Cell;
use batch_columns::{Batch, Column, ROWS_LIMIT};
use header_types::{Field, Schema};
use std::alloc::Global;

/// Whether each of the columns has so many cells.
fn have_rows(columns: &[Vec<Cell>], rows: u64) -> bool
    ensures { IsTrue result ↔ AllByRecursion (λ cells. length cells.items ≡ rows) columns.now }
{
    for cells in columns {
        if cells.as_slice().len() as u64 != rows {
            return false;
        }
    }
    true
}

/// Appends the column of a field of these cells.
fn put_made(
    alloc: Global,
    columns: &mut Vec<Column>,
    field: &Field,
    cells: &[Cell],
) -> Result<(), CellsFault>
    ensures made { OnOk result ((column : Contents) × (columns.new.items ≡ columns.old.items ++ column ∷ [])
        × IsBuilt (field_shape field.now) (map cell_of cells.now) column) }
    ensures can { OnOk result (CanBeMade (field_shape field.now) (map cell_of cells.now)) }
    ensures told { IfErr result (λ fault. IsTold (field_shape field.now) (map cell_of cells.now) fault) }
{
    let column = column_of(alloc, field, cells)?;
    put_column(columns, column)?;
    Ok(())
}

/// The columns of these fields of these cells, as many as fields.
fn columns_of(
    alloc: Global,
    fields: &[Field],
    columns: &[Vec<Cell>],
) -> Result<Vec<Column>, CellsFault>
    requires { length columns.now ≡ length fields.now }
    ensures made { IfOk result
        (λ made. AreMade (field_shapes fields.now) (map (λ cells. map cell_of cells.items) columns.now) made.items) }
    ensures told { IfErr result
        (λ fault. IsToldOfFirst (field_shapes fields.now) (map (λ cells. map cell_of cells.items) columns.now) fault) }
{
    let mut made = Vec::new(alloc);
    for index in 0..fields.len() {
        put_made(alloc, &mut made, &fields[index], &columns[index])?;
    }
    Ok(made)
}

/// The batch of a table of this schema of so many rows, of these cells: a column of cells for each field, with a cell
/// for each row, each a null or a value of the field's type. It is
///
/// - `WrongColumns` exactly where there is not one column of cells for each field;
/// - else `WrongLength` exactly where a column has another number of cells than there are rows;
/// - else `TooManyRows` exactly where there are more than `ROWS_LIMIT` rows;
/// - else the fault of the first column that is not made, as [`column_of`] tells it; else the batch.
///
/// A batch of no column still has its number of rows.
pub fn batch_of(
    alloc: Global,
    schema: &Schema,
    rows: u64,
    columns: &[Vec<Cell>],
) -> Result<Batch, RowsFault>
    ensures of_schema { IfOk result (λ batch. IsBatchOf (schema_of schema.now) batch) }
    ensures rows { IfOk result (λ batch. rows_of batch
        ≡ record { count = rows; columns = map (λ cells. map cell_of cells.items) columns.now }) }
    ensures columns { IsErrOf result RowsFault.WrongColumns ↔ (length columns.now ≢ length schema.now.fields.items) }
    ensures lengths { IsErrOf result RowsFault.WrongLength ↔ ((length columns.now ≡ length schema.now.fields.items)
        × ¬ (AllByRecursion (λ cells. length cells.items ≡ rows) columns.now)) }
    ensures many { IsErrOf result RowsFault.TooManyRows ↔ ((length columns.now ≡ length schema.now.fields.items)
        × AllByRecursion (λ cells. length cells.items ≡ rows) columns.now × (rows_limit < rows)) }
    ensures cells { IfErr result (λ fault. IsToldOfCells (field_shapes schema.now.fields.items)
        (map (λ cells. map cell_of cells.items) columns.now) fault) }
{
    if columns.len() != schema.fields.as_slice().len() {
        return Err(RowsFault::WrongColumns);
    }
    if !have_rows(columns, rows) {
        return Err(RowsFault::WrongLength);
    }
    if rows > ROWS_LIMIT {
        return Err(RowsFault::TooManyRows);
    }
    match columns_of(alloc, schema.fields.as_slice(), columns) {
        Ok(columns) => Ok(Batch { rows, columns }),
        Err(fault) => Err(RowsFault::Cells(fault)),
    }
}
