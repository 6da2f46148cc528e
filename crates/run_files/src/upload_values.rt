//! An upload from the value that tells it: one column of small numbers.

ghost use Rattle.std.specs.Prelude.{◌≡◌, ◌↔◌, ℕ, List, Option, Ok, map, codes, option_map, IfOk, IfErr, IfSome, IsSome};
ghost use Rattle.std.specs.List.{AllByRecursion, AllZip};
ghost use Rattle.serde_json.specs.Find.{get};
ghost use Rattle.serde_json.specs.View.{view};
ghost use Rattle.hex.specs.Hex.{decode_of};
ghost use Rattle.header_types.specs.Views.{schema_of};
ghost use Rattle.batch_types.specs.Cells.{Rows};
ghost use Rattle.batch_types.specs.Layouts.{bytes_layout};
ghost use Rattle.batch_types.specs.Shapes.{shape, no_shape};
ghost use Rattle.batch_columns.specs.Batches.{rows_of};
ghost use Rattle.batch_columns.specs.Made.{bytes_or_null};
ghost use Rattle.table_types.specs.Uploads.{upload_text};
ghost use Rattle.table_types.specs.Valid.{IsId, IsUpload};
ghost use Rattle.uploads.specs.Making.{upload_of as uploaded};
ghost use Rattle.uploads.specs.declared.upload_fault.UploadFault.TheVariants as UploadFault;
ghost use Rattle.run_files.specs.declared.fault.ValueFault.TheVariants.{OutOfMemory};
ghost use Rattle.run_files.specs.Flaws.{ReadsItems};
ghost use Rattle.run_files.specs.UploadValue.{IsByteOf, TellsCell, TellsRows, IsByteBatch, MeansUpload, byte_cell, column_rows, column_schema, name_told};

use crate::fault::ValueFault;
use crate::json_values::{array_at, text_at};
use batch_columns::{Batch, Column};
use header_types::{BitWidth, Field, Schema, Ty};
use hex::FromHex;
use serde_json::Value;
use std::alloc::{AllocError, Global};
use uploads::{Upload, UploadFault};

/// The name of the column where the value tells none.
const COLUMN_NAME: &str = "a";

/// The schema of one column of numbers of eight bits with a sign, which may be missing.
fn schema_named(alloc: Global, name: &str) -> Result<Schema, AllocError>
    ensures { IfOk result (λ schema. schema_of schema ≡ column_schema name.now) }
{
    let field = Field {
        name: String::from_str(alloc, name)?,
        nullable: true,
        ty: Ty::Int {
            bit_width: BitWidth::Eight,
            is_signed: true,
        },
        children: Vec::new(alloc),
        metadata: Vec::new(alloc),
    };
    let mut fields = Vec::new(alloc);
    fields.push(field)?;
    let metadata = Vec::new(alloc);
    Ok(Schema { fields, metadata })
}

/// The byte of two's complement of a number from -128 to 127, or none.
fn byte_of(number: i64) -> Option<u8>
    ensures read { IfSome result (λ byte. IsByteOf number byte) }
    ensures only { (byte : ℕ) → IsByteOf number byte → IsSome result }
{
    if (0..128).contains(&number) {
        Some(number as u8)
    } else if (-128..0).contains(&number) {
        Some((number + 256) as u8)
    } else {
        None
    }
}

/// The byte of a number, and none of a null.
fn cell_of(value: &Value) -> Result<Option<[u8; 1]>, ValueFault>
    ensures read { IfOk result (TellsCell (view value.now)) }
    ensures refused { (cell : Option (List ℕ)) → TellsCell (view value.now) cell
        → IfErr result (λ fault. fault ≡ OutOfMemory) }
{
    if value.is_null() {
        return Ok(None);
    }
    let Some(number) = value.as_i64() else {
        return Err(ValueFault::Unfit);
    };
    match byte_of(number) {
        Some(byte) => Ok(Some([byte])),
        None => Err(ValueFault::Unfit),
    }
}

fn cells_of(alloc: Global, values: &[Value]) -> Result<Vec<Option<[u8; 1]>>, ValueFault>
    ensures read { IfOk result (λ cells. AllZip TellsCell (map view values.now) cells.items) }
    ensures refused { (cells : List (Option (List ℕ))) → AllZip TellsCell (map view values.now) cells
        → IfErr result (λ fault. fault ≡ OutOfMemory) }
{
    let mut cells = Vec::new(alloc);
    for value in values {
        let cell = cell_of(value)?;
        if cells.push(cell).is_err() {
            return Err(ValueFault::OutOfMemory);
        }
    }
    Ok(cells)
}

fn lent(cell: &Option<[u8; 1]>) -> Option<&[u8]>
    ensures { bytes_or_null result ≡ byte_cell cell.now }
{
    match cell {
        Some(byte) => Some(byte.as_slice()),
        None => None,
    }
}

fn all_lent(alloc: Global, cells: &[Option<[u8; 1]>]) -> Result<Vec<Option<&[u8]>>, AllocError>
    ensures { IfOk result (λ all. map bytes_or_null all.items ≡ map byte_cell cells.now) }
{
    let mut all = Vec::new(alloc);
    for cell in cells {
        all.push(lent(cell))?;
    }
    Ok(all)
}

/// The column of these cells.
fn column_of(alloc: Global, cells: &[Option<[u8; 1]>]) -> Result<Column, AllocError>
    ensures shape { IfOk result (λ column. column.shape ≡ shape (bytes_layout 1) no_shape) }
    ensures cells { IfOk result (λ column. column.cells ≡ map byte_cell cells.now) }
{
    let all = all_lent(alloc, cells)?;
    match Column::from_sized(alloc, 1, &all) {
        Ok(column) => Ok(column),
        Err(_) => Err(AllocError),
    }
}

fn batch_of_cells(alloc: Global, cells: &[Option<[u8; 1]>]) -> Result<Batch, AllocError>
    ensures rows { IfOk result (λ batch. rows_of batch ≡ column_rows (map byte_cell cells.now)) }
    ensures shaped { IfOk result IsByteBatch }
{
    let column = column_of(alloc, cells)?;
    let mut columns = Vec::new(alloc);
    columns.push(column)?;
    Ok(Batch {
        rows: cells.len() as u64,
        columns,
    })
}

/// The batch of an array of numbers and nulls.
fn batch_of(alloc: Global, value: &Value) -> Result<Batch, ValueFault>
    ensures read { IfOk result (λ batch. TellsRows (view value.now) (rows_of batch)) }
    ensures shaped { IfOk result IsByteBatch }
    ensures refused { (rows : Rows) → TellsRows (view value.now) rows → IfErr result (λ fault. fault ≡ OutOfMemory) }
{
    match value.as_array() {
        Some(values) => {
            let cells = cells_of(alloc, values)?;
            Ok(batch_of_cells(alloc, &cells)?)
        }
        None => Err(ValueFault::Unfit),
    }
}

fn batches_of(alloc: Global, values: &[Value]) -> Result<Vec<Batch>, ValueFault>
    ensures read { IfOk result (λ batches. AllZip TellsRows (map view values.now) (map rows_of batches.items)) }
    ensures shaped { IfOk result (λ batches. AllByRecursion IsByteBatch batches.items) }
    ensures refused { (all : List Rows) → AllZip TellsRows (map view values.now) all
        → IfErr result (λ fault. fault ≡ OutOfMemory) }
{
    let mut batches = Vec::new(alloc);
    for value in values {
        let batch = batch_of(alloc, value)?;
        if batches.push(batch).is_err() {
            return Err(ValueFault::OutOfMemory);
        }
    }
    Ok(batches)
}

/// The upload's id, 32 hexadecimal digits of either case.
fn id_of(digits: &str) -> Option<[u8; 16]>
    ensures read { IfSome result (λ id. decode_of digits.now ≡ Ok id) }
    ensures only { (id : List ℕ) → IsId id → decode_of digits.now ≡ Ok id → IsSome result }
{
    <[u8; 16] as FromHex>::from_hex(digits).ok()
}

/// The name of its column: the text at `name`, or the usual one where there is no such member.
fn name_of(value: &Value) -> Option<&str>
    ensures { option_map (λ name. name.now) result ≡ name_told (get (codes "name") (view value.now)) }
{
    match value.get("name") {
        Some(name) => name.as_str(),
        None => Some(COLUMN_NAME),
    }
}

fn fault_of(fault: UploadFault) -> ValueFault
    ensures { (result ≡ OutOfMemory) ↔ (fault ≡ UploadFault.OutOfMemory) }
{
    match fault {
        UploadFault::OutOfMemory => ValueFault::OutOfMemory,
        _ => ValueFault::Unfit,
    }
}

/// The upload of these parts.
fn made(
    alloc: Global,
    table: &str,
    id: [u8; 16],
    name: &str,
    batches: &[Batch],
) -> Result<Upload, ValueFault>
    ensures valid { IfOk result (λ upload. IsUpload (uploaded table.now id (column_schema name.now) batches.now)) }
    ensures encoded { IfOk result
        (λ upload. upload ≡ upload_text (uploaded table.now id (column_schema name.now) batches.now)) }
    ensures refused { AllByRecursion IsByteBatch batches.now
        → IsUpload (uploaded table.now id (column_schema name.now) batches.now)
        → IfErr result (λ fault. fault ≡ OutOfMemory) }
{
    let schema = schema_named(alloc, name)?;
    match Upload::new(alloc, table, id, &schema, batches) {
        Ok(upload) => Ok(upload),
        Err(fault) => Err(fault_of(fault)),
    }
}

/// The upload that an object tells: its table, its id, its values, a batch for each array of them, and, where it
/// has that member, the name of its column. What else the object has means nothing.
pub(crate) fn upload_of(alloc: Global, value: &Value) -> Result<Upload, ValueFault>
    ensures read { IfOk result (MeansUpload (view value.now)) }
    ensures refused { (upload : List ℕ) → MeansUpload (view value.now) upload
        → IfErr result (λ fault. fault ≡ OutOfMemory) }
{
    let (Some(table), Some(digits), Some(name)) = (
        text_at(value, "table"),
        text_at(value, "id"),
        name_of(value),
    ) else {
        return Err(ValueFault::Unfit);
    };
    let (Some(id), Some(values)) = (id_of(digits), array_at(value, "values")) else {
        return Err(ValueFault::Unfit);
    };
    let batches = batches_of(alloc, values)?;
    made(alloc, table, id, name, &batches)
}

/// The uploads that these values tell, in order; or the place of the first that tells none.
pub(crate) fn uploads_of(
    alloc: Global,
    values: &[Value],
) -> Result<Result<Vec<Upload>, usize>, AllocError>
    ensures { IfOk result (ReadsItems MeansUpload (map view values.now)) }
{
    let mut uploads = Vec::new(alloc);
    for place in 0..values.len() {
        match upload_of(alloc, &values[place]) {
            Ok(upload) => uploads.push(upload)?,
            Err(ValueFault::Unfit) => return Ok(Err(place)),
            Err(ValueFault::OutOfMemory) => return Err(AllocError),
        }
    }
    Ok(Ok(uploads))
}
