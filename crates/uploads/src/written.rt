//! What is read again of bytes that are known to be written of a schema or of batches.

ghost use Rattle.std.specs.Prelude.{◌≡◌, ◌≤◌, ℕ, List, length, map, IfOk};
ghost use Rattle.std.specs.List.{AllByRecursion};
ghost use Rattle.header_types.specs.Fields.{SchemaTree};
ghost use Rattle.header_types.specs.Profile.{InProfile};
ghost use Rattle.header_types.specs.Views.{schema_of};
ghost use Rattle.batch_types.specs.Cells.{Rows};
ghost use Rattle.batch_types.specs.Written.{CanBeWritten};
ghost use Rattle.batch_columns.specs.Batches.{rows_of, IsBatchOf};
ghost use Rattle.table_types.specs.Valid.{upload_limit};
ghost use Rattle.uploads.specs.Parts.{batch_parts, HasLeft};
ghost use Rattle.uploads.specs.Read.{IsSchemaText, AreRowsText};

use crate::decode_fault::DecodeFault;
use crate::encoded_batches::EncodedBatches;
use crate::reading::{shown_head, shown_schema};
use batch_columns::Batch;
use batch_reading::build_batch;
use batch_types::laws::{batches_are_one, written_rows_are_laid_out};
use flatbuf_meta::laws::written_headers_are_shown;
use header_types::Schema;
use std::alloc::{AllocError, Global};
use table_types::laws::batches_have_headers;

/// The schema of which these bytes are what is written. [`AllocError`] says that memory was refused.
pub fn written_schema(alloc: Global, bytes: &[u8]) -> Result<Schema, AllocError>
    requires known { (schema : SchemaTree) × IsSchemaText bytes.now schema }
    ensures { IfOk result (λ read. (schema : SchemaTree) → IsSchemaText bytes.now schema → schema_of read ≡ schema) }
{
    written_headers_are_shown();
    match shown_schema(alloc, bytes) {
        Ok(schema) => Ok(schema),
        Err(DecodeFault::NotAnUpload) => unreachable!(),
        Err(DecodeFault::OutOfMemory) => Err(AllocError),
    }
}

/// The batch of which a header and a body are what is written.
fn written_batch(
    alloc: Global,
    schema: &Schema,
    header: &[u8],
    body: &[u8],
) -> Result<Batch, AllocError>
    requires profile { InProfile (schema_of schema.now) }
    requires short { length body.now ≤ upload_limit }
    requires known { (rows : Rows) × AreRowsText (schema_of schema.now) (header.now, body.now) rows }
    ensures rows { IfOk result (λ batch. (rows : Rows)
        → AreRowsText (schema_of schema.now) (header.now, body.now) rows → rows_of batch ≡ rows) }
    ensures of_schema { IfOk result (λ batch. IsBatchOf (schema_of schema.now) batch) }
{
    batches_are_one();
    written_rows_are_laid_out();
    written_headers_are_shown();
    batches_have_headers();
    let head = match shown_head(alloc, header) {
        Ok(head) => head,
        Err(DecodeFault::NotAnUpload) => unreachable!(),
        Err(DecodeFault::OutOfMemory) => return Err(AllocError),
    };
    match build_batch(alloc, schema, &head, body) {
        Ok(batch) => Ok(batch),
        Err(_) => Err(AllocError),
    }
}

/// The batches of a schema, in profile ([`Schema::in_profile`]), of which these bytes are what is written, field by field:
/// each of it, and with the rows that were encoded. [`AllocError`] says that memory was refused.
pub fn written_batches(
    alloc: Global,
    schema: &Schema,
    batches: &[u8],
) -> Result<Vec<Batch>, AllocError>
    requires profile { InProfile (schema_of schema.now) }
    requires short { length batches.now ≤ upload_limit }
    requires known { (rows : List Rows) × AllByRecursion (CanBeWritten (schema_of schema.now)) rows
        × HasLeft batches.now (map (batch_parts (schema_of schema.now)) rows) }
    ensures rows { IfOk result (λ made. (rows : List Rows) → AllByRecursion (CanBeWritten (schema_of schema.now)) rows
        → HasLeft batches.now (map (batch_parts (schema_of schema.now)) rows) → map rows_of made.items ≡ rows) }
    ensures of_schema { IfOk result (λ made. AllByRecursion (IsBatchOf (schema_of schema.now)) made.items) }
{
    let mut left = EncodedBatches::new(batches);
    let mut made = Vec::new(alloc);
    while let Some((header, body)) = left.next() {
        made.push(written_batch(alloc, schema, header, body)?)?;
    }
    Ok(made)
}
