//! The schema and the batches of an upload, read from their parts. They are taken only where writing them again gives
//! the same bytes.

ghost use Rattle.std.specs.Prelude.{◌≡◌, ◌≢◌, ◌≤◌, ◌<◌, ◌↔◌, ℕ, List, length, IfOk, IfErr, OnOk, IsTrue};
ghost use Rattle.header_types.specs.declared.fault.MetaFault.TheVariants.{OutOfMemory as Refused};
ghost use Rattle.header_types.specs.Fields.{SchemaTree};
ghost use Rattle.header_types.specs.Header.{Head, schema_header, batch_header, ShowsHeader};
ghost use Rattle.header_types.specs.HeaderViews.{head_of};
ghost use Rattle.header_types.specs.Profile.{InProfile};
ghost use Rattle.header_types.specs.Views.{schema_of};
ghost use Rattle.header_writing.specs.Canonical.{header_text};
ghost use Rattle.flatbuf_meta.specs.Writable.{IsWritable};
ghost use Rattle.batch_types.specs.Canonical.{canonical_body};
ghost use Rattle.batch_types.specs.Cells.{Rows};
ghost use Rattle.batch_types.specs.declared.fault.BatchFault.TheVariants.{OutOfMemory as NoMemory};
ghost use Rattle.batch_types.specs.LaysOut.{LaysOut};
ghost use Rattle.batch_columns.specs.Batches.{rows_of, IsBatchOf};
ghost use Rattle.table_types.specs.Valid.{upload_limit};
ghost use Rattle.uploads.specs.Parts.{HasLeft};
ghost use Rattle.uploads.specs.Read.{IsSchemaText, AreRowsText, AreBatchesText};
ghost use Rattle.uploads.specs.declared.decode_fault.DecodeFault.TheVariants.{NotAnUpload};

use crate::decode_fault::DecodeFault;
use crate::encoded_batches::EncodedBatches;
use batch_columns::Batch;
use batch_types::BatchFault;
use batch_types::laws::{batches_are_one, written_rows_are_laid_out};
use flatbuf_meta::laws::written_headers_are_shown;
use header_reading::read_message;
use header_types::laws::shown_schemas_are_in_profile;
use header_types::{BatchHead, Header, MetaFault, Schema};
use header_writing::{write_batch, write_schema};
use record_batches::{read_batch_within, write_body};
use std::alloc::{AllocError, Global};
use table_types::laws::batches_have_headers;

/// What is told of bytes that show no header, or of which it is not known.
fn fault_of(fault: MetaFault) -> DecodeFault
    ensures { result ≡ NotAnUpload → fault ≢ Refused }
{
    match fault {
        MetaFault::OutOfMemory => DecodeFault::OutOfMemory,
        _ => DecodeFault::NotAnUpload,
    }
}

/// The schema that a message shows.
pub(crate) fn shown_schema(alloc: Global, bytes: &[u8]) -> Result<Schema, DecodeFault>
    ensures shown { IfOk result (λ schema. ShowsHeader bytes.now (schema_header (schema_of schema))) }
    ensures fault { IfErr result (λ fault. fault ≡ NotAnUpload
        → (schema : SchemaTree) → ¬ ShowsHeader bytes.now (schema_header schema)) }
    ensures only { IfOk result (λ schema. (other : SchemaTree) → ShowsHeader bytes.now (schema_header other)
        → schema_of schema ≡ other) }
{
    match read_message(alloc, bytes) {
        Ok(Header::Schema(schema)) => Ok(schema),
        Ok(Header::Batch(_)) => Err(DecodeFault::NotAnUpload),
        Err(fault) => Err(fault_of(fault)),
    }
}

/// The head of the batch that a message shows.
pub(crate) fn shown_head(alloc: Global, bytes: &[u8]) -> Result<BatchHead, DecodeFault>
    ensures shown { IfOk result (λ head. ShowsHeader bytes.now (batch_header (head_of head))) }
    ensures fault { IfErr result (λ fault. fault ≡ NotAnUpload
        → (head : Head) → ¬ ShowsHeader bytes.now (batch_header head)) }
    ensures only { IfOk result (λ head. (other : Head) → ShowsHeader bytes.now (batch_header other)
        → head_of head ≡ other) }
{
    match read_message(alloc, bytes) {
        Ok(Header::Batch(head)) => Ok(head),
        Ok(Header::Schema(_)) => Err(DecodeFault::NotAnUpload),
        Err(fault) => Err(fault_of(fault)),
    }
}

/// Whether these bytes are what is written of a schema.
fn is_schema_text(alloc: Global, schema: &Schema, bytes: &[u8]) -> Result<bool, AllocError>
    requires profile { InProfile (schema_of schema.now) }
    ensures { IfOk result (λ is. IsTrue is ↔ IsSchemaText bytes.now (schema_of schema.now)) }
{
    let mut written = Vec::with_capacity(alloc, bytes.len())?;
    write_schema(schema, &mut written)?;
    Ok(written.as_slice() == bytes)
}

/// The schema of which these bytes are what is written: one that can be written and read back ([`Schema::in_profile`]), in
/// the one encoding of a message with it (Apache Arrow, "Arrow Columnar Format", "Encapsulated message format").
///
/// [`DecodeFault::NotAnUpload`] says that they are that of none, and [`DecodeFault::OutOfMemory`] that memory was refused.
pub fn read_schema(alloc: Global, bytes: &[u8]) -> Result<Schema, DecodeFault>
    ensures read { IfOk result (λ schema. IsSchemaText bytes.now (schema_of schema)) }
    ensures fault { IfErr result (λ fault. fault ≡ NotAnUpload
        → (schema : SchemaTree) → ¬ IsSchemaText bytes.now schema) }
    ensures only { IfOk result (λ schema. (other : SchemaTree) → IsSchemaText bytes.now other
        → schema_of schema ≡ other) }
{
    shown_schemas_are_in_profile();
    written_headers_are_shown();
    let schema = shown_schema(alloc, bytes)?;
    if is_schema_text(alloc, &schema, bytes)? {
        Ok(schema)
    } else {
        Err(DecodeFault::NotAnUpload)
    }
}

/// What is told of a header and a body of which no batch is read.
fn fault_of_batch(fault: BatchFault) -> DecodeFault
    ensures { result ≡ NotAnUpload → fault ≢ NoMemory }
{
    match fault {
        BatchFault::OutOfMemory => DecodeFault::OutOfMemory,
        _ => DecodeFault::NotAnUpload,
    }
}

/// The batch that a header and a body lay out, where the body that is written of it is no longer than this one. Else none is
/// built: the body is not the one that is written of it.
fn laid_batch(
    alloc: Global,
    schema: &Schema,
    head: &BatchHead,
    body: &[u8],
) -> Result<Batch, DecodeFault>
    requires profile { InProfile (schema_of schema.now) }
    requires short { length body.now ≤ upload_limit }
    ensures laid { IfOk result (λ batch. LaysOut (schema_of schema.now) (head_of head.now) body.now (rows_of batch)) }
    ensures of_schema { IfOk result (λ batch. IsBatchOf (schema_of schema.now) batch) }
    ensures within { IfOk result
        (λ batch. length (canonical_body (schema_of schema.now) (rows_of batch)) ≤ length body.now) }
    ensures fault { IfErr result (λ fault. fault ≡ NotAnUpload
        → (rows : Rows) → LaysOut (schema_of schema.now) (head_of head.now) body.now rows
        → length body.now < length (canonical_body (schema_of schema.now) rows)) }
{
    batches_are_one();
    match read_batch_within(alloc, schema, head, body, body.len() as u64) {
        Ok(Some(batch)) => Ok(batch),
        Ok(None) => Err(DecodeFault::NotAnUpload),
        Err(fault) => Err(fault_of_batch(fault)),
    }
}

/// Whether these bytes are what is written of a batch's head.
fn is_head_text(alloc: Global, head: &BatchHead, bytes: &[u8]) -> Result<bool, AllocError>
    requires writable { IsWritable (batch_header (head_of head.now)) }
    ensures { IfOk result (λ is. IsTrue is ↔ (bytes.now ≡ header_text (batch_header (head_of head.now)))) }
{
    let mut text = Vec::with_capacity(alloc, bytes.len())?;
    write_batch(head, &mut text)?;
    Ok(text.as_slice() == bytes)
}

/// Whether a header and a body are what is written of a batch.
fn is_written_so(
    alloc: Global,
    schema: &Schema,
    batch: &Batch,
    header: &[u8],
    body: &[u8],
) -> Result<bool, AllocError>
    requires profile { InProfile (schema_of schema.now) }
    requires of_schema { IsBatchOf (schema_of schema.now) batch.now }
    requires short { length body.now ≤ upload_limit }
    ensures { IfOk result
        (λ is. IsTrue is ↔ AreRowsText (schema_of schema.now) (header.now, body.now) (rows_of batch.now)) }
{
    batches_have_headers();
    let (head, written) = write_body(alloc, schema, batch)?;
    if written.as_slice() != body {
        return Ok(false);
    }
    is_head_text(alloc, &head, header)
}

/// The batch of this schema of which a header and a body of at most 16,777,216 bytes are what is written, each in its one
/// encoding (Apache Arrow, "Arrow Columnar Format", "Encapsulated message format").
///
/// [`DecodeFault::NotAnUpload`] says that they are that of none, and [`DecodeFault::OutOfMemory`] that memory was refused.
pub fn read_written_batch(
    alloc: Global,
    schema: &Schema,
    header: &[u8],
    body: &[u8],
) -> Result<Batch, DecodeFault>
    requires profile { InProfile (schema_of schema.now) }
    requires short { length body.now ≤ upload_limit }
    ensures read { IfOk result
        (λ batch. AreRowsText (schema_of schema.now) (header.now, body.now) (rows_of batch)) }
    ensures of_schema { IfOk result (λ batch. IsBatchOf (schema_of schema.now) batch) }
    ensures fault { IfErr result (λ fault. fault ≡ NotAnUpload
        → (rows : Rows) → ¬ AreRowsText (schema_of schema.now) (header.now, body.now) rows) }
    ensures only { IfOk result (λ batch. (other : Rows)
        → AreRowsText (schema_of schema.now) (header.now, body.now) other → rows_of batch ≡ other) }
{
    batches_are_one();
    written_rows_are_laid_out();
    written_headers_are_shown();
    batches_have_headers();
    let head = shown_head(alloc, header)?;
    let batch = laid_batch(alloc, schema, &head, body)?;
    if is_written_so(alloc, schema, &batch, header, body)? {
        Ok(batch)
    } else {
        Err(DecodeFault::NotAnUpload)
    }
}

/// Whether each of these encoded batches is what is written of a batch of the schema.
pub(crate) fn check_batches(
    alloc: Global,
    schema: &Schema,
    batches: &[u8],
) -> Result<(), DecodeFault>
    requires profile { InProfile (schema_of schema.now) }
    requires left { (list : List (List ℕ × List ℕ)) × HasLeft batches.now list }
    requires short { length batches.now ≤ upload_limit }
    ensures ok { OnOk result ((list : List (List ℕ × List ℕ)) → HasLeft batches.now list
        → (rows : List Rows) × AreBatchesText (schema_of schema.now) list rows) }
    ensures fault { IfErr result (λ fault. fault ≡ NotAnUpload
        → (list : List (List ℕ × List ℕ)) (rows : List Rows) → HasLeft batches.now list
        → ¬ AreBatchesText (schema_of schema.now) list rows) }
{
    let mut left = EncodedBatches::new(batches);
    while let Some((header, body)) = left.next() {
        read_written_batch(alloc, schema, header, body)?;
    }
    Ok(())
}
