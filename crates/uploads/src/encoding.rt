//! The encoding of an upload, written part by part (Protocol Buffers, "Encoding").

ghost use Rattle.std.specs.Prelude.{◌≡◌, ◌≤◌, ◌++◌, ℕ, List, [], ◌∷◌, length, map, IfOk, OnOk};
ghost use Rattle.std.specs.List.{AllByRecursion};
ghost use Rattle.proto_fields.specs.Field.{field_text, fields_text, present};
ghost use Rattle.proto_messages.specs.Canonical.{bytes_field};
ghost use Rattle.header_types.specs.Fields.{SchemaTree};
ghost use Rattle.header_types.specs.Header.{batch_header};
ghost use Rattle.header_types.specs.HeaderViews.{head_of};
ghost use Rattle.header_types.specs.Profile.{InProfile};
ghost use Rattle.header_types.specs.Views.{schema_of};
ghost use Rattle.header_writing.specs.Canonical.{header_text};
ghost use Rattle.header_writing.specs.Written.{FitsSchema};
ghost use Rattle.flatbuf_meta.specs.Writable.{IsWritable};
ghost use Rattle.batch_types.specs.Canonical.{canonical_body};
ghost use Rattle.batch_columns.specs.Batches.{rows_of, IsBatchOf};
ghost use Rattle.table_types.specs.Uploads.{schema_text, upload_text};
ghost use Rattle.table_types.specs.Valid.{IsTableName, id_size, upload_limit};
ghost use Rattle.uploads.specs.Parts.{batch_parts, batch_text, batches_text};
ghost use Rattle.uploads.specs.Making.{AreOfSchema, upload_of};
ghost use Rattle.uploads.specs.Sized.{parts_held};
ghost use Rattle.uploads.specs.Written.{AreShort};

use crate::lengths::field_length;
use batch_columns::Batch;
use header_types::{BatchHead, Schema};
use header_writing::{write_batch, write_schema};
use proto_fields::{append_number, write_bytes, write_nonempty_bytes};
use record_batches::{append_body, batch_head};
use std::alloc::{AllocError, Global};
use table_types::laws::batches_have_headers;

/// The key of the field of a batch, whose number is 4 and which holds bytes.
const BATCH_KEY: u64 = 4 * 8 + 2;

/// The key of the field of a batch's body, whose number is 2 and which holds bytes.
const BODY_KEY: u64 = 2 * 8 + 2;

/// Puts the field of a schema.
fn put_schema(text: &mut Vec<u8>, schema: &Schema) -> Result<(), AllocError>
    requires profile { InProfile (schema_of schema.now) }
    ensures put { OnOk result
        (text.new.items ≡ text.old.items ++ field_text (bytes_field 3 (schema_text (schema_of schema.now)))) }
    ensures fits { OnOk result (FitsSchema (schema_of schema.now)) }
{
    let mut header = Vec::new(*text.allocator());
    write_schema(schema, &mut header)?;
    write_bytes(text, 3, header.as_slice())
}

/// The message of a batch's head.
fn head_bytes(alloc: Global, head: &BatchHead) -> Result<Vec<u8>, AllocError>
    requires writable { IsWritable (batch_header (head_of head.now)) }
    ensures { IfOk result (λ text. text.items ≡ header_text (batch_header (head_of head.now))) }
{
    let mut text = Vec::new(alloc);
    write_batch(head, &mut text)?;
    Ok(text)
}

/// Puts the field of a batch's body, which has so many bytes: none where it has no byte.
fn put_body(text: &mut Vec<u8>, batch: &Batch, count: u64) -> Result<(), AllocError>
    ensures { OnOk result ((schema : SchemaTree) → IsBatchOf schema batch.now
        → length (canonical_body schema (rows_of batch.now)) ≡ count → text.new.items
        ≡ text.old.items ++ fields_text (present (bytes_field 2 (canonical_body schema (rows_of batch.now)) ∷ []))) }
{
    if count == 0 {
        return Ok(());
    }
    append_number(text, BODY_KEY)?;
    append_number(text, count)?;
    append_body(text, batch)
}

/// Puts the field of a batch of which this is the header, and of which the body has so many bytes.
fn put_parts(text: &mut Vec<u8>, header: &[u8], batch: &Batch, count: u64) -> Result<(), AllocError>
    requires header_small { length header.now ≤ upload_limit }
    requires body_small { count ≤ upload_limit }
    ensures { OnOk result ((schema : SchemaTree) → IsBatchOf schema batch.now
        → length (canonical_body schema (rows_of batch.now)) ≡ count → text.new.items ≡ text.old.items
        ++ field_text (bytes_field 4 (batch_text (header.now, canonical_body schema (rows_of batch.now))))) }
{
    let length = field_length(1, header.len() as u64) + field_length(2, count);
    append_number(text, BATCH_KEY)?;
    append_number(text, length)?;
    write_nonempty_bytes(text, 1, header)?;
    put_body(text, batch, count)
}

/// Puts the field of a batch, whose body goes from the columns into it at once.
fn put_batch(text: &mut Vec<u8>, schema: &Schema, batch: &Batch) -> Result<(), AllocError>
    requires profile { InProfile (schema_of schema.now) }
    requires of_schema { IsBatchOf (schema_of schema.now) batch.now }
    requires short { length (canonical_body (schema_of schema.now) (rows_of batch.now)) ≤ upload_limit }
    requires headed { length (batch_parts (schema_of schema.now) (rows_of batch.now)).0 ≤ upload_limit }
    ensures { OnOk result (text.new.items ≡ text.old.items
        ++ field_text (bytes_field 4 (batch_text (batch_parts (schema_of schema.now) (rows_of batch.now))))) }
{
    batches_have_headers();
    let alloc = *text.allocator();
    let head = batch_head(alloc, schema, batch)?;
    let header = head_bytes(alloc, &head)?;
    put_parts(
        text,
        header.as_slice(),
        batch,
        head.body_length.unsigned_abs(),
    )
}

/// Puts the fields of some batches.
fn put_batches(text: &mut Vec<u8>, schema: &Schema, batches: &[Batch]) -> Result<(), AllocError>
    requires of_schema { AreOfSchema (schema_of schema.now) batches.now }
    requires short { AreShort (schema_of schema.now) batches.now }
    ensures { OnOk result
        (text.new.items ≡ text.old.items ++ batches_text (parts_held (schema_of schema.now) batches.now)) }
{
    for batch in batches {
        put_batch(text, schema, batch)?;
    }
    Ok(())
}

/// The encoding of these parts, which has so many bytes.
pub(crate) fn written_upload(
    alloc: Global,
    size: usize,
    table: &[u8],
    id: &[u8],
    schema: &Schema,
    batches: &[Batch],
) -> Result<Vec<u8>, AllocError>
    requires named { IsTableName table.now }
    requires id { length id.now ≡ id_size }
    requires of_schema { AreOfSchema (schema_of schema.now) batches.now }
    requires short { AreShort (schema_of schema.now) batches.now }
    ensures written { IfOk result
        (λ text. text.items ≡ upload_text (upload_of table.now id.now (schema_of schema.now) batches.now)) }
    ensures fits { OnOk result (FitsSchema (schema_of schema.now)) }
{
    let mut text = Vec::with_capacity(alloc, size)?;
    write_bytes(&mut text, 1, table)?;
    write_bytes(&mut text, 2, id)?;
    put_schema(&mut text, schema)?;
    put_batches(&mut text, schema, batches)?;
    Ok(text)
}
