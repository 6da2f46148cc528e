//! How long the encoding of an upload will be, told before anything of it is written. No memory is taken.

ghost use Rattle.std.specs.Prelude.{◌≡◌, ◌*◌, ◌+◌, ◌≤◌, ℕ, List, length, map, IfSome, IfNone, IsSome};
ghost use Rattle.std.specs.List.{AllByRecursion};
ghost use Rattle.proto_fields.specs.Field.{field_text};
ghost use Rattle.proto_messages.specs.Canonical.{bytes_field};
ghost use Rattle.header_types.specs.Profile.{InProfile};
ghost use Rattle.header_types.specs.Views.{schema_of};
ghost use Rattle.batch_types.specs.Cells.{Rows};
ghost use Rattle.batch_types.specs.Written.{CanBeWritten};
ghost use Rattle.batch_columns.specs.Batches.{rows_of, IsBatchOf};
ghost use Rattle.table_types.specs.Uploads.{head_text, upload_text};
ghost use Rattle.table_types.specs.Valid.{IsTableName, FitsFrame, id_size, batches_limit};
ghost use Rattle.uploads.specs.Parts.{batch_parts, batch_text, batches_text, served_of};
ghost use Rattle.uploads.specs.Making.{AreOfSchema, IsSmall, upload_of};
ghost use Rattle.uploads.specs.Sized.{parts_held, AreServed};

use crate::lengths::{field_length, fits_frame, part_length};
use ballots::MAX_UPLOAD_BYTES;
use batch_columns::{Batch, Place, place_behind};
use batch_types::laws::written_rows_are_laid_out;
use header_types::Schema;
use header_writing::{batch_length, schema_length};
use record_batches::body_length;

/// How many bytes the message has that is written of the head of a batch of this schema, whatever its rows.
fn head_length(schema: &Schema) -> u64
    requires profile { InProfile (schema_of schema.now) }
    ensures { (rows : Rows) → CanBeWritten (schema_of schema.now) rows
        → result ≡ length (head_text (schema_of schema.now) rows) }
{
    written_rows_are_laid_out();
    let counts = place_behind(&schema.fields, Place::FIRST);
    batch_length(counts.node, counts.buffer)
}

/// How many bytes the field has that holds a batch, of which header and body have so many.
fn encoded_length(header: u64, body: u64) -> u64
    requires header_small { header ≤ 4194304 }
    requires body_small { body ≤ 4194304 }
    ensures long { (parts : List ℕ × List ℕ) → length parts.0 ≡ header → length parts.1 ≡ body
        → result ≡ length (field_text (bytes_field 4 (batch_text parts))) }
    ensures few { result ≤ header + body + 60 }
{
    part_length(4, field_length(1, header) + field_length(2, body))
}

/// How many bytes a batch has in the encoding of an upload of this schema: those of its field, with its header and its body
/// as they are written. `None` exactly where no frame has room for what is served of it, with the upload's id.
pub fn batch_size(schema: &Schema, id: &[u8], batch: &Batch) -> Option<u64>
    requires profile { InProfile (schema_of schema.now) }
    requires of_schema { IsBatchOf (schema_of schema.now) batch.now }
    ensures size { IfSome result (λ n. n
        ≡ length (field_text (bytes_field 4 (batch_text (batch_parts (schema_of schema.now) (rows_of batch.now)))))) }
    ensures few { IfSome result (λ n. n ≤ 8388668) }
    ensures served { IfSome result
        (λ n. FitsFrame (served_of id.now (batch_parts (schema_of schema.now) (rows_of batch.now)))) }
    ensures none { IfNone result
        (¬ FitsFrame (served_of id.now (batch_parts (schema_of schema.now) (rows_of batch.now)))) }
    ensures can { CanBeWritten (schema_of schema.now) (rows_of batch.now) }
{
    let header = head_length(schema);
    let Some(body) = body_length(batch) else {
        return None;
    };
    if !fits_frame(header, id.len() as u64, body) {
        return None;
    }
    Some(encoded_length(header, body))
}

/// How many bytes the fields of these batches have; `None` exactly where no frame has room for what is served of one.
fn batches_size(schema: &Schema, id: &[u8], batches: &[Batch]) -> Option<u64>
    requires few { length batches.now ≤ batches_limit }
    requires of_schema { AreOfSchema (schema_of schema.now) batches.now }
    ensures size { IfSome result (λ n. n ≡ length (batches_text (parts_held (schema_of schema.now) batches.now))) }
    ensures few { IfSome result (λ n. n ≤ 8388668 * batches_limit) }
    ensures served { IfSome result (λ n. AreServed id.now (schema_of schema.now) batches.now) }
    ensures can { IfSome result (λ n. AllByRecursion (CanBeWritten (schema_of schema.now)) (map rows_of batches.now)) }
    ensures none { IfNone result (¬ AreServed id.now (schema_of schema.now) batches.now) }
{
    let mut total = 0;
    for batch in batches {
        let Some(size) = batch_size(schema, id, batch) else {
            return None;
        };
        total += size;
    }
    Some(total)
}

/// How many bytes the encoding of these parts has; `None` exactly where it is too long, or a message that is served of it.
pub(crate) fn upload_size(
    table: &[u8],
    id: &[u8],
    schema: &Schema,
    batches: &[Batch],
) -> Option<u64>
    requires named { IsTableName table.now }
    requires id { length id.now ≡ id_size }
    requires few { length batches.now ≤ batches_limit }
    requires of_schema { AreOfSchema (schema_of schema.now) batches.now }
    ensures size { IfSome result
        (λ n. n ≡ length (upload_text (upload_of table.now id.now (schema_of schema.now) batches.now))) }
    ensures small { IfSome result (λ n. IsSmall (upload_of table.now id.now (schema_of schema.now) batches.now)) }
    ensures can { IfSome result (λ n. AllByRecursion (CanBeWritten (schema_of schema.now)) (map rows_of batches.now)) }
    ensures none { IfNone result (¬ IsSmall (upload_of table.now id.now (schema_of schema.now) batches.now)) }
{
    let header = schema_length(schema);
    if !fits_frame(header, 0, 0) {
        return None;
    }
    let Some(body) = batches_size(schema, id, batches) else {
        return None;
    };
    let names = part_length(1, table.len() as u64) + part_length(2, id.len() as u64);
    let size = names + part_length(3, header) + body;
    if size <= MAX_UPLOAD_BYTES as u64 {
        Some(size)
    } else {
        None
    }
}
