//! An upload made of its parts.

ghost use Rattle.std.specs.Prelude.{◌≡◌, ◌↔◌, length, IfOk, OnOk, IfErr, IsTrue};
ghost use Rattle.std.specs.List.{AllByRecursion};
ghost use Rattle.header_types.specs.Views.{schema_of};
ghost use Rattle.batch_columns.specs.Batches.{IsBatchOf};
ghost use Rattle.table_types.specs.Uploads.{upload_text};
ghost use Rattle.table_types.specs.Valid.{IsUpload};
ghost use Rattle.uploads.specs.Making.{AreOfSchema, AreMade, AreRefused, upload_of};

use crate::encoding::written_upload;
use crate::limits::MAX_UPLOAD_BATCHES;
use crate::sizes::upload_size;
use crate::upload_fault::UploadFault;
use batch_columns::Batch;
use header_types::Schema;
use std::alloc::Global;
use table_types::is_table_name;

/// Whether each of these batches is of the schema.
fn are_batches_of(schema: &Schema, batches: &[Batch]) -> bool
    ensures { IsTrue result ↔ AllByRecursion (IsBatchOf (schema_of schema.now)) batches.now }
{
    for batch in batches {
        if !batch.is_of(schema) {
            return false;
        }
    }
    true
}

/// Whether the schema can be written and read back, and each of these batches is of it.
fn are_of_schema(schema: &Schema, batches: &[Batch]) -> bool
    ensures { IsTrue result ↔ AreOfSchema (schema_of schema.now) batches.now }
{
    schema.in_profile() && are_batches_of(schema, batches)
}

/// The one encoding of the upload to this table, under this id, of this schema and these batches.
///
/// [`UploadFault`] has what they may be refused for, and the first of these is told that holds. How long the encoding is,
/// and each message that is served of it (`FlightData` of Apache Arrow, "Flight.proto", with the schema, or with a batch
/// and the upload's id), is counted of what is written here, whatever the batches came from, before memory is asked.
pub fn encode_upload(
    alloc: Global,
    table: &str,
    id: &[u8; 16],
    schema: &Schema,
    batches: &[Batch],
) -> Result<Vec<u8>, UploadFault>
    ensures text { IfOk result
        (λ text. text.items ≡ upload_text (upload_of table.now id.now (schema_of schema.now) batches.now)) }
    ensures upload { OnOk result (IsUpload (upload_of table.now id.now (schema_of schema.now) batches.now)) }
    ensures made { OnOk result (AreMade table.now id.now (schema_of schema.now) batches.now) }
    ensures fault { IfErr result (AreRefused table.now id.now (schema_of schema.now) batches.now) }
{
    let name = table.as_bytes();
    if !is_table_name(name) {
        return Err(UploadFault::BadTable);
    }
    if batches.len() > MAX_UPLOAD_BATCHES {
        return Err(UploadFault::TooManyBatches);
    }
    if !are_of_schema(schema, batches) {
        return Err(UploadFault::ShapeDiffers);
    }
    let Some(size) = upload_size(name, id, schema, batches) else {
        return Err(UploadFault::TooLarge);
    };
    let text = written_upload(alloc, size as usize, name, id, schema, batches)?;
    Ok(text)
}
