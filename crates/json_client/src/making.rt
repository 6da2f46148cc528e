//! Uploads of rows.

ghost use Rattle.std.specs.Prelude.{◌≡◌, Some, IfErr, IfOk};
ghost use Rattle.std.specs.Option.{option_map};
ghost use Rattle.header_types.specs.Views.{schema_of};
ghost use Rattle.table_types.specs.Uploads.{Upload as Uploaded, upload_text};
ghost use Rattle.json_client.specs.Puts.{IsUploadOfRows, MakesNoUpload};

use crate::fault::RowCallFault;
use header_types::Schema;
use json_rows::laws::rows_are_one;
use json_rows::{read_rows, schema_of_rows};
use std::alloc::Global;
use uploads::Upload;

/// The upload to this table, under this id, of the rows that the lines of a text tell, of this schema.
fn upload_of_schema(
    alloc: Global,
    table: &str,
    id: [u8; 16],
    text: &[u8],
    schema: &Schema,
) -> Result<Upload, RowCallFault>
    ensures made { IfOk result (λ upload. (u : Uploaded) × (upload ≡ upload_text u)
        × IsUploadOfRows table.now id (Some (schema_of schema.now)) text.now u) }
    ensures none { IfErr result (MakesNoUpload table.now id (Some (schema_of schema.now)) text.now) }
{
    let batches = match read_rows(alloc, schema, text) {
        Ok(batches) => batches,
        Err(fault) => return Err(RowCallFault::Rows(fault)),
    };
    match Upload::new(alloc, table, id, schema, &batches) {
        Ok(upload) => Ok(upload),
        Err(fault) => Err(RowCallFault::Upload(fault)),
    }
}

/// The upload to this table, under this id, of the rows that the lines of a text tell: of the schema, where one is
/// given, else of that of [`schema_of_rows`]. Its batches are those of [`read_rows`].
///
/// - [`RowCallFault::Rows`]: the lines tell no rows of the schema, as `read_rows` and `schema_of_rows` tell it, with the number of
///   the line, from 1; of a row that fits in no batch, `TooLarge`.
/// - [`RowCallFault::Upload`]: the rows make no upload, as [`Upload::new`] tells it: a name that is none of a table; more than 1,024
///   batches; a schema that is not in profile; or more than 16,777,216 bytes in all.
pub fn upload_of_rows(
    alloc: Global,
    table: &str,
    id: [u8; 16],
    text: &[u8],
    schema: Option<&Schema>,
) -> Result<Upload, RowCallFault>
    ensures made { IfOk result (λ upload. (u : Uploaded) × (upload ≡ upload_text u)
        × IsUploadOfRows table.now id (option_map (λ s. schema_of s.now) schema.entry) text.now u) }
    ensures none { IfErr result (MakesNoUpload table.now id (option_map (λ s. schema_of s.now) schema.entry) text.now) }
{
    rows_are_one();
    if let Some(schema) = schema {
        return upload_of_schema(alloc, table, id, text, schema);
    }
    let schema = match schema_of_rows(alloc, text) {
        Ok(schema) => schema,
        Err(fault) => return Err(RowCallFault::Rows(fault)),
    };
    upload_of_schema(alloc, table, id, text, &schema)
}
