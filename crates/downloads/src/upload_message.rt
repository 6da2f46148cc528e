//! The messages of an upload.

ghost use Rattle.std.specs.Prelude.{◌≡◌, ℕ, List, IfSome, IfNone};
ghost use Rattle.header_types.specs.Profile.{InProfile};
ghost use Rattle.header_types.specs.Views.{schema_of};
ghost use Rattle.table_types.specs.Valid.{IsId};
ghost use Rattle.downloads.specs.Told.{TellsUpload};
ghost use Rattle.downloads.specs.MessageParts.{TellsRows, TellsOfParts};

use crate::parts::{Parts, parts_of};
use batch_columns::Batch;
use header_types::Schema;
use std::alloc::{AllocError, Global};
use uploads::{DecodeFault, MAX_UPLOAD_BYTES, read_written_batch};

/// What a message says of an upload: its id, and one of its batches; or the id alone, of an upload without batches.
#[derive(Debug, Drop)]
pub struct UploadMessage {
    /// The upload's id.
    pub id: [u8; 16],
    /// The batch, if the message has one.
    pub batch: Option<Batch>,
}

/// The id that these bytes are: 16 of them.
fn id_in(bytes: &[u8]) -> Option<[u8; 16]>
    ensures some { IfSome result (λ id. (id ≡ bytes.now) × IsId id) }
    ensures none { IfNone result (¬ IsId bytes.now) }
{
    let (id, rest) = bytes.split_first_chunk::<16>()?;
    if rest.is_empty() { Some(*id) } else { None }
}

/// The batch of which this header and this body are what is written.
fn batch_in(
    alloc: Global,
    schema: &Schema,
    header: &[u8],
    body: &[u8],
) -> Result<Option<Batch>, AllocError>
    requires profile { InProfile (schema_of schema.now) }
    ensures { TellsRows (schema_of schema.now) header.now body.now result }
{
    if body.len() > MAX_UPLOAD_BYTES {
        return Ok(None);
    }
    match read_written_batch(alloc, schema, header, body) {
        Ok(batch) => Ok(Some(batch)),
        Err(DecodeFault::NotAnUpload) => Ok(None),
        Err(DecodeFault::OutOfMemory) => Err(AllocError),
    }
}

/// What the message of these parts says of an upload of this id.
fn upload_of_parts(
    alloc: Global,
    schema: &Schema,
    id: [u8; 16],
    parts: Parts<'_>,
) -> Result<Option<UploadMessage>, AllocError>
    requires profile { InProfile (schema_of schema.now) }
    ensures { TellsOfParts (schema_of schema.now) id parts.entry.header.now parts.entry.body.now result }
{
    if parts.header.is_empty() && parts.body.is_empty() {
        return Ok(Some(UploadMessage { id, batch: None }));
    }
    match batch_in(alloc, schema, parts.header, parts.body)? {
        Some(batch) => Ok(Some(UploadMessage {
            id,
            batch: Some(batch),
        })),
        None => Ok(None),
    }
}

/// What these bytes, no more than 4,194,304, say of an upload to a table of this schema: the one encoding of a `FlightData`
/// that has the upload's id, of 16 bytes, and the header and the body of a batch of the schema; or the id alone
/// (Apache Arrow, "Flight.proto", `FlightData`). `None` says that they are that of none, and [`AllocError`] that memory was
/// refused.
pub fn upload_message_in(
    alloc: Global,
    schema: &Schema,
    message: &[u8],
) -> Result<Option<UploadMessage>, AllocError>
    requires profile { InProfile (schema_of schema.now) }
    ensures { TellsUpload (schema_of schema.now) message.now result }
{
    let Some(parts) = parts_of(alloc, message)? else {
        return Ok(None);
    };
    let Some(id) = id_in(parts.metadata) else {
        return Ok(None);
    };
    upload_of_parts(alloc, schema, id, parts)
}
