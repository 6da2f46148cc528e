//! The message with the schema.

ghost use Rattle.std.specs.Prelude.{◌≡◌};
ghost use Rattle.downloads.specs.Told.{TellsSchema};
ghost use Rattle.downloads.specs.MessageParts.{TellsSchemaOf};

use crate::parts::{Parts, parts_of};
use header_types::Schema;
use std::alloc::{AllocError, Global};
use uploads::{DecodeFault, read_schema};

/// The schema of the message of these parts.
fn schema_of_parts(alloc: Global, parts: Parts<'_>) -> Result<Option<Schema>, AllocError>
    ensures { TellsSchemaOf parts.entry.header.now parts.entry.metadata.now parts.entry.body.now result }
{
    if !parts.metadata.is_empty() || !parts.body.is_empty() {
        return Ok(None);
    }
    match read_schema(alloc, parts.header) {
        Ok(schema) => Ok(Some(schema)),
        Err(DecodeFault::NotAnUpload) => Ok(None),
        Err(DecodeFault::OutOfMemory) => Err(AllocError),
    }
}

/// The schema of which these bytes, no more than 4,194,304, are the message with which an answer begins: the one encoding
/// of a `FlightData` that has the header of the schema, and nothing else (Apache Arrow, "Flight.proto", `FlightData`).
/// `None` says that they are that of none, and [`AllocError`] that memory was refused.
pub fn schema_in(alloc: Global, message: &[u8]) -> Result<Option<Schema>, AllocError>
    ensures { TellsSchema message.now result }
{
    let Some(parts) = parts_of(alloc, message)? else {
        return Ok(None);
    };
    schema_of_parts(alloc, parts)
}
