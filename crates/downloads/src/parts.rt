//! The parts of a message: its header, what the service adds, and its body.

ghost use Rattle.std.specs.Prelude.{◌≡◌, ℕ, List, IfOk};
ghost use Rattle.std.specs.Option.{IsSomeAnd};
ghost use Rattle.proto_fields.specs.Lookup.{TextMeans};
ghost use Rattle.proto_fields.specs.Meaning.{bytes_meant};
ghost use Rattle.table_types.specs.Served.{data_text};
ghost use Rattle.table_types.specs.Valid.{FitsFrame};
ghost use Rattle.downloads.specs.MessageParts.{AreParts, TellsParts};

use proto_fields::bytes_at;
use proto_messages::laws::canonical_messages_are_messages;
use proto_wire::{FlightData, FlightDataRef};
use std::alloc::{AllocError, Global};

/// The parts of a message that has no descriptor.
#[derive(Clone, Copy)]
pub(crate) struct Parts<'a> {
    /// The header.
    pub(crate) header: &'a [u8],
    /// What the service adds.
    pub(crate) metadata: &'a [u8],
    /// The body.
    pub(crate) body: &'a [u8],
}

/// What the fields of this number mean.
fn bytes_in(message: &[u8], number: u32) -> Option<&[u8]>
    ensures { (content : List ℕ) → TextMeans (bytes_meant number) message.now content
        → IsSomeAnd result (λ found. found.now ≡ content) }
{
    bytes_at(message, number).ok()
}

/// The parts of the message, if it has such.
fn found_parts(message: &[u8]) -> Option<Parts<'_>>
    ensures { (header metadata body : List ℕ) → AreParts message.now header metadata body
        → IsSomeAnd result (λ parts. (parts.header.now ≡ header) × (parts.metadata.now ≡ metadata) × (parts.body.now ≡ body)) }
{
    canonical_messages_are_messages();
    let header = bytes_in(message, FlightData::DATA_HEADER_FIELD)?;
    let metadata = bytes_in(message, FlightData::APP_METADATA_FIELD)?;
    let body = bytes_in(message, FlightData::DATA_BODY_FIELD)?;
    Some(Parts {
        header,
        metadata,
        body,
    })
}

/// The message of these parts, which has so many bytes.
fn message_of(alloc: Global, parts: Parts<'_>, length: usize) -> Result<Vec<u8>, AllocError>
    ensures { IfOk result (λ message. message.items
        ≡ data_text parts.entry.header.now parts.entry.metadata.now parts.entry.body.now) }
{
    let lent = FlightDataRef {
        flight_descriptor: None,
        data_header: parts.header,
        app_metadata: parts.metadata,
        data_body: parts.body,
    };
    let mut message = Vec::with_capacity(alloc, length)?;
    match lent.encode(&mut message) {
        Ok(()) => Ok(message),
        Err(_) => Err(AllocError),
    }
}

/// The parts of which the bytes are the message, or `None` where they are that of none.
pub(crate) fn parts_of(alloc: Global, message: &[u8]) -> Result<Option<Parts<'_>>, AllocError>
    ensures { TellsParts message.now result }
{
    let Some(parts) = found_parts(message) else {
        return Ok(None);
    };
    let again = message_of(alloc, parts, message.len())?;
    if again.as_slice() == message {
        Ok(Some(parts))
    } else {
        Ok(None)
    }
}
