//! Which version an upload made.

ghost use Rattle.std.specs.Prelude.{◌≡◌, ℕ, List};
ghost use Rattle.std.specs.Option.{IsSomeAnd};
ghost use Rattle.table_types.specs.Valid.{FitsFrame};
ghost use Rattle.client_calls.specs.Results.{GivesVersion, HasVersion};
ghost use Rattle.client_calls.specs.Parts.{IsResultOf, IsMetadataOf, MessageSays};

use crate::client_fault::ClientFault;
use call_protocol::{CallFault, result_message};
use proto_fields::{bytes_at, number_at};
use proto_messages::laws::canonical_messages_are_messages;
use std::alloc::Global;

/// The number of a result's field with its metadata.
const METADATA: u32 = 1;

/// The number of the metadata's field with the version.
const VERSION: u32 = 2;

/// The metadata of a result.
fn metadata_in(message: &[u8]) -> Option<&[u8]>
    ensures { (id : List ℕ) (version : ℕ) → IsResultOf id version message.now
        → IsSomeAnd result (λ metadata. IsMetadataOf id version metadata.now) }
{
    canonical_messages_are_messages();
    bytes_at(message, METADATA).ok()
}

/// The version that the metadata tell.
fn version_told(metadata: &[u8]) -> Option<u64>
    ensures { (id : List ℕ) (version : ℕ) → IsMetadataOf id version metadata.now
        → IsSomeAnd result (λ told. told ≡ version) }
{
    canonical_messages_are_messages();
    number_at(metadata, VERSION).ok()
}

/// The version of a result, if it tells one.
fn version_of(message: &[u8]) -> Option<u64>
    ensures { (id : List ℕ) (version : ℕ) → IsResultOf id version message.now
        → IsSomeAnd result (λ told. told ≡ version) }
{
    let metadata = metadata_in(message)?;
    version_told(metadata)
}

/// The version in the result of an upload of this id.
pub(crate) fn version_in(alloc: Global, message: &[u8], id: &[u8]) -> Result<u64, ClientFault>
    ensures { FitsFrame message.now → MessageSays (GivesVersion id.now) (HasVersion id.now) message.now result }
{
    let Some(version) = version_of(message) else {
        return Err(ClientFault::BadAnswer);
    };
    if version == 0 {
        return Err(ClientFault::BadAnswer);
    }
    let Ok(expected) = result_message(alloc, id, version) else {
        return Err(ClientFault::Call(CallFault::OutOfMemory));
    };
    if expected.as_slice() == message {
        Ok(version)
    } else {
        Err(ClientFault::BadAnswer)
    }
}
