//! What is answered to an upload that counts (Apache Arrow, "Flight.proto", `PutResult`, "Upload response message").

ghost use Rattle.std.specs.Prelude.{◌≡◌, IfOk};
ghost use Rattle.proto_messages.specs.Canonical.{canonical};
ghost use Rattle.call_protocol.specs.Results.{applied_descriptor, applied_text, put_result};

use proto_messages::{ProtoMessage, append_bytes, append_uint64};
use proto_wire::PutResult;
use std::alloc::{AllocError, Global};

/// The number of the metadata's field with the upload's id.
const ID: u32 = 1;

/// The number of the metadata's field with the version.
const VERSION: u32 = 2;

/// The metadata of a result: the id of an upload, and the version that it made.
#[tactic(auto, using(proto_messages::proofs::CallerLemmas::chains))]
fn applied(alloc: Global, id: &[u8], version: u64) -> Result<Vec<u8>, AllocError>
    ensures { IfOk result (λ bytes. bytes.items ≡ applied_text id.now version) }
{
    let mut bytes = Vec::new(alloc);
    append_bytes(&mut bytes, ID, id)?;
    append_uint64(&mut bytes, VERSION, version)?;
    Ok(bytes)
}

/// The bytes of the `PutResult` that answers the upload of this id, which made this version. Its metadata are a message of
/// two fields: 1 is the id, 2 the version. [`AllocError`] says that memory was refused.
pub fn result_message(alloc: Global, id: &[u8], version: u64) -> Result<Vec<u8>, AllocError>
    ensures { IfOk result (λ bytes. bytes.items ≡ put_result id.now version) }
{
    let app_metadata = applied(alloc, id, version)?;
    let mut bytes = Vec::new(alloc);
    match (PutResult { app_metadata }).encode(&mut bytes) {
        Ok(()) => Ok(bytes),
        Err(_) => Err(AllocError),
    }
}
