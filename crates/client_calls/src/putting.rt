//! Uploads, from the client's side.

ghost use Rattle.std.specs.Prelude.{◌≡◌};
ghost use Rattle.grpc_frames.specs.FrameFaults.{WhereKnown};
ghost use Rattle.table_types.specs.Uploads.{Upload as Uploaded, upload_text};
ghost use Rattle.table_types.specs.Valid.{IsUpload};
ghost use Rattle.client_calls.specs.Answers.{Receives, Requests};
ghost use Rattle.client_calls.specs.Requests.{put_request};
ghost use Rattle.client_calls.specs.Results.{GivesVersion, HasVersion};

use crate::client_fault::ClientFault;
use crate::one::read_one;
use crate::uploading::send_put_request;
use crate::versions::version_in;
use grpc_frames::laws::no_frame_begins_another;
use std::alloc::Global;
use std::io::{Read, Write};
use uploads::Upload;

/// Reads the answer to an upload of this id.
fn read_version<R: Read>(alloc: Global, r: &mut R, id: &[u8]) -> Result<u64, ClientFault>
    ensures { WhereKnown (R.remaining r.old) (R.remaining r.new) (Receives (GivesVersion id.now) (HasVersion id.now) result) }
{
    no_frame_begins_another();
    let message = read_one(alloc, r)?;
    version_in(alloc, &message, id)
}

/// Uploads (Apache Arrow, "Flight.proto", `DoPut`): writes the request with the upload, and reads which version of its table
/// it made.
///
/// The answer is one message, the one encoding of a `PutResult` whose metadata are the upload's id and the version, and
/// the trailer of a call that was answered. A result of another id is none of this upload.
///
/// - [`ClientFault::Status`]: the service refused the upload, with this status and this text, whatever messages came before.
/// - [`ClientFault::BadAnswer`]: what came is neither such an answer nor a refusal, within [`MAX_ANSWER_FRAMES`] frames.
/// - [`ClientFault::Call`]: a read or a write failed, or memory was refused; the upload may have been taken nonetheless.
///
/// Nothing behind the trailer is read.
///
/// [`MAX_ANSWER_FRAMES`]: crate::MAX_ANSWER_FRAMES
pub fn call_put<R: Read, W: Write>(
    alloc: Global,
    r: &mut R,
    w: &mut W,
    upload: &Upload,
) -> Result<u64, ClientFault>
    // What has gone out is the request, or a beginning of it where it could not be written.
    ensures sent { (u : Uploaded) → IsUpload u → upload_text u ≡ upload.now
        → WhereKnown (W.contents w.old) (W.contents w.new) (Requests result (put_request u)) }
    // What was told, and what is left of the input behind it.
    ensures told { (u : Uploaded) → IsUpload u → upload_text u ≡ upload.now
        → WhereKnown (R.remaining r.old) (R.remaining r.new) (Receives (GivesVersion u.id) (HasVersion u.id) result) }
{
    if let Err(fault) = send_put_request(alloc, w, upload) {
        return Err(ClientFault::Call(fault));
    }
    let id = upload.id();
    read_version(alloc, r, &id)
}
