//! Versions of tables, from the client's side.

ghost use Rattle.std.specs.Prelude.{◌≡◌, ◌++◌, ◌∷◌, [], ℕ, List, IfOk, IfErr};
ghost use Rattle.grpc_frames.specs.FrameFaults.{WhereKnown};
ghost use Rattle.table_types.specs.Valid.{FitsFrame};
ghost use Rattle.call_protocol.specs.declared.call_fault.CallFault.TheVariants.{OutOfMemory};
ghost use Rattle.downloads.specs.Taken.{GivesDownload, HasDownload, HasTaken, IsReady};
ghost use Rattle.client_calls.specs.declared.client_fault.ClientFault.TheVariants.{Call};
ghost use Rattle.client_calls.specs.Answers.{Receives, Requests};
ghost use Rattle.client_calls.specs.Requests.{get_request};

use crate::client_fault::ClientFault;
use crate::parts::{AnswerPart, MAX_ANSWER_FRAMES, next_part};
use crate::requesting::send_get_request;
use call_protocol::CallFault;
use downloads::{Download, Downloading};
use grpc_frames::laws::no_frame_begins_another;
use std::alloc::Global;
use std::io::{Read, Write};
use table_types::Ticket;

/// What came, with one message more.
fn with_message(
    alloc: Global,
    downloading: Downloading,
    message: &[u8],
) -> Result<Downloading, ClientFault>
    requires ready { IsReady downloading }
    ensures ready { IfOk result IsReady }
    ensures taken { (messages : List (List ℕ)) → HasTaken downloading messages → FitsFrame message.now
        → IfOk result (λ next. HasTaken next (messages ++ message.now ∷ [])) }
    ensures fault { IfErr result (λ fault. fault ≡ Call OutOfMemory) }
{
    Ok(downloading.take(alloc, message)?)
}

/// Reads the answer to a ticket, as [`call_get`] does behind its request.
pub fn read_download<R: Read>(alloc: Global, r: &mut R) -> Result<Download, ClientFault>
    ensures { WhereKnown (R.remaining r.old) (R.remaining r.new) (Receives GivesDownload HasDownload result) }
{
    no_frame_begins_another();
    let mut downloading = Downloading::Begun;
    for _count in 0..MAX_ANSWER_FRAMES {
        match next_part(alloc, r)? {
            AnswerPart::Message(message) => {
                downloading = with_message(alloc, downloading, &message)?;
            }
            AnswerPart::End => {
                return match downloading.finish(alloc)? {
                    Some(download) => Ok(download),
                    None => Err(ClientFault::BadAnswer),
                };
            }
        }
    }
    Err(ClientFault::BadAnswer)
}

/// Gets a version of a table (Apache Arrow, "Flight.proto", `DoGet`): writes the request with the ticket, and reads the schema
/// and the uploads of the version.
///
/// The answer is the message of a schema, then those of uploads, each of which has one encoding, and the trailer of a call that
/// was answered. The batches that follow one another under one id are of one upload, an id alone is of an upload without
/// batches, and no two uploads have one id.
///
/// - [`ClientFault::Status`]: the service refused the call, with this status and this text, whatever messages came before.
/// - [`ClientFault::BadAnswer`]: what came is neither such an answer nor a refusal, within [`MAX_ANSWER_FRAMES`] frames.
/// - [`ClientFault::Call`]: a read or a write failed, or memory was refused.
///
/// Nothing behind the trailer is read. A message that is none of an answer is known as it comes, and what came before it is
/// let go then; further messages are read for the trailer alone.
///
/// [`MAX_ANSWER_FRAMES`]: crate::MAX_ANSWER_FRAMES
pub fn call_get<R: Read, W: Write>(
    alloc: Global,
    r: &mut R,
    w: &mut W,
    ticket: &Ticket,
) -> Result<Download, ClientFault>
    // What has gone out is the request, or a beginning of it where it could not be written.
    ensures sent { WhereKnown (W.contents w.old) (W.contents w.new) (Requests result (get_request ticket.now)) }
    // What was told, and what is left of the input behind it.
    ensures told { WhereKnown (R.remaining r.old) (R.remaining r.new) (Receives GivesDownload HasDownload result) }
{
    if let Err(fault) = send_get_request(alloc, w, ticket) {
        return Err(ClientFault::Call(fault));
    }
    read_download(alloc, r)
}
