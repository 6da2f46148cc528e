//! Versions of tables, as the frames that they come in.

ghost use Rattle.std.specs.Prelude.{◌≡◌, ◌++◌, IfErr, OnOk};
ghost use Rattle.grpc_frames.specs.FrameFaults.{WhereKnown};
ghost use Rattle.table_types.specs.Served.{in_frame};
ghost use Rattle.call_protocol.specs.declared.call_fault.CallFault.TheVariants.{OutOfMemory};
ghost use Rattle.client_calls.specs.declared.client_fault.ClientFault.TheVariants.{Call};
ghost use Rattle.client_calls.specs.Answers.{Receives, Requests};
ghost use Rattle.client_calls.specs.Requests.{get_request};
ghost use Rattle.client_calls.specs.Results.{GivesFrames, HasFrames};

use crate::client_fault::ClientFault;
use crate::parts::{AnswerPart, MAX_ANSWER_FRAMES, next_part};
use crate::requesting::send_get_request;
use crate::sending::send_message;
use call_protocol::CallFault;
use grpc_frames::laws::no_frame_begins_another;
use std::alloc::Global;
use std::io::{Read, Write};
use table_types::Ticket;

/// Appends the frame that a message came in.
fn push_frame(frames: &mut Vec<u8>, message: &[u8]) -> Result<(), ClientFault>
    ensures frame { OnOk result (frames.new.items ≡ frames.old.items ++ in_frame message.now) }
    ensures fault { IfErr result (λ fault. fault ≡ Call OutOfMemory) }
{
    match send_message(frames, message) {
        Ok(()) => Ok(()),
        // A frame had room for the message, and a vector takes all bytes for which there is memory.
        Err(_) => Err(ClientFault::Call(CallFault::OutOfMemory)),
    }
}

/// Reads the frames of an answer.
fn read_frames<R: Read>(alloc: Global, r: &mut R) -> Result<Vec<u8>, ClientFault>
    ensures { WhereKnown (R.remaining r.old) (R.remaining r.new) (Receives GivesFrames HasFrames result) }
{
    no_frame_begins_another();
    let mut frames = Vec::new(alloc);
    for _count in 0..MAX_ANSWER_FRAMES {
        match next_part(alloc, r)? {
            AnswerPart::Message(message) => push_frame(&mut frames, &message)?,
            AnswerPart::End => return Ok(frames),
        }
    }
    Err(ClientFault::BadAnswer)
}

/// Gets a version of a table as [`call_get`] does, and gives the frames of the answer's messages as they came, one behind the
/// other, whatever the messages say.
///
/// - [`ClientFault::Status`]: the service refused the call, with this status and this text, whatever messages came before.
/// - [`ClientFault::BadAnswer`]: what came is neither messages with the trailer of a call that was answered nor a refusal, within
///   [`MAX_ANSWER_FRAMES`] frames.
/// - [`ClientFault::Call`]: a read or a write failed, or memory was refused.
///
/// Nothing behind the trailer is read.
///
/// [`call_get`]: crate::call_get
/// [`MAX_ANSWER_FRAMES`]: crate::MAX_ANSWER_FRAMES
pub fn call_get_frames<R: Read, W: Write>(
    alloc: Global,
    r: &mut R,
    w: &mut W,
    ticket: &Ticket,
) -> Result<Vec<u8>, ClientFault>
    // What has gone out is the request, or a beginning of it where it could not be written.
    ensures sent { WhereKnown (W.contents w.old) (W.contents w.new) (Requests result (get_request ticket.now)) }
    // What was told, and what is left of the input behind it.
    ensures told { WhereKnown (R.remaining r.old) (R.remaining r.new) (Receives GivesFrames HasFrames result) }
{
    if let Err(fault) = send_get_request(alloc, w, ticket) {
        return Err(ClientFault::Call(fault));
    }
    read_frames(alloc, r)
}
