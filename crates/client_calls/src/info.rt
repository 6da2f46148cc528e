//! What a service tells of a table.

ghost use Rattle.std.specs.Prelude.{◌≡◌};
ghost use Rattle.grpc_frames.specs.FrameFaults.{WhereKnown};
ghost use Rattle.client_calls.specs.Answers.{Receives, Requests};
ghost use Rattle.client_calls.specs.Requests.{info_request};
ghost use Rattle.client_calls.specs.Results.{GivesInfo, HasInfo};
ghost use Rattle.client_calls.specs.Parts.{MessageSays};

use crate::client_fault::ClientFault;
use crate::one::read_one;
use crate::requesting::send_info_request;
use grpc_frames::laws::no_frame_begins_another;
use proto_messages::ProtoMessage;
use proto_wire::FlightInfo;
use std::alloc::Global;
use std::io::{Read, Write};

/// What a message tells of a table.
fn info_in(alloc: Global, message: &[u8]) -> Result<FlightInfo, ClientFault>
    ensures { MessageSays GivesInfo HasInfo message.now result }
{
    match FlightInfo::decode(alloc, message) {
        Ok(info) => Ok(info),
        Err(fault) => Err(ClientFault::of_wire(fault)),
    }
}

/// Reads an answer that tells of a table.
fn read_info<R: Read>(alloc: Global, r: &mut R) -> Result<FlightInfo, ClientFault>
    ensures { WhereKnown (R.remaining r.old) (R.remaining r.new) (Receives GivesInfo HasInfo result) }
{
    no_frame_begins_another();
    let message = read_one(alloc, r)?;
    info_in(alloc, &message)
}

/// Asks what the service tells of the latest version of a table (Apache Arrow, "Flight.proto", `GetFlightInfo`): writes the
/// request for the table of this name, and reads the answer.
///
/// The answer is one message that means a `FlightInfo`, in any encoding, and the trailer of a call that was answered.
///
/// - [`ClientFault::Status`]: the service refused the call, with this status and this text, whatever messages came before.
/// - [`ClientFault::BadAnswer`]: what came is neither such an answer nor a refusal, within [`MAX_ANSWER_FRAMES`] frames.
/// - [`ClientFault::Call`]: a read or a write failed, or memory was refused. [`CallFault::Write`] is told too of a name that
///   no frame has room for, of which nothing but the path goes out.
///
/// Nothing behind the trailer is read.
///
/// [`MAX_ANSWER_FRAMES`]: crate::MAX_ANSWER_FRAMES
pub fn call_info<R: Read, W: Write>(
    alloc: Global,
    r: &mut R,
    w: &mut W,
    table: &str,
) -> Result<FlightInfo, ClientFault>
    // What has gone out is the request, or a beginning of it where it could not be written.
    ensures sent { WhereKnown (W.contents w.old) (W.contents w.new) (Requests result (info_request table.now)) }
    // What was told, and what is left of the input behind it.
    ensures told { WhereKnown (R.remaining r.old) (R.remaining r.new) (Receives GivesInfo HasInfo result) }
{
    if let Err(fault) = send_info_request(alloc, w, table) {
        return Err(ClientFault::Call(fault));
    }
    read_info(alloc, r)
}
