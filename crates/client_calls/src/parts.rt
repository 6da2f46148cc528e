//! The frames of an answer, one after the other.

ghost use Rattle.std.specs.Prelude.{◌≡◌};
ghost use Rattle.grpc_frames.specs.FrameFaults.{WhereKnown};
ghost use Rattle.grpc_frames.specs.Frame.{IsFrame};
ghost use Rattle.client_calls.specs.Parts.{TrailerSays, FrameSays, ReadsPart};

use crate::client_fault::ClientFault;
use call_protocol::CallFault;
use grpc_frames::laws::{faults_stand_apart, no_frame_begins_another};
use grpc_frames::{END_FLAG, Frame, FrameFault, read_frame};
use std::alloc::Global;
use std::io::Read;

/// The most frames that are read of an answer, its trailer among them.
pub const MAX_ANSWER_FRAMES: u32 = 1_024_000_002;

/// What stands next in an answer.
#[derive(Debug, Drop)]
pub(crate) enum AnswerPart {
    /// A message.
    Message(Vec<u8>),
    /// The trailer of an answer.
    End,
}

/// What the payload of a trailer says.
fn trailer_says(alloc: Global, payload: &[u8]) -> Result<AnswerPart, ClientFault>
    ensures { TrailerSays payload.now result }
{
    let Some((code, text)) = payload.split_first() else {
        return Err(ClientFault::BadAnswer);
    };
    if *code == 0 {
        return if text.is_empty() {
            Ok(AnswerPart::End)
        } else {
            Err(ClientFault::BadAnswer)
        };
    }
    let Ok(text) = str::from_utf8(text) else {
        return Err(ClientFault::BadAnswer);
    };
    let text = String::from_str(alloc, text)?;
    Err(ClientFault::Status(*code, text))
}

/// What a frame says.
fn frame_says(alloc: Global, frame: Frame) -> Result<AnswerPart, ClientFault>
    requires { IsFrame frame }
    ensures { FrameSays frame result }
{
    if frame.flag == END_FLAG {
        trailer_says(alloc, &frame.payload)
    } else {
        Ok(AnswerPart::Message(frame.payload))
    }
}

/// The next message of an answer, or its end.
///
/// [`ClientFault::Status`] is a refusal that stands there, and [`ClientFault::BadAnswer`] that there is neither a message nor
/// a trailer.
pub(crate) fn next_part<R: Read>(alloc: Global, r: &mut R) -> Result<AnswerPart, ClientFault>
    ensures { WhereKnown (R.remaining r.old) (R.remaining r.new) (ReadsPart result) }
{
    faults_stand_apart();
    no_frame_begins_another();
    match read_frame(alloc, r) {
        Ok(Some(frame)) => frame_says(alloc, frame),
        Ok(None) => Err(ClientFault::BadAnswer),
        Err(FrameFault::Io) => Err(ClientFault::Call(CallFault::Read)),
        Err(FrameFault::OutOfMemory) => Err(ClientFault::Call(CallFault::OutOfMemory)),
        Err(
            FrameFault::Truncated
            | FrameFault::BadFlag
            | FrameFault::Compressed
            | FrameFault::TooLong,
        ) => Err(ClientFault::BadAnswer),
    }
}
