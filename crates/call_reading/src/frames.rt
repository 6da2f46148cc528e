//! The frames of a call, one after the other.

ghost use Rattle.std.specs.Prelude.{◌≡◌};
ghost use Rattle.grpc_frames.specs.FrameFaults.{WhereKnown};
ghost use Rattle.call_reading.specs.Reading.{ReadsPart, PartIn, ReadsEnd, ReadsFirst};

use call_protocol::CallRefusal;
use grpc_frames::{END_FLAG, Frame, read_frame};
use std::alloc::Global;
use std::io::Read;

/// What stands next in a call.
#[derive(Debug, Drop)]
pub(crate) enum CallPart {
    /// A message.
    Message(Vec<u8>),
    /// The end of the messages.
    End,
}

/// What a frame says: its message, or the end.
fn part_in(frame: Frame) -> Result<CallPart, CallRefusal>
    ensures { PartIn frame result }
{
    if frame.flag != END_FLAG {
        return Ok(CallPart::Message(frame.payload));
    }
    if frame.payload.is_empty() {
        Ok(CallPart::End)
    } else {
        Err(CallRefusal::EndPayload)
    }
}

/// The next message of a call, or its end.
///
/// The refusals are [`CallRefusal::Frame`] for a frame that can't be read, [`CallRefusal::NoEnd`] where the input ends, and
/// [`CallRefusal::EndPayload`].
pub(crate) fn next_part<R: Read>(alloc: Global, r: &mut R) -> Result<CallPart, CallRefusal>
    ensures { WhereKnown (R.remaining r.old) (R.remaining r.new) (ReadsPart result) }
{
    match read_frame(alloc, r) {
        Ok(Some(frame)) => part_in(frame),
        Ok(None) => Err(CallRefusal::NoEnd),
        Err(fault) => Err(CallRefusal::Frame(fault)),
    }
}

/// Reads the end of a call behind its one message.
///
/// The refusals are those of [`next_part`], and [`CallRefusal::MessageCount`] for a further message.
pub(crate) fn read_end<R: Read>(alloc: Global, r: &mut R) -> Result<(), CallRefusal>
    ensures { WhereKnown (R.remaining r.old) (R.remaining r.new) (ReadsEnd result) }
{
    match next_part(alloc, r)? {
        CallPart::End => Ok(()),
        CallPart::Message(_) => Err(CallRefusal::MessageCount),
    }
}

/// The one message of a call, or the first of several.
///
/// The refusals are those of [`next_part`], and [`CallRefusal::MessageCount`] where there is none.
pub(crate) fn first_message<R: Read>(alloc: Global, r: &mut R) -> Result<Vec<u8>, CallRefusal>
    ensures { WhereKnown (R.remaining r.old) (R.remaining r.new) (ReadsFirst result) }
{
    match next_part(alloc, r)? {
        CallPart::Message(message) => Ok(message),
        CallPart::End => Err(CallRefusal::MessageCount),
    }
}
