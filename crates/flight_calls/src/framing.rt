//! Messages in frames, in memory (gRPC over HTTP2, "Length-Prefixed-Message").

ghost use Rattle.std.specs.Prelude.{◌≡◌, ◌≤◌, ◌++◌, ◌∷◌, [], ◌⊎◌, OnOk, IfErr, map};
ghost use Rattle.std.specs.List.{AllByRecursion};
ghost use Rattle.grpc_frames.specs.Frame.{payload_limit, header_text};
ghost use Rattle.table_types.specs.Served.{in_frame};
ghost use Rattle.table_types.specs.Valid.{FitsFrame};
ghost use Rattle.call_protocol.specs.declared.refusal.CallRefusal.TheVariants.{TooLarge, OutOfMemory};
ghost use Rattle.flight_calls.specs.Describing.{CanBeTold, message_of, schema_told};
ghost use Rattle.flight_calls.specs.Framing.{Frames};

use crate::describing::{info_message, schema_message};
use crate::outgoing::Outgoing;
use crate::table_description::TableDescription;
use call_protocol::CallRefusal;
use grpc_frames::{MAX_FRAME_PAYLOAD, MESSAGE_FLAG};
use std::alloc::{AllocError, Global};

/// Appends the five bytes before a payload of so many bytes.
fn append_header(out: &mut Vec<u8>, len: usize) -> Result<(), AllocError>
    requires { len ≤ payload_limit }
    ensures ok { OnOk result (out.new.items ≡ out.old.items ++ header_text 0 len) }
{
    let [a, b, c, d] = (len as u32).to_be_bytes();
    out.extend_from_slice(&[MESSAGE_FLAG, a, b, c, d])
}

/// Appends the frame of a message.
///
/// The refusals are [`CallRefusal::TooLarge`] for a message that no frame has room for, and [`CallRefusal::OutOfMemory`].
fn append_frame(out: &mut Vec<u8>, message: &[u8]) -> Result<(), CallRefusal>
    ensures ok { OnOk result (out.new.items ≡ out.old.items ++ in_frame message.now) }
    ensures fits { OnOk result (FitsFrame message.now) }
    ensures fault { IfErr result (λ refusal.
        ((refusal ≡ TooLarge) × (¬ FitsFrame message.now)) ⊎ (refusal ≡ OutOfMemory)) }
{
    if message.len() > MAX_FRAME_PAYLOAD {
        return Err(CallRefusal::TooLarge);
    }
    append_header(out, message.len())?;
    out.extend_from_slice(message)?;
    Ok(())
}

/// The frame of a message. The refusals are those of [`append_frame`].
pub(crate) fn frame_of(alloc: Global, message: &[u8]) -> Result<Outgoing, CallRefusal>
    ensures { Frames (message.now ∷ []) result }
{
    let mut frames = Vec::new(alloc);
    append_frame(&mut frames, message)?;
    Ok(Outgoing::Made(frames))
}

/// The frame of the message with a schema, whose own message this is.
pub(crate) fn schema_frame(alloc: Global, schema: &[u8]) -> Result<Outgoing, CallRefusal>
    requires { FitsFrame schema.now }
    ensures { Frames (schema_told schema.now ∷ []) result }
{
    let message = schema_message(alloc, schema)?;
    frame_of(alloc, &message)
}

/// The frame of what is told of a table.
pub(crate) fn info_frame(
    alloc: Global,
    described: &TableDescription,
) -> Result<Outgoing, CallRefusal>
    requires { CanBeTold described.now }
    ensures { Frames (message_of described.now ∷ []) result }
{
    let message = info_message(alloc, described)?;
    frame_of(alloc, &message)
}

/// Appends the frame of what is told of a table. The refusals are those of [`append_frame`].
fn append_info(
    alloc: Global,
    frames: &mut Vec<u8>,
    described: &TableDescription,
) -> Result<(), CallRefusal>
    requires { CanBeTold described.now }
    ensures ok { OnOk result (frames.new.items ≡ frames.old.items ++ in_frame (message_of described.now)) }
    ensures fits { OnOk result (FitsFrame (message_of described.now)) }
    ensures fault { IfErr result (λ refusal.
        ((refusal ≡ TooLarge) × (¬ FitsFrame (message_of described.now))) ⊎ (refusal ≡ OutOfMemory)) }
{
    let message = info_message(alloc, described)?;
    append_frame(frames, &message)
}

/// The frames of what is told of each table. The refusals are those of [`append_frame`].
pub(crate) fn info_frames(alloc: Global, all: &[TableDescription]) -> Result<Outgoing, CallRefusal>
    requires { AllByRecursion CanBeTold all.now }
    ensures { Frames (map message_of all.now) result }
{
    let mut frames = Vec::new(alloc);
    for described in all {
        append_info(alloc, &mut frames, described)?;
    }
    Ok(Outgoing::Made(frames))
}
