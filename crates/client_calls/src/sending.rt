//! Frames of a request, one after the other.

ghost use Rattle.std.specs.Prelude.{◌≡◌};
ghost use Rattle.grpc_frames.specs.FrameFaults.{WhereKnown};
ghost use Rattle.table_types.specs.Served.{in_frame};
ghost use Rattle.call_protocol.specs.Methods.{path_text};
ghost use Rattle.call_protocol.specs.Texts.{end_text};
ghost use Rattle.client_calls.specs.Sending.{Sends, IsText};

use call_protocol::{CallFault, Method, SERVICE};
use grpc_frames::{END_FLAG, MAX_FRAME_PAYLOAD, MESSAGE_FLAG, write_frame};
use std::alloc::Global;
use std::io::Write;

/// Writes a message in a frame of its own. One that no frame has room for is [`CallFault::Write`], and nothing of it goes out.
pub(crate) fn send_message<W: Write>(w: &mut W, message: &[u8]) -> Result<(), CallFault>
    ensures { WhereKnown (W.contents w.old) (W.contents w.new) (Sends result (in_frame message.now)) }
{
    if message.len() > MAX_FRAME_PAYLOAD {
        return Err(CallFault::Write);
    }
    match write_frame(w, MESSAGE_FLAG, message) {
        Ok(()) => Ok(()),
        Err(_) => Err(CallFault::Write),
    }
}

/// The path of a method.
pub(crate) fn path_of(alloc: Global, method: Method) -> Result<Vec<u8>, CallFault>
    ensures { IsText (path_text method) result }
{
    let mut path = Vec::new(alloc);
    if path.extend_from_slice(SERVICE.as_bytes()).is_err() {
        return Err(CallFault::OutOfMemory);
    }
    if path.extend_from_slice(method.name().as_bytes()).is_err() {
        return Err(CallFault::OutOfMemory);
    }
    Ok(path)
}

/// Writes the end of a request, and flushes what was written.
pub(crate) fn send_end<W: Write>(w: &mut W) -> Result<(), CallFault>
    ensures { WhereKnown (W.contents w.old) (W.contents w.new) (Sends result end_text) }
{
    if write_frame(w, END_FLAG, &[]).is_err() {
        return Err(CallFault::Write);
    }
    if w.flush().is_err() {
        return Err(CallFault::Write);
    }
    Ok(())
}
