//! What goes out for a call.

ghost use Rattle.std.specs.Prelude.{◌≡◌, ◌++◌, ◌∷◌, ◌+◌, ◌<◌, ◌↔◌, IsTrue, IfErr, length, take};
ghost use Rattle.std.specs.List.{concat};
ghost use Rattle.grpc_frames.specs.FrameFaults.{WhereKnown, Writes};
ghost use Rattle.grpc_frames.specs.declared.fault.FrameFault.TheVariants.{Io};
ghost use Rattle.call_protocol.specs.declared.refusal.CallRefusal.TheVariants.{Frame};
ghost use Rattle.call_protocol.specs.Statuses.{code_of, trailer_text, ok_trailer, refusal_trailer};
ghost use Rattle.call_protocol.specs.declared.call_fault.CallFault.TheVariants.{Read};
ghost use Rattle.flight_calls.specs.Replies.{Reply, refuses};
ghost use Rattle.flight_calls.specs.Framing.{outgoing_text};
ghost use Rattle.flight_calls.specs.Responding.{AnswersIn};
ghost use Rattle.flight_calls.specs.Sending.{Sends, SendsReply};

use crate::outgoing::Outgoing;
use bytes::Bytes;
use call_protocol::laws::refusals_are_told;
use call_protocol::{CallFault, CallRefusal, Status};
use grpc_frames::transfer::put;
use grpc_frames::{END_FLAG, FrameFault, write_frame};
use std::io::Write;

/// The most bytes of a trailer's payload that are written here: a status, and a text of at most 15 bytes.
const TRAILER_BYTES: usize = 16;

/// A status and the text behind it, in front of zeros.
fn trailer_payload(status: Status, text: &str) -> [u8; TRAILER_BYTES]
    requires { length text.now < 16 }
    ensures { take (1 + length text.now) result ≡ code_of status ∷ text.now }
{
    let mut payload = [0; TRAILER_BYTES];
    payload[0] = status.code();
    payload[1..1 + text.len()].copy_from_slice(text.as_bytes());
    payload
}

/// Writes a trailer, and flushes what was written. It takes no memory.
fn send_trailer<W: Write>(w: &mut W, status: Status, text: &str) -> Result<(), CallFault>
    requires { length text.now < 16 }
    ensures { WhereKnown (W.contents w.old) (W.contents w.new) (Sends result (trailer_text (code_of status) text.now)) }
{
    let payload = trailer_payload(status, text);
    if write_frame(w, END_FLAG, &payload[..1 + text.len()]).is_err() {
        return Err(CallFault::Write);
    }
    if w.flush().is_err() {
        return Err(CallFault::Write);
    }
    Ok(())
}

/// Writes frames, one by one.
fn put_frames<W: Write>(w: &mut W, frames: &[Bytes]) -> Result<(), FrameFault>
    ensures { WhereKnown (W.contents w.old) (W.contents w.new) (Writes result (concat frames.now)) }
{
    for frame in frames {
        put(w, frame.as_slice())?;
    }
    Ok(())
}

/// Writes what goes out before the trailer.
fn put_outgoing<W: Write>(w: &mut W, outgoing: &Outgoing) -> Result<(), FrameFault>
    ensures { WhereKnown (W.contents w.old) (W.contents w.new) (Writes result (outgoing_text outgoing.now)) }
{
    match outgoing {
        Outgoing::Made(frames) => put(w, frames.as_slice()),
        Outgoing::Shared(answer) => put_frames(w, answer.frames()),
    }
}

/// Writes what goes out before the trailer, and the trailer behind it.
fn send_outgoing<W: Write>(w: &mut W, outgoing: &Outgoing) -> Result<(), CallFault>
    ensures { WhereKnown (W.contents w.old) (W.contents w.new)
        (Sends result (outgoing_text outgoing.now ++ ok_trailer)) }
{
    if put_outgoing(w, outgoing).is_err() {
        return Err(CallFault::Write);
    }
    send_trailer(w, Status::Ok, "")
}

/// Whether a read failed.
fn is_failed_read(refusal: CallRefusal) -> bool
    ensures { IsTrue result ↔ (refusal ≡ Frame Io) }
{
    match refusal {
        CallRefusal::Frame(fault) => fault == FrameFault::Io,
        _ => false,
    }
}

/// Writes the trailer of a refusal.
fn send_trailer_of<W: Write>(w: &mut W, refusal: CallRefusal) -> Result<(), CallFault>
    ensures { WhereKnown (W.contents w.old) (W.contents w.new) (Sends result (refusal_trailer refusal)) }
{
    refusals_are_told();
    send_trailer(w, refusal.status(), refusal.name())
}

/// What a caller is told where the trailer of a refusal was written.
fn told_to_caller(refusal: CallRefusal) -> Result<(), CallFault>
    ensures read { result ≡ Err Read ↔ (refusal ≡ Frame Io) }
    ensures only { IfErr result (λ fault. fault ≡ Read) }
{
    if is_failed_read(refusal) {
        Err(CallFault::Read)
    } else {
        Ok(())
    }
}

/// Writes the trailer of a refusal, and tells where it is that a read failed.
fn send_refusal<W: Write>(w: &mut W, refusal: CallRefusal) -> Result<(), CallFault>
    ensures { WhereKnown (W.contents w.old) (W.contents w.new) (SendsReply result (refuses refusal)) }
{
    send_trailer_of(w, refusal)?;
    told_to_caller(refusal)
}

/// Writes an answer's frames and the trailer behind them, or the trailer that tells why there is none.
///
/// [`CallFault::Read`] says that the trailer of a failed read was written, and [`CallFault::Write`] that a write
/// failed, and that a beginning of what was to be written has gone out.
pub(crate) fn send_answer<W: Write>(
    w: &mut W,
    answer: Result<Outgoing, CallRefusal>,
) -> Result<(), CallFault>
    ensures { (reply : Reply) → AnswersIn answer reply
        → WhereKnown (W.contents w.old) (W.contents w.new) (SendsReply result reply) }
{
    match answer {
        Ok(outgoing) => send_outgoing(w, &outgoing),
        Err(refusal) => send_refusal(w, refusal),
    }
}
