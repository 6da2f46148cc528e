//! `flightd acceptor`, over any reader and writers: frames come in, and the frames of an acceptor's answers go out.

ghost use Rattle.std.specs.Prelude.{◌≡◌, ◌⊎◌, IfErr};
ghost use Rattle.std.specs.Io.KnownBytes.{Keeps};
ghost use Rattle.grpc_frames.specs.Frame.{IsFlag};
ghost use Rattle.grpc_frames.specs.FrameFaults.{WhereKnown};
ghost use Rattle.acceptor.specs.AcceptorState.{standing};
ghost use Rattle.acceptor_command.specs.Serving.{Sends, AnswersFrame, Steps, Serves, ServesToTheEnd, ServesUpToSome};

use crate::answering::reply_to;
use crate::fault::AnswerFault;
use crate::status::{FAILURE, SUCCESS};
use acceptor::Acceptor;
use ballots::Message;
use proto_wire::{END_FLAG, Frame, MAX_FRAME_PAYLOAD, MESSAGE_FLAG, read_frame, write_frame};
use std::alloc::Global;
use std::io::{Read, Write};

/// The most frames that a run answers.
pub const FRAME_LIMIT: u32 = 1_000_000;

/// The bytes that an answer has room for from the start: all of one without a value, and of one with a short value.
const ANSWER_ROOM: usize = 64;

/// `flightd acceptor`: serves the frames of `r` as node 0 of three, writes the answers' frames to `w`, and gives the
/// exit status.
///
/// A fault ends the run with [`FAILURE`], and its line `flightd: frame N: NAME` goes to `e`; where that can't be
/// written, the status alone tells.
pub fn acceptor_run<R: Read, W: Write, E: Write>(
    alloc: Global,
    r: &mut R,
    w: &mut W,
    e: &mut E,
) -> u8
    ensures status { (result ≡ 0) ⊎ (result ≡ 1) }
    // Status 0 is told exactly where there is no fault.
    ensures done { result ≡ 0 → WhereKnown (R.remaining r.old) (R.remaining r.new)
        (λ text rest. WhereKnown (W.contents w.old) (W.contents w.new) (ServesToTheEnd text rest)) }
    ensures failed { result ≡ 1 → WhereKnown (R.remaining r.old) (R.remaining r.new)
        (λ text rest. WhereKnown (W.contents w.old) (W.contents w.new) (ServesUpToSome text rest)) }
    // Without a fault nothing is said.
    ensures silent { result ≡ 0 → Keeps (E.contents e.old) (E.contents e.new) }
{
    match answer_frames(alloc, r, w) {
        Ok(()) => SUCCESS,
        Err((number, fault)) => {
            // Where this fails too, the status alone tells.
            let _ = writeln!(e, "flightd: frame {number}: {fault}");
            let _ = e.flush();
            FAILURE
        }
    }
}

/// Serves an acceptor that has promised and accepted nothing yet, until the input ends or a fault: each frame's message
/// is answered, and its answer has gone out before the next frame is read.
///
/// The fault comes with the number of its frame, from 0. After [`FRAME_LIMIT`] frames nothing more is read.
///
/// Where the input ended without a fault, nothing of it is left. A frame that could not be read leaves what
/// `read_frame` says, and one that was read and ended the run is the last that was taken from the reader.
pub fn answer_frames<R: Read, W: Write>(
    alloc: Global,
    r: &mut R,
    w: &mut W,
) -> Result<(), (u32, AnswerFault)>
    ensures { WhereKnown (R.remaining r.old) (R.remaining r.new)
        (λ text rest. WhereKnown (W.contents w.old) (W.contents w.new) (Serves result text rest)) }
{
    let mut acceptor = Acceptor::new(alloc);
    for number in 0..FRAME_LIMIT {
        match answer_next(alloc, &mut acceptor, r, w) {
            Ok(true) => {}
            Ok(false) => return Ok(()),
            Err(fault) => return Err((number, fault)),
        }
    }
    Err((FRAME_LIMIT, AnswerFault::FrameLimit))
}

// Answers the next frame, and says whether there was one.
fn answer_next<R: Read, W: Write>(
    alloc: Global,
    acceptor: &mut Acceptor,
    r: &mut R,
    w: &mut W,
) -> Result<bool, AnswerFault>
    ensures { WhereKnown (R.remaining r.old) (R.remaining r.new)
        (λ rest after. WhereKnown (W.contents w.old) (W.contents w.new)
        (Steps result (standing acceptor.old) (standing acceptor.new) rest after)) }
{
    match read_frame(alloc, r) {
        Ok(None) => Ok(false),
        Ok(Some(frame)) => {
            answer_frame(alloc, acceptor, &frame, w)?;
            Ok(true)
        }
        Err(fault) => Err(AnswerFault::Frame(fault)),
    }
}

fn answer_frame<W: Write>(
    alloc: Global,
    acceptor: &mut Acceptor,
    frame: &Frame,
    w: &mut W,
) -> Result<(), AnswerFault>
    requires { IsFlag frame.now.flag }
    ensures { WhereKnown (W.contents w.old) (W.contents w.new)
        (AnswersFrame result (standing acceptor.old) (standing acceptor.new) frame.now) }
{
    if frame.flag == END_FLAG {
        return Err(AnswerFault::EndFlag);
    }
    let message = match Message::decode(alloc, &frame.payload) {
        Ok(message) => message,
        Err(fault) => return Err(AnswerFault::Message(fault)),
    };
    match reply_to(acceptor, message) {
        Ok(None) => Ok(()),
        Ok(Some(reply)) => send(alloc, &reply, w),
        Err(_) => Err(AnswerFault::OutOfMemory),
    }
}

fn send<W: Write>(alloc: Global, reply: &Message, w: &mut W) -> Result<(), AnswerFault>
    ensures { WhereKnown (W.contents w.old) (W.contents w.new) (Sends result reply.now) }
{
    let Ok(mut text) = Vec::with_capacity(alloc, ANSWER_ROOM) else {
        return Err(AnswerFault::OutOfMemory);
    };
    if reply.encode(&mut text).is_err() {
        return Err(AnswerFault::OutOfMemory);
    }
    if text.len() > MAX_FRAME_PAYLOAD {
        return Err(AnswerFault::AnswerTooLong);
    }
    if write_frame(w, MESSAGE_FLAG, &text).is_err() {
        return Err(AnswerFault::Write);
    }
    if w.flush().is_err() {
        return Err(AnswerFault::Write);
    }
    Ok(())
}
