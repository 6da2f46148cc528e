//! One call, served.

ghost use Rattle.std.specs.Prelude.{◌≡◌};
ghost use Rattle.grpc_frames.specs.FrameFaults.{WhereKnown};
ghost use Rattle.flight_calls.specs.Serving.{Serves, HandsOneAtMost};
ghost use Rattle.flight_calls.specs.Responding.{AnswersText};

use crate::backend::Backend;
use crate::outgoing::Outgoing;
use crate::responding::respond;
use crate::sending::send_answer;
use call_protocol::{CallFault, CallRefusal};
use call_reading::read_call;
use std::alloc::Global;
use std::io::{Read, Write};

/// Reads a call to its end, or to the first fault that stands in it, and asks the backend once the end was read.
fn answer<R: Read, B: Backend>(alloc: Global, r: &mut R, b: &mut B) -> Result<Outgoing, CallRefusal>
    ensures answers { WhereKnown (R.remaining r.old) (R.remaining r.new)
        (AnswersText B.may_answer B.handed B.leaves B.stays b.old b.new result) }
    ensures once { HandsOneAtMost B.handed b.old b.new }
{
    let asked = read_call(alloc, r)?;
    respond(alloc, b, &asked)
}

/// Serves one call: reads it to its end, or to the first fault that stands in it, asks the backend once the end was
/// read, and writes the answer's frames and the trailer.
///
/// A refusal that was written as a trailer is `Ok`. [`CallFault::Read`] says that a read failed, of which the trailer
/// `Io` tells; [`CallFault::Write`] that a write failed, and that a beginning of what was due has gone out. It is never
/// [`CallFault::OutOfMemory`]: the trailer of that name takes no memory. Whatever reader and writer it is over, one upload is
/// handed over at most.
pub fn serve_call<R: Read, W: Write, B: Backend>(
    alloc: Global,
    r: &mut R,
    w: &mut W,
    b: &mut B,
) -> Result<(), CallFault>
    ensures served { WhereKnown (R.remaining r.old) (R.remaining r.new)
        (λ text rest. WhereKnown (W.contents w.old) (W.contents w.new)
        (Serves B.may_answer B.handed B.leaves B.stays result b.old b.new text rest)) }
    ensures once { HandsOneAtMost B.handed b.old b.new }
{
    let answered = answer(alloc, r, b);
    send_answer(w, answered)
}
