//! Answers of one message.

ghost use Rattle.std.specs.Prelude.{◌≡◌, ◌++◌, ◌∷◌, [], ℕ, List, IfOk};
ghost use Rattle.grpc_frames.specs.FrameFaults.{WhereKnown};
ghost use Rattle.client_calls.specs.Answers.{Receives};
ghost use Rattle.client_calls.specs.Results.{GivesOne, HasOne};
ghost use Rattle.client_calls.specs.Parts.{IsKept, KeepsOne};

use crate::client_fault::ClientFault;
use crate::parts::{AnswerPart, MAX_ANSWER_FRAMES, next_part};
use grpc_frames::laws::no_frame_begins_another;
use std::alloc::Global;
use std::io::Read;

/// What is kept of the messages that came.
#[derive(Debug, Drop)]
enum Kept {
    /// There was none.
    Nothing,
    /// There was this one.
    One(Vec<u8>),
    /// There were several, of which none is kept.
    Several,
}

impl Kept {
    /// With one message more.
    fn with(self, message: Vec<u8>) -> Kept
        ensures { (messages : List (List ℕ)) → IsKept self messages → IsKept result (messages ++ message.items ∷ []) }
    {
        match self {
            Kept::Nothing => Kept::One(message),
            Kept::One(_) | Kept::Several => Kept::Several,
        }
    }

    /// The one message, where there was one.
    fn one(self) -> Result<Vec<u8>, ClientFault>
        ensures { KeepsOne self result }
    {
        match self {
            Kept::One(message) => Ok(message),
            Kept::Nothing | Kept::Several => Err(ClientFault::BadAnswer),
        }
    }
}

/// The message of an answer that has one.
pub(crate) fn read_one<R: Read>(alloc: Global, r: &mut R) -> Result<Vec<u8>, ClientFault>
    ensures { WhereKnown (R.remaining r.old) (R.remaining r.new) (Receives GivesOne HasOne result) }
{
    no_frame_begins_another();
    let mut kept = Kept::Nothing;
    for _count in 0..MAX_ANSWER_FRAMES {
        match next_part(alloc, r)? {
            AnswerPart::Message(message) => kept = kept.with(message),
            AnswerPart::End => return kept.one(),
        }
    }
    Err(ClientFault::BadAnswer)
}
