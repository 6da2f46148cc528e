//! What answers a ticket.

ghost use Rattle.std.specs.Prelude.{◌≡◌, ◌==◌, ◌<◌, ◌^◌, length, IfOk};
ghost use Rattle.std.specs.List.{AllByRecursion, concat};
ghost use lib.Pointwise.{pointwise};
ghost use Rattle.std.specs.Cmp.Rules.{comparing};
ghost use Rattle.std.proofs.Common.{rules};
ghost use Rattle.table_versions.specs.Answering.{IsMessageFrame, AreFrames};

use bytes::Bytes;
use grpc_frames::laws::frames_are_one;
use std::alloc::{AllocError, Global};
use std::marker::Model;

/// What answers a ticket: the frames of a version (gRPC, "gRPC over HTTP2", "Length-Prefixed-Message"), each with one
/// message of Arrow Flight (Apache Arrow, "Flight.proto", `FlightData`). Contracts see its bytes: all frames, one
/// behind the other.
///
/// The frames are shared with the tables that answered, and with other answers: no byte of theirs was copied.
#[derive(Debug, Drop)]
pub struct Answer {
    frames: Vec<Bytes>,
}

impl Model for Answer {
    ghost use Rattle.std.specs.Prelude.{ℕ, List};
    ghost use Rattle.std.specs.List.{concat};
    ghost use Rattle.table_versions.specs.Answering.{AreFrames};

    ghost Value = { List ℕ };

    ghost view = { λ a. concat a.frames.items };

    ghost invariant = { λ a. AreFrames a.frames.items };
}

impl Answer {
    /// The answer of these frames.
    pub(crate) fn of(frames: Vec<Bytes>) -> Answer
        requires { AreFrames frames.items }
        ensures { result ≡ concat frames.items }
    {
        Answer { frames }
    }

    /// Its frames, each by itself: that of the schema, and then those of each upload, which has one for each of its
    /// batches, or one with its id alone where it has none.
    pub fn frames(&self) -> &[Bytes]
        ensures bytes { concat result.now ≡ self.now }
        ensures each { AllByRecursion IsMessageFrame result.now }
    {
        self.frames.as_slice()
    }

    /// How many bytes all frames have. It takes time in proportion to the number of frames.
    pub fn len(&self) -> usize
        ensures { result ≡ length self.now }
    {
        bytes_in(self.frames.as_slice())
    }

    /// A copy of its bytes, one frame behind the other. [`AllocError`] says that memory was refused.
    pub fn to_vec(&self, alloc: Global) -> Result<Vec<u8>, AllocError>
        ensures { IfOk result (λ bytes. bytes.items ≡ self.now) }
    {
        joined(alloc, self.frames.as_slice())
    }
}

impl Clone for Answer {
    ghost is_clone = { λ old new. new ≡ old };

    /// The same answer: its frames are shared. [`AllocError`] says that memory for the list of them was refused.
    fn clone(&self) -> Result<Answer, AllocError>
        ensures { IfOk result (λ new. new ≡ self.now) }
    {
        Ok(Answer {
            frames: self.frames.clone()?,
        })
    }
}

impl PartialEq for Answer {
    ghost eq = { pointwise ◌==◌ };

    ghost laws = { Prim.search (comparing, rules) };

    /// Whether the two have the same bytes.
    fn eq(&self, other: &Answer) -> bool {
        frames_are_one();
        self.frames.as_slice() == other.frames.as_slice()
    }
}

impl Eq for Answer {
    ghost laws = { Prim.search (comparing, rules) };
}

/// How many bytes these frames have.
pub(crate) fn bytes_in(frames: &[Bytes]) -> usize
    requires { length (concat frames.now) < 2 ^ 64 }
    ensures { result ≡ length (concat frames.now) }
{
    let mut count = 0;
    for frame in frames {
        count += frame.len();
    }
    count
}

/// The bytes of these frames, one behind the other.
fn joined(alloc: Global, frames: &[Bytes]) -> Result<Vec<u8>, AllocError>
    requires { length (concat frames.now) < 2 ^ 64 }
    ensures { IfOk result (λ bytes. bytes.items ≡ concat frames.now) }
{
    let mut bytes = Vec::with_capacity(alloc, bytes_in(frames))?;
    for frame in frames {
        bytes.extend_from_slice(frame.as_slice())?;
    }
    Ok(bytes)
}
