//! Why a run of the acceptor ended.

use ballots::MessageFault;
use proto_wire::FrameFault;
use thiserror::Error;

/// What ended a run. It is printed by the innermost fault's name.
#[derive(Clone, Copy, Debug, PartialEq, Eq, Error)]
pub enum AnswerFault {
    /// The next frame could not be read.
    #[error("{0}")]
    Frame(FrameFault),
    /// The next frame has the flag that ends a call, which has no place here.
    #[error("BadFlag")]
    EndFlag,
    /// The next frame's payload is no message.
    #[error("{0}")]
    Message(MessageFault),
    /// The answer is longer than a frame's payload may be.
    #[error("TooLong")]
    AnswerTooLong,
    /// As many frames were answered as a run may answer.
    #[error("Io")]
    FrameLimit,
    /// A write failed or was interrupted.
    #[error("Io")]
    Write,
    /// Memory was refused.
    #[error("OutOfMemory")]
    OutOfMemory,
}
