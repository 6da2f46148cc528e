//! Why a frame could not be read or written.

ghost use Rattle.std.specs.Prelude.{◌≡◌};

use std::alloc::AllocError;
use thiserror::Error;

/// Why a frame could not be read or written.
#[derive(Clone, Copy, Debug, PartialEq, Eq, Error)]
pub enum FrameFault {
    /// The input ends inside a frame.
    #[error("Truncated")]
    Truncated,
    /// The flag is none of 0, 1 and 0x80.
    #[error("BadFlag")]
    BadFlag,
    /// The flag is 1, that of a compressed message.
    #[error("Compressed")]
    Compressed,
    /// The payload is longer than [`crate::MAX_FRAME_PAYLOAD`].
    #[error("TooLong")]
    TooLong,
    /// A read or a write failed, or was interrupted.
    #[error("Io")]
    Io,
    /// Memory was refused.
    #[error("OutOfMemory")]
    OutOfMemory,
}

impl From<AllocError> for FrameFault {
    ghost use Rattle.grpc_frames.specs.declared.fault.FrameFault.TheVariants.{OutOfMemory};

    ghost from_gives = { λ _ fault. fault ≡ OutOfMemory };

    fn from(_refused: AllocError) -> FrameFault {
        FrameFault::OutOfMemory
    }
}
