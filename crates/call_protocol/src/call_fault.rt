//! Why a call could not be carried to its end.

use std::alloc::AllocError;
use thiserror::Error;

/// Why a call could not be carried to its end.
#[derive(Clone, Copy, Debug, PartialEq, Eq, Error)]
pub enum CallFault {
    /// A read failed or was interrupted.
    #[error("Read")]
    Read,
    /// A write failed, was interrupted or took no byte.
    #[error("Write")]
    Write,
    /// Memory was refused.
    #[error("OutOfMemory")]
    OutOfMemory,
}

impl From<AllocError> for CallFault {
    ghost use Rattle.std.specs.Prelude.{◌≡◌};
    ghost use Rattle.call_protocol.specs.declared.call_fault.CallFault.TheVariants.{OutOfMemory};

    ghost from_gives = { λ _ fault. fault ≡ OutOfMemory };

    fn from(_refused: AllocError) -> CallFault {
        CallFault::OutOfMemory
    }
}
