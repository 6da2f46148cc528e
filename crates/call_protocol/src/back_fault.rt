//! Why what stands behind the calls can't answer.

use std::alloc::AllocError;
use thiserror::Error;

/// Why a backend can't answer a call.
#[derive(Clone, Copy, Debug, PartialEq, Eq, Error)]
pub enum BackFault {
    /// It has no such version, or does not know the outcome yet.
    #[error("Unavailable")]
    Unavailable,
    /// It has no such table.
    #[error("NoTable")]
    NoTable,
    /// The node is down.
    #[error("Down")]
    Down,
    /// Every slot has a value.
    #[error("SlotsSpent")]
    SlotsSpent,
    /// There is no ballot above those that were seen.
    #[error("RoundsSpent")]
    RoundsSpent,
    /// The journal has as many entries as it may have.
    #[error("JournalFull")]
    JournalFull,
    /// A record could not be kept.
    #[error("Store")]
    Store,
    /// Memory was refused.
    #[error("OutOfMemory")]
    OutOfMemory,
}

impl From<AllocError> for BackFault {
    ghost use Rattle.std.specs.Prelude.{◌≡◌};
    ghost use Rattle.call_protocol.specs.declared.back_fault.BackFault.TheVariants.{OutOfMemory};

    ghost from_gives = { λ _ fault. fault ≡ OutOfMemory };

    fn from(_refused: AllocError) -> BackFault {
        BackFault::OutOfMemory
    }
}
