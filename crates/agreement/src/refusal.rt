//! Why nothing is due.

ghost use Rattle.std.specs.Prelude.{◌≡◌};
ghost use Rattle.agreement.specs.declared.refusal.Refusal.TheVariants.{OutOfMemory};

use std::alloc::AllocError;
use thiserror::Error;

/// Why nothing is done.
#[derive(Clone, Copy, Debug, PartialEq, Eq, Error)]
pub enum Refusal {
    /// A node or a slot that a message or a record names is none of the configuration's, or a tick is above 7.
    #[error("OutOfRange")]
    OutOfRange,
    /// There is no such slot.
    #[error("SlotsSpent")]
    SlotsSpent,
    /// No round is left for another attempt.
    #[error("RoundsSpent")]
    RoundsSpent,
    /// Memory was refused.
    #[error("OutOfMemory")]
    OutOfMemory,
}

impl From<AllocError> for Refusal {
    ghost from_gives = { λ _ refusal. refusal ≡ OutOfMemory };

    fn from(_: AllocError) -> Refusal {
        Refusal::OutOfMemory
    }
}
