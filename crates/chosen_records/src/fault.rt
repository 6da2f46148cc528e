//! Why nothing is told again.

use ballots::Slot;
use std::alloc::AllocError;
use thiserror::Error;

/// Why nothing is told again of some records.
#[derive(Clone, Copy, Debug, PartialEq, Eq, Error)]
pub enum ChosenFault {
    /// At one ballot of the slot two values are recorded, which no run of correct nodes does.
    #[error("Differ")]
    Differ(Slot),
    /// Memory was refused.
    #[error("OutOfMemory")]
    OutOfMemory,
}

impl From<AllocError> for ChosenFault {
    ghost use Rattle.std.specs.Prelude.{◌≡◌};
    ghost use Rattle.chosen_records.specs.declared.fault.ChosenFault.TheVariants.{OutOfMemory};

    ghost from_gives = { λ _ fault. fault ≡ OutOfMemory };

    fn from(_: AllocError) -> ChosenFault {
        ChosenFault::OutOfMemory
    }
}
