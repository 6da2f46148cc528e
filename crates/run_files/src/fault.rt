//! What keeps a file from being read.

use std::alloc::AllocError;
use thiserror::Error;

/// Why a file is not read as a schedule.
#[derive(Clone, Copy, Debug, PartialEq, Eq, Error)]
pub enum ScheduleFault {
    /// The file tells no schedule.
    #[error("BadSchedule")]
    BadSchedule,
    /// Memory was refused.
    #[error("OutOfMemory")]
    OutOfMemory,
}

/// Why a file is not read as a script.
#[derive(Clone, Copy, Debug, PartialEq, Eq, Error)]
pub enum ScriptFault {
    /// The file tells no script.
    #[error("BadScript")]
    BadScript,
    /// Memory was refused.
    #[error("OutOfMemory")]
    OutOfMemory,
}

/// Why a value is not read as what is looked for.
#[derive(Clone, Copy, Debug, PartialEq, Eq)]
pub(crate) enum ValueFault {
    /// It tells no such thing.
    Unfit,
    /// Memory was refused.
    OutOfMemory,
}

impl From<AllocError> for ValueFault {
    ghost use Rattle.std.specs.Prelude.{◌≡◌};
    ghost use Rattle.run_files.specs.declared.fault.ValueFault.TheVariants.{OutOfMemory};

    ghost from_gives = { λ _ fault. fault ≡ OutOfMemory };

    fn from(_: AllocError) -> ValueFault {
        ValueFault::OutOfMemory
    }
}
