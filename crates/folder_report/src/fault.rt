//! What keeps records from being told of, and a report from being written.

use ballots::Slot;
use std::alloc::AllocError;
use thiserror::Error;

/// Why nothing is told of some records.
#[derive(Clone, Copy, Debug, PartialEq, Eq, Error)]
pub enum ReportFault {
    /// At one ballot of the slot two values are recorded, which no run of correct nodes does.
    #[error("Differ")]
    Differ(Slot),
    /// Memory was refused.
    #[error("OutOfMemory")]
    OutOfMemory,
}

impl From<AllocError> for ReportFault {
    ghost use Rattle.std.specs.Prelude.{◌≡◌};
    ghost use Rattle.folder_report.specs.declared.fault.ReportFault.TheVariants.{OutOfMemory};

    ghost from_gives = { λ _ fault. fault ≡ OutOfMemory };

    fn from(_: AllocError) -> ReportFault {
        ReportFault::OutOfMemory
    }
}

/// Why the lines of a report were not written.
#[derive(Clone, Copy, Debug, PartialEq, Eq, Error)]
pub enum WriteFault {
    /// Memory was refused.
    #[error("OutOfMemory")]
    OutOfMemory,
    /// A line could not be written.
    #[error("Io")]
    Io,
}
