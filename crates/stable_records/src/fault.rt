//! Why a store did not keep a record, or gives none back.

use std::alloc::AllocError;
use thiserror::Error;

/// Why a call of a store failed. Each fault but [`StoreFault::OutOfMemory`] raises the store's count of faults.
#[derive(Clone, Copy, Debug, PartialEq, Eq, Error)]
pub enum StoreFault {
    /// What the store stands on failed. The record of a keep may stand there, or not: the next recall that is `Ok`
    /// says.
    #[error("Device")]
    Device,
    /// What stands there means no records.
    #[error("Damaged")]
    Damaged,
    /// A keep before any recall that was `Ok`, or with none since an answer was [`StoreFault::Device`].
    #[error("Broken")]
    Broken,
    /// Memory was refused.
    #[error("OutOfMemory")]
    OutOfMemory,
}

impl From<AllocError> for StoreFault {
    ghost use Rattle.std.specs.Prelude.{◌≡◌};
    ghost use Rattle.stable_records.specs.declared.fault.StoreFault.TheVariants.{OutOfMemory};

    ghost from_gives = { λ _ fault. fault ≡ OutOfMemory };

    fn from(_: AllocError) -> StoreFault {
        StoreFault::OutOfMemory
    }
}
