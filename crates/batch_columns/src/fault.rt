//! What can be wrong with the values of a column.

use std::alloc::AllocError;
use thiserror::Error;

/// Why some values make no column.
#[derive(Clone, Copy, Debug, PartialEq, Eq, Error)]
pub enum ColumnFault {
    /// The values have 2^31 bytes or more in all, where offsets of four bytes do not lead.
    #[error("TooLong")]
    TooLong,
    /// A value has another number of bytes than the layout says.
    #[error("WrongSize")]
    WrongSize,
    /// Memory was refused.
    #[error("OutOfMemory")]
    OutOfMemory,
}

impl From<AllocError> for ColumnFault {
    ghost use Rattle.std.specs.Prelude.{◌≡◌};
    ghost use Rattle.batch_columns.specs.declared.fault.ColumnFault.TheVariants.{OutOfMemory};

    ghost from_gives = { λ _ e. e ≡ OutOfMemory };

    fn from(_: AllocError) -> ColumnFault {
        ColumnFault::OutOfMemory
    }
}
