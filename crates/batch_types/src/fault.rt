//! What can be wrong with a batch.

use std::alloc::AllocError;
use thiserror::Error;

/// Why a header and a body lay out no batch, in the order in which it is told: those of the header first, then those of
/// each column, depth first, a parent before the columns inside it.
#[derive(Clone, Copy, Debug, PartialEq, Eq, Error)]
pub enum BatchFault {
    /// The header says that the buffers are compressed.
    #[error("Compressed")]
    Compressed,
    /// There are more than 1,048,576 rows, or a node has more than 16,777,216 values; or one of these is below zero.
    #[error("TooManyRows")]
    TooManyRows,
    /// The header does not have one node for each field.
    #[error("NodeCount")]
    NodeCount,
    /// The header does not have as many buffers as the fields have.
    #[error("BufferCount")]
    BufferCount,
    /// The body is shorter than the header says, or the header says less than 0; or a buffer does not lie in the part of
    /// the body that the header speaks of, or is too short for its node.
    #[error("BufferRange")]
    BufferRange,
    /// A node does not tell how many of its values are null. Of a column of the type Null this is not looked at.
    #[error("NullCount")]
    NullCount,
    /// Offsets begin below 0, fall, or lead behind what they lead into.
    #[error("OffsetsFall")]
    OffsetsFall,
    /// A column has fewer values than the one around it, or the batch, reaches.
    #[error("ChildShort")]
    ChildShort,
    /// A text that belongs to the batch is not UTF-8.
    #[error("NotUtf8")]
    NotUtf8,
    /// Memory was refused, of a header and a body that lay out a batch.
    #[error("OutOfMemory")]
    OutOfMemory,
}

impl From<AllocError> for BatchFault {
    ghost use Rattle.std.specs.Prelude.{◌≡◌};
    ghost use Rattle.batch_types.specs.declared.fault.BatchFault.TheVariants.{OutOfMemory};

    ghost from_gives = { λ _ fault. fault ≡ OutOfMemory };

    fn from(_: AllocError) -> BatchFault {
        BatchFault::OutOfMemory
    }
}
