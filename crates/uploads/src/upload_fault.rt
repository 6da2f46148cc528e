//! Why no upload is made.

use std::alloc::AllocError;
use thiserror::Error;

/// Why a schema and batches are no upload, in the order in which it is told.
#[derive(Clone, Copy, Debug, PartialEq, Eq, Error)]
pub enum UploadFault {
    /// The table's name is not 1 to 64 digits, letters of ASCII, `_`, `.` or `-`.
    #[error("BadTable")]
    BadTable,
    /// There are more than 1,024 batches.
    #[error("TooManyBatches")]
    TooManyBatches,
    /// The schema is not one that can be written and read back, or a batch is not of it.
    #[error("ShapeDiffers")]
    ShapeDiffers,
    /// The encoding would have more than 16,777,216 bytes, or a message that is served of it more than 4,194,304.
    #[error("TooLarge")]
    TooLarge,
    /// Memory was refused.
    #[error("OutOfMemory")]
    OutOfMemory,
}

impl From<AllocError> for UploadFault {
    ghost use Rattle.std.specs.Prelude.{◌≡◌};
    ghost use Rattle.uploads.specs.declared.upload_fault.UploadFault.TheVariants.{OutOfMemory};

    ghost from_gives = { λ _ fault. fault ≡ OutOfMemory };

    fn from(_refused: AllocError) -> UploadFault {
        UploadFault::OutOfMemory
    }
}
