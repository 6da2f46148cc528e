//! Why there is no upload.

use std::alloc::AllocError;
use thiserror::Error;

/// Why bytes could not be read as an upload.
#[derive(Clone, Copy, Debug, PartialEq, Eq, Error)]
pub enum DecodeFault {
    /// The bytes are no upload's encoding: no such fields, names or limits, no schema or no batch of it, or one that is
    /// encoded otherwise.
    #[error("NotAnUpload")]
    NotAnUpload,
    /// Memory was refused.
    #[error("OutOfMemory")]
    OutOfMemory,
}

impl From<AllocError> for DecodeFault {
    ghost use Rattle.std.specs.Prelude.{◌≡◌};
    ghost use Rattle.uploads.specs.declared.decode_fault.DecodeFault.TheVariants.{OutOfMemory};

    ghost from_gives = { λ _ fault. fault ≡ OutOfMemory };

    fn from(_refused: AllocError) -> DecodeFault {
        DecodeFault::OutOfMemory
    }
}
