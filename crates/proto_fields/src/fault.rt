//! Why bytes could not be read as fields.

use std::alloc::{AllocError, AllocFailed};
use thiserror::Error;

/// What is wrong with bytes that should be protobuf fields (Protocol Buffers, "Encoding").
#[derive(Clone, Copy, Debug, PartialEq, Eq, Error)]
pub enum WireFault {
    /// A varint goes on past ten bytes, or its number takes more than 64 bits.
    #[error("BadVarint")]
    BadVarint,
    /// A field number is 0 or above [`crate::MAX_FIELD_NUMBER`].
    #[error("BadKey")]
    BadKey,
    /// A wire type is 3, 4, 6 or 7. A reader of messages says it too where a field has another wire type than its
    /// message gives it.
    #[error("BadWireType")]
    BadWireType,
    /// The bytes end inside a field.
    #[error("CutShort")]
    CutShort,
    /// A string is not UTF-8. Only a reader of messages says it, since fields hold bytes.
    #[error("NotUtf8")]
    NotUtf8,
    /// Memory was refused.
    #[error("OutOfMemory")]
    OutOfMemory,
}

impl From<AllocError> for WireFault {
    ghost use Rattle.std.specs.Prelude.{◌≡◌};
    ghost use Rattle.proto_fields.specs.declared.fault.WireFault.TheVariants.{OutOfMemory};

    ghost from_gives = { λ _ fault. fault ≡ OutOfMemory };

    fn from(_refused: AllocError) -> WireFault {
        WireFault::OutOfMemory
    }
}

impl<T: Drop> From<AllocFailed<T>> for WireFault {
    ghost use Rattle.std.specs.Prelude.{◌≡◌};
    ghost use Rattle.proto_fields.specs.declared.fault.WireFault.TheVariants.{OutOfMemory};

    ghost from_gives = { λ _ fault. fault ≡ OutOfMemory };

    fn from(_refused: AllocFailed<T>) -> WireFault {
        WireFault::OutOfMemory
    }
}
