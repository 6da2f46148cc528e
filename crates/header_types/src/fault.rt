//! Why a text is no header.

ghost use Rattle.std.specs.Prelude.{◌≡◌};
ghost use Rattle.header_types.specs.declared.fault.MetaFault.TheVariants.{OutOfMemory};
ghost use Rattle.header_types.specs.FaultOf.{fault_of};

use flat_places::PlaceFault;
use std::alloc::AllocError;
use thiserror::Error;

/// What is wrong with a text that should be the header of a message (Apache Arrow, "Message.fbs" and "Schema.fbs").
#[derive(Clone, Copy, Debug, PartialEq, Eq, Error)]
pub enum MetaFault {
    /// A byte that the header needs does not lie in the text, or a vtable would begin before the text does.
    #[error("OutOfBounds")]
    OutOfBounds,
    /// The metadata is not of version V5.
    #[error("Version")]
    Version,
    /// The schema is not little-endian.
    #[error("Endianness")]
    Endianness,
    /// A field has a type of this number, which is not carried, or is a decimal of another width.
    #[error("Unsupported({0})")]
    Unsupported(u8),
    /// The message is a dictionary, or a field refers to one.
    #[error("Dictionary")]
    Dictionary,
    /// A field stands inside 16 others.
    #[error("TooDeep")]
    TooDeep,
    /// There are more than 512 fields, 4,096 entries of metadata, or 1,048,576 bytes of texts.
    #[error("TooManyFields")]
    TooManyFields,
    /// A text is not UTF-8.
    #[error("NotUtf8")]
    NotUtf8,
    /// There is no header, or one of a type that is not carried; a vtable's own size is below 4; a field's parameter is
    /// none of its type's; or its type has another number of children.
    #[error("BadHeader")]
    BadHeader,
    /// Memory was refused.
    #[error("OutOfMemory")]
    OutOfMemory,
}

impl From<PlaceFault> for MetaFault {
    ghost from_gives = { λ fault told. told ≡ fault_of fault };

    fn from(fault: PlaceFault) -> MetaFault {
        match fault {
            PlaceFault::OutOfBounds => MetaFault::OutOfBounds,
            PlaceFault::NotUtf8 => MetaFault::NotUtf8,
            PlaceFault::SmallVtable => MetaFault::BadHeader,
        }
    }
}

impl From<AllocError> for MetaFault {
    ghost from_gives = { λ _ fault. fault ≡ OutOfMemory };

    fn from(_refused: AllocError) -> MetaFault {
        MetaFault::OutOfMemory
    }
}
