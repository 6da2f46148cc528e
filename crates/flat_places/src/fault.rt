//! Why a place of a text does not show what was asked for.

use thiserror::Error;

/// What is wrong with a place of a FlatBuffers text (FlatBuffers, "FlatBuffer Internals").
#[derive(Clone, Copy, Debug, PartialEq, Eq, Error)]
pub enum PlaceFault {
    /// A byte that the value needs does not lie in the text.
    #[error("OutOfBounds")]
    OutOfBounds,
    /// The bytes of a string are not UTF-8.
    #[error("NotUtf8")]
    NotUtf8,
    /// A vtable's own size is below 4, so that it has no room for its two sizes.
    #[error("SmallVtable")]
    SmallVtable,
}
