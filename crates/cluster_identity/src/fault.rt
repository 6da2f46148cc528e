//! What keeps a text from being read.

use thiserror::Error;

/// Why a text is not read as an identity.
#[derive(Clone, Copy, Debug, PartialEq, Eq, Error)]
pub enum IdentityFault {
    /// The text means no identity.
    #[error("NotIdentity")]
    NotIdentity,
    /// Memory was refused.
    #[error("OutOfMemory")]
    OutOfMemory,
}
