//! What keeps a schedule from being played.

use thiserror::Error;

/// What kept a schedule from being played to its end, or its lines from being written.
#[derive(Clone, Copy, Debug, PartialEq, Eq, Error)]
pub enum ReplayFault {
    /// The file tells no schedule. Nothing was played.
    #[error("BadSchedule")]
    BadSchedule,
    /// Memory was refused.
    #[error("OutOfMemory")]
    OutOfMemory,
    /// A line could not be written.
    #[error("Io")]
    Io,
}
