//! What keeps records from being shown.

use ballots::Slot;
use thiserror::Error;

/// What kept a file's records from being shown, or their lines from being written.
#[derive(Clone, Copy, Debug, PartialEq, Eq, Error)]
pub enum ShowFault {
    /// The file's bytes mean no records. Nothing was written.
    #[error("Damaged")]
    Damaged,
    /// Memory was refused.
    #[error("OutOfMemory")]
    OutOfMemory,
    /// A line could not be written.
    #[error("Io")]
    Io,
}

/// What kept a cluster's folder from being shown, or its lines from being written.
#[derive(Clone, Copy, Debug, PartialEq, Eq, Error)]
pub enum ShowFolderFault {
    /// The bytes of the file of the node of this number mean no records, or such that do not fit their sums.
    #[error("Damaged")]
    Damaged(usize),
    /// At one ballot of this slot two values are recorded: the files are those of two clusters.
    #[error("Foreign")]
    Mixed(Slot),
    /// No cluster has so many nodes.
    #[error("Members")]
    Members,
    /// Memory was refused.
    #[error("OutOfMemory")]
    OutOfMemory,
    /// A line could not be written.
    #[error("Io")]
    Io,
}
