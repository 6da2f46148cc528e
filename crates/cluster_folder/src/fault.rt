//! What keeps a server from starting over a folder.

use thiserror::Error;

/// What keeps a server from starting over a folder. A number is that of the node whose file it is about.
#[derive(Clone, Copy, Debug, PartialEq, Eq, Error)]
pub enum FolderFault {
    /// The folder can't be opened or made.
    #[error("Open")]
    Folder,
    /// A file of records can't be opened or made.
    #[error("Open")]
    Open(u8),
    /// Another process has a file of records.
    #[error("Locked")]
    Locked(u8),
    /// A file of sums can't be opened or made.
    #[error("Open")]
    SumsOpen(u8),
    /// Another process has a file of sums.
    #[error("Locked")]
    SumsLocked(u8),
    /// What the folder says of its cluster can't be read, or written.
    #[error("Device")]
    IdentityDevice,
    /// What the folder says of its cluster is not what a server wrote.
    #[error("Damaged")]
    IdentityDamaged,
    /// The folder has the files of a cluster with another number of nodes.
    #[error("Members")]
    Members,
    /// A file is not there, and others have records.
    #[error("Missing")]
    Missing(u8),
    /// A file is shorter than an earlier server left it.
    #[error("Truncated")]
    Truncated(u8),
    /// A file begins otherwise than an earlier server left it.
    #[error("Foreign")]
    Foreign(u8),
    /// A file could not be read.
    #[error("Device")]
    Device(u8),
    /// Memory was refused.
    #[error("OutOfMemory")]
    OutOfMemory,
}
