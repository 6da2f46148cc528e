//! What keeps a server from starting.

use cluster_folder::FolderFault;
use flight_service::ServiceFault;
use thiserror::Error;

/// What kept a server from starting. A number is that of the node whose file it is about.
#[derive(Clone, Copy, Debug, PartialEq, Eq, Error)]
pub enum ServeFault {
    /// A port can't be had.
    #[error("Bind")]
    Bind,
    /// There can't be so many nodes: a cluster has 3 or 5.
    #[error("Members")]
    Members,
    /// The folder can't be had, or its files are not those of such a cluster.
    #[error("{0}")]
    Folder(FolderFault),
    /// A node's file has records already.
    #[error("OldRecords")]
    OldRecords(u8),
    /// What stands in a node's file means no records.
    #[error("Damaged")]
    Damaged(u8),
    /// A node's file could not be read or written.
    #[error("Device")]
    Device(u8),
    /// The records in a node's file are those of another node, or of a cluster with other slots or nodes.
    #[error("Foreign")]
    Foreign(u8),
    /// The files of two clusters are mixed: they have two values at one ballot of a slot.
    #[error("Foreign")]
    Mixed,
    /// Memory or a thread was refused.
    #[error("OutOfMemory")]
    OutOfMemory,
    /// Where the nodes are served could not be written.
    #[error("Io")]
    Io,
}

/// The fault of a server whose service did not start, or whose node of this number did not.
pub(crate) fn fault_of(node: u8, fault: ServiceFault) -> ServeFault {
    match fault {
        ServiceFault::Bind => ServeFault::Bind,
        ServiceFault::Members => ServeFault::Members,
        ServiceFault::OldRecords => ServeFault::OldRecords(node),
        ServiceFault::Damaged => ServeFault::Damaged(node),
        ServiceFault::Device => ServeFault::Device(node),
        ServiceFault::OutOfMemory => ServeFault::OutOfMemory,
    }
}

/// The fault of a server whose folder can't be had.
pub(crate) fn folder_fault(fault: FolderFault) -> ServeFault {
    match fault {
        FolderFault::OutOfMemory => ServeFault::OutOfMemory,
        _ => ServeFault::Folder(fault),
    }
}
