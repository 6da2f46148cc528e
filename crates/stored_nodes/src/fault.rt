//! Why an event was not applied.

use stable_records::StoreFault;
use std::alloc::AllocError;
use thiserror::Error;

/// Why a seat did not apply an event, or did not recover its node.
#[derive(Clone, Copy, Debug, PartialEq, Eq, Error)]
pub enum StoredNodeFault {
    /// Memory was refused. In an event it was memory for messages that are due: for copies of them, or for room behind
    /// those that were sent; in a recovery it was memory for the node. The node, its records and the messages are as
    /// before.
    #[error("OutOfMemory")]
    OutOfMemory,
    /// The store of the records failed, and its count of faults rose. In a tick or a delivery the node is down then, as a
    /// cut of it would leave it, and the record that was due may be kept or not; a restart leaves the seat as it was, and
    /// so does a recovery, where it may also be the store's want of memory, by which its count does not rise.
    #[error("Store: {0}")]
    Store(StoreFault),
    /// A restart or a recovery was given other records than were kept, which no store does that tells what it has. The
    /// seat is as it was.
    #[error("Lost")]
    Lost,
}

impl From<AllocError> for StoredNodeFault {
    ghost use Rattle.std.specs.Prelude.{◌≡◌};
    ghost use Rattle.stored_nodes.specs.declared.fault.StoredNodeFault.TheVariants.{OutOfMemory};

    ghost from_gives = { λ _ fault. fault ≡ OutOfMemory };

    fn from(_: AllocError) -> StoredNodeFault {
        StoredNodeFault::OutOfMemory
    }
}
