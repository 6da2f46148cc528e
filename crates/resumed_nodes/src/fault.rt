//! Why a node did not start again, or did not hear a message.

use stable_records::StoreFault;
use std::alloc::AllocError;
use thiserror::Error;

/// Why a node did not hear a message. The node is as before, but for room that it made.
#[derive(Clone, Copy, Debug, PartialEq, Eq, Error)]
pub enum HearFault {
    /// The message tells of no value that was accepted or decided.
    #[error("NoValue")]
    NoValue,
    /// The message names a node that is none, or a slot that there is not.
    #[error("OutOfRange")]
    OutOfRange,
    /// Memory was refused: for a copy of the message, or for what the node learns.
    #[error("OutOfMemory")]
    OutOfMemory,
    /// The node is down.
    #[error("Down")]
    Down,
    /// The store failed. It never does for a node that stands up by its rules: what is heard keeps no record.
    #[error("Store: {0}")]
    Store(StoreFault),
}

/// Why a node was not started again over the records of its store.
#[derive(Clone, Copy, Debug, PartialEq, Eq, Error)]
pub enum ReopenFault {
    /// The store gave no records back.
    #[error("Store: {0}")]
    Store(StoreFault),
    /// A record names a node that is none, or a slot that there is not.
    #[error("OutOfRange")]
    OutOfRange,
    /// A record says that the node began a ballot of another node: these are that node's records.
    #[error("AnotherNode")]
    AnotherNode,
    /// Memory was refused.
    #[error("OutOfMemory")]
    OutOfMemory,
}

impl From<AllocError> for ReopenFault {
    ghost use Rattle.std.specs.Prelude.{◌≡◌};
    ghost use Rattle.resumed_nodes.specs.declared.fault.ReopenFault.TheVariants.{OutOfMemory};

    ghost from_gives = { λ _ fault. fault ≡ OutOfMemory };

    fn from(_: AllocError) -> ReopenFault {
        ReopenFault::OutOfMemory
    }
}
