//! Why a running node did nothing.

use agreement::Refusal;
use stable_records::StoreFault;
use thiserror::Error;

/// Why a call of a seat failed. Of those that stand, a call tells the first in this order, memory apart.
#[derive(Clone, Copy, Debug, PartialEq, Eq, Error)]
pub enum SeatFault {
    /// The node is down.
    #[error("Down")]
    Down,
    /// The journal has not just the entries of this node that the seat has, or another configuration.
    #[error("Strange")]
    Strange,
    /// The journal has as many entries as its configuration allows.
    #[error("JournalFull")]
    JournalFull,
    /// The journal has no such message under the number of the delivery.
    #[error("NotSent")]
    NotSent,
    /// The rules of the node refuse the input, or memory was refused.
    #[error("{0}")]
    Refused(Refusal),
    /// The store of the records failed, or wanted memory that it was refused.
    #[error("Store: {0}")]
    Store(StoreFault),
    /// A restart was given other records than were kept, which no store does that tells what it has.
    #[error("Lost")]
    Lost,
}
