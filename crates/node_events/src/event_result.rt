//! What an event gives.

use table_versions::{Answer, Outcome};
use thiserror::Error;

/// What an event gave.
#[derive(Clone, Debug, PartialEq, Eq, Drop)]
pub enum EventResult {
    /// A tick or a delivery sent so many messages.
    Sent {
        /// The number of the first of them, in the order of sending, from 0 on.
        first: u64,
        /// How many there are. There may be none.
        count: u64,
    },
    /// A put was taken, a node went down, or it started again.
    Done,
    /// What the version that was asked for is answered with: its frames, which are shared.
    Answer(Answer),
    /// The node's tables have no such version.
    Unavailable,
    /// The number of the table's latest version.
    Info(u64),
    /// The node's tables have no such table.
    NoTable,
    /// What has become of the upload.
    Outcome(Outcome),
    /// The event was refused, and the node is as before; but a start that is refused leaves the node down.
    Refused(Reason),
}

/// Why an event was refused.
#[derive(Clone, Copy, Debug, PartialEq, Eq, Error)]
pub enum Reason {
    /// The node is no member; or a tick leaves more than seven slots to others; or a message names a node that is no
    /// member, or a slot that does not exist.
    #[error("OutOfRange")]
    OutOfRange,
    /// Every slot has a value, or the slot whose turn it is does not exist.
    #[error("SlotsSpent")]
    SlotsSpent,
    /// There is no ballot above those that were seen.
    #[error("RoundsSpent")]
    RoundsSpent,
    /// Memory was refused.
    #[error("OutOfMemory")]
    OutOfMemory,
    /// The node is down.
    #[error("Down")]
    Down,
    /// No message of this number was sent yet.
    #[error("NotSent")]
    NotSent,
}
