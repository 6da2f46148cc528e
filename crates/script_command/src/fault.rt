//! What keeps a script from being played.

use call_protocol::CallFault;
use flight_service::ServiceFault;
use script_calls::Unanswered;
use thiserror::Error;

/// What kept the calls of a script from being made, or their lines from being written.
#[derive(Clone, Copy, Debug, PartialEq, Eq, Error)]
pub enum Unplayed {
    /// A port of the cluster can't be had.
    #[error("Bind")]
    Bind,
    /// Memory or a thread was refused.
    #[error("OutOfMemory")]
    OutOfMemory,
    /// A line could not be written, or a connection failed.
    #[error("Io")]
    Io,
    /// What a node answered is no answer to the call.
    #[error("BadAnswer")]
    BadAnswer,
}

/// What kept a script from being played to its end.
#[derive(Clone, Copy, Debug, PartialEq, Eq, Error)]
pub enum PlayFault {
    /// The file tells no script. No port was opened.
    #[error("BadScript")]
    BadScript,
    /// The file was not read for want of memory, or what it tells could not be played.
    #[error("{0}")]
    Unplayed(Unplayed),
}

/// The fault of a script whose cluster could not be served.
pub(crate) fn not_served(fault: ServiceFault) -> Unplayed {
    match fault {
        ServiceFault::Bind => Unplayed::Bind,
        // Its nodes are three or five, and their records are in memory.
        _ => Unplayed::OutOfMemory,
    }
}

/// The fault of a script with a call to which nothing was answered.
pub(crate) fn not_answered(fault: Unanswered) -> Unplayed {
    match fault {
        Unanswered::BadAnswer => Unplayed::BadAnswer,
        Unanswered::Call(CallFault::OutOfMemory) => Unplayed::OutOfMemory,
        Unanswered::Call(_) => Unplayed::Io,
    }
}
