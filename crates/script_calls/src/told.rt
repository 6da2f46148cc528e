//! What a call was told.

ghost use Rattle.std.specs.Prelude.{◌↔◌, IsTrue};
ghost use Rattle.script_calls.specs.Asking.{IsAskedAgain};

use call_protocol::CallFault;
use run_files::CallRequest;
use thiserror::Error;

/// What a service told a client.
#[derive(Debug, Drop)]
pub enum Told {
    /// The upload made this version of its table.
    Put(u64),
    /// The version is in these frames, one behind the other, as they came.
    Get(Vec<u8>),
    /// The latest version of the table, and at how many locations it is served.
    Info(u64, u64),
    /// The service refused the call with this status, which is not 0, and this text (gRPC, "Status codes and their use in gRPC").
    Status(u8, String),
}

/// Why nothing was told.
#[derive(Clone, Copy, Debug, PartialEq, Eq, Error)]
pub enum Unanswered {
    /// What came is no answer to the call.
    #[error("BadAnswer")]
    BadAnswer,
    /// The call could not be carried to its end.
    #[error("{0}")]
    Call(CallFault),
}

/// The status of a service that can't answer now (gRPC, "Status codes and their use in gRPC", UNAVAILABLE).
const UNAVAILABLE: u8 = 14;

/// Whether a client asks the same again a little later: it asked for a version, which the service does not serve yet, or not at
/// this moment.
pub fn asks_again(asked: &CallRequest, told: &Told) -> bool
    ensures { IsTrue result ↔ IsAskedAgain asked.now told.now }
{
    match (asked, told) {
        (CallRequest::Get(_), Told::Status(status, _)) => *status == UNAVAILABLE,
        _ => false,
    }
}
