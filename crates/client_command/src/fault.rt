//! Why a client's word was not done.

ghost use Rattle.std.specs.Prelude.{◌≡◌, ◌↔◌, Contains, IsTrue};
ghost use Rattle.client_command.specs.Faults.{MayBeTaken, fault_of_rows, final_statuses, status_of_fault};

use crate::status::{FAILURE, NO_CALL};
use call_protocol::Status;
use client_calls::ClientFault;
use client_connections::ConnectFault;
use json_client::RowCallFault;
use json_rows::JsonFault;
use std::alloc::AllocError;
use thiserror::Error;
use uploads::UploadFault;

/// Why a client's word was not done. The text of each is its name in the line that is printed.
#[derive(Debug, PartialEq, Eq, Drop, Error)]
pub enum CommandFault {
    /// The address is not HOST:PORT, with an IPv4 address or `localhost` as the host and a port from 1 to 65535.
    #[error("BadAddress")]
    BadAddress,
    /// The upload's id is not 32 lower-case hexadecimal digits.
    #[error("BadId")]
    BadId,
    /// The name is none of a table: 1 to 64 of A-Z, a-z, 0-9, `_`, `.` and `-`. It is told too of the version 0, which
    /// no table has.
    #[error("BadTable")]
    BadTable,
    /// There is no connection.
    #[error("{0}")]
    Connect(ConnectFault),
    /// A call has no answer: the service refused it, with a status and a text, or what came is none, or a read or a
    /// write failed.
    #[error("{0}")]
    Call(ClientFault),
    /// The lines tell no rows of the schema, or the rows have no lines.
    #[error("{0}")]
    Rows(JsonFault),
    /// The rows make no upload.
    #[error("{0}")]
    Upload(UploadFault),
    /// What was told could not be written.
    #[error("Io")]
    Io,
    /// Memory was refused.
    #[error("OutOfMemory")]
    OutOfMemory,
    /// What the service tells of a table is at no location of its kind.
    #[error("BadLocation")]
    BadLocation,
    /// Not all locations give the same bytes.
    #[error("Differs")]
    Differs,
}

impl From<AllocError> for CommandFault {
    ghost use Rattle.std.specs.Prelude.{◌≡◌};
    ghost use Rattle.client_command.specs.declared.fault.CommandFault.TheVariants.{OutOfMemory};

    ghost from_gives = { λ _ fault. fault ≡ OutOfMemory };

    fn from(_refused: AllocError) -> CommandFault {
        CommandFault::OutOfMemory
    }
}

/// Whether this status refuses an upload however often it is put (gRPC, "Status codes and their use in gRPC").
fn is_final(status: u8) -> bool
    ensures { IsTrue result ↔ Contains final_statuses status }
{
    [
        Status::InvalidArgument.code(),
        Status::NotFound.code(),
        Status::AlreadyExists.code(),
        Status::FailedPrecondition.code(),
        Status::Unimplemented.code(),
    ]
    .contains(&status)
}

impl CommandFault {
    /// Why rows were not put, or not printed.
    pub(crate) fn of_rows(fault: RowCallFault) -> CommandFault
        ensures { result ≡ fault_of_rows fault }
    {
        match fault {
            RowCallFault::Call(fault) => CommandFault::Call(fault),
            RowCallFault::Rows(fault) => CommandFault::Rows(fault),
            RowCallFault::Upload(fault) => CommandFault::Upload(fault),
            RowCallFault::Output => CommandFault::Io,
        }
    }

    /// The exit status of the fault, which is never 0: that of the service where it refused the call, [`NO_CALL`] of
    /// words that are none, and else [`FAILURE`].
    pub fn status(&self) -> u8
        ensures { result ≡ status_of_fault self.now }
    {
        match self {
            CommandFault::BadAddress | CommandFault::BadId | CommandFault::BadTable => NO_CALL,
            CommandFault::Call(ClientFault::Status(status, _)) => (*status).max(FAILURE),
            _ => FAILURE,
        }
    }

    /// Whether the upload of a put that ended so may have been taken, though it was not told: its request went out, in part
    /// or whole, and what came back does not refuse it for good.
    pub(crate) fn may_be_taken(&self) -> bool
        ensures { IsTrue result ↔ MayBeTaken self.now }
    {
        match self {
            CommandFault::Call(ClientFault::Status(status, _)) => !is_final(*status),
            CommandFault::Call(ClientFault::BadAnswer | ClientFault::Call(_))
            | CommandFault::Io
            | CommandFault::OutOfMemory => true,
            CommandFault::BadAddress
            | CommandFault::BadId
            | CommandFault::BadTable
            | CommandFault::Connect(_)
            | CommandFault::Rows(_)
            | CommandFault::Upload(_)
            | CommandFault::BadLocation
            | CommandFault::Differs => false,
        }
    }
}
