//! Why a request could not be answered.

use std::alloc::AllocError;
use std::io;
use thiserror::Error;

/// What ended the answering. A fault that a request is answered with is no such fault.
#[derive(Clone, Copy, Debug, PartialEq, Eq, Error)]
pub enum RequestFault {
    /// The line asks for nothing that there is.
    #[error("BadRequest")]
    BadRequest,
    /// A read or a write failed.
    #[error("Io")]
    Io,
    /// Memory was refused.
    #[error("OutOfMemory")]
    OutOfMemory,
}

impl From<io::Error> for RequestFault {
    fn from(error: io::Error) -> RequestFault {
        match error.kind() {
            io::ErrorKind::OutOfMemory => RequestFault::OutOfMemory,
            _ => RequestFault::Io,
        }
    }
}

impl From<AllocError> for RequestFault {
    fn from(_refused: AllocError) -> RequestFault {
        RequestFault::OutOfMemory
    }
}
