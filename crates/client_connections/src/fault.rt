//! Why there is no connection.

use thiserror::Error;

/// Why there is no connection.
#[derive(Clone, Copy, Debug, PartialEq, Eq, Error)]
pub enum ConnectFault {
    /// The server could not be reached.
    #[error("Connect")]
    Connect,
    /// Memory was refused.
    #[error("OutOfMemory")]
    OutOfMemory,
}
