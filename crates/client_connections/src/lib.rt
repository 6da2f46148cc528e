//! Where servers are, and connections to them.
//!
//! [`address_of`] reads an address among the words of a command line, and [`location_of`] one that a server names.
//! [`Connect`] opens a connection to an address, and closes it: a call has one of its own. [`Sockets`] does so over
//! TCP. What was opened and closed, and the bytes that stood there then, is a log that definitions alone see
//! (`specs/Events`), so that a caller's contract says what went over each of its connections.
#![tactic(auto)]

mod address;
mod connect;
mod fault;
pub mod laws;
mod metered;
mod sockets;

pub use address::{address_of, location_of};
pub use connect::Connect;
pub use fault::ConnectFault;
pub use metered::Metered;
pub use sockets::{CONNECT_SECONDS, READ_SECONDS, Sockets, WRITE_SECONDS};
