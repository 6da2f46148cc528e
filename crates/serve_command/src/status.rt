//! The exit statuses of a server.

/// The status of a server whose nodes were told to stop.
pub const SUCCESS: u8 = 0;

/// The status of a server that could not start.
pub const FAILURE: u8 = 1;
