//! The exit statuses of the acceptor.

/// The status of a run that met no fault: the input ended behind frames that were all answered.
pub const SUCCESS: u8 = 0;

/// The status of a run that a fault ended.
pub const FAILURE: u8 = 1;
