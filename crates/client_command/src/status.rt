//! The exit statuses of a client.

/// The status of a call that was answered, and of which all was printed.
pub const SUCCESS: u8 = 0;

/// The status of a fault that has none of its own.
pub const FAILURE: u8 = 1;

/// The status of words that are no call.
pub const NO_CALL: u8 = 2;
