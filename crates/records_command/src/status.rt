//! The exit statuses of showing records.

/// The status of a file whose records were shown.
pub const SUCCESS: u8 = 0;

/// The status of a fault: a file that is damaged, memory refused, or a line that could not be written.
pub const FAILURE: u8 = 1;
