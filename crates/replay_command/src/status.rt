//! The exit statuses of a replay.

/// The status of a schedule that was played, where every line was written.
pub const SUCCESS: u8 = 0;

/// The status of a fault: a file that tells no schedule, memory refused, or a line that could not be written.
pub const FAILURE: u8 = 1;
