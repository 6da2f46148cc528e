//! The exit statuses of the audit.

/// The status of a lawful history, where its line was written.
pub const SUCCESS: u8 = 0;

/// The status of an unlawful history, and of a fault: a file that tells no recorded run, memory refused, or a line that
/// could not be written.
pub const FAILURE: u8 = 1;
