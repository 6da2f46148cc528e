//! The exit statuses of a script.

/// The status of a script whose calls were all answered, where the journal confirms each answer.
pub const SUCCESS: u8 = 0;

/// The status of a fault, or of an answer that the journal does not confirm.
pub const FAILURE: u8 = 1;
