//! Calls as one text each.

use clap::error::ErrorKind;
use command_line::{Asked, asked_by, parse};
use std::alloc::{AllocError, Global};

/// The words of a call that are parted by spaces.
pub(crate) fn words_in(alloc: Global, call: &str) -> Result<Vec<String>, AllocError> {
    let mut words = Vec::new(alloc);
    for word in call.split(' ') {
        words.push(String::from_str(alloc, word)?)?;
    }
    Ok(words)
}

/// Whether these words ask for this.
pub(crate) fn asks_for(alloc: Global, words: &[String], wanted: Asked<'_>) -> bool {
    match parse(alloc, words) {
        Ok(matches) => asked_by(&matches) == wanted,
        Err(_) => false,
    }
}

/// Whether a call is refused for this reason, and ends with this status.
pub(crate) fn is_refused(
    alloc: Global,
    call: &str,
    kind: ErrorKind,
    status: i32,
) -> Result<bool, AllocError> {
    let words = words_in(alloc, call)?;
    Ok(match parse(alloc, &words) {
        Ok(_) => false,
        Err(error) => error.kind() == kind && error.exit_code() == status,
    })
}
