//! A conversation, and how a run tells its end.

use std::alloc::{AllocError, Global};
use std::test::Fail;

/// A fresh acceptor promises, accepts, refuses what it has promised already, and reports what it has accepted.
pub const CONVERSATION: &str =
    "00 00000004 08012801 00 00000008 0804100128023001 00 00000004 08042801 00 00000008 0801100228033002";

/// Its answers.
pub const ANSWERS: &str =
    "00 00000004 08022801 00 00000006 080528023001 00 00000008 0803280138024001 00 0000000a 08022803300238024001";

/// Where each of its frames ends, and where that frame's answer does.
pub(crate) const ENDS: [(usize, usize); 4] = [(9, 9), (22, 20), (31, 33), (44, 48)];

/// How many frames of the conversation end within its first `given` bytes, and where the last one's answer ends.
pub(crate) fn answered_within(given: usize) -> (usize, usize) {
    let mut frames = 0;
    let mut written = 0;
    for (at, (end, answer_end)) in ENDS.iter().enumerate() {
        if *end <= given {
            frames = at + 1;
            written = *answer_end;
        }
    }
    (frames, written)
}

/// Whether a run ended with this line and status 1, or, where the line is empty, with none and status 0.
pub(crate) fn tells(
    alloc: Global,
    status: u8,
    said: &[u8],
    line: &str,
) -> Result<bool, AllocError> {
    if line.is_empty() {
        return Ok(status == 0 && said.is_empty());
    }
    let whole = format!(in alloc; "flightd: {line}\n")?;
    Ok(status == 1 && said == whole.as_bytes())
}

/// The bytes that hexadecimal digits spell, spaces passed over.
pub(crate) fn spelled(alloc: Global, digits: &str) -> Result<Vec<u8>, Fail> {
    let mut bytes = Vec::new(alloc);
    let mut first = None;
    for digit in digits.chars() {
        if digit == ' ' {
            continue;
        }
        let value = (digit.to_digit(16).ok_or("no hexadecimal digit")? % 16) as u8;
        first = match first {
            None => Some(value),
            Some(high) => {
                bytes.push((high << 4) | value)?;
                None
            }
        };
    }
    Ok(bytes)
}
