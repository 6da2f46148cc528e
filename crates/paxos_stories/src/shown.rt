//! Ballots and values as words of an answer.

use ballots::{Acceptance, Ballot, Value};
use std::alloc::Global;
use story_requests::{RequestFault, Response};

/// Puts the line of the ballot.
pub(crate) fn ballot(
    alloc: Global,
    ballot: Ballot,
    answer: &mut Response,
) -> Result<(), RequestFault> {
    let line = ballot.to_string(alloc)?;
    answer.word(line.as_str())
}

/// Puts the line of the ballot, and the bytes of the value.
pub(crate) fn acceptance(
    alloc: Global,
    acceptance: &Acceptance,
    answer: &mut Response,
) -> Result<(), RequestFault> {
    ballot(alloc, acceptance.ballot, answer)?;
    answer.bytes(acceptance.value.as_bytes())
}

/// Puts the bytes of the value, where there is one.
pub(crate) fn perhaps(value: Option<&Value>, answer: &mut Response) -> Result<(), RequestFault> {
    match value {
        Some(value) => answer.bytes(value.as_bytes()),
        None => Ok(()),
    }
}

/// Puts whether it is so.
pub(crate) fn whether(is_so: bool, answer: &mut Response) -> Result<(), RequestFault> {
    answer.word(if is_so { "yes" } else { "no" })
}
