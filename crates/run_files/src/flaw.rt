//! What is wrong with a file that tells no schedule, or no script.

use thiserror::Error;

/// What is wrong with a file that is no value of JSON.
#[derive(Clone, Copy, Debug, PartialEq, Eq, Error)]
pub enum TextFlaw {
    /// The file is not UTF-8.
    #[error("the file is not UTF-8")]
    NotUtf8,
    /// The file is not one JSON value.
    #[error("the file is not one JSON value")]
    NotJson,
}

/// The first thing that is wrong with a file that tells no schedule: first the file as a whole, then the members of its
/// object, then its uploads and its events in their order.
#[derive(Clone, Copy, Debug, PartialEq, Eq, Error)]
pub enum ScheduleFlaw {
    /// The file is no value of JSON.
    #[error("{0}")]
    Text(TextFlaw),
    /// It is no object with a whole number `members`, 1 to [`MAX_MEMBERS`](ballots::MAX_MEMBERS).
    #[error("`members` is missing or not a whole number from 1 to 7")]
    Members,
    /// It is no object with a whole number `slot_limit`, 1 to [`MAX_SLOTS`](traces::MAX_SLOTS).
    #[error("`slot_limit` is missing or not a whole number from 1 to 1,000,000")]
    SlotLimit,
    /// It is no object with an array `uploads`.
    #[error("`uploads` is missing or not an array")]
    Uploads,
    /// It is no object with an array `events`.
    #[error("`events` is missing or not an array")]
    Events,
    /// The item in this place of `uploads`, from 0, is not a valid upload.
    #[error("upload {0} of `uploads` is not a valid upload")]
    Upload(usize),
    /// The item in this place of `events`, from 0, tells no event.
    #[error("event {0} of `events` is not an array of a word, a node's number and that word's arguments")]
    Event(usize),
}

/// The first thing that is wrong with a file that tells no script: first the file as a whole, then the members of its
/// object, then its calls in their order.
#[derive(Clone, Copy, Debug, PartialEq, Eq, Error)]
pub enum ScriptFlaw {
    /// The file is no value of JSON.
    #[error("{0}")]
    Text(TextFlaw),
    /// It is no object with a whole number `nodes`, 3 or 5.
    #[error("`nodes` is missing or neither 3 nor 5")]
    Nodes,
    /// It is no object with an array `calls`.
    #[error("`calls` is missing or not an array")]
    Calls,
    /// The item in this place of `calls`, from 0, tells no call.
    #[error("call {0} of `calls` is not an array of a word, a node's number and that word's arguments")]
    Call(usize),
}
