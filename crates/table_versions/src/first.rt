//! The first upload of an id.

use crate::outcome::Outcome;
use bytes::Bytes;

/// The upload that came first under its id.
#[derive(Debug, Drop)]
pub(crate) struct First {
    /// Its encoding.
    pub(crate) text: Bytes,
    /// What is told of it.
    pub(crate) outcome: Outcome,
}
