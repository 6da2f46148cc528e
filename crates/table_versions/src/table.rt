//! A table.

use bytes::Bytes;

/// What is kept of a table with its latest version.
#[derive(Debug, Drop)]
pub(crate) struct Table {
    /// Its number, in the order of first effective uploads, from 0 on.
    pub(crate) number: usize,
    /// The message with the schema of its first effective upload.
    pub(crate) schema: Bytes,
    /// This message without any metadata.
    pub(crate) shape: Bytes,
    /// The frame with which each answer begins.
    pub(crate) schema_frame: Bytes,
    /// How many effective uploads it has.
    pub(crate) version: u64,
    /// How many rows these have.
    pub(crate) records: u64,
    /// How many bytes the answer of the latest version has.
    pub(crate) total_bytes: u64,
}
