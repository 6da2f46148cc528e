//! An upload, ready to be taken without memory.

use crate::upload_frames::UploadFrames;
use bytes::Bytes;

/// What an upload adds to its table.
#[derive(Debug, Drop)]
pub(crate) struct Part {
    /// The message with its schema.
    pub(crate) schema: Bytes,
    /// This message without any metadata.
    pub(crate) shape: Bytes,
    /// The frame with its schema.
    pub(crate) schema_frame: Bytes,
    /// The frames that are served of it.
    pub(crate) frames: UploadFrames,
    /// How many bytes these have.
    pub(crate) bytes: u64,
    /// How many rows it has.
    pub(crate) records: u64,
}

/// An upload with all that taking it needs.
#[derive(Debug, Drop)]
pub(crate) struct Prepared {
    /// Its id.
    pub(crate) id: [u8; 16],
    /// Its encoding.
    pub(crate) text: Bytes,
    /// Its table's name.
    pub(crate) table: String,
    /// What it adds to this table.
    pub(crate) part: Part,
}
