//! How much a schema may say.

/// How deep fields may stand inside one another; a top field has depth 1.
pub const MAX_DEPTH: usize = 16;

/// How many fields a schema may have, those inside other fields too.
pub const MAX_FIELDS: usize = 512;

/// How many entries of metadata a schema may have, those of its fields too.
pub const MAX_METADATA_ENTRIES: usize = 4_096;

/// How many bytes the names, time zones, keys and values of a schema may have in all.
pub const MAX_TEXT_BYTES: usize = 1_048_576;

/// How many buffers a batch may have that is written: three of each field.
pub const MAX_BUFFERS: usize = 1_536;
