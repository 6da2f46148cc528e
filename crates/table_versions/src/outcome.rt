//! What is told of an upload.

/// What is told of an upload, by all values that were taken.
#[derive(Clone, Copy, Debug, PartialEq, Eq)]
pub enum Outcome {
    /// It counts: it is the last upload of this version of its table.
    Applied(u64),
    /// It has another shape than its table: another schema, apart from metadata.
    SchemaMismatch,
    /// Another upload came first under its id.
    Conflict,
    /// No upload of its id has come.
    Unknown,
}
