//! What a client was served.

use batch_columns::Batch;
use header_types::Schema;

/// What was served of an upload.
#[derive(Debug, Drop)]
pub struct ServedUpload {
    /// The upload's id.
    pub id: [u8; 16],
    /// Its batches, in order; there may be none.
    pub batches: Vec<Batch>,
}

/// What was served of a version of a table.
#[derive(Debug, Drop)]
pub struct Download {
    /// The schema of the version.
    pub schema: Schema,
    /// Its uploads, in order. No two have one id.
    pub uploads: Vec<ServedUpload>,
}
