//! What a client asks a running node.

use node_events::EventResult;
use table_types::Ticket;
use uploads::Upload;

/// What a client asks.
#[derive(Debug, Drop)]
pub enum Query {
    /// For a version of a table.
    Get(Ticket),
    /// What has become of an upload.
    Outcome(Upload),
}

/// A query, with what the node answers.
#[derive(Debug, Drop)]
pub struct Found {
    pub(crate) query: Query,
    pub(crate) answer: EventResult,
}
