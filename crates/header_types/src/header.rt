//! The headers of messages (Apache Arrow, "Message.fbs", the union `MessageHeader`).

use crate::schema::Schema;

/// What a message holds, with metadata of version V5.
#[derive(Debug, PartialEq, Eq, Drop)]
pub enum Header {
    /// A schema, which has no body.
    Schema(Schema),
    /// A batch of rows, whose buffers are the message's body.
    Batch(BatchHead),
}

/// Where the parts of a batch stand in its body (the table `RecordBatch` and the struct `FieldNode` of Message.fbs, the
/// struct `Buffer` of Schema.fbs). None of the numbers is judged here.
#[derive(Clone, Debug, PartialEq, Eq, Drop)]
pub struct BatchHead {
    /// How many rows there are.
    pub length: i64,
    /// Of each field, depth first, a parent before its children: its length and how many of its values are null.
    pub nodes: Vec<(i64, i64)>,
    /// Of each buffer, in the order of the fields: where in the body it begins and how many bytes it has.
    pub buffers: Vec<(i64, i64)>,
    /// Whether the message says that the buffers are compressed.
    pub compressed: bool,
    /// How many bytes the body has.
    pub body_length: i64,
}
