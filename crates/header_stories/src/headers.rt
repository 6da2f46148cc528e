//! Headers of messages, read and written again (Apache Arrow, "Message.fbs" and "Schema.fbs").

use flatbuf_meta::{
    BatchHead, Header, MAX_BUFFERS, MAX_FIELDS, Schema, encapsulate, read_message, write_batch,
    write_schema,
};
use std::alloc::Global;
use story_requests::{RequestFault, Response, Words};

/// `message BYTES`: the header that the bytes show.
pub(crate) fn answer_message(
    alloc: Global,
    words: &mut Words<'_>,
    answer: &mut Response,
) -> Result<(), RequestFault> {
    let bytes = words.bytes(alloc)?;
    match read_message(alloc, &bytes) {
        Ok(header) => {
            let shown = format!(in alloc; "{header:?}")?;
            answer.word("header")?;
            answer.bytes(shown.as_bytes())
        }
        Err(fault) => {
            let name = format!(in alloc; "{fault}")?;
            answer.word(name.as_str())
        }
    }
}

/// Writes the schema, where it can be written.
pub(crate) fn put_schema(schema: &Schema, out: &mut Vec<u8>) -> Result<(), RequestFault> {
    if schema.in_profile() {
        return Ok(write_schema(schema, out)?);
    }
    Err(RequestFault::BadRequest)
}

// Writes the batch, where it can be written.
fn put_batch(head: &BatchHead, out: &mut Vec<u8>) -> Result<(), RequestFault> {
    if !head.compressed && head.nodes.len() <= MAX_FIELDS && head.buffers.len() <= MAX_BUFFERS {
        return Ok(write_batch(head, out)?);
    }
    Err(RequestFault::BadRequest)
}

/// `rewritten BYTES`: the one text of the header that the bytes show.
pub(crate) fn answer_rewritten(
    alloc: Global,
    words: &mut Words<'_>,
    answer: &mut Response,
) -> Result<(), RequestFault> {
    let bytes = words.bytes(alloc)?;
    let mut out = Vec::new(alloc);
    match read_message(alloc, &bytes) {
        Ok(Header::Schema(schema)) => put_schema(&schema, &mut out)?,
        Ok(Header::Batch(head)) => put_batch(&head, &mut out)?,
        Err(_) => return Err(RequestFault::BadRequest),
    }
    answer.bytes(&out)
}

/// `encapsulated BYTES MESSAGE`: the bytes, and behind them the message with its marker and its length.
pub(crate) fn answer_encapsulated(
    alloc: Global,
    words: &mut Words<'_>,
    answer: &mut Response,
) -> Result<(), RequestFault> {
    let mut out = words.bytes(alloc)?;
    let message = words.bytes(alloc)?;
    if message.len() >= 0x8000_0000 {
        return Err(RequestFault::BadRequest);
    }
    encapsulate(&message, &mut out)?;
    answer.bytes(&out)
}
