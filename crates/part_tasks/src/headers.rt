//! Headers of Arrow's metadata read, or written, over and over.

use crate::fault::TaskFault;
use crate::shared::weight_of;
use flatbuf_meta::{
    BatchHead, Header, MAX_BUFFERS, MAX_FIELDS, Schema, read_message, write_batch, write_schema,
};
use std::alloc::Global;

/// Reads a header so many times. A repetition weighs the number of a schema's fields at the top, or of a batch's nodes
/// and buffers.
pub fn decode_header(alloc: Global, count: u64, bytes: &[u8]) -> Result<u64, TaskFault> {
    let mut sum: u64 = 0;
    for _ in 0..count {
        sum = sum.wrapping_add(read_weight(alloc, bytes)?);
    }
    Ok(sum)
}

fn read_weight(alloc: Global, bytes: &[u8]) -> Result<u64, TaskFault> {
    let header = read_message(alloc, bytes)?;
    let weight = header_weight(&header);
    drop(header);
    Ok(weight)
}

fn header_weight(header: &Header) -> u64 {
    match header {
        Header::Schema(schema) => schema.fields.len() as u64,
        Header::Batch(head) => (head.nodes.len() as u64).wrapping_add(head.buffers.len() as u64),
    }
}

/// Reads a header once, and writes it so many times, each time in the place of what was written before. A repetition
/// weighs what is written.
pub fn encode_header(
    alloc: Global,
    count: u64,
    bytes: &[u8],
    written: &mut Vec<u8>,
) -> Result<u64, TaskFault> {
    let header = read_message(alloc, bytes)?;
    let sum = encode_read(count, &header, written);
    drop(header);
    sum
}

fn encode_read(count: u64, header: &Header, written: &mut Vec<u8>) -> Result<u64, TaskFault> {
    match header {
        Header::Schema(schema) => encode_schema(count, schema, written),
        Header::Batch(head) => encode_batch(count, head, written),
    }
}

fn encode_schema(count: u64, schema: &Schema, written: &mut Vec<u8>) -> Result<u64, TaskFault> {
    if !schema.in_profile() {
        return Err(TaskFault::Unwritable);
    }
    let mut sum: u64 = 0;
    for _ in 0..count {
        written.clear();
        write_schema(schema, written)?;
        sum = sum.wrapping_add(weight_of(written));
    }
    Ok(sum)
}

fn encode_batch(count: u64, head: &BatchHead, written: &mut Vec<u8>) -> Result<u64, TaskFault> {
    if head.compressed || head.nodes.len() > MAX_FIELDS || head.buffers.len() > MAX_BUFFERS {
        return Err(TaskFault::Unwritable);
    }
    let mut sum: u64 = 0;
    for _ in 0..count {
        written.clear();
        write_batch(head, written)?;
        sum = sum.wrapping_add(weight_of(written));
    }
    Ok(sum)
}
