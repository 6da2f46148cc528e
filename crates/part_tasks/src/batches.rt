//! Batches read, or written, over and over.

use crate::fault::TaskFault;
use crate::shared::weight_of;
use flatbuf_meta::{BatchHead, Header, MAX_DEPTH, Schema, read_message};
use record_batches::{Batch, Column, read_batch, write_body};
use std::alloc::Global;

/// A schema, the header of a batch, and its body.
#[derive(Drop)]
struct Parts<'a> {
    schema: Schema,
    head: BatchHead,
    body: &'a [u8],
}

/// Reads a batch so many times. A repetition weighs its rows, and of each column the number of its cells and of its
/// nulls, and its buffers.
pub fn read_batch_often(alloc: Global, count: u64, bytes: &[u8]) -> Result<u64, TaskFault> {
    let parts = parts_of(alloc, bytes)?;
    let sum = read_parts_often(alloc, count, &parts);
    drop(parts);
    sum
}

fn read_parts_often(alloc: Global, count: u64, parts: &Parts<'_>) -> Result<u64, TaskFault> {
    if !parts.schema.in_profile() {
        return Err(TaskFault::Unwritable);
    }
    let mut sum: u64 = 0;
    for _ in 0..count {
        let batch = read_batch(alloc, &parts.schema, &parts.head, parts.body)?;
        sum = sum.wrapping_add(batch_weight(&batch));
        drop(batch);
    }
    Ok(sum)
}

fn batch_weight(batch: &Batch) -> u64 {
    batch
        .rows
        .wrapping_add(columns_weight(&batch.columns, MAX_DEPTH))
}

/// Reads a batch once, and writes it so many times. A repetition weighs the header, and the body by its length and its
/// last byte.
pub fn write_batch_often(alloc: Global, count: u64, bytes: &[u8]) -> Result<u64, TaskFault> {
    let parts = parts_of(alloc, bytes)?;
    let sum = write_parts_often(alloc, count, &parts);
    drop(parts);
    sum
}

fn write_parts_often(alloc: Global, count: u64, parts: &Parts<'_>) -> Result<u64, TaskFault> {
    if !parts.schema.in_profile() {
        return Err(TaskFault::Unwritable);
    }
    let batch = read_batch(alloc, &parts.schema, &parts.head, parts.body)?;
    let sum = write_often(alloc, count, &parts.schema, &batch);
    drop(batch);
    sum
}

fn write_often(
    alloc: Global,
    count: u64,
    schema: &Schema,
    batch: &Batch,
) -> Result<u64, TaskFault> {
    if !batch.is_of(schema) {
        return Err(TaskFault::Unwritable);
    }
    let mut sum: u64 = 0;
    for _ in 0..count {
        let (head, body) = write_body(alloc, schema, batch)?;
        sum = sum.wrapping_add(head_weight(&head));
        sum = sum.wrapping_add(weight_of(&body));
        drop(head);
        drop(body);
    }
    Ok(sum)
}

/// Reads and writes a batch so many times. A repetition weighs the header, and every byte of the body.
pub fn rewrite_batch_often(alloc: Global, count: u64, bytes: &[u8]) -> Result<u64, TaskFault> {
    let parts = parts_of(alloc, bytes)?;
    let sum = rewrite_parts_often(alloc, count, &parts);
    drop(parts);
    sum
}

fn rewrite_parts_often(alloc: Global, count: u64, parts: &Parts<'_>) -> Result<u64, TaskFault> {
    if !parts.schema.in_profile() {
        return Err(TaskFault::Unwritable);
    }
    let mut sum: u64 = 0;
    for _ in 0..count {
        let batch = read_batch(alloc, &parts.schema, &parts.head, parts.body)?;
        let weight = written_weight(alloc, &parts.schema, &batch);
        drop(batch);
        sum = sum.wrapping_add(weight?);
    }
    Ok(sum)
}

fn written_weight(alloc: Global, schema: &Schema, batch: &Batch) -> Result<u64, TaskFault> {
    if !batch.is_of(schema) {
        return Err(TaskFault::Unwritable);
    }
    let (head, body) = write_body(alloc, schema, batch)?;
    let weight = head_weight(&head).wrapping_add(digest_of(&body));
    drop(head);
    drop(body);
    Ok(weight)
}

// A schema, a batch's header and a body, each behind its length in four bytes.
fn parts_of(alloc: Global, bytes: &[u8]) -> Result<Parts<'_>, TaskFault> {
    let Some((schema, head, body)) = split_parts(bytes) else {
        return Err(TaskFault::Parts);
    };
    let schema = schema_of(alloc, schema)?;
    match head_of(alloc, head) {
        Ok(head) => Ok(Parts { schema, head, body }),
        Err(fault) => {
            drop(schema);
            Err(fault)
        }
    }
}

fn schema_of(alloc: Global, bytes: &[u8]) -> Result<Schema, TaskFault> {
    match read_message(alloc, bytes)? {
        Header::Schema(schema) => Ok(schema),
        Header::Batch(head) => {
            drop(head);
            Err(TaskFault::Parts)
        }
    }
}

fn head_of(alloc: Global, bytes: &[u8]) -> Result<BatchHead, TaskFault> {
    match read_message(alloc, bytes)? {
        Header::Batch(head) => Ok(head),
        Header::Schema(schema) => {
            drop(schema);
            Err(TaskFault::Parts)
        }
    }
}

fn split_parts(bytes: &[u8]) -> Option<(&[u8], &[u8], &[u8])> {
    let (schema, rest) = split_part(bytes)?;
    let (head, rest) = split_part(rest)?;
    let (body, _) = split_part(rest)?;
    Some((schema, head, body))
}

// The bytes behind a length at the front, and what follows them.
fn split_part(bytes: &[u8]) -> Option<(&[u8], &[u8])> {
    let (count, rest) = bytes.split_first_chunk()?;
    rest.split_at_checked(u32::from_le_bytes(*count) as usize)
}

// Of these columns, and of those inside them for so many levels in all.
fn columns_weight(columns: &[Column], levels: usize) -> u64 {
    if levels == 0 {
        return 0;
    }
    let mut sum: u64 = 0;
    for column in columns {
        sum = sum.wrapping_add(column_weight(column));
        sum = sum.wrapping_add(columns_weight(column.inside(), levels - 1));
    }
    sum
}

fn column_weight(column: &Column) -> u64 {
    (column.len() as u64)
        .wrapping_add(column.null_count() as u64)
        .wrapping_add(weight_of(column.validity()))
        .wrapping_add(weight_of(column.offsets()))
        .wrapping_add(weight_of(column.values()))
}

fn head_weight(head: &BatchHead) -> u64 {
    pairs_weight(&head.nodes).wrapping_add(pairs_weight(&head.buffers))
}

fn pairs_weight(pairs: &[(i64, i64)]) -> u64 {
    let mut sum: u64 = 0;
    for (one, two) in pairs {
        let pair = (one ^ (two << 32)).cast_unsigned();
        sum = sum.wrapping_mul(31).wrapping_add(pair);
    }
    sum
}

fn digest_of(bytes: &[u8]) -> u64 {
    let mut sum: u64 = 0;
    for byte in bytes {
        sum = sum.wrapping_mul(31).wrapping_add(u64::from(*byte));
    }
    sum
}
