//! A long batch that `record_batches` writes, beside bytes that a plain program lays out (Apache Arrow, "Arrow Columnar
//! Format", "Buffer alignment and padding" and "RecordBatch message").

use batch_columns::{Batch, Column, ColumnFault};
use header_types::{BatchHead, Field, Schema, Ty};
use record_batches::{append_body, batch_head, body_length, write_body};
use std::alloc::{AllocError, Global};
use std::test::Fail;

/// How many texts there are.
const ROWS: usize = 10_000;

/// The text of this row.
fn text(row: usize) -> &'static str {
    if row % 3 == 0 { "three" } else { "a" }
}

/// A table of texts alone.
fn table(alloc: Global) -> Result<Schema, AllocError> {
    let mut fields = Vec::new(alloc);
    fields.push(Field {
        name: String::new(alloc),
        nullable: true,
        ty: Ty::Utf8,
        children: Vec::new(alloc),
        metadata: Vec::new(alloc),
    })?;
    Ok(Schema {
        fields,
        metadata: Vec::new(alloc),
    })
}

/// The column that was made; no fault but want of memory is awaited.
fn made(made: Result<Column, ColumnFault>) -> Result<Column, AllocError> {
    made.map_err(|_| AllocError)
}

/// The batch of the texts.
fn batch(alloc: Global) -> Result<Batch, AllocError> {
    let mut texts: Vec<Option<&str>> = Vec::new(alloc);
    for row in 0..ROWS {
        texts.push(Some(text(row)))?;
    }
    let mut columns = Vec::new(alloc);
    columns.push(made(Column::from_texts(alloc, texts.as_slice()))?)?;
    Ok(Batch {
        rows: ROWS as u64,
        columns,
    })
}

/// The body of the texts: offsets, and the bytes behind them.
fn body(alloc: Global) -> Result<Vec<u8>, AllocError> {
    let mut offsets = Vec::new(alloc);
    let mut bytes = Vec::new(alloc);
    offsets.extend_from_slice(&[0; 4])?;
    for row in 0..ROWS {
        bytes.extend_from_slice(text(row).as_bytes())?;
        offsets.extend_from_slice(&(bytes.len() as u64).to_le_bytes()[..4])?;
    }
    offsets.extend_from_slice(&[0; 4])?;
    offsets.extend_from_slice(bytes.as_slice())?;
    Ok(offsets)
}

/// Whether this is the header of the texts.
fn is_head(head: &BatchHead) -> bool {
    head.nodes.as_slice() == [(10_000, 0)].as_slice()
        && head.buffers.as_slice() == [(0, 0), (0, 40_004), (40_008, 23_336)].as_slice()
        && head.length == 10_000
        && !head.compressed
        && head.body_length == 63_344
}

/// Whether the header and the body that are written of the batch are those of the texts.
fn is_written(alloc: Global, schema: &Schema, batch: &Batch) -> Result<bool, AllocError> {
    if !batch.is_of(schema) {
        return Ok(false);
    }
    let wanted = body(alloc)?;
    let (head, bytes) = write_body(alloc, schema, batch)?;
    Ok(is_head(&head) && body_length(batch) == Some(bytes.len() as u64) && bytes == wanted)
}

#[test]
fn thousands_of_texts_are_written(rt: HostRuntime) -> Result<(), Fail> {
    let schema = table(rt.alloc())?;
    let batch = batch(rt.alloc())?;
    let is_written = is_written(rt.alloc(), &schema, &batch)?;
    assert!(rt; is_written);
    Ok(())
}

/// What stands before the body.
const BEFORE: &[u8] = b"before";

/// Appends the body, once more where memory was refused. Whether what stood there still stands at the front then.
fn append_again(text: &mut Vec<u8>, batch: &Batch) -> Result<bool, AllocError> {
    if append_body(text, batch).is_ok() {
        return Ok(true);
    }
    if text.get(..BEFORE.len()) != Some(BEFORE) {
        return Ok(false);
    }
    text.truncate(BEFORE.len());
    append_body(text, batch)?;
    Ok(true)
}

/// Whether the body is put behind what stands there, and the header that is made without it is the same.
fn is_appended(alloc: Global, schema: &Schema, batch: &Batch) -> Result<bool, AllocError> {
    if !batch.is_of(schema) {
        return Ok(false);
    }
    let Some(length) = body_length(batch) else {
        return Ok(false);
    };
    let head = batch_head(alloc, schema, batch)?;
    let mut text = Vec::from_slice(alloc, BEFORE)?;
    let keeps_the_front = append_again(&mut text, batch)?;
    let wanted = body(alloc)?;
    Ok(
        keeps_the_front
            && is_head(&head)
            && wanted.len() as u64 == length
            && text.get(..BEFORE.len()) == Some(BEFORE)
            && text.get(BEFORE.len()..) == Some(wanted.as_slice()),
    )
}

#[test]
fn a_body_is_appended_behind_what_stands_there(rt: HostRuntime) -> Result<(), Fail> {
    let schema = table(rt.alloc())?;
    let batch = batch(rt.alloc())?;
    let is_appended = is_appended(rt.alloc(), &schema, &batch)?;
    assert!(rt; is_appended);
    Ok(())
}
