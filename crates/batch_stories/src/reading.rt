//! Batches read and written again.

use crate::cells::put_columns;
use batch_cells::{Cell, cells_of};
use batch_columns::Column;
use column_building::batch_of;
use flatbuf_meta::{BatchHead, Header, MAX_DEPTH, Schema, read_message};
use record_batches::{Batch, body_length, read_batch, write_body};
use std::alloc::{AllocError, Global};
use story_requests::{RequestFault, Response, Words};

/// The header of the message that comes next.
pub(crate) fn header_of(alloc: Global, words: &mut Words<'_>) -> Result<Header, RequestFault> {
    let bytes = words.bytes(alloc)?;
    match read_message(alloc, &bytes) {
        Ok(header) => Ok(header),
        Err(_) => Err(RequestFault::BadRequest),
    }
}

// The header and the body that are written of the batch, if it is of the schema.
fn put_written(
    alloc: Global,
    schema: &Schema,
    batch: &Batch,
    answer: &mut Response,
) -> Result<(), RequestFault> {
    if !batch.is_of(schema) {
        return answer.word("NotOfSchema");
    }
    let (head, body) = write_body(alloc, schema, batch)?;
    if body_length(batch) != Some(body.len() as u64) {
        return answer.word("OtherLength");
    }
    let shown = format!(in alloc; "{head:?}")?;
    answer.bytes(shown.as_bytes())?;
    answer.bytes(&body)
}

fn put_cells(all: &mut Vec<Vec<Cell>>, cells: Vec<Cell>) -> Result<(), AllocError> {
    all.push(cells)?;
    Ok(())
}

fn plain_cells(alloc: Global, columns: &[Column]) -> Result<Vec<Vec<Cell>>, AllocError> {
    let mut all = Vec::new(alloc);
    for column in columns {
        put_cells(&mut all, cells_of(alloc, column)?)?;
    }
    Ok(all)
}

fn makes(alloc: Global, schema: &Schema, batch: &Batch, cells: &[Vec<Cell>]) -> bool {
    match batch_of(alloc, schema, batch.rows, cells) {
        Ok(made) => made == *batch,
        Err(_) => false,
    }
}

// The plain cells of each column, and whether the same batch is made of them.
fn put_made(
    alloc: Global,
    schema: &Schema,
    batch: &Batch,
    answer: &mut Response,
) -> Result<(), RequestFault> {
    let cells = plain_cells(alloc, &batch.columns)?;
    let shown = format!(in alloc; "{cells:?}")?;
    answer.bytes(shown.as_bytes())?;
    let is_made = makes(alloc, schema, batch, &cells);
    answer.word(if is_made { "same" } else { "other" })
}

fn put_batch(
    alloc: Global,
    schema: &Schema,
    batch: &Batch,
    answer: &mut Response,
) -> Result<(), RequestFault> {
    answer.number(batch.rows)?;
    put_columns(&batch.columns, MAX_DEPTH, answer)?;
    put_made(alloc, schema, batch, answer)?;
    put_written(alloc, schema, batch, answer)
}

fn put_read(
    alloc: Global,
    schema: &Schema,
    head: &BatchHead,
    body: &[u8],
    answer: &mut Response,
) -> Result<(), RequestFault> {
    if !schema.in_profile() {
        return Err(RequestFault::BadRequest);
    }
    match read_batch(alloc, schema, head, body) {
        Ok(batch) => put_batch(alloc, schema, &batch, answer),
        Err(fault) => {
            let name = format!(in alloc; "{fault}")?;
            answer.word(name.as_str())
        }
    }
}

/// `read SCHEMA HEADER BODY`: the rows, the columns, and the header and the body that are written of them.
pub(crate) fn answer_read(
    alloc: Global,
    words: &mut Words<'_>,
    answer: &mut Response,
) -> Result<(), RequestFault> {
    let schema = header_of(alloc, words)?;
    let head = header_of(alloc, words)?;
    let body = words.bytes(alloc)?;
    match (&schema, &head) {
        (Header::Schema(schema), Header::Batch(head)) => {
            put_read(alloc, schema, head, &body, answer)
        }
        _ => Err(RequestFault::BadRequest),
    }
}
