//! Cells of columns, as words.

use batch_columns::Column;
use story_requests::{RequestFault, Response};

// `null`, `true`, `false`, the bytes, or `inside` where the cell has others.
fn put_cell(column: &Column, row: usize, answer: &mut Response) -> Result<(), RequestFault> {
    if column.is_null(row) != Some(false) {
        return answer.word("null");
    }
    if let Some(bit) = column.bit(row) {
        return answer.word(if bit { "true" } else { "false" });
    }
    match column.bytes(row) {
        Some(bytes) => answer.bytes(bytes),
        None => answer.word("inside"),
    }
}

// How many cells there are, and each; and the bytes of buffer 1, offsets or values.
fn put_cells(column: &Column, answer: &mut Response) -> Result<(), RequestFault> {
    answer.number(column.len() as u64)?;
    for row in 0..column.len() {
        put_cell(column, row, answer)?;
    }
    answer.bytes(column.buffer(1))
}

/// How many columns there are; and of each its cells, its buffer 1, and the columns inside it, on so many levels.
pub(crate) fn put_columns(
    columns: &[Column],
    levels: usize,
    answer: &mut Response,
) -> Result<(), RequestFault> {
    answer.number(columns.len() as u64)?;
    for column in columns {
        if levels == 0 {
            return Err(RequestFault::BadRequest);
        }
        put_cells(column, answer)?;
        put_columns(column.inside(), levels - 1, answer)?;
    }
    Ok(())
}
