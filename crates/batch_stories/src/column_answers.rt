//! Columns that are made of their cells and looked at.

use batch_columns::Column;
use std::alloc::{AllocError, Global};
use story_requests::{RequestFault, Response, Words};

fn cells(alloc: Global, digits: &str) -> Result<Vec<Option<bool>>, AllocError> {
    let mut cells = Vec::new(alloc);
    for digit in digits.bytes() {
        cells.push(if digit == b'n' {
            None
        } else {
            Some(digit == b'1')
        })?;
    }
    Ok(cells)
}

// What the looks at a cell give: `n` for a null, a digit, `-` behind the last cell, or `?` where they differ.
fn look(column: &Column, row: usize) -> char {
    if column.bytes(row).is_some() {
        return '?';
    }
    match (column.is_null(row), column.bit(row)) {
        (Some(true), None) => 'n',
        (Some(false), Some(true)) => '1',
        (Some(false), Some(false)) => '0',
        (None, None) => '-',
        _ => '?',
    }
}

fn put_looks(alloc: Global, column: &Column, answer: &mut Response) -> Result<(), RequestFault> {
    let mut looks = String::new(alloc);
    for row in 0..column.len().saturating_add(3) {
        looks.push(look(column, row))?;
    }
    answer.word(looks.as_str())
}

fn put_column(alloc: Global, column: &Column, answer: &mut Response) -> Result<(), RequestFault> {
    let layout = column.layout();
    let shown = format!(in alloc; "{layout:?}")?;
    answer.word(shown.as_str())?;
    answer.word(if column.is_empty() { "empty" } else { "filled" })?;
    answer.number(column.len() as u64)?;
    answer.number(column.null_count() as u64)?;
    answer.bytes(column.validity())?;
    answer.bytes(column.buffer(1))?;
    answer.bytes(column.buffer(2))?;
    answer.number(column.inside().len() as u64)?;
    put_looks(alloc, column, answer)
}

/// `bits DIGITS`: the column of these bits, with `n` for a null.
pub(crate) fn answer_bits(
    alloc: Global,
    words: &mut Words<'_>,
    answer: &mut Response,
) -> Result<(), RequestFault> {
    let cells = cells(alloc, words.next())?;
    let column = Column::from_bits(alloc, &cells)?;
    put_column(alloc, &column, answer)
}

/// `nulls COUNT`: the column of so many nulls.
pub(crate) fn answer_nulls(
    alloc: Global,
    words: &mut Words<'_>,
    answer: &mut Response,
) -> Result<(), RequestFault> {
    let count = words.number()?;
    let column = Column::nulls(alloc, count as usize);
    put_column(alloc, &column, answer)
}
