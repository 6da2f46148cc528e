//! Columns and batches that are copied and compared.

use batch_columns::{Batch, Column, ColumnFault};
use std::alloc::{AllocError, Global};
use std::process::Abort;
use std::test::Fail;

/// The column that was made; no fault but want of memory is awaited.
fn made(made: Result<Column, ColumnFault>) -> Result<Column, AllocError> {
    made.map_err(|_| AllocError)
}

/// A bit for each of so many numbers, set where it is odd, and a null for each tenth.
fn bits(alloc: Global, count: usize) -> Result<Column, AllocError> {
    let mut cells = Vec::new(alloc);
    for number in 0..count {
        let bit = if number % 10 == 0 {
            None
        } else {
            Some(number % 2 == 1)
        };
        cells.push(bit)?;
    }
    Column::from_bits(alloc, &cells)
}

/// Whether a copy of the column equals it.
fn is_copied(column: &Column) -> Result<bool, AllocError> {
    let copy = column.clone()?;
    Ok(copy == *column)
}

/// A batch of this column alone.
fn alone(alloc: Global, rows: u64, column: Column) -> Result<Batch, AllocError> {
    let mut columns = Vec::new(alloc);
    columns.push(column)?;
    Ok(Batch { rows, columns })
}

#[test]
fn a_copy_of_thousands_of_bits_is_equal(rt: HostRuntime) -> Result<(), Fail> {
    let column = bits(rt.alloc(), 5000)?;
    let copied = is_copied(&column)?;
    assert!(rt; copied);
    Ok(())
}

#[test]
fn a_bit_more_is_another_column(rt: HostRuntime) -> Result<(), Fail> {
    let alloc = rt.alloc();
    let fewer = bits(alloc, 4999)?;
    let more = bits(alloc, 5000)?;
    assert!(rt; fewer != more);
    Ok(())
}

#[test]
fn texts_are_not_bytes(rt: HostRuntime) -> Result<(), Fail> {
    let alloc = rt.alloc();
    let texts = made(Column::from_texts(alloc, &[Some("a"), None]))?;
    let bytes = made(Column::from_binary(alloc, &[Some(b"a".as_slice()), None]))?;
    assert!(rt; texts != bytes);
    Ok(())
}

#[test]
fn an_empty_text_is_no_null(rt: HostRuntime) -> Result<(), Fail> {
    let alloc = rt.alloc();
    let empty = made(Column::from_texts(alloc, &[Some("")]))?;
    let null = made(Column::from_texts(alloc, &[None]))?;
    assert!(rt; empty != null);
    Ok(())
}

#[test]
fn a_copy_of_a_batch_is_equal(rt: HostRuntime) -> Result<(), Fail> {
    let alloc = rt.alloc();
    let batch = alone(alloc, 5000, bits(alloc, 5000)?)?;
    let copy = batch.clone()?;
    assert!(rt; copy == batch);
    Ok(())
}

#[test]
fn batches_of_other_rows_differ(rt: HostRuntime) -> Result<(), Fail> {
    let alloc = rt.alloc();
    let none = Batch {
        rows: 0,
        columns: Vec::new(alloc),
    };
    let five = Batch {
        rows: 5,
        columns: Vec::new(alloc),
    };
    assert!(rt; none != five);
    Ok(())
}
