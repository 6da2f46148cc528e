//! Rows of tables, which tests read as texts, and what they expect of each.

use std::alloc::Global;
use std::process::Abort;
use std::test::Fail;

/// The bytes that hexadecimal digits spell, in parts with a space between them.
pub fn spelled(alloc: Global, digits: &str) -> Result<Vec<u8>, Fail> {
    let mut bytes = Vec::new(alloc);
    for part in digits.split(' ') {
        push_part(alloc, &mut bytes, part)?;
    }
    Ok(bytes)
}

fn push_part(alloc: Global, bytes: &mut Vec<u8>, digits: &str) -> Result<(), Fail> {
    let part = hex::decode(alloc, digits)?;
    Ok(bytes.extend_from_slice(part.as_slice())?)
}

/// The two cells of a row of a table, with a bar between them.
pub fn two_cells(row: &str) -> Result<(&str, &str), Fail> {
    match row.split_once('|') {
        Some(cells) => Ok(cells),
        None => Err(Fail::from("no row")),
    }
}

/// Whether the bytes are the same.
pub fn are_equal(left: &[u8], right: &[u8]) -> bool {
    left == right
}

/// Ends the test where this is not so, and says of which row.
pub fn expect_row(rt: &impl Abort, is_so: bool, row: &str) {
    assert!(rt; is_so, "{row}");
}

/// Likewise of a number.
pub fn expect_of(rt: &impl Abort, is_so: bool, number: usize) {
    assert!(rt; is_so, "{number}");
}
