//! Offsets that are refused memory as they are appended, and then are appended again: what stood before stands alone.
//! Run with every allocation refused in turn, the test ends as before or for want of memory.

use batch_columns::{offset_at, put_offset};
use std::test::Fail;

/// Appends an offset; where memory is refused, the offsets before stand alone, and it is appended again.
fn append_offset(offsets: &mut Vec<u8>, before: &[u8], number: usize) -> Result<(), Fail> {
    match put_offset(offsets, number) {
        Ok(()) => Ok(()),
        Err(_) if offsets.as_slice() == before => Ok(put_offset(offsets, number)?),
        Err(_) => Err(Fail::from("other offsets")),
    }
}

#[test]
fn offsets_are_appended_again(rt: HostRuntime) -> Result<(), Fail> {
    let alloc = rt.alloc();
    let mut offsets = Vec::new(alloc);
    for number in 0..40 {
        let before = Vec::from_slice(alloc, offsets.as_slice())?;
        append_offset(&mut offsets, before.as_slice(), number * 7)?;
    }
    assert!(rt; offsets.len() == 160, "four bytes each");
    assert!(rt; offset_at(&offsets, 39) == 273, "the last one");
    Ok(())
}
