//! What tasks share.

use std::alloc::AllocError;

/// The number of bytes, and the last of them.
pub fn weight_of(bytes: &[u8]) -> u64 {
    (bytes.len() as u64).wrapping_add(last_byte(bytes))
}

/// The last of the bytes, or 0 where there are none.
pub(crate) fn last_byte(bytes: &[u8]) -> u64 {
    match bytes {
        [] => 0,
        [.., last] => u64::from(*last),
    }
}

/// Puts an item behind the others.
pub fn push<T: Drop>(items: &mut Vec<T>, item: T) -> Result<(), AllocError> {
    items.push(item)?;
    Ok(())
}
