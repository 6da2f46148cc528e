//! Bits put into a bitmap, and the bitmap beside the list of them.

ghost use Rattle.std.specs.Prelude.{◌+◌, ◌<◌, ◌^◌};

use super::plain::{packed, zeros_of};
use bitmaps::{Bitmap, bit, count_zeros};
use std::alloc::{AllocError, Global};

/// Puts a bit. Where memory is refused it is put again: a refusal changes nothing.
pub(super) fn push(bitmap: &mut Bitmap, bit: bool) -> Result<(), AllocError> {
    match bitmap.push(bit) {
        Ok(()) => Ok(()),
        Err(_) => bitmap.push(bit),
    }
}

/// Puts a run of bits, and again where memory is refused.
pub(super) fn extend(
    bitmap: &mut Bitmap,
    bytes: &[u8],
    start: usize,
    count: usize,
) -> Result<(), AllocError>
    requires { start + count < 2 ^ 64 }
{
    match bitmap.extend_from(bytes, start, count) {
        Ok(()) => Ok(()),
        Err(_) => bitmap.extend_from(bytes, start, count),
    }
}

/// Puts equal bits, and again where memory is refused.
pub(super) fn push_run(bitmap: &mut Bitmap, bit: bool, count: usize) -> Result<(), AllocError> {
    match bitmap.push_run(bit, count) {
        Ok(()) => Ok(()),
        Err(_) => bitmap.push_run(bit, count),
    }
}

/// The bitmap of a list, bit by bit.
pub(super) fn bitmap_of(alloc: Global, list: &[bool]) -> Result<Bitmap, AllocError> {
    let mut bitmap = Bitmap::new(alloc);
    for bit in list {
        push(&mut bitmap, *bit)?;
    }
    Ok(bitmap)
}

/// Whether each bit is found where it stands in the list, in the bitmap and in its bytes, and none behind them.
fn is_found(bitmap: &Bitmap, list: &[bool]) -> bool {
    let mut is_right = true;
    for index in 0..list.len().saturating_add(10) {
        let found = list.get(index).copied();
        let is_set = bit(bitmap.as_bytes(), index);
        is_right = is_right && bitmap.get(index) == found && is_set == found.unwrap_or(false);
    }
    is_right
}

/// Whether the bitmap has as many bits as the list, and counts as many that are not set.
fn is_counted(bitmap: &Bitmap, list: &[bool]) -> bool {
    let zeros = zeros_of(list);
    bitmap.len() == list.len()
        && bitmap.is_empty() == list.is_empty()
        && bitmap.count_zeros() == zeros
        && count_zeros(bitmap.as_bytes(), 0, list.len()) == zeros
}

/// Whether a copy is equal to the bitmap until a bit is put behind it, and leaves these bytes if it is given up.
fn is_copied(bitmap: &Bitmap, bytes: &[u8]) -> Result<bool, AllocError> {
    let mut copy = bitmap.clone()?;
    let is_equal = copy == *bitmap && copy.as_bytes() == bytes;
    push(&mut copy, false)?;
    let given = bitmap.clone()?.into_bytes();
    Ok(is_equal && copy != *bitmap && given.as_slice() == bytes)
}

/// Whether the bitmap has the bits of the list, and its bytes are those of the plain program.
pub(super) fn is_list(alloc: Global, bitmap: &Bitmap, list: &[bool]) -> Result<bool, AllocError> {
    let bytes = packed(alloc, list)?;
    let is_copied = is_copied(bitmap, bytes.as_slice())?;
    Ok(
        is_copied
            && bitmap.as_bytes() == bytes.as_slice()
            && is_counted(bitmap, list)
            && is_found(bitmap, list),
    )
}
