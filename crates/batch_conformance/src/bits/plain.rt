//! The plain program: bits as a list, a byte as a sum of powers of two.

use std::alloc::{AllocError, Global};

/// What the eight bits of a byte count, the lowest first.
const WEIGHTS: [u8; 8] = [1, 2, 4, 8, 16, 32, 64, 128];

/// The byte of at most eight bits.
fn byte_of(bits: &[bool]) -> u8 {
    let mut byte = 0_u8;
    for (place, bit) in bits.iter().enumerate() {
        if *bit {
            byte = byte.wrapping_add(WEIGHTS.get(place).copied().unwrap_or(0));
        }
    }
    byte
}

/// The bytes of a list of bits.
pub(super) fn packed(alloc: Global, bits: &[bool]) -> Result<Vec<u8>, AllocError> {
    let mut bytes = Vec::new(alloc);
    for eight in bits.chunks(8) {
        bytes.push(byte_of(eight))?;
    }
    Ok(bytes)
}

/// Whether a bit is set; behind the last byte none is.
fn is_set(bytes: &[u8], index: usize) -> bool {
    let byte = bytes.get(index / 8).copied().unwrap_or(0);
    let weight = WEIGHTS.get(index % 8).copied().unwrap_or(1);
    byte.checked_div(weight).unwrap_or(0) % 2 == 1
}

/// The bits of bytes, `count` of them from this one on, behind others.
pub(super) fn put_bits(
    list: &mut Vec<bool>,
    bytes: &[u8],
    start: usize,
    count: usize,
) -> Result<(), AllocError> {
    for offset in 0..count {
        list.push(is_set(bytes, start.saturating_add(offset)))?;
    }
    Ok(())
}

/// How many bits are not set.
pub(super) fn zeros_of(bits: &[bool]) -> usize {
    let mut zeros = 0_usize;
    for bit in bits {
        if !*bit {
            zeros = zeros.saturating_add(1);
        }
    }
    zeros
}
