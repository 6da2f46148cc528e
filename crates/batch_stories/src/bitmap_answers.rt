//! Bitmaps, put together in steps and looked at.

use bitmaps::{Bitmap, bit, count_zeros};
use std::alloc::Global;
use story_requests::{RequestFault, Response, Words};

/// Where a run may begin at most, and how many bits it may have.
const MOST_BITS: u64 = 1 << 32;

fn put_bits(digits: &str, bitmap: &mut Bitmap) -> Result<(), RequestFault> {
    for digit in digits.bytes() {
        bitmap.push(digit == b'1')?;
    }
    Ok(())
}

// Puts so many bits of the bytes, from this one on.
fn extend(bitmap: &mut Bitmap, bytes: &[u8], start: u64, count: u64) -> Result<(), RequestFault> {
    if start > MOST_BITS || count > MOST_BITS {
        return Err(RequestFault::BadRequest);
    }
    Ok(bitmap.extend_from(bytes, start as usize, count as usize)?)
}

fn put_part(alloc: Global, words: &mut Words<'_>, bitmap: &mut Bitmap) -> Result<(), RequestFault> {
    let bytes = words.bytes(alloc)?;
    let start = words.number()?;
    extend(bitmap, &bytes, start, words.number()?)
}

fn put_equal(words: &mut Words<'_>, bitmap: &mut Bitmap) -> Result<(), RequestFault> {
    let bit = words.number()?;
    let count = words.number()?;
    Ok(bitmap.push_run(bit == 1, count as usize)?)
}

// `bits DIGITS`, `part BYTES START COUNT` or `equal BIT COUNT`.
fn put_step(alloc: Global, words: &mut Words<'_>, bitmap: &mut Bitmap) -> Result<(), RequestFault> {
    match words.next() {
        "bits" => put_bits(words.next(), bitmap),
        "part" => put_part(alloc, words, bitmap),
        "equal" => put_equal(words, bitmap),
        _ => Err(RequestFault::BadRequest),
    }
}

// What a look at the bit gives, in the bitmap and in its bytes: a digit, `-` behind the last one, or `?` where they
// differ.
fn look(bitmap: &Bitmap, index: usize) -> char {
    match (bitmap.get(index), bit(bitmap.as_bytes(), index)) {
        (Some(true), true) => '1',
        (Some(false), false) => '0',
        (None, false) => '-',
        _ => '?',
    }
}

fn put_looks(alloc: Global, bitmap: &Bitmap, answer: &mut Response) -> Result<(), RequestFault> {
    let mut looks = String::new(alloc);
    for index in 0..bitmap.len().saturating_add(10) {
        looks.push(look(bitmap, index))?;
    }
    answer.word(looks.as_str())
}

// Whether a copy is equal until a bit is put behind it; and the bytes that it leaves.
fn put_copy(bitmap: &Bitmap, answer: &mut Response) -> Result<(), RequestFault> {
    let mut copy = bitmap.clone()?;
    let is_equal = copy == *bitmap;
    copy.push(false)?;
    let stays_equal = copy == *bitmap;
    answer.word(if is_equal && !stays_equal {
        "copied"
    } else {
        "other"
    })?;
    answer.bytes(&bitmap.clone()?.into_bytes())
}

fn put_bitmap(alloc: Global, bitmap: &Bitmap, answer: &mut Response) -> Result<(), RequestFault> {
    let len = bitmap.len();
    answer.word(if bitmap.is_empty() { "empty" } else { "filled" })?;
    answer.number(len as u64)?;
    answer.bytes(bitmap.as_bytes())?;
    answer.number(bitmap.count_zeros() as u64)?;
    answer.number(count_zeros(bitmap.as_bytes(), 0, len) as u64)?;
    put_looks(alloc, bitmap, answer)?;
    put_copy(bitmap, answer)
}

/// `bitmap STEPS ..`: the bitmap that so many steps make, with each look at it.
pub(crate) fn answer_bitmap(
    alloc: Global,
    words: &mut Words<'_>,
    answer: &mut Response,
) -> Result<(), RequestFault> {
    let steps = words.number()?;
    let mut bitmap = Bitmap::new(alloc);
    for _ in 0..steps {
        put_step(alloc, words, &mut bitmap)?;
    }
    put_bitmap(alloc, &bitmap, answer)
}

fn put_zeros(
    bytes: &[u8],
    start: u64,
    count: u64,
    answer: &mut Response,
) -> Result<(), RequestFault> {
    if start > MOST_BITS || count > MOST_BITS {
        return Err(RequestFault::BadRequest);
    }
    answer.number(count_zeros(bytes, start as usize, count as usize) as u64)
}

/// `zeros BYTES START COUNT`: how many zeros there are in each run from this bit on that has fewer bits than so many.
pub(crate) fn answer_zeros(
    alloc: Global,
    words: &mut Words<'_>,
    answer: &mut Response,
) -> Result<(), RequestFault> {
    let bytes = words.bytes(alloc)?;
    let start = words.number()?;
    for count in 0..words.number()? {
        put_zeros(&bytes, start, count, answer)?;
    }
    Ok(())
}
