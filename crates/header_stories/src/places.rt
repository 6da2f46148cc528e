//! What stands at places of bytes (FlatBuffers, "FlatBuffer Internals").

use flat_places::{PlaceFault, follow, slot, text, uint, vector};
use std::alloc::Global;
use story_requests::{RequestFault, Response, Words};

fn put_fault(alloc: Global, fault: PlaceFault, answer: &mut Response) -> Result<(), RequestFault> {
    let name = format!(in alloc; "{fault}")?;
    answer.word(name.as_str())
}

fn put_uint(
    alloc: Global,
    bytes: &[u8],
    at: (usize, usize),
    answer: &mut Response,
) -> Result<(), RequestFault> {
    let (place, size) = at;
    if !matches!(size, 1 | 2 | 4 | 8) {
        return Err(RequestFault::BadRequest);
    }
    match uint(bytes, place, size) {
        Ok(number) => answer.number(number),
        Err(fault) => put_fault(alloc, fault, answer),
    }
}

fn put_slot(
    alloc: Global,
    bytes: &[u8],
    at: (usize, usize),
    answer: &mut Response,
) -> Result<(), RequestFault> {
    match slot(bytes, at.0, at.1) {
        Ok(Some(place)) => answer.number(place as u64),
        Ok(None) => answer.word("absent"),
        Err(fault) => put_fault(alloc, fault, answer),
    }
}

fn put_vector(
    alloc: Global,
    bytes: &[u8],
    at: (usize, usize),
    answer: &mut Response,
) -> Result<(), RequestFault> {
    match vector(bytes, at.0, at.1) {
        Ok((first, count)) => {
            answer.number(first as u64)?;
            answer.number(count as u64)
        }
        Err(fault) => put_fault(alloc, fault, answer),
    }
}

/// `uint BYTES PLACE SIZE`, `slot BYTES TABLE FIELD` and `vector BYTES PLACE SIZE`: a number, a place or `absent`, and
/// the place of the first element and how many there are.
pub(crate) fn answer_at(
    alloc: Global,
    asked: &str,
    words: &mut Words<'_>,
    answer: &mut Response,
) -> Result<(), RequestFault> {
    let bytes = words.bytes(alloc)?;
    let place = words.number()?;
    let at = (place as usize, words.number()? as usize);
    match asked {
        "uint" => put_uint(alloc, &bytes, at, answer),
        "slot" => put_slot(alloc, &bytes, at, answer),
        _ => put_vector(alloc, &bytes, at, answer),
    }
}

/// `follow BYTES PLACE`: the place that the reference leads to.
pub(crate) fn answer_follow(
    alloc: Global,
    words: &mut Words<'_>,
    answer: &mut Response,
) -> Result<(), RequestFault> {
    let bytes = words.bytes(alloc)?;
    let place = words.number()?;
    match follow(&bytes, place as usize) {
        Ok(target) => answer.number(target as u64),
        Err(fault) => put_fault(alloc, fault, answer),
    }
}

/// `text BYTES PLACE`: `utf8`, and the bytes of the string.
pub(crate) fn answer_text(
    alloc: Global,
    words: &mut Words<'_>,
    answer: &mut Response,
) -> Result<(), RequestFault> {
    let bytes = words.bytes(alloc)?;
    let place = words.number()?;
    match text(&bytes, place as usize) {
        Ok(shown) => {
            answer.word("utf8")?;
            answer.bytes(shown.as_bytes())
        }
        Err(fault) => put_fault(alloc, fault, answer),
    }
}
