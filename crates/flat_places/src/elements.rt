//! Vectors and strings at a place (FlatBuffers, "FlatBuffer Internals", "Strings and Vectors").

ghost use Rattle.std.specs.Prelude.{◌≡◌, ℕ, List, IfOk, IfErr, IsOkAnd};
ghost use Rattle.flat_places.specs.Vector.{ShowsVector, ShowsText};
ghost use Rattle.flat_places.specs.Fault.{VectorFault, TextFault};

use crate::fault::PlaceFault;
use crate::number::{OFFSET_LEN, bytes_at, uint};
use std::str::from_utf8;

/// The place of the first element and the number of elements of the vector at a place, whose elements have `size` bytes
/// each (FlatBuffers, "FlatBuffer Internals", "Strings and Vectors"). The place is that of the vector itself, which
/// [`crate::follow`] gives at a reference to it.
///
/// [`PlaceFault::OutOfBounds`] says that the count or the elements do not all lie in the text, and is the only fault.
pub fn vector(buf: &[u8], place: usize, size: usize) -> Result<(usize, usize), PlaceFault>
    ensures read { IfOk result (λ v. ShowsVector buf.now place size v.0 v.1) }
    ensures only { (first count : ℕ) → ShowsVector buf.now place size first count → result ≡ Ok (first, count) }
    ensures fault { IfErr result (VectorFault buf.now place size) }
{
    let count = uint(buf, place, OFFSET_LEN)? as usize;
    let first = place + OFFSET_LEN;
    match count.checked_mul(size) {
        Some(len) if len <= buf.len() - first => Ok((first, count)),
        _ => Err(PlaceFault::OutOfBounds),
    }
}

/// The string at a place: a vector of bytes, in UTF-8 (FlatBuffers, "FlatBuffer Internals", "Strings and Vectors"). The
/// place is that of the string itself, which [`crate::follow`] gives at a reference to it. The zero byte behind a
/// string is not looked at.
///
/// The faults are [`PlaceFault::OutOfBounds`], where the count or the bytes do not all lie in the text, and
/// [`PlaceFault::NotUtf8`], where they do and are not UTF-8.
pub fn text(buf: &[u8], place: usize) -> Result<&str, PlaceFault>
    ensures read { IfOk result (λ shown. ShowsText buf.now place shown.now) }
    ensures only { (bytes : List ℕ) → ShowsText buf.now place bytes → IsOkAnd result (λ shown. shown.now ≡ bytes) }
    ensures fault { IfErr result (TextFault buf.now place) }
{
    let (first, count) = vector(buf, place, 1)?;
    let bytes = bytes_at(buf, first, count)?;
    match from_utf8(bytes) {
        Ok(text) => Ok(text),
        Err(_) => Err(PlaceFault::NotUtf8),
    }
}
