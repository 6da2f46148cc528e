//! Numbers and references at a place (FlatBuffers, "FlatBuffer Internals", "Format components" and "Offsets").

ghost use Rattle.std.specs.Prelude.{◌≡◌, ℕ, length, IfOk, IfErr};
ghost use Rattle.flat_places.specs.Held.{Holds};
ghost use Rattle.flat_places.specs.Number.{IsNumberSize, ShowsUint, ShowsInt, ShowsReference};
ghost use Rattle.flat_places.specs.Fault.{NumberFault};

use crate::fault::PlaceFault;
use byteorder::{ByteOrder, LittleEndian};

/// The bytes of a reference, of a vector's count, and of the number that leads from a table to its vtable.
pub(crate) const OFFSET_LEN: usize = 4;

/// The `size` bytes at the place, or `OutOfBounds` where they do not all lie in the text.
pub(crate) fn bytes_at(buf: &[u8], place: usize, size: usize) -> Result<&[u8], PlaceFault>
    ensures read { IfOk result (λ bytes. Holds buf.now place bytes.now) }
    ensures len { IfOk result (λ bytes. length bytes.now ≡ size) }
    ensures fault { IfErr result (NumberFault buf.now place size) }
{
    match buf.get(place..) {
        Some(rest) if size <= rest.len() => Ok(&rest[..size]),
        _ => Err(PlaceFault::OutOfBounds),
    }
}

/// The number at a place, in `size` bytes (1, 2, 4 or 8), the lowest first (FlatBuffers, "FlatBuffer Internals",
/// "Format components").
///
/// [`PlaceFault::OutOfBounds`], the only fault, says that these bytes do not all lie in the text.
pub fn uint(buf: &[u8], place: usize, size: usize) -> Result<u64, PlaceFault>
    requires { IsNumberSize size }
    ensures read { IfOk result (ShowsUint buf.now place size) }
    ensures only { (x : ℕ) → ShowsUint buf.now place size x → result ≡ Ok x }
    ensures fault { IfErr result (NumberFault buf.now place size) }
{
    let bytes = bytes_at(buf, place, size)?;
    Ok(LittleEndian::read_uint(bytes, size))
}

/// The signed number of four bytes at the place.
pub(crate) fn signed_at(buf: &[u8], place: usize) -> Result<isize, PlaceFault>
    ensures read { IfOk result (ShowsInt buf.now place 4) }
    ensures fault { IfErr result (NumberFault buf.now place 4) }
{
    let bytes = bytes_at(buf, place, OFFSET_LEN)?;
    Ok(LittleEndian::read_int(bytes, OFFSET_LEN) as isize)
}

/// The place that the reference at a place names: a number of four bytes, added to its own place (FlatBuffers,
/// "FlatBuffer Internals", "Offsets"). What stands at the place that is named is not asked, nor whether it lies in the
/// text.
///
/// [`PlaceFault::OutOfBounds`], the only fault, says that the reference itself does not lie in the text.
pub fn follow(buf: &[u8], place: usize) -> Result<usize, PlaceFault>
    ensures read { IfOk result (ShowsReference buf.now place) }
    ensures only { (target : ℕ) → ShowsReference buf.now place target → result ≡ Ok target }
    ensures fault { IfErr result (NumberFault buf.now place 4) }
{
    let offset = uint(buf, place, OFFSET_LEN)?;
    Ok(place + offset as usize)
}
