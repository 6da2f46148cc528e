//! Bytes written behind a key before their length is known, and the length put before them.

ghost use Rattle.std.specs.Prelude.{◌≡◌, ◌+◌, ◌*◌, ◌≤◌, ◌<◌, ◌++◌, ◌∷◌, [], length, take, drop, IfOk, OnOk, OnErr};
ghost use Rattle.proto_fields.specs.Varint.{varint_text};
ghost use Rattle.proto_fields.specs.Writing.{Grows};
ghost use Rattle.proto_messages.specs.LengthPrefix.{with_length};

use proto_fields::append_number;
use std::alloc::AllocError;

/// The wire type of bytes behind their length.
pub(crate) const LENGTH_DELIMITED: u64 = 2;

/// Appends the key of a field with bytes and a byte for their length, which [`set_length`] puts there.
pub(crate) fn append_open_key(out: &mut Vec<u8>, number: u32) -> Result<(), AllocError>
    ensures ok { OnOk result (out.new.items ≡ (out.old.items ++ varint_text (8 * number + 2)) ++ 0 ∷ []) }
    ensures err { Grows out.old.items out.new.items }
{
    append_number(out, 8 * u64::from(number) + LENGTH_DELIMITED)?;
    out.push(0)?;
    Ok(())
}

/// Puts the length of what follows a byte in its place. What follows is moved only where its length takes more bytes.
pub(crate) fn set_length(out: &mut Vec<u8>, place: usize) -> Result<(), AllocError>
    requires { place < length out.old.items }
    ensures ok { OnOk result (out.new.items ≡ with_length place out.old.items) }
    ensures err { OnErr result (Grows (take place out.old.items) out.new.items) }
{
    let length = out.len() - place - 1;
    if length < 128 {
        out[place] = length as u8;
        return Ok(());
    }
    move_behind_length(out, place)
}

/// Puts the length of what follows a byte in its place, and what follows behind it.
fn move_behind_length(out: &mut Vec<u8>, place: usize) -> Result<(), AllocError>
    requires { place < length out.old.items }
    ensures ok { OnOk result (out.new.items ≡ with_length place out.old.items) }
    ensures err { OnErr result (Grows (take place out.old.items) out.new.items) }
{
    let follows = copied_from(out, place + 1)?;
    out.truncate(place);
    append_number(out, follows.len() as u64)?;
    out.extend_from_slice(&follows)
}

/// A copy of the bytes from a place on.
fn copied_from(bytes: &Vec<u8>, place: usize) -> Result<Vec<u8>, AllocError>
    requires { place ≤ length bytes.now.items }
    ensures { IfOk result (λ copy. copy.items ≡ drop place bytes.now.items) }
{
    Vec::from_slice(*bytes.allocator(), &bytes[place..])
}
