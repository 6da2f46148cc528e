//! Fields written at the end of a vector, each in its one canonical encoding (Protocol Buffers, "Encoding").

ghost use Rattle.std.specs.Prelude.{◌≡◌, ◌++◌, ◌∷◌, [], OnOk, OnErr};
ghost use Rattle.proto_fields.specs.Varint.{varint_text};
ghost use Rattle.proto_fields.specs.Field.{Varint, Bytes, IsFieldNumber, field_text, fields_text, present};
ghost use Rattle.proto_fields.specs.Writing.{Grows};

use std::alloc::AllocError;

/// The wire type of a number of 64 bits.
const VARINT: u64 = 0;

/// The wire type of bytes behind their length.
const LENGTH_DELIMITED: u64 = 2;

/// Appends a number of 64 bits as its shortest varint (Protocol Buffers, "Base 128 Varints"). [`AllocError`] says that
/// memory was refused, and a beginning of it may then stay behind what the vector held.
#[tactic(auto, using(crate::proofs::Texts::texts))]
pub fn append_number(out: &mut Vec<u8>, number: u64) -> Result<(), AllocError>
    ensures ok { OnOk result (out.new.items ≡ out.old.items ++ varint_text number) }
    ensures err { Grows out.old.items out.new.items }
{
    let mut left = number;
    while left >= 128 {
        out.push((left % 128) as u8 + 128)?;
        left /= 128;
    }
    out.push(left as u8)?;
    Ok(())
}

/// Appends a field with a number. Where memory is refused, a beginning of it may stay.
fn append_varint(out: &mut Vec<u8>, number: u32, value: u64) -> Result<(), AllocError>
    ensures ok { OnOk result
        (out.new.items ≡ out.old.items ++ field_text (record { number = number; held = Varint value })) }
    ensures err { Grows out.old.items out.new.items }
{
    let key = 8 * u64::from(number) + VARINT;
    append_number(out, key)?;
    append_number(out, value)?;
    Ok(())
}

/// Appends a field with bytes behind their length. Where memory is refused, a beginning of it may stay.
fn append_bytes_field(out: &mut Vec<u8>, number: u32, bytes: &[u8]) -> Result<(), AllocError>
    ensures ok { OnOk result
        (out.new.items ≡ out.old.items ++ field_text (record { number = number; held = Bytes bytes.now })) }
    ensures err { Grows out.old.items out.new.items }
{
    let key = 8 * u64::from(number) + LENGTH_DELIMITED;
    append_number(out, key)?;
    append_number(out, bytes.len() as u64)?;
    out.extend_from_slice(bytes)?;
    Ok(())
}

/// Appends a field with a number of 64 bits, wire type 0, its key and the number as the shortest varints.
///
/// The field's number is from 1 to [`crate::MAX_FIELD_NUMBER`]. [`AllocError`] says that memory was refused, and the
/// vector then holds what it did before the call.
pub fn write_varint(out: &mut Vec<u8>, number: u32, value: u64) -> Result<(), AllocError>
    requires { IsFieldNumber number }
    ensures ok { OnOk result
        (out.new.items ≡ out.old.items ++ field_text (record { number = number; held = Varint value })) }
    ensures err { OnErr result (out.new.items ≡ out.old.items) }
{
    let start = out.len();
    let result = append_varint(out, number, value);
    if result.is_err() {
        out.truncate(start);
    }
    result
}

/// Appends a field with bytes behind their length, wire type 2, its key and the length as the shortest varints.
///
/// The field's number is from 1 to [`crate::MAX_FIELD_NUMBER`]. [`AllocError`] says that memory was refused, and the
/// vector then holds what it did before the call.
pub fn write_bytes(out: &mut Vec<u8>, number: u32, bytes: &[u8]) -> Result<(), AllocError>
    requires { IsFieldNumber number }
    ensures ok { OnOk result
        (out.new.items ≡ out.old.items ++ field_text (record { number = number; held = Bytes bytes.now })) }
    ensures err { OnErr result (out.new.items ≡ out.old.items) }
{
    let start = out.len();
    let result = append_bytes_field(out, number, bytes);
    if result.is_err() {
        out.truncate(start);
    }
    result
}

/// Appends what [`write_varint`] does, and nothing for a 0, which is what an absent field means. Its limits and its
/// error are those of [`write_varint`].
pub fn write_nonzero_varint(out: &mut Vec<u8>, number: u32, value: u64) -> Result<(), AllocError>
    requires { IsFieldNumber number }
    ensures ok { OnOk result (out.new.items
        ≡ out.old.items ++ fields_text (present (record { number = number; held = Varint value } ∷ []))) }
    ensures err { OnErr result (out.new.items ≡ out.old.items) }
{
    if value == 0 {
        return Ok(());
    }
    write_varint(out, number, value)
}

/// Appends what [`write_bytes`] does, and nothing for no bytes, which is what an absent field means. Its limits and
/// its error are those of [`write_bytes`].
pub fn write_nonempty_bytes(out: &mut Vec<u8>, number: u32, bytes: &[u8]) -> Result<(), AllocError>
    requires { IsFieldNumber number }
    ensures ok { OnOk result (out.new.items
        ≡ out.old.items ++ fields_text (present (record { number = number; held = Bytes bytes.now } ∷ []))) }
    ensures err { OnErr result (out.new.items ≡ out.old.items) }
{
    if bytes.is_empty() {
        return Ok(());
    }
    write_bytes(out, number, bytes)
}
