//! Fields taken off the front of some bytes, each where it stands there in its canonical encoding (Protocol Buffers,
//! "Encoding"): the counterparts of [`crate::append_enum`] and its kind. No memory is taken.

ghost use Rattle.std.specs.Prelude.{◌≡◌, ℕ, ◌+◌, ◌*◌, ◌^◌, ◌<◌, ◌∷◌, [], map, Some, None, IfSome, IfNone};
ghost use Rattle.std.specs.Option.{option_copied, option_map};
ghost use Rattle.std.specs.String.{string_bytes};
ghost use Rattle.proto_fields.specs.Varint.{varint_text};
ghost use Rattle.proto_fields.specs.Field.{Varint, Bytes, field_text, fields_text, present};
ghost use Rattle.proto_fields.specs.Scalar.{TypeEnum, TypeInt64, TypeUint64, TypeBool, TypeBytes, TypeString};
ghost use Rattle.proto_messages.specs.Canonical.{scalar_held, bytes_field, elements, canonical};
ghost use Rattle.proto_messages.specs.Stripping.{Strips};

use crate::canonical::CanonicalMessage;
use crate::length_prefix::LENGTH_DELIMITED;
use proto_fields::split_varint;

/// The wire type of a number of 64 bits.
const VARINT: u64 = 0;

/// What follows the byte at the front.
#[tactic(auto, using(crate::proofs::Strips::strips_some, crate::proofs::Strips::strips_none))]
fn strip_byte(bytes: &[u8], byte: u8) -> Option<&[u8]>
    ensures { Strips (byte ∷ []) bytes.now (option_copied result) }
{
    match bytes {
        [first, rest @ ..] if *first == byte => Some(rest),
        _ => None,
    }
}

/// What follows the shortest varint of the number.
fn strip_number(bytes: &[u8], number: u64) -> Option<&[u8]>
    ensures { Strips (varint_text number) bytes.now (option_copied result) }
{
    let mut rest = bytes;
    let mut left = number;
    while left >= 128 {
        rest = strip_byte(rest, (left % 128) as u8 + 128)?;
        left /= 128;
    }
    strip_byte(rest, left as u8)
}

/// What follows the bytes.
fn strip_content<'a>(bytes: &'a [u8], content: &[u8]) -> Option<&'a [u8]>
    ensures { Strips content.now bytes.now (option_copied result) }
{
    bytes.strip_prefix(content)
}

/// The number at the front in its shortest varint, and what follows it.
fn split_shortest(bytes: &[u8]) -> Option<(u64, &[u8])>
    ensures some { IfSome result (λ x. (x.0 < 2 ^ 64) × Strips (varint_text x.0) bytes.now (Some x.1.now)) }
    ensures none { IfNone result ((n : ℕ) → n < 2 ^ 64 → Strips (varint_text n) bytes.now None) }
{
    match split_varint(bytes) {
        Ok((number, _)) => {
            let rest = strip_number(bytes, number)?;
            Some((number, rest))
        }
        Err(_) => None,
    }
}

/// What follows a field with a number.
fn strip_varint(bytes: &[u8], number: u32, value: u64) -> Option<&[u8]>
    ensures { Strips (field_text (record { number = number; held = Varint value })) bytes.now (option_copied result) }
{
    let bytes = strip_number(bytes, 8 * u64::from(number) + VARINT)?;
    strip_number(bytes, value)
}

/// What follows the key of a field with bytes.
fn strip_bytes_key(bytes: &[u8], number: u32) -> Option<&[u8]>
    ensures { Strips (varint_text (8 * number + 2)) bytes.now (option_copied result) }
{
    strip_number(bytes, 8 * u64::from(number) + LENGTH_DELIMITED)
}

/// What follows a field with bytes behind their length.
fn strip_bytes_field<'a>(bytes: &'a [u8], number: u32, content: &[u8]) -> Option<&'a [u8]>
    ensures { Strips (field_text (record { number = number; held = Bytes content.now })) bytes.now
        (option_copied result) }
{
    let bytes = strip_bytes_key(bytes, number)?;
    let bytes = strip_number(bytes, content.len() as u64)?;
    strip_content(bytes, content)
}

/// What follows a field with a number, and all for a 0, which is not written.
fn strip_nonzero_varint(bytes: &[u8], number: u32, value: u64) -> Option<&[u8]>
    ensures { Strips (fields_text (present (record { number = number; held = Varint value } ∷ []))) bytes.now
        (option_copied result) }
{
    if value == 0 {
        return Some(bytes);
    }
    strip_varint(bytes, number, value)
}

/// What follows a field with bytes, and all for no bytes, which are not written.
fn strip_nonempty_bytes<'a>(bytes: &'a [u8], number: u32, content: &[u8]) -> Option<&'a [u8]>
    ensures { Strips (fields_text (present (record { number = number; held = Bytes content.now } ∷ []))) bytes.now
        (option_copied result) }
{
    if content.is_empty() {
        return Some(bytes);
    }
    strip_bytes_field(bytes, number, content)
}

/// What follows an enumeration as [`crate::append_enum`] writes it, or `None` where it does not stand at the front.
pub fn strip_enum(bytes: &[u8], number: u32, value: i32) -> Option<&[u8]>
    ensures { Strips (fields_text (present (record { number = number; held = scalar_held TypeEnum value } ∷ [])))
        bytes.now (option_copied result) }
{
    strip_nonzero_varint(bytes, number, i64::from(value).cast_unsigned())
}

/// What follows an int64 as [`crate::append_int64`] writes it, or `None` where it does not stand at the front.
pub fn strip_int64(bytes: &[u8], number: u32, value: i64) -> Option<&[u8]>
    ensures { Strips (fields_text (present (record { number = number; held = scalar_held TypeInt64 value } ∷ [])))
        bytes.now (option_copied result) }
{
    strip_nonzero_varint(bytes, number, value.cast_unsigned())
}

/// What follows a uint64 as [`crate::append_uint64`] writes it, or `None` where it does not stand at the front.
pub fn strip_uint64(bytes: &[u8], number: u32, value: u64) -> Option<&[u8]>
    ensures { Strips (fields_text (present (record { number = number; held = scalar_held TypeUint64 value } ∷ [])))
        bytes.now (option_copied result) }
{
    strip_nonzero_varint(bytes, number, value)
}

/// What follows a bool as [`crate::append_bool`] writes it, or `None` where it does not stand at the front.
pub fn strip_bool(bytes: &[u8], number: u32, value: bool) -> Option<&[u8]>
    ensures { Strips (fields_text (present (record { number = number; held = scalar_held TypeBool value } ∷ [])))
        bytes.now (option_copied result) }
{
    strip_nonzero_varint(bytes, number, u64::from(value))
}

/// What follows bytes as [`crate::append_bytes`] writes them, or `None` where they do not stand at the front.
pub fn strip_bytes<'a>(bytes: &'a [u8], number: u32, value: &[u8]) -> Option<&'a [u8]>
    ensures { Strips (fields_text (present (record { number = number; held = scalar_held TypeBytes value.now } ∷ [])))
        bytes.now (option_copied result) }
{
    strip_nonempty_bytes(bytes, number, value)
}

/// What follows a string as [`crate::append_string`] writes it, or `None` where it does not stand at the front.
pub fn strip_string<'a>(bytes: &'a [u8], number: u32, value: &String) -> Option<&'a [u8]>
    ensures { Strips (fields_text
        (present (record { number = number; held = scalar_held TypeString (string_bytes value.now) } ∷ [])))
        bytes.now (option_copied result) }
{
    strip_nonempty_bytes(bytes, number, value.as_str().as_bytes())
}

/// What follows an element of repeated strings.
fn strip_element<'a>(bytes: &'a [u8], number: u32, value: &String) -> Option<&'a [u8]>
    ensures { Strips (field_text (bytes_field number (string_bytes value.now))) bytes.now (option_copied result) }
{
    strip_bytes_field(bytes, number, value.as_str().as_bytes())
}

/// What follows repeated strings as [`crate::append_strings`] writes them, or `None` where they do not stand at the
/// front.
pub fn strip_strings<'a>(bytes: &'a [u8], number: u32, values: &[String]) -> Option<&'a [u8]>
    ensures { Strips (fields_text (map (bytes_field number) (map string_bytes values.now))) bytes.now
        (option_copied result) }
{
    let mut rest = bytes;
    for value in values {
        rest = strip_element(rest, number, value)?;
    }
    Some(rest)
}

/// What follows an embedded message, whose length has to be that of its own canonical encoding.
fn strip_embedded<'a, M: CanonicalMessage>(
    bytes: &'a [u8],
    number: u32,
    message: &M,
) -> Option<&'a [u8]>
    ensures { Strips (fields_text (bytes_field number (canonical M.descriptor (M.values message.now)) ∷ []))
        bytes.now (option_copied result) }
{
    let behind_key = strip_bytes_key(bytes, number)?;
    let (length, content) = split_shortest(behind_key)?;
    let rest = message.strip(content)?;
    if (content.len() - rest.len()) as u64 != length {
        return None;
    }
    Some(rest)
}

/// What follows an embedded message as [`crate::append_one`] writes it, or `None` where it does not stand at the front.
pub fn strip_one<'a, M: CanonicalMessage>(
    bytes: &'a [u8],
    number: u32,
    message: &Option<M>,
) -> Option<&'a [u8]>
    ensures { Strips (fields_text (map (λ value. bytes_field number (canonical M.descriptor value))
        (elements (option_map M.values message.now)))) bytes.now (option_copied result) }
{
    match message {
        Some(message) => strip_embedded(bytes, number, message),
        None => Some(bytes),
    }
}

/// What follows repeated embedded messages as [`crate::append_messages`] writes them, or `None` where they do not stand
/// at the front.
pub fn strip_messages<'a, M: CanonicalMessage>(
    bytes: &'a [u8],
    number: u32,
    messages: &[M],
) -> Option<&'a [u8]>
    ensures { Strips (fields_text (map (λ value. bytes_field number (canonical M.descriptor value))
        (map M.values messages.now))) bytes.now (option_copied result) }
{
    let mut rest = bytes;
    for message in messages {
        rest = strip_embedded(rest, number, message)?;
    }
    Some(rest)
}
