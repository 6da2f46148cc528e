//! The fields of a message appended to a vector, each in its canonical encoding (Protocol Buffers, "Encoding").
//!
//! Each call's field number is from 1 to [`proto_fields::MAX_FIELD_NUMBER`]. Where memory is refused, a beginning of
//! what it would append may stay: [`crate::ProtoMessage::encode`] takes it back.

ghost use Rattle.std.specs.Prelude.{◌≡◌, ◌<◌, ◌^◌, ◌++◌, ◌∷◌, [], OnOk, OnErr, map};
ghost use Rattle.std.specs.Int.{w32, w64};
ghost use Rattle.std.specs.Int.RustNames.{FitsSigned};
ghost use Rattle.std.specs.List.{AllByRecursion};
ghost use Rattle.std.specs.Option.{option_copied, option_map};
ghost use Rattle.std.specs.String.{string_bytes};
ghost use Rattle.proto_fields.specs.Field.{IsFieldNumber, fields_text, present};
ghost use Rattle.proto_fields.specs.Scalar.{TypeEnum, TypeInt64, TypeUint64, TypeBool, TypeBytes, TypeString};
ghost use Rattle.proto_messages.specs.Canonical.{scalar_held, bytes_field, elements, canonical, canonical_fields};
ghost use Rattle.proto_messages.specs.Canonical.{FitsScalar, FitsEmbedded, Fits};
ghost use Rattle.proto_fields.specs.Writing.{Grows};

use crate::length_prefix::{append_open_key, set_length};
use crate::message::ProtoMessage;
use proto_fields::{write_bytes, write_nonempty_bytes, write_nonzero_varint};
use std::alloc::AllocError;

/// Appends an enumeration, and nothing where it is 0.
pub fn append_enum(out: &mut Vec<u8>, number: u32, value: i32) -> Result<(), AllocError>
    requires { IsFieldNumber number }
    ensures ok { OnOk result (out.new.items ≡ out.old.items
        ++ fields_text (present (record { number = number; held = scalar_held TypeEnum value } ∷ []))) }
    ensures err { OnErr result (Grows out.old.items out.new.items) }
    ensures fits { FitsScalar TypeEnum value }
{
    write_nonzero_varint(out, number, i64::from(value).cast_unsigned())
}

/// Appends an int64, and nothing where it is 0.
pub fn append_int64(out: &mut Vec<u8>, number: u32, value: i64) -> Result<(), AllocError>
    requires { IsFieldNumber number }
    ensures ok { OnOk result (out.new.items ≡ out.old.items
        ++ fields_text (present (record { number = number; held = scalar_held TypeInt64 value } ∷ []))) }
    ensures err { OnErr result (Grows out.old.items out.new.items) }
    ensures fits { FitsScalar TypeInt64 value }
{
    write_nonzero_varint(out, number, value.cast_unsigned())
}

/// Appends a uint64, and nothing where it is 0.
pub fn append_uint64(out: &mut Vec<u8>, number: u32, value: u64) -> Result<(), AllocError>
    requires { IsFieldNumber number }
    ensures ok { OnOk result (out.new.items ≡ out.old.items
        ++ fields_text (present (record { number = number; held = scalar_held TypeUint64 value } ∷ []))) }
    ensures err { OnErr result (Grows out.old.items out.new.items) }
    ensures fits { FitsScalar TypeUint64 value }
{
    write_nonzero_varint(out, number, value)
}

/// Appends a bool, and nothing where it is false.
pub fn append_bool(out: &mut Vec<u8>, number: u32, value: bool) -> Result<(), AllocError>
    requires { IsFieldNumber number }
    ensures ok { OnOk result (out.new.items ≡ out.old.items
        ++ fields_text (present (record { number = number; held = scalar_held TypeBool value } ∷ []))) }
    ensures err { OnErr result (Grows out.old.items out.new.items) }
{
    write_nonzero_varint(out, number, u64::from(value))
}

/// Appends bytes, and nothing where there are none.
pub fn append_bytes(out: &mut Vec<u8>, number: u32, bytes: &[u8]) -> Result<(), AllocError>
    requires { IsFieldNumber number }
    ensures ok { OnOk result (out.new.items ≡ out.old.items
        ++ fields_text (present (record { number = number; held = scalar_held TypeBytes bytes.now } ∷ []))) }
    ensures err { OnErr result (Grows out.old.items out.new.items) }
    ensures fits { FitsScalar TypeBytes bytes.now }
{
    write_nonempty_bytes(out, number, bytes)
}

/// Appends a string, and nothing where it is empty.
pub fn append_string(out: &mut Vec<u8>, number: u32, string: &String) -> Result<(), AllocError>
    requires { IsFieldNumber number }
    ensures ok { OnOk result (out.new.items ≡ out.old.items ++ fields_text
        (present (record { number = number; held = scalar_held TypeString (string_bytes string.now) } ∷ []))) }
    ensures err { OnErr result (Grows out.old.items out.new.items) }
    ensures fits { FitsScalar TypeString (string_bytes string.now) }
{
    write_nonempty_bytes(out, number, string.as_str().as_bytes())
}

/// Appends each of the strings of a repeated field, the empty ones too.
#[tactic(auto, using(crate::proofs::CallerLemmas::chains))]
pub fn append_strings(out: &mut Vec<u8>, number: u32, strings: &[String]) -> Result<(), AllocError>
    requires { IsFieldNumber number }
    ensures ok { OnOk result (out.new.items
        ≡ out.old.items ++ fields_text (map (bytes_field number) (map string_bytes strings.now))) }
    ensures err { OnErr result (Grows out.old.items out.new.items) }
    ensures fits { OnOk result (AllByRecursion (FitsScalar TypeString) (map string_bytes strings.now)) }
{
    for string in strings {
        write_bytes(out, number, string.as_str().as_bytes())?;
    }
    Ok(())
}

/// Appends an embedded message, an empty one too.
fn append_embedded<M: ProtoMessage>(
    out: &mut Vec<u8>,
    number: u32,
    message: &M,
) -> Result<(), AllocError>
    requires { IsFieldNumber number }
    ensures ok { OnOk result (out.new.items ≡ out.old.items
        ++ fields_text (bytes_field number (canonical M.descriptor (M.values message.now)) ∷ [])) }
    ensures err { OnErr result (Grows out.old.items out.new.items) }
    ensures fits { OnOk result
        (FitsEmbedded (Fits M.descriptor) (canonical_fields M.descriptor) (M.values message.now)) }
{
    append_open_key(out, number)?;
    let place = out.len() - 1;
    message.append(out)?;
    set_length(out, place)
}

/// Appends an embedded message where there is one, an empty one too.
pub fn append_one<M: ProtoMessage>(
    out: &mut Vec<u8>,
    number: u32,
    message: &Option<M>,
) -> Result<(), AllocError>
    requires { IsFieldNumber number }
    ensures ok { OnOk result (out.new.items ≡ out.old.items
        ++ fields_text (map (λ value. bytes_field number (canonical M.descriptor value))
        (elements (option_map M.values message.now)))) }
    ensures err { OnErr result (Grows out.old.items out.new.items) }
    ensures fits { OnOk result (AllByRecursion (FitsEmbedded (Fits M.descriptor) (canonical_fields M.descriptor))
        (elements (option_map M.values message.now))) }
{
    match message {
        Some(message) => append_embedded(out, number, message),
        None => Ok(()),
    }
}

/// Appends what [`append_one`] does, of an embedded message that is lent.
pub fn append_lent<M: ProtoMessage>(
    out: &mut Vec<u8>,
    number: u32,
    message: Option<&M>,
) -> Result<(), AllocError>
    requires { IsFieldNumber number }
    ensures ok { OnOk result (out.new.items ≡ out.old.items
        ++ fields_text (map (λ value. bytes_field number (canonical M.descriptor value))
        (elements (option_map M.values (option_copied message.entry))))) }
    ensures err { OnErr result (Grows out.old.items out.new.items) }
    ensures fits { OnOk result (AllByRecursion (FitsEmbedded (Fits M.descriptor) (canonical_fields M.descriptor))
        (elements (option_map M.values (option_copied message.entry)))) }
{
    match message {
        Some(message) => append_embedded(out, number, message),
        None => Ok(()),
    }
}

/// Appends each of the embedded messages of a repeated field, the empty ones too.
#[tactic(auto, using(crate::proofs::CallerLemmas::chains))]
pub fn append_messages<M: ProtoMessage>(
    out: &mut Vec<u8>,
    number: u32,
    messages: &[M],
) -> Result<(), AllocError>
    requires { IsFieldNumber number }
    ensures ok { OnOk result (out.new.items ≡ out.old.items
        ++ fields_text (map (λ value. bytes_field number (canonical M.descriptor value))
        (map M.values messages.now))) }
    ensures err { OnErr result (Grows out.old.items out.new.items) }
    ensures fits { OnOk result (AllByRecursion (FitsEmbedded (Fits M.descriptor) (canonical_fields M.descriptor))
        (map M.values messages.now)) }
{
    for message in messages {
        append_embedded(out, number, message)?;
    }
    Ok(())
}
