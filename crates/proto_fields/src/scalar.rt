//! What one field holds as a value of its type (Protocol Buffers, "Language Guide (proto3)", "Scalar Value Types"):
//! whether it holds one, and the value.

ghost use Rattle.std.specs.Prelude.{◌≡◌, ◌≢◌, ◌⊎◌, Some, IfOk, IfErr, OnOk};
ghost use Rattle.std.specs.String.{string_bytes};
ghost use Rattle.proto_fields.specs.declared.fault.WireFault.{WireFault as Fault};
ghost use Rattle.proto_fields.specs.declared.fault.WireFault.TheVariants.{BadWireType, OutOfMemory};
ghost use Rattle.proto_fields.specs.Field.{wire_type, held_at};
ghost use Rattle.proto_fields.specs.Scalar.{TypeEnum, TypeInt64, TypeUint64, TypeBool, TypeBytes, TypeString};
ghost use Rattle.proto_fields.specs.Scalar.{scalar_in, ScalarFault};

use crate::fault::WireFault;
use crate::field::ContentRef;
use std::alloc::Global;

/// Whether a field holds a number, as an enumeration, an int64, a uint64 and a bool do: [`WireFault::BadWireType`]
/// where it does not.
#[tactic(auto, using(crate::proofs::Scalars::sound_scalars))]
pub fn check_number(content: ContentRef<'_>) -> Result<(), WireFault>
    ensures enumeration { OnOk result ((fault : Fault) → ¬ ScalarFault TypeEnum fault (held_at content.entry)) }
    ensures int64 { OnOk result ((fault : Fault) → ¬ ScalarFault TypeInt64 fault (held_at content.entry)) }
    ensures uint64 { OnOk result ((fault : Fault) → ¬ ScalarFault TypeUint64 fault (held_at content.entry)) }
    ensures bool { OnOk result ((fault : Fault) → ¬ ScalarFault TypeBool fault (held_at content.entry)) }
    ensures fault { IfErr result (λ fault. (fault ≡ BadWireType) × (wire_type (held_at content.entry) ≢ 0)) }
{
    match content {
        ContentRef::Varint(_) => Ok(()),
        _ => Err(WireFault::BadWireType),
    }
}

/// Whether a field holds bytes: [`WireFault::BadWireType`] where it does not.
#[tactic(auto, using(crate::proofs::Scalars::sound_scalars))]
pub fn check_bytes(content: ContentRef<'_>) -> Result<(), WireFault>
    ensures ok { OnOk result ((fault : Fault) → ¬ ScalarFault TypeBytes fault (held_at content.entry)) }
    ensures fault { IfErr result (λ fault. ScalarFault TypeBytes fault (held_at content.entry)) }
{
    match content {
        ContentRef::Bytes(_) => Ok(()),
        _ => Err(WireFault::BadWireType),
    }
}

/// Whether a field holds a string: [`WireFault::BadWireType`] where it does not hold bytes, and [`WireFault::NotUtf8`]
/// where these are not UTF-8.
#[tactic(auto, using(crate::proofs::Scalars::sound_scalars))]
pub fn check_string(content: ContentRef<'_>) -> Result<(), WireFault>
    ensures ok { OnOk result ((fault : Fault) → ¬ ScalarFault TypeString fault (held_at content.entry)) }
    ensures fault { IfErr result (λ fault. ScalarFault TypeString fault (held_at content.entry)) }
{
    let ContentRef::Bytes(bytes) = content else {
        return Err(WireFault::BadWireType);
    };
    match std::str::from_utf8(bytes) {
        Ok(_) => Ok(()),
        Err(_) => Err(WireFault::NotUtf8),
    }
}

/// An enumeration: the low 32 bits of a number as a signed one. The fault is [`WireFault::BadWireType`].
pub fn enum_of(content: ContentRef<'_>) -> Result<i32, WireFault>
    ensures read { IfOk result (λ value. scalar_in TypeEnum (held_at content.entry) ≡ Some value) }
    ensures fault { IfErr result (λ fault. ScalarFault TypeEnum fault (held_at content.entry)) }
{
    match content {
        ContentRef::Varint(number) => Ok(((number % (1 << 32)) as u32).cast_signed()),
        _ => Err(WireFault::BadWireType),
    }
}

/// An int64: a number's 64 bits as a signed one. The fault is [`WireFault::BadWireType`].
pub fn int64_of(content: ContentRef<'_>) -> Result<i64, WireFault>
    ensures read { IfOk result (λ value. scalar_in TypeInt64 (held_at content.entry) ≡ Some value) }
    ensures fault { IfErr result (λ fault. ScalarFault TypeInt64 fault (held_at content.entry)) }
{
    match content {
        ContentRef::Varint(number) => Ok(number.cast_signed()),
        _ => Err(WireFault::BadWireType),
    }
}

/// A uint64: a number of 64 bits, whole. The fault is [`WireFault::BadWireType`].
pub fn uint64_of(content: ContentRef<'_>) -> Result<u64, WireFault>
    ensures read { IfOk result (λ value. scalar_in TypeUint64 (held_at content.entry) ≡ Some value) }
    ensures fault { IfErr result (λ fault. ScalarFault TypeUint64 fault (held_at content.entry)) }
{
    match content {
        ContentRef::Varint(number) => Ok(number),
        _ => Err(WireFault::BadWireType),
    }
}

/// A bool: whether a number is not 0. The fault is [`WireFault::BadWireType`].
pub fn bool_of(content: ContentRef<'_>) -> Result<bool, WireFault>
    ensures read { IfOk result (λ value. scalar_in TypeBool (held_at content.entry) ≡ Some value) }
    ensures fault { IfErr result (λ fault. ScalarFault TypeBool fault (held_at content.entry)) }
{
    match content {
        ContentRef::Varint(number) => Ok(number != 0),
        _ => Err(WireFault::BadWireType),
    }
}

/// The bytes of a field, copied. The faults are [`WireFault::BadWireType`] and [`WireFault::OutOfMemory`].
pub fn bytes_of(alloc: Global, content: ContentRef<'_>) -> Result<Vec<u8>, WireFault>
    ensures read { IfOk result (λ value. scalar_in TypeBytes (held_at content.entry) ≡ Some value.items) }
    ensures fault { IfErr result
        (λ fault. (fault ≡ OutOfMemory) ⊎ ScalarFault TypeBytes fault (held_at content.entry)) }
{
    let ContentRef::Bytes(bytes) = content else {
        return Err(WireFault::BadWireType);
    };
    Ok(Vec::from_slice(alloc, bytes)?)
}

/// The string of a field, copied. The faults are [`WireFault::BadWireType`], [`WireFault::NotUtf8`] and
/// [`WireFault::OutOfMemory`].
pub fn string_of(alloc: Global, content: ContentRef<'_>) -> Result<String, WireFault>
    ensures read { IfOk result (λ value. scalar_in TypeString (held_at content.entry) ≡ Some (string_bytes value)) }
    ensures fault { IfErr result
        (λ fault. (fault ≡ OutOfMemory) ⊎ ScalarFault TypeString fault (held_at content.entry)) }
{
    let ContentRef::Bytes(bytes) = content else {
        return Err(WireFault::BadWireType);
    };
    let Ok(text) = std::str::from_utf8(bytes) else {
        return Err(WireFault::NotUtf8);
    };
    Ok(String::from_str(alloc, text)?)
}
