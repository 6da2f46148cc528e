//! Fields that may stand more than once, taken one at a time: repeated ones, and embedded messages.

ghost use Rattle.std.specs.Prelude.{◌≡◌, ◌⊎◌, ◌++◌, ◌∷◌, [], Some, List, ℕ, IfOk, IfErr, OnOk, map};
ghost use Rattle.std.specs.Option.{option_map};
ghost use Rattle.std.specs.String.{string_bytes};
ghost use Rattle.proto_fields.specs.declared.fault.WireFault.{WireFault as Fault};
ghost use Rattle.proto_fields.specs.declared.fault.WireFault.TheVariants.{OutOfMemory};
ghost use Rattle.proto_fields.specs.Field.{held_at};
ghost use Rattle.proto_fields.specs.Meaning.{bytes_in};
ghost use Rattle.proto_fields.specs.Scalar.{TypeString, scalar_in, ScalarFault};
ghost use Rattle.proto_messages.specs.Descriptor.{Values, EmbeddedFault};
ghost use Rattle.proto_messages.specs.Descriptor.{FieldIsAtFault};
ghost use Rattle.proto_messages.specs.Taking.{nothing, or_nothing, Takes, TakesEmbedded};

use crate::message::{ProtoMessage, check, merge};
use proto_fields::{ContentRef, WireFault, string_of};
use std::alloc::Global;

/// Whether a field holds an embedded message of this kind: [`WireFault::BadWireType`] where it does not hold bytes, and
/// else what [`ProtoMessage::decode`] says of these, but for memory, of which it takes none.
pub fn check_embedded<M: ProtoMessage>(content: ContentRef<'_>) -> Result<(), WireFault>
    ensures ok { OnOk result
        ((fault : Fault) → ¬ EmbeddedFault (FieldIsAtFault M.descriptor) fault (held_at content.entry)) }
    ensures fault { IfErr result
        (λ fault. EmbeddedFault (FieldIsAtFault M.descriptor) fault (held_at content.entry)) }
{
    match content {
        ContentRef::Bytes(embedded) => check::<M>(embedded),
        _ => Err(WireFault::BadWireType),
    }
}

/// Appends the string of a field of repeated strings. Its faults are those of [`string_of`].
pub fn push_string(
    alloc: Global,
    strings: &mut Vec<String>,
    content: ContentRef<'_>,
) -> Result<(), WireFault>
    ensures taken { OnOk result
        ((string : List ℕ) × (scalar_in TypeString (held_at content.entry) ≡ Some string)
        × (map string_bytes strings.new.items ≡ map string_bytes strings.old.items ++ string ∷ [])) }
    ensures fault { IfErr result
        (λ fault. (fault ≡ OutOfMemory) ⊎ ScalarFault TypeString fault (held_at content.entry)) }
{
    let string = string_of(alloc, content)?;
    strings.push(string)?;
    Ok(())
}

/// Takes the embedded message of a field behind what the message has taken.
fn merge_embedded<M: ProtoMessage>(
    alloc: Global,
    message: &mut M,
    content: ContentRef<'_>,
) -> Result<(), WireFault>
    ensures taken { OnOk result (TakesEmbedded (Takes M.descriptor)
        (bytes_in (held_at content.entry)) (M.values message.old) (M.values message.new)) }
    ensures fault { IfErr result
        (λ fault. (fault ≡ OutOfMemory) ⊎ EmbeddedFault (FieldIsAtFault M.descriptor) fault (held_at content.entry)) }
{
    match content {
        ContentRef::Bytes(embedded) => merge(alloc, message, embedded),
        _ => Err(WireFault::BadWireType),
    }
}

/// The embedded message of a field.
fn read_embedded<M: ProtoMessage + Drop>(
    alloc: Global,
    content: ContentRef<'_>,
) -> Result<M, WireFault>
    ensures taken { IfOk result (λ message. TakesEmbedded (Takes M.descriptor)
        (bytes_in (held_at content.entry)) (nothing M.descriptor) (M.values message)) }
    ensures fault { IfErr result
        (λ fault. (fault ≡ OutOfMemory) ⊎ EmbeddedFault (FieldIsAtFault M.descriptor) fault (held_at content.entry)) }
{
    let mut message = M::empty(alloc);
    merge_embedded(alloc, &mut message, content)?;
    Ok(message)
}

/// Merges the embedded message of a field into the one that was given before. The fault is one that stands in the
/// field, or [`WireFault::OutOfMemory`].
pub fn merge_one<M: ProtoMessage + Drop>(
    alloc: Global,
    message: &mut Option<M>,
    content: ContentRef<'_>,
) -> Result<(), WireFault>
    ensures taken { OnOk result
        ((value : Values M.descriptor) × (option_map M.values message.new ≡ Some value)
        × TakesEmbedded (Takes M.descriptor) (bytes_in (held_at content.entry))
        (or_nothing (option_map M.values message.old) (nothing M.descriptor)) value) }
    ensures fault { IfErr result
        (λ fault. (fault ≡ OutOfMemory) ⊎ EmbeddedFault (FieldIsAtFault M.descriptor) fault (held_at content.entry)) }
{
    match message {
        Some(message) => merge_embedded(alloc, message, content),
        None => {
            *message = Some(read_embedded(alloc, content)?);
            Ok(())
        }
    }
}

/// Appends the embedded message of a field of repeated messages. The fault is one that stands in the field, or
/// [`WireFault::OutOfMemory`].
pub fn push_message<M: ProtoMessage + Drop>(
    alloc: Global,
    messages: &mut Vec<M>,
    content: ContentRef<'_>,
) -> Result<(), WireFault>
    ensures taken { OnOk result ((value : Values M.descriptor)
        × (map M.values messages.new.items ≡ map M.values messages.old.items ++ value ∷ [])
        × TakesEmbedded (Takes M.descriptor) (bytes_in (held_at content.entry)) (nothing M.descriptor) value) }
    ensures fault { IfErr result
        (λ fault. (fault ≡ OutOfMemory) ⊎ EmbeddedFault (FieldIsAtFault M.descriptor) fault (held_at content.entry)) }
{
    let message = read_embedded(alloc, content)?;
    messages.push(message)?;
    Ok(())
}
