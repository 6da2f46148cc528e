//! Messages made of numbered fields, read and written one way for all of them.

ghost use Rattle.std.specs.Prelude.{◌≡◌, ◌⊎◌, ◌++◌, List, Err, IfOk, IfErr, OnOk, OnErr};
ghost use Rattle.proto_fields.specs.declared.fault.WireFault.TheVariants.{OutOfMemory};
ghost use Rattle.proto_fields.specs.Field.{Field, IsFields, IsUnlessRefused, field_at};
ghost use Rattle.proto_messages.specs.Descriptor.{Descriptor, Values, IsMessage, TextFault, FieldIsAtFault};
ghost use Rattle.proto_messages.specs.Descriptor.{IsMessageFault, IsFaultless};
ghost use Rattle.proto_messages.specs.Canonical.{RisesFrom, Fits, canonical};
ghost use Rattle.proto_messages.specs.Taking.{nothing, Takes, TakesAll, IsSound};
ghost use Rattle.proto_fields.specs.Writing.{Grows};

use proto_fields::{ContentRef, WireFault, split_field};
use std::alloc::{AllocError, Global};

/// A message that is a list of numbered fields (Protocol Buffers, "Encoding"). Whoever gives its fields one by one,
/// each with a call of one of this crate's functions, has [`ProtoMessage::decode`] and [`ProtoMessage::encode`].
pub trait ProtoMessage {
    /// Its fields, each with its number and its type.
    ghost descriptor: { Descriptor };

    /// What it holds, field by field in the order of the descriptor.
    ghost values: { Self → Values descriptor };

    /// The message that no fields mean, each field with its default.
    fn empty(alloc: Global) -> Self
        ensures { values result ≡ nothing descriptor };

    /// Whether a field may stand in this message: the fault is one that stands in it, and another number is passed
    /// over. It takes no memory.
    fn check_field(number: u32, content: ContentRef<'_>) -> Result<(), WireFault>
        ensures ok { OnOk result (IsSound descriptor (field_at number content.entry)) }
        ensures fault { IfErr result (λ fault. FieldIsAtFault descriptor fault (field_at number content.entry)) };

    /// Takes one field more: the last of a single one counts, a repeated one is added, an embedded message is merged,
    /// and another number is passed over. The fault is one that stands in the field, or [`WireFault::OutOfMemory`].
    fn take(&mut self, alloc: Global, number: u32, content: ContentRef<'_>) -> Result<(), WireFault>
        ensures taken { OnOk result
            (Takes descriptor (field_at number content.entry) (values self.old) (values self.new)) }
        ensures fault { IfErr result (λ fault.
            (fault ≡ OutOfMemory) ⊎ FieldIsAtFault descriptor fault (field_at number content.entry)) };

    /// Appends its canonical encoding. Where memory is refused, a beginning of it may stay.
    fn append(&self, out: &mut Vec<u8>) -> Result<(), AllocError>
        ensures ok { OnOk result (out.new.items ≡ out.old.items ++ canonical descriptor (values self.now)) }
        ensures err { OnErr result (Grows out.old.items out.new.items) }
        ensures fits { OnOk result (Fits descriptor (values self.now)) };

    /// The fields stand by rising numbers.
    ghost rises: { RisesFrom 0 descriptor };

    /// The message that bytes mean, with its own copies of them.
    ///
    /// Bytes that mean none are refused with a fault that stands in them: those of [`proto_fields::read_fields`],
    /// [`WireFault::BadWireType`] for a field of this message with another wire type, and [`WireFault::NotUtf8`] for a
    /// string that is not UTF-8. Fields that the message does not have are passed over. The only other refusal is
    /// [`WireFault::OutOfMemory`], and only of bytes without a fault.
    final fn decode(alloc: Global, bytes: &[u8]) -> Result<Self, WireFault>
    where
        Self: Sized + Drop,
        ensures read { IfOk result (λ m. IsMessage descriptor bytes.now (values m)) }
        ensures only { (v : Values descriptor) → IsMessage descriptor bytes.now v → IsUnlessRefused values result v }
        ensures fault { IfErr result (IsMessageFault descriptor bytes.now) }
        ensures memory { result ≡ Err OutOfMemory → IsFaultless descriptor bytes.now }
    {
        read::<Self>(alloc, bytes)
    }

    /// Appends the canonical encoding: fields by rising numbers, the shortest varints, defaults left out. It is read
    /// back as this message. The only fault is [`WireFault::OutOfMemory`], and the vector then holds what it did
    /// before.
    final fn encode(&self, out: &mut Vec<u8>) -> Result<(), WireFault>
    where
        Self: Sized,
        ensures ok { OnOk result (out.new.items ≡ out.old.items ++ canonical descriptor (values self.now)) }
        ensures means { OnOk result (IsMessage descriptor (canonical descriptor (values self.now)) (values self.now)) }
        ensures err { OnErr result (out.new.items ≡ out.old.items) }
        ensures fault { IfErr result (λ fault. fault ≡ OutOfMemory) }
    {
        write::<Self>(self, out)
    }
}

/// Whether the fields of some bytes may stand in such a message. It takes no memory.
pub(crate) fn check<M: ProtoMessage>(bytes: &[u8]) -> Result<(), WireFault>
    ensures ok { OnOk result (IsFaultless M.descriptor bytes.now) }
    ensures fault { IfErr result (λ fault. TextFault (FieldIsAtFault M.descriptor) fault bytes.now) }
{
    let mut left = bytes;
    while !left.is_empty() {
        let (number, content, after) = split_field(left)?;
        M::check_field(number, content)?;
        left = after;
    }
    Ok(())
}

/// Takes the fields of some bytes behind those that the message has taken.
pub(crate) fn merge<M: ProtoMessage>(
    alloc: Global,
    message: &mut M,
    bytes: &[u8],
) -> Result<(), WireFault>
    ensures merged { OnOk result ((fields : List Field) × IsFields bytes.now fields
        × TakesAll (Takes M.descriptor) fields (M.values message.old) (M.values message.new)) }
    ensures fault { IfErr result (IsMessageFault M.descriptor bytes.now) }
{
    let mut rest = bytes;
    while !rest.is_empty() {
        let (number, content, after) = split_field(rest)?;
        message.take(alloc, number, content)?;
        rest = after;
    }
    Ok(())
}

/// Why bytes could not be read as such a message: a fault that stands in them, and refused memory only where there is
/// none.
fn fault_of<M: ProtoMessage>(bytes: &[u8]) -> WireFault
    ensures stands { IsMessageFault M.descriptor bytes.now result }
    ensures memory { result ≡ OutOfMemory → IsFaultless M.descriptor bytes.now }
{
    match check::<M>(bytes) {
        Ok(()) => WireFault::OutOfMemory,
        Err(fault) => fault,
    }
}

/// The message that bytes mean. They are read once, and looked at again only where they could not be read.
fn read<M: ProtoMessage + Drop>(alloc: Global, bytes: &[u8]) -> Result<M, WireFault>
    ensures read { IfOk result (λ m. IsMessage M.descriptor bytes.now (M.values m)) }
    ensures only { (v : Values M.descriptor) → IsMessage M.descriptor bytes.now v → IsUnlessRefused M.values result v }
    ensures fault { IfErr result (IsMessageFault M.descriptor bytes.now) }
    ensures memory { result ≡ Err OutOfMemory → IsFaultless M.descriptor bytes.now }
{
    let mut message = M::empty(alloc);
    match merge(alloc, &mut message, bytes) {
        Ok(()) => Ok(message),
        Err(_) => Err(fault_of::<M>(bytes)),
    }
}

/// Appends the canonical encoding of a message, or nothing where memory is refused.
fn write<M: ProtoMessage>(message: &M, out: &mut Vec<u8>) -> Result<(), WireFault>
    ensures ok { OnOk result (out.new.items ≡ out.old.items ++ canonical M.descriptor (M.values message.now)) }
    ensures means { OnOk result
        (IsMessage M.descriptor (canonical M.descriptor (M.values message.now)) (M.values message.now)) }
    ensures err { OnErr result (out.new.items ≡ out.old.items) }
    ensures fault { IfErr result (λ fault. fault ≡ OutOfMemory) }
{
    let start = out.len();
    match message.append(out) {
        Ok(()) => Ok(()),
        Err(_) => {
            out.truncate(start);
            Err(WireFault::OutOfMemory)
        }
    }
}
