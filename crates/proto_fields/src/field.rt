//! Fields at the front of some bytes, and bytes that are a list of fields.

ghost use Rattle.std.specs.Prelude.{◌≡◌, ◌<◌, ◌++◌, ◌∷◌, [], List, ℕ, length, Err, IfOk, IfErr, OnOk, IsOkAnd};
ghost use Rattle.proto_fields.specs.declared.fault.WireFault.{WireFault as Fault};
ghost use Rattle.proto_fields.specs.declared.fault.WireFault.TheVariants.{OutOfMemory};
ghost use Rattle.proto_fields.specs.Field.{Field, BeginsWith, FieldFault, FieldsFault, IsFields, IsFaultOf};
ghost use Rattle.proto_fields.specs.Field.{IsUnlessRefused, fields_of, held_of, held_at, field_at};
ghost use Rattle.std.specs.Option.{option_map};
ghost use Rattle.proto_fields.specs.Meaning.{number_in, bytes_in};
ghost use Rattle.proto_fields.specs.Reading.{Gives, held_read, bytes_at, number_of_key, field_read};

use crate::fault::WireFault;
use crate::varint::split_number;
use std::alloc::{AllocError, Global};

/// The greatest field number of Protocol Buffers, 2^29 - 1. The least is 1.
pub const MAX_FIELD_NUMBER: u32 = 536_870_911;

/// What a field holds, by its wire type.
#[derive(Debug, Drop)]
pub enum Content {
    /// Wire type 0: a number of 64 bits.
    Varint(u64),
    /// Wire type 1: eight bytes.
    Eight([u8; 8]),
    /// Wire type 2: a length and that many bytes.
    Bytes(Vec<u8>),
    /// Wire type 5: four bytes.
    Four([u8; 4]),
}

/// What a field holds, its bytes lent from those that it was read from.
#[derive(Clone, Copy, Debug)]
pub enum ContentRef<'a> {
    /// Wire type 0: a number of 64 bits.
    Varint(u64),
    /// Wire type 1: eight bytes.
    Eight([u8; 8]),
    /// Wire type 2: a length and that many bytes.
    Bytes(&'a [u8]),
    /// Wire type 5: four bytes.
    Four([u8; 4]),
}

/// The first `count` bytes and what follows them, or `CutShort` where there are fewer.
#[tactic(auto, unfolding(crate::specs::Reading::bytes_at))]
fn split_bytes(buf: &[u8], count: u64) -> Result<(&[u8], &[u8]), WireFault>
    ensures { Gives (λ x. (x.0.now, x.1.now)) result (bytes_at count buf.now) }
{
    let held = buf.len() as u64;
    if held < count {
        return Err(WireFault::CutShort);
    }
    Ok(buf.split_at(count as usize))
}

/// The first eight bytes and what follows them, or `CutShort` where there are fewer.
#[tactic(auto, unfolding(crate::specs::Reading::bytes_at))]
fn split_eight(buf: &[u8]) -> Result<([u8; 8], &[u8]), WireFault>
    ensures { Gives (λ x. (x.0, x.1.now)) result (bytes_at 8 buf.now) }
{
    match buf.split_first_chunk::<8>() {
        Some((first, rest)) => Ok((*first, rest)),
        None => Err(WireFault::CutShort),
    }
}

/// The first four bytes and what follows them, or `CutShort` where there are fewer.
#[tactic(auto, unfolding(crate::specs::Reading::bytes_at))]
fn split_four(buf: &[u8]) -> Result<([u8; 4], &[u8]), WireFault>
    ensures { Gives (λ x. (x.0, x.1.now)) result (bytes_at 4 buf.now) }
{
    match buf.split_first_chunk::<4>() {
        Some((first, rest)) => Ok((*first, rest)),
        None => Err(WireFault::CutShort),
    }
}

/// What a field of this wire type holds at the front, behind its key, and the bytes after it.
#[tactic(auto, unfolding(crate::specs::Reading::held_read))]
fn split_content(wire_type: u64, buf: &[u8]) -> Result<(ContentRef<'_>, &[u8]), WireFault>
    ensures { Gives (λ x. (held_at x.0, x.1.now)) result (held_read wire_type buf.now) }
{
    match wire_type {
        0 => {
            let (number, rest) = split_number(buf)?;
            Ok((ContentRef::Varint(number), rest))
        }
        1 => {
            let (bytes, rest) = split_eight(buf)?;
            Ok((ContentRef::Eight(bytes), rest))
        }
        2 => {
            let (count, rest) = split_number(buf)?;
            let (bytes, rest) = split_bytes(rest, count)?;
            Ok((ContentRef::Bytes(bytes), rest))
        }
        5 => {
            let (bytes, rest) = split_four(buf)?;
            Ok((ContentRef::Four(bytes), rest))
        }
        _ => Err(WireFault::BadWireType),
    }
}

/// The field number in a key, or `BadKey` where there is no such field.
#[tactic(auto, unfolding(crate::specs::Reading::number_of_key))]
fn number_of(key: u64) -> Result<u32, WireFault>
    ensures { Gives (λ x. x) result (number_of_key key) }
{
    let number = key / 8;
    if number == 0 || number > u64::from(MAX_FIELD_NUMBER) {
        return Err(WireFault::BadKey);
    }
    Ok(number as u32)
}

/// The field at the front and the bytes after it, or the fault that is met first from left to right.
#[tactic(auto, unfolding(crate::specs::Reading::field_read))]
fn split_front(buf: &[u8]) -> Result<(u32, ContentRef<'_>, &[u8]), WireFault>
    ensures { Gives (λ x. (field_at x.0 x.1, x.2.now)) result (field_read buf.now) }
{
    let (key, rest) = split_number(buf)?;
    let number = number_of(key)?;
    let (content, rest) = split_content(key % 8, rest)?;
    Ok((number, content, rest))
}

/// The field at the front, as its number, what it holds and the bytes after it (Protocol Buffers, "Encoding", "Message
/// Structure"). What it holds is lent, and no memory is taken.
///
/// Bytes that do not begin with a field are refused with what is wrong there: [`WireFault::BadVarint`] for a key,
/// number or length past ten bytes or 64 bits, [`WireFault::BadKey`] for a field number of 0 or above
/// [`MAX_FIELD_NUMBER`], [`WireFault::BadWireType`] for wire types 3, 4, 6 and 7, and [`WireFault::CutShort`] where the
/// bytes end inside the field, also where there are none.
pub fn split_field(bytes: &[u8]) -> Result<(u32, ContentRef<'_>, &[u8]), WireFault>
    // What is read stands at the front, and takes at least a byte.
    ensures read { IfOk result (λ x. BeginsWith bytes.now (field_at x.0 x.1) x.2.now) }
    ensures shorter { IfOk result (λ x. length x.2.now < length bytes.now) }

    // What stands at the front is read.
    ensures only { (f : Field) (rest : List ℕ) → BeginsWith bytes.now f rest
        → IsOkAnd result (λ x. (field_at x.0 x.1 ≡ f) × (x.2.now ≡ rest)) }
    ensures fault { IfErr result (λ fault. FieldFault fault bytes.now) }
{
    split_front(bytes)
}

impl<'a> ContentRef<'a> {
    /// The number of a varint, and `None` for another wire type.
    pub fn number(&self) -> Option<u64>
        ensures { result ≡ number_in (held_at self.now) }
    {
        match self {
            ContentRef::Varint(number) => Some(*number),
            _ => None,
        }
    }

    /// The bytes behind a length, still lent, and `None` for another wire type.
    pub fn bytes(&self) -> Option<&'a [u8]>
        ensures { option_map (λ bytes. bytes.now) result ≡ bytes_in (held_at self.now) }
    {
        match self {
            ContentRef::Bytes(bytes) => Some(*bytes),
            _ => None,
        }
    }

    /// The same content with its bytes copied. [`AllocError`] says that memory for them was refused.
    pub fn to_content(&self, alloc: Global) -> Result<Content, AllocError>
        ensures { IfOk result (λ content. held_of content ≡ held_at self.now) }
    {
        Ok(match self {
            ContentRef::Varint(number) => Content::Varint(*number),
            ContentRef::Eight(bytes) => Content::Eight(*bytes),
            ContentRef::Bytes(bytes) => Content::Bytes(Vec::from_slice(alloc, bytes)?),
            ContentRef::Four(bytes) => Content::Four(*bytes),
        })
    }
}

/// All fields, in order: each field's number and what it holds (Protocol Buffers, "Encoding", "Message Structure"). No
/// bytes have none.
///
/// Bytes that are no list of fields are refused with what is wrong behind the fields at their front, as [`split_field`]
/// tells it. The only other refusal is [`WireFault::OutOfMemory`], and only of bytes without a fault.
pub fn read_fields(alloc: Global, bytes: &[u8]) -> Result<Vec<(u32, Content)>, WireFault>
    ensures read { IfOk result (λ fields. IsFields bytes.now (fields_of fields.items)) }
    ensures only { (fields : List Field) → IsFields bytes.now fields
        → IsUnlessRefused (λ v. fields_of v.items) result fields }
    ensures fault { IfErr result (IsFaultOf bytes.now) }
    ensures memory { result ≡ Err OutOfMemory → (fault : Fault) → ¬ FieldsFault fault bytes.now }
{
    match collect_fields(alloc, bytes) {
        Ok(read) => Ok(read),
        Err(_) => Err(fault_of(bytes)),
    }
}

/// The fields of some bytes, in one pass that asks for memory as it goes.
fn collect_fields(alloc: Global, bytes: &[u8]) -> Result<Vec<(u32, Content)>, WireFault>
    ensures read { IfOk result (λ fields. IsFields bytes.now (fields_of fields.items)) }
    ensures fault { IfErr result (IsFaultOf bytes.now) }
{
    let mut fields = Vec::new(alloc);
    let mut rest = bytes;
    while !rest.is_empty() {
        let (number, content, after) = split_field(rest)?;
        push_field(alloc, &mut fields, number, content)?;
        rest = after;
    }
    Ok(fields)
}

/// Whether some bytes are a list of fields. It takes no memory.
fn check_fields(bytes: &[u8]) -> Result<(), WireFault>
    ensures ok { OnOk result ((fault : Fault) → ¬ FieldsFault fault bytes.now) }
    ensures fault { IfErr result (λ fault. FieldsFault fault bytes.now) }
{
    let mut left = bytes;
    while !left.is_empty() {
        let front = split_field(left)?;
        left = front.2;
    }
    Ok(())
}

/// Why no fields could be read: a fault that stands in the bytes, and refused memory only where there is none.
fn fault_of(bytes: &[u8]) -> WireFault
    ensures stands { IsFaultOf bytes.now result }
    ensures memory { result ≡ OutOfMemory → (fault : Fault) → ¬ FieldsFault fault bytes.now }
{
    match check_fields(bytes) {
        Ok(()) => WireFault::OutOfMemory,
        Err(fault) => fault,
    }
}

/// Appends a field with its bytes copied, or `OutOfMemory`.
fn push_field(
    alloc: Global,
    fields: &mut Vec<(u32, Content)>,
    number: u32,
    content: ContentRef<'_>,
) -> Result<(), WireFault>
    ensures ok { OnOk result
        (fields_of fields.new.items ≡ fields_of fields.old.items ++ field_at number content.entry ∷ []) }
    ensures err { IfErr result (λ fault. fault ≡ OutOfMemory) }
{
    let owned = content.to_content(alloc)?;
    fields.push((number, owned))?;
    Ok(())
}
