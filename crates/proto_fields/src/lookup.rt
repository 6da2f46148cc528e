//! What the fields of one number mean, found in the bytes with no memory taken (Protocol Buffers, "Encoding", "Last One
//! Wins"). A message that is a list of fields is read by a look-up for each of its numbers.

ghost use Rattle.std.specs.Prelude.{◌≡◌, ◌≢◌, ◌⊎◌, ◌==◌, if◌then◌else◌, ℕ, List, [], Some, Err, IsOk, IfOk, IfErr};
ghost use Rattle.std.specs.Option.{option_map};
ghost use Rattle.proto_fields.specs.declared.fault.WireFault.TheVariants.{OutOfMemory};
ghost use Rattle.proto_fields.specs.Field.{Field, IsFields, held_at};
ghost use Rattle.proto_fields.specs.Meaning.{number_in, bytes_in, number_meant, bytes_meant, after};
ghost use Rattle.proto_fields.specs.Lookup.{TextMeans, LookupFault, Tells, TellsUnlessRefused, StandsBefore};

use crate::fault::WireFault;
use crate::field::{ContentRef, split_field};
use bytes::Bytes;
use std::alloc::AllocError;

/// What is meant after one field more: its number, where it has the wanted one.
fn number_after(
    meant: Option<u64>,
    wanted: u32,
    number: u32,
    content: ContentRef<'_>,
) -> Option<u64>
    ensures { result ≡ (if number == wanted then after meant (number_in (held_at content.entry)) else meant) }
{
    if number != wanted {
        return meant;
    }
    meant.and(content.number())
}

/// What the fields of the wanted number mean as bytes after one field more, as [`split_field`] gives it: its bytes,
/// where it has that number. Before the first field, no bytes are meant, and once one of them is of another wire type,
/// nothing is.
pub fn bytes_after<'a>(
    meant: Option<&'a [u8]>,
    wanted: u32,
    number: u32,
    content: ContentRef<'a>,
) -> Option<&'a [u8]>
    ensures { option_map (λ bytes. bytes.now) result
        ≡ (if number == wanted then after (option_map (λ bytes. bytes.now) meant.entry) (bytes_in (held_at content.entry))
        else option_map (λ bytes. bytes.now) meant.entry) }
{
    if number != wanted {
        return meant;
    }
    meant.and(content.bytes())
}

/// What the fields of this number mean as a number of 64 bits: the last one, and 0 where there is none.
///
/// [`WireFault::BadWireType`] says that a field of the number holds something else, and any fault that
/// [`split_field`] tells says that the bytes are no list of fields.
pub fn number_at(bytes: &[u8], number: u32) -> Result<u64, WireFault>
    ensures read { IfOk result (TextMeans (number_meant number) bytes.now) }
    ensures only { (fields : List Field) → IsFields bytes.now fields → Tells (λ n. n) result (number_meant number fields) }
    ensures fault { IfErr result (λ fault. LookupFault (number_meant number) fault bytes.now) }
{
    let mut meant = Some(0);
    let mut rest = bytes;
    while !rest.is_empty() {
        let (found, content, after) = split_field(rest)?;
        meant = number_after(meant, number, found, content);
        rest = after;
    }
    match meant {
        Some(last) => Ok(last),
        None => Err(WireFault::BadWireType),
    }
}

/// What follows the last field of the number after one field more.
fn behind_after<'a>(behind: &'a [u8], wanted: u32, number: u32, after: &'a [u8]) -> &'a [u8]
    ensures { result.now ≡ (if number == wanted then after.now else behind.now) }
{
    if number != wanted {
        return behind;
    }
    after
}

/// What the fields of this number mean as bytes, and what follows these. Where there is no such field, no bytes are
/// behind the whole.
fn last_bytes<'a>(bytes: &'a [u8], number: u32) -> Result<(&'a [u8], &'a [u8]), WireFault>
    ensures read { IfOk result (λ last. TextMeans (bytes_meant number) bytes.now last.0.now) }
    ensures place { IfOk result (λ last. StandsBefore bytes.now (Some last.0.now) last.1.now) }
    ensures only { (fields : List Field) → IsFields bytes.now fields
        → Tells (λ last. last.0.now) result (bytes_meant number fields) }
    ensures fault { IfErr result (λ fault. LookupFault (bytes_meant number) fault bytes.now) }
{
    let mut meant: Option<&'a [u8]> = Some(&[]);
    let mut behind: &'a [u8] = &[];
    let mut rest = bytes;
    while !rest.is_empty() {
        let (found, content, after) = split_field(rest)?;
        meant = bytes_after(meant, number, found, content);
        behind = behind_after(behind, number, found, after);
        rest = after;
    }
    match meant {
        Some(last) => Ok((last, behind)),
        None => Err(WireFault::BadWireType),
    }
}

/// What the fields of this number mean as bytes: the last ones, lent from those that are handed in, and none where
/// there is no such field.
///
/// [`WireFault::BadWireType`] says that a field of the number holds something else, and any fault that
/// [`split_field`] tells says that the bytes are no list of fields.
pub fn bytes_at<'a>(bytes: &'a [u8], number: u32) -> Result<&'a [u8], WireFault>
    ensures read { IfOk result (λ last. TextMeans (bytes_meant number) bytes.now last.now) }
    ensures only { (fields : List Field) → IsFields bytes.now fields
        → Tells (λ last. last.now) result (bytes_meant number fields) }
    ensures fault { IfErr result (λ fault. LookupFault (bytes_meant number) fault bytes.now) }
{
    match last_bytes(bytes, number) {
        Ok((last, _)) => Ok(last),
        Err(fault) => Err(fault),
    }
}

/// A further owner of the bytes that stand before others at the end of these. No byte is copied.
fn shared_before(bytes: &Bytes, content: &[u8], behind: &[u8]) -> Result<Bytes, AllocError>
    requires { StandsBefore bytes.now (Some content.now) behind.now }
    ensures ok { IfOk result (λ shared. shared ≡ content.now) }
    ensures empty { content.now ≡ [] → IsOk result }
{
    let end = bytes.len() - behind.len();
    bytes.slice(end - content.len()..end)
}

/// What [`bytes_at`] gives, as a further owner of the bytes that are handed in: no byte is copied.
///
/// Its faults are those of [`bytes_at`] and [`WireFault::OutOfMemory`], which says that a further owner was refused
/// where such a field holds bytes, and some of them: for none no owner is needed.
pub fn shared_bytes_at(bytes: &Bytes, number: u32) -> Result<Bytes, WireFault>
    ensures read { IfOk result (λ last. TextMeans (bytes_meant number) bytes.now last) }
    ensures only { (fields : List Field) → IsFields bytes.now fields
        → TellsUnlessRefused result (bytes_meant number fields) }
    ensures fault { IfErr result
        (λ fault. (fault ≡ OutOfMemory) ⊎ LookupFault (bytes_meant number) fault bytes.now) }
    ensures memory { result ≡ Err OutOfMemory
        → (last : List ℕ) × (last ≢ []) × TextMeans (bytes_meant number) bytes.now last }
{
    let (last, behind) = last_bytes(bytes.as_slice(), number)?;
    match shared_before(bytes, last, behind) {
        Ok(shared) => Ok(shared),
        Err(_) => Err(WireFault::OutOfMemory),
    }
}
