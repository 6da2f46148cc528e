//! An identity, read from the text that means it.

ghost use Rattle.std.specs.Prelude.{◌≡◌, ◌*◌, ℕ, List, length, Some, Ok, Err, None, map, option_map, codes, IfOk, IfErr, IfSome, IsSome, IsTrue, MatchResult, IsUtf8};
ghost use Rattle.serde_json.specs.View.{view, items_view};
ghost use Rattle.cluster_identity.specs.declared.fault.IdentityFault.TheVariants.{OutOfMemory};
ghost use Rattle.cluster_identity.specs.declared.file_mark.FileMark.{FileMark as Mark};
ghost use Rattle.cluster_identity.specs.Identities.{HasBytes, Spells, MeansIdentity, TellsIdentity, TellsMark, number_at, text_at, array_at, is_node_count};
ghost use Rattle.cluster_identity.specs.Readings.{ReadsIdentity, ReadsMarks, ReadsText};

use crate::fault::IdentityFault;
use crate::file_mark::FileMark;
use crate::identity::Identity;
use hex::FromHex;
use serde_json::Value;
use std::alloc::{AllocError, Global};
use std::str::from_utf8;

/// The value that a text is.
fn value_of(alloc: Global, text: &[u8]) -> Result<Option<Value>, AllocError>
    ensures read { IfOk result (ReadsText text.now) }
    ensures memory { IfErr result (λ _. IsUtf8 text.now) }
{
    let Ok(text) = from_utf8(text) else {
        return Ok(None);
    };
    match Value::from_str(alloc, text) {
        Ok(value) => Ok(Some(value)),
        Err(error) if error.is_memory() => Err(AllocError),
        Err(_) => Ok(None),
    }
}

/// The whole number at a name of an object.
fn number_at(value: &Value, name: &str) -> Option<u64>
    ensures { result ≡ number_at name.now (view value.now) }
{
    value.get(name).and_then(Value::as_u64)
}

/// The items of the array at a name of an object.
fn array_at<'a>(value: &'a Value, name: &str) -> Option<&'a Vec<Value>>
    ensures { option_map (λ items. items_view items.now.items) result ≡ array_at name.now (view value.now) }
{
    value.get(name).and_then(Value::as_array)
}

/// The bytes that so many lower-case digits spell.
#[tactic(auto, using(crate::proofs::Digits::decoded))]
fn bytes_of<const N: usize, const DIGITS: usize>(digits: &str) -> Option<[u8; N]>
    requires { DIGITS ≡ 2 * N }
    ensures read { IfSome result (Spells digits.now N) }
    ensures only { (bytes : List ℕ) → Spells digits.now N bytes → result ≡ Some bytes }
{
    let bytes = <[u8; N] as FromHex>::from_hex(digits).ok()?;
    let mut spelled = [0; DIGITS];
    hex::encode_to_slice(bytes, &mut spelled).ok()?;
    if digits.as_bytes() == spelled.as_slice() {
        Some(bytes)
    } else {
        None
    }
}

/// The bytes that stand at a name, in so many lower-case digits.
fn bytes_at<const N: usize, const DIGITS: usize>(value: &Value, name: &str) -> Option<[u8; N]>
    requires { DIGITS ≡ 2 * N }
    ensures read { IfSome result (HasBytes (view value.now) name.now N) }
    ensures only { (bytes : List ℕ) → HasBytes (view value.now) name.now N bytes → result ≡ Some bytes }
{
    match value.get(name).and_then(Value::as_str) {
        Some(digits) => bytes_of::<N, DIGITS>(digits),
        None => None,
    }
}

/// The mark that an object tells.
fn mark_of(value: &Value) -> Option<FileMark>
    ensures read { IfSome result (TellsMark (view value.now)) }
    ensures only { (mark : Mark) → TellsMark (view value.now) mark → result ≡ Some mark }
{
    let length = number_at(value, "length")?;
    let digest = bytes_at::<32, 64>(value, "sha256")?;
    Some(FileMark { length, digest })
}

/// The marks that these values tell, in order.
fn marks_of(alloc: Global, values: &[Value]) -> Result<Option<Vec<FileMark>>, AllocError>
    ensures { IfOk result (ReadsMarks (map view values.now)) }
{
    let mut marks = Vec::new(alloc);
    for value in values {
        match mark_of(value) {
            Some(mark) => marks.push(mark)?,
            None => return Ok(None),
        }
    }
    Ok(Some(marks))
}

/// The identity of these parts, where there is a mark for each of so many members.
fn identity_of(members: u64, id: [u8; 16], files: Vec<FileMark>) -> Option<Identity>
    ensures made { IfSome result
        (λ identity. (identity.members ≡ members) × (identity.id ≡ id) × (identity.files.items ≡ files.items)) }
    ensures only { IsTrue (is_node_count members) → length files.items ≡ members → IsSome result }
{
    let identity = Identity::new(id, files)?;
    if u64::from(identity.members) == members {
        Some(identity)
    } else {
        None
    }
}

/// The identity that a value tells.
fn identity_in(alloc: Global, value: &Value) -> Result<Option<Identity>, AllocError>
    ensures { IfOk result (ReadsIdentity (view value.now)) }
{
    let Some(members) = number_at(value, "members") else {
        return Ok(None);
    };
    let Some(id) = bytes_at::<16, 32>(value, "id") else {
        return Ok(None);
    };
    let Some(values) = array_at(value, "files") else {
        return Ok(None);
    };
    match marks_of(alloc, values)? {
        Some(files) => Ok(identity_of(members, id, files)),
        None => Ok(None),
    }
}

/// The identity that a text means.
///
/// The text is a JSON object (RFC 8259) with a whole number `members`, 3 or 5, an `id` of 16 bytes and an array
/// `files` with an object for each member, which has a whole number `length` of 64 bits and a `sha256` of 32 bytes.
/// Bytes are lower-case hexadecimal digits (RFC 4648, section 8). Other members of the objects are passed over, and
/// of two members of one name the last one counts. Such a text means one identity, and that is read. Any other text
/// is [`IdentityFault::NotIdentity`], and no such text is. The only other fault is [`IdentityFault::OutOfMemory`],
/// and only of a text that is UTF-8.
pub fn read_identity(alloc: Global, text: &[u8]) -> Result<Identity, IdentityFault>
    ensures read { IfOk result
        (λ identity. MeansIdentity text.now identity.members identity.id identity.files.items) }
    ensures only { (members : ℕ) (id : List ℕ) (files : List Mark) → MeansIdentity text.now members id files
        → MatchResult result
        (λ identity. (identity.members ≡ members) × (identity.id ≡ id) × (identity.files.items ≡ files))
        (λ fault. fault ≡ OutOfMemory) }
    ensures memory { result ≡ Err OutOfMemory → IsUtf8 text.now }
{
    let value = match value_of(alloc, text) {
        Ok(Some(value)) => value,
        Ok(None) => return Err(IdentityFault::NotIdentity),
        Err(_) => return Err(IdentityFault::OutOfMemory),
    };
    match identity_in(alloc, &value) {
        Ok(Some(identity)) => Ok(identity),
        Ok(None) => Err(IdentityFault::NotIdentity),
        Err(_) => Err(IdentityFault::OutOfMemory),
    }
}
