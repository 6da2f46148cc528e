//! The fields of an upload found at the front of bytes that nobody has checked, each in its one encoding (Protocol
//! Buffers, "Encoding"). No memory is taken.

ghost use Rattle.std.specs.Prelude.{◌≡◌, ◌≢◌, ◌≤◌, ◌<◌, ◌+◌, ◌^◌, ◌++◌, ℕ, List, length, Some, IfSome, IfNone, IsTrue, false};
ghost use Rattle.std.specs.Option.{option_map};
ghost use Rattle.std.specs.List.{AllByRecursion};
ghost use Rattle.table_types.specs.Valid.{upload_limit};
ghost use Rattle.table_types.specs.Texts.{IsUploadText};
ghost use Rattle.proto_fields.specs.Field.{IsFieldNumber, field_text};
ghost use Rattle.proto_messages.specs.Canonical.{bytes_field};
ghost use Rattle.uploads.specs.Parts.{PartThen, HasLeft, IsEncodedBatch, batch_text, body_text};
ghost use Rattle.uploads.specs.Found.{HasUploadParts, AreServed, IsNext, BeginsNamed, HasUploadFields};

use crate::lengths::fits_frame;
use crate::limits::{MAX_UPLOAD_BATCHES, UPLOAD_ID_BYTES};
use crate::parts::Parts;
use ballots::MAX_UPLOAD_BYTES;
use proto_fields::laws::canonical_fields_are_fields;
use proto_fields::split_field;
use proto_messages::strip_bytes;
use table_types::is_table_name;

/// The bytes of the field at the front, where it holds bytes.
fn front_bytes(bytes: &[u8]) -> Option<&[u8]>
    ensures { (number : ℕ) (content rest : List ℕ) → PartThen number bytes.now content rest
        → option_map (λ found. found.now) result ≡ Some content }
{
    canonical_fields_are_fields();
    match split_field(bytes) {
        Ok((_, content, _)) => content.bytes(),
        Err(_) => None,
    }
}

/// The bytes of the field of this number at the front, and what follows it, or `None` where no field with bytes stands
/// there in its one encoding.
fn take_part(bytes: &[u8], number: u32) -> Option<(&[u8], &[u8])>
    requires number { IsFieldNumber number }
    requires short { length bytes.now ≤ upload_limit }
    ensures some { IfSome result
        (λ found. PartThen number bytes.now found.0.now found.1.now × (1 ≤ length found.0.now)) }
    ensures only { IfSome result (λ found. (content rest : List ℕ) → PartThen number bytes.now content rest
        → (found.0.now ≡ content) × (found.1.now ≡ rest)) }
    ensures none { IfNone result ((content rest : List ℕ) → 1 ≤ length content
        → ¬ PartThen number bytes.now content rest) }
{
    let content = front_bytes(bytes)?;
    if content.is_empty() {
        return None;
    }
    let rest = strip_bytes(bytes, number, content)?;
    Some((content, rest))
}

/// The body behind the header of an encoded batch, which is empty where nothing stands there, or `None` where something
/// else does.
fn take_body(rest: &[u8]) -> Option<&[u8]>
    requires short { length rest.now ≤ upload_limit }
    ensures some { IfSome result (λ body. rest.now ≡ body_text body.now) }
    ensures only { IfSome result (λ body. (other : List ℕ) → length other < 2 ^ 64 → rest.now ≡ body_text other
        → body.now ≡ other) }
    ensures none { IfNone result ((body : List ℕ) → length body < 2 ^ 64 → rest.now ≢ body_text body) }
{
    if rest.is_empty() {
        return Some(&[]);
    }
    let (body, behind) = take_part(rest, 2)?;
    if behind.is_empty() { Some(body) } else { None }
}

/// The header and the body of an encoded batch, or `None` where the bytes are none.
fn take_batch(batch: &[u8]) -> Option<(&[u8], &[u8])>
    requires short { length batch.now ≤ upload_limit }
    ensures some { IfSome result (λ found. IsEncodedBatch (found.0.now, found.1.now)
        × (batch.now ≡ batch_text (found.0.now, found.1.now))) }
    ensures only { IfSome result (λ found. (parts : List ℕ × List ℕ) → IsEncodedBatch parts
        → batch.now ≡ batch_text parts → (found.0.now ≡ parts.0) × (found.1.now ≡ parts.1)) }
    ensures none { IfNone result ((parts : List ℕ × List ℕ) → IsEncodedBatch parts → batch.now ≢ batch_text parts) }
{
    let (header, rest) = take_part(batch, 1)?;
    let body = take_body(rest)?;
    Some((header, body))
}

/// What follows the encoded batch at the front, which a frame has room for with the upload's id, or `None` where no
/// such batch stands there.
fn take_next<'a>(rest: &'a [u8], id: &[u8]) -> Option<&'a [u8]>
    requires short { length rest.now ≤ upload_limit }
    ensures some { IfSome result (λ behind. (parts : List ℕ × List ℕ) × IsNext id.now rest.now parts behind.now) }
    ensures only { IfSome result (λ behind. (parts : List ℕ × List ℕ) (left : List ℕ)
        → IsNext id.now rest.now parts left → behind.now ≡ left) }
    ensures none { IfNone result ((parts : List ℕ × List ℕ) (left : List ℕ) → ¬ IsNext id.now rest.now parts left) }
{
    let (batch, behind) = take_part(rest, 4)?;
    let (header, body) = take_batch(batch)?;
    if !fits_frame(header.len() as u64, id.len() as u64, body.len() as u64) {
        return None;
    }
    Some(behind)
}

/// Whether the bytes are encoded batches, not too many, of which each is served in a frame.
fn are_batches(batches: &[u8], id: &[u8]) -> bool
    requires short { length batches.now ≤ upload_limit }
    ensures yes { IsTrue result → (list : List (List ℕ × List ℕ)) × HasLeft batches.now list × AreServed id.now list }
    ensures no { result ≡ false → (list : List (List ℕ × List ℕ)) → HasLeft batches.now list → ¬ AreServed id.now list }
{
    let mut rest = batches;
    let mut count = 0;
    while !rest.is_empty() {
        if count == MAX_UPLOAD_BATCHES {
            return false;
        }
        let Some(behind) = take_next(rest, id) else {
            return false;
        };
        rest = behind;
        count += 1;
    }
    true
}

/// The table's name, the upload's own, and what follows them, where the bytes begin with such.
fn take_names(text: &[u8]) -> Option<(&[u8], &[u8], &[u8])>
    requires short { length text.now ≤ upload_limit }
    ensures some { IfSome result (λ found. BeginsNamed text.now found.0.now found.1.now found.2.now) }
    ensures only { IfSome result (λ found. (table id rest : List ℕ) → BeginsNamed text.now table id rest
        → (found.0.now ≡ table) × (found.1.now ≡ id) × (found.2.now ≡ rest)) }
    ensures none { IfNone result ((table id rest : List ℕ) → ¬ BeginsNamed text.now table id rest) }
{
    let (table, rest) = take_part(text, 1)?;
    let (id, rest) = take_part(rest, 2)?;
    if !is_table_name(table) || id.len() != UPLOAD_ID_BYTES {
        return None;
    }
    Some((table, id, rest))
}

/// The parts of a text that has the fields of an upload, or `None` where it has not.
pub(crate) fn find_parts(text: &[u8]) -> Option<Parts<'_>>
    ensures some { IfSome result (λ parts.
        HasUploadParts text.now parts.table.now parts.id.now parts.schema.now parts.batches.now) }
    ensures only { IfSome result (λ parts. (table id schema batches : List ℕ) → HasUploadParts text.now table id schema batches
        → (parts.table.now ≡ table) × (parts.id.now ≡ id) × (parts.schema.now ≡ schema) × (parts.batches.now ≡ batches)) }
    ensures none { IfNone result (¬ HasUploadFields text.now) }
{
    if text.len() > MAX_UPLOAD_BYTES {
        return None;
    }
    let (table, id, rest) = take_names(text)?;
    let (schema, batches) = take_part(rest, 3)?;
    if !fits_frame(schema.len() as u64, 0, 0) {
        return None;
    }
    if !are_batches(batches, id) {
        return None;
    }
    Some(Parts {
        table,
        id,
        schema,
        batches,
    })
}
