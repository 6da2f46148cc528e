//! The parts of an upload's encoding, found in bytes that are known to be one (Protocol Buffers, "Encoding"). No memory
//! is taken.

ghost use Rattle.std.specs.Prelude.{◌≡◌, ℕ, List};
ghost use Rattle.table_types.specs.Uploads.{Upload, upload_text};
ghost use Rattle.table_types.specs.Valid.{IsUpload};
ghost use Rattle.table_types.specs.Texts.{IsUploadText};
ghost use Rattle.uploads.specs.Parts.{PartThen, HasParts, IsEncodedBatch, batch_text};

use proto_fields::laws::canonical_fields_are_fields;
use proto_fields::split_field;

/// The parts of an upload's encoding.
#[derive(Clone, Copy)]
pub struct Parts<'a> {
    /// The name of its table.
    pub table: &'a [u8],
    /// Its id.
    pub id: &'a [u8],
    /// The message with its schema.
    pub schema: &'a [u8],
    /// The fields with its batches.
    pub batches: &'a [u8],
}

/// The bytes of the field at the front, which stands there in its one encoding, and what follows it.
pub(crate) fn split_part(bytes: &[u8]) -> (&[u8], &[u8])
    requires { (number : ℕ) × (content rest : List ℕ) × PartThen number bytes.now content rest }
    ensures { (number : ℕ) (content rest : List ℕ) → PartThen number bytes.now content rest
        → (result.0.now ≡ content) × (result.1.now ≡ rest) }
{
    canonical_fields_are_fields();
    match split_field(bytes) {
        Ok((_, content, rest)) => match content.bytes() {
            Some(content) => (content, rest),
            None => unreachable!(),
        },
        Err(_) => unreachable!(),
    }
}

/// The parts of an upload's encoding.
pub fn parts_of(text: &[u8]) -> Parts<'_>
    requires { IsUploadText text.now }
    ensures { (upload : Upload) → IsUpload upload → upload_text upload ≡ text.now
        → HasParts text.now result.table.now result.id.now result.schema.now result.batches.now upload }
{
    let (table, rest) = split_part(text);
    let (id, rest) = split_part(rest);
    let (schema, batches) = split_part(rest);
    Parts {
        table,
        id,
        schema,
        batches,
    }
}

/// The header and the body of an encoded batch. A body of no bytes has no field.
pub(crate) fn split_batch(batch: &[u8]) -> (&[u8], &[u8])
    requires { (parts : List ℕ × List ℕ) × IsEncodedBatch parts × (batch.now ≡ batch_text parts) }
    ensures { (parts : List ℕ × List ℕ) → IsEncodedBatch parts → batch.now ≡ batch_text parts
        → (result.0.now ≡ parts.0) × (result.1.now ≡ parts.1) }
{
    let (header, rest) = split_part(batch);
    if rest.is_empty() {
        return (header, &[]);
    }
    let (body, _) = split_part(rest);
    (header, body)
}
