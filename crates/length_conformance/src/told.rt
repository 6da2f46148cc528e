//! What is told of a header and a body, and what is written of the batch that they lay out.

use batch_checking::check_batch;
use batch_lengths::canonical_length;
use header_types::{BatchHead, Field, Schema, Ty};
use record_batches::{body_length, read_batch, read_batch_within, write_body};
use std::alloc::{AllocError, Global};

/// A field of this type with these inside it.
pub(crate) fn field(alloc: Global, ty: Ty, children: Vec<Field>) -> Field {
    Field {
        name: String::new(alloc),
        nullable: true,
        ty,
        children,
        metadata: Vec::new(alloc),
    }
}

/// A field of this type with that one inside it.
pub(crate) fn around(alloc: Global, ty: Ty, inside: Field) -> Result<Field, AllocError> {
    let mut children = Vec::new(alloc);
    children.push(inside)?;
    Ok(field(alloc, ty, children))
}

/// A field without any inside it.
pub(crate) fn plain(alloc: Global, ty: Ty) -> Field {
    field(alloc, ty, Vec::new(alloc))
}

/// A table of these fields.
pub(crate) fn table(alloc: Global, fields: Vec<Field>) -> Schema {
    Schema {
        fields,
        metadata: Vec::new(alloc),
    }
}

/// What is told where so many bytes may be; `None` also where no batch is laid out.
pub(crate) fn told(schema: &Schema, head: &BatchHead, body: &[u8], most: u64) -> Option<u64> {
    if !schema.in_profile() {
        return None;
    }
    match check_batch(schema, head, body) {
        Ok(()) => canonical_length(schema, head, body, most),
        Err(_) => None,
    }
}

/// How many bytes are written of the batch that is read; `None` where none is laid out, or where it says another length
/// itself.
pub(crate) fn written(
    alloc: Global,
    schema: &Schema,
    head: &BatchHead,
    body: &[u8],
) -> Result<Option<u64>, AllocError> {
    if !schema.in_profile() {
        return Ok(None);
    }
    let Ok(batch) = read_batch(alloc, schema, head, body) else {
        return Ok(None);
    };
    let (_, text) = write_body(alloc, schema, &batch)?;
    let length = text.len() as u64;
    if body_length(&batch) == Some(length) {
        Ok(Some(length))
    } else {
        Ok(None)
    }
}

/// Whether the batch is built where its body may have so many bytes, which it has, and not where it may have one less.
fn is_built_within(
    alloc: Global,
    schema: &Schema,
    head: &BatchHead,
    body: &[u8],
    length: u64,
) -> bool {
    if !schema.in_profile() {
        return false;
    }
    let built = read_batch_within(alloc, schema, head, body, length);
    let less = read_batch_within(alloc, schema, head, body, length.saturating_sub(1));
    matches!(built, Ok(Some(_))) && (length == 0 || matches!(less, Ok(None)))
}

/// Whether a batch is laid out, and just as many bytes are told as are written: where there may be any number, as many, and
/// one less; and it is built where there may be as many.
pub(crate) fn is_told(
    alloc: Global,
    schema: &Schema,
    head: &BatchHead,
    body: &[u8],
) -> Result<bool, AllocError> {
    let Some(length) = written(alloc, schema, head, body)? else {
        return Ok(false);
    };
    let is_less_told = length > 0 && told(schema, head, body, length - 1).is_some();
    Ok(
        told(schema, head, body, u64::MAX) == Some(length)
            && told(schema, head, body, length) == Some(length)
            && !is_less_told
            && is_built_within(alloc, schema, head, body, length),
    )
}
