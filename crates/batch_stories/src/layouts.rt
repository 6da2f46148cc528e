//! Layouts of fields, as words.

use crate::reading::header_of;
use batch_columns::layout_of;
use flatbuf_meta::{Field, Header, MAX_DEPTH};
use std::alloc::Global;
use story_requests::{RequestFault, Response, Words};

fn put_layout(alloc: Global, field: &Field, answer: &mut Response) -> Result<(), RequestFault> {
    let layout = layout_of(&field.ty);
    let shown = format!(in alloc; "{layout:?}")?;
    answer.bytes(shown.as_bytes())
}

// How many fields there are; and of each its layout and those of the fields inside it, on so many levels.
fn put_layouts(
    alloc: Global,
    fields: &[Field],
    levels: usize,
    answer: &mut Response,
) -> Result<(), RequestFault> {
    answer.number(fields.len() as u64)?;
    for field in fields {
        if levels == 0 {
            return Err(RequestFault::BadRequest);
        }
        put_layout(alloc, field, answer)?;
        put_layouts(alloc, &field.children, levels - 1, answer)?;
    }
    Ok(())
}

/// `layouts SCHEMA`: the layouts of its fields.
pub(crate) fn answer_layouts(
    alloc: Global,
    words: &mut Words<'_>,
    answer: &mut Response,
) -> Result<(), RequestFault> {
    match header_of(alloc, words)? {
        Header::Schema(schema) => put_layouts(alloc, &schema.fields, MAX_DEPTH, answer),
        Header::Batch(_) => Err(RequestFault::BadRequest),
    }
}
