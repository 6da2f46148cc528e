//! Schemas from words, also such as can't be written: how many entries of metadata there are, each of a key and a value
//! of one letter, and then fields.
//!
//! Fields are put on a pile, one after the other, and their number comes first. A field is the bytes of a message with
//! a schema of one field, whose name, type and nullability it has, or no bytes and `binary` or `list` with the size of a
//! FixedSizeBinary or a FixedSizeList, which may be below zero; how many letters its name has beside; how many entries
//! of metadata it has; and how many fields it takes from the pile, the topmost as its first.

use crate::headers::put_schema;
use flatbuf_meta::{Field, Header, Schema, Ty, read_message};
use std::alloc::{AllocError, Global};
use story_requests::{RequestFault, Response, Words};

// The one field of a schema.
fn only_field(schema: Schema) -> Result<Field, RequestFault> {
    let mut fields = schema.fields;
    match fields.pop() {
        Some(field) => Ok(field),
        None => Err(RequestFault::BadRequest),
    }
}

fn field_in(alloc: Global, message: &[u8]) -> Result<Field, RequestFault> {
    match read_message(alloc, message) {
        Ok(Header::Schema(schema)) => only_field(schema),
        _ => Err(RequestFault::BadRequest),
    }
}

fn type_of_size(name: &str, size: i32) -> Ty {
    if name == "list" {
        Ty::FixedSizeList { list_size: size }
    } else {
        Ty::FixedSizeBinary { byte_width: size }
    }
}

// A field of a type with this size.
fn sized_field(alloc: Global, name: &str, size: &str) -> Result<Field, RequestFault> {
    match size.parse::<i32>() {
        Ok(size) => Ok(Field {
            name: String::new(alloc),
            nullable: false,
            ty: type_of_size(name, size),
            children: Vec::new(alloc),
            metadata: Vec::new(alloc),
        }),
        Err(_) => Err(RequestFault::BadRequest),
    }
}

fn begun(alloc: Global, words: &mut Words<'_>) -> Result<Field, RequestFault> {
    let message = words.bytes(alloc)?;
    if message.is_empty() {
        let name = words.next();
        return sized_field(alloc, name, words.next());
    }
    field_in(alloc, &message)
}

fn push_letters(name: &mut String, count: u64) -> Result<(), AllocError> {
    for _ in 0..count {
        name.push('n')?;
    }
    Ok(())
}

fn entry(alloc: Global) -> Result<(String, String), AllocError> {
    let key = String::from_str(alloc, "k")?;
    let value = String::from_str(alloc, "v")?;
    Ok((key, value))
}

fn put_entries(
    alloc: Global,
    entries: &mut Vec<(String, String)>,
    count: u64,
) -> Result<(), AllocError> {
    for _ in 0..count {
        entries.push(entry(alloc)?)?;
    }
    Ok(())
}

// A field without those inside it.
fn bare_field(alloc: Global, words: &mut Words<'_>) -> Result<Field, RequestFault> {
    let mut field = begun(alloc, words)?;
    push_letters(&mut field.name, words.number()?)?;
    put_entries(alloc, &mut field.metadata, words.number()?)?;
    Ok(field)
}

fn put_field(pile: &mut Vec<Field>, field: Field) -> Result<(), AllocError> {
    pile.push(field)?;
    Ok(())
}

// Takes the topmost field from the pile.
fn top(pile: &mut Vec<Field>) -> Result<Field, RequestFault> {
    match pile.pop() {
        Some(field) => Ok(field),
        None => Err(RequestFault::BadRequest),
    }
}

// Takes so many fields from the pile.
fn taken(alloc: Global, pile: &mut Vec<Field>, count: u64) -> Result<Vec<Field>, RequestFault> {
    let mut taken = Vec::new(alloc);
    for _ in 0..count {
        put_field(&mut taken, top(pile)?)?;
    }
    Ok(taken)
}

// Puts the next field on the pile, and into it those that it has from there.
fn put_next(
    alloc: Global,
    words: &mut Words<'_>,
    pile: &mut Vec<Field>,
) -> Result<(), RequestFault> {
    let mut field = bare_field(alloc, words)?;
    field.children = taken(alloc, pile, words.number()?)?;
    Ok(put_field(pile, field)?)
}

fn fields_of(alloc: Global, words: &mut Words<'_>) -> Result<Vec<Field>, RequestFault> {
    let mut pile = Vec::new(alloc);
    for _ in 0..words.number()? {
        put_next(alloc, words, &mut pile)?;
    }
    Ok(pile)
}

fn schema_of(alloc: Global, words: &mut Words<'_>) -> Result<Schema, RequestFault> {
    let mut metadata = Vec::new(alloc);
    put_entries(alloc, &mut metadata, words.number()?)?;
    let fields = fields_of(alloc, words)?;
    Ok(Schema { fields, metadata })
}

// Whether the schema is read of the text.
fn is_read(alloc: Global, text: &[u8], schema: Schema) -> bool {
    match read_message(alloc, text) {
        Ok(header) => header == Header::Schema(schema),
        Err(_) => false,
    }
}

fn answer_of_profile(
    alloc: Global,
    schema: Schema,
    answer: &mut Response,
) -> Result<(), RequestFault> {
    let mut text = Vec::new(alloc);
    put_schema(&schema, &mut text)?;
    answer.word(if is_read(alloc, &text, schema) {
        "same"
    } else {
        "other"
    })
}

/// `profile SCHEMA`: `outside` where the schema can't be written; else whether the `same` is read of what is written,
/// or some `other` one.
pub(crate) fn answer_profile(
    alloc: Global,
    words: &mut Words<'_>,
    answer: &mut Response,
) -> Result<(), RequestFault> {
    let schema = schema_of(alloc, words)?;
    if schema.in_profile() {
        return answer_of_profile(alloc, schema, answer);
    }
    answer.word("outside")
}

/// `written SCHEMA`: the bytes of the schema's message.
pub(crate) fn answer_written(
    alloc: Global,
    words: &mut Words<'_>,
    answer: &mut Response,
) -> Result<(), RequestFault> {
    let schema = schema_of(alloc, words)?;
    let mut text = Vec::new(alloc);
    put_schema(&schema, &mut text)?;
    answer.bytes(&text)
}

/// `shapes SCHEMA SCHEMA`: whether both have the `same` shape, or the second another one, `other`.
pub(crate) fn answer_shapes(
    alloc: Global,
    words: &mut Words<'_>,
    answer: &mut Response,
) -> Result<(), RequestFault> {
    let one = schema_of(alloc, words)?;
    let other = schema_of(alloc, words)?;
    answer.word(if one.same_shape(&other) {
        "same"
    } else {
        "other"
    })
}
