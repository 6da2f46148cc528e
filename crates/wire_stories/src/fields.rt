//! Numbered fields, read and written (Protocol Buffers, "Encoding", "Message Structure").

ghost use Rattle.proto_fields.specs.Field.{IsFieldNumber};

use proto_wire::{
    Content, ContentRef, MAX_FIELD_NUMBER, WireFault, read_fields, split_field, write_bytes,
    write_nonempty_bytes, write_nonzero_varint, write_varint,
};
use std::alloc::Global;
use story_requests::{RequestFault, Response, Words};

/// Answers with the name of the fault.
pub(crate) fn name(
    alloc: Global,
    fault: WireFault,
    answer: &mut Response,
) -> Result<(), RequestFault> {
    let name = format!(in alloc; "{fault}")?;
    answer.word(name.as_str())
}

/// Of each field its number, its kind and what it holds, or the fault that stands in the bytes.
pub(crate) fn read_all(
    alloc: Global,
    bytes: &[u8],
    answer: &mut Response,
) -> Result<(), RequestFault> {
    match read_fields(alloc, bytes) {
        Ok(fields) => show_all(&fields, answer),
        Err(fault) => name(alloc, fault, answer),
    }
}

fn show_all(fields: &[(u32, Content)], answer: &mut Response) -> Result<(), RequestFault> {
    for (number, content) in fields {
        answer.number(u64::from(*number))?;
        show(content, answer)?;
    }
    Ok(())
}

fn show(content: &Content, answer: &mut Response) -> Result<(), RequestFault> {
    match content {
        Content::Varint(value) => {
            answer.word("varint")?;
            answer.number(*value)
        }
        Content::Eight(bytes) => show_bytes("eight", bytes, answer),
        Content::Bytes(bytes) => show_bytes("bytes", bytes, answer),
        Content::Four(bytes) => show_bytes("four", bytes, answer),
    }
}

fn show_bytes(kind: &str, bytes: &[u8], answer: &mut Response) -> Result<(), RequestFault> {
    answer.word(kind)?;
    answer.bytes(bytes)
}

/// The field at the front, what it lends as a number or as bytes, and the bytes behind it; or the fault.
pub(crate) fn split_front(
    alloc: Global,
    bytes: &[u8],
    answer: &mut Response,
) -> Result<(), RequestFault> {
    match split_field(bytes) {
        Ok((number, content, rest)) => {
            answer.number(u64::from(number))?;
            show_lent(alloc, content, answer)?;
            answer.bytes(rest)
        }
        Err(fault) => name(alloc, fault, answer),
    }
}

// What a field holds, and then the number that is lent, or the bytes, where there are such.
fn show_lent(
    alloc: Global,
    content: ContentRef<'_>,
    answer: &mut Response,
) -> Result<(), RequestFault> {
    show_copy(alloc, content, answer)?;
    if let Some(number) = content.number() {
        answer.number(number)?;
    }
    match content.bytes() {
        Some(bytes) => answer.bytes(bytes),
        None => Ok(()),
    }
}

fn show_copy(
    alloc: Global,
    content: ContentRef<'_>,
    answer: &mut Response,
) -> Result<(), RequestFault> {
    let held = content.to_content(alloc)?;
    show(&held, answer)
}

/// The bytes of the field of this number.
pub(crate) fn write(
    alloc: Global,
    asked: &str,
    words: &mut Words<'_>,
    answer: &mut Response,
) -> Result<(), RequestFault> {
    let field = words.number()?;
    if field == 0 || field > u64::from(MAX_FIELD_NUMBER) {
        return Err(RequestFault::BadRequest);
    }
    let field = field as u32;
    let mut out = Vec::new(alloc);
    let written = match asked {
        "varint" | "nonzero-varint" => put_number(&mut out, asked, field, words),
        _ => put_bytes(alloc, &mut out, asked, field, words),
    };
    match written {
        Ok(()) => answer.bytes(&out),
        Err(fault) => Err(fault),
    }
}

fn put_number(
    out: &mut Vec<u8>,
    asked: &str,
    field: u32,
    words: &mut Words<'_>,
) -> Result<(), RequestFault>
    requires { IsFieldNumber field }
{
    let number = words.number()?;
    if asked == "varint" {
        write_varint(out, field, number)?;
    } else {
        write_nonzero_varint(out, field, number)?;
    }
    Ok(())
}

fn put_bytes(
    alloc: Global,
    out: &mut Vec<u8>,
    asked: &str,
    field: u32,
    words: &mut Words<'_>,
) -> Result<(), RequestFault>
    requires { IsFieldNumber field }
{
    let bytes = words.bytes(alloc)?;
    if asked == "bytes" {
        write_bytes(out, field, &bytes)?;
    } else {
        write_nonempty_bytes(out, field, &bytes)?;
    }
    Ok(())
}
