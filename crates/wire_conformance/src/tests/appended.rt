//! What is written stands behind the bytes that were there, and embedded messages in fields whose keys take two bytes
//! and whose lengths take three (Protocol Buffers, "Encoding", "Message Structure").

use super::samples::words_of;
use super::texts::are_equal;
use crate::sample::{ByteFields, Numbers};
use proto_fields::{ContentRef, split_field};
use proto_messages::{ProtoMessage, append_one, merge_one};
use std::alloc::Global;
use std::test::Fail;

/// Numbers of kind 5, whose count is 300.
fn numbers() -> Numbers {
    Numbers {
        kind: 5,
        change: 0,
        count: 300,
        is_last: false,
    }
}

/// Whether these are those numbers.
fn are_numbers(read: &Option<Numbers>) -> bool {
    match read {
        Some(read) => { read.kind == 5 && read.change == 0 && read.count == 300 && !read.is_last }
        None => false,
    }
}

/// Writes words with a payload of one byte.
fn write_words(alloc: Global, out: &mut Vec<u8>) -> Result<(), Fail> {
    let words = words_of(alloc, 1)?;
    Ok(words.encode(out)?)
}

/// Two messages, one behind the other, and both behind two bytes.
#[test]
fn a_message_is_appended(rt: HostRuntime) -> Result<(), Fail> {
    let mut out = Vec::from_slice(rt.alloc(), b"\x0a\x01")?;
    numbers().encode(&mut out)?;
    write_words(rt.alloc(), &mut out)?;
    assert!(rt; are_equal(out.as_slice(), b"\x0a\x01\x08\x05\x18\xac\x02\x0a\x01\x07"));
    Ok(())
}

/// The embedded numbers that a field holds.
fn numbers_in(alloc: Global, content: ContentRef<'_>) -> Result<Option<Numbers>, Fail> {
    let mut read: Option<Numbers> = None;
    merge_one(alloc, &mut read, content)?;
    Ok(read)
}

/// Whether the text is field 2047 with those numbers.
fn is_field_of_numbers(alloc: Global, text: &[u8]) -> Result<bool, Fail> {
    let (number, content, rest) = split_field(text)?;
    let is_alone = number == 2047 && rest.is_empty();
    Ok(is_alone && are_numbers(&numbers_in(alloc, content)?))
}

/// Field 2047 with those numbers, behind a byte.
fn field_of_numbers(alloc: Global) -> Result<Vec<u8>, Fail> {
    let mut out = Vec::from_slice(alloc, b"\xee")?;
    append_one(&mut out, 2047, &Some(numbers()))?;
    Ok(out)
}

/// Its key is 16,378, of two bytes.
#[test]
fn an_embedded_message_has_a_long_key(rt: HostRuntime) -> Result<(), Fail> {
    let out = field_of_numbers(rt.alloc())?;
    assert!(rt; are_equal(out.as_slice(), b"\xee\xfa\x7f\x05\x08\x05\x18\xac\x02"));
    Ok(())
}

#[test]
fn an_embedded_message_is_read_behind_a_long_key(rt: HostRuntime) -> Result<(), Fail> {
    let out = field_of_numbers(rt.alloc())?;
    let text = out.get(1..).ok_or("no field")?;
    assert!(rt; is_field_of_numbers(rt.alloc(), text)?);
    Ok(())
}

/// Whether these are so many sevens.
fn are_sevens(bytes: &[u8], len: usize) -> bool {
    bytes.len() == len && bytes.iter().all(|byte| *byte == 7)
}

/// Field 2 with embedded words, whose payload is 16,384 bytes.
fn field_of_words(alloc: Global) -> Result<Vec<u8>, Fail> {
    let words = Some(words_of(alloc, 16_384)?);
    let mut out = Vec::new(alloc);
    append_one(&mut out, 2, &words)?;
    Ok(out)
}

/// Whether the words have that payload, and nothing else.
fn are_long_words(words: &ByteFields) -> bool {
    let is_alone = words.name.is_empty() && words.tags.is_empty();
    is_alone && are_sevens(words.payload.as_slice(), 16_384)
}

/// Whether they were read.
fn are_long_words_read(read: &Option<ByteFields>) -> bool {
    match read {
        Some(words) => are_long_words(words),
        None => false,
    }
}

/// Whether the embedded words of a field are those.
fn holds_long_words(alloc: Global, content: ContentRef<'_>) -> Result<bool, Fail> {
    let mut read: Option<ByteFields> = None;
    merge_one(alloc, &mut read, content)?;
    Ok(are_long_words_read(&read))
}

/// Whether the text is a field with those words.
fn is_field_of_words(alloc: Global, text: &[u8]) -> Result<bool, Fail> {
    let (_, content, rest) = split_field(text)?;
    Ok(rest.is_empty() && holds_long_words(alloc, content)?)
}

/// A message of 16,384 bytes and more in another, whose length is read again behind it.
#[test]
fn an_embedded_message_has_a_long_length(rt: HostRuntime) -> Result<(), Fail> {
    let out = field_of_words(rt.alloc())?;
    assert!(rt; is_field_of_words(rt.alloc(), out.as_slice())?);
    Ok(())
}

/// It begins with its key, its length of four more than the payload, and the payload's key, length and first byte.
#[test]
fn a_long_length_stands_in_front(rt: HostRuntime) -> Result<(), Fail> {
    let out = field_of_words(rt.alloc())?;
    assert!(rt;
        out.as_slice()
            .starts_with(b"\x12\x84\x80\x01\x0a\x80\x80\x01\x07")
    );
    Ok(())
}
