//! Which bytes are told to be the one encoding of a message (Protocol Buffers, "Encoding" and "Default Field Values").

use super::samples::words_of;
use super::texts::{expect_of, expect_row, spelled, two_cells};
use crate::sample::{ByteFields, Numbers};
use proto_fields::WireFault;
use proto_messages::{CanonicalMessage, ProtoMessage};
use std::alloc::{AllocError, Global};
use std::process::Abort;
use std::test::Fail;

/// Encodings of numbers, and whether they are the one of what they mean. The others have a number and a key in more
/// bytes than they need, fields in another order, a default, a field twice, a field that the message does not have, an
/// enumeration above 32 bits, and a bool of 2.
const NUMBERS: &str = "\
|one
0805|one
08ffffffffffffffffff01|one
08ffffffffffffffffff01 10feffffffffffffffff01 18ffffffffffffffffff01 2001|one
088500|other
8800 05|other
1003 0805|other
0800|other
0805 0805|other
0805 7801|other
088180808010|other
2002|other";

/// The same of words, also with a length in more bytes than it needs.
const WORDS: &str = "\
0a0200ff 1202c3a9 1a00 1a0161|one
0a0100 1a00 1a00|one
1200|other
1a00 0a0161|other
0a810061|other";

/// The most tags of the long words.
const MAX_TAGS: usize = 8;

/// Whether the bytes are told to be the one encoding of what was read of them, where that is a message.
fn is_encoding<M: CanonicalMessage>(read: &Result<M, WireFault>, bytes: &[u8]) -> Option<bool> {
    match read {
        Ok(message) => Some(message.is_encoded_as(bytes)),
        Err(_) => None,
    }
}

/// Whether they are told to be the one encoding of the message that they mean.
fn is_one<M: CanonicalMessage + Drop>(alloc: Global, bytes: &[u8]) -> Option<bool> {
    is_encoding(&M::decode(alloc, bytes), bytes)
}

/// Whether the row is right.
fn is_told<M: CanonicalMessage + Drop>(alloc: Global, row: &str) -> Result<bool, Fail> {
    let (digits, want) = two_cells(row)?;
    let bytes = spelled(alloc, digits)?;
    Ok(is_one::<M>(alloc, bytes.as_slice()) == Some(want == "one"))
}

fn expect_rows<M: CanonicalMessage + Drop>(
    rt: &impl Abort,
    alloc: Global,
    rows: &str,
) -> Result<(), Fail> {
    for row in rows.lines() {
        expect_row(rt, is_told::<M>(alloc, row)?, row);
    }
    Ok(())
}

#[test]
fn tells_the_one_encoding_of_numbers(rt: HostRuntime) -> Result<(), Fail> {
    expect_rows::<Numbers>(&rt, rt.alloc(), NUMBERS)
}

#[test]
fn tells_the_one_encoding_of_words(rt: HostRuntime) -> Result<(), Fail> {
    expect_rows::<ByteFields>(&rt, rt.alloc(), WORDS)
}

/// Puts so many tags of a byte.
fn push_tags(alloc: Global, tags: &mut Vec<String>, count: usize) -> Result<(), AllocError> {
    for _ in 0..count {
        tags.push(String::from_str(alloc, "a")?)?;
    }
    Ok(())
}

/// Byte fields with a payload of so many bytes, and as many tags up to [`MAX_TAGS`].
fn long_words(alloc: Global, len: usize) -> Result<ByteFields, AllocError> {
    let mut words = words_of(alloc, len)?;
    push_tags(alloc, &mut words.tags, len.min(MAX_TAGS))?;
    Ok(words)
}

/// How many texts that end within this one are told to be the encoding of the words.
fn cuts_told(words: &ByteFields, text: &[u8]) -> usize {
    let mut told: usize = 0;
    for end in 0..text.len() {
        if words.is_encoded_as(&text[..end]) {
            told = told.saturating_add(1);
        }
    }
    told
}

/// Changes the lowest bit of the byte at this place.
fn flip(text: &mut [u8], place: usize) {
    if let Some(byte) = text.get_mut(place) {
        *byte ^= 1;
    }
}

/// How many texts with one bit that is not this one's are told to be the encoding of the words.
fn changes_told(words: &ByteFields, text: &mut [u8]) -> usize {
    let mut told: usize = 0;
    for place in 0..text.len() {
        flip(text, place);
        if words.is_encoded_as(text) {
            told = told.saturating_add(1);
        }
        flip(text, place);
    }
    told
}

/// Whether the words' encoding is told, and no cut and no change of it is.
fn is_told_alone(words: &ByteFields, text: &mut [u8]) -> bool {
    let is_own = words.is_encoded_as(text);
    is_own && cuts_told(words, text) == 0 && changes_told(words, text) == 0
}

/// And no addition to it.
fn is_alone(words: &ByteFields, text: &mut Vec<u8>) -> Result<bool, AllocError> {
    let is_alone = is_told_alone(words, text.as_mut_slice());
    text.push(0)?;
    Ok(is_alone && !words.is_encoded_as(text.as_slice()))
}

/// Whether the encoding of these words stands alone.
fn has_one_encoding(alloc: Global, words: &ByteFields) -> Result<bool, Fail> {
    let mut text = Vec::new(alloc);
    words.encode(&mut text)?;
    Ok(is_alone(words, &mut text)?)
}

/// Whether that of words with a payload of so many bytes does.
fn stands_alone(alloc: Global, len: usize) -> Result<bool, Fail> {
    let words = long_words(alloc, len)?;
    has_one_encoding(alloc, &words)
}

#[test]
fn a_long_encoding_stands_alone(rt: HostRuntime) -> Result<(), Fail> {
    for len in [0, 1, 31, 128, 1_000] {
        expect_of(&rt, stands_alone(rt.alloc(), len)?, len);
    }
    Ok(())
}
