//! Messages with a field of every kind against bytes worked out by hand (Protocol Buffers, "Encoding").

use super::texts::{are_equal, expect_row, spelled, two_cells};
use crate::sample::{ByteFields, Numbers};
use proto_fields::WireFault;
use proto_messages::ProtoMessage;
use std::alloc::{AllocError, Global};
use std::test::Fail;

/// Each number at its edge: -1, -2, 2^64 - 1 and true.
const EDGES: &str = "08ffffffffffffffffff01 10feffffffffffffffff01 18ffffffffffffffffff01 2001";

/// Bytes that are not UTF-8, a letter of two bytes, an empty tag and one of a byte.
const WORDS: &str = "0a0200ff 1202c3a9 1a00 1a0161";

/// Numbers, also in other encodings, and what they mean: kind, change, count, and whether it is the last. An enumeration
/// of 2^32 + 1 is cut and a count is not, 2 is true, the last one wins, and a field of another number is passed over. Or
/// why they mean none: another wire type, a number that ends early, a field of number 0, a number above 64 bits.
const NUMBERS: &str = "\
|0 0 0 false
08ffffffffffffffffff01 10feffffffffffffffff01 18ffffffffffffffffff01 2001|-1 -2 18446744073709551615 true
088180808010|1 0 0 false
188180808010|0 0 4294967297 false
1880808080808080808001|0 0 9223372036854775808 false
2002|0 0 0 true
0805 0806|6 0 0 false
7801 1001 3d00000000|0 1 0 false
0d00000000|BadWireType
08|CutShort
00|BadKey
08ffffffffffffffffff02|BadVarint";

/// Byte fields with a payload of so many bytes, and nothing else.
pub fn words_of(alloc: Global, len: usize) -> Result<ByteFields, AllocError> {
    let payload = Vec::from_elem(alloc, 7, len)?;
    Ok(ByteFields {
        payload,
        name: String::new(alloc),
        tags: Vec::new(alloc),
    })
}

/// The numbers as words.
fn numbers_told(alloc: Global, numbers: &Numbers) -> Result<String, AllocError> {
    let (kind, change) = (numbers.kind, numbers.change);
    let (count, is_last) = (numbers.count, numbers.is_last);
    format!(in alloc; "{kind} {change} {count} {is_last}")
}

/// The numbers that were read, or the name of the fault.
fn told(alloc: Global, read: &Result<Numbers, WireFault>) -> Result<String, AllocError> {
    match read {
        Ok(numbers) => numbers_told(alloc, numbers),
        Err(fault) => format!(in alloc; "{fault}"),
    }
}

/// Whether this is what the bytes mean.
fn is_told(alloc: Global, bytes: &[u8], want: &str) -> Result<bool, AllocError> {
    let told = told(alloc, &Numbers::decode(alloc, bytes))?;
    Ok(told.as_str() == want)
}

/// Whether the row is right.
fn is_right(alloc: Global, row: &str) -> Result<bool, Fail> {
    let (digits, want) = two_cells(row)?;
    let bytes = spelled(alloc, digits)?;
    Ok(is_told(alloc, bytes.as_slice(), want)?)
}

#[test]
fn reads_numbers(rt: HostRuntime) -> Result<(), Fail> {
    for row in NUMBERS.lines() {
        expect_row(&rt, is_right(rt.alloc(), row)?, row);
    }
    Ok(())
}

/// Whether the tags are an empty one and the letter a.
fn are_tags(tags: &[String]) -> bool {
    match tags {
        [empty, letter] => empty.is_empty() && letter.as_str() == "a",
        _ => false,
    }
}

/// Whether the words hold those of [`WORDS`].
fn are_words(words: &ByteFields) -> bool {
    let is_named = words.name.as_str() == "é" && are_tags(words.tags.as_slice());
    is_named && are_equal(words.payload.as_slice(), &[0, 255])
}

/// Whether they were read.
fn are_words_read(read: &Result<ByteFields, WireFault>) -> bool {
    match read {
        Ok(words) => are_words(words),
        Err(_) => false,
    }
}

#[test]
fn reads_words(rt: HostRuntime) -> Result<(), Fail> {
    let bytes = spelled(rt.alloc(), WORDS)?;
    assert!(rt; are_words_read(&ByteFields::decode(rt.alloc(), bytes.as_slice())));
    Ok(())
}

/// Whether the message is written as these bytes.
pub fn is_written_as<M: ProtoMessage>(
    alloc: Global,
    message: &M,
    bytes: &[u8],
) -> Result<bool, Fail> {
    let mut out = Vec::new(alloc);
    message.encode(&mut out)?;
    Ok(are_equal(out.as_slice(), bytes))
}

/// Whether the message that the bytes mean is written as them.
fn is_written<M: ProtoMessage + Drop>(alloc: Global, bytes: &[u8]) -> Result<bool, Fail> {
    let message = M::decode(alloc, bytes)?;
    is_written_as(alloc, &message, bytes)
}

/// Whether the digits spell a message that is written so.
fn comes_back<M: ProtoMessage + Drop>(alloc: Global, digits: &str) -> Result<bool, Fail> {
    let bytes = spelled(alloc, digits)?;
    is_written::<M>(alloc, bytes.as_slice())
}

#[test]
fn writes_numbers(rt: HostRuntime) -> Result<(), Fail> {
    assert!(rt; comes_back::<Numbers>(rt.alloc(), EDGES)?);
    Ok(())
}

#[test]
fn writes_words(rt: HostRuntime) -> Result<(), Fail> {
    assert!(rt; comes_back::<ByteFields>(rt.alloc(), WORDS)?);
    Ok(())
}
