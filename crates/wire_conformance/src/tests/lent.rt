//! A FlightData whose bytes are lent, beside the one that is decoded of the same bytes.
//! Run with every allocation refused in turn, each test ends as before or for want of memory.

use super::texts::spelled;
use flight_data::LentFlightData;
use proto_fields::{WireFault, write_bytes};
use proto_messages::ProtoMessage;
use proto_wire::FlightData;
use std::alloc::{AllocError, Global};
use std::test::Fail;

/// Messages: of nothing; with a path, a header, a name and a body; a header and a body of which the last count; a descriptor
/// in two pieces; a field that the message does not have, and an empty body.
const MESSAGES: [&str; 5] = [
    "",
    "0a05 08011a0174 1202 0102 1a01 07 c23e03 0a0b0c",
    "1202 0102 c23e01 05 1203 030405 c23e02 0607 1a00",
    "0a02 0801 1201 09 0a03 1a0174 0a04 1a027475",
    "2a01 00 2007 c23e00 1201 02",
];

/// No messages: cut short in a length and in bytes; a key of nothing; a number for a header, for a name and for a body; a
/// descriptor that is a number, that is cut short, and whose path is not UTF-8; a fault behind a body.
const NO_MESSAGES: [&str; 10] = [
    "12",
    "1205 0102",
    "0000",
    "1007",
    "1807",
    "c03e07",
    "0801",
    "0a02 1a05",
    "0a03 1a01ff",
    "c23e02 0102 1805",
];

/// The message that is lent; where memory is refused, it is read again.
fn read(alloc: Global, bytes: &[u8]) -> Result<LentFlightData<'_>, WireFault> {
    match LentFlightData::read(alloc, bytes) {
        Err(WireFault::OutOfMemory) => LentFlightData::read(alloc, bytes),
        read => read,
    }
}

/// Whether both hold the same.
fn hold_the_same(lent: &LentFlightData<'_>, owned: &FlightData) -> bool {
    lent.flight_descriptor == owned.flight_descriptor
        && lent.data_header == owned.data_header.as_slice()
        && lent.app_metadata == owned.app_metadata.as_slice()
        && lent.data_body == owned.data_body.as_slice()
}

/// Whether the bytes are lent as they are decoded, or refused for the same.
fn are_told_alike(alloc: Global, bytes: &[u8]) -> Result<bool, AllocError> {
    match (read(alloc, bytes), FlightData::decode(alloc, bytes)) {
        (Ok(lent), Ok(owned)) => Ok(hold_the_same(&lent, &owned)),
        (Err(WireFault::OutOfMemory), _) | (_, Err(WireFault::OutOfMemory)) => Err(AllocError),
        (Err(fault), Err(other)) => Ok(fault == other),
        _ => Ok(false),
    }
}

#[test]
fn messages_are_lent_as_they_are_decoded(rt: HostRuntime) -> Result<(), Fail> {
    for digits in MESSAGES {
        let bytes = spelled(rt.alloc(), digits)?;
        let is_read = read(rt.alloc(), bytes.as_slice()).is_ok();
        let are_alike = are_told_alike(rt.alloc(), bytes.as_slice())?;
        assert!(rt; is_read && are_alike, "{digits}");
    }
    Ok(())
}

#[test]
fn what_is_no_message_is_refused_alike(rt: HostRuntime) -> Result<(), Fail> {
    for digits in NO_MESSAGES {
        let bytes = spelled(rt.alloc(), digits)?;
        let is_read = read(rt.alloc(), bytes.as_slice()).is_ok();
        let are_alike = are_told_alike(rt.alloc(), bytes.as_slice())?;
        assert!(rt; !is_read && are_alike, "{digits}");
    }
    Ok(())
}

/// How many headers stand in the long message; the last counts.
const HEADERS: usize = 5_000;

/// How long its body is.
const BODY: usize = 4_000_000;

/// A message of thousands of headers, and a body of nearly 4 MiB.
fn long_message(alloc: Global) -> Result<Vec<u8>, AllocError> {
    let mut bytes = Vec::new(alloc);
    for number in 0..HEADERS {
        write_bytes(&mut bytes, 2, &(number as u64).to_le_bytes())?;
    }
    let mut body = Vec::new(alloc);
    body.resize(BODY, 7)?;
    write_bytes(&mut bytes, 1000, body.as_slice())?;
    Ok(bytes)
}

#[test]
fn a_long_message_is_lent(rt: HostRuntime) -> Result<(), Fail> {
    let bytes = long_message(rt.alloc())?;
    let lent = read(rt.alloc(), bytes.as_slice())?;
    let last = (HEADERS as u64 - 1).to_le_bytes();
    assert!(rt; lent.data_header == last.as_slice(), "the last header");
    assert!(rt; lent.data_body.len() == BODY, "the body");
    assert!(rt; lent.flight_descriptor.is_none(), "no descriptor");
    Ok(())
}
