//! Messages of Arrow Flight that are refused memory as they are read and as they are written, and then are read and
//! written again: the refusal has its name, and what was written before stands alone.
//! Run with every allocation refused in turn, the test ends as before or for want of memory.

use super::texts::{are_equal, spelled};
use proto_fields::WireFault;
use proto_messages::ProtoMessage;
use proto_wire::{
    Criteria, FlightData, FlightDescriptor, FlightEndpoint, FlightInfo, Location, PutResult,
    SchemaResult, Ticket,
};
use std::alloc::Global;
use std::test::Fail;

/// The path of two names.
const DESCRIPTOR: &str = "0801 1a0573616c6573 1a0477657374";

/// Version 3 of the table `sales`.
const TICKET: &str = "0a09 0a0573616c6573 1003";

/// Port 42000 of this host.
const LOCATION: &str = "0a1b 706c61696e2b7463703a2f2f3132372e302e302e313a3432303030";

/// A ticket at two such locations.
const ENDPOINT: &str = "0a07 0a050a01741001 \
    121d 0a1b 706c61696e2b7463703a2f2f3132372e302e302e313a3432303030 \
    121d 0a1b 706c61696e2b7463703a2f2f3132372e302e302e313a3432303031";

/// A schema's bytes, a path, an endpoint at one location, 3 rows, 349 bytes, in order.
const INFO: &str = "0a03 010203 1205 08011a0174 \
    1a28 0a07 0a050a01741001 121d 0a1b 706c61696e2b7463703a2f2f3132372e302e302e313a3432303030 \
    2003 28dd02 3001";

/// A schema's bytes.
const SCHEMA: &str = "0a04 ffffffff";

/// An expression.
const CRITERIA: &str = "0a02 6162";

/// A path, a header, a name and a body.
const DATA: &str = "0a05 08011a0174 1202 0102 1a01 07 c23e03 0a0b0c";

/// What was put.
const RESULT: &str = "0a02 1001";

/// What stands before each message is written.
const BEFORE: &[u8] = b"\xee\xef";

/// The message that the bytes mean; where memory is refused, they are read again.
fn read<M: ProtoMessage + Drop>(alloc: Global, bytes: &[u8]) -> Result<M, WireFault> {
    match M::decode(alloc, bytes) {
        Err(WireFault::OutOfMemory) => M::decode(alloc, bytes),
        read => read,
    }
}

/// Writes the message; where memory is refused, the bytes before stand alone, and it is written again.
fn write<M: ProtoMessage>(message: &M, out: &mut Vec<u8>) -> Result<(), Fail> {
    match message.encode(out) {
        Ok(()) => Ok(()),
        Err(WireFault::OutOfMemory) if are_equal(out.as_slice(), BEFORE) => {
            Ok(message.encode(out)?)
        }
        Err(_) => Err(Fail::from("other bytes or another fault")),
    }
}

/// Expects that the digits spell a message that is written so.
fn comes_back<M: ProtoMessage + Drop>(alloc: Global, digits: &str) -> Result<(), Fail> {
    let bytes = spelled(alloc, digits)?;
    let message = read::<M>(alloc, bytes.as_slice())?;
    let mut out = Vec::from_slice(alloc, BEFORE)?;
    write(&message, &mut out)?;
    match out.get(2..) {
        Some(written) if are_equal(written, bytes.as_slice()) => Ok(()),
        _ => Err(Fail::from("another encoding")),
    }
}

#[test]
fn the_nine_messages_come_back(rt: HostRuntime) -> Result<(), Fail> {
    comes_back::<FlightDescriptor>(rt.alloc(), DESCRIPTOR)?;
    comes_back::<Ticket>(rt.alloc(), TICKET)?;
    comes_back::<Location>(rt.alloc(), LOCATION)?;
    comes_back::<FlightEndpoint>(rt.alloc(), ENDPOINT)?;
    comes_back::<FlightInfo>(rt.alloc(), INFO)?;
    comes_back::<SchemaResult>(rt.alloc(), SCHEMA)?;
    comes_back::<Criteria>(rt.alloc(), CRITERIA)?;
    comes_back::<FlightData>(rt.alloc(), DATA)?;
    comes_back::<PutResult>(rt.alloc(), RESULT)
}
