//! The messages of Arrow Flight, read and written again (Apache Arrow, "Flight.proto").

use crate::fields::name;
use crate::shown::Shown;
use proto_wire::{
    Criteria, FlightData, FlightDescriptor, FlightEndpoint, FlightInfo, Location, ProtoMessage,
    PutResult, SchemaResult, Ticket,
};
use std::alloc::Global;
use story_requests::{RequestFault, Response};

/// What the bytes mean as the message of this name, field by field, and its one encoding; or the fault that stands in
/// them.
pub(crate) fn read(
    alloc: Global,
    message: &str,
    bytes: &[u8],
    answer: &mut Response,
) -> Result<(), RequestFault> {
    match message {
        "descriptor" => read_as::<FlightDescriptor>(alloc, bytes, answer),
        "ticket" => read_as::<Ticket>(alloc, bytes, answer),
        "location" => read_as::<Location>(alloc, bytes, answer),
        "endpoint" => read_as::<FlightEndpoint>(alloc, bytes, answer),
        "info" => read_as::<FlightInfo>(alloc, bytes, answer),
        "schema" => read_as::<SchemaResult>(alloc, bytes, answer),
        "criteria" => read_as::<Criteria>(alloc, bytes, answer),
        "data" => read_as::<FlightData>(alloc, bytes, answer),
        "put-result" => read_as::<PutResult>(alloc, bytes, answer),
        _ => Err(RequestFault::BadRequest),
    }
}

fn read_as<M: ProtoMessage + Shown + Drop>(
    alloc: Global,
    bytes: &[u8],
    answer: &mut Response,
) -> Result<(), RequestFault> {
    match M::decode(alloc, bytes) {
        Ok(message) => show(alloc, &message, answer),
        Err(fault) => name(alloc, fault, answer),
    }
}

fn show<M: ProtoMessage + Shown>(
    alloc: Global,
    message: &M,
    answer: &mut Response,
) -> Result<(), RequestFault> {
    message.show(alloc, answer)?;
    let mut out = Vec::new(alloc);
    if message.encode(&mut out).is_err() {
        return Err(RequestFault::OutOfMemory);
    }
    answer.bytes(&out)
}
