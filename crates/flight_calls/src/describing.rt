//! The messages that tell of tables (Apache Arrow, "Flight.proto", `FlightInfo` and `SchemaResult`).

ghost use Rattle.std.specs.Prelude.{◌≡◌, ◌∷◌, [], IfOk, map, string_bytes};
ghost use Rattle.proto_messages.specs.Canonical.{canonical};
ghost use Rattle.proto_wire.specs.FlightValues.{endpoint_values, location_values, info_values};
ghost use Rattle.header_writing.specs.Canonical.{encapsulated};
ghost use Rattle.table_types.specs.Valid.{FitsFrame};
ghost use Rattle.table_types.specs.Ticket.{IsTableVersion, ticket_text};
ghost use Rattle.flight_calls.specs.Replies.{total_of};
ghost use Rattle.flight_calls.specs.Describing.{CanBeTold, version_in, locations_in, endpoint_told, values_told, message_of, schema_told};

use crate::table_description::TableDescription;
use call_protocol::table_descriptor;
use header_writing::encapsulate;
use proto_messages::ProtoMessage;
use proto_wire::{FlightEndpoint, FlightInfo, Location, SchemaResult, Ticket as TicketMessage};
use std::alloc::{AllocError, Global};
use table_types::Ticket;

/// The least number that a total does not hold.
const TOTAL_LIMIT: u64 = 9_223_372_036_854_775_808;

/// A total: -1, which stands for an unknown one, where the number has more than 63 bits.
fn total_of(number: u64) -> i64
    ensures { result ≡ total_of number }
{
    if number < TOTAL_LIMIT {
        number as i64
    } else {
        -1
    }
}

/// The ticket of a version.
fn ticket_of(alloc: Global, table: &str, version: u64) -> Result<TicketMessage, AllocError>
    requires { IsTableVersion (record { table = table.now; version = version }) }
    ensures { IfOk result
        (λ ticket. ticket.ticket.items ≡ ticket_text (record { table = table.now; version = version })) }
{
    let table = String::from_str(alloc, table)?;
    let Some(ticket) = Ticket::new(table, version) else {
        unreachable!();
    };
    let ticket = ticket.encode(alloc)?;
    Ok(TicketMessage { ticket })
}

/// The locations of these URIs.
fn locations_of(alloc: Global, uris: &[String]) -> Result<Vec<Location>, AllocError>
    ensures { IfOk result (λ locations. map location_values locations.items
        ≡ map (λ uri. (uri, tt)) (map string_bytes uris.now)) }
{
    let mut locations = Vec::new(alloc);
    for uri in uris {
        let uri = uri.clone()?;
        locations.push(Location { uri })?;
    }
    Ok(locations)
}

/// The message of a schema between others, behind its length.
fn encapsulated_of(alloc: Global, schema: &[u8]) -> Result<Vec<u8>, AllocError>
    requires { FitsFrame schema.now }
    ensures { IfOk result (λ text. text.items ≡ encapsulated schema.now) }
{
    let mut text = Vec::new(alloc);
    encapsulate(schema, &mut text)?;
    Ok(text)
}

/// Where a version is served.
fn endpoints_of(
    alloc: Global,
    described: &TableDescription,
) -> Result<Vec<FlightEndpoint>, AllocError>
    requires { IsTableVersion (version_in described.now) }
    ensures { IfOk result (λ endpoints. map endpoint_values endpoints.items
        ≡ endpoint_told (version_in described.now) (locations_in described.now) ∷ []) }
{
    let info = &described.info;
    let ticket = ticket_of(alloc, &info.table, info.version)?;
    let location = locations_of(alloc, &described.locations)?;
    let mut endpoints = Vec::new(alloc);
    endpoints.push(FlightEndpoint {
        ticket: Some(ticket),
        location,
    })?;
    Ok(endpoints)
}

/// What is told of a table.
fn flight_info(alloc: Global, described: &TableDescription) -> Result<FlightInfo, AllocError>
    requires { CanBeTold described.now }
    ensures { IfOk result (λ info. info_values info
        ≡ values_told (version_in described.now) described.now.info.records described.now.info.total_bytes
        described.now.info.schema.items (locations_in described.now)) }
{
    let schema = encapsulated_of(alloc, &described.info.schema)?;
    let descriptor = table_descriptor(alloc, &described.info.table)?;
    let endpoint = endpoints_of(alloc, described)?;
    Ok(FlightInfo {
        schema,
        flight_descriptor: Some(descriptor),
        endpoint,
        total_records: total_of(described.info.records),
        total_bytes: total_of(described.info.total_bytes),
        ordered: true,
    })
}

/// The bytes of a message.
fn encoded<M: ProtoMessage>(alloc: Global, message: &M) -> Result<Vec<u8>, AllocError>
    ensures { IfOk result (λ bytes. bytes.items ≡ canonical M.descriptor (M.values message.now)) }
{
    let mut bytes = Vec::new(alloc);
    match message.encode(&mut bytes) {
        Ok(()) => Ok(bytes),
        Err(_) => Err(AllocError),
    }
}

/// The message that tells of a table.
pub(crate) fn info_message(
    alloc: Global,
    described: &TableDescription,
) -> Result<Vec<u8>, AllocError>
    requires { CanBeTold described.now }
    ensures { IfOk result (λ bytes. bytes.items ≡ message_of described.now) }
{
    let info = flight_info(alloc, described)?;
    encoded(alloc, &info)
}

/// The message with a schema, whose own message this is.
pub(crate) fn schema_message(alloc: Global, schema: &[u8]) -> Result<Vec<u8>, AllocError>
    requires { FitsFrame schema.now }
    ensures { IfOk result (λ bytes. bytes.items ≡ schema_told schema.now) }
{
    let schema = encapsulated_of(alloc, schema)?;
    encoded(alloc, &SchemaResult { schema })
}
