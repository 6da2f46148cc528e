//! The latest version of a table, as a service tells of it.

ghost use Rattle.proto_wire.specs.FlightValues.{endpoint_values, info_values};
ghost use Rattle.client_command.specs.Latest.{EndpointSays, LatestSays};

use crate::fault::CommandFault;
use client_calls::ClientFault;
use proto_wire::{FlightEndpoint, FlightInfo};
use std::alloc::Global;
use table_types::laws::tickets_have_one_encoding;
use table_types::{Ticket, TicketFault};

/// The ticket of an endpoint, where it is one for a version of this table.
fn endpoint_ticket(
    alloc: Global,
    endpoint: &FlightEndpoint,
    table: &str,
) -> Result<Ticket, CommandFault>
    ensures { EndpointSays table.now (endpoint_values endpoint.now) result }
{
    tickets_have_one_encoding();
    let Some(ticket) = &endpoint.ticket else {
        return Err(CommandFault::Call(ClientFault::BadAnswer));
    };
    match Ticket::decode(alloc, &ticket.ticket) {
        Ok(ticket) if ticket.table() == table => Ok(ticket),
        Ok(_) => Err(CommandFault::Call(ClientFault::BadAnswer)),
        Err(TicketFault::BadTicket) => Err(CommandFault::Call(ClientFault::BadAnswer)),
        Err(TicketFault::OutOfMemory) => Err(CommandFault::OutOfMemory),
    }
}

/// The ticket for the latest version of this table: that of its one endpoint.
pub(crate) fn latest_in(
    alloc: Global,
    info: &FlightInfo,
    table: &str,
) -> Result<Ticket, CommandFault>
    ensures { LatestSays table.now (info_values info.now) result }
{
    match info.endpoint.as_slice() {
        [endpoint] => endpoint_ticket(alloc, endpoint, table),
        _ => Err(CommandFault::Call(ClientFault::BadAnswer)),
    }
}
