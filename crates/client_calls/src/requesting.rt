//! The requests of the calls.

ghost use Rattle.std.specs.Prelude.{◌≡◌, ◌∷◌, [], IfOk};
ghost use Rattle.grpc_frames.specs.FrameFaults.{WhereKnown};
ghost use Rattle.call_protocol.specs.Methods.{path_text};
ghost use Rattle.call_protocol.specs.Texts.{call_text};
ghost use Rattle.client_calls.specs.Requests.{table_message, info_request, criteria_message, list_request, ticket_message, get_request};
ghost use Rattle.client_calls.specs.Sending.{Sends, IsText};

use crate::sending::{path_of, send_end, send_message};
use call_protocol::{CallFault, Method, table_descriptor};
use proto_messages::ProtoMessage;
use proto_wire::{Criteria, Ticket as TicketMessage};
use std::alloc::{AllocError, Global};
use std::io::Write;
use table_types::Ticket;

/// Writes a request of one message.
fn send_one<W: Write>(w: &mut W, path: &[u8], message: &[u8]) -> Result<(), CallFault>
    ensures { WhereKnown (W.contents w.old) (W.contents w.new)
        (Sends result (call_text path.now (message.now ∷ []))) }
{
    send_message(w, path)?;
    send_message(w, message)?;
    send_end(w)
}

/// The message that asks what is told of a table.
fn table_message(alloc: Global, table: &str) -> Result<Vec<u8>, CallFault>
    ensures { IsText (table_message table.now) result }
{
    let descriptor = table_descriptor(alloc, table)?;
    let mut message = Vec::new(alloc);
    match descriptor.encode(&mut message) {
        Ok(()) => Ok(message),
        Err(_) => Err(CallFault::OutOfMemory),
    }
}

/// Writes the request of a method that has one message.
fn send_request<W: Write>(
    alloc: Global,
    w: &mut W,
    method: Method,
    message: &[u8],
) -> Result<(), CallFault>
    ensures { WhereKnown (W.contents w.old) (W.contents w.new)
        (Sends result (call_text (path_text method) (message.now ∷ []))) }
{
    let path = path_of(alloc, method)?;
    send_one(w, &path, message)
}

/// Writes the request for what is told of a table.
pub(crate) fn send_info_request<W: Write>(
    alloc: Global,
    w: &mut W,
    table: &str,
) -> Result<(), CallFault>
    ensures { WhereKnown (W.contents w.old) (W.contents w.new) (Sends result (info_request table.now)) }
{
    let message = table_message(alloc, table)?;
    send_request(alloc, w, Method::GetFlightInfo, &message)
}

/// The message that asks for all tables.
fn criteria_message(alloc: Global) -> Result<Vec<u8>, CallFault>
    ensures { IsText criteria_message result }
{
    let criteria = Criteria {
        expression: Vec::new(alloc),
    };
    let mut message = Vec::new(alloc);
    match criteria.encode(&mut message) {
        Ok(()) => Ok(message),
        Err(_) => Err(CallFault::OutOfMemory),
    }
}

/// Writes the request for what is told of all tables.
pub(crate) fn send_list_request<W: Write>(alloc: Global, w: &mut W) -> Result<(), CallFault>
    ensures { WhereKnown (W.contents w.old) (W.contents w.new) (Sends result list_request) }
{
    let message = criteria_message(alloc)?;
    send_request(alloc, w, Method::ListFlights, &message)
}

/// The message that asks for a version of a table.
fn ticket_message(alloc: Global, ticket: &Ticket) -> Result<Vec<u8>, CallFault>
    ensures { IsText (ticket_message ticket.now) result }
{
    let ticket = ticket.encode(alloc)?;
    let mut message = Vec::new(alloc);
    match (TicketMessage { ticket }).encode(&mut message) {
        Ok(()) => Ok(message),
        Err(_) => Err(CallFault::OutOfMemory),
    }
}

/// Writes the request for a version of a table.
pub(crate) fn send_get_request<W: Write>(
    alloc: Global,
    w: &mut W,
    ticket: &Ticket,
) -> Result<(), CallFault>
    ensures { WhereKnown (W.contents w.old) (W.contents w.new) (Sends result (get_request ticket.now)) }
{
    let message = ticket_message(alloc, ticket)?;
    send_request(alloc, w, Method::DoGet, &message)
}
