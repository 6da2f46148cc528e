//! A call, made and answered.

ghost use Rattle.std.specs.Prelude.{◌≡◌};
ghost use Rattle.grpc_frames.specs.FrameFaults.{WhereKnown};
ghost use Rattle.table_types.specs.Uploads.{Upload as Uploaded, upload_text};
ghost use Rattle.table_types.specs.Valid.{IsUpload};
ghost use Rattle.proto_wire.specs.FlightValues.{endpoint_values, info_values};
ghost use Rattle.client_calls.specs.Answers.{Receives, Requests};
ghost use Rattle.client_calls.specs.Requests.{get_request, info_request, put_request};
ghost use Rattle.script_calls.specs.Asking.{RequestMeaning, puts, gets, informs, IsAsked, request_of, Tells, CanTell, as_received};
ghost use Rattle.script_calls.specs.Informing.{EndpointSays, InfoSays};

use crate::told::{Told, Unanswered};
use call_protocol::CallFault;
use client_calls::laws::answers_are_one;
use client_calls::{ClientFault, call_get_frames, call_info, call_put};
use proto_messages::laws::messages_are_one;
use proto_wire::{FlightEndpoint, FlightInfo};
use run_files::CallRequest;
use std::alloc::Global;
use std::io::{Read, Write};
use table_types::laws::tickets_have_one_encoding;
use table_types::{Ticket, TicketFault};
use uploads::Upload;

/// Uploads.
fn ask_put<R: Read, W: Write>(
    alloc: Global,
    r: &mut R,
    w: &mut W,
    upload: &Upload,
) -> Result<Told, ClientFault>
    ensures sent { (u : Uploaded) → IsUpload u → upload_text u ≡ upload.now
        → WhereKnown (W.contents w.old) (W.contents w.new) (Requests result (put_request u)) }
    ensures told { (u : Uploaded) → IsUpload u → upload_text u ≡ upload.now
        → WhereKnown (R.remaining r.old) (R.remaining r.new) (Receives (Tells (puts u)) (CanTell (puts u)) result) }
{
    let version = call_put(alloc, r, w, upload)?;
    Ok(Told::Put(version))
}

/// Asks for a version.
fn ask_get<R: Read, W: Write>(
    alloc: Global,
    r: &mut R,
    w: &mut W,
    ticket: &Ticket,
) -> Result<Told, ClientFault>
    ensures sent { WhereKnown (W.contents w.old) (W.contents w.new) (Requests result (get_request ticket.now)) }
    ensures told { WhereKnown (R.remaining r.old) (R.remaining r.new)
        (Receives (Tells (gets ticket.now)) (CanTell (gets ticket.now)) result) }
{
    let frames = call_get_frames(alloc, r, w, ticket)?;
    Ok(Told::Get(frames))
}

/// The version and the number of locations of an endpoint of this table.
fn endpoint_told(alloc: Global, endpoint: &FlightEndpoint, table: &str) -> Result<Told, ClientFault>
    ensures { EndpointSays table.now (endpoint_values endpoint.now) result }
{
    tickets_have_one_encoding();
    let Some(ticket) = &endpoint.ticket else {
        return Err(ClientFault::BadAnswer);
    };
    match Ticket::decode(alloc, &ticket.ticket) {
        Ok(ticket) if ticket.table() == table => {
            Ok(Told::Info(ticket.version(), endpoint.location.len() as u64))
        }
        Ok(_) => Err(ClientFault::BadAnswer),
        Err(TicketFault::BadTicket) => Err(ClientFault::BadAnswer),
        Err(TicketFault::OutOfMemory) => Err(ClientFault::Call(CallFault::OutOfMemory)),
    }
}

/// What is told of this table by the one endpoint.
fn info_told(alloc: Global, info: &FlightInfo, table: &str) -> Result<Told, ClientFault>
    ensures { InfoSays table.now (info_values info.now) result }
{
    match info.endpoint.as_slice() {
        [endpoint] => endpoint_told(alloc, endpoint, table),
        _ => Err(ClientFault::BadAnswer),
    }
}

/// Asks what is told of a table.
fn ask_info<R: Read, W: Write>(
    alloc: Global,
    r: &mut R,
    w: &mut W,
    table: &str,
) -> Result<Told, ClientFault>
    ensures sent { WhereKnown (W.contents w.old) (W.contents w.new) (Requests result (info_request table.now)) }
    ensures told { WhereKnown (R.remaining r.old) (R.remaining r.new)
        (Receives (Tells (informs table.now)) (CanTell (informs table.now)) result) }
{
    answers_are_one();
    messages_are_one();
    let info = call_info(alloc, r, w, table)?;
    info_told(alloc, &info, table)
}

/// Makes the call, with a refusal as a fault.
fn answer<R: Read, W: Write>(
    alloc: Global,
    r: &mut R,
    w: &mut W,
    asked: &CallRequest,
) -> Result<Told, ClientFault>
    ensures sent { (meaning : RequestMeaning) → IsAsked asked.now meaning
        → WhereKnown (W.contents w.old) (W.contents w.new) (Requests result (request_of meaning)) }
    ensures told { (meaning : RequestMeaning) → IsAsked asked.now meaning
        → WhereKnown (R.remaining r.old) (R.remaining r.new) (Receives (Tells meaning) (CanTell meaning) result) }
{
    match asked {
        CallRequest::Put(upload) => ask_put(alloc, r, w, upload),
        CallRequest::Get(ticket) => ask_get(alloc, r, w, ticket),
        CallRequest::Info(table) => ask_info(alloc, r, w, table.as_str()),
    }
}

/// Makes a call of a script: writes the request of what is asked, and reads what a service tells.
///
/// - [`Told::Put`]: the version that the upload made, as [`call_put`] reads it.
/// - [`Told::Get`]: the frames of the messages of the answer, as [`call_get_frames`] reads them.
/// - [`Told::Info`]: the version and the number of locations of the one endpoint in the answer that [`call_info`] reads. Its ticket
///   is one of the table that was asked about.
/// - [`Told::Status`]: the service refused the call, with a status that is not 0 and a text.
///
/// [`Unanswered::BadAnswer`] says that what came is neither such an answer nor a refusal, and [`Unanswered::Call`] that a read or a
/// write failed or memory was refused. Nothing behind the trailer is read.
pub fn ask<R: Read, W: Write>(
    alloc: Global,
    r: &mut R,
    w: &mut W,
    asked: &CallRequest,
) -> Result<Told, Unanswered>
    // What has gone out is the request, or a beginning of it where it could not be written.
    ensures sent { (meaning : RequestMeaning) → IsAsked asked.now meaning
        → WhereKnown (W.contents w.old) (W.contents w.new) (Requests (as_received result) (request_of meaning)) }
    // What was told, and what is left of the input behind it.
    ensures told { (meaning : RequestMeaning) → IsAsked asked.now meaning
        → WhereKnown (R.remaining r.old) (R.remaining r.new)
        (Receives (Tells meaning) (CanTell meaning) (as_received result)) }
{
    match answer(alloc, r, w, asked) {
        Ok(told) => Ok(told),
        Err(ClientFault::Status(status, text)) => Ok(Told::Status(status, text)),
        Err(ClientFault::BadAnswer) => Err(Unanswered::BadAnswer),
        Err(ClientFault::Call(fault)) => Err(Unanswered::Call(fault)),
    }
}
