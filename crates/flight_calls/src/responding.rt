//! What a backend answers, in frames.

ghost use Rattle.std.specs.Prelude.{◌≡◌, ◌∷◌, [], List, ℕ};
ghost use Rattle.table_types.specs.Uploads.{Upload as Uploaded, upload_text};
ghost use Rattle.table_types.specs.Valid.{IsUpload};
ghost use Rattle.table_types.specs.Texts.{IsUploadText};
ghost use Rattle.table_versions.specs.Outcomes.{told};
ghost use Rattle.call_reading.specs.Requests.{describes, shows, lists, serves, puts};
ghost use Rattle.call_reading.specs.Reading.{request_of};
ghost use Rattle.call_protocol.specs.Results.{put_result};
ghost use Rattle.flight_calls.specs.Framing.{Frames};
ghost use Rattle.flight_calls.specs.Responding.{TellsOutcome, DecidesBy, RespondsBy};

use crate::backend::Backend;
use crate::framing::{frame_of, info_frame, info_frames, schema_frame};
use crate::outgoing::Outgoing;
use call_protocol::{CallRefusal, result_message};
use call_reading::FlightRequest;
use std::alloc::Global;
use table_types::Ticket;
use table_versions::Outcome;
use uploads::Upload;

/// The frame of what is told of a table.
fn describe<B: Backend>(alloc: Global, b: &mut B, table: &str) -> Result<Outgoing, CallRefusal>
    ensures { RespondsBy B.may_answer B.handed B.leaves B.stays (describes table.now) b.old b.new result }
{
    match b.info(alloc, table) {
        Ok(described) => info_frame(alloc, &described),
        Err(fault) => Err(CallRefusal::Back(fault)),
    }
}

/// The frame of a table's schema.
fn show<B: Backend>(alloc: Global, b: &mut B, table: &str) -> Result<Outgoing, CallRefusal>
    ensures { RespondsBy B.may_answer B.handed B.leaves B.stays (shows table.now) b.old b.new result }
{
    match b.schema(alloc, table) {
        Ok(schema) => schema_frame(alloc, &schema),
        Err(fault) => Err(CallRefusal::Back(fault)),
    }
}

/// The frames of what is told of each table.
fn list<B: Backend>(alloc: Global, b: &mut B) -> Result<Outgoing, CallRefusal>
    ensures { RespondsBy B.may_answer B.handed B.leaves B.stays lists b.old b.new result }
{
    match b.list(alloc) {
        Ok(all) => info_frames(alloc, &all),
        Err(fault) => Err(CallRefusal::Back(fault)),
    }
}

/// The frames of a version.
fn serve<B: Backend>(alloc: Global, b: &mut B, ticket: &Ticket) -> Result<Outgoing, CallRefusal>
    ensures { RespondsBy B.may_answer B.handed B.leaves B.stays (serves ticket.now) b.old b.new result }
{
    match b.get(alloc, ticket) {
        Ok(answer) => Ok(Outgoing::Shared(answer)),
        Err(fault) => Err(CallRefusal::Back(fault)),
    }
}

/// The frame that tells of an upload which counts.
fn applied_frame(alloc: Global, upload: &Upload, version: u64) -> Result<Outgoing, CallRefusal>
    ensures upload { IsUploadText upload.now }
    ensures frame { (u : Uploaded) → IsUpload u → upload_text u ≡ upload.now
        → Frames (put_result u.id version ∷ []) result }
{
    let _text = upload.as_slice();
    let message = result_message(alloc, &upload.id(), version)?;
    frame_of(alloc, &message)
}

/// The frame of what has become of an upload, where it counts, and else why it does not.
fn tell(alloc: Global, upload: &Upload, outcome: Outcome) -> Result<Outgoing, CallRefusal>
    ensures { TellsOutcome upload.now (told outcome) result }
{
    match outcome {
        Outcome::Applied(version) => applied_frame(alloc, upload, version),
        Outcome::SchemaMismatch => Err(CallRefusal::SchemaMismatch),
        Outcome::Conflict => Err(CallRefusal::Conflict),
        Outcome::Unknown => Err(CallRefusal::Undecided),
    }
}

/// The frame of what has become of an upload that was put.
fn decide<B: Backend>(alloc: Global, b: &mut B, upload: &Upload) -> Result<Outgoing, CallRefusal>
    ensures decided { DecidesBy B.may_answer upload.now b.old result }
    ensures same { B.handed b.new ≡ B.handed b.old }
    ensures stays { B.stays b.old b.new }
{
    match b.outcome(upload) {
        Ok(outcome) => tell(alloc, upload, outcome),
        Err(fault) => Err(CallRefusal::Back(fault)),
    }
}

/// Hands an upload over, and gives the frame of what has become of it.
fn put<B: Backend>(alloc: Global, b: &mut B, upload: &Upload) -> Result<Outgoing, CallRefusal>
    ensures { RespondsBy B.may_answer B.handed B.leaves B.stays (puts upload.now) b.old b.new result }
{
    match b.put(upload) {
        Ok(()) => decide(alloc, b, upload),
        Err(fault) => Err(CallRefusal::Back(fault)),
    }
}

/// The frames of the answer to what is asked, or why there is none.
pub(crate) fn respond<B: Backend>(
    alloc: Global,
    b: &mut B,
    asked: &FlightRequest,
) -> Result<Outgoing, CallRefusal>
    ensures { RespondsBy B.may_answer B.handed B.leaves B.stays (request_of asked.now) b.old b.new result }
{
    match asked {
        FlightRequest::GetFlightInfo(table) => describe(alloc, b, table),
        FlightRequest::GetSchema(table) => show(alloc, b, table),
        FlightRequest::ListFlights => list(alloc, b),
        FlightRequest::DoGet(ticket) => serve(alloc, b, ticket),
        FlightRequest::DoPut(upload) => put(alloc, b, upload),
    }
}
