//! A call, read from its path to its end.

ghost use Rattle.std.specs.Prelude.{◌≡◌};
ghost use Rattle.call_protocol.specs.declared.method.Method.TheVariants.{GetFlightInfo, GetSchema, ListFlights, DoGet, DoPut};
ghost use Rattle.grpc_frames.specs.FrameFaults.{WhereKnown};
ghost use Rattle.call_reading.specs.Reading.{ReadsMethod, ReadsMessages, ReadsCall};

use crate::frames::{CallPart, next_part};
use crate::one::{read_criteria, read_table, read_ticket};
use crate::request::FlightRequest;
use crate::uploading::read_upload;
use call_protocol::{CallRefusal, Method};
use std::alloc::Global;
use std::io::Read;

/// The method of the path.
fn read_method<R: Read>(alloc: Global, r: &mut R) -> Result<Method, CallRefusal>
    ensures { WhereKnown (R.remaining r.old) (R.remaining r.new) (ReadsMethod result) }
{
    match next_part(alloc, r)? {
        CallPart::Message(path) => Method::of_path(&path),
        CallPart::End => Err(CallRefusal::BadPath),
    }
}

/// Reads the messages of a call of `GetFlightInfo`.
fn info_asked<R: Read>(alloc: Global, r: &mut R) -> Result<FlightRequest, CallRefusal>
    ensures { WhereKnown (R.remaining r.old) (R.remaining r.new) (ReadsMessages GetFlightInfo result) }
{
    let table = read_table(alloc, r)?;
    Ok(FlightRequest::GetFlightInfo(table))
}

/// Reads the messages of a call of `GetSchema`.
fn schema_asked<R: Read>(alloc: Global, r: &mut R) -> Result<FlightRequest, CallRefusal>
    ensures { WhereKnown (R.remaining r.old) (R.remaining r.new) (ReadsMessages GetSchema result) }
{
    let table = read_table(alloc, r)?;
    Ok(FlightRequest::GetSchema(table))
}

/// Reads the messages of a call of `ListFlights`.
fn list_asked<R: Read>(alloc: Global, r: &mut R) -> Result<FlightRequest, CallRefusal>
    ensures { WhereKnown (R.remaining r.old) (R.remaining r.new) (ReadsMessages ListFlights result) }
{
    read_criteria(alloc, r)?;
    Ok(FlightRequest::ListFlights)
}

/// Reads the messages of a call of `DoGet`.
fn get_asked<R: Read>(alloc: Global, r: &mut R) -> Result<FlightRequest, CallRefusal>
    ensures { WhereKnown (R.remaining r.old) (R.remaining r.new) (ReadsMessages DoGet result) }
{
    let ticket = read_ticket(alloc, r)?;
    Ok(FlightRequest::DoGet(ticket))
}

/// Reads the messages of a call of `DoPut`.
fn put_asked<R: Read>(alloc: Global, r: &mut R) -> Result<FlightRequest, CallRefusal>
    ensures { WhereKnown (R.remaining r.old) (R.remaining r.new) (ReadsMessages DoPut result) }
{
    let upload = read_upload(alloc, r)?;
    Ok(FlightRequest::DoPut(upload))
}

/// Reads the messages of a call of this method, and the end behind them.
fn read_messages<R: Read>(
    alloc: Global,
    r: &mut R,
    method: Method,
) -> Result<FlightRequest, CallRefusal>
    ensures { WhereKnown (R.remaining r.old) (R.remaining r.new) (ReadsMessages method result) }
{
    match method {
        Method::GetFlightInfo => info_asked(alloc, r),
        Method::GetSchema => schema_asked(alloc, r),
        Method::ListFlights => list_asked(alloc, r),
        Method::DoGet => get_asked(alloc, r),
        Method::DoPut => put_asked(alloc, r),
    }
}

/// What a call asks for, read to its end, or the refusal that stands in it, read no further than that.
pub fn read_call<R: Read>(alloc: Global, r: &mut R) -> Result<FlightRequest, CallRefusal>
    ensures { WhereKnown (R.remaining r.old) (R.remaining r.new) (ReadsCall result) }
{
    let method = read_method(alloc, r)?;
    read_messages(alloc, r, method)
}
