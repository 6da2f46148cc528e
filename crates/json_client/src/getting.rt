//! Rows that are got.

ghost use Rattle.grpc_frames.specs.FrameFaults.{WhereKnown};
ghost use Rattle.json_client.specs.Gets.{GetsRows, RequestsRows};

use crate::fault::RowCallFault;
use crate::printing::write_rows;
use client_calls::call_get;
use std::alloc::Global;
use std::io::{Read, Write};
use table_types::Ticket;

/// Writes the lines of the rows of a version of a table, which it asks for with this ticket (Apache Arrow, "Flight.proto",
/// `DoGet`), to `out`: as [`write_rows`] does. Lines are written only once all of the version has come.
///
/// - [`RowCallFault::Call`]: the call has no answer, as [`call_get`] says. No line is written then.
/// - [`RowCallFault::Rows`] and [`RowCallFault::Output`]: as `write_rows` says.
pub fn get_rows<R: Read, W: Write, O: Write>(
    alloc: Global,
    r: &mut R,
    w: &mut W,
    ticket: &Ticket,
    out: &mut O,
) -> Result<(), RowCallFault>
    // What has gone out is the request, or a beginning of it where it could not be written.
    ensures sent { WhereKnown (W.contents w.old) (W.contents w.new) (RequestsRows ticket.now result) }
    // What was told, and which lines were written of it.
    ensures told { GetsRows (R.remaining r.old) (R.remaining r.new) (O.contents out.old) (O.contents out.new) result }
{
    match call_get(alloc, r, w, ticket) {
        Ok(download) => write_rows(alloc, out, &download),
        Err(fault) => Err(RowCallFault::Call(fault)),
    }
}
