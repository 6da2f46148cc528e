//! Rows that are put.

ghost use Rattle.std.specs.Option.{option_map};
ghost use Rattle.grpc_frames.specs.FrameFaults.{WhereKnown};
ghost use Rattle.header_types.specs.Views.{schema_of};
ghost use Rattle.json_client.specs.Puts.{IsToldOfPut, PutsRows};

use crate::fault::RowCallFault;
use crate::making::upload_of_rows;
use client_calls::call_put;
use header_types::Schema;
use std::alloc::Global;
use std::io::{Read, Write};

/// Uploads the rows that the lines of a text tell (RFC 8259; JSON Lines), to this table and under this id
/// (Apache Arrow, "Flight.proto", `DoPut`), and gives which version of the table they made. The rows are of the schema, where one is
/// given, else of that of [`json_rows::schema_of_rows`]; they are cut into batches of up to 65,536 rows and of up to 4,128,768 bytes.
///
/// - [`RowCallFault::Rows`] and [`RowCallFault::Upload`]: the lines make no upload, as [`crate::upload_of_rows`] says. Nothing is
///   sent then.
/// - [`RowCallFault::Call`]: the call has no answer, as [`call_put`] says; the rows may have been taken nonetheless.
pub fn put_rows<R: Read, W: Write>(
    alloc: Global,
    r: &mut R,
    w: &mut W,
    table: &str,
    id: [u8; 16],
    text: &[u8],
    schema: Option<&Schema>,
) -> Result<u64, RowCallFault>
    // What has gone out is the request of an upload of the rows, or a beginning of it where it could not be written.
    ensures sent { WhereKnown (W.contents w.old) (W.contents w.new)
        (PutsRows table.now id (option_map (λ s. schema_of s.now) schema.entry) text.now result) }
    // What was told, and what is left of the input behind it.
    ensures told { WhereKnown (R.remaining r.old) (R.remaining r.new) (IsToldOfPut id result) }
{
    let upload = upload_of_rows(alloc, table, id, text, schema)?;
    match call_put(alloc, r, w, &upload) {
        Ok(version) => Ok(version),
        Err(fault) => Err(RowCallFault::Call(fault)),
    }
}
