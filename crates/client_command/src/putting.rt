//! `flightd put`.

ghost use Rattle.std.specs.Prelude.{◌≡◌};
ghost use Rattle.std.specs.Option.{option_map};
ghost use Rattle.std.specs.Io.KnownBytes.{Keeps};
ghost use Rattle.header_types.specs.Views.{schema_of};
ghost use Rattle.client_command.specs.Puts.{PutsAt, RunsPut};

use crate::asking::put_at;
use crate::fault::CommandFault;
use crate::reporting::report_put;
use crate::words::PutWords;
use crate::writing::tell_put;
use client_connections::Connect;
use header_types::Schema;
use json_client::upload_of_rows;
use std::alloc::Global;
use std::io::Write;
use std::net::SocketAddrV4;

/// Puts the rows that the lines of a text tell into this table at the server at this address, under this id, as
/// `json_client` does, and prints the line of the upload to `out`: its id in 32 lower-case
/// hexadecimal digits, a space, the version of the table that it made, and a line feed. The writer is flushed. The rows
/// are of the schema, where one is given, else of that of [`json_rows::schema_of_rows`].
///
/// - [`CommandFault::Rows`] and [`CommandFault::Upload`]: the lines make no upload, as [`upload_of_rows`] says. No
///   connection is opened then.
/// - [`CommandFault::Connect`]: there is no connection.
/// - [`CommandFault::Call`]: the call has no answer, as [`client_calls::call_put`] says; the rows may have been taken
///   nonetheless.
/// - [`CommandFault::Io`]: the line could not be written, and [`CommandFault::OutOfMemory`]: memory for it was refused.
///   The rows have been taken then.
///
/// The connection is closed before the line is printed.
pub fn put_rows_at<C: Connect, O: Write>(
    alloc: Global,
    connect: &mut C,
    address: SocketAddrV4,
    table: &str,
    id: [u8; 16],
    text: &[u8],
    schema: Option<&Schema>,
    out: &mut O,
) -> Result<(), CommandFault>
    ensures { PutsAt address table.now id (option_map (λ s. schema_of s.now) schema.entry) text.now result
        (C.log connect.old) (C.log connect.new) (O.contents out.old) (O.contents out.new) }
{
    let upload = match upload_of_rows(alloc, table, id, text, schema) {
        Ok(upload) => upload,
        Err(fault) => return Err(CommandFault::of_rows(fault)),
    };
    let version = put_at(alloc, connect, address, &upload)?;
    tell_put(alloc, out, id, version)
}

/// `flightd put HOST:PORT TABLE FILE`: puts the rows that the lines of a file's text tell into the table that the words name
/// ([`put_words`](crate::put_words)) at the server that they name, and prints a line, as [`put_rows_at`] does. The rows are
/// of the schema, where one is given, else of one that is made of them.
///
/// The exit status is [`SUCCESS`] where the line was printed. Else a line, `flightd: ` and the fault's name, goes to
/// `err`, and the status is that of the service, where the service refused the put, and else [`FAILURE`]. Where the upload
/// may have been taken nonetheless, as where an answer was lost, a second line says how it is put again:
/// `flightd: put it again with --id ` and the upload's id. It makes the same version then, once.
///
/// [`SUCCESS`]: crate::SUCCESS
/// [`FAILURE`]: crate::FAILURE
pub fn put_run<C: Connect, O: Write, E: Write>(
    alloc: Global,
    connect: &mut C,
    words: PutWords<'_>,
    text: &[u8],
    schema: Option<&Schema>,
    out: &mut O,
    err: &mut E,
) -> u8
    ensures done { RunsPut words.entry.address words.entry.table.now words.entry.id (option_map (λ s. schema_of s.now) schema.entry) text.now result
        (C.log connect.old) (C.log connect.new) (O.contents out.old) (O.contents out.new) }
    ensures silent { result ≡ 0 → Keeps (E.contents err.old) (E.contents err.new) }
{
    let PutWords { address, table, id } = words;
    let done = put_rows_at(alloc, connect, address, table, id, text, schema, out);
    report_put(alloc, id, done, err)
}
