//! `flightd get`.

ghost use Rattle.std.specs.Prelude.{◌≡◌};
ghost use Rattle.std.specs.Io.KnownBytes.{Keeps};
ghost use Rattle.client_command.specs.Gets.{GetsAsked, GetsAt, GetsLatestAt, GetsTableAt, GetsVersionAt, RunsGet};

use crate::asking::{get_at, info_at};
use crate::fault::CommandFault;
use crate::latest::latest_in;
use crate::printing::tell_rows;
use crate::reporting::report;
use crate::words::{table_at, ticket_by};
use client_connections::Connect;
use std::alloc::Global;
use std::io::Write;
use std::net::SocketAddrV4;
use table_types::Ticket;

/// Asks the server at this address for the version of this ticket, and prints the lines of its rows to `out`, as
/// [`json_client::write_rows`] does. The writer is flushed. The connection is closed before the first line is printed.
///
/// - [`CommandFault::Connect`]: there is no connection.
/// - [`CommandFault::Call`]: the call has no answer, as [`client_calls::call_get`] says. No line is printed then.
/// - [`CommandFault::Rows`]: rows have no lines. The lines of the batches before them have been printed.
/// - [`CommandFault::Io`]: the lines could not be written; a beginning of them may have been.
pub fn get_rows_at<C: Connect, O: Write>(
    alloc: Global,
    connect: &mut C,
    address: SocketAddrV4,
    ticket: &Ticket,
    out: &mut O,
) -> Result<(), CommandFault>
    ensures { GetsAt address ticket.now result (C.log connect.old) (C.log connect.new) (O.contents out.old) (O.contents out.new) }
{
    let download = get_at(alloc, connect, address, ticket)?;
    tell_rows(alloc, out, &download)
}

/// Gets the rows of this version of this table, as [`get_rows_at`] does.
fn get_version_at<C: Connect, O: Write>(
    alloc: Global,
    connect: &mut C,
    address: SocketAddrV4,
    table: &str,
    version: u64,
    out: &mut O,
) -> Result<(), CommandFault>
    ensures { GetsVersionAt address table.now version result
        (C.log connect.old) (C.log connect.new) (O.contents out.old) (O.contents out.new) }
{
    let ticket = ticket_by(alloc, table, version)?;
    get_rows_at(alloc, connect, address, &ticket, out)
}

/// Asks the server at this address what it tells of a table, over one connection, and gets the rows of the latest
/// version that it tells of, over another, as [`get_rows_at`] does.
///
/// The faults are those of `get_rows_at`. [`CommandFault::Call`] is told too where the first call has no answer, as
/// [`client_calls::call_info`] says, or where the answer does not tell of one endpoint with a ticket for a version of
/// this table, and [`CommandFault::OutOfMemory`] where memory for the ticket was refused. No second connection is
/// opened then.
pub fn get_latest_at<C: Connect, O: Write>(
    alloc: Global,
    connect: &mut C,
    address: SocketAddrV4,
    table: &str,
    out: &mut O,
) -> Result<(), CommandFault>
    ensures { GetsLatestAt address table.now result
        (C.log connect.old) (C.log connect.new) (O.contents out.old) (O.contents out.new) }
{
    let info = info_at(alloc, connect, address, table)?;
    let ticket = latest_in(alloc, &info, table)?;
    get_rows_at(alloc, connect, address, &ticket, out)
}

/// Gets the rows of this version of this table; where there is none, of the latest.
fn get_table_at<C: Connect, O: Write>(
    alloc: Global,
    connect: &mut C,
    address: SocketAddrV4,
    table: &str,
    version: Option<u64>,
    out: &mut O,
) -> Result<(), CommandFault>
    ensures { GetsTableAt address table.now version result
        (C.log connect.old) (C.log connect.new) (O.contents out.old) (O.contents out.new) }
{
    match version {
        Some(version) => get_version_at(alloc, connect, address, table, version, out),
        None => get_latest_at(alloc, connect, address, table, out),
    }
}

/// Gets rows as [`get_run`] does, and gives the fault itself.
fn get_asked<C: Connect, O: Write>(
    alloc: Global,
    connect: &mut C,
    address: &str,
    table: &str,
    version: Option<u64>,
    out: &mut O,
) -> Result<(), CommandFault>
    ensures { GetsAsked address.now table.now version result
        (C.log connect.old) (C.log connect.new) (O.contents out.old) (O.contents out.new) }
{
    let address = table_at(address, table)?;
    get_table_at(alloc, connect, address, table, version, out)
}

/// `flightd get HOST:PORT TABLE [VERSION]`: prints the rows of this version of this table at the server at this address
/// ([`client_connections::address_of`]), as [`get_rows_at`] does; where there is no version, those of the latest one,
/// as [`get_latest_at`] does.
///
/// The exit status is [`SUCCESS`] where every row was printed. Else a line, `flightd: ` and the fault's name, goes to
/// `err`, and the status is that of the service, where the service refused a call, [`NO_CALL`] of
/// [`CommandFault::BadAddress`] and [`CommandFault::BadTable`], and else [`FAILURE`].
///
/// [`SUCCESS`]: crate::SUCCESS
/// [`FAILURE`]: crate::FAILURE
/// [`NO_CALL`]: crate::NO_CALL
pub fn get_run<C: Connect, O: Write, E: Write>(
    alloc: Global,
    connect: &mut C,
    address: &str,
    table: &str,
    version: Option<u64>,
    out: &mut O,
    err: &mut E,
) -> u8
    ensures done { RunsGet address.now table.now version result
        (C.log connect.old) (C.log connect.new) (O.contents out.old) (O.contents out.new) }
    ensures silent { result ≡ 0 → Keeps (E.contents err.old) (E.contents err.new) }
{
    let done = get_asked(alloc, connect, address, table, version, out);
    report(done, err)
}
