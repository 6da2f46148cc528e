//! `flightd info`.

ghost use Rattle.std.specs.Prelude.{◌≡◌};
ghost use Rattle.std.specs.Io.KnownBytes.{Keeps};
ghost use Rattle.client_command.specs.Tellings.{InformsAt, RunsTelling, TellsAsked};
ghost use Rattle.client_command.specs.Words.{NamesTable};

use crate::asking::info_at;
use crate::fault::CommandFault;
use crate::reporting::report;
use crate::tables::info_text;
use crate::words::table_at;
use crate::writing::write_text;
use client_connections::Connect;
use std::alloc::Global;
use std::io::Write;
use std::net::SocketAddrV4;

/// Asks the server at this address what it tells of a table, and prints its lines.
fn print_info_at<C: Connect, O: Write>(
    alloc: Global,
    connect: &mut C,
    address: SocketAddrV4,
    table: &str,
    out: &mut O,
) -> Result<(), CommandFault>
    ensures { InformsAt table.now address result (C.log connect.old) (C.log connect.new) (O.contents out.old) (O.contents out.new) }
{
    let info = info_at(alloc, connect, address, table)?;
    let text = info_text(alloc, &info, table)?;
    write_text(out, text.as_bytes())
}

/// Tells of a table as [`info_run`] does, and gives the fault itself.
fn info_asked<C: Connect, O: Write>(
    alloc: Global,
    connect: &mut C,
    address: &str,
    table: &str,
    out: &mut O,
) -> Result<(), CommandFault>
    ensures { TellsAsked (InformsAt table.now) (NamesTable address.now table.now) result
        (C.log connect.old) (C.log connect.new) (O.contents out.old) (O.contents out.new) }
{
    let address = table_at(address, table)?;
    print_info_at(alloc, connect, address, table, out)
}

/// `flightd info HOST:PORT TABLE`: asks the server at this address ([`client_connections::address_of`]) what it tells
/// of this table, as [`client_calls::call_info`] does, and prints its lines to `out`: `version V`, the latest version;
/// `rows N` and `bytes N`, how many of them that has, -1 where the server does not know; `location URI` for each
/// location where it is served; and `field NAME: TYPE` for each field of the table's schema, in order, by
/// [`schema_words::field_words`]. The writer is flushed. An answer whose schema can't be read is no answer
/// ([`client_calls::ClientFault::BadAnswer`]).
///
/// The exit status is [`SUCCESS`] where every line was printed. Else a line, `flightd: ` and the fault's name, goes to
/// `err`, and the status is that of the service, where the service refused the call, [`NO_CALL`] of
/// [`CommandFault::BadAddress`] and [`CommandFault::BadTable`], and else [`FAILURE`].
///
/// [`SUCCESS`]: crate::SUCCESS
/// [`FAILURE`]: crate::FAILURE
/// [`NO_CALL`]: crate::NO_CALL
pub fn info_run<C: Connect, O: Write, E: Write>(
    alloc: Global,
    connect: &mut C,
    address: &str,
    table: &str,
    out: &mut O,
    err: &mut E,
) -> u8
    ensures done { RunsTelling (InformsAt table.now) (NamesTable address.now table.now) result
        (C.log connect.old) (C.log connect.new) (O.contents out.old) (O.contents out.new) }
    ensures silent { result ≡ 0 → Keeps (E.contents err.old) (E.contents err.new) }
{
    let done = info_asked(alloc, connect, address, table, out);
    report(done, err)
}
