//! `flightd list`.

ghost use Rattle.std.specs.Prelude.{◌≡◌};
ghost use Rattle.std.specs.Io.KnownBytes.{Keeps};
ghost use Rattle.client_command.specs.Tellings.{ListsAt, RunsTelling, TellsAsked};
ghost use Rattle.client_command.specs.Words.{AddressBy};

use crate::asking::list_at;
use crate::fault::CommandFault;
use crate::reporting::report;
use crate::tables::tables_text;
use crate::words::address_by;
use crate::writing::write_text;
use client_connections::Connect;
use std::alloc::Global;
use std::io::Write;
use std::net::SocketAddrV4;

/// Asks the server at this address for its tables, and prints their lines.
fn print_tables_at<C: Connect, O: Write>(
    alloc: Global,
    connect: &mut C,
    address: SocketAddrV4,
    out: &mut O,
) -> Result<(), CommandFault>
    ensures { ListsAt address result (C.log connect.old) (C.log connect.new) (O.contents out.old) (O.contents out.new) }
{
    let infos = list_at(alloc, connect, address)?;
    let text = tables_text(alloc, &infos)?;
    write_text(out, text.as_bytes())
}

/// Lists tables as [`list_run`] does, and gives the fault itself.
fn list_asked<C: Connect, O: Write>(
    alloc: Global,
    connect: &mut C,
    address: &str,
    out: &mut O,
) -> Result<(), CommandFault>
    ensures { TellsAsked ListsAt (AddressBy address.now) result
        (C.log connect.old) (C.log connect.new) (O.contents out.old) (O.contents out.new) }
{
    let address = address_by(address)?;
    print_tables_at(alloc, connect, address, out)
}

/// `flightd list HOST:PORT`: asks the server at this address ([`client_connections::address_of`]) for its tables, as
/// [`client_calls::call_list`] does, and prints a line for each to `out`, in the order in which the server tells of
/// them: its name, its latest version, and how many rows and bytes that has, with a space between each two, and -1 for
/// a number that the server does not know. The writer is flushed. No line is printed where what is told of one of the
/// tables does not name it and its latest version.
///
/// The exit status is [`SUCCESS`] where every line was printed. Else a line, `flightd: ` and the fault's name, goes to
/// `err`, and the status is that of the service, where the service refused the call, [`NO_CALL`] of
/// [`CommandFault::BadAddress`], and else [`FAILURE`].
///
/// [`SUCCESS`]: crate::SUCCESS
/// [`FAILURE`]: crate::FAILURE
/// [`NO_CALL`]: crate::NO_CALL
pub fn list_run<C: Connect, O: Write, E: Write>(
    alloc: Global,
    connect: &mut C,
    address: &str,
    out: &mut O,
    err: &mut E,
) -> u8
    ensures done { RunsTelling ListsAt (AddressBy address.now) result
        (C.log connect.old) (C.log connect.new) (O.contents out.old) (O.contents out.new) }
    ensures silent { result ≡ 0 → Keeps (E.contents err.old) (E.contents err.new) }
{
    let done = list_asked(alloc, connect, address, out);
    report(done, err)
}
