//! `flightd get --all-locations`.

ghost use Rattle.std.specs.Prelude.{◌≡◌, [], ◌∷◌, map};
ghost use Rattle.proto_messages.specs.Descriptor.{Values};
ghost use Rattle.proto_wire.specs.Flight.{endpoint_descriptor};
ghost use Rattle.proto_wire.specs.FlightValues.{info_values, location_values};
ghost use Rattle.client_command.specs.Everywhere.{FramesSay, GetsFramesEverywhere, GetsRowsEverywhere, PrintsFrames, RedeemsEverywhere, RunsEverywhere, TicketFor, GetsEverywhereAsked};
ghost use Rattle.client_command.specs.Tables.{endpoint_locations};

use crate::asking::{frames_at, info_at};
use crate::fault::CommandFault;
use crate::latest::latest_in;
use crate::printing::tell_rows;
use crate::reporting::report;
use crate::visiting::visit_all;
use crate::words::{table_at, ticket_by};
use client_calls::{Download, read_download};
use client_connections::Connect;
use proto_wire::{FlightInfo, Location};
use std::alloc::Global;
use std::io::Write;
use std::net::SocketAddrV4;
use table_types::Ticket;

/// The trailer of a call that was answered, in its frame (gRPC over HTTP2, "Responses").
const OK_TRAILER: [u8; 6] = [128, 0, 0, 0, 1, 0];

/// Where a table with one endpoint is served.
fn locations_in(info: &FlightInfo) -> &[Location]
    ensures { (endpoint : Values endpoint_descriptor) → (info_values info.now).1.1.0 ≡ endpoint ∷ []
        → map location_values result.now ≡ endpoint_locations endpoint }
{
    match info.endpoint.as_slice() {
        [endpoint] => endpoint.location.as_slice(),
        _ => &[],
    }
}

/// The ticket for this version of the table that is told of; where there is no version, for the latest.
fn ticket_for(
    alloc: Global,
    info: &FlightInfo,
    table: &str,
    version: Option<u64>,
) -> Result<Ticket, CommandFault>
    ensures { TicketFor table.now version (info_values info.now) result }
{
    let latest = latest_in(alloc, info, table)?;
    match version {
        Some(version) => ticket_by(alloc, table, version),
        None => Ok(latest),
    }
}

/// The frames that the server at this address gives for this ticket, where the locations all give the same.
fn redeem_at<C: Connect, E: Write>(
    alloc: Global,
    connect: &mut C,
    address: SocketAddrV4,
    ticket: &Ticket,
    locations: &[Location],
    err: &mut E,
) -> Result<Vec<u8>, CommandFault>
    ensures { RedeemsEverywhere address ticket.now (map location_values locations.now) result
        (C.log connect.old) (C.log connect.new) (E.contents err.old) (E.contents err.new) }
{
    let frames = frames_at(alloc, connect, address, ticket)?;
    if visit_all(alloc, connect, locations, ticket, &frames, err)? {
        Ok(frames)
    } else {
        Err(CommandFault::Differs)
    }
}

/// The frames of the version, where the server at this address and all the locations that it tells of give the same.
fn frames_everywhere_at<C: Connect, E: Write>(
    alloc: Global,
    connect: &mut C,
    address: SocketAddrV4,
    table: &str,
    version: Option<u64>,
    err: &mut E,
) -> Result<Vec<u8>, CommandFault>
    ensures { GetsFramesEverywhere address table.now version result
        (C.log connect.old) (C.log connect.new) (E.contents err.old) (E.contents err.new) }
{
    let info = info_at(alloc, connect, address, table)?;
    let ticket = ticket_for(alloc, &info, table, version)?;
    redeem_at(alloc, connect, address, &ticket, locations_in(&info), err)
}

/// The download of these frames.
fn download_of(alloc: Global, mut frames: Vec<u8>) -> Result<Download, CommandFault>
    ensures { FramesSay frames.items result }
{
    frames.extend_from_slice(&OK_TRAILER)?;
    let mut reader = frames.as_slice();
    match read_download(alloc, &mut reader) {
        Ok(download) => Ok(download),
        Err(fault) => Err(CommandFault::Call(fault)),
    }
}

/// Prints the lines of the rows of the version in these frames.
fn print_frames<O: Write>(alloc: Global, frames: Vec<u8>, out: &mut O) -> Result<(), CommandFault>
    ensures { PrintsFrames frames.items result (O.contents out.old) (O.contents out.new) }
{
    let download = download_of(alloc, frames)?;
    tell_rows(alloc, out, &download)
}

/// Asks the server at this address what it tells of a table and for a version of it, the latest one where no other is
/// asked for, and then the server at each location that was told of for the same version, each over a connection of its
/// own. Writes a line for each location to `err`: its URI, and `same` where it gives the same frames, else the name of
/// the fault. Where all give the same, prints the lines of the rows to `out`, as [`get_rows_at`](crate::get_rows_at)
/// does.
///
/// - [`CommandFault::Connect`] and [`CommandFault::Call`]: the server at the address did not answer one of the two
///   calls, or what it tells of the table is not one endpoint with a ticket for a version of it, or the frames that all
///   gave have no version in them.
/// - [`CommandFault::BadTable`]: there is no such version.
/// - [`CommandFault::Differs`]: one of the locations is none, or gave no frames, or others. No row is printed then.
/// - [`CommandFault::Rows`], [`CommandFault::Io`] and [`CommandFault::OutOfMemory`]: as `get_rows_at` says; and `Io`
///   too where the line of a location could not be written, and `OutOfMemory` where memory for it, for the ticket or
///   for reading the frames was refused.
pub fn get_everywhere_at<C: Connect, O: Write, E: Write>(
    alloc: Global,
    connect: &mut C,
    address: SocketAddrV4,
    table: &str,
    version: Option<u64>,
    out: &mut O,
    err: &mut E,
) -> Result<(), CommandFault>
    ensures { GetsRowsEverywhere address table.now version result (C.log connect.old) (C.log connect.new)
        (O.contents out.old) (O.contents out.new) (E.contents err.old) (E.contents err.new) }
{
    let frames = frames_everywhere_at(alloc, connect, address, table, version, err)?;
    print_frames(alloc, frames, out)
}

/// Gets rows as [`get_everywhere_run`] does, and gives the fault itself.
fn get_everywhere_asked<C: Connect, O: Write, E: Write>(
    alloc: Global,
    connect: &mut C,
    address: &str,
    table: &str,
    version: Option<u64>,
    out: &mut O,
    err: &mut E,
) -> Result<(), CommandFault>
    ensures { GetsEverywhereAsked address.now table.now version result (C.log connect.old) (C.log connect.new)
        (O.contents out.old) (O.contents out.new) (E.contents err.old) (E.contents err.new) }
{
    let address = table_at(address, table)?;
    get_everywhere_at(alloc, connect, address, table, version, out, err)
}

/// `flightd get HOST:PORT TABLE [VERSION] --all-locations`: compares what the locations of this table give with what
/// the server at this address ([`client_connections::address_of`]) gives, and prints the rows where all give the same,
/// as [`get_everywhere_at`] does.
///
/// The exit status is [`SUCCESS`] where every row was printed. Else a line, `flightd: ` and the fault's name, goes to
/// `err` behind those of the locations, and the status is that of the service, where the server at the address refused
/// a call, [`NO_CALL`] of [`CommandFault::BadAddress`] and [`CommandFault::BadTable`], and else [`FAILURE`].
///
/// [`SUCCESS`]: crate::SUCCESS
/// [`FAILURE`]: crate::FAILURE
/// [`NO_CALL`]: crate::NO_CALL
pub fn get_everywhere_run<C: Connect, O: Write, E: Write>(
    alloc: Global,
    connect: &mut C,
    address: &str,
    table: &str,
    version: Option<u64>,
    out: &mut O,
    err: &mut E,
) -> u8
    ensures { RunsEverywhere address.now table.now version result (C.log connect.old) (C.log connect.new)
        (O.contents out.old) (O.contents out.new) (E.contents err.old) (E.contents err.new) }
{
    let done = get_everywhere_asked(alloc, connect, address, table, version, out, err);
    report(done, err)
}
