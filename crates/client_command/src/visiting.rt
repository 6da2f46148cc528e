//! The locations of a table, each asked for the same version.

ghost use Rattle.std.specs.Prelude.{◌≡◌, ◌≢◌, Ok, IfOk, IfErr, OnOk, MatchResult, map, string_bytes};
ghost use Rattle.std.specs.Io.KnownBytes.{Appends};
ghost use Rattle.proto_wire.specs.FlightValues.{location_values};
ghost use Rattle.client_command.specs.declared.fault.CommandFault.TheVariants.{Differs};
ghost use Rattle.client_command.specs.Visiting.{ComparesAt, VisitsAll, VisitsOne, same_line};
ghost use Rattle.client_command.specs.Writing.{IsOfLines};

use crate::asking::frames_at;
use crate::fault::CommandFault;
use crate::writing::write_text;
use client_connections::{Connect, location_of};
use proto_wire::Location;
use std::alloc::{AllocError, Global};
use std::io::Write;
use table_types::Ticket;

/// Whether these are the same frames.
fn compare(others: &[u8], frames: &[u8]) -> Result<(), CommandFault>
    ensures { MatchResult result (λ _. others.now ≡ frames.now) (λ fault. (fault ≡ Differs) × (others.now ≢ frames.now)) }
{
    if others == frames {
        Ok(())
    } else {
        Err(CommandFault::Differs)
    }
}

/// Asks the server at the location of this URI for the version of this ticket, and says why it does not give these
/// frames.
fn compare_at<C: Connect>(
    alloc: Global,
    connect: &mut C,
    uri: &str,
    ticket: &Ticket,
    frames: &[u8],
) -> Result<(), CommandFault>
    ensures { ComparesAt ticket.now frames.now uri.now result (C.log connect.old) (C.log connect.new) }
{
    let Some(address) = location_of(uri) else {
        return Err(CommandFault::BadLocation);
    };
    let others = frames_at(alloc, connect, address, ticket)?;
    compare(&others, frames)
}

/// The line of a location.
fn location_line(
    alloc: Global,
    uri: &str,
    compared: &Result<(), CommandFault>,
) -> Result<String, AllocError>
    ensures { compared.now ≡ Ok tt → IfOk result (λ line. string_bytes line ≡ same_line uri.now) }
{
    match compared {
        Ok(()) => format!(in alloc; "{uri} same\n"),
        Err(fault) => format!(in alloc; "{uri} {fault}\n"),
    }
}

/// Writes the line of a location.
fn tell_location<E: Write>(
    alloc: Global,
    err: &mut E,
    uri: &str,
    compared: &Result<(), CommandFault>,
) -> Result<(), CommandFault>
    ensures same { OnOk result (compared.now ≡ Ok tt
        → Appends (E.contents err.old) (E.contents err.new) (same_line uri.now)) }
    ensures fault { IfErr result IsOfLines }
{
    let line = location_line(alloc, uri, compared)?;
    write_text(err, line.as_bytes())
}

/// Asks the server at the location of this URI, and writes its line.
fn visit<C: Connect, E: Write>(
    alloc: Global,
    connect: &mut C,
    uri: &str,
    ticket: &Ticket,
    frames: &[u8],
    err: &mut E,
) -> Result<bool, CommandFault>
    ensures { VisitsOne ticket.now frames.now uri.now result
        (C.log connect.old) (C.log connect.new) (E.contents err.old) (E.contents err.new) }
{
    let compared = compare_at(alloc, connect, uri, ticket, frames);
    tell_location(alloc, err, uri, &compared)?;
    Ok(compared.is_ok())
}

/// Asks the server at each of these locations, one after the other, for the version of this ticket, writes a line for
/// each, and says whether they all give these frames.
pub(crate) fn visit_all<C: Connect, E: Write>(
    alloc: Global,
    connect: &mut C,
    locations: &[Location],
    ticket: &Ticket,
    frames: &[u8],
    err: &mut E,
) -> Result<bool, CommandFault>
    ensures { VisitsAll ticket.now frames.now (map location_values locations.now) result
        (C.log connect.old) (C.log connect.new) (E.contents err.old) (E.contents err.new) }
{
    let mut same = true;
    for location in locations {
        let is_same = visit(alloc, connect, location.uri.as_str(), ticket, frames, err)?;
        same = same && is_same;
    }
    Ok(same)
}
