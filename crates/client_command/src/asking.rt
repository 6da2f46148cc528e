//! Calls, each over a connection of its own.

ghost use Rattle.table_types.specs.Uploads.{Upload as Uploaded, upload_text};
ghost use Rattle.table_types.specs.Valid.{IsUpload};
ghost use Rattle.std.specs.Prelude.{◌≡◌};
ghost use Rattle.downloads.specs.Taken.{GivesDownload, HasDownload};
ghost use Rattle.client_calls.specs.Requests.{get_request, info_request, list_request, put_request};
ghost use Rattle.client_calls.specs.Results.{GivesFrames, GivesInfo, GivesInfos, GivesVersion, HasFrames, HasInfo, HasInfos, HasVersion};
ghost use Rattle.client_command.specs.Calls.{Calls};

use crate::fault::CommandFault;
use client_calls::{Download, call_get, call_get_frames, call_info, call_list, call_put};
use client_connections::Connect;
use proto_wire::FlightInfo;
use std::alloc::Global;
use std::net::SocketAddrV4;
use table_types::Ticket;
use uploads::Upload;

/// Uploads to the server at this address, and gives which version of its table the upload made.
pub(crate) fn put_at<C: Connect>(
    alloc: Global,
    connect: &mut C,
    address: SocketAddrV4,
    upload: &Upload,
) -> Result<u64, CommandFault>
    ensures { (u : Uploaded) → IsUpload u → upload_text u ≡ upload.now
        → Calls address (put_request u) (GivesVersion u.id) (HasVersion u.id) result (C.log connect.old) (C.log connect.new) }
{
    let (mut input, mut output) = match connect.open(alloc, address) {
        Ok(ends) => ends,
        Err(fault) => return Err(CommandFault::Connect(fault)),
    };
    let told = call_put(alloc, &mut input, &mut output, upload);
    connect.close(input, output);
    match told {
        Ok(version) => Ok(version),
        Err(fault) => Err(CommandFault::Call(fault)),
    }
}

/// Asks the server at this address for the version of this ticket.
pub(crate) fn get_at<C: Connect>(
    alloc: Global,
    connect: &mut C,
    address: SocketAddrV4,
    ticket: &Ticket,
) -> Result<Download, CommandFault>
    ensures { Calls address (get_request ticket.now) GivesDownload HasDownload result (C.log connect.old) (C.log connect.new) }
{
    let (mut input, mut output) = match connect.open(alloc, address) {
        Ok(ends) => ends,
        Err(fault) => return Err(CommandFault::Connect(fault)),
    };
    let told = call_get(alloc, &mut input, &mut output, ticket);
    connect.close(input, output);
    match told {
        Ok(download) => Ok(download),
        Err(fault) => Err(CommandFault::Call(fault)),
    }
}

/// Asks the server at this address for the version of this ticket, and gives the frames that it comes in.
pub(crate) fn frames_at<C: Connect>(
    alloc: Global,
    connect: &mut C,
    address: SocketAddrV4,
    ticket: &Ticket,
) -> Result<Vec<u8>, CommandFault>
    ensures { Calls address (get_request ticket.now) GivesFrames HasFrames result (C.log connect.old) (C.log connect.new) }
{
    let (mut input, mut output) = match connect.open(alloc, address) {
        Ok(ends) => ends,
        Err(fault) => return Err(CommandFault::Connect(fault)),
    };
    let told = call_get_frames(alloc, &mut input, &mut output, ticket);
    connect.close(input, output);
    match told {
        Ok(frames) => Ok(frames),
        Err(fault) => Err(CommandFault::Call(fault)),
    }
}

/// Asks the server at this address what it tells of a table.
pub(crate) fn info_at<C: Connect>(
    alloc: Global,
    connect: &mut C,
    address: SocketAddrV4,
    table: &str,
) -> Result<FlightInfo, CommandFault>
    ensures { Calls address (info_request table.now) GivesInfo HasInfo result (C.log connect.old) (C.log connect.new) }
{
    let (mut input, mut output) = match connect.open(alloc, address) {
        Ok(ends) => ends,
        Err(fault) => return Err(CommandFault::Connect(fault)),
    };
    let told = call_info(alloc, &mut input, &mut output, table);
    connect.close(input, output);
    match told {
        Ok(info) => Ok(info),
        Err(fault) => Err(CommandFault::Call(fault)),
    }
}

/// Asks the server at this address what it tells of each of its tables.
pub(crate) fn list_at<C: Connect>(
    alloc: Global,
    connect: &mut C,
    address: SocketAddrV4,
) -> Result<Vec<FlightInfo>, CommandFault>
    ensures { Calls address list_request GivesInfos HasInfos result (C.log connect.old) (C.log connect.new) }
{
    let (mut input, mut output) = match connect.open(alloc, address) {
        Ok(ends) => ends,
        Err(fault) => return Err(CommandFault::Connect(fault)),
    };
    let told = call_list(alloc, &mut input, &mut output);
    connect.close(input, output);
    match told {
        Ok(infos) => Ok(infos),
        Err(fault) => Err(CommandFault::Call(fault)),
    }
}
