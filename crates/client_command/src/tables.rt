//! What is printed of tables.

ghost use Rattle.std.specs.Prelude.{◌≡◌, ◌++◌, IfErr, IfOk, OnOk, map, string_bytes};
ghost use Rattle.std.specs.List.{flat_map};
ghost use Rattle.header_types.specs.Views.{schema_of};
ghost use Rattle.proto_wire.specs.FlightValues.{endpoint_values, info_values};
ghost use Rattle.client_command.specs.declared.fault.CommandFault.TheVariants.{OutOfMemory};
ghost use Rattle.client_command.specs.Tables.{TellsInfo, TellsTable, TellsTables, TextSays, endpoint_locations, info_text, location_line, locations_text, numbers_text, table_line};

use crate::fault::CommandFault;
use crate::fields::{push_fields, schema_in};
use crate::latest::latest_in;
use call_protocol::table_in;
use client_calls::ClientFault;
use header_types::Schema;
use proto_wire::{FlightEndpoint, FlightInfo};
use std::alloc::{AllocError, Global};
use table_types::Ticket;

/// The line of this version of a table, which has so many rows and bytes.
fn version_line(alloc: Global, latest: &Ticket, rows: i64, bytes: i64) -> Result<String, AllocError>
    ensures { IfOk result (λ line. string_bytes line ≡ table_line latest.now rows bytes) }
{
    let table = latest.table();
    let version = latest.version();
    format!(in alloc; "{table} {version} {rows} {bytes}\n")
}

/// The line of what is told of a table.
fn table_line(alloc: Global, info: &FlightInfo) -> Result<String, CommandFault>
    ensures { TextSays TellsTable (info_values info.now) result }
{
    let Some(descriptor) = &info.flight_descriptor else {
        return Err(CommandFault::Call(ClientFault::BadAnswer));
    };
    let Ok(table) = table_in(descriptor) else {
        return Err(CommandFault::Call(ClientFault::BadAnswer));
    };
    let latest = latest_in(alloc, info, table)?;
    Ok(version_line(alloc, &latest, info.total_records, info.total_bytes)?)
}

/// The text with this line behind it.
fn with_line(mut text: String, line: &str) -> Result<String, CommandFault>
    ensures more { IfOk result (λ more. string_bytes more ≡ string_bytes text ++ line.now) }
    ensures fault { IfErr result (λ fault. fault ≡ OutOfMemory) }
{
    text.push_str(line)?;
    Ok(text)
}

/// The lines of what is told of tables.
pub(crate) fn tables_text(alloc: Global, infos: &[FlightInfo]) -> Result<String, CommandFault>
    ensures { TextSays TellsTables (map info_values infos.now) result }
{
    let mut text = String::new(alloc);
    for info in infos {
        let line = table_line(alloc, info)?;
        text = with_line(text, line.as_str())?;
    }
    Ok(text)
}

/// The lines of a version, and of how many rows and bytes it has.
fn numbers_text(alloc: Global, version: u64, rows: i64, bytes: i64) -> Result<String, AllocError>
    ensures { IfOk result (λ text. string_bytes text ≡ numbers_text version rows bytes) }
{
    format!(in alloc; "version {version}\nrows {rows}\nbytes {bytes}\n")
}

/// Appends the lines of the locations of an endpoint.
fn push_locations(text: &mut String, endpoint: &FlightEndpoint) -> Result<(), AllocError>
    ensures { OnOk result (string_bytes text.new ≡ string_bytes text.old
        ++ flat_map location_line (endpoint_locations (endpoint_values endpoint.now))) }
{
    for location in &endpoint.location {
        text.push_str("location ")?;
        text.push_str(location.uri.as_str())?;
        text.push('\n')?;
    }
    Ok(())
}

/// Appends the lines of the locations of some endpoints.
fn push_endpoints(text: &mut String, endpoints: &[FlightEndpoint]) -> Result<(), AllocError>
    ensures { OnOk result (string_bytes text.new ≡ string_bytes text.old
        ++ locations_text (map endpoint_values endpoints.now)) }
{
    for endpoint in endpoints {
        push_locations(text, endpoint)?;
    }
    Ok(())
}

/// The lines of this version of a table, which has this schema.
fn version_text(
    alloc: Global,
    version: u64,
    info: &FlightInfo,
    schema: &Schema,
) -> Result<String, AllocError>
    ensures { IfOk result (λ text. string_bytes text ≡ info_text version (info_values info.now) (schema_of schema.now)) }
{
    let mut text = numbers_text(alloc, version, info.total_records, info.total_bytes)?;
    push_endpoints(&mut text, &info.endpoint)?;
    push_fields(alloc, &mut text, &schema.fields)?;
    Ok(text)
}

/// The lines of what is told of this table.
pub(crate) fn info_text(
    alloc: Global,
    info: &FlightInfo,
    table: &str,
) -> Result<String, CommandFault>
    ensures { TextSays (TellsInfo table.now) (info_values info.now) result }
{
    let latest = latest_in(alloc, info, table)?;
    let schema = schema_in(alloc, &info.schema)?;
    Ok(version_text(alloc, latest.version(), info, &schema)?)
}
