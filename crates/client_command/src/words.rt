//! The words of a client.

ghost use Rattle.std.specs.Prelude.{◌≡◌, Ok, IfOk, IfErr, string_bytes};
ghost use Rattle.std.specs.Option.{option_map};
ghost use Rattle.client_connections.specs.Addresses.{NamesNone, NamesServer};
ghost use Rattle.client_command.specs.Words.{AddressBy, IdBy, NamesNoPut, NamesTable, TableBy, TicketBy};

use crate::fault::CommandFault;
use call_protocol::id_in;
use client_connections::address_of;
use std::alloc::Global;
use std::net::SocketAddrV4;
use table_types::{Ticket, is_table_name};

/// What the words of a put name.
#[derive(Clone, Copy, Debug)]
pub struct PutWords<'a> {
    /// The address of the server.
    pub address: SocketAddrV4,
    /// The table's name.
    pub table: &'a str,
    /// The upload's id.
    pub id: [u8; 16],
}

/// What the words of `flightd put HOST:PORT TABLE FILE --id ID` name, of which nothing is read or opened yet: the server
/// at this address ([`client_connections::address_of`]), a table of this name ([`table_types::is_table_name`]), and the
/// upload's id, which is what `id` writes in 32 lower-case hexadecimal digits; where there is none, it is `random`,
/// which the caller has drawn.
///
/// [`CommandFault::BadAddress`], [`CommandFault::BadTable`] and [`CommandFault::BadId`] tell of a word that names nothing,
/// and only of such a one; the status of each is [`NO_CALL`](crate::NO_CALL).
pub fn put_words<'a>(
    address: &str,
    table: &'a str,
    id: Option<&str>,
    random: [u8; 16],
) -> Result<PutWords<'a>, CommandFault>
    ensures server { IfOk result (λ words. NamesTable address.now table.now (Ok words.address)) }
    ensures table { IfOk result (λ words. words.table.now ≡ table.now) }
    ensures named { IfOk result (λ words. IdBy (option_map (λ text. text.now) id.entry) random (Ok words.id)) }
    ensures none { IfErr result (NamesNoPut address.now table.now (option_map (λ text. text.now) id.entry) random) }
{
    let address = table_at(address, table)?;
    let id = id_by(id, random)?;
    Ok(PutWords { address, table, id })
}

/// The address of the server at which a table of this name is to be looked for.
pub(crate) fn table_at(address: &str, table: &str) -> Result<SocketAddrV4, CommandFault>
    ensures { NamesTable address.now table.now result }
{
    let address = address_by(address)?;
    table_by(table)?;
    Ok(address)
}

/// Whether the word is a table's name.
fn table_by(word: &str) -> Result<(), CommandFault>
    ensures { TableBy word.now result }
{
    if is_table_name(word.as_bytes()) {
        Ok(())
    } else {
        Err(CommandFault::BadTable)
    }
}

/// The address that the word names.
pub(crate) fn address_by(word: &str) -> Result<SocketAddrV4, CommandFault>
    ensures { AddressBy word.now result }
{
    match address_of(word) {
        Some(address) => Ok(address),
        None => Err(CommandFault::BadAddress),
    }
}

/// The upload's id that the word writes; where there is no word, the one that is given.
fn id_by(word: Option<&str>, other: [u8; 16]) -> Result<[u8; 16], CommandFault>
    ensures { IdBy (option_map (λ text. text.now) word.entry) other result }
{
    let Some(word) = word else {
        return Ok(other);
    };
    match id_in(word.as_bytes()) {
        Some(id) => Ok(id),
        None => Err(CommandFault::BadId),
    }
}

/// The ticket for this version of the table of this name.
pub(crate) fn ticket_by(alloc: Global, table: &str, version: u64) -> Result<Ticket, CommandFault>
    ensures { TicketBy table.now version result }
{
    let table = String::from_str(alloc, table)?;
    match Ticket::new(table, version) {
        Some(ticket) => Ok(ticket),
        None => Err(CommandFault::BadTable),
    }
}
