ghost use Rattle.std.specs.Prelude.{◌≡◌, ◌↔◌, ◌≤◌, Err, IfOk, IfErr, IsSome, IfSome};
ghost use Rattle.std.specs.String.{string_bytes};
ghost use Rattle.table_types.specs.Valid.{IsTableName};
ghost use Rattle.table_types.specs.Ticket.{TableVersion, IsTableVersion, ticket_text, IsTicket};

use crate::fault::TicketFault;
use crate::is_table_name;
use crate::reading::{TABLE, VERSION, parts};
use proto_messages::{append_bytes, append_uint64};
use std::alloc::{AllocError, Global};
use std::marker::Model;

/// Which version of which table a client asks for.
#[derive(Debug, Drop)]
pub struct Ticket {
    table: String,
    version: u64,
}

impl Model for Ticket {
    ghost use Rattle.std.specs.String.{string_bytes};
    ghost use Rattle.table_types.specs.Ticket.{TableVersion, IsTableVersion};

    ghost Value = { TableVersion };

    ghost view = { λ t. record { table = string_bytes t.table; version = t.version } };

    ghost invariant = { λ t. IsTableVersion (record { table = string_bytes t.table; version = t.version }) };
}

impl Ticket {
    /// The ticket for this version of this table, `None` where the name is none of a table ([`is_table_name`]) or the
    /// version is 0.
    pub fn new(table: String, version: u64) -> Option<Ticket>
        ensures valid { IsSome result
            ↔ IsTableVersion (record { table = string_bytes table; version = version }) }
        ensures value { IfSome result
            (λ ticket. ticket ≡ record { table = string_bytes table; version = version }) }
    {
        if version == 0 || !is_table_name(table.as_bytes()) {
            return None;
        }
        Some(Ticket { table, version })
    }

    /// The ticket that these bytes are.
    ///
    /// [`TicketFault::BadTicket`] is told exactly of bytes that are no ticket; and [`TicketFault::OutOfMemory`] only of
    /// bytes that are one.
    pub fn decode(alloc: Global, bytes: &[u8]) -> Result<Ticket, TicketFault>
        ensures ticket { IfOk result (IsTicket bytes.now) }
        ensures bad { (result ≡ Err TicketFault.BadTicket) ↔ ((asked : TableVersion) → ¬ IsTicket bytes.now asked) }
        ensures memory { result ≡ Err TicketFault.OutOfMemory → (asked : TableVersion) × IsTicket bytes.now asked }
    {
        match parts(bytes) {
            Some((table, version)) => held(alloc, table, version),
            None => Err(TicketFault::BadTicket),
        }
    }

    /// The ticket's bytes, which [`Ticket::decode`] reads back as this ticket.
    pub fn encode(&self, alloc: Global) -> Result<Vec<u8>, AllocError>
        ensures { IfOk result (λ bytes. IsTicket bytes.items self.now) }
    {
        encoding(alloc, self.table.as_bytes(), self.version)
    }

    /// The table's name: 1 to 64 of `0-9 A-Z a-z _ . -`.
    pub fn table(&self) -> &str
        ensures value { result.now ≡ self.now.table }
        ensures named { IsTableName result.now }
    {
        self.table.as_str()
    }

    /// The version's number, 1 or more: how many uploads of the table it has.
    pub fn version(&self) -> u64
        ensures value { result ≡ self.now.version }
        ensures numbered { 1 ≤ result }
    {
        self.version
    }
}

/// A ticket with a copy of the name.
fn held(alloc: Global, table: &str, version: u64) -> Result<Ticket, TicketFault>
    requires { IsTableVersion (record { table = table.now; version = version }) }
    ensures value { IfOk result (λ ticket. ticket ≡ record { table = table.now; version = version }) }
    ensures fault { IfErr result (λ fault. fault ≡ TicketFault.OutOfMemory) }
{
    match String::from_str(alloc, table) {
        Ok(table) => Ok(Ticket { table, version }),
        Err(_) => Err(TicketFault::OutOfMemory),
    }
}

/// The one encoding of the two.
#[tactic(auto, using(proto_messages::proofs::CallerLemmas::chains))]
fn encoding(alloc: Global, table: &[u8], version: u64) -> Result<Vec<u8>, AllocError>
    ensures { IfOk result (λ bytes. bytes.items ≡ ticket_text (record { table = table.now; version = version })) }
{
    let mut bytes = Vec::new(alloc);
    append_bytes(&mut bytes, TABLE, table)?;
    append_uint64(&mut bytes, VERSION, version)?;
    Ok(bytes)
}
