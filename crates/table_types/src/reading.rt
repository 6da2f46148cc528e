//! What a ticket asks for, found in its bytes with no memory taken.

ghost use Rattle.std.specs.Prelude.{◌≡◌, ◌↔◌, IsTrue, IfSome, IfNone};
ghost use Rattle.std.specs.Option.{option_copied, IsSomeAnd};
ghost use Rattle.table_types.specs.Valid.{IsTableName};
ghost use Rattle.proto_messages.specs.Stripping.{Strips};
ghost use Rattle.table_types.specs.Ticket.{TableVersion, ticket_text, IsTicket};

use crate::is_table_name;
use proto_fields::{bytes_at, number_at};
use proto_messages::laws::canonical_messages_are_messages;
use proto_messages::{strip_bytes, strip_uint64};

/// The number of the field with the table's name.
pub(crate) const TABLE: u32 = 1;

/// The number of the field with the version.
pub(crate) const VERSION: u32 = 2;

/// The table's name that the fields mean, where there are such.
fn table_in(bytes: &[u8]) -> Option<&[u8]>
    ensures { (asked : TableVersion) → IsTicket bytes.now asked
        → IsSomeAnd result (λ table. table.now ≡ asked.table) }
{
    canonical_messages_are_messages();
    bytes_at(bytes, TABLE).ok()
}

/// The version that the fields mean, where there are such.
fn version_in(bytes: &[u8]) -> Option<u64>
    ensures { (asked : TableVersion) → IsTicket bytes.now asked
        → IsSomeAnd result (λ version. version ≡ asked.version) }
{
    canonical_messages_are_messages();
    number_at(bytes, VERSION).ok()
}

/// What follows the one encoding of the two, where it stands at the front.
#[tactic(auto, using(proto_messages::proofs::CallerLemmas::strips))]
fn strip<'a>(bytes: &'a [u8], table: &[u8], version: u64) -> Option<&'a [u8]>
    ensures { Strips (ticket_text (record { table = table.now; version = version })) bytes.now
        (option_copied result) }
{
    let bytes = strip_bytes(bytes, TABLE, table)?;
    strip_uint64(bytes, VERSION, version)
}

/// Whether the bytes are the one encoding of the two.
fn is_encoding(bytes: &[u8], table: &[u8], version: u64) -> bool
    ensures { IsTrue result ↔ (bytes.now ≡ ticket_text (record { table = table.now; version = version })) }
{
    match strip(bytes, table, version) {
        Some(rest) => rest.is_empty(),
        None => false,
    }
}

/// A table's name as a text: its bytes are ASCII.
fn text_of(name: &[u8]) -> &str
    requires { IsTableName name.now }
    ensures { result.now ≡ name.now }
{
    match str::from_utf8(name) {
        Ok(text) => text,
        Err(_) => unreachable!(),
    }
}

/// The table's name and the version that a ticket asks for, and `None` for other bytes.
pub(crate) fn parts(bytes: &[u8]) -> Option<(&str, u64)>
    ensures some { IfSome result
        (λ parts. IsTicket bytes.now (record { table = parts.0.now; version = parts.1 })) }
    ensures none { IfNone result ((asked : TableVersion) → ¬ IsTicket bytes.now asked) }
{
    let table = table_in(bytes)?;
    let version = version_in(bytes)?;
    if version == 0 || !is_table_name(table) || !is_encoding(bytes, table, version) {
        return None;
    }
    Some((text_of(table), version))
}
