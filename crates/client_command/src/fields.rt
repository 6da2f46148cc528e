//! The fields of a table's schema, as a service tells of them.

ghost use Rattle.std.specs.Prelude.{◌≡◌, ◌≢◌, ◌⊎◌, ◌++◌, List, MatchOption, ℕ, OnOk, map, string_bytes};
ghost use Rattle.header_types.specs.declared.fault.MetaFault.TheVariants.{OutOfMemory as RefusedMemory};
ghost use Rattle.header_types.specs.Views.{forest_of, tree_of};
ghost use Rattle.header_writing.specs.Canonical.{encapsulated};
ghost use Rattle.client_calls.specs.declared.client_fault.ClientFault.TheVariants.{BadAnswer};
ghost use Rattle.client_command.specs.declared.fault.CommandFault.TheVariants.{Call, OutOfMemory};
ghost use Rattle.client_command.specs.Fields.{HeaderSays, SchemaSays, field_line, fields_text};

use crate::fault::CommandFault;
use client_calls::ClientFault;
use header_reading::read_message;
use header_types::{Field, Header, MetaFault, Schema};
use schema_words::field_words;
use std::alloc::{AllocError, Global};

/// The message behind its marker and its length, where nothing else stands there.
fn message_in(bytes: &[u8]) -> Option<&[u8]>
    ensures { MatchOption result ((message : List ℕ) → bytes.now ≢ encapsulated message)
        (λ message. bytes.now ≡ encapsulated message.now) }
{
    let [255, 255, 255, 255, a, b, c, d, message @ ..] = bytes else {
        return None;
    };
    if (message.len() as u64).to_le_bytes()[..4] != [*a, *b, *c, *d] {
        return None;
    }
    Some(message)
}

/// Why no schema is read.
fn fault_of(fault: MetaFault) -> CommandFault
    ensures { (result ≡ OutOfMemory) ⊎ ((result ≡ Call BadAnswer) × (fault ≢ RefusedMemory)) }
{
    match fault {
        MetaFault::OutOfMemory => CommandFault::OutOfMemory,
        _ => CommandFault::Call(ClientFault::BadAnswer),
    }
}

/// The schema that a message shows.
fn shown_schema(alloc: Global, message: &[u8]) -> Result<Schema, CommandFault>
    ensures { HeaderSays message.now result }
{
    match read_message(alloc, message) {
        Ok(Header::Schema(schema)) => Ok(schema),
        Ok(Header::Batch(_)) => Err(CommandFault::Call(ClientFault::BadAnswer)),
        Err(fault) => Err(fault_of(fault)),
    }
}

/// The schema of an encapsulated message.
pub(crate) fn schema_in(alloc: Global, bytes: &[u8]) -> Result<Schema, CommandFault>
    ensures { SchemaSays bytes.now result }
{
    match message_in(bytes) {
        Some(message) => shown_schema(alloc, message),
        None => Err(CommandFault::Call(ClientFault::BadAnswer)),
    }
}

/// Appends the line of a field.
fn push_field(alloc: Global, text: &mut String, field: &Field) -> Result<(), AllocError>
    ensures { OnOk result (string_bytes text.new ≡ string_bytes text.old ++ field_line (tree_of field.now)) }
{
    let words = field_words(alloc, field)?;
    text.push_str("field ")?;
    text.push_str(words.as_str())?;
    text.push('\n')?;
    Ok(())
}

/// Appends the lines of some fields.
pub(crate) fn push_fields(
    alloc: Global,
    text: &mut String,
    fields: &[Field],
) -> Result<(), AllocError>
    ensures { OnOk result (string_bytes text.new ≡ string_bytes text.old
        ++ fields_text (forest_of (map tree_of fields.now))) }
{
    for field in fields {
        push_field(alloc, text, field)?;
    }
    Ok(())
}
