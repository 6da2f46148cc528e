//! Messages (Apache Arrow, "Message.fbs", the table `Message`).

ghost use Rattle.std.specs.Prelude.{◌≡◌, ◌⊎◌, IfOk, IfErr};
ghost use Rattle.header_types.specs.declared.fault.MetaFault.TheVariants.{OutOfMemory};
ghost use Rattle.header_types.specs.Slots.{ShowsNumber, ShowsReferenceField};
ghost use Rattle.header_types.specs.Header.{version_5, Header as Shown, ShowsMessage, ShowsHeader};
ghost use Rattle.header_reading.specs.Faults.{MessageFault, HeaderFault};
ghost use Rattle.header_types.specs.HeaderViews.{header_of, IsUnlessRefused};
ghost use Rattle.header_reading.specs.Reading.{RootFault};

use crate::batch::read_batch;
use crate::build::read_schema;
use crate::slot;
use crate::slots::{number, reference, table_at};
use flat_places::{Table, follow};
use header_types::{Header, MetaFault};
use std::alloc::Global;

/// The number of version V5 in the enum `MetadataVersion` (Schema.fbs).
const VERSION_5: u64 = 4;

/// The number of a schema in the union `MessageHeader` (Message.fbs).
const SCHEMA: u8 = 1;

/// The number of a batch of a dictionary in the union `MessageHeader` (Message.fbs).
const DICTIONARY: u8 = 2;

/// The number of a batch of rows in the union `MessageHeader` (Message.fbs).
const BATCH: u8 = 3;

/// A message of version V5, and its header.
#[derive(Clone, Copy)]
struct MessageRef {
    /// Where its table stands.
    place: usize,
    /// The header's number in the union `MessageHeader`.
    header_type: u8,
    /// Where the header's table stands.
    table: usize,
}

/// The number and the table of the header of the message whose table this is (Message.fbs, the table `Message`).
fn header_at(message: &Table<'_>) -> Result<(u8, usize), MetaFault>
    ensures version { IfOk result (λ header. ShowsNumber message.now.buf message.now.place 0 2 0 version_5) }
    ensures header_type { IfOk result (λ header. ShowsNumber message.now.buf message.now.place 1 1 0 header.0) }
    ensures table { IfOk result (λ header. ShowsReferenceField message.now.buf message.now.place 2 (Some header.1)) }
    ensures fault { IfErr result (MessageFault message.now.buf message.now.place) }
{
    if number(message, slot::MESSAGE_VERSION, 2, 0)? != VERSION_5 {
        return Err(MetaFault::Version);
    }
    let header_type = number(message, slot::MESSAGE_HEADER_TYPE, 1, 0)? as u8;
    match reference(message, slot::MESSAGE_HEADER)? {
        Some(table) => Ok((header_type, table)),
        None => Err(MetaFault::BadHeader),
    }
}

/// The message to which a reference stands at the text's begin (Message.fbs, the table `Message`).
fn message_at(buf: &[u8]) -> Result<MessageRef, MetaFault>
    ensures read { IfOk result (λ message. ShowsMessage buf.now message.place message.header_type message.table) }
    ensures fault { IfErr result (RootFault buf.now) }
{
    let place = follow(buf, 0)?;
    let message = table_at(buf, place)?;
    let (header_type, table) = header_at(&message)?;
    Ok(MessageRef {
        place,
        header_type,
        table,
    })
}

/// The header of a message (Message.fbs, the union `MessageHeader`).
fn read_header(alloc: Global, buf: &[u8], message: MessageRef) -> Result<Header, MetaFault>
    requires { ShowsMessage buf.now message.place message.header_type message.table }
    ensures read { IfOk result (λ header. ShowsHeader buf.now (header_of header)) }
    ensures fault { IfErr result (λ e. (e ≡ OutOfMemory) ⊎ HeaderFault buf.now e) }
    ensures memory { result ≡ Err OutOfMemory → (x : Shown) × ShowsHeader buf.now x }
{
    match message.header_type {
        SCHEMA => Ok(Header::Schema(read_schema(alloc, buf, message.table)?)),
        BATCH => Ok(Header::Batch(read_batch(alloc, buf, message.place, message.table)?)),
        DICTIONARY => Err(MetaFault::Dictionary),
        _ => Err(MetaFault::BadHeader),
    }
}

/// The header of a message of version V5: its schema, or what it says of its batch of rows (Apache Arrow,
/// "Message.fbs", the table `Message`, and "Schema.fbs"). The text begins with the reference to its root: the marker
/// and the length that stand before a message in a stream are no part of it. A text shows at most one header
/// ([`header_types::laws::headers_are_one`]), and this is that one.
///
/// A schema has fields no deeper than [`header_types::MAX_DEPTH`], and in all no more than
/// [`header_types::MAX_FIELDS`] fields, [`header_types::MAX_METADATA_ENTRIES`] entries of metadata and
/// [`header_types::MAX_TEXT_BYTES`] bytes of names, time zones, keys and values. What is shared counts each time that
/// it is reached. The numbers of a batch are not judged: its two vectors lie in the text, and what they hold may be any
/// numbers, even below zero.
///
/// The faults stand in a text that shows no header ([`crate::laws::faults_stand_apart`]). Where several stand, which
/// one is told is open.
///
/// - [`MetaFault::OutOfBounds`]: a byte that the header needs does not lie in the text, or a vtable would begin before
///   it.
/// - [`MetaFault::Version`]: the message is not of version V5; an absent version is V1.
/// - [`MetaFault::Endianness`]: the schema is not little-endian.
/// - [`MetaFault::Unsupported`]: a field has a type of this number in the union `Type`, which [`header_types::Ty`] does
///   not have, or is a decimal of another width.
/// - [`MetaFault::Dictionary`]: the header is a batch of a dictionary, or a field refers to a dictionary.
/// - [`MetaFault::TooDeep`]: a field stands deeper than [`header_types::MAX_DEPTH`].
/// - [`MetaFault::TooManyFields`]: there are more fields, entries or bytes than the other three limits.
/// - [`MetaFault::NotUtf8`]: a name, a time zone, a key or a value is not UTF-8.
/// - [`MetaFault::BadHeader`]: the message has no header, or one that is neither a schema nor a batch; a vtable's own
///   size is below 4; a parameter of a field's type is none of that type; or the type has another number of fields
///   inside it.
/// - [`MetaFault::OutOfMemory`]: memory was refused. It comes only of a text that shows a header.
///
/// What follows is allowed. Bytes behind the last object, and between objects, are passed over, and so are the fields
/// that are not named here: the message's `custom_metadata`, a batch's `variadicBufferCounts` and how it is compressed,
/// a schema's `features`. Objects and vtables stand in any order and may be shared, and no place has to be aligned.
/// Absent names, keys, values and vectors are empty, absent numbers have their defaults, and a type whose table is
/// absent has the defaults of that table. Neither the zero byte behind a string nor a vtable's second size is looked
/// at.
pub fn read_message(alloc: Global, buf: &[u8]) -> Result<Header, MetaFault>
    ensures read { IfOk result (λ header. ShowsHeader buf.now (header_of header)) }
    ensures only { (x : Shown) → ShowsHeader buf.now x → IsUnlessRefused result x }
    ensures fault { IfErr result (λ e. (e ≡ OutOfMemory) ⊎ HeaderFault buf.now e) }
    ensures memory { result ≡ Err OutOfMemory → (x : Shown) × ShowsHeader buf.now x }
{
    let message = message_at(buf)?;
    read_header(alloc, buf, message)
}
