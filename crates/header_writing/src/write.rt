//! Headers written in their one layout (Apache Arrow, "Schema.fbs" and "Message.fbs"). The numbers of a vtable are its
//! size, its table's size, and where each field stands in the table, 0 for an absent one.

ghost use Rattle.std.specs.Prelude.{◌≡◌, ◌≤◌, ◌<◌, ◌+◌, ◌^◌, ◌++◌, [], false, length, map, OnOk, OnErr, IfOk};
ghost use Rattle.std.specs.List.{AllByRecursion};
ghost use Rattle.std.specs.Int.{w64};
ghost use Rattle.std.specs.Int.RustNames.{FitsSigned};
ghost use Rattle.header_writing.specs.Objects.{string_object, references_object, table_lead};
ghost use Rattle.header_writing.specs.Canonical.{field_numbers, int64_number, metadata_place, metadata_cell};
ghost use Rattle.header_writing.specs.Canonical.{entry_object, type_object, field_cells, schema_object, batch_object};
ghost use Rattle.header_writing.specs.Canonical.{header_text};
ghost use Rattle.header_writing.specs.Filling.{with_object, filled, field_begun, message_begun};
ghost use Rattle.header_types.specs.Header.{schema_header, batch_header, ShowsHeader};
ghost use Rattle.header_types.specs.Limits.{nodes_limit, buffers_limit};
ghost use Rattle.header_types.specs.Profile.{InProfile};
ghost use Rattle.header_types.specs.HeaderViews.{head_of};
ghost use Rattle.header_types.specs.FieldView.{field_head_of, entries_in};
ghost use Rattle.header_types.specs.Views.{entry_of, tree_of, forest_of, schema_of};
ghost use Rattle.header_writing.specs.Written.{FitsEntry, FitsField, FitsForest, FitsSchema, FitsParts, FitsHead};

use crate::layout::{
    Cell, REFERENCE, pad, put_pairs, put_references, put_string, put_table, put_word,
};
use crate::type_table::{put_type, type_id};
use header_types::{BatchHead, Field, Schema};
use std::alloc::{AllocError, Global};

/// The number of version V5 in the enum `MetadataVersion` (Schema.fbs).
const VERSION_5: u16 = 4;

/// The number of a schema in the union `MessageHeader` (Message.fbs).
const SCHEMA: u8 = 1;

/// The number of a batch of rows in the union `MessageHeader` (Message.fbs).
const BATCH: u8 = 3;

/// How many bytes there is room for before a text is written, so that those of few fields or columns are never moved.
const ROOM: usize = 256;

/// Writes an entry of metadata, the table `KeyValue`.
fn put_entry(text: &mut Vec<u8>, from: usize, entry: &(String, String)) -> Result<(), AllocError>
    requires within { from + 4 ≤ length text.old.items }
    ensures put { OnOk result (text.new.items ≡ with_object text.old.items from (entry_object (entry_of entry.now))) }
    ensures fits { OnOk result (FitsEntry (entry_of entry.now)) }
{
    let first = put_table(text, from, &[8, 12, 4, 8], &[REFERENCE, REFERENCE])?;
    put_string(text, first, entry.0.as_str())?;
    put_string(text, first + 4, entry.1.as_str())?;
    Ok(())
}

/// Writes the entries of metadata, a vector of references, and nothing where there are none.
fn put_metadata(
    text: &mut Vec<u8>,
    from: usize,
    entries: &[(String, String)],
) -> Result<(), AllocError>
    requires within { from + 4 ≤ length text.old.items }
    ensures put { OnOk result (text.new.items ≡ filled text.old.items from (metadata_cell (map entry_of entries.now))) }
    ensures fit { OnOk result (AllByRecursion FitsEntry (map entry_of entries.now)) }
{
    if entries.is_empty() {
        return Ok(());
    }
    let start = put_references(text, from, entries.len())?;
    for index in 0..entries.len() {
        put_entry(text, start + 4 * index, &entries[index])?;
    }
    Ok(())
}

/// Where a table's last field, its metadata, stands in it, 0 where there are no entries.
fn metadata_slot(entries: &[(String, String)], place: u16) -> u16
    ensures { result ≡ metadata_place (map entry_of entries.now) place }
{
    if entries.is_empty() { 0 } else { place }
}

/// Begins the table of a field (the table `Field`). The first of its references stands where the result says.
fn put_field(text: &mut Vec<u8>, from: usize, field: &Field) -> Result<usize, AllocError>
    requires within { from + 4 ≤ length text.old.items }
    ensures begun { OnOk result (text.new.items ≡ field_begun text.old.items from (field_head_of field.now)
        (entries_in field.now)) }
    ensures first { IfOk result (λ place. place
        ≡ length text.old.items + table_lead (length text.old.items) (field_numbers (entries_in field.now)) + 4) }
{
    let metadata = metadata_slot(&field.metadata, 20);
    let numbers = [18, 24, 4, 8, 9, 12, 0, 16, metadata];
    let cells = [
        REFERENCE,
        Cell::Byte(u8::from(field.nullable)),
        Cell::Byte(type_id(&field.ty)),
        Cell::Short(0),
        REFERENCE,
        REFERENCE,
        REFERENCE,
    ];
    put_table(text, from, &numbers, &cells)
}

/// Writes a field as far as the fields inside it, which are to follow. The first of its references stands where the
/// result says.
fn put_front(text: &mut Vec<u8>, from: usize, field: &Field) -> Result<usize, AllocError>
    requires within { from + 4 ≤ length text.old.items }
    ensures put { IfOk result (λ first. text.new.items
        ≡ with_object (with_object (field_begun text.old.items from (field_head_of field.now) (entries_in field.now))
        first (string_object (field_head_of field.now).name))
        (first + 8) (type_object (field_head_of field.now).data_type)) }
    ensures first { IfOk result (λ place. place
        ≡ length text.old.items + table_lead (length text.old.items) (field_numbers (entries_in field.now)) + 4) }
    ensures room { IfOk result (λ first. first + 20 ≤ length text.new.items) }
    ensures fits { OnOk result (FitsField (field_head_of field.now)) }
{
    let first = put_field(text, from, field)?;
    put_string(text, first, field.name.as_str())?;
    put_type(text, first + 8, &field.ty)?;
    Ok(first)
}

/// Writes fields, a vector of references, which is there without elements too.
fn put_fields(text: &mut Vec<u8>, from: usize, fields: &[Field]) -> Result<(), AllocError>
    requires within { from + 4 ≤ length text.old.items }
    ensures put { OnOk result (text.new.items
        ≡ with_object text.old.items from (references_object (field_cells (forest_of (map tree_of fields.now))))) }
    ensures fit { OnOk result (FitsForest (forest_of (map tree_of fields.now))) }
{
    let start = put_references(text, from, fields.len())?;
    for index in 0..fields.len() {
        let field = &fields[index];
        let first = put_front(text, start + 4 * index, field)?;
        put_fields(text, first + 12, &field.children)?;
        put_metadata(text, first + 16, &field.metadata)?;
    }
    Ok(())
}

/// Writes a schema, the table `Schema`.
fn put_schema(text: &mut Vec<u8>, from: usize, schema: &Schema) -> Result<(), AllocError>
    requires within { from + 4 ≤ length text.old.items }
    ensures put { OnOk result (text.new.items ≡ with_object text.old.items from
        (schema_object (schema_of schema.now))) }
    ensures fit { OnOk result (FitsSchema (schema_of schema.now)) }
{
    let numbers = [10, 12, 0, 4, metadata_slot(&schema.metadata, 8)];
    let first = put_table(text, from, &numbers, &[REFERENCE, REFERENCE])?;
    put_fields(text, first, &schema.fields)?;
    put_metadata(text, first + 4, &schema.metadata)?;
    Ok(())
}

/// Writes a batch, the table `RecordBatch`.
fn put_batch(text: &mut Vec<u8>, from: usize, head: &BatchHead) -> Result<(), AllocError>
    requires within { from + 4 ≤ length text.old.items }
    ensures put { OnOk result (text.new.items ≡ with_object text.old.items from (batch_object (head_of head.now))) }
    ensures fit { OnOk result (FitsParts (head_of head.now)) }
{
    let cells = [
        REFERENCE,
        Cell::Long(head.length.cast_unsigned()),
        REFERENCE,
        Cell::Word(0),
    ];
    let first = put_table(text, from, &[10, 24, 8, 4, 16], &cells)?;
    put_pairs(text, first, &head.nodes)?;
    put_pairs(text, first + 12, &head.buffers)?;
    Ok(())
}

/// Begins a text with the table `Message`, whose header is of this type. The reference to the header stands where the
/// result says.
fn put_message(text: &mut Vec<u8>, header_type: u8, body_length: i64) -> Result<usize, AllocError>
    requires begins { text.old.items ≡ [] }
    ensures begun { OnOk result (text.new.items ≡ message_begun header_type (int64_number body_length)) }
    ensures header { IfOk result (λ place. place ≡ 24) }
    ensures fits { OnOk result (FitsSigned w64 body_length) }
{
    let cells = [
        Cell::Short(VERSION_5),
        Cell::Byte(header_type),
        Cell::Byte(0),
        REFERENCE,
        Cell::Word(0),
        Cell::Long(body_length.cast_unsigned()),
    ];
    put_word(text, 0)?;
    let first = put_table(text, 0, &[12, 24, 4, 6, 8, 16], &cells)?;
    Ok(first + 4)
}

/// The text of a message with a schema.
fn schema_text(alloc: Global, schema: &Schema) -> Result<Vec<u8>, AllocError>
    ensures written { IfOk result (λ text. text.items ≡ header_text (schema_header (schema_of schema.now))) }
    ensures fits { OnOk result (FitsSchema (schema_of schema.now)) }
{
    let mut text = Vec::with_capacity(alloc, ROOM)?;
    let header = put_message(&mut text, SCHEMA, 0)?;
    put_schema(&mut text, header, schema)?;
    pad(&mut text, 0, 8)?;
    Ok(text)
}

/// The text of a message with a batch.
fn batch_text(alloc: Global, head: &BatchHead) -> Result<Vec<u8>, AllocError>
    ensures written { IfOk result (λ text. text.items ≡ header_text (batch_header (head_of head.now))) }
    ensures fits { OnOk result (FitsHead (head_of head.now)) }
{
    let mut text = Vec::with_capacity(alloc, ROOM)?;
    let header = put_message(&mut text, BATCH, head.body_length)?;
    put_batch(&mut text, header, head)?;
    pad(&mut text, 0, 8)?;
    Ok(text)
}

/// Appends the message that has this schema as its header, in the one layout of docs/FORMATS.md (Apache Arrow,
/// "Schema.fbs" and "Message.fbs", version V5).
///
/// The schema is in profile ([`Schema::in_profile`]). The text is a multiple of 8 bytes long, and `read_message` of
/// `header_reading` reads the schema back from it. [`AllocError`] says that memory was refused, and the vector then
/// holds what it did before the call.
pub fn write_schema(schema: &Schema, out: &mut Vec<u8>) -> Result<(), AllocError>
    requires profile { InProfile (schema_of schema.now) }
    ensures written { OnOk result (out.new.items ≡ out.old.items ++ header_text
        (schema_header (schema_of schema.now))) }
    ensures shown { OnOk result (ShowsHeader (header_text (schema_header (schema_of schema.now)))
        (schema_header (schema_of schema.now))) }
    ensures small { OnOk result (length (header_text (schema_header (schema_of schema.now))) < 2 ^ 31) }
    ensures fits { OnOk result (FitsSchema (schema_of schema.now)) }
    ensures refused { OnErr result (out.new.items ≡ out.old.items) }
{
    let text = schema_text(*out.allocator(), schema)?;
    out.extend_from_slice(&text)
}

/// Appends the message that has this batch as its header, in the one layout of docs/FORMATS.md (Apache Arrow,
/// "Message.fbs", version V5).
///
/// The batch is not compressed and has at most [`header_types::MAX_FIELDS`] nodes and [`header_types::MAX_BUFFERS`]
/// buffers. The text is a multiple of 8 bytes long, and `read_message` of `header_reading` reads the batch's head back
/// from it. [`AllocError`] says that memory was refused, and the vector then holds what it did before the call.
pub fn write_batch(head: &BatchHead, out: &mut Vec<u8>) -> Result<(), AllocError>
    requires plain { head.now.compressed ≡ false }
    requires nodes { length head.now.nodes.items ≤ nodes_limit }
    requires buffers { length head.now.buffers.items ≤ buffers_limit }
    ensures written { OnOk result (out.new.items ≡ out.old.items ++ header_text (batch_header (head_of head.now))) }
    ensures shown { OnOk result (ShowsHeader (header_text (batch_header (head_of head.now)))
        (batch_header (head_of head.now))) }
    ensures small { OnOk result (length (header_text (batch_header (head_of head.now))) < 2 ^ 31) }
    ensures refused { OnErr result (out.new.items ≡ out.old.items) }
{
    let text = batch_text(*out.allocator(), head)?;
    out.extend_from_slice(&text)
}
