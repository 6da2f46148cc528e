//! How long the texts of headers are, told before they are written. No memory is taken. A place is how many bytes stand
//! before it.

ghost use Rattle.std.specs.Prelude.{◌≡◌, ◌≤◌, ◌<◌, ◌+◌, ◌*◌, ◌^◌, ◌⊎◌, ℕ, List, map, length};
ghost use Rattle.header_types.specs.FieldView.{field_head_of, entries_in};
ghost use Rattle.header_types.specs.Header.{Head, schema_header, batch_header};
ghost use Rattle.header_types.specs.Limits.{nodes_limit, buffers_limit};
ghost use Rattle.header_types.specs.Profile.{InProfile};
ghost use Rattle.header_types.specs.Views.{data_type_of, entry_of, tree_of, forest_of, schema_of};
ghost use Rattle.header_writing.specs.Canonical.{entry_object, entry_cells, metadata_cell, type_object, field_cells};
ghost use Rattle.header_writing.specs.Canonical.{schema_object, header_text};
ghost use Rattle.header_writing.specs.Objects.{string_object, references_object, padding, objects_text, cells_size};
ghost use Rattle.header_writing.specs.Weights.{weight, objects_weight, numbers_in, cells_in, behind, behind_cells, behind_front as front_end};

use header_types::{Field, Schema, Ty};

/// How many bytes the table of a message has, and where its header begins.
const SCHEMA_PLACE: u64 = 40;

/// The next multiple of a unit.
fn aligned(place: u64, unit: u64) -> u64
    requires unit_is { (unit ≡ 4) ⊎ (unit ≡ 8) }
    requires room { place < 2 ^ 40 }
    ensures { result ≡ place + padding unit place }
{
    place + (unit - place % unit) % unit
}

/// Where a string ends.
fn behind_string(place: u64, string: &str) -> u64
    requires { place + length string.now < 2 ^ 33 }
    ensures { result ≡ behind place (string_object string.now) }
{
    aligned(place, 4) + 4 + string.len() as u64 + 1
}

/// Where a table ends, whose vtable has so many numbers, and which has so many bytes of cells.
fn behind_table(place: u64, numbers: u64, cells: u64) -> u64
    requires room { place < 2 ^ 33 }
    requires few_numbers { numbers ≤ 32 }
    requires few_cells { cells ≤ 64 }
    ensures { (list : List ℕ) → length list ≡ numbers → result ≡ behind_cells place list cells }
{
    aligned(place + 2 * numbers, 8) + 4 + cells
}

/// Where a vector of so many references ends.
fn behind_references(place: u64, count: usize) -> u64
    requires { place + 4 * count < 2 ^ 33 }
    ensures { result ≡ place + padding 4 place + 4 + 4 * count }
{
    aligned(place, 4) + 4 + 4 * count as u64
}

/// Where an entry of metadata ends.
fn behind_entry(place: u64, entry: &(String, String)) -> u64
    requires { place + weight (entry_object (entry_of entry.now)) < 2 ^ 32 }
    ensures { result ≡ behind place (entry_object (entry_of entry.now)) }
{
    let key = behind_table(place, 4, 8);
    let value = behind_string(key, entry.0.as_str());
    behind_string(value, entry.1.as_str())
}

/// Where some entries of metadata end.
fn behind_entries(place: u64, entries: &[(String, String)]) -> u64
    requires { place + objects_weight (entry_cells (map entry_of entries.now)) < 2 ^ 32 }
    ensures { result ≡ place + length (objects_text place (entry_cells (map entry_of entries.now))) }
{
    let mut end = place;
    for entry in entries {
        end = behind_entry(end, entry);
    }
    end
}

/// Where the metadata of a table ends, which has none where there are no entries.
fn behind_metadata(place: u64, entries: &[(String, String)]) -> u64
    requires { place + objects_weight (metadata_cell (map entry_of entries.now)) < 2 ^ 32 }
    ensures { result ≡ place + length (objects_text place (metadata_cell (map entry_of entries.now))) }
{
    if entries.is_empty() {
        return place;
    }
    behind_entries(behind_references(place, entries.len()), entries)
}

/// How many numbers the vtable of a type's table has, and how many bytes of cells the table.
fn type_size(ty: &Ty) -> (u64, u64)
    ensures numbers { result.0 ≡ length (numbers_in (type_object (data_type_of ty.now))) }
    ensures cells { result.1 ≡ cells_size (cells_in (type_object (data_type_of ty.now))) }
    ensures few { (result.0 ≤ 5) × (result.1 ≤ 12) }
{
    match ty {
        Ty::Null | Ty::Binary | Ty::Utf8 | Ty::Bool | Ty::List | Ty::Struct => (2, 0),
        Ty::FloatingPoint { .. }
        | Ty::Date { .. }
        | Ty::FixedSizeBinary { .. }
        | Ty::FixedSizeList { .. }
        | Ty::Duration { .. } => (3, 4),
        Ty::Int { .. }
        | Ty::Time { .. }
        | Ty::Timestamp { timezone: None, .. }
        | Ty::Timestamp {
            timezone: Some(_),
            ..
        } => (4, 8),
        Ty::Decimal { .. } => (5, 12),
    }
}

/// Where the time zone of a type ends, if it has one.
fn behind_timezone(place: u64, ty: &Ty) -> u64
    requires { place + objects_weight (cells_in (type_object (data_type_of ty.now))) < 2 ^ 32 }
    ensures { result ≡ place + length (objects_text place (cells_in (type_object (data_type_of ty.now)))) }
{
    match ty {
        Ty::Timestamp {
            timezone: Some(timezone),
            ..
        } => behind_string(place, timezone.as_str()),
        Ty::Null
        | Ty::Int { .. }
        | Ty::FloatingPoint { .. }
        | Ty::Binary
        | Ty::Utf8
        | Ty::Bool
        | Ty::Decimal { .. }
        | Ty::Date { .. }
        | Ty::Time { .. }
        | Ty::Timestamp { timezone: None, .. }
        | Ty::List
        | Ty::Struct
        | Ty::FixedSizeBinary { .. }
        | Ty::FixedSizeList { .. }
        | Ty::Duration { .. } => place,
    }
}

/// Where the table of a type ends.
fn behind_type(place: u64, ty: &Ty) -> u64
    requires { place + weight (type_object (data_type_of ty.now)) < 2 ^ 32 }
    ensures { result ≡ behind place (type_object (data_type_of ty.now)) }
{
    let (numbers, cells) = type_size(ty);
    behind_timezone(behind_table(place, numbers, cells), ty)
}

/// Where the name and the type of a field end.
fn behind_front(place: u64, field: &Field) -> u64
    requires { place + 49 + weight (string_object (field_head_of field.now).name)
        + weight (type_object (field_head_of field.now).data_type) < 2 ^ 32 }
    ensures { result ≡ front_end place (field_head_of field.now) (entries_in field.now) }
{
    let name = behind_table(place, 9, 20);
    let ty = behind_string(name, field.name.as_str());
    behind_type(ty, &field.ty)
}

/// Where some fields end with all that is inside them.
fn behind_fields(place: u64, fields: &[Field]) -> u64
    requires { place + weight (references_object (field_cells (forest_of (map tree_of fields.now)))) < 2 ^ 32 }
    ensures { result ≡ behind place (references_object (field_cells (forest_of (map tree_of fields.now)))) }
{
    let mut end = behind_references(place, fields.len());
    for field in fields {
        let front = behind_front(end, field);
        let inner = behind_fields(front, &field.children);
        end = behind_metadata(inner, &field.metadata);
    }
    end
}

/// Where a schema ends.
fn behind_schema(place: u64, schema: &Schema) -> u64
    requires { place + weight (schema_object (schema_of schema.now)) < 2 ^ 32 }
    ensures { result ≡ behind place (schema_object (schema_of schema.now)) }
{
    let fields = behind_table(place, 5, 8);
    let metadata = behind_fields(fields, &schema.fields);
    behind_metadata(metadata, &schema.metadata)
}

/// How many bytes the message has that [`crate::write_schema`] writes of a schema, which is in profile
/// ([`Schema::in_profile`]). It takes no memory.
pub fn schema_length(schema: &Schema) -> u64
    requires profile { InProfile (schema_of schema.now) }
    ensures { result ≡ length (header_text (schema_header (schema_of schema.now))) }
{
    aligned(behind_schema(SCHEMA_PLACE, schema), 8)
}

/// How many bytes the message has that [`crate::write_batch`] writes of a batch with so many nodes and buffers.
pub fn batch_length(nodes: usize, buffers: usize) -> u64
    requires nodes { nodes ≤ nodes_limit }
    requires buffers { buffers ≤ buffers_limit }
    ensures { (head : Head) → length head.nodes ≡ nodes → length head.buffers ≡ buffers
        → result ≡ length (header_text (batch_header head)) }
{
    96 + 16 * (nodes as u64 + buffers as u64)
}
