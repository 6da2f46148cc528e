//! A schema for lines that come without one.

ghost use Rattle.std.specs.Prelude.{◌≡◌, ◌≢◌, ◌↔◌, ◌<◌, List, length, map, IfErr, IfOk, IfSome, IsErrOf, OnOk};
ghost use Rattle.std.specs.List.{AllByRecursion};
ghost use Rattle.serde_json.specs.Data.{Data};
ghost use Rattle.serde_json.specs.View.{view};
ghost use Rattle.header_types.specs.Views.{schema_of};
ghost use Rattle.json_rows.specs.declared.fault.JsonFault.TheVariants as JsonFault;
ghost use Rattle.json_rows.specs.Cells.{forest_in};
ghost use Rattle.json_rows.specs.Lines.{TellsSomeRow, TellsValues};

use crate::fault::{CellFault, JsonFault, JsonLineFault};
use crate::lines::take_values;
use crate::reading::members_of;
use crate::rows::fault_at;
use header_types::{BitWidth, Field, MAX_FIELDS, Precision, Schema, Ty};
use serde_json::Value;
use std::alloc::{AllocError, Global};

/// What the values of a field have in common.
#[derive(Clone, Copy, Debug, PartialEq, Eq)]
enum Kind {
    /// They are nulls.
    Null,
    /// They are `true` or `false`.
    Bool,
    /// They are whole numbers of 64 bits with a sign.
    Whole,
    /// They are numbers.
    Number,
    /// They are texts.
    Text,
}

/// A field and what its values have in common.
#[derive(Drop)]
struct Found {
    /// Its name.
    name: String,
    /// Their kind.
    kind: Kind,
}

/// The kind of a value, where it has nothing inside it.
fn kind_of(value: &Value) -> Option<Kind> {
    match value {
        Value::Null => Some(Kind::Null),
        Value::Bool(_) => Some(Kind::Bool),
        Value::Number(_) if value.as_i64().is_some() => Some(Kind::Whole),
        Value::Number(_) => Some(Kind::Number),
        Value::String(_) => Some(Kind::Text),
        Value::Array(_) | Value::Object(_) => None,
    }
}

/// The kind of values of two kinds.
fn joined(one: Kind, other: Kind) -> Option<Kind> {
    match (one, other) {
        (Kind::Null, kind) | (kind, Kind::Null) => Some(kind),
        (Kind::Whole, Kind::Number) | (Kind::Number, Kind::Whole) => Some(Kind::Number),
        (one, other) if one == other => Some(one),
        _ => None,
    }
}

/// The type of values of a kind.
fn type_of(kind: Kind) -> Ty {
    match kind {
        Kind::Null => Ty::Null,
        Kind::Bool => Ty::Bool,
        Kind::Whole => Ty::Int {
            bit_width: BitWidth::SixtyFour,
            is_signed: true,
        },
        Kind::Number => Ty::FloatingPoint {
            precision: Precision::Double,
        },
        Kind::Text => Ty::Utf8,
    }
}

/// The place of the field of this name.
fn place_of(fields: &[Found], name: &str) -> Option<usize>
    ensures { IfSome result (λ place. place < length fields.now) }
{
    for index in 0..fields.len() {
        if fields[index].name.as_str() == name {
            return Some(index);
        }
    }
    None
}

/// The fault of a member of a line.
fn of_member(line: u64, field: usize, fault: CellFault) -> JsonFault
    ensures { result ≢ JsonFault.NoRows }
{
    JsonFault::Cell { line, field, fault }
}

/// Adds a field that was not seen before. A schema has up to [`MAX_FIELDS`].
fn add_field(
    alloc: Global,
    fields: &mut Vec<Found>,
    name: &str,
    kind: Kind,
) -> Result<(), JsonFault>
    ensures some { IfErr result (λ fault. fault ≢ JsonFault.NoRows) }
{
    if fields.len() >= MAX_FIELDS {
        return Err(JsonFault::BadSchema);
    }
    let name = String::from_str(alloc, name)?;
    match fields.push(Found { name, kind }) {
        Ok(()) => Ok(()),
        Err(_) => Err(JsonFault::OutOfMemory),
    }
}

/// Adds a value at this name, of the line of this number.
fn add_member(
    alloc: Global,
    fields: &mut Vec<Found>,
    name: &str,
    value: &Value,
    line: u64,
) -> Result<(), JsonFault>
    ensures some { IfErr result (λ fault. fault ≢ JsonFault.NoRows) }
{
    let place = place_of(fields, name);
    let Some(kind) = kind_of(value) else {
        let field = place.unwrap_or(fields.len());
        return Err(of_member(line, field, CellFault::Unsupported));
    };
    let Some(place) = place else {
        return add_field(alloc, fields, name, kind);
    };
    match joined(fields[place].kind, kind) {
        Some(kind) => {
            fields[place].kind = kind;
            Ok(())
        }
        None => Err(of_member(line, place, CellFault::WrongKind)),
    }
}

/// Adds the members of a line.
fn add_line(
    alloc: Global,
    fields: &mut Vec<Found>,
    value: &Value,
    line: u64,
) -> Result<(), JsonFault>
    ensures some { IfErr result (λ fault. fault ≢ JsonFault.NoRows) }
{
    let Some(members) = value.as_object() else {
        return Err(JsonFault::Line {
            line,
            fault: JsonLineFault::UnknownMember,
        });
    };
    for (name, member) in members.iter() {
        add_member(alloc, fields, name.as_str(), member, line)?;
    }
    Ok(())
}

/// The fields of these lines, in the order in which they are found.
fn fields_of(alloc: Global, values: &[Value]) -> Result<Vec<Found>, JsonFault>
    ensures some { IfErr result (λ fault. fault ≢ JsonFault.NoRows) }
{
    let mut fields = Vec::new(alloc);
    for index in 0..values.len() {
        add_line(
            alloc,
            &mut fields,
            &values[index],
            (index as u64).saturating_add(1),
        )?;
    }
    Ok(fields)
}

/// A field of these values, which may be missing.
fn field_of(alloc: Global, found: &Found) -> Result<Field, AllocError> {
    Ok(Field {
        name: String::from_str(alloc, found.name.as_str())?,
        nullable: true,
        ty: type_of(found.kind),
        children: Vec::new(alloc),
        metadata: Vec::new(alloc),
    })
}

/// The schema of these fields.
fn schema_of_fields(alloc: Global, found: &[Found]) -> Result<Schema, AllocError> {
    let mut fields = Vec::new(alloc);
    for index in 0..found.len() {
        let field = field_of(alloc, &found[index])?;
        fields.push(field)?;
    }
    Ok(Schema {
        fields,
        metadata: Vec::new(alloc),
    })
}

/// Whether each of the values tells a row of the fields.
fn tell_rows(alloc: Global, fields: &[Field], values: &[Value]) -> Result<(), JsonFault>
    ensures told { OnOk result (AllByRecursion (TellsSomeRow (forest_in fields.now)) (map view values.now)) }
    ensures some { IfErr result (λ fault. fault ≢ JsonFault.NoRows) }
{
    for index in 0..values.len() {
        if let Err(fault) = members_of(alloc, fields, &values[index]) {
            return Err(fault_at(1, 0, (index, fault)));
        }
    }
    Ok(())
}

/// A schema for lines that come without one. Its fields are the members of the lines, in the order of the lines in which
/// they first appear and, within a line, of their names; all may be missing. Values that are `true` or `false` are of the
/// type Bool; whole numbers from -2^63 on and below 2^63 are Int of 64 bits with a sign; other numbers, and those beside them, are
/// FloatingPoint of eight bytes; texts are Utf8; where all are null, Null. Each line tells a row of the schema.
///
/// `NoRows` is told of a text with no line, `BadSchema` where there are more fields than a schema may have. `Line` and `Cell`
/// are told as by [`crate::read_rows`]: `WrongKind` where a member is a text in one line and a number in another, or the
/// like, `Unsupported` of an array or an object, which want a schema.
pub fn schema_of_rows(alloc: Global, text: &[u8]) -> Result<Schema, JsonFault>
    ensures told { IfOk result (λ schema. (values : List Data) × TellsValues text.now values
        × AllByRecursion (TellsSomeRow (schema_of schema).fields) values) }
    ensures some { IsErrOf result JsonFault.NoRows ↔ (length text.now ≡ 0) }
{
    if text.is_empty() {
        return Err(JsonFault::NoRows);
    }
    let taken = take_values(alloc, text, 1, usize::MAX)?;
    if !taken.rest.is_empty() {
        return Err(JsonFault::TooLarge { line: 1 });
    }
    let found = fields_of(alloc, &taken.values)?;
    let schema = schema_of_fields(alloc, &found)?;
    tell_rows(alloc, &schema.fields, &taken.values)?;
    Ok(schema)
}
