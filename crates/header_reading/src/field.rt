//! Fields and entries of metadata (Apache Arrow, "Schema.fbs", the tables `Field` and `KeyValue`).

ghost use Rattle.std.specs.Prelude.{◌≡◌, ◌<◌, ◌^◌, ◌⊎◌, ℕ, List, Option, IfOk, IfErr};
ghost use Rattle.std.specs.Option.{option_map};
ghost use Rattle.flat_places.specs.Number.{IsNumberSize};
ghost use Rattle.flat_places.specs.Table.{ShowsField};
ghost use Rattle.header_types.specs.Fields.{Text};
ghost use Rattle.header_types.specs.Views.{data_type_of};
ghost use Rattle.header_types.specs.Slots.{ShowsNumber, ShowsString, FieldSlotFault, SlotNumberFault, StringFault};
ghost use Rattle.header_types.specs.TypeIds.{has_timezone};
ghost use Rattle.header_types.specs.Shown.{or_empty, ShowsEntry, ShowsParameter, ShowsParameters, ShowsTimezone};
ghost use Rattle.header_types.specs.Shown.{ShowsDataType, ShowsFieldHead};
ghost use Rattle.header_reading.specs.Faults.{EntryFault, ParameterFault, TimezoneFault, ParametersFault};
ghost use Rattle.header_reading.specs.Faults.{DataTypeFault};
ghost use Rattle.header_reading.specs.Faults.{HasWrongParameters, TypeFault, OwnFault, FieldFault};
ghost use Rattle.header_reading.specs.VectorRefs.{vector_ref_of};
ghost use Rattle.header_reading.specs.ParameterView.{IsShort, option_parameter_view};
ghost use Rattle.header_reading.specs.FieldRefView.{with_timezone, field_view};

use crate::slot;
use crate::slots::{
    VectorRef, number, reference, slot_at, string, table_at, table_beside, vector_at,
};
use crate::type_id::{Parameter, is_carried, parameters_of, type_from};
use flat_places::Table;
use header_types::{MetaFault, Ty, allows_children};

/// The number of the type `Decimal` in the union `Type`.
const DECIMAL: u8 = 7;

/// The number of the type `Timestamp` in the union `Type`.
const TIMESTAMP: u8 = 10;

/// What a field's table says of the field, but for the fields inside it and its metadata, whose references follow.
#[derive(Drop)]
pub(crate) struct FieldRef<'a> {
    /// Its name, which may be empty.
    pub(crate) name: &'a str,
    /// Whether it may hold nulls.
    pub(crate) nullable: bool,
    /// Its type; a point in time has no time zone here.
    pub(crate) ty: Ty,
    /// The time zone of a point in time.
    pub(crate) timezone: Option<&'a str>,
    /// References to the fields inside it.
    pub(crate) children: VectorRef,
    /// References to its metadata.
    pub(crate) metadata: VectorRef,
}

/// The type of a field.
#[derive(Drop)]
struct DataTypeRef<'a> {
    /// Its number in the union `Type`.
    type_id: u8,
    /// The type; a point in time has no time zone here.
    ty: Ty,
    /// The time zone of a point in time.
    timezone: Option<&'a str>,
}

/// The string that field `n` of the table refers to, and an empty one where it is absent (FlatBuffers, "FlatBuffer
/// Internals", "Strings and Vectors").
fn string_or_empty<'a>(table: &Table<'a>, n: usize) -> Result<&'a str, MetaFault>
    ensures read { IfOk result (λ shown. (bytes : Option Text) × ShowsString table.now.buf table.now.place n bytes
        × (shown.now ≡ or_empty bytes)) }
    ensures fault { IfErr result (StringFault table.now.buf table.now.place n) }
{
    match string(table, n)? {
        Some(shown) => Ok(shown),
        None => Ok(""),
    }
}

/// The entry of metadata whose table this is (Schema.fbs, the table `KeyValue`).
fn entry_in<'a>(table: &Table<'a>) -> Result<(&'a str, &'a str), MetaFault>
    ensures read { IfOk result (λ entry. ShowsEntry table.now.buf table.now.place (entry.0.now, entry.1.now)) }
    ensures fault { IfErr result (EntryFault table.now.buf table.now.place) }
{
    let key = string_or_empty(table, slot::ENTRY_KEY)?;
    let value = string_or_empty(table, slot::ENTRY_VALUE)?;
    Ok((key, value))
}

/// An entry of metadata (Schema.fbs, the table `KeyValue`).
pub(crate) fn read_entry(buf: &[u8], table: usize) -> Result<(&str, &str), MetaFault>
    ensures read { IfOk result (λ entry. ShowsEntry buf.now table (entry.0.now, entry.1.now)) }
    ensures fault { IfErr result (EntryFault buf.now table) }
{
    let table = table_at(buf, table)?;
    entry_in(&table)
}

/// The number at field `n` of the table at a place of the buffer that the table of the field stands in.
fn number_at(
    table: &Table<'_>,
    place: usize,
    n: usize,
    parameter: Parameter,
) -> Result<u64, MetaFault>
    requires { IsNumberSize parameter.size }
    ensures read { IfOk result (ShowsNumber table.now.buf place n parameter.size parameter.default) }
    ensures fault { IfErr result (SlotNumberFault table.now.buf place n parameter.size) }
{
    let parameters = table_beside(table, place)?;
    number(&parameters, n, parameter.size, parameter.default)
}

/// The string at field `n` of the table at a place of the buffer that the table of the field stands in.
fn string_at<'a>(table: &Table<'a>, place: usize, n: usize) -> Result<Option<&'a str>, MetaFault>
    ensures read { IfOk result (λ shown. ShowsString table.now.buf place n (option_map (λ bytes. bytes.now) shown)) }
    ensures fault { IfErr result (StringFault table.now.buf place n) }
{
    let parameters = table_beside(table, place)?;
    string(&parameters, n)
}

/// The parameter at field `n` of the table of a field's type, which is field 3 of `Field` (Schema.fbs).
fn read_parameter(
    table: &Table<'_>,
    n: usize,
    parameter: Option<Parameter>,
) -> Result<u64, MetaFault>
    requires { IsShort parameter }
    ensures read { IfOk result (ShowsParameter table.now.buf table.now.place n (option_parameter_view parameter)) }
    ensures bound { IfOk result (λ x. x < 2 ^ 32) }
    ensures fault { IfErr result (ParameterFault table.now.buf table.now.place n (option_parameter_view parameter)) }
{
    let Some(parameter) = parameter else {
        return Ok(0);
    };
    match reference(table, slot::FIELD_TYPE)? {
        Some(place) => number_at(table, place, n, parameter),
        None => Ok(parameter.default),
    }
}

/// The numbers among the parameters of a field's type (Schema.fbs, the tables of the union `Type`).
fn read_numbers(table: &Table<'_>, type_id: u8) -> Result<(u64, u64, u64), MetaFault>
    ensures read { IfOk result (λ x. ShowsParameters table.now.buf table.now.place type_id x.0 x.1 x.2) }
    ensures first { IfOk result (λ x. x.0 < 2 ^ 32) }
    ensures second { IfOk result (λ x. x.1 < 2 ^ 32) }
    ensures fault { IfErr result (ParametersFault table.now.buf table.now.place type_id) }
{
    let parameters = parameters_of(type_id);
    let first = read_parameter(table, 0, parameters.first)?;
    let second = read_parameter(table, 1, parameters.second)?;
    let third = read_parameter(table, 2, parameters.third)?;
    Ok((first, second, third))
}

/// The time zone of a field's type, where the type has one (Schema.fbs, the table `Timestamp`).
fn read_timezone<'a>(table: &Table<'a>, type_id: u8) -> Result<Option<&'a str>, MetaFault>
    ensures read { IfOk result (λ zone. ShowsTimezone table.now.buf table.now.place (has_timezone type_id)
        (option_map (λ bytes. bytes.now) zone)) }
    ensures fault { IfErr result (TimezoneFault table.now.buf table.now.place (has_timezone type_id)) }
{
    if type_id != TIMESTAMP {
        return Ok(None);
    }
    match reference(table, slot::FIELD_TYPE)? {
        Some(place) => string_at(table, place, slot::TIMESTAMP_TIMEZONE),
        None => Ok(None),
    }
}

/// What is wrong with a type whose parameters are none of its own (Schema.fbs, the union `Type`).
fn wrong_type(type_id: u8) -> MetaFault
    ensures { (text : List ℕ) (table : ℕ) → HasWrongParameters text table type_id
        → TypeFault text table type_id result }
{
    if type_id == DECIMAL || !is_carried(type_id) {
        MetaFault::Unsupported(type_id)
    } else {
        MetaFault::BadHeader
    }
}

/// The type of the field whose table this is (Schema.fbs, the table `Field`, its union `type`).
fn read_data_type<'a>(table: &Table<'a>) -> Result<DataTypeRef<'a>, MetaFault>
    ensures type_id { IfOk result (λ data_type. ShowsNumber table.now.buf table.now.place 2 1 0 data_type.type_id) }
    ensures read { IfOk result (λ data_type. ShowsDataType table.now.buf table.now.place data_type.type_id
        (with_timezone (data_type_of data_type.ty) (option_map (λ bytes. bytes.now) data_type.timezone))) }
    ensures fault { IfErr result (DataTypeFault table.now.buf table.now.place) }
{
    let type_id = number(table, slot::FIELD_TYPE_ID, 1, 0)? as u8;
    let (first, second, third) = read_numbers(table, type_id)?;
    let timezone = read_timezone(table, type_id)?;
    match type_from(type_id, first, second, third) {
        Some(ty) => Ok(DataTypeRef {
            type_id,
            ty,
            timezone,
        }),
        None => Err(wrong_type(type_id)),
    }
}

/// The field has no dictionary (Schema.fbs, the table `Field`, `dictionary`).
fn no_dictionary(table: &Table<'_>) -> Result<(), MetaFault>
    ensures read { IfOk result (λ done. ShowsField table.now.buf table.now.place 4 None) }
    ensures fault { IfErr result (λ fault. FieldSlotFault table.now.buf table.now.place 4 fault
        ⊎ OwnFault table.now.buf table.now.place fault) }
{
    match slot_at(table, slot::FIELD_DICTIONARY)? {
        Some(_) => Err(MetaFault::Dictionary),
        None => Ok(()),
    }
}

/// The field whose table this is (Schema.fbs, the table `Field`), but for the fields inside it and its metadata.
fn field_in<'a>(table: &Table<'a>) -> Result<FieldRef<'a>, MetaFault>
    ensures read { IfOk result (λ field. ShowsFieldHead table.now.buf table.now.place (field_view field)
        (vector_ref_of field.children) (vector_ref_of field.metadata)) }
    ensures fault { IfErr result (FieldFault table.now.buf table.now.place) }
{
    let name = string_or_empty(table, slot::FIELD_NAME)?;
    let nullable = number(table, slot::FIELD_NULLABLE, 1, 0)? != 0;
    no_dictionary(table)?;
    let children = vector_at(table, slot::FIELD_CHILDREN, 4)?;
    let metadata = vector_at(table, slot::FIELD_METADATA, 4)?;
    let data_type = read_data_type(table)?;
    if !allows_children(&data_type.ty, children.count) {
        return Err(MetaFault::BadHeader);
    }
    Ok(FieldRef {
        name,
        nullable,
        ty: data_type.ty,
        timezone: data_type.timezone,
        children,
        metadata,
    })
}

/// The field at the place, but for the fields inside it and its metadata (Schema.fbs, the table `Field`).
pub(crate) fn read_field(buf: &[u8], table: usize) -> Result<FieldRef<'_>, MetaFault>
    ensures read { IfOk result (λ field. ShowsFieldHead buf.now table (field_view field) (vector_ref_of field.children)
        (vector_ref_of field.metadata)) }
    ensures fault { IfErr result (FieldFault buf.now table) }
{
    let table = table_at(buf, table)?;
    field_in(&table)
}
