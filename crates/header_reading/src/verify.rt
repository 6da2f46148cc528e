//! Whether all fields of a schema are shown, and say no more than a schema may; without memory.

ghost use Rattle.std.specs.Prelude.{◌≡◌, ◌<◌, ◌+◌, ◌*◌, length, option_map, IfOk, IfErr};
ghost use Rattle.flat_places.specs.Number.{ShowsReference};
ghost use Rattle.header_types.specs.Limits.{IsWithin, IsBeyond, add_totals, data_type_bytes};
ghost use Rattle.header_types.specs.Views.{data_type_of};
ghost use Rattle.header_reading.specs.FieldRefView.{with_timezone, field_view};
ghost use Rattle.header_types.specs.declared.fault.MetaFault.TheVariants.{TooManyFields};
ghost use Rattle.header_types.specs.Fields.{SchemaTree};
ghost use Rattle.header_types.specs.Shown.{ShowsEntry, ShowsFieldHead};
ghost use Rattle.header_types.specs.Header.{ShowsSchema};
ghost use Rattle.header_reading.specs.Faults.{SchemaFault};
ghost use Rattle.header_reading.specs.Building.{ShowsSchemaParts};
ghost use Rattle.header_reading.specs.VectorRefs.{vector_ref_of};
ghost use Rattle.header_types.specs.Totals.{totals_of};
ghost use Rattle.header_types.specs.Adding.{Adds};
ghost use Rattle.header_reading.specs.Walking.{field_totals, IsInside, PassesEntry, EntryEnd, PassesEntries};
ghost use Rattle.header_reading.specs.Walking.{EntriesEnd, PassesField, FieldEnd, PassesForest, ForestEnd};

use crate::field::{FieldRef, read_entry, read_field};
use crate::slot;
use crate::slots::{VectorRef, number, table_at, vector_at};
use flat_places::{Table, follow};
use header_types::{MAX_DEPTH, MetaFault, SchemaTotals, Ty};

/// The bytes of a reference.
const REFERENCE_LEN: usize = 4;

/// The table that the reference at this place of a vector names.
pub(crate) fn element(buf: &[u8], vector: VectorRef, index: usize) -> usize
    requires inside { IsInside buf.now (vector_ref_of vector) 4 }
    requires there { index < vector.count }
    ensures { ShowsReference buf.now (vector.first + 4 * index) result }
{
    match follow(buf, vector.first + REFERENCE_LEN * index) {
        Ok(table) => table,
        Err(_) => unreachable!(),
    }
}

/// The entry of metadata at the place, and what was read with it (Schema.fbs, the table `KeyValue`).
#[tactic(auto, using(crate::proofs::EntryWalks::entry_passes, crate::proofs::EntryWalks::one_too_many, crate::proofs::EntryWalks::key_too_long, crate::proofs::EntryWalks::value_too_long))]
pub(crate) fn count_entry(
    buf: &[u8],
    table: usize,
    seen: SchemaTotals,
) -> Result<((&str, &str), SchemaTotals), MetaFault>
    requires within { IsWithin (totals_of seen) }
    ensures read { IfOk result (λ r. ShowsEntry buf.now table (r.0.0.now, r.0.1.now)) }
    ensures passes { IfOk result (λ r. PassesEntry buf.now table (totals_of seen) (totals_of r.1)) }
    ensures within { IfOk result (λ r. IsWithin (totals_of r.1)) }
    ensures ends { IfErr result (EntryEnd buf.now table (totals_of seen)) }
{
    let (key, value) = read_entry(buf, table)?;
    let seen = seen.add_entry()?.add_text(key)?.add_text(value)?;
    Ok(((key, value), seen))
}

/// Whether these are entries of metadata, and what was read with them.
#[tactic(auto, using(crate::proofs::EntryWalks::no_entries))]
fn verify_entries(
    buf: &[u8],
    vector: VectorRef,
    seen: SchemaTotals,
) -> Result<SchemaTotals, MetaFault>
    requires inside { IsInside buf.now (vector_ref_of vector) 4 }
    requires within { IsWithin (totals_of seen) }
    ensures passes { IfOk result (λ new. PassesEntries buf.now vector.first vector.count (totals_of seen)
        (totals_of new)) }
    ensures within { IfOk result (λ new. IsWithin (totals_of new)) }
    ensures ends { IfErr result (EntriesEnd buf.now (vector_ref_of vector) (totals_of seen)) }
{
    let mut seen = seen;
    for index in 0..vector.count {
        (_, seen) = count_entry(buf, element(buf, vector, index), seen)?;
    }
    Ok(seen)
}

/// The bytes of the time zone that a field's type has.
fn timezone_of<'a>(ty: &'a Ty, timezone: Option<&'a str>) -> &'a str
    ensures { length result.now ≡ data_type_bytes
        (with_timezone (data_type_of ty.now) (option_map (λ s. s.now) timezone.entry)) }
{
    match ty {
        Ty::Timestamp { .. } => timezone.unwrap_or(""),
        Ty::Null
        | Ty::Int { .. }
        | Ty::FloatingPoint { .. }
        | Ty::Binary
        | Ty::Utf8
        | Ty::Bool
        | Ty::Decimal { .. }
        | Ty::Date { .. }
        | Ty::Time { .. }
        | Ty::List
        | Ty::Struct
        | Ty::FixedSizeBinary { .. }
        | Ty::FixedSizeList { .. }
        | Ty::Duration { .. } => "",
    }
}

/// What was read with the field's own texts.
fn verify_texts(field: &FieldRef<'_>, seen: SchemaTotals) -> Result<SchemaTotals, MetaFault>
    requires within { IsWithin (totals_of seen) }
    ensures added { IfOk result (λ new. Adds (totals_of seen) (field_totals (field_view field.now)) (totals_of new)) }
    ensures within { IfOk result (λ new. IsWithin (totals_of new)) }
    ensures beyond { IfErr result (λ e. e ≡ TooManyFields) }
    ensures more { IfErr result (λ e. IsBeyond (add_totals (totals_of seen) (field_totals (field_view field.now)))) }
{
    let timezone = timezone_of(&field.ty, field.timezone);
    seen.add_field()?.add_text(field.name)?.add_text(timezone)
}

/// The field at the place, but for the fields inside it and its metadata, and what was read with it (Schema.fbs, the
/// table `Field`).
pub(crate) fn count_field(
    buf: &[u8],
    table: usize,
    seen: SchemaTotals,
) -> Result<(FieldRef<'_>, SchemaTotals), MetaFault>
    requires within { IsWithin (totals_of seen) }
    ensures read { IfOk result (λ r. ShowsFieldHead buf.now table (field_view r.0) (vector_ref_of r.0.children)
        (vector_ref_of r.0.metadata)) }
    ensures added { IfOk result (λ r. Adds (totals_of seen) (field_totals (field_view r.0)) (totals_of r.1)) }
    ensures within { IfOk result (λ r. IsWithin (totals_of r.1)) }
    ensures ends { IfErr result (FieldEnd buf.now table (totals_of seen)) }
{
    let field = read_field(buf, table)?;
    let seen = verify_texts(&field, seen)?;
    Ok((field, seen))
}

/// Whether this is a field with its metadata, and what was read with it, but for the fields inside it.
#[tactic(auto, using(crate::proofs::Walking::field_passes))]
fn verify_field(
    buf: &[u8],
    table: usize,
    seen: SchemaTotals,
) -> Result<(VectorRef, SchemaTotals), MetaFault>
    requires within { IsWithin (totals_of seen) }
    ensures passes { IfOk result (λ r. PassesField buf.now table (vector_ref_of r.0) (totals_of seen) (totals_of r.1)) }
    ensures inside { IfOk result (λ r. IsInside buf.now (vector_ref_of r.0) 4) }
    ensures within { IfOk result (λ r. IsWithin (totals_of r.1)) }
    ensures ends { IfErr result (FieldEnd buf.now table (totals_of seen)) }
{
    let (field, seen) = count_field(buf, table, seen)?;
    let seen = verify_entries(buf, field.metadata, seen)?;
    Ok((field.children, seen))
}

/// Whether these are fields, no deeper than so many levels, and what was read with them and those inside them.
#[tactic(auto, using(crate::proofs::Walking::no_fields, crate::proofs::Walking::too_deep))]
fn verify_fields(
    buf: &[u8],
    vector: VectorRef,
    levels: usize,
    seen: SchemaTotals,
) -> Result<SchemaTotals, MetaFault>
    requires inside { IsInside buf.now (vector_ref_of vector) 4 }
    requires within { IsWithin (totals_of seen) }
    ensures passes { IfOk result (λ new. PassesForest buf.now vector.first vector.count levels (totals_of seen)
        (totals_of new)) }
    ensures within { IfOk result (λ new. IsWithin (totals_of new)) }
    ensures ends { IfErr result (ForestEnd buf.now levels (vector_ref_of vector) (totals_of seen)) }
{
    let mut seen = seen;
    for index in 0..vector.count {
        let table = element(buf, vector, index);
        if levels == 0 {
            return Err(MetaFault::TooDeep);
        }
        let (children, after) = verify_field(buf, table, seen)?;
        seen = verify_fields(buf, children, levels - 1, after)?;
    }
    Ok(seen)
}

/// References to the parts of a schema.
#[derive(Clone, Copy)]
pub(crate) struct SchemaRef {
    /// To its top fields.
    pub(crate) fields: VectorRef,
    /// To its metadata.
    pub(crate) metadata: VectorRef,
}

/// The parts of a little-endian schema, whose fields and entries nobody has looked at yet.
fn schema_in(table: &Table<'_>) -> Result<SchemaRef, MetaFault>
    ensures parts { IfOk result (λ parts. ShowsSchemaParts table.now.buf table.now.place (vector_ref_of parts.fields)
        (vector_ref_of parts.metadata)) }
    ensures fault { IfErr result (SchemaFault table.now.buf table.now.place) }
{
    if number(table, slot::SCHEMA_ENDIANNESS, 2, 0)? != 0 {
        return Err(MetaFault::Endianness);
    }
    let fields = vector_at(table, slot::SCHEMA_FIELDS, REFERENCE_LEN)?;
    let metadata = vector_at(table, slot::SCHEMA_METADATA, REFERENCE_LEN)?;
    Ok(SchemaRef { fields, metadata })
}

/// The parts of the little-endian schema at the place, whose fields and entries nobody has looked at yet (Schema.fbs,
/// the table `Schema`).
pub(crate) fn schema_at(buf: &[u8], table: usize) -> Result<SchemaRef, MetaFault>
    ensures parts { IfOk result (λ parts. ShowsSchemaParts buf.now table (vector_ref_of parts.fields)
        (vector_ref_of parts.metadata)) }
    ensures fault { IfErr result (SchemaFault buf.now table) }
{
    let table = table_at(buf, table)?;
    schema_in(&table)
}

/// Whether a schema stands at the place, no deeper and no larger than one may be.
pub(crate) fn verify_schema(buf: &[u8], table: usize) -> Result<(), MetaFault>
    ensures shown { IfOk result (λ done. (schema : SchemaTree) × ShowsSchema buf.now table schema) }
    ensures fault { IfErr result (SchemaFault buf.now table) }
{
    let parts = schema_at(buf, table)?;
    let seen = verify_fields(buf, parts.fields, MAX_DEPTH, SchemaTotals::NOTHING)?;
    verify_entries(buf, parts.metadata, seen)?;
    Ok(())
}
