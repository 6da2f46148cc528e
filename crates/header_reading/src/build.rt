//! Schemas, built while they are read.

ghost use Rattle.std.specs.Prelude.{◌≡◌, ◌⊎◌, ◌++◌, ◌∷◌, [], Err, map, length, option_map, string_bytes, IfOk, IfErr};
ghost use Rattle.std.specs.Prelude.{OnOk};
ghost use Rattle.header_types.specs.declared.fault.MetaFault.TheVariants.{OutOfMemory};
ghost use Rattle.header_types.specs.Fields.{SchemaTree};
ghost use Rattle.header_types.specs.Views.{data_type_of, entry_of, tree_of, forest_of, schema_of};
ghost use Rattle.header_types.specs.Shown.{ShowsEntry, ShowsEntries, ShowsForest};
ghost use Rattle.header_types.specs.Header.{ShowsSchema};
ghost use Rattle.header_types.specs.Limits.{IsWithin};
ghost use Rattle.header_reading.specs.Faults.{SchemaFault};
ghost use Rattle.header_types.specs.Totals.{totals_of};
ghost use Rattle.header_reading.specs.VectorRefs.{vector_ref_of};
ghost use Rattle.header_reading.specs.FieldRefView.{with_timezone};
ghost use Rattle.header_reading.specs.Walking.{IsInside, PassesEntry, EntryEnd, PassesEntries, EntriesEnd, PassesField};
ghost use Rattle.header_reading.specs.Walking.{FieldEnd, PassesForest, ForestEnd};
ghost use Rattle.header_reading.specs.Building.{field_built, BuildsField};

use crate::slots::VectorRef;
use crate::verify::{count_entry, count_field, element, schema_at, verify_schema};
use header_types::{Field, MAX_DEPTH, MetaFault, Schema, SchemaTotals, Ty};
use std::alloc::Global;

/// Appends the item.
fn push<T: Drop>(items: &mut Vec<T>, item: T) -> Result<(), MetaFault>
    ensures appended { OnOk result (items.new.items ≡ items.old.items ++ item ∷ []) }
    ensures fault { IfErr result (λ e. e ≡ OutOfMemory) }
{
    match items.push(item) {
        Ok(()) => Ok(()),
        Err(_) => Err(MetaFault::OutOfMemory),
    }
}

/// The entry of metadata at the place, and what was read with it (Schema.fbs, the table `KeyValue`).
fn build_entry(
    alloc: Global,
    buf: &[u8],
    table: usize,
    seen: SchemaTotals,
) -> Result<((String, String), SchemaTotals), MetaFault>
    requires within { IsWithin (totals_of seen) }
    ensures read { IfOk result (λ built. ShowsEntry buf.now table (entry_of built.0)) }
    ensures passes { IfOk result (λ built. PassesEntry buf.now table (totals_of seen) (totals_of built.1)) }
    ensures within { IfOk result (λ built. IsWithin (totals_of built.1)) }
    ensures ends { IfErr result (λ e. (e ≡ OutOfMemory) ⊎ EntryEnd buf.now table (totals_of seen) e) }
{
    let ((key, value), seen) = count_entry(buf, table, seen)?;
    let key = String::from_str(alloc, key)?;
    let value = String::from_str(alloc, value)?;
    Ok(((key, value), seen))
}

/// The entries of metadata whose references these are, and what was read with them.
#[tactic(auto, using(crate::proofs::EntryWalks::no_entries))]
fn build_entries(
    alloc: Global,
    buf: &[u8],
    vector: VectorRef,
    seen: SchemaTotals,
) -> Result<(Vec<(String, String)>, SchemaTotals), MetaFault>
    requires inside { IsInside buf.now (vector_ref_of vector) 4 }
    requires within { IsWithin (totals_of seen) }
    ensures read { IfOk result (λ built. ShowsEntries buf.now vector.first (map entry_of built.0.items)) }
    ensures all { IfOk result (λ built. length built.0.items ≡ vector.count) }
    ensures passes { IfOk result (λ built. PassesEntries buf.now vector.first vector.count (totals_of seen)
        (totals_of built.1)) }
    ensures within { IfOk result (λ built. IsWithin (totals_of built.1)) }
    ensures ends { IfErr result (λ e. (e ≡ OutOfMemory)
        ⊎ EntriesEnd buf.now (vector_ref_of vector) (totals_of seen) e) }
{
    let mut entries = Vec::new(alloc);
    let mut seen = seen;
    for index in 0..vector.count {
        let (entry, more) = build_entry(alloc, buf, element(buf, vector, index), seen)?;
        push(&mut entries, entry)?;
        seen = more;
    }
    Ok((entries, seen))
}

/// The text, as one that is owned.
fn owned(alloc: Global, text: Option<&str>) -> Result<Option<String>, MetaFault>
    ensures same { IfOk result (λ own. option_map string_bytes own ≡ option_map (λ s. s.now) text.entry) }
    ensures fault { IfErr result (λ e. e ≡ OutOfMemory) }
{
    match text {
        Some(text) => Ok(Some(String::from_str(alloc, text)?)),
        None => Ok(None),
    }
}

/// The type with this time zone, where it is one that has a time zone.
fn zoned(alloc: Global, ty: Ty, timezone: Option<&str>) -> Result<Ty, MetaFault>
    ensures same { IfOk result (λ own. data_type_of own ≡ with_timezone (data_type_of ty)
        (option_map (λ s. s.now) timezone.entry)) }
    ensures fault { IfErr result (λ e. e ≡ OutOfMemory) }
{
    match ty {
        Ty::Timestamp { unit, .. } => {
            let timezone = owned(alloc, timezone)?;
            Ok(Ty::Timestamp { unit, timezone })
        }
        Ty::Null
        | Ty::Int { .. }
        | Ty::FloatingPoint { .. }
        | Ty::Binary
        | Ty::Utf8
        | Ty::Bool
        | Ty::Decimal { .. }
        | Ty::Date { .. }
        | Ty::Time { .. }
        | Ty::List
        | Ty::Struct
        | Ty::FixedSizeBinary { .. }
        | Ty::FixedSizeList { .. }
        | Ty::Duration { .. } => Ok(ty),
    }
}

/// A field but for those inside it, to which there are references.
#[derive(Drop)]
struct FieldHead {
    /// Its name.
    name: String,
    /// Whether it may hold nulls.
    nullable: bool,
    /// Its type.
    ty: Ty,
    /// References to the fields inside it.
    children: VectorRef,
    /// Its metadata.
    metadata: Vec<(String, String)>,
}

/// The field at the place, but for those inside it, and what was read with it (Schema.fbs, the table `Field`).
#[tactic(auto, using(crate::proofs::Walking::vector_inside))]
fn build_field(
    alloc: Global,
    buf: &[u8],
    table: usize,
    seen: SchemaTotals,
) -> Result<(FieldHead, SchemaTotals), MetaFault>
    requires within { IsWithin (totals_of seen) }
    ensures read { IfOk result (λ b. BuildsField buf.now table (field_built b.0) (map entry_of b.0.metadata.items)
        (vector_ref_of b.0.children)) }
    ensures inside { IfOk result (λ b. IsInside buf.now (vector_ref_of b.0.children) 4) }
    ensures passes { IfOk result (λ b. PassesField buf.now table (vector_ref_of b.0.children) (totals_of seen)
        (totals_of b.1)) }
    ensures within { IfOk result (λ b. IsWithin (totals_of b.1)) }
    ensures ends { IfErr result (λ e. (e ≡ OutOfMemory) ⊎ FieldEnd buf.now table (totals_of seen) e) }
{
    let (field, seen) = count_field(buf, table, seen)?;
    let (metadata, seen) = build_entries(alloc, buf, field.metadata, seen)?;
    let name = String::from_str(alloc, field.name)?;
    let (nullable, children) = (field.nullable, field.children);
    let ty = zoned(alloc, field.ty, field.timezone)?;
    let head = FieldHead {
        name,
        nullable,
        ty,
        children,
        metadata,
    };
    Ok((head, seen))
}

/// The fields whose references these are, no deeper than so many levels, and what was read with them and those inside
/// them.
#[tactic(auto, using(crate::proofs::Walking::no_fields, crate::proofs::Walking::too_deep))]
fn build_fields(
    alloc: Global,
    buf: &[u8],
    vector: VectorRef,
    levels: usize,
    seen: SchemaTotals,
) -> Result<(Vec<Field>, SchemaTotals), MetaFault>
    requires inside { IsInside buf.now (vector_ref_of vector) 4 }
    requires within { IsWithin (totals_of seen) }
    ensures read { IfOk result (λ built. ShowsForest buf.now vector.first (forest_of (map tree_of built.0.items))) }
    ensures all { IfOk result (λ built. length built.0.items ≡ vector.count) }
    ensures passes { IfOk result (λ built. PassesForest buf.now vector.first vector.count levels (totals_of seen)
        (totals_of built.1)) }
    ensures within { IfOk result (λ built. IsWithin (totals_of built.1)) }
    ensures ends { IfErr result (λ e. (e ≡ OutOfMemory)
        ⊎ ForestEnd buf.now levels (vector_ref_of vector) (totals_of seen) e) }
{
    let mut fields = Vec::new(alloc);
    let mut seen = seen;
    for index in 0..vector.count {
        let table = element(buf, vector, index);
        if levels == 0 {
            return Err(MetaFault::TooDeep);
        }
        let (built, after) = build_field(alloc, buf, table, seen)?;
        let (children, more) = build_fields(alloc, buf, built.children, levels - 1, after)?;
        let field = Field {
            name: built.name,
            nullable: built.nullable,
            ty: built.ty,
            children,
            metadata: built.metadata,
        };
        push(&mut fields, field)?;
        seen = more;
    }
    Ok((fields, seen))
}

/// The schema at the place, read and counted in one pass.
fn build_schema(alloc: Global, buf: &[u8], table: usize) -> Result<Schema, MetaFault>
    ensures read { IfOk result (λ schema. ShowsSchema buf.now table (schema_of schema)) }
    ensures fault { IfErr result (λ e. (e ≡ OutOfMemory) ⊎ SchemaFault buf.now table e) }
{
    let parts = schema_at(buf, table)?;
    let (fields, seen) = build_fields(alloc, buf, parts.fields, MAX_DEPTH, SchemaTotals::NOTHING)?;
    let (metadata, _all) = build_entries(alloc, buf, parts.metadata, seen)?;
    Ok(Schema { fields, metadata })
}

/// The schema whose table this is (Schema.fbs, the table `Schema`). Where memory was refused, the text is looked at
/// once more, without memory: that it shows a schema has to be known.
pub(crate) fn read_schema(alloc: Global, buf: &[u8], table: usize) -> Result<Schema, MetaFault>
    ensures read { IfOk result (λ schema. ShowsSchema buf.now table (schema_of schema)) }
    ensures fault { IfErr result (λ e. (e ≡ OutOfMemory) ⊎ SchemaFault buf.now table e) }
    ensures memory { result ≡ Err OutOfMemory → (schema : SchemaTree) × ShowsSchema buf.now table schema }
{
    match build_schema(alloc, buf, table) {
        Err(MetaFault::OutOfMemory) => {
            verify_schema(buf, table)?;
            Err(MetaFault::OutOfMemory)
        }
        built => built,
    }
}
