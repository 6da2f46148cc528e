//! Whether a schema can be written and read back; without memory.

ghost use Rattle.std.specs.Prelude.{◌≡◌, ◌↔◌, ◌∷◌, [], map, length, IsTrue, IsNone, IfSome};
ghost use Rattle.header_types.specs.Views.{data_type_of, entry_of, tree_of, forest_of, schema_of};
ghost use Rattle.header_types.specs.Limits.{entries_totals, data_type_bytes, add_totals, tree_totals, IsWithin};
ghost use Rattle.header_types.specs.Limits.{IsBeyond};
ghost use Rattle.header_types.specs.Totals.{totals_of};
ghost use Rattle.header_types.specs.Adding.{Adds};
ghost use Rattle.header_types.specs.TypeIds.{AllowsChildren};
ghost use Rattle.header_types.specs.Profile.{IsSized, InProfile};
ghost use Rattle.header_types.specs.FieldView.{own_tree};
ghost use Rattle.header_types.specs.Fitting.{IsProper, FitsForest, ForestIsRefused};

use crate::field_type::Ty;
use crate::limits::MAX_DEPTH;
use crate::schema::{Field, Schema};
use crate::totals::SchemaTotals;

impl Schema {
    /// Whether the schema can be written and read back: it is no deeper than 16 levels, says no more than a schema may,
    /// each field has as many others inside it as its type allows, and no size is negative (Apache Arrow, "Schema.fbs",
    /// the tables `Schema`, `Field`, `FixedSizeBinary` and `FixedSizeList`).
    pub fn in_profile(&self) -> bool
        ensures { IsTrue result ↔ InProfile (schema_of self.now) }
    {
        match add_fields(&self.fields, MAX_DEPTH, SchemaTotals::NOTHING) {
            Some(seen) => add_entries(&self.metadata, seen).is_some(),
            None => false,
        }
    }
}

/// So many fields may stand inside one of this type (Schema.fbs, the union `Type`).
pub fn allows_children(ty: &Ty, count: usize) -> bool
    ensures { IsTrue result ↔ AllowsChildren (data_type_of ty.now) count }
{
    match ty {
        Ty::List | Ty::FixedSizeList { .. } => count == 1,
        Ty::Struct => true,
        Ty::Null
        | Ty::Int { .. }
        | Ty::FloatingPoint { .. }
        | Ty::Binary
        | Ty::Utf8
        | Ty::Bool
        | Ty::Decimal { .. }
        | Ty::Date { .. }
        | Ty::Time { .. }
        | Ty::Timestamp { .. }
        | Ty::FixedSizeBinary { .. }
        | Ty::Duration { .. } => count == 0,
    }
}

/// The type's size, where it has one, is not negative (Schema.fbs, the tables `FixedSizeBinary` and `FixedSizeList`).
fn is_sized(ty: &Ty) -> bool
    ensures { IsTrue result ↔ IsSized (data_type_of ty.now) }
{
    match ty {
        Ty::FixedSizeBinary { byte_width: size } | Ty::FixedSizeList { list_size: size } => {
            *size >= 0
        }
        Ty::Null
        | Ty::Int { .. }
        | Ty::FloatingPoint { .. }
        | Ty::Binary
        | Ty::Utf8
        | Ty::Bool
        | Ty::Decimal { .. }
        | Ty::Date { .. }
        | Ty::Time { .. }
        | Ty::Timestamp { .. }
        | Ty::List
        | Ty::Struct
        | Ty::Duration { .. } => true,
    }
}

/// A field of this type may have so many others inside it, and its size, where it has one, is not negative.
fn is_proper(ty: &Ty, count: usize) -> bool
    ensures { IsTrue result ↔ IsProper (data_type_of ty.now) count }
{
    allows_children(ty, count) && is_sized(ty)
}

/// The time zone of a type, empty where it has none.
fn timezone_of(ty: &Ty) -> &str
    ensures { length result.now ≡ data_type_bytes (data_type_of ty.now) }
{
    match ty {
        Ty::Timestamp {
            timezone: Some(timezone),
            ..
        } => timezone,
        Ty::Null
        | Ty::Int { .. }
        | Ty::FloatingPoint { .. }
        | Ty::Binary
        | Ty::Utf8
        | Ty::Bool
        | Ty::Decimal { .. }
        | Ty::Date { .. }
        | Ty::Time { .. }
        | Ty::Timestamp { timezone: None, .. }
        | Ty::List
        | Ty::Struct
        | Ty::FixedSizeBinary { .. }
        | Ty::FixedSizeList { .. }
        | Ty::Duration { .. } => "",
    }
}

/// With one entry of metadata more, where that is not too much.
fn add_entry(entry: &(String, String), seen: SchemaTotals) -> Option<SchemaTotals>
    requires within { IsWithin (totals_of seen) }
    ensures added { IfSome result (λ new. Adds (totals_of seen) (entries_totals (entry_of entry.now ∷ []))
        (totals_of new)) }
    ensures within { IfSome result (λ new. IsWithin (totals_of new)) }
    ensures beyond { IsNone result → IsBeyond (add_totals (totals_of seen) (entries_totals (entry_of entry.now ∷ []))) }
{
    let seen = seen.add_entry().ok()?;
    let seen = seen.add_text(&entry.0).ok()?;
    seen.add_text(&entry.1).ok()
}

/// With these entries of metadata more, where that is not too much.
fn add_entries(entries: &[(String, String)], seen: SchemaTotals) -> Option<SchemaTotals>
    requires within { IsWithin (totals_of seen) }
    ensures added { IfSome result (λ new. Adds (totals_of seen) (entries_totals (map entry_of entries.now))
        (totals_of new)) }
    ensures within { IfSome result (λ new. IsWithin (totals_of new)) }
    ensures beyond { IsNone result → IsBeyond
        (add_totals (totals_of seen) (entries_totals (map entry_of entries.now))) }
{
    let mut seen = seen;
    for entry in entries {
        seen = add_entry(entry, seen)?;
    }
    Some(seen)
}

/// With the field's own texts and metadata more, where that is not too much.
fn add_own(field: &Field, seen: SchemaTotals) -> Option<SchemaTotals>
    requires within { IsWithin (totals_of seen) }
    ensures added { IfSome result (λ new. Adds (totals_of seen) (tree_totals (own_tree field.now)) (totals_of new)) }
    ensures within { IfSome result (λ new. IsWithin (totals_of new)) }
    ensures beyond { IsNone result → IsBeyond (add_totals (totals_of seen) (tree_totals (own_tree field.now))) }
{
    let seen = seen.add_field().ok()?;
    let seen = seen.add_text(&field.name).ok()?;
    let seen = seen.add_text(timezone_of(&field.ty)).ok()?;
    add_entries(&field.metadata, seen)
}

/// With these fields and those inside them more, where that is not too much, they are no deeper than so many levels,
/// and each is well formed.
fn add_fields(fields: &[Field], levels: usize, seen: SchemaTotals) -> Option<SchemaTotals>
    requires within { IsWithin (totals_of seen) }
    ensures fits { IfSome result (λ new. FitsForest levels (totals_of seen) (totals_of new)
        (forest_of (map tree_of fields.now))) }
    ensures refused { IsNone result → ForestIsRefused levels (totals_of seen) (forest_of (map tree_of fields.now)) }
{
    let mut seen = seen;
    for field in fields {
        let children = field.children.as_slice();
        if levels == 0 || !is_proper(&field.ty, children.len()) {
            return None;
        }
        let after = add_own(field, seen)?;
        seen = add_fields(children, levels - 1, after)?;
    }
    Some(seen)
}
