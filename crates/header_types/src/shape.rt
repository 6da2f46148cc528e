//! Whether two schemas are equal in all but metadata; without memory.

ghost use Rattle.std.specs.Prelude.{◌≡◌, ◌↔◌, map, string_bytes, IsTrue};
ghost use Rattle.header_types.specs.Views.{data_type_of, schema_of};
ghost use Rattle.header_types.specs.SameShape.{SameShape};
ghost use Rattle.header_types.specs.FieldView.{bare_fields, field_head_of};

use crate::field_type::Ty;
use crate::schema::{Field, Schema};

impl Schema {
    /// Whether the other schema is equal in all but metadata: the same fields in the same order, with the same names,
    /// types and parameters, and the same fields inside them, at all levels (Apache Arrow, "Schema.fbs", the tables
    /// `Schema` and `Field`). It looks at no more fields than the smaller of the two schemas has.
    pub fn same_shape(&self, other: &Schema) -> bool
        ensures { IsTrue result ↔ SameShape (schema_of self.now) (schema_of other.now) }
    {
        same_fields(&self.fields, &other.fields)
    }
}

/// Whether two types are the same, with the same parameters.
fn same_type(one: &Ty, other: &Ty) -> bool
    ensures { IsTrue result ↔ (data_type_of one.now ≡ data_type_of other.now) }
{
    one == other
}

/// Whether two names are the same.
fn same_name(one: &String, other: &String) -> bool
    ensures { IsTrue result ↔ (string_bytes one.now ≡ string_bytes other.now) }
{
    one == other
}

/// Whether two fields are equal but for their metadata and the fields inside them.
fn same_field(one: &Field, other: &Field) -> bool
    ensures { IsTrue result ↔ (field_head_of one.now ≡ field_head_of other.now) }
{
    one.nullable == other.nullable
        && same_name(&one.name, &other.name)
        && same_type(&one.ty, &other.ty)
}

/// Whether these fields are those, but for the metadata at any level.
fn same_fields(one: &[Field], other: &[Field]) -> bool
    ensures { IsTrue result ↔ (bare_fields one.now ≡ bare_fields other.now) }
{
    if one.len() != other.len() {
        return false;
    }
    for index in 0..one.len() {
        let (left, right) = (&one[index], &other[index]);
        if !same_field(left, right) || !same_fields(&left.children, &right.children) {
            return false;
        }
    }
    true
}
