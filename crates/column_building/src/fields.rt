//! Fields, by their layouts alone.

ghost use Rattle.std.specs.Prelude.{◌≡◌};
ghost use Rattle.batch_columns.specs.Contents.{layout_of_shape, shapes_of_shape};
ghost use Rattle.batch_columns.specs.FieldShapes.{field_shapes};
ghost use Rattle.batch_columns.specs.Held.{layout_named};
ghost use Rattle.column_building.specs.Whole.{field_shape, allows as allows_fields};
ghost use Rattle.column_building.specs.Whole.{is_whole as is_whole_shape, are_whole as are_whole_shapes};

use batch_columns::{Layout, layout_of};
use header_types::Field;

/// How the values of a field stand in buffers.
pub(crate) fn layout_in(field: &Field) -> Layout
    ensures { layout_named result ≡ layout_of_shape (field_shape field.now) }
{
    layout_of(&field.ty)
}

/// The fields inside one.
pub(crate) fn fields_in(field: &Field) -> &[Field]
    ensures { field_shapes result.now ≡ shapes_of_shape (field_shape field.now) }
{
    field.children.as_slice()
}

/// Whether so many fields may stand inside one of this layout.
fn allows(layout: Layout, count: usize) -> bool
    ensures { result ≡ allows_fields (layout_named layout) count }
{
    match layout {
        Layout::List | Layout::FixedSizeList { .. } => count == 1,
        Layout::Struct => true,
        Layout::Null | Layout::Bits | Layout::Bytes { .. } | Layout::Binary | Layout::Utf8 => {
            count == 0
        }
    }
}

/// Whether as many fields stand inside a field as its layout allows, and so inside those.
#[cycle(whole)]
pub(crate) fn is_whole(field: &Field) -> bool
    ensures { result ≡ is_whole_shape (field_shape field.now) }
{
    let inside = fields_in(field);
    allows(layout_in(field), inside.len()) && are_whole(inside)
}

/// Whether as many fields stand inside each of these as its layout allows, and so inside those.
#[cycle(whole)]
fn are_whole(fields: &[Field]) -> bool
    ensures { result ≡ are_whole_shapes (field_shapes fields.now) }
{
    for field in fields {
        if !is_whole(field) {
            return false;
        }
    }
    true
}
