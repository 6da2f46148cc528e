//! Which columns are of which fields.

ghost use Rattle.std.specs.Prelude.{◌≡◌, ◌↔◌, IsTrue};
ghost use Rattle.header_types.specs.Views.{data_type_of};
ghost use Rattle.batch_types.specs.Layouts.{layout_of as layout_of_type, int_size as int_bytes, float_size as float_bytes};
ghost use Rattle.batch_types.specs.Layouts.{decimal_size as decimal_bytes, date_size as date_bytes, time_size as time_bytes};
ghost use Rattle.header_types.specs.FieldView.{field_head_of};
ghost use Rattle.batch_columns.specs.Contents.{layout_in};
ghost use Rattle.batch_columns.specs.Held.{layout_named, shapes_held};
ghost use Rattle.batch_columns.specs.FieldShapes.{field_shapes};

use crate::column::Column;
use crate::layout::Layout;
use header_types::{BitWidth, DateUnit, DecimalWidth, Field, Precision, TimeUnit, Ty};

/// How many bytes an integer has.
fn int_size(width: BitWidth) -> u32
    ensures { result ≡ int_bytes width }
{
    match width {
        BitWidth::Eight => 1,
        BitWidth::Sixteen => 2,
        BitWidth::ThirtyTwo => 4,
        BitWidth::SixtyFour => 8,
    }
}

/// How the values of a type stand in buffers (Apache Arrow, "Arrow Columnar Format", "Physical memory layout"). A size
/// below zero, which no type in profile has, counts as its amount.
pub fn layout_of(ty: &Ty) -> Layout
    ensures { layout_named result ≡ layout_of_type (data_type_of ty.now) }
{
    match ty {
        Ty::Null => Layout::Null,
        Ty::Bool => Layout::Bits,
        Ty::Binary => Layout::Binary,
        Ty::Utf8 => Layout::Utf8,
        Ty::List => Layout::List,
        Ty::Struct => Layout::Struct,
        Ty::Int { bit_width, .. } => Layout::Bytes {
            size: int_size(*bit_width),
        },
        Ty::FloatingPoint { precision } => Layout::Bytes {
            size: float_size(*precision),
        },
        Ty::Decimal { bit_width, .. } => Layout::Bytes {
            size: decimal_size(*bit_width),
        },
        Ty::Date { unit } => Layout::Bytes {
            size: date_size(*unit),
        },
        Ty::Time { unit } => Layout::Bytes {
            size: time_size(*unit),
        },
        Ty::Timestamp { .. } | Ty::Duration { .. } => Layout::Bytes { size: 8 },
        Ty::FixedSizeBinary { byte_width } => Layout::Bytes {
            size: byte_width.unsigned_abs(),
        },
        Ty::FixedSizeList { list_size } => Layout::FixedSizeList {
            size: list_size.unsigned_abs(),
        },
    }
}

fn float_size(precision: Precision) -> u32
    ensures { result ≡ float_bytes precision }
{
    match precision {
        Precision::Half => 2,
        Precision::Single => 4,
        Precision::Double => 8,
    }
}

fn decimal_size(width: DecimalWidth) -> u32
    ensures { result ≡ decimal_bytes width }
{
    match width {
        DecimalWidth::OneHundredTwentyEight => 16,
        DecimalWidth::TwoHundredFiftySix => 32,
    }
}

fn date_size(unit: DateUnit) -> u32
    ensures { result ≡ date_bytes unit }
{
    match unit {
        DateUnit::Day => 4,
        DateUnit::Millisecond => 8,
    }
}

fn time_size(unit: TimeUnit) -> u32
    ensures { result ≡ time_bytes unit }
{
    match unit {
        TimeUnit::Second | TimeUnit::Millisecond => 4,
        TimeUnit::Microsecond | TimeUnit::Nanosecond => 8,
    }
}

/// Whether a column's values stand in buffers as those of the field's type do.
fn has_layout(column: &Column, field: &Field) -> bool
    ensures { IsTrue result ↔ (layout_in column.now ≡ layout_of_type (field_head_of field.now).data_type) }
{
    column.layout() == layout_of(&field.ty)
}

/// Whether these columns are of these fields, one of each, in order: their values stand in buffers as those of the
/// fields' types do, and so those of the columns inside them, at all levels. It takes no memory.
pub fn are_of(columns: &[Column], fields: &[Field]) -> bool
    ensures { IsTrue result ↔ (shapes_held columns.now ≡ field_shapes fields.now) }
{
    if columns.len() != fields.len() {
        return false;
    }
    for index in 0..fields.len() {
        let (column, field) = (&columns[index], &fields[index]);
        if !has_layout(column, field) || !are_of(column.inside(), &field.children) {
            return false;
        }
    }
    true
}
