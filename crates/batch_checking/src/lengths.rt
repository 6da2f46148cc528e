//! Whether buffers are long enough.

ghost use Rattle.std.specs.Prelude.{◌↔◌, ◌*◌, ◌≤◌, IsTrue, length};
ghost use Rattle.batch_types.specs.Rules.{IsValidityLong, AreOffsetsLong, AreLong};
ghost use Rattle.batch_types.specs.LaysOut.{values_limit};
ghost use Rattle.batch_columns.specs.Buffers.{behind_validity};
ghost use Rattle.batch_columns.specs.Held.{layout_named};

use batch_columns::{EncodedColumn, Layout};

/// Whether a bitmap of so many bytes is long enough for so many values; it may be empty where none is null (Apache
/// Arrow, "Arrow Columnar Format", "Validity bitmaps").
fn is_validity_long(count: usize, nulls: i64, bytes: usize) -> bool
    requires { count ≤ values_limit }
    ensures { IsTrue result ↔ IsValidityLong count nulls bytes }
{
    (nulls == 0 && bytes == 0) || (count + 7) / 8 <= bytes
}

/// Whether so many bytes have the offsets of so many values, four bytes each; there may be none where there is no
/// value.
fn are_offsets_long(count: usize, bytes: usize) -> bool
    requires { count ≤ values_limit }
    ensures { IsTrue result ↔ AreOffsetsLong 4 count bytes }
{
    (count == 0 && bytes == 0) || 4 * (count + 1) <= bytes
}

/// Whether so many bytes have so many values of one size.
fn are_values_long(size: u32, count: usize, bytes: usize) -> bool
    requires { count ≤ values_limit }
    ensures { IsTrue result ↔ (size * count ≤ bytes) }
{
    size as usize * count <= bytes
}

/// Whether the buffers of a column are long enough for its values ("Physical memory layout").
pub(crate) fn is_long(source: &EncodedColumn) -> bool
    requires { source.now.length ≤ values_limit }
    ensures { IsTrue result ↔ AreLong (layout_named source.now.layout) source.now.length source.now.nulls
        (length source.now.validity.now)
        (length (behind_validity (layout_named source.now.layout) source.now.offsets.now source.now.values.now)) }
{
    let (count, offsets, values) = (source.length, source.offsets.len(), source.values.len());
    let valid = is_validity_long(count, source.nulls, source.validity.len());
    match source.layout {
        Layout::Null => true,
        Layout::Bits => valid && (count + 7) / 8 <= values,
        Layout::Bytes { size } => valid && are_values_long(size, count, values),
        Layout::Binary | Layout::Utf8 | Layout::List => valid && are_offsets_long(count, offsets),
        Layout::FixedSizeList { .. } | Layout::Struct => valid,
    }
}
