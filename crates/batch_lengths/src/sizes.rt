//! How long buffers are.

ghost use Rattle.std.specs.Prelude.{◌≡◌, ◌+◌, ◌-◌, ◌*◌, ◌^◌, ◌<◌, ◌≤◌, min};
ghost use Rattle.batch_types.specs.Canonical.{padded};
ghost use Rattle.batch_types.specs.LaysOut.{values_limit};
ghost use Rattle.batch_types.specs.Rules.{bytes_for};
ghost use Rattle.batch_columns.specs.Held.{layout_named};
ghost use Rattle.batch_lengths.specs.Sizes.{validity_size, own_size, count_inside as count_of_layout};

use crate::counted::Counted;
use batch_columns::Layout;

/// How many bytes a buffer of so many has with those behind it, up to the next multiple of eight; the largest number where
/// they are more.
fn padded_length(bytes: u64) -> u64
    ensures { result ≡ min (padded bytes) (2 ^ 64 - 1) }
{
    bytes.saturating_add((8 - bytes % 8) % 8)
}

/// How many bytes so many bits have in a body.
fn bits_length(count: u64) -> u64
    requires { count ≤ values_limit }
    ensures { result ≡ padded (bytes_for count) }
{
    padded_length((count + 7) / 8)
}

/// How many bytes a bitmap has, where one is written.
fn validity_length(has_null: bool, count: u64) -> u64
    requires { count ≤ values_limit }
    ensures { result ≡ validity_size has_null count }
{
    if has_null { bits_length(count) } else { 0 }
}

/// How many bytes the offsets of so many values have.
fn offsets_length(count: u64) -> u64
    requires { count ≤ values_limit }
    ensures { result ≡ padded (4 * (count + 1)) }
{
    padded_length(4 * (count + 1))
}

/// How many bytes so many values of one size have.
fn values_length(size: u32, count: u64) -> u64
    requires { count ≤ values_limit }
    ensures { result ≡ padded (size * count) }
{
    padded_length(u64::from(size) * count)
}

/// How many bytes the buffers of a column of so many cells have, of which this was counted, those of the columns inside it
/// aside; the largest number where they are more.
pub(crate) fn own_length(layout: Layout, count: usize, counted: Counted) -> u64
    requires { count ≤ values_limit }
    ensures { result
        ≡ min (own_size (layout_named layout) count counted.has_null counted.total) (2 ^ 64 - 1) }
{
    let count = count as u64;
    let validity = validity_length(counted.has_null, count);
    match layout {
        Layout::Null => 0,
        Layout::Bits => validity.saturating_add(bits_length(count)),
        Layout::Bytes { size } => validity.saturating_add(values_length(size, count)),
        Layout::Binary | Layout::Utf8 => validity
            .saturating_add(offsets_length(count))
            .saturating_add(padded_length(counted.total as u64)),
        Layout::List => validity.saturating_add(offsets_length(count)),
        Layout::FixedSizeList { .. } | Layout::Struct => validity,
    }
}

/// How many cells the columns inside a column of so many have, which have so many elements in all.
pub(crate) fn count_inside(layout: Layout, count: usize, total: usize) -> usize
    requires { count ≤ values_limit }
    ensures { result ≡ count_of_layout (layout_named layout) count total }
{
    match layout {
        Layout::List => total,
        Layout::FixedSizeList { size } => size as usize * count,
        Layout::Struct => count,
        Layout::Null | Layout::Bits | Layout::Bytes { .. } | Layout::Binary | Layout::Utf8 => 0,
    }
}
