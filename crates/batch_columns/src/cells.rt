//! The cells of a column, one by one.

ghost use Rattle.std.specs.Prelude.{◌≡◌, ◌+◌, ◌-◌, ◌*◌, ◌<◌, ◌≤◌, length, get_or, slice_get, replicate, Some, None, IfSome, IfNone, [], true};
ghost use Rattle.batch_types.specs.Cells.{null_cell};
ghost use Rattle.batch_types.specs.Canonical.{is_null as is_null_cell, bytes_or};
ghost use Rattle.batch_types.specs.Layouts.{bytes_layout};
ghost use Rattle.batch_types.specs.Placed.{bytes_from};
ghost use Rattle.batch_columns.specs.Contents.{layout_in};
ghost use Rattle.batch_columns.specs.Looks.{has_spread, has_bits as has_bits_seen, null_seen, bit_seen, bytes_seen};
ghost use Rattle.batch_columns.specs.Held.{layout_named};

use crate::column::Column;
use crate::layout::Layout;
use crate::offsets::start_at;
use batch_types::laws::written_values_are_the_cells;
use bitmaps::bit;

/// Whether the cells of this layout that are not null have a bit each.
fn has_bits(layout: Layout) -> bool
    ensures { result ≡ has_bits_seen (layout_named layout) }
{
    match layout {
        Layout::Bits => true,
        Layout::Null
        | Layout::Bytes { .. }
        | Layout::Binary
        | Layout::Utf8
        | Layout::List
        | Layout::FixedSizeList { .. }
        | Layout::Struct => false,
    }
}

/// The bit of the cell of a row that is there, where the layout has bits.
fn bit_at(column: &Column, row: usize) -> Option<bool>
    requires { row < length column.now.cells }
    ensures { result ≡ bit_seen (Some (get_or column.now.cells row null_cell)) }
{
    written_values_are_the_cells();
    if has_bits(column.layout()) && !is_null_at(column, row) {
        Some(bit(column.values(), row))
    } else {
        None
    }
}

/// The bytes of block `row` of some, each of so many bytes.
fn block(bytes: &[u8], size: usize, row: usize) -> &[u8]
    requires { size * row + size ≤ length bytes.now }
    ensures { result.now ≡ bytes_from bytes.now (size * row) size }
{
    let start = size * row;
    &bytes[start..start + size]
}

/// The bytes of the value of a row that is there, in the layout of so many bytes a value.
fn sized_at(column: &Column, size: usize, row: usize) -> &[u8]
    requires sized { layout_in column.now ≡ bytes_layout size }
    requires within { row < length column.now.cells }
    ensures { result.now ≡ bytes_or (replicate size 0) (get_or column.now.cells row null_cell) }
{
    written_values_are_the_cells();
    block(column.values(), size, row)
}

/// The bytes of a run of some.
fn part(bytes: &[u8], start: usize, end: usize) -> &[u8]
    requires { (start ≤ end) × (end ≤ length bytes.now) }
    ensures { result.now ≡ bytes_from bytes.now start (end - start) }
{
    &bytes[start..end]
}

/// The bytes of the value of a row that is there, in a layout of bytes of any number.
fn spread_at(column: &Column, row: usize) -> &[u8]
    requires spread { has_spread (layout_in column.now) ≡ true }
    requires within { row < length column.now.cells }
    ensures { result.now ≡ bytes_or [] (get_or column.now.cells row null_cell) }
{
    written_values_are_the_cells();
    let offsets = column.offsets();
    let start = start_at(offsets, row);
    let end = start_at(offsets, row + 1);
    part(column.values(), start, end)
}

/// Whether the cell of a row that is there is null.
fn is_null_at(column: &Column, row: usize) -> bool
    requires { row < length column.now.cells }
    ensures { result ≡ is_null_cell (get_or column.now.cells row null_cell) }
{
    written_values_are_the_cells();
    if !column.layout().has_values() {
        return true;
    }
    let validity = column.validity();
    !validity.is_empty() && !bit(validity, row)
}

/// The bytes of the cell of a row that is there, where it has some.
fn bytes_at(column: &Column, row: usize) -> Option<&[u8]>
    requires { row < length column.now.cells }
    ensures some { IfSome result (λ bytes. bytes_seen (Some (get_or column.now.cells row null_cell)) ≡ Some bytes.now) }
    ensures none { IfNone result (bytes_seen (Some (get_or column.now.cells row null_cell)) ≡ None) }
{
    if is_null_at(column, row) {
        return None;
    }
    match column.layout() {
        Layout::Bytes { size } => Some(sized_at(column, size as usize, row)),
        Layout::Binary | Layout::Utf8 => Some(spread_at(column, row)),
        Layout::Null
        | Layout::Bits
        | Layout::List
        | Layout::FixedSizeList { .. }
        | Layout::Struct => None,
    }
}

impl Column {
    /// Whether the cell of this row is null; `None` behind the last row.
    pub fn is_null(&self, row: usize) -> Option<bool>
        ensures { result ≡ null_seen (slice_get self.now.cells row) }
    {
        if row < self.len() {
            Some(is_null_at(self, row))
        } else {
            None
        }
    }

    /// The bit of the cell of this row; `None` where it is null, where the layout has no bits, and behind the last row.
    pub fn bit(&self, row: usize) -> Option<bool>
        ensures { result ≡ bit_seen (slice_get self.now.cells row) }
    {
        if row < self.len() {
            bit_at(self, row)
        } else {
            None
        }
    }

    /// The bytes of the cell of this row: of a value of fixed size, or of any bytes or a text; `None` where it is null,
    /// where the layout has no bytes, and behind the last row.
    pub fn bytes(&self, row: usize) -> Option<&[u8]>
        ensures some { IfSome result (λ bytes. bytes_seen (slice_get self.now.cells row) ≡ Some bytes.now) }
        ensures none { IfNone result (bytes_seen (slice_get self.now.cells row) ≡ None) }
    {
        if row < self.len() {
            bytes_at(self, row)
        } else {
            None
        }
    }
}
