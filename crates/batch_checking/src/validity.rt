//! Which values of a column are valid.

ghost use Rattle.std.specs.Prelude.{◌≡◌, ◌↔◌, ◌≤◌, IsTrue, pos};
ghost use Rattle.batch_types.specs.Placed.{is_valid as is_valid_seen};
ghost use Rattle.batch_types.specs.Rules.{HasNullCount};
ghost use Rattle.batch_types.specs.LaysOut.{values_limit};
ghost use Rattle.batch_columns.specs.Held.{layout_named};
ghost use Rattle.batch_checking.specs.SourceRules.{nulls_counted};

use batch_columns::EncodedColumn;
use bitmaps::{bit, count_zeros};

/// Whether the value at a place is valid (Apache Arrow, "Arrow Columnar Format", "Validity bitmaps").
pub(crate) fn is_valid(source: &EncodedColumn, place: usize) -> bool
    ensures { result ≡ is_valid_seen (layout_named source.now.layout) source.now.validity.now place }
{
    source.layout.has_values() && (source.validity.is_empty() || bit(source.validity, place))
}

/// How many values a bitmap says are null; none where there is no bitmap.
fn nulls_in(validity: &[u8], count: usize) -> usize
    requires { count ≤ values_limit }
    ensures { result ≡ nulls_counted validity.now count }
{
    if validity.is_empty() {
        0
    } else {
        count_zeros(validity, 0, count)
    }
}

/// Whether a number is this one.
fn is_count(number: i64, count: usize) -> bool
    ensures { IsTrue result ↔ (number ≡ pos count) }
{
    number >= 0 && number.unsigned_abs() as usize == count
}

/// Whether as many values are null as the node says ("Null count"). Of a column of the type Null it is not looked at.
pub(crate) fn has_null_count(source: &EncodedColumn) -> bool
    requires { source.now.length ≤ values_limit }
    ensures { IsTrue result ↔ HasNullCount (layout_named source.now.layout) source.now.validity.now
        (pos source.now.length, source.now.nulls) }
{
    !source.layout.has_values() || is_count(source.nulls, nulls_in(source.validity, source.length))
}
