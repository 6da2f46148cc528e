//! Whether a column keeps its own rules.

ghost use Rattle.std.specs.Prelude.{◌≤◌, ◌↔◌, IsTrue, IfErr, OnOk, length};
ghost use Rattle.std.specs.List.{range_with_len};
ghost use Rattle.batch_types.specs.Order.{column_order, AreKept, IsFirstBroken};
ghost use Rattle.batch_types.specs.Rules.{AreLong};
ghost use Rattle.batch_types.specs.LaysOut.{values_limit};
ghost use Rattle.batch_columns.specs.Buffers.{behind_validity};
ghost use Rattle.batch_columns.specs.Held.{layout_named};
ghost use Rattle.batch_checking.specs.SourceRules.{OffsetsHold};
ghost use Rattle.batch_checking.specs.Around.{places_around, AreSteady};
ghost use Rattle.batch_checking.specs.Checked.{SourceKeeps, ReachesIf};

use crate::lengths::is_long;
use crate::offsets::have_risen;
use crate::texts::has_texts;
use crate::validity::has_null_count;
use batch_columns::{EncodedColumn, Layout};
use batch_types::BatchFault;

/// Whether the offsets of a column, where it has some, lead into its bytes or into the first column inside it, which
/// has so many values (Apache Arrow, "Arrow Columnar Format", "Variable-size Binary Layout" and "Variable-size List
/// Layout").
fn has_offsets(source: &EncodedColumn, first: usize) -> bool
    requires few { source.now.length ≤ values_limit }
    requires long { AreLong (layout_named source.now.layout) source.now.length source.now.nulls
        (length source.now.validity.now)
        (length (behind_validity (layout_named source.now.layout) source.now.offsets.now source.now.values.now)) }
    ensures { IsTrue result ↔ OffsetsHold (layout_named source.now.layout) source.now.length source.now.offsets.now
        source.now.values.now first }
{
    match source.layout {
        Layout::Binary | Layout::Utf8 => {
            have_risen(source.offsets, source.length, source.values.len())
        }
        Layout::List => have_risen(source.offsets, source.length, first),
        Layout::Null
        | Layout::Bits
        | Layout::Bytes { .. }
        | Layout::FixedSizeList { .. }
        | Layout::Struct => true,
    }
}

/// The first of its own rules that a column breaks whose buffers lie inside the body, if it breaks one: `first` is how
/// many values the first column inside it has, `asked` how many it has to have, and `rows` and `around` say which of
/// its places belong to the batch.
pub(crate) fn check_source(
    source: &EncodedColumn,
    first: usize,
    asked: usize,
    rows: usize,
    around: &[EncodedColumn],
) -> Result<(), BatchFault>
    requires few { source.now.length ≤ values_limit }
    requires steady { AreSteady (range_with_len 0 rows) around.now }
    requires inside { length around.now ≤ 16 }
    requires reaches { ReachesIf asked source.now.length (places_around (range_with_len 0 rows) around.now) }
    ensures kept { OnOk result (AreKept (SourceKeeps source.now first asked
        (places_around (range_with_len 0 rows) around.now)) column_order) }
    ensures fault { IfErr result (λ told. IsFirstBroken (SourceKeeps source.now first asked
        (places_around (range_with_len 0 rows) around.now)) column_order told) }
{
    if !is_long(source) {
        return Err(BatchFault::BufferRange);
    }
    if !has_null_count(source) {
        return Err(BatchFault::NullCount);
    }
    if !has_offsets(source, first) {
        return Err(BatchFault::OffsetsFall);
    }
    if source.length < asked {
        return Err(BatchFault::ChildShort);
    }
    if !has_texts(source, rows, around) {
        return Err(BatchFault::NotUtf8);
    }
    Ok(())
}
