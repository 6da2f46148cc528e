//! What is counted of the cells that are wanted.

ghost use Rattle.std.specs.Prelude.{◌≡◌, ◌<◌, ◌≤◌, ◌+◌, ◌^◌, ◌∷◌, [], false};
ghost use Rattle.batch_columns.specs.Buffers.{has_offsets};
ghost use Rattle.batch_columns.specs.Held.{layout_named};
ghost use Rattle.batch_lengths.specs.Along.{mark_of, spots_marked, IsMarked};
ghost use Rattle.batch_lengths.specs.Counted.{has_null, IsCounted};
ghost use Rattle.batch_lengths.specs.Reach.{ReadsTo};

use crate::counted::Counted;
use crate::run::{count_one, count_run};
use crate::validity_mask::ValidityMask;
use batch_columns::EncodedColumn;
use bitmaps::count_zeros;

/// What is counted of the value of this number, where it is wanted.
fn count_marked(source: &EncodedColumn, marks: &ValidityMask, number: usize) -> Counted
    requires { ReadsTo source.now (marks.now.start + number + 1) }
    ensures { IsCounted source.now ((marks.now.start + number, mark_of marks.now number) ∷ []) result }
{
    if marks.is_marked(number) {
        count_one(source, marks.start + number)
    } else {
        Counted::NONE
    }
}

/// What is counted of the values that are wanted, one by one.
fn count_each_marked(source: &EncodedColumn, marks: &ValidityMask) -> Counted
    requires { ReadsTo source.now (marks.now.start + marks.now.count) }
    ensures { IsCounted source.now (spots_marked marks.now) result }
{
    let mut counted = Counted::NONE;
    for number in 0..marks.count {
        counted = counted.with(count_marked(source, marks, number));
    }
    counted
}

/// Whether one of the values that are wanted is null by a bitmap.
fn is_null_marked(validity: &[u8], marks: &ValidityMask) -> bool
    requires all { marks.now.all ≡ false }
    requires few { marks.now.count ≤ 1024 }
    requires within { marks.now.start + marks.now.count + 8 < 2 ^ 64 }
    ensures { result ≡ has_null validity.now (spots_marked marks.now) }
{
    let taken = marks.taken(validity);
    taken.set != marks.set
        && count_zeros(&taken.set, 0, marks.count) > count_zeros(&marks.set, 0, marks.count)
}

/// What is counted of the values that are wanted, where all have as many bytes or elements.
fn count_nulls(source: &EncodedColumn, marks: &ValidityMask) -> Counted
    requires even { has_offsets (layout_named source.now.layout) ≡ false }
    requires all { marks.now.all ≡ false }
    requires few { marks.now.count ≤ 1024 }
    requires within { marks.now.start + marks.now.count + 8 < 2 ^ 64 }
    ensures { IsCounted source.now (spots_marked marks.now) result }
{
    if source.validity.is_empty() {
        return Counted::NONE;
    }
    Counted {
        has_null: is_null_marked(source.validity, marks),
        total: 0,
    }
}

/// What is counted of the values that are wanted. One by one they are looked at only where they may have any number of bytes
/// or elements.
pub(crate) fn count_marks(source: &EncodedColumn, marks: &ValidityMask) -> Counted
    requires marked { IsMarked marks.now }
    requires reads { ReadsTo source.now (marks.now.start + marks.now.count) }
    ensures { IsCounted source.now (spots_marked marks.now) result }
{
    if marks.all {
        return count_run(source, marks.start, marks.count);
    }
    if source.layout.has_offsets() {
        return count_each_marked(source, marks);
    }
    count_nulls(source, marks)
}
