//! Offsets, which say where values of any size begin and end.

ghost use Rattle.std.specs.Prelude.{◌≡◌, ◌↔◌, ◌+◌, ◌*◌, ◌<◌, ◌≤◌, ◌≤ℤ◌, ◌⊎◌, ℕ, pos, IsTrue, IfSome, IfNone, length};
ghost use Rattle.batch_types.specs.Placed.{start_of};
ghost use Rattle.batch_types.specs.Rules.{AreOffsetsLong, DoRise, OffsetsRise};
ghost use Rattle.batch_types.specs.LaysOut.{values_limit};
ghost use Rattle.batch_checking.specs.SourceRules.{Rises, AreSpread, StandsIn};

use batch_columns::{offset_at, start_at};

/// Whether no offset of so many values is below the one before.
fn rise(offsets: &[u8], count: usize) -> bool
    requires { 4 * (count + 1) ≤ length offsets.now }
    ensures { IsTrue result ↔ Rises offsets.now count }
{
    let mut before = offset_at(offsets, 0);
    for row in 0..count {
        let next = offset_at(offsets, row + 1);
        if next < before {
            return false;
        }
        before = next;
    }
    true
}

/// Whether a number is no higher than a limit.
fn is_within(number: i64, limit: usize) -> bool
    ensures { IsTrue result ↔ (number ≤ℤ pos limit) }
{
    number < 0 || number.unsigned_abs() as usize <= limit
}

/// Whether the offsets of so many values begin no lower than at 0, do not fall, and end no higher than at the limit.
fn do_rise(offsets: &[u8], count: usize, limit: usize) -> bool
    requires { 4 * (count + 1) ≤ length offsets.now }
    ensures { IsTrue result ↔ DoRise 4 offsets.now count limit }
{
    if offset_at(offsets, 0) < 0 {
        return false;
    }
    if !rise(offsets, count) {
        return false;
    }
    is_within(offset_at(offsets, count), limit)
}

/// The same, where offsets are there.
pub(crate) fn have_risen(offsets: &[u8], count: usize, limit: usize) -> bool
    requires few { count ≤ values_limit }
    requires long { AreOffsetsLong 4 count (length offsets.now) }
    ensures { IsTrue result ↔ OffsetsRise 4 offsets.now count limit }
{
    offsets.is_empty() || do_rise(offsets, count, limit)
}

/// A row whose value begins no higher than at a place: the guessed one if it does, else the first; `None` where the first
/// begins higher.
fn begin_below(offsets: &[u8], count: usize, place: usize, guess: usize) -> Option<usize>
    requires { 4 * (count + 1) ≤ length offsets.now }
    ensures below { IfSome result (λ row. (row ≤ count) × (start_of 4 offsets.now row ≤ place)) }
    ensures none { IfNone result (place < start_of 4 offsets.now 0) }
{
    if guess <= count && start_at(offsets, guess) <= place {
        return Some(guess);
    }
    if start_at(offsets, 0) <= place {
        Some(0)
    } else {
        None
    }
}

/// Two rows, the first of which begins no higher than at a place and the second higher; `None` where the place lies before
/// the first value or behind the last. They are found in steps that grow from a guess on: any guess will do, and a near
/// one is found soon.
fn bounds_around(offsets: &[u8], count: usize, place: usize, guess: usize) -> Option<(usize, usize)>
    requires few { count ≤ values_limit }
    requires long { 4 * (count + 1) ≤ length offsets.now }
    ensures order { IfSome result (λ rows. (rows.0 < rows.1) × (rows.1 ≤ count)) }
    ensures around { IfSome result
        (λ rows. (start_of 4 offsets.now rows.0 ≤ place) × (place < start_of 4 offsets.now rows.1)) }
    ensures outside { IfNone result
        ((place < start_of 4 offsets.now 0) ⊎ (start_of 4 offsets.now count ≤ place)) }
{
    let first = begin_below(offsets, count, place, guess)?;
    let (mut low, mut step) = (first, 1);
    while step < count - low {
        if place < start_at(offsets, low + step) {
            return Some((low, low + step));
        }
        low += step;
        step = low - first;
    }
    if place < start_at(offsets, count) {
        Some((low, count))
    } else {
        None
    }
}

/// The row whose value has the element at a place, between two rows of which the first begins no higher than there and the
/// second higher.
fn row_between(offsets: &[u8], place: usize, low: usize, high: usize) -> usize
    requires few { high ≤ values_limit }
    requires long { 4 * (high + 1) ≤ length offsets.now }
    requires order { low < high }
    requires around { (start_of 4 offsets.now low ≤ place) × (place < start_of 4 offsets.now high) }
    ensures below { result < high }
    ensures stands { StandsIn offsets.now result place }
{
    let (mut low, mut high) = (low, high);
    while high - low > 1 {
        let middle = low + (high - low) / 2;
        if place < start_at(offsets, middle) {
            high = middle;
        } else {
            low = middle;
        }
    }
    low
}

/// The row whose value has the element at a place, by offsets that do not fall. A row near it may be guessed.
pub(crate) fn row_around(offsets: &[u8], count: usize, place: usize, guess: usize) -> Option<usize>
    requires few { count ≤ values_limit }
    requires spread { AreSpread offsets.now count }
    ensures some { IfSome result (λ row. (row < count) × StandsIn offsets.now row place) }
    ensures none { IfNone result ((row : ℕ) → row < count → ¬ (StandsIn offsets.now row place)) }
{
    if count == 0 {
        return None;
    }
    match bounds_around(offsets, count, place, guess) {
        Some((low, high)) => Some(row_between(offsets, place, low, high)),
        None => None,
    }
}
