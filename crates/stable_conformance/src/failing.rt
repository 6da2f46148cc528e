//! A store that fails once, as its caller meets it: the keep that fails, those that are refused until a recall is `Ok`,
//! and what that recall finds.

use crate::support::{expect, is_recalled, push_record, record_of};
use ballots::{Record, Value};
use stable_records::{FailingStable, MemoryStable, Stable, StoreFault};
use std::alloc::Global;
use std::test::Fail;

/// What a store answers to the record of a number that it is told to keep.
type Answer = (u32, Result<(), StoreFault>);

/// Two records are kept, the third fails, and then all are refused until a recall.
const UP_TO_THE_THIRD: [Answer; 5] = [
    (1, Ok(())),
    (2, Ok(())),
    (3, Err(StoreFault::Device)),
    (4, Err(StoreFault::Broken)),
    (5, Err(StoreFault::Broken)),
];

/// Without a recall none is kept.
const REFUSED: [Answer; 1] = [(1, Err(StoreFault::Broken))];

/// Behind one it is.
const KEPT: [Answer; 1] = [(1, Ok(()))];

/// Whether the store answers so.
fn answers<S: Stable>(store: &mut S, value: &Value, wanted: Answer) -> Result<bool, Fail> {
    let record = record_of(wanted.0, value)?;
    Ok(store.keep(&record) == wanted.1)
}

/// Whether it answers so to one record of this value after the other.
fn answers_each<S: Stable>(store: &mut S, value: &Value, wanted: &[Answer]) -> Result<bool, Fail> {
    for answer in wanted {
        if !answers(store, value, *answer)? {
            return Ok(false);
        }
    }
    Ok(true)
}

/// Whether it answers so to one record after the other.
fn answers_all<S: Stable>(store: &mut S, wanted: &[Answer]) -> Result<bool, Fail> {
    let noop = Value::Noop;
    answers_each(store, &noop, wanted)
}

/// Puts the record of this number.
fn push_noop(records: &mut Vec<Record>, number: u32) -> Result<(), Fail> {
    let noop = Value::Noop;
    push_record(records, number, &noop)
}

/// The records of these numbers.
fn records_of(alloc: Global, numbers: &[u32]) -> Result<Vec<Record>, Fail> {
    let mut records = Vec::new(alloc);
    for number in numbers {
        push_noop(&mut records, *number)?;
    }
    Ok(records)
}

/// Whether the records of these numbers are recalled, in order.
fn has<S: Stable>(alloc: Global, store: &mut S, numbers: &[u32]) -> Result<bool, Fail> {
    let wanted = records_of(alloc, numbers)?;
    is_recalled(alloc, store, wanted.as_slice())
}

/// Whether a store that has no records fails at the third keep, as said above.
fn fails_at_the_third<S: Stable>(alloc: Global, store: &mut S) -> Result<bool, Fail> {
    let was_empty = has(alloc, store, &[])?;
    Ok(was_empty && answers_all(store, &UP_TO_THE_THIRD)?)
}

/// Whether these records stand, and one more is kept behind them.
fn goes_on<S: Stable>(
    alloc: Global,
    store: &mut S,
    stand: &[u32],
    with_one_more: &[u32],
) -> Result<bool, Fail> {
    let has_stood = has(alloc, store, stand)?;
    let is_kept = answers_all(store, &[(6, Ok(()))])?;
    Ok(has_stood && is_kept && has(alloc, store, with_one_more)?)
}

/// Whether the store fails at the third keep, and goes on with these records, and one more behind them.
fn fails_and_goes_on<S: Stable>(
    alloc: Global,
    store: &mut S,
    stand: &[u32],
    with_one_more: &[u32],
) -> Result<bool, Fail> {
    let has_failed = fails_at_the_third(alloc, store)?;
    let goes_on = goes_on(alloc, store, stand, with_one_more)?;
    Ok(has_failed && goes_on)
}

/// A store as another thread would get it.
fn handed_on<S: Stable + Send>(store: S) -> S {
    store
}

/// A store in memory that fails once, behind so many calls.
fn failing(alloc: Global, calls: u64, keeps_last: bool) -> FailingStable<MemoryStable> {
    FailingStable::new(handed_on(MemoryStable::new(alloc)), calls, keeps_last)
}

/// The record of the keep that failed does not stand, and the next one is kept behind those that do.
#[test]
fn without_the_last(rt: HostRuntime) -> Result<(), Fail> {
    let mut store = failing(rt.alloc(), 3, false);
    expect(
        &rt,
        fails_and_goes_on(rt.alloc(), &mut store, &[1, 2], &[1, 2, 6]),
    )
}

/// The record of the keep that failed stands.
#[test]
fn with_the_last(rt: HostRuntime) -> Result<(), Fail> {
    let mut store = handed_on(failing(rt.alloc(), 3, true));
    expect(
        &rt,
        fails_and_goes_on(rt.alloc(), &mut store, &[1, 2, 3], &[1, 2, 3, 6]),
    )
}

/// Why a recall fails.
fn recall_fault<S: Stable>(alloc: Global, store: &mut S) -> Option<StoreFault> {
    store.recall(alloc).err()
}

/// Whether keeps are refused before a recall that fails, and behind it.
fn refuses_around_a_recall<S: Stable>(alloc: Global, store: &mut S) -> Result<bool, Fail> {
    let is_refused = answers_all(store, &REFUSED)?;
    let has_failed = recall_fault(alloc, store) == Some(StoreFault::Device);
    Ok(is_refused && has_failed && answers_all(store, &REFUSED)?)
}

/// Whether the store does, then recalls nothing, and keeps a record.
fn is_ready_again<S: Stable>(alloc: Global, store: &mut S) -> Result<bool, Fail> {
    let is_refused = refuses_around_a_recall(alloc, store)?;
    let has_none = has(alloc, store, &[])?;
    let is_kept = answers_all(store, &KEPT)?;
    Ok(is_refused && has_none && is_kept)
}

/// A recall that fails leaves the store refusing keeps, as before any recall. The next one is `Ok`.
#[test]
fn a_recall_fails(rt: HostRuntime) -> Result<(), Fail> {
    let mut store = failing(rt.alloc(), 0, false);
    expect(&rt, is_ready_again(rt.alloc(), &mut store))
}
