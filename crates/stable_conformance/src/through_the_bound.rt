//! Functions that are generic over a store, and proved from its contract alone.

ghost use Rattle.std.specs.Prelude.{◌≡◌, ◌⊎◌, ◌<◌, ◌≤◌, List, ◌++◌, IsTrue, IfOk, IfErr, OnOk};
ghost use Rattle.ballots.specs.declared.record.Record.{Record as Kept};
ghost use Rattle.stable_records.specs.declared.fault.StoreFault.TheVariants.{OutOfMemory};
ghost use Rattle.stable_records.specs.Found.{FindsOnly, IsCutShort};
ghost use Rattle.stable_records.specs.Calls.{CountsFault};
ghost use Rattle.stable_records.specs.Moments.{AnyCrashLeaves};

use crate::support::{expect, records_below, value_of};
use ballots::Record;
use stable_records::laws::{crashes_cut_keeps_short, one_list_stays_one};
use stable_records::{MemoryStable, Stable, StoreFault};
use std::alloc::Global;
use std::test::Fail;

/// Keeps records one after another, up to the first fault.
fn keep_all<S: Stable>(store: &mut S, told: &[Record]) -> Result<(), StoreFault>
    ensures counted { CountsFault result (S.faults store.old) (S.faults store.new) }
    ensures kept { OnOk result (IsTrue S.tells → (records : List Kept) → FindsOnly (S.finds store.old) records
        → FindsOnly (S.finds store.new) (records ++ told.now)) }
    ensures crash { OnOk result (IsTrue S.tells → (records : List Kept) → FindsOnly (S.finds store.old) records
        → AnyCrashLeaves S.moment S.finds_since store.old store.new (IsCutShort records told.now)) }
{
    one_list_stays_one::<S>();
    crashes_cut_keeps_short::<S>();
    for next in told {
        store.keep(next)?;
    }
    Ok(())
}

/// Keeps records behind those that the store has, and recalls all.
fn keep_and_recall<S: Stable>(
    alloc: Global,
    store: &mut S,
    told: &[Record],
) -> Result<Vec<Record>, StoreFault>
    ensures recalled { IfOk result (λ found. IsTrue S.tells → (records : List Kept)
        → FindsOnly (S.finds store.old) records → found.items ≡ records ++ told.now) }
    ensures fault { IfErr result (λ fault. (fault ≡ OutOfMemory) ⊎ (S.faults store.old < S.faults store.new)) }
{
    keep_all(store, told)?;
    store.recall(alloc)
}

/// The same in memory, where the count of faults stays 0: no fault comes but want of memory.
fn recalled_in_memory(alloc: Global, told: &[Record]) -> Result<Vec<Record>, StoreFault>
    ensures recalled { IfOk result (λ found. found.items ≡ told.now) }
    ensures fault { IfErr result (λ fault. fault ≡ OutOfMemory) }
{
    let mut store = MemoryStable::new(alloc);
    keep_and_recall(alloc, &mut store, told)
}

/// Whether the records are recalled there.
fn are_recalled(alloc: Global, told: &[Record]) -> Result<bool, Fail> {
    let found = recalled_in_memory(alloc, told)?;
    Ok(found.as_slice() == told)
}

/// The first seven records of a value.
fn seven_records(alloc: Global) -> Result<Vec<Record>, Fail> {
    let value = value_of(alloc, b"abc")?;
    records_below(alloc, 7, &value)
}

/// Records are recalled as they were kept, in order.
#[test]
fn in_memory(rt: HostRuntime) -> Result<(), Fail> {
    let told = seven_records(rt.alloc())?;
    expect(&rt, are_recalled(rt.alloc(), told.as_slice()))
}
