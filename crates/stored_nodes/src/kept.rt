//! A store with the records that it kept.

ghost use Rattle.std.specs.Prelude.{◌≡◌, ◌≢◌, ◌↔◌, ◌+◌, ◌≤◌, [], ◌∷◌, ◌++◌, true, false, List, None, Some, Ok, IsTrue};
ghost use Rattle.std.specs.Prelude.{IfOk, IfErr, vec_len, vec_capacity};
ghost use Rattle.std.specs.Option.{IfSome};
ghost use Rattle.ballots.specs.declared.record.Record.{Record as Held};
ghost use Rattle.stable_records.specs.Found.{Found, FindsOnly};
ghost use Rattle.stable_records.specs.Calls.{CountsFault, RaisesCount};
ghost use Rattle.histories.specs.Following.{with_due};
ghost use Rattle.stored_nodes.specs.Kept.{FindsKept, RecoversAs, KeepLeaves, CountsRecall, ReadyAfterRecover, AreRecalled};

use crate::fault::StoredNodeFault;
use ballots::Record;
use stable_records::{Stable, StoreFault};
use std::alloc::Global;

/// A store with all records that it kept, and the one of which its last answer says nothing.
#[derive(Drop)]
pub(crate) struct KeptRecords<S: Stable> {
    pub(crate) store: S,
    pub(crate) records: Vec<Record>,
    /// The record of a keep that failed: the store has it, or not.
    pub(crate) doubted: Option<Record>,
    ghost found: { IsTrue S.tells → FindsKept (S.finds store) records.items doubted },
}

// Records are equal where they are one.
fn equal_records_are_one()
    ensures { (a b : Held) → (⟦<Record as PartialEq>⟧.eq a b ≡ true) ↔ (a ≡ b) }
{}

/// Whether the record in doubt was recalled behind the others, `None` where other records were recalled.
fn recovered_in(kept: &[Record], doubted: &Option<Record>, recalled: &[Record]) -> Option<bool>
    ensures recovers { RecoversAs kept.now doubted.now recalled.now result }
    ensures certain { doubted.now ≡ None → result ≢ Some true }
{
    equal_records_are_one();
    let behind = recalled.strip_prefix(kept)?;
    if behind.is_empty() {
        Some(false)
    } else if behind == doubted.as_slice() {
        Some(true)
    } else {
        None
    }
}

impl<S: Stable + Drop> KeptRecords<S> {
    /// The store with all records that it has, none of them in doubt. The fault is the store's.
    pub(crate) fn recall(alloc: Global, mut store: S) -> Result<KeptRecords<S>, StoreFault>
        ensures found { IfOk result (λ kept. IsTrue S.tells → S.finds store (Some kept.records.items)) }
        ensures certain { IfOk result (λ kept. kept.doubted ≡ None) }
        ensures fault { IfErr result (λ fault. (left : S) × RaisesCount fault (S.faults store) (S.faults left)) }
    {
        let records = store.recall(alloc)?;
        Ok(KeptRecords {
            store,
            records,
            doubted: None,
        })
    }

    /// The store, `None` where it has a record already. The fault is the store's.
    pub(crate) fn open(alloc: Global, mut store: S) -> Result<Option<KeptRecords<S>>, StoreFault>
        ensures empty { IfOk result (λ opened. IfSome opened
            (λ kept. (kept.records.items ≡ []) × (kept.doubted ≡ None))) }
        ensures ready { IfOk result (λ opened. IfSome opened (λ kept. IsTrue (S.is_ready kept.store))) }
        ensures none { IfOk result (λ opened. IfSome opened (λ kept. IsTrue S.tells → S.finds store (Some []))) }
        ensures some { result ≡ Ok None → IsTrue S.tells
            → (records : List Held) × S.finds store (Some records) × (records ≢ []) }
        ensures fault { IfErr result (λ fault. (left : S) × RaisesCount fault (S.faults store) (S.faults left)) }
    {
        let records = store.recall(alloc)?;
        if !records.is_empty() {
            return Ok(None);
        }
        Ok(Some(KeptRecords {
            store,
            records,
            doubted: None,
        }))
    }

    /// Keeps a record behind the others, where none is in doubt.
    ///
    /// After [`StoreFault::Device`] the record is in doubt; any other fault changes nothing.
    pub(crate) fn keep(&mut self, last: &Record) -> Result<(), StoreFault>
        requires certain { self.old.doubted ≡ None }
        ensures counted { CountsFault result (S.faults self.old.store) (S.faults self.new.store) }
        ensures kept { KeepLeaves last.now result self.old.records.items self.new.records.items self.new.doubted }
    {
        let copy = last.clone()?;
        self.records.reserve(1)?;
        match self.store.keep(last) {
            Ok(()) => {
                push(&mut self.records, copy);
                Ok(())
            }
            Err(fault) => {
                if fault == StoreFault::Device {
                    self.doubted = Some(copy);
                }
                Err(fault)
            }
        }
    }

    /// Recalls the records, and says whether the one in doubt is among them. What was kept and what is in doubt is as
    /// before.
    ///
    /// [`StoredNodeFault::Lost`] where other records are recalled than those that were kept. The other faults are the
    /// store's.
    pub(crate) fn recalled(&mut self, alloc: Global) -> Result<(Vec<Record>, bool), StoredNodeFault>
        ensures recalled { IfOk result
            (λ found. found.0.items ≡ with_due found.1 self.old.records.items self.old.doubted) }
        ensures certain { IfOk result (λ found. self.old.doubted ≡ None → found.1 ≡ false) }
        ensures finds { IfOk result (λ found. IsTrue S.tells
            → AreRecalled (S.finds self.old.store) (S.finds self.new.store) found.0.items) }
        ensures ready { ReadyAfterRecover result (S.is_ready self.old.store) (S.is_ready self.new.store) }
        ensures records { self.new.records ≡ self.old.records }
        ensures doubted { self.new.doubted ≡ self.old.doubted }
        ensures counted { CountsRecall S.tells result (S.faults self.old.store) (S.faults self.new.store) }
    {
        let recalled = match self.store.recall(alloc) {
            Ok(recalled) => recalled,
            Err(fault) => return Err(StoredNodeFault::Store(fault)),
        };
        match recovered_in(self.records.as_slice(), &self.doubted, recalled.as_slice()) {
            Some(recovered) => Ok((recalled, recovered)),
            None => Err(StoredNodeFault::Lost),
        }
    }

    /// Puts the records that were recalled in the place of those that were kept. No record is in doubt then.
    pub(crate) fn recover(&mut self, recalled: Vec<Record>)
        requires finds { IsTrue S.tells → FindsOnly (S.finds self.old.store) recalled.items }
        ensures records { self.new.records.items ≡ recalled.items }
        ensures certain { self.new.doubted ≡ None }
        ensures store { self.new.store ≡ self.old.store }
    {
        self.records = recalled;
        self.doubted = None;
    }
}

// Puts a record behind the others, where there is room for it.
fn push(records: &mut Vec<Record>, last: Record)
    requires { vec_len records.old + 1 ≤ vec_capacity records.old }
    ensures { records.new.items ≡ records.old.items ++ last ∷ [] }
{
    match records.push(last) {
        Ok(()) => {}
        Err(_) => unreachable!(),
    }
}
