//! A store whose records share the values of others.

ghost use Rattle.std.specs.Prelude.{◌≡◌, IsTrue, OnOk};
ghost use Rattle.stable_records.specs.Calls.{CountsFault, ReadyAfterRecall, Recalls};
ghost use Rattle.stable_records.specs.Moments.{AnyCrashLeaves};
ghost use Rattle.shared_values.specs.Held.{HoldsNone};

use crate::held::HeldValues;
use crate::sharing::share_all;
use ballots::Record;
use stable_records::{Stable, StoreFault};
use std::alloc::Global;
use std::mem;

/// A store over another one (Lamport, *Paxos Made Simple*, section 2.5), whose next recall shares the values that are held
/// where they are equal to what was recalled. Its calls promise what those of the store beneath promise, of the same
/// records.
///
/// The values are held until a recall is `Ok`, and then dropped: each later recall keeps the bytes that it read.
#[derive(Drop)]
pub struct SharingStable<S: Stable> {
    store: S,
    held: HeldValues,
}

impl<S: Stable> SharingStable<S> {
    ghost use Rattle.shared_values.specs.SharingStable.{store_of, held_of};

    /// A store over this one, whose next recall shares these values.
    pub fn new(store: S, held: HeldValues) -> SharingStable<S>
        ensures store { store_of result ≡ store }
        ensures held { held_of result ≡ held }
    {
        SharingStable { store, held }
    }

    /// Has the next recall share these values, and no others.
    pub fn hold(&mut self, held: HeldValues)
        ensures held { held_of self.new ≡ held }
        ensures store { store_of self.new ≡ store_of self.old }
    {
        drop(mem::replace(&mut self.held, held));
    }

    /// The store that has the records.
    pub fn store(&self) -> &S
        ensures { result.now ≡ store_of self.now }
    {
        &self.store
    }
}

impl<S: Stable> Stable for SharingStable<S> {
    ghost use Rattle.shared_values.specs.SharingStable.{held_of};

    ghost tells = { S.tells };

    ghost faults = { λ s. S.faults s.store };

    ghost is_ready = { λ s. S.is_ready s.store };

    ghost finds = { λ s. S.finds s.store };

    ghost moment = { λ s. S.moment s.store };

    ghost finds_since = { λ s. S.finds_since s.store };

    /// What the store beneath promises.
    fn keep(&mut self, told: &Record) -> Result<(), StoreFault> {
        self.store.keep(told)
    }

    /// What the store beneath promises: its records, of which those share a value that are equal to a record with the value
    /// that is held. No value is held after `Ok`, and want of memory for sharing is no fault.
    fn recall(&mut self, alloc: Global) -> Result<Vec<Record>, StoreFault>
        ensures counted { CountsFault result
            (⟦<SharingStable<S> as Stable>⟧.faults self.old) (⟦<SharingStable<S> as Stable>⟧.faults self.new) }
        ensures ready { ReadyAfterRecall result
            (⟦<SharingStable<S> as Stable>⟧.is_ready self.old) (⟦<SharingStable<S> as Stable>⟧.is_ready self.new) }
        ensures recalled { IsTrue S.tells → Recalls result
            (⟦<SharingStable<S> as Stable>⟧.finds self.old) (⟦<SharingStable<S> as Stable>⟧.finds self.new) }
        ensures crash { IsTrue S.tells → AnyCrashLeaves ⟦<SharingStable<S> as Stable>⟧.moment
            ⟦<SharingStable<S> as Stable>⟧.finds_since self.old self.new
            (⟦<SharingStable<S> as Stable>⟧.finds self.old) }
        ensures dropped { OnOk result (HoldsNone (held_of self.new)) }
    {
        let mut records = self.store.recall(alloc)?;
        let held = mem::replace(&mut self.held, HeldValues::none(alloc));
        share_all(records.as_mut_slice(), &held);
        drop(held);
        Ok(records)
    }

    ghost ready_finds_one = { λ s. S.ready_finds_one s.store };

    ghost counts_now = { λ s. S.counts_now s.store };

    ghost only_now = { λ s. S.only_now s.store };
}
