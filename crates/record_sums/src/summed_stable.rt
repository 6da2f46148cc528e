//! A store that enters the sum of each record.

ghost use Rattle.std.specs.Prelude.{◌≡◌, ◌+◌, ◌*◌, ◌<◌, ◌≤◌, ◌^◌, ⊤, true, false, None, length, IsTrue, IsErrOf, IfOk, OnOk};
ghost use Rattle.stable_records.specs.declared.fault.StoreFault.TheVariants.{Device, Damaged, Broken};
ghost use Rattle.stable_records.specs.Calls.{CountsFault, ReadyAfterKeep, ReadyAfterRecall, Keeps};
ghost use Rattle.disk_records.specs.Disk.{written_at};
ghost use Rattle.record_sums.specs.Sums.{entry_of};
ghost use Rattle.record_sums.specs.Recalling.{IsCompared, MayBeDamaged, RecallsOf, nothing_is_told};
ghost use Rattle.record_sums.specs.Reading.{with_text};

use crate::entry::{ENTRY_BYTES, entry_of};
use crate::file::{enter, missing_in};
use ballots::Record;
use disk_records::Disk;
use stable_records::{FaultCount, Stable, StoreFault};
use std::alloc::Global;

/// A store over another one, which enters the sum of each record in a file beside it: a recall is
/// [`StoreFault::Damaged`] where an entry is not its record's, or is that of a record which is not there.
///
/// A keep enters the sum once the record stands, and without a sync: a crash may leave it out. A recall compares what
/// there is, and writes nothing; what was missing is entered with the next keep. Where the file of sums can't be read or
/// written the call is [`StoreFault::Device`], as where the other store's is.
///
/// Since bytes may have changed on the medium, the store tells nothing of its content; what its calls do to the store
/// beneath, and to the file of sums, is in their contracts.
#[derive(Drop)]
pub struct SummedStable<S: Stable, D: Disk> {
    store: S,
    sums: D,
    alloc: Global,
    is_ready: bool,
    /// How many records there are, once the store is ready.
    count: usize,
    /// What the file of sums has to begin with before the next entry, where it lacks some.
    missing: Option<Vec<u8>>,
    refusals: FaultCount,
    ghost ready: { is_ready ≡ true → IsTrue (S.is_ready store) },
    ghost reaches: { is_ready ≡ true → IsTrue D.tells → 24 * count ≤ length (with_text (D.content sums) missing) },
    ghost small: { is_ready ≡ true → 24 * count < 2 ^ 64 },
}

impl<S: Stable, D: Disk> SummedStable<S, D> {
    ghost use Rattle.record_sums.specs.SummedStable.{store_of, sums_of};

    /// A store over this one, with its sums on this disk. It is ready once a recall was `Ok`. It takes a record's bytes
    /// from this allocator while it works out their sum.
    pub fn new(alloc: Global, store: S, sums: D) -> SummedStable<S, D>
        ensures ready { ⟦<SummedStable<S, D> as Stable>⟧.is_ready result ≡ false }
        ensures faults { ⟦<SummedStable<S, D> as Stable>⟧.faults result ≡ S.faults store + D.failures sums }
        ensures store { store_of result ≡ store }
        ensures sums { sums_of result ≡ sums }
    {
        SummedStable {
            store,
            sums,
            alloc,
            is_ready: false,
            count: 0,
            missing: None,
            refusals: FaultCount::new(),
        }
    }

    /// The store that has the records.
    pub fn store(&self) -> &S
        ensures { result.now ≡ store_of self.now }
    {
        &self.store
    }

    /// The disk that has the sums.
    pub fn sums(&self) -> &D
        ensures { result.now ≡ sums_of self.now }
    {
        &self.sums
    }
}

impl<S: Stable, D: Disk> Stable for SummedStable<S, D> {
    ghost use Rattle.record_sums.specs.SummedStable.{store_of, sums_of, count_of, missing_of};

    ghost tells = { false };

    ghost faults = { λ s. S.faults s.store + D.failures s.sums + s.refusals.count };

    ghost is_ready = { λ s. s.is_ready };

    ghost finds = { λ _ _. ⊤ };

    ghost moment = { λ _. 0 };

    ghost finds_since = { λ _ _ _. ⊤ };

    /// Beside what every store promises: the store beneath keeps the record by its contract, and where the answer is `Ok`
    /// the record's entry stands behind those of the earlier ones, of which none is missing then.
    fn keep(&mut self, told: &Record) -> Result<(), StoreFault>
        ensures counted { CountsFault result
            (⟦<SummedStable<S, D> as Stable>⟧.faults self.old) (⟦<SummedStable<S, D> as Stable>⟧.faults self.new) }
        ensures ready { ReadyAfterKeep result
            (⟦<SummedStable<S, D> as Stable>⟧.is_ready self.old) (⟦<SummedStable<S, D> as Stable>⟧.is_ready self.new) }
        ensures beneath { IsTrue S.tells → Keeps told.now result (S.finds (store_of self.old)) (S.finds (store_of self.new)) }
        ensures entered { IsTrue D.tells → OnOk result (D.content (sums_of self.new)
            ≡ written_at (with_text (D.content (sums_of self.old)) (missing_of self.old)) (24 * count_of self.old)
            (entry_of (count_of self.old) told.now)) }
        ensures count { OnOk result (count_of self.new ≡ count_of self.old + 1) }
        ensures none { OnOk result (missing_of self.new ≡ None) }
    {
        if !self.is_ready {
            self.refusals.rise();
            return Err(StoreFault::Broken);
        }
        let Ok(entry) = entry_of(self.alloc, self.count, told) else {
            return Err(StoreFault::OutOfMemory);
        };
        let kept = self.store.keep(told);
        if kept.is_err() {
            self.is_ready = kept != Err(StoreFault::Device);
            return kept;
        }
        let place = self.count * ENTRY_BYTES;
        if enter(&mut self.sums, &mut self.missing, place, &entry).is_err() {
            self.is_ready = false;
            return Err(StoreFault::Device);
        }
        self.count += 1;
        Ok(())
    }

    /// Beside what every store promises: the records are those that the store beneath gives back, and the file of sums fits
    /// them: it has the sum of each and no other once what is missing is written. Nothing is written. It is
    /// [`StoreFault::Damaged`] only where that store's recall is, or where an entry is not its record's.
    fn recall(&mut self, alloc: Global) -> Result<Vec<Record>, StoreFault>
        ensures counted { CountsFault result
            (⟦<SummedStable<S, D> as Stable>⟧.faults self.old) (⟦<SummedStable<S, D> as Stable>⟧.faults self.new) }
        ensures ready { ReadyAfterRecall result
            (⟦<SummedStable<S, D> as Stable>⟧.is_ready self.old) (⟦<SummedStable<S, D> as Stable>⟧.is_ready self.new) }
        ensures beneath { IsTrue S.tells → RecallsOf result (S.finds (store_of self.old)) (S.finds (store_of self.new)) }
        ensures compared { IsTrue D.tells → IfOk result (λ records. IsCompared
            (D.content (sums_of self.old)) (D.content (sums_of self.new)) (missing_of self.new) records.items) }
        ensures count { IfOk result (λ records. count_of self.new ≡ length records.items) }
        ensures damaged { IsTrue S.tells → IsTrue D.tells → IsErrOf result Damaged
            → MayBeDamaged (S.finds (store_of self.old)) (D.content (sums_of self.old)) }
    {
        let records = match self.store.recall(alloc) {
            Ok(records) => records,
            Err(fault) => {
                self.is_ready = self.is_ready && fault != StoreFault::Device;
                return Err(fault);
            }
        };
        match missing_in(alloc, &mut self.sums, &records) {
            Ok(missing) => {
                self.is_ready = true;
                self.count = records.len();
                self.missing = missing;
                Ok(records)
            }
            Err(fault) => {
                self.is_ready = self.is_ready && fault != StoreFault::Device;
                if fault == StoreFault::Damaged {
                    self.refusals.rise();
                }
                Err(fault)
            }
        }
    }

    ghost ready_finds_one = { λ _ told _. nothing_is_told told };

    ghost counts_now = { λ _ _ _ _ _. tt };

    ghost only_now = { λ _ _ _. tt };
}
