//! A store that fails once, where it is told to.

ghost use Rattle.std.specs.Prelude.{◌≡◌, ◌↔◌, ◌+◌, Some, true, false, IsTrue, IsErrOf};
ghost use Rattle.stable_records.specs.declared.fault.StoreFault.TheVariants.{Device};
ghost use Rattle.stable_records.specs.Found.{Found, FindsSame};
ghost use Rattle.stable_records.specs.Calls.{CountsFault, ReadyAfterKeep, ReadyAfterRecall, Keeps, Recalls, LeftInKeep};
ghost use Rattle.stable_records.specs.Moments.{AnyCrashLeaves};
ghost use Rattle.stable_records.specs.FailingStable.{calls_after};

use crate::fault::StoreFault;
use crate::fault_count::FaultCount;
use crate::stable::Stable;
use ballots::Record;
use std::alloc::Global;

/// A store over another one, which passes so many calls on and then fails once with [`StoreFault::Device`]: whoever
/// stands on a store can be tried with it. Where the call that fails is a keep, its record stands afterwards or not, as
/// was chosen.
#[derive(Drop)]
pub struct FailingStable<S: Stable> {
    store: S,
    /// How many calls pass before the one that fails, `None` where none is to fail.
    pub calls_left: Option<u64>,
    /// Whether the record of a keep that fails stands afterwards.
    pub keeps_last: bool,
    is_ready: bool,
    failures: FaultCount,
    ghost ready: { is_ready ≡ true → IsTrue (S.is_ready store) },
}

// Whether this is the call that fails. One call less is left before it.
fn is_due(calls_left: &mut Option<u64>) -> bool
    ensures due { IsTrue result ↔ (calls_left.old ≡ Some 0) }
    ensures left { calls_left.new ≡ calls_after calls_left.old }
{
    match *calls_left {
        None => false,
        Some(0) => {
            *calls_left = None;
            true
        }
        Some(calls) => {
            *calls_left = Some(calls - 1);
            false
        }
    }
}

impl<S: Stable> FailingStable<S> {
    /// A store over this one, of which `calls` calls pass and the next one fails. It is ready once a recall was `Ok`.
    pub fn new(store: S, calls: u64, keeps_last: bool) -> FailingStable<S>
        ensures ready { ⟦<FailingStable<S> as Stable>⟧.is_ready result ≡ false }
        ensures faults { ⟦<FailingStable<S> as Stable>⟧.faults result ≡ S.faults store }
        ensures finds { (found : Found) → ⟦<FailingStable<S> as Stable>⟧.finds result found ↔ S.finds store found }
        ensures calls { result.calls_left ≡ Some calls }
        ensures keeps { result.keeps_last ≡ keeps_last }
    {
        FailingStable {
            store,
            calls_left: Some(calls),
            keeps_last,
            is_ready: false,
            failures: FaultCount::new(),
        }
    }
}

impl<S: Stable> Stable for FailingStable<S> {
    ghost tells = { S.tells };

    ghost faults = { λ f. S.faults f.store + f.failures.count };

    ghost is_ready = { λ f. f.is_ready };

    ghost finds = { λ f. S.finds f.store };

    ghost moment = { λ f. S.moment f.store };

    ghost finds_since = { λ f. S.finds_since f.store };

    /// Beside what every store promises: the call that is to fail does, and without its record where that is not to
    /// stand.
    fn keep(&mut self, told: &Record) -> Result<(), StoreFault>
        ensures counted { CountsFault result
            (⟦<FailingStable<S> as Stable>⟧.faults self.old) (⟦<FailingStable<S> as Stable>⟧.faults self.new) }
        ensures ready { ReadyAfterKeep result
            (⟦<FailingStable<S> as Stable>⟧.is_ready self.old) (⟦<FailingStable<S> as Stable>⟧.is_ready self.new) }
        ensures kept { IsTrue S.tells → Keeps told.now result
            (⟦<FailingStable<S> as Stable>⟧.finds self.old) (⟦<FailingStable<S> as Stable>⟧.finds self.new) }
        ensures crash { IsTrue S.tells → AnyCrashLeaves ⟦<FailingStable<S> as Stable>⟧.moment
            ⟦<FailingStable<S> as Stable>⟧.finds_since self.old self.new
            (LeftInKeep told.now result (⟦<FailingStable<S> as Stable>⟧.finds self.old)) }
        ensures fails { IsTrue (⟦<FailingStable<S> as Stable>⟧.is_ready self.old) → self.old.calls_left ≡ Some 0
            → IsErrOf result Device }
        ensures passes { IsTrue (⟦<FailingStable<S> as Stable>⟧.is_ready self.old)
            → self.new.calls_left ≡ calls_after self.old.calls_left }
        ensures lost { self.old.calls_left ≡ Some 0 → self.old.keeps_last ≡ false
            → FindsSame (⟦<FailingStable<S> as Stable>⟧.finds self.old)
            (⟦<FailingStable<S> as Stable>⟧.finds self.new) }
    {
        if !self.is_ready {
            self.failures.rise();
            return Err(StoreFault::Broken);
        }
        if is_due(&mut self.calls_left) {
            self.is_ready = false;
            self.failures.rise();
            if self.keeps_last {
                let _ = self.store.keep(told);
            }
            return Err(StoreFault::Device);
        }
        let answer = self.store.keep(told);
        if answer == Err(StoreFault::Device) {
            self.is_ready = false;
        }
        answer
    }

    /// Beside what every store promises: the call that is to fail does.
    fn recall(&mut self, alloc: Global) -> Result<Vec<Record>, StoreFault>
        ensures counted { CountsFault result
            (⟦<FailingStable<S> as Stable>⟧.faults self.old) (⟦<FailingStable<S> as Stable>⟧.faults self.new) }
        ensures ready { ReadyAfterRecall result
            (⟦<FailingStable<S> as Stable>⟧.is_ready self.old) (⟦<FailingStable<S> as Stable>⟧.is_ready self.new) }
        ensures recalled { IsTrue S.tells → Recalls result
            (⟦<FailingStable<S> as Stable>⟧.finds self.old) (⟦<FailingStable<S> as Stable>⟧.finds self.new) }
        ensures crash { IsTrue S.tells → AnyCrashLeaves ⟦<FailingStable<S> as Stable>⟧.moment
            ⟦<FailingStable<S> as Stable>⟧.finds_since self.old self.new
            (⟦<FailingStable<S> as Stable>⟧.finds self.old) }
        ensures fails { self.old.calls_left ≡ Some 0 → IsErrOf result Device }
        ensures passes { self.new.calls_left ≡ calls_after self.old.calls_left }
    {
        if is_due(&mut self.calls_left) {
            self.is_ready = false;
            self.failures.rise();
            return Err(StoreFault::Device);
        }
        let answer = self.store.recall(alloc);
        match &answer {
            Ok(_) => self.is_ready = true,
            Err(StoreFault::Device) => self.is_ready = false,
            Err(_) => {}
        }
        answer
    }

    ghost ready_finds_one = { λ f told ready. S.ready_finds_one f.store told (f.ready ready) };

    ghost counts_now = { λ f. S.counts_now f.store };

    ghost only_now = { λ f. S.only_now f.store };
}
