//! A store for a node's records, and what its calls promise.

ghost use Rattle.std.specs.Prelude.{ℕ, ◌≤◌, Bool, IsTrue, List};
ghost use Rattle.ballots.specs.declared.record.Record.{Record};
ghost use Rattle.stable_records.specs.Found.{Found, FindsOnly};
ghost use Rattle.stable_records.specs.Calls.{CountsFault, ReadyAfterKeep, ReadyAfterRecall, Keeps, Recalls, LeftInKeep};
ghost use Rattle.stable_records.specs.Moments.{AnyCrashLeaves};

use crate::fault::StoreFault;
use ballots::Record;
use std::alloc::Global;

/// Stable storage for the records of a node (Lamport, *Paxos Made Simple*, section 2.5): a node keeps its record before
/// it answers, and recalls its records when it starts again.
pub trait Stable {
    /// Whether the store tells of its content. Of one that does not, as one over a real file, no more is claimed than
    /// its count of faults and whether it is ready.
    ghost tells: { Bool };

    /// The count of its faults, without bound: each fault but want of memory raises it, and nothing else does.
    ghost faults: { Self → ℕ };

    /// Whether a recall was `Ok`, with no answer since then that was [`StoreFault::Device`].
    ghost is_ready: { Self → Bool };

    /// What a recall may find, now or after a crash at this moment.
    ghost finds: { Self → Found → Type 0 };

    /// The moment, as a number that does not fall.
    ghost moment: { Self → ℕ };

    /// What a recall might have found after a crash at some moment from that one on, in the midst of a call or between
    /// two.
    ghost finds_since: { Self → ℕ → Found → Type 0 };

    /// Keeps a record behind those that it has. `Ok` is told only when the record stands for good.
    ///
    /// It is [`StoreFault::Broken`] exactly where the store is not ready, and then nothing changes, as with
    /// [`StoreFault::OutOfMemory`]. After [`StoreFault::Device`] the record stands or not, and the store is not
    /// ready. It is never [`StoreFault::Damaged`]. A crash at any moment of the call leaves the records with this one
    /// or without.
    fn keep(&mut self, told: &Record) -> Result<(), StoreFault>
        ensures counted { CountsFault result (faults self.old) (faults self.new) }
        ensures ready { ReadyAfterKeep result (is_ready self.old) (is_ready self.new) }
        ensures kept { IsTrue tells → Keeps told.now result (finds self.old) (finds self.new) }
        ensures crash { IsTrue tells → AnyCrashLeaves moment finds_since self.old self.new
            (LeftInKeep told.now result (finds self.old)) };

    /// All records, the first that was kept first. From then on these alone are found, and the store is ready.
    ///
    /// It is [`StoreFault::Damaged`] only where what stands there may mean no records, and never
    /// [`StoreFault::Broken`]. After [`StoreFault::Device`] the store is not ready; the other faults leave it as ready
    /// as it was. A crash at any moment of the call leaves what could be found before it.
    fn recall(&mut self, alloc: Global) -> Result<Vec<Record>, StoreFault>
        ensures counted { CountsFault result (faults self.old) (faults self.new) }
        ensures ready { ReadyAfterRecall result (is_ready self.old) (is_ready self.new) }
        ensures recalled { IsTrue tells → Recalls result (finds self.old) (finds self.new) }
        ensures crash { IsTrue tells → AnyCrashLeaves moment finds_since self.old self.new (finds self.old) };

    /// Of a store that is ready one list of records is found.
    ghost ready_finds_one: { (store : Self) → IsTrue tells → IsTrue (is_ready store)
        → (records : List Record) × FindsOnly (finds store) records };

    /// A crash at this moment is one since an earlier moment.
    ghost counts_now: { (store : Self) (t : ℕ) (found : Found) → t ≤ moment store → finds store found
        → finds_since store t found };

    /// Since this moment there is no other.
    ghost only_now: { (store : Self) (found : Found) → finds_since store (moment store) found → finds store found };
}
