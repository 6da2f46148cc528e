//! A store for records on a disk.

ghost use Rattle.std.specs.Prelude.{◌≡◌, ◌+◌, ◌<◌, false, List, [], ◌∷◌, ◌++◌, IsTrue, is_some, IfOk, OnOk, IsErrOf};
ghost use Rattle.std.specs.Option.{ForSome};
ghost use Rattle.ballots.specs.declared.record.Record.{Record as Held};
ghost use Rattle.stable_records.specs.declared.fault.StoreFault.TheVariants.{Device, Damaged, Broken};
ghost use Rattle.stable_records.specs.Calls.{CountsFault, ReadyAfterKeep, ReadyAfterRecall, Keeps, Recalls, LeftInKeep};
ghost use Rattle.stable_records.specs.Moments.{AnyCrashLeaves};
ghost use Rattle.disk_records.specs.RecordFile.{FileMeans};
ghost use Rattle.disk_records.specs.Reading.{MeansNothing};
ghost use Rattle.disk_records.specs.Disk.{LeavesOnly};
ghost use Rattle.disk_records.specs.Ready.{FoundIn, IsGateOf, Notes, one_is_found, found_now};

use crate::block::block_of;
use crate::disk::Disk;
use crate::disk_calls::{add_block, recover_file};
use crate::laws::files_mean_one;
use ballots::Record;
use stable_records::{FaultCount, Stable, StoreFault};
use std::alloc::Global;

/// A store whose records stand in the one file of a disk.
///
/// A keep makes four calls of the disk: the record is written behind the closed gate, with a closed gate behind it, and
/// synced; then its gate is opened, and synced. A recall syncs and reads the whole file, and writes the closed gate of
/// a file that is new.
#[derive(Drop)]
pub struct DiskStable<D: Disk> {
    disk: D,
    alloc: Global,
    /// The place of the closed gate, `None` before a recall that was `Ok` and after a failure of the disk.
    gate: Option<usize>,
    refusals: FaultCount,
    ghost known: { ForSome gate (IsGateOf D.tells (D.content disk) (D.may_leave disk)) },
}

impl<D: Disk> DiskStable<D> {
    ghost use Rattle.disk_records.specs.DiskStable.{disk_of};

    /// A store over this disk. It is ready once a recall was `Ok`. It takes a record's bytes from this allocator while
    /// it keeps the record.
    pub fn new(alloc: Global, disk: D) -> DiskStable<D>
        ensures ready { ⟦<DiskStable<D> as Stable>⟧.is_ready result ≡ false }
        ensures faults { ⟦<DiskStable<D> as Stable>⟧.faults result ≡ D.failures disk }
        ensures disk { disk_of result ≡ disk }
    {
        DiskStable {
            disk,
            alloc,
            gate: None,
            refusals: FaultCount::new(),
        }
    }

    /// The disk.
    pub fn disk(&self) -> &D
        ensures { result.now ≡ disk_of self.now }
    {
        &self.disk
    }
}

/// Notes what a fault of a recall leaves known of the closed gate.
fn note_fault(gate: &mut Option<usize>, refusals: &mut FaultCount, fault: StoreFault)
    ensures { Notes fault gate.old gate.new refusals.old.count refusals.new.count }
{
    match fault {
        StoreFault::Device => *gate = None,
        StoreFault::Damaged => refusals.rise(),
        StoreFault::Broken | StoreFault::OutOfMemory => {}
    }
}

impl<D: Disk> Stable for DiskStable<D> {
    ghost use Rattle.disk_records.specs.DiskStable.{disk_of};

    ghost tells = { D.tells };

    ghost faults = { λ s. D.failures s.disk + s.refusals.count };

    ghost is_ready = { λ s. is_some s.gate };

    ghost finds = { λ s. FoundIn (D.may_leave s.disk) };

    ghost moment = { λ s. D.moment s.disk };

    ghost finds_since = { λ s t. FoundIn (D.left_since s.disk t) };

    /// Beside what every store promises: behind `Ok` the file means the records that it meant, with this one behind them, and all of
    /// it stands. It is [`StoreFault::Device`] only where a call of the disk failed, and where it is [`StoreFault::Broken`] no call of
    /// the disk was made.
    fn keep(&mut self, told: &Record) -> Result<(), StoreFault>
        ensures counted { CountsFault result
            (⟦<DiskStable<D> as Stable>⟧.faults self.old) (⟦<DiskStable<D> as Stable>⟧.faults self.new) }
        ensures ready { ReadyAfterKeep result
            (⟦<DiskStable<D> as Stable>⟧.is_ready self.old) (⟦<DiskStable<D> as Stable>⟧.is_ready self.new) }
        ensures kept { IsTrue D.tells → Keeps told.now result
            (⟦<DiskStable<D> as Stable>⟧.finds self.old) (⟦<DiskStable<D> as Stable>⟧.finds self.new) }
        ensures crash { IsTrue D.tells → AnyCrashLeaves ⟦<DiskStable<D> as Stable>⟧.moment
            ⟦<DiskStable<D> as Stable>⟧.finds_since self.old self.new
            (LeftInKeep told.now result (⟦<DiskStable<D> as Stable>⟧.finds self.old)) }
        ensures written { IsTrue D.tells → (records : List Held) → FileMeans (D.content (disk_of self.old)) records
            → OnOk result (FileMeans (D.content (disk_of self.new)) (records ++ told.now ∷ [])
            × LeavesOnly (D.content (disk_of self.new)) (D.may_leave (disk_of self.new))) }
        ensures device { IsErrOf result Device → D.failures (disk_of self.old) < D.failures (disk_of self.new) }
        ensures broken { IsErrOf result Broken → disk_of self.new ≡ disk_of self.old }
    {
        files_mean_one();
        let Some(gate) = self.gate else {
            self.refusals.rise();
            return Err(StoreFault::Broken);
        };
        let Ok(block) = block_of(self.alloc, told) else {
            return Err(StoreFault::OutOfMemory);
        };
        match add_block(&mut self.disk, gate, &block) {
            Ok(()) => {
                self.gate = Some(gate + block.len());
                Ok(())
            }
            Err(_) => {
                self.gate = None;
                Err(StoreFault::Device)
            }
        }
    }

    /// Beside what every store promises: the records are those that the file's bytes mean. It is [`StoreFault::Device`] only where a
    /// call of the disk failed, and [`StoreFault::Damaged`] only where the file's bytes mean no records. It takes as much memory as the file has
    /// bytes, and what its records take.
    fn recall(&mut self, alloc: Global) -> Result<Vec<Record>, StoreFault>
        ensures counted { CountsFault result
            (⟦<DiskStable<D> as Stable>⟧.faults self.old) (⟦<DiskStable<D> as Stable>⟧.faults self.new) }
        ensures ready { ReadyAfterRecall result
            (⟦<DiskStable<D> as Stable>⟧.is_ready self.old) (⟦<DiskStable<D> as Stable>⟧.is_ready self.new) }
        ensures recalled { IsTrue D.tells → Recalls result
            (⟦<DiskStable<D> as Stable>⟧.finds self.old) (⟦<DiskStable<D> as Stable>⟧.finds self.new) }
        ensures crash { IsTrue D.tells → AnyCrashLeaves ⟦<DiskStable<D> as Stable>⟧.moment
            ⟦<DiskStable<D> as Stable>⟧.finds_since self.old self.new
            (⟦<DiskStable<D> as Stable>⟧.finds self.old) }
        ensures read { IsTrue D.tells → IfOk result (λ records. FileMeans (D.content (disk_of self.old)) records.items) }
        ensures device { IsErrOf result Device → D.failures (disk_of self.old) < D.failures (disk_of self.new) }
        ensures damaged { IsTrue D.tells → IsErrOf result Damaged
            → MeansNothing (FileMeans (D.content (disk_of self.old))) }
    {
        files_mean_one();
        match recover_file(alloc, &mut self.disk) {
            Ok(read) => {
                self.gate = Some(read.gate);
                Ok(read.records)
            }
            Err(fault) => {
                note_fault(&mut self.gate, &mut self.refusals, fault);
                Err(fault)
            }
        }
    }

    ghost ready_finds_one = { λ s told. one_is_found D.tells (D.content s.disk) (D.may_leave s.disk) s.gate s.known
        (D.content_may_stay s.disk told) told };

    ghost counts_now = { λ s t found le. found_now (D.may_leave s.disk) (D.left_since s.disk t) found
        (λ file. D.counts_now s.disk t file le) };

    ghost only_now = { λ s found. found_now (D.left_since s.disk (D.moment s.disk)) (D.may_leave s.disk) found
        (D.only_now s.disk) };
}
