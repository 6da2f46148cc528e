//! A disk in memory, which can fail and crash.

ghost use Rattle.std.specs.Prelude.{◌≡◌, ◌↔◌, ◌+◌, ◌^◌, ◌<◌, ◌≤◌, [], ◌∷◌, ◌++◌, true, length, Some, None};
ghost use Rattle.std.specs.Prelude.{IsTrue, IfOk, IsErr, OnOk, OnErr};
ghost use Rattle.stable_records.specs.FailingStable.{calls_after};
ghost use Rattle.disk_records.specs.Disk.{CountsFailure, StandsAt, written_at, LeavesOnly, MayBeTorn, CrashLeaves};
ghost use Rattle.disk_records.specs.MemoryDisk.{laid_at, content_after, picked, crashed, left_of};
ghost use Rattle.disk_records.specs.MemoryDisk.{IsWriteOf, IsCrashed, WasCrashed};
ghost use Rattle.disk_records.specs.declared.memory_disk.Call.TheVariants.{Sync};
ghost use Rattle.disk_records.specs.MemoryDiskLaws.{content_left, crashed_now, only_crashed_now};

use crate::disk::{Disk, DiskFailed};
use stable_records::FaultCount;
use std::alloc::{AllocError, Global};

/// The byte that stands where nothing was written yet, and where a crash left a write in disorder.
const DISORDER: u8 = 0xff;

/// The bytes that a file stays below.
const LIMIT: usize = 1 << 63;

/// What a crash leaves of each write that is not synced.
#[derive(Clone, Copy, Debug, PartialEq, Eq)]
pub enum Pick {
    /// All its bytes.
    Written,
    /// What was there before.
    Unwritten,
    /// As many bytes ff.
    Filled,
}

/// A call that changed the disk.
#[derive(Drop)]
enum Call {
    /// These bytes were written at this place.
    Write(usize, Vec<u8>),
    /// All writes before it stand.
    Sync,
}

/// A disk in memory, for trials. It passes so many calls and then fails once, where it is told to: a write that fails
/// is done, and any other call that fails does nothing. It keeps each call that changed it, and works out from those
/// what a read finds and what a crash leaves, so a long run on it is slow.
#[derive(Drop)]
pub struct MemoryDisk {
    alloc: Global,
    first: Vec<u8>,
    calls: Vec<Call>,
    /// How many calls pass before the one that fails, `None` where none is to fail.
    pub calls_left: Option<u64>,
    failures: FaultCount,
}

impl MemoryDisk {
    /// A disk whose file has these bytes, all of which stand. None of its calls is to fail.
    pub fn new(alloc: Global, bytes: Vec<u8>) -> MemoryDisk
        ensures content { ⟦<MemoryDisk as Disk>⟧.content result ≡ bytes.items }
        ensures calls { result.calls_left ≡ None }
    {
        MemoryDisk {
            alloc,
            first: bytes,
            calls: Vec::new(alloc),
            calls_left: None,
            failures: FaultCount::new(),
        }
    }

    /// The file's bytes.
    pub fn bytes(&self) -> Result<Vec<u8>, AllocError>
        ensures { IfOk result (λ bytes. bytes.items ≡ ⟦<MemoryDisk as Disk>⟧.content self.now) }
    {
        left_by(self.alloc, Pick::Written, &self.first, &self.calls)
    }

    /// The bytes that a crash leaves now, where it leaves of each write that is not synced what is picked.
    pub fn crashed(&self, pick: Pick) -> Result<Vec<u8>, AllocError>
        ensures these { IfOk result (λ bytes. bytes.items ≡ left_of pick self.now) }
        ensures left { IfOk result (λ bytes. ⟦<MemoryDisk as Disk>⟧.may_leave self.now bytes.items) }
    {
        left_by(self.alloc, pick, &self.first, &self.calls)
    }
}

/// Works out what a crash leaves behind these calls.
fn left_by(alloc: Global, pick: Pick, first: &[u8], calls: &[Call]) -> Result<Vec<u8>, AllocError>
    ensures { IfOk result (λ left. left.items ≡ crashed pick first.now first.now calls.now) }
{
    let mut content = first.to_vec(alloc)?;
    let mut left = first.to_vec(alloc)?;
    for call in calls {
        match call {
            Call::Write(at, bytes) => {
                content = laid(alloc, &content, *at, bytes)?;
                left = pick_laid(alloc, pick, &left, *at, bytes)?;
            }
            Call::Sync => left = content.to_vec(alloc)?,
        }
    }
    Ok(left)
}

/// The file with what is picked of a write.
fn pick_laid(
    alloc: Global,
    pick: Pick,
    file: &[u8],
    at: usize,
    bytes: &[u8],
) -> Result<Vec<u8>, AllocError>
    ensures { IfOk result (λ left. left.items ≡ picked pick file.now at bytes.now) }
{
    match pick {
        Pick::Written => laid(alloc, file, at, bytes),
        Pick::Unwritten => file.to_vec(alloc),
        Pick::Filled => {
            let disorder = Vec::from_elem(alloc, DISORDER, bytes.len())?;
            laid(alloc, file, at, &disorder)
        }
    }
}

/// The file with these bytes at this place, and bytes ff between where it is shorter.
fn laid(alloc: Global, file: &[u8], at: usize, bytes: &[u8]) -> Result<Vec<u8>, AllocError>
    ensures { IfOk result (λ left. left.items ≡ laid_at file.now at bytes.now) }
{
    let kept = at.min(file.len());
    let mut left = file[..kept].to_vec(alloc)?;
    left.resize(at, DISORDER)?;
    left.extend_from_slice(bytes)?;
    if bytes.len() < file.len() - kept {
        left.extend_from_slice(&file[kept + bytes.len()..])?;
    }
    Ok(left)
}

/// Whether this is the call that fails. One call less is left before it.
fn is_due(calls_left: &mut Option<u64>) -> bool
    ensures due { IsTrue result ↔ (calls_left.old ≡ Some 0) }
    ensures left { calls_left.new ≡ calls_after calls_left.old }
{
    match *calls_left {
        None => false,
        Some(0) => {
            *calls_left = None;
            true
        }
        Some(calls) => {
            *calls_left = Some(calls - 1);
            false
        }
    }
}

/// Counts a failure where the call was due to fail, or memory was refused.
fn ended<T: Drop>(
    failures: &mut FaultCount,
    is_due: bool,
    done: Result<T, AllocError>,
) -> Result<T, DiskFailed>
    ensures counted { CountsFailure result failures.old.count failures.new.count }
    ensures ok { IfOk result (λ given. done ≡ Ok given) }
    ensures due { IsTrue is_due → IsErr result }
{
    match done {
        Ok(given) if !is_due => Ok(given),
        _ => {
            failures.rise();
            Err(DiskFailed)
        }
    }
}

/// Puts a copy of the write behind the other calls.
fn push_write(
    alloc: Global,
    calls: &mut Vec<Call>,
    at: usize,
    bytes: &[u8],
) -> Result<(), AllocError>
    ensures ok { OnOk result (IsWriteOf calls.old.items calls.new.items at bytes.now) }
    ensures err { OnErr result (calls.new.items ≡ calls.old.items) }
{
    calls.push(Call::Write(at, bytes.to_vec(alloc)?))?;
    Ok(())
}

/// Puts a sync behind the other calls.
fn push_sync(calls: &mut Vec<Call>) -> Result<(), AllocError>
    ensures ok { OnOk result (calls.new.items ≡ calls.old.items ++ Sync ∷ []) }
    ensures err { OnErr result (calls.new.items ≡ calls.old.items) }
{
    calls.push(Call::Sync)?;
    Ok(())
}

/// Copies the bytes at a place.
fn copy_part(file: &[u8], at: usize, into: &mut [u8])
    requires { at + length into.old ≤ length file.now }
    ensures { StandsAt file.now at into.new }
{
    let part = &file[at..at + into.len()];
    into.copy_from_slice(part);
}

impl Disk for MemoryDisk {
    ghost tells = { true };

    ghost failures = { λ d. d.failures.count };

    ghost content = { λ d. content_after d.first.items d.calls.items };

    ghost may_leave = { λ d. IsCrashed d.first.items d.calls.items };

    ghost moment = { λ d. length d.calls.items };

    ghost left_since = { λ d. WasCrashed d.first.items d.calls.items };

    /// It fails too where memory is refused.
    fn len(&mut self) -> Result<usize, DiskFailed>
        ensures counted { CountsFailure result
            (⟦<MemoryDisk as Disk>⟧.failures self.old) (⟦<MemoryDisk as Disk>⟧.failures self.new) }
        ensures len { IfOk result (λ len. len ≡ length (⟦<MemoryDisk as Disk>⟧.content self.old)) }
        ensures same { OnOk result (⟦<MemoryDisk as Disk>⟧.content self.new ≡ ⟦<MemoryDisk as Disk>⟧.content self.old) }
        ensures crash { CrashLeaves (⟦<MemoryDisk as Disk>⟧.moment self.old) (⟦<MemoryDisk as Disk>⟧.moment self.new)
            (⟦<MemoryDisk as Disk>⟧.left_since self.old) (⟦<MemoryDisk as Disk>⟧.left_since self.new)
            (⟦<MemoryDisk as Disk>⟧.may_leave self.old) }
        ensures fails { self.old.calls_left ≡ Some 0 → IsErr result }
        ensures passes { self.new.calls_left ≡ calls_after self.old.calls_left }
    {
        let is_due = is_due(&mut self.calls_left);
        let file = self.bytes();
        match ended(&mut self.failures, is_due, file) {
            Ok(file) => Ok(file.len()),
            Err(failed) => Err(failed),
        }
    }

    /// It fails too where memory is refused.
    fn read_at(&mut self, at: usize, into: &mut [u8]) -> Result<(), DiskFailed>
        requires { at + length into.old ≤ length (⟦<MemoryDisk as Disk>⟧.content self.old) }
        ensures counted { CountsFailure result
            (⟦<MemoryDisk as Disk>⟧.failures self.old) (⟦<MemoryDisk as Disk>⟧.failures self.new) }
        ensures read { OnOk result (StandsAt (⟦<MemoryDisk as Disk>⟧.content self.old) at into.new) }
        ensures same { OnOk result (⟦<MemoryDisk as Disk>⟧.content self.new ≡ ⟦<MemoryDisk as Disk>⟧.content self.old) }
        ensures crash { CrashLeaves (⟦<MemoryDisk as Disk>⟧.moment self.old) (⟦<MemoryDisk as Disk>⟧.moment self.new)
            (⟦<MemoryDisk as Disk>⟧.left_since self.old) (⟦<MemoryDisk as Disk>⟧.left_since self.new)
            (⟦<MemoryDisk as Disk>⟧.may_leave self.old) }
        ensures fails { self.old.calls_left ≡ Some 0 → IsErr result }
        ensures passes { self.new.calls_left ≡ calls_after self.old.calls_left }
    {
        let is_due = is_due(&mut self.calls_left);
        let file = self.bytes();
        match ended(&mut self.failures, is_due, file) {
            Ok(file) => {
                copy_part(&file, at, into);
                Ok(())
            }
            Err(failed) => Err(failed),
        }
    }

    /// It fails too where memory is refused, and then is not done.
    fn write_at(&mut self, at: usize, bytes: &[u8]) -> Result<(), DiskFailed>
        requires { at ≤ length (⟦<MemoryDisk as Disk>⟧.content self.old) }
        ensures counted { CountsFailure result
            (⟦<MemoryDisk as Disk>⟧.failures self.old) (⟦<MemoryDisk as Disk>⟧.failures self.new) }
        ensures limit { OnOk result (at + length bytes.now < 2 ^ 63) }
        ensures written { OnOk result (⟦<MemoryDisk as Disk>⟧.content self.new
            ≡ written_at (⟦<MemoryDisk as Disk>⟧.content self.old) at bytes.now) }
        ensures crash { CrashLeaves (⟦<MemoryDisk as Disk>⟧.moment self.old) (⟦<MemoryDisk as Disk>⟧.moment self.new)
            (⟦<MemoryDisk as Disk>⟧.left_since self.old) (⟦<MemoryDisk as Disk>⟧.left_since self.new)
            (MayBeTorn at (length bytes.now) (⟦<MemoryDisk as Disk>⟧.may_leave self.old)) }
        ensures fails { self.old.calls_left ≡ Some 0 → IsErr result }
        ensures passes { self.new.calls_left ≡ calls_after self.old.calls_left }
    {
        let is_due = is_due(&mut self.calls_left);
        if at >= LIMIT || bytes.len() >= LIMIT - at {
            self.failures.rise();
            return Err(DiskFailed);
        }
        let done = push_write(self.alloc, &mut self.calls, at, bytes);
        ended(&mut self.failures, is_due, done)
    }

    /// It fails too where memory is refused.
    fn sync(&mut self) -> Result<(), DiskFailed>
        ensures counted { CountsFailure result
            (⟦<MemoryDisk as Disk>⟧.failures self.old) (⟦<MemoryDisk as Disk>⟧.failures self.new) }
        ensures stands { OnOk result (LeavesOnly (⟦<MemoryDisk as Disk>⟧.content self.old)
            (⟦<MemoryDisk as Disk>⟧.may_leave self.new)) }
        ensures same { OnOk result (⟦<MemoryDisk as Disk>⟧.content self.new ≡ ⟦<MemoryDisk as Disk>⟧.content self.old) }
        ensures crash { CrashLeaves (⟦<MemoryDisk as Disk>⟧.moment self.old) (⟦<MemoryDisk as Disk>⟧.moment self.new)
            (⟦<MemoryDisk as Disk>⟧.left_since self.old) (⟦<MemoryDisk as Disk>⟧.left_since self.new)
            (⟦<MemoryDisk as Disk>⟧.may_leave self.old) }
        ensures fails { self.old.calls_left ≡ Some 0 → IsErr result }
        ensures passes { self.new.calls_left ≡ calls_after self.old.calls_left }
    {
        if is_due(&mut self.calls_left) {
            self.failures.rise();
            return Err(DiskFailed);
        }
        let done = push_sync(&mut self.calls);
        ended(&mut self.failures, false, done)
    }

    ghost content_may_stay = { λ d told. content_left d.first.items d.calls.items };

    ghost counts_now = { λ d. crashed_now d.first.items d.calls.items };

    ghost only_now = { λ d. only_crashed_now d.first.items d.calls.items };
}
