//! The runs of calls that a store on a disk makes.

ghost use Rattle.std.specs.Prelude.{◌+◌, ◌^◌, ◌<◌, ◌≤◌, [], ◌∷◌, IsTrue, length, OnOk, IfOk};
ghost use Rattle.disk_records.specs.RecordFile.{with_block};
ghost use Rattle.disk_records.specs.Disk.{CountsFailure, written_at, IsTorn, LeavesOnly, CrashLeaves};
ghost use Rattle.disk_records.specs.DiskCalls.{CountsDevice, IsSettled, IsAddedOrNot, ReadsBytes, Recovers};
ghost use Rattle.disk_records.specs.DiskCalls.{GivesAsBefore};

use crate::block::{CLOSED, OPEN};
use crate::disk::{Disk, DiskFailed};
use crate::laws::files_mean_one;
use crate::reading::{FileRecords, NEW_FILE_BYTES, read_records};
use stable_records::StoreFault;
use std::alloc::Global;

/// Syncs the file and reads all its bytes, in one buffer of its length.
fn synced_bytes<D: Disk>(alloc: Global, disk: &mut D) -> Result<Vec<u8>, StoreFault>
    ensures counted { CountsDevice result (D.failures disk.old) (D.failures disk.new) }
    ensures read { IsTrue D.tells → ReadsBytes result
        (D.content disk.old) (D.content disk.new) (D.may_leave disk.new) }
    ensures crash { IsTrue D.tells → CrashLeaves (D.moment disk.old) (D.moment disk.new)
        (D.left_since disk.old) (D.left_since disk.new) (D.may_leave disk.old) }
{
    disk.sync()?;
    let len = disk.len()?;
    let mut bytes = Vec::from_elem(alloc, 0, len)?;
    disk.read_at(0, bytes.as_mut_slice())?;
    Ok(bytes)
}

/// Writes these bytes at this place, and makes them stand.
fn write_synced<D: Disk>(disk: &mut D, at: usize, bytes: &[u8]) -> Result<(), DiskFailed>
    requires within { IsTrue D.tells → at ≤ length (D.content disk.old) }
    requires stands { IsTrue D.tells → LeavesOnly (D.content disk.old) (D.may_leave disk.old) }
    ensures counted { CountsFailure result (D.failures disk.old) (D.failures disk.new) }
    ensures limit { OnOk result (at + length bytes.now < 2 ^ 63) }
    ensures written { IsTrue D.tells → OnOk result (IsSettled (D.content disk.new) (D.may_leave disk.new)
        (written_at (D.content disk.old) at bytes.now)) }
    ensures crash { IsTrue D.tells → CrashLeaves (D.moment disk.old) (D.moment disk.new)
        (D.left_since disk.old) (D.left_since disk.new) (IsTorn at (length bytes.now) (D.content disk.old)) }
{
    disk.write_at(at, bytes)?;
    disk.sync()
}

/// Writes the closed gate of a file that is new.
fn begin_file<D: Disk>(disk: &mut D) -> Result<(), DiskFailed>
    requires fresh { IsTrue D.tells → length (D.content disk.old) ≤ 1 }
    requires stands { IsTrue D.tells → LeavesOnly (D.content disk.old) (D.may_leave disk.old) }
    ensures counted { CountsFailure result (D.failures disk.old) (D.failures disk.new) }
    ensures begun { IsTrue D.tells → OnOk result (IsSettled (D.content disk.new) (D.may_leave disk.new) (0 ∷ [])) }
    ensures crash { IsTrue D.tells → CrashLeaves (D.moment disk.old) (D.moment disk.new)
        (D.left_since disk.old) (D.left_since disk.new) (λ file. length file ≤ 1) }
{
    write_synced(disk, 0, &[CLOSED])
}

/// Syncs and reads a file. One that is new has its closed gate written.
pub(crate) fn recover_file<D: Disk>(alloc: Global, disk: &mut D) -> Result<FileRecords, StoreFault>
    ensures counted { CountsDevice result (D.failures disk.old) (D.failures disk.new) }
    ensures limit { IfOk result (λ read. read.gate < 2 ^ 63) }
    ensures read { IsTrue D.tells → Recovers result (D.content disk.old) (D.content disk.new) (D.may_leave disk.new) }
    ensures crash { IsTrue D.tells → CrashLeaves (D.moment disk.old) (D.moment disk.new)
        (D.left_since disk.old) (D.left_since disk.new) (GivesAsBefore (D.may_leave disk.old)) }
{
    files_mean_one();
    let bytes = synced_bytes(alloc, disk)?;
    let read = read_records(alloc, &bytes)?;
    if bytes.len() > NEW_FILE_BYTES {
        return Ok(read);
    }
    begin_file(disk)?;
    Ok(read)
}

/// Writes a block behind the closed gate at this place, makes it stand, and then opens the gate: a gate is open only
/// where the block behind it stands whole.
pub(crate) fn add_block<D: Disk>(disk: &mut D, gate: usize, block: &[u8]) -> Result<(), DiskFailed>
    requires place { gate < 2 ^ 63 }
    requires within { IsTrue D.tells → gate + 1 ≤ length (D.content disk.old) }
    requires stands { IsTrue D.tells → LeavesOnly (D.content disk.old) (D.may_leave disk.old) }
    ensures counted { CountsFailure result (D.failures disk.old) (D.failures disk.new) }
    ensures limit { OnOk result (gate + 1 + length block.now < 2 ^ 63) }
    ensures added { IsTrue D.tells → OnOk result (IsSettled (D.content disk.new) (D.may_leave disk.new)
        (with_block (D.content disk.old) gate 1 block.now)) }
    ensures crash { IsTrue D.tells → CrashLeaves (D.moment disk.old) (D.moment disk.new)
        (D.left_since disk.old) (D.left_since disk.new) (IsAddedOrNot (D.content disk.old) gate block.now) }
{
    write_synced(disk, gate + 1, block)?;
    write_synced(disk, gate, &[OPEN])
}
