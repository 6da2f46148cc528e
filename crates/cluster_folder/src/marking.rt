//! The marks of the nodes' files of records, each read from its disk.

ghost use Rattle.std.specs.Prelude.{◌≡◌, ◌↔◌, ℕ, ◌+◌, ◌≤◌, [], length, take, drop, IsTrue, IfOk, OnOk};
ghost use Rattle.cluster_identity.specs.Marks.{mark_of};
ghost use Rattle.cluster_folder.specs.Gates.{IsClosedGate};
ghost use Rattle.cluster_folder.specs.Marking.{CheckCounts, CheckGives, Counts, IsMarkOfRecords, MarkCounts, fault_of};

use crate::fault::FolderFault;
use crate::gates::closed_gate;
use cluster_identity::{FileMark, digested_parts, mark_of};
use disk_records::{Disk, DiskFailed};
use std::alloc::{AllocError, Global};

/// Why a file is not marked.
#[derive(Clone, Copy)]
pub(crate) enum MarkFault {
    /// It could not be read.
    Device,
    /// Memory was refused.
    OutOfMemory,
}

impl From<DiskFailed> for MarkFault {
    ghost use Rattle.std.specs.Prelude.{◌≡◌};
    ghost use Rattle.cluster_folder.specs.declared.marking.MarkFault.TheVariants.{Device};

    ghost from_gives = { λ _ fault. fault ≡ Device };

    fn from(_: DiskFailed) -> MarkFault {
        MarkFault::Device
    }
}

impl From<AllocError> for MarkFault {
    ghost use Rattle.std.specs.Prelude.{◌≡◌};
    ghost use Rattle.cluster_folder.specs.declared.marking.MarkFault.TheVariants.{OutOfMemory};

    ghost from_gives = { λ _ fault. fault ≡ OutOfMemory };

    fn from(_: AllocError) -> MarkFault {
        MarkFault::OutOfMemory
    }
}

/// The mark of the records in a node's file: of the bytes before its closed gate, which no later record changes. What stands
/// behind that gate is no part of it, and a file of at most a byte, which is new, has the mark of no bytes. Which mark a longer file
/// has whose closed gate is missing is not said.
///
/// [`FolderFault::Device`] says that a call of the disk failed, and [`FolderFault::OutOfMemory`] that memory was refused; there is
/// no other fault.
pub fn mark_of_file<D: Disk>(alloc: Global, node: u8, disk: &mut D) -> Result<FileMark, FolderFault>
    ensures counted { MarkCounts node result (D.failures disk.old) (D.failures disk.new) }
    ensures same { IsTrue D.tells → OnOk result (D.content disk.new ≡ D.content disk.old) }
    ensures marked { IsTrue D.tells → (gate : ℕ) → IsClosedGate (D.content disk.old) gate
        → IfOk result (λ mark. mark ≡ mark_of (take gate (D.content disk.old))) }
    ensures fresh { IsTrue D.tells → length (D.content disk.old) ≤ 1 → IfOk result (λ mark. mark ≡ mark_of []) }
{
    match records_mark(alloc, disk) {
        Ok(mark) => Ok(mark),
        Err(fault) => Err(fault_of(node, fault)),
    }
}

/// Whether a node's file begins as its mark has it: [`FolderFault::Truncated`] where it has fewer bytes than were marked, and
/// [`FolderFault::Foreign`] where the first of them, as many, have another mark.
///
/// [`FolderFault::Device`] says that a call of the disk failed, and [`FolderFault::OutOfMemory`] that memory was refused.
pub fn check_mark<D: Disk>(
    alloc: Global,
    node: u8,
    disk: &mut D,
    mark: FileMark,
) -> Result<(), FolderFault>
    ensures counted { CheckCounts node result (D.failures disk.old) (D.failures disk.new) }
    ensures same { IsTrue D.tells → OnOk result (D.content disk.new ≡ D.content disk.old) }
    ensures checked { IsTrue D.tells → CheckGives node (D.content disk.old) mark result }
{
    let Ok(size) = disk.len() else {
        return Err(FolderFault::Device(node));
    };
    if !mark.is_reached_by(size as u64) {
        return Err(FolderFault::Truncated(node));
    }
    match front_mark(alloc, disk, mark.length) {
        Ok(found) if is_same(found, mark) => Ok(()),
        Ok(_) => Err(FolderFault::Foreign(node)),
        Err(fault) => Err(fault_of(node, fault)),
    }
}

// Whether two marks are one.
fn is_same(one: FileMark, other: FileMark) -> bool
    ensures { IsTrue result ↔ (one ≡ other) }
{
    one == other
}

// The fault of a node whose file is not marked.
fn fault_of(node: u8, fault: MarkFault) -> FolderFault
    ensures { result ≡ fault_of node fault }
{
    match fault {
        MarkFault::Device => FolderFault::Device(node),
        MarkFault::OutOfMemory => FolderFault::OutOfMemory,
    }
}

// The mark of the records in a file.
fn records_mark<D: Disk>(alloc: Global, disk: &mut D) -> Result<FileMark, MarkFault>
    ensures counted { Counts result (D.failures disk.old) (D.failures disk.new) }
    ensures same { IsTrue D.tells → OnOk result (D.content disk.new ≡ D.content disk.old) }
    ensures marked { IsTrue D.tells → IfOk result (IsMarkOfRecords (D.content disk.old)) }
{
    let size = disk.len()? as u64;
    let gate = closed_gate(disk, size)?;
    front_mark(alloc, disk, gate)
}

// The mark of so many bytes at the beginning of a file.
fn front_mark<D: Disk>(alloc: Global, disk: &mut D, size: u64) -> Result<FileMark, MarkFault>
    requires { IsTrue D.tells → size ≤ length (D.content disk.old) }
    ensures counted { Counts result (D.failures disk.old) (D.failures disk.new) }
    ensures same { IsTrue D.tells → OnOk result (D.content disk.new ≡ D.content disk.old) }
    ensures marked { IsTrue D.tells → IfOk result (λ mark. mark ≡ mark_of (take size (D.content disk.old))) }
{
    let parts = digested_parts(size);
    let first = bytes_at(alloc, disk, 0, parts.count)?;
    let last = bytes_at(alloc, disk, parts.last_from, parts.count)?;
    Ok(mark_of(size, first.as_slice(), last.as_slice()))
}

// So many bytes of a file from this place on.
fn bytes_at<D: Disk>(alloc: Global, disk: &mut D, at: u64, count: u64) -> Result<Vec<u8>, MarkFault>
    requires { IsTrue D.tells → at + count ≤ length (D.content disk.old) }
    ensures counted { Counts result (D.failures disk.old) (D.failures disk.new) }
    ensures same { IsTrue D.tells → OnOk result (D.content disk.new ≡ D.content disk.old) }
    ensures read { IsTrue D.tells
        → IfOk result (λ bytes. bytes.items ≡ take count (drop at (D.content disk.old))) }
{
    let mut bytes = Vec::from_elem(alloc, 0, count as usize)?;
    disk.read_at(at as usize, bytes.as_mut_slice())?;
    Ok(bytes)
}
