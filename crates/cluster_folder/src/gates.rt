//! The gates of a file of records, from the first on.

ghost use Rattle.std.specs.Prelude.{◌≡◌, ℕ, ◌+◌, ◌-◌, ◌≤◌, List, length, take, drop, IsTrue, IfOk, OnOk};
ghost use Rattle.disk_records.specs.Disk.{CountsFailure};
ghost use Rattle.cluster_folder.specs.Gates.{GoesOn, IsBetween, IsClosedGate};

use disk_records::{Disk, DiskFailed};

/// How many bytes a gate has with the length of the record behind it.
const HEAD_BYTES: usize = 5;

/// The byte of an open gate.
const OPEN: u8 = 1;

/// The place of the closed gate of a file of so many bytes, or of the last gate that is found where none is closed.
pub(crate) fn closed_gate<D: Disk>(disk: &mut D, size: u64) -> Result<u64, DiskFailed>
    requires { IsTrue D.tells → size ≡ length (D.content disk.old) }
    ensures counted { CountsFailure result (D.failures disk.old) (D.failures disk.new) }
    ensures same { IsTrue D.tells → OnOk result (D.content disk.new ≡ D.content disk.old) }
    ensures within { IfOk result (λ place. place ≤ size - 1) }
    ensures closed { IsTrue D.tells → (gate : ℕ) → IsClosedGate (D.content disk.old) gate
        → IfOk result (λ place. place ≡ gate) }
{
    let mut gate = 0;
    while let Some(next) = next_gate(disk, size, gate)? {
        gate = next;
    }
    Ok(gate)
}

// The place of the gate behind the one at this place, `None` where this one is closed, or no record stands behind it in a file of
// so many bytes, with a gate behind.
fn next_gate<D: Disk>(disk: &mut D, size: u64, gate: u64) -> Result<Option<u64>, DiskFailed>
    requires { IsTrue D.tells → size ≡ length (D.content disk.old) }
    ensures counted { CountsFailure result (D.failures disk.old) (D.failures disk.new) }
    ensures same { IsTrue D.tells → OnOk result (D.content disk.new ≡ D.content disk.old) }
    ensures within { IfOk result (IsBetween gate size) }
    ensures goes_on { IsTrue D.tells → IfOk result (GoesOn (D.content disk.old) gate) }
{
    let head_bytes = HEAD_BYTES as u64;
    if size < head_bytes || size - head_bytes < gate {
        return Ok(None);
    }
    let head = head_at(disk, gate)?;
    Ok(gate_behind(head, size, gate))
}

// The byte of the gate at this place, and the four bytes behind it.
fn head_at<D: Disk>(disk: &mut D, gate: u64) -> Result<[u8; HEAD_BYTES], DiskFailed>
    requires { IsTrue D.tells → gate + 5 ≤ length (D.content disk.old) }
    ensures counted { CountsFailure result (D.failures disk.old) (D.failures disk.new) }
    ensures same { IsTrue D.tells → OnOk result (D.content disk.new ≡ D.content disk.old) }
    ensures read { IsTrue D.tells → IfOk result (λ head. head ≡ take 5 (drop gate (D.content disk.old))) }
{
    let mut head = [0; HEAD_BYTES];
    disk.read_at(gate as usize, &mut head)?;
    Ok(head)
}

// The place of the gate behind the one at this place, where these bytes stand: behind an open gate stands the length of a record
// in four bytes, the lowest first, and the record.
fn gate_behind(head: [u8; HEAD_BYTES], size: u64, gate: u64) -> Option<u64>
    ensures within { IsBetween gate size result }
    ensures goes_on { (file : List ℕ) → length file ≡ size → head ≡ take 5 (drop gate file) → GoesOn file gate result }
{
    let [byte, a, b, c, d] = head;
    if byte != OPEN {
        return None;
    }
    let length = u64::from(u32::from_le_bytes([a, b, c, d]));
    match gate.checked_add(HEAD_BYTES as u64 + length) {
        Some(next) if next < size => Some(next),
        _ => None,
    }
}
