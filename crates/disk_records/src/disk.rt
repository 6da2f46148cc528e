//! A disk that holds one file, and what its calls promise.

ghost use Rattle.std.specs.Prelude.{◌≡◌, ℕ, ◌+◌, ◌^◌, ◌<◌, ◌≤◌, Bool, IsTrue, List, length, IfOk, OnOk};
ghost use Rattle.disk_records.specs.Disk.{CountsFailure, StandsAt, written_at, LeavesOnly, MayBeTorn, CrashLeaves};

use stable_records::StoreFault;
use thiserror::Error;

/// A call of a disk failed. It may have done any part of its work.
#[derive(Clone, Copy, Debug, PartialEq, Eq, Error)]
#[error("DiskFailed")]
pub struct DiskFailed;

impl From<DiskFailed> for StoreFault {
    ghost use Rattle.std.specs.Prelude.{◌≡◌};
    ghost use Rattle.stable_records.specs.declared.fault.StoreFault.TheVariants.{Device};

    ghost from_gives = { λ _ fault. fault ≡ Device };

    fn from(_: DiskFailed) -> StoreFault {
        StoreFault::Device
    }
}

/// A disk with one file.
///
/// Writes stand for good only once a [`Disk::sync`] behind them was `Ok`. Until then a crash may leave any bytes where
/// they were written and past the file's old end, and all other bytes as they were. Each call that fails may have done
/// any part of its work, and raises the count of failures.
pub trait Disk {
    /// Whether the disk tells of its content. Of one that does not, as one over a real file, no more is claimed than
    /// its count of failures, and that a file stays below 2^63 bytes.
    ghost tells: { Bool };

    /// The count of its failures, without bound: each call that fails raises it, and nothing else does.
    ghost failures: { Self → ℕ };

    /// The file's bytes, as a read finds them.
    ghost content: { Self → List ℕ };

    /// The bytes that a crash at this moment may leave.
    ghost may_leave: { Self → List ℕ → Type 0 };

    /// The moment, as a number that does not fall.
    ghost moment: { Self → ℕ };

    /// The bytes that a crash at some moment from that one on might have left, in the midst of a call or between two.
    ghost left_since: { Self → ℕ → List ℕ → Type 0 };

    /// The file's length in bytes.
    fn len(&mut self) -> Result<usize, DiskFailed>
        ensures counted { CountsFailure result (failures self.old) (failures self.new) }
        ensures len { IsTrue tells → IfOk result (λ len. len ≡ length (content self.old)) }
        ensures same { IsTrue tells → OnOk result (content self.new ≡ content self.old) }
        ensures crash { IsTrue tells → CrashLeaves (moment self.old) (moment self.new)
            (left_since self.old) (left_since self.new) (may_leave self.old) };

    /// Reads as many bytes as `into` has, from a place on from which the file has so many. It fails where a file that
    /// tells nothing has fewer.
    fn read_at(&mut self, at: usize, into: &mut [u8]) -> Result<(), DiskFailed>
        requires { IsTrue tells → at + length into.old ≤ length (content self.old) }
        ensures counted { CountsFailure result (failures self.old) (failures self.new) }
        ensures read { IsTrue tells → OnOk result (StandsAt (content self.old) at into.new) }
        ensures same { IsTrue tells → OnOk result (content self.new ≡ content self.old) }
        ensures crash { IsTrue tells → CrashLeaves (moment self.old) (moment self.new)
            (left_since self.old) (left_since self.new) (may_leave self.old) };

    /// Writes over what is there, and past the end, from a place on that is no further than the end. A write that
    /// would make a file of 2^63 bytes or more fails.
    fn write_at(&mut self, at: usize, bytes: &[u8]) -> Result<(), DiskFailed>
        requires { IsTrue tells → at ≤ length (content self.old) }
        ensures counted { CountsFailure result (failures self.old) (failures self.new) }
        ensures limit { OnOk result (at + length bytes.now < 2 ^ 63) }
        ensures written { IsTrue tells → OnOk result (content self.new ≡ written_at (content self.old) at bytes.now) }
        ensures crash { IsTrue tells → CrashLeaves (moment self.old) (moment self.new)
            (left_since self.old) (left_since self.new) (MayBeTorn at (length bytes.now) (may_leave self.old)) };

    /// Makes all writes before it stand.
    fn sync(&mut self) -> Result<(), DiskFailed>
        ensures counted { CountsFailure result (failures self.old) (failures self.new) }
        ensures same { IsTrue tells → OnOk result (content self.new ≡ content self.old) }
        ensures stands { IsTrue tells → OnOk result (LeavesOnly (content self.old) (may_leave self.new)) }
        ensures crash { IsTrue tells → CrashLeaves (moment self.old) (moment self.new)
            (left_since self.old) (left_since self.new) (may_leave self.old) };

    /// A crash may leave what a read finds.
    ghost content_may_stay: { (disk : Self) → IsTrue tells → may_leave disk (content disk) };

    /// A crash at this moment is one since an earlier moment.
    ghost counts_now: { (disk : Self) (t : ℕ) (file : List ℕ) → t ≤ moment disk → may_leave disk file
        → left_since disk t file };

    /// Since this moment there is no other.
    ghost only_now: { (disk : Self) (file : List ℕ) → left_since disk (moment disk) file → may_leave disk file };
}
