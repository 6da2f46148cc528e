//! Marks of what files begin with.

ghost use Rattle.std.specs.Prelude.{◌≡◌, ℕ, ◌-◌, ◌++◌, List, length, min, take, drop};
ghost use Rattle.sha2.specs.Sha256.{sha256};
ghost use Rattle.cluster_identity.specs.Marks.{first_part, last_part, mark_of};

use crate::file_mark::FileMark;
use sha2::{Digest, Sha256};

/// The most bytes that each of the two digested parts has.
pub const PART_BYTES: u64 = 4096;

/// Which bytes of a file's beginning are digested: its first ones and its last ones, which overlap where there are few.
#[derive(Clone, Copy, Debug, PartialEq, Eq)]
pub struct DigestedParts {
    /// How many bytes either part has: [`PART_BYTES`], or all where there are fewer.
    pub count: u64,
    /// The place of the first byte of the last part. The first part begins at 0.
    pub last_from: u64,
}

/// The parts that are digested of a beginning of so many bytes.
pub fn digested_parts(size: u64) -> DigestedParts
    ensures count { result.count ≡ min size 4096 }
    ensures last_from { result.last_from ≡ size - 4096 }
    ensures first { (bytes : List ℕ) → length bytes ≡ size → take result.count bytes ≡ first_part bytes }
    ensures last { (bytes : List ℕ) → length bytes ≡ size
        → take result.count (drop result.last_from bytes) ≡ last_part bytes }
{
    DigestedParts {
        count: size.min(PART_BYTES),
        last_from: size.saturating_sub(PART_BYTES),
    }
}

/// The mark of a beginning of so many bytes, of which these are the first ones and the last ones that
/// [`digested_parts`] names.
pub fn mark_of(size: u64, first: &[u8], last: &[u8]) -> FileMark
    ensures sized { result.length ≡ size }
    ensures digested { result.digest ≡ sha256 (first.now ++ last.now) }
    ensures marks { (bytes : List ℕ) → length bytes ≡ size → first.now ≡ first_part bytes → last.now ≡ last_part bytes
        → result ≡ mark_of bytes }
{
    let mut hasher = Sha256::new();
    hasher.update(first);
    hasher.update(last);
    FileMark {
        length: size,
        digest: hasher.finalize(),
    }
}
