//! The entry of one record.

ghost use Rattle.std.specs.Prelude.{◌≡◌, ◌↔◌, ◌++◌, IsTrue, IfOk, length, take};
ghost use Rattle.record_sums.specs.Sums.{IsEntry, entry_of, seal_of, sum_of};

use ballots::{OutOfMemory, Record};
use md5::{DIGEST_LEN, Digest, Md5};
use std::alloc::Global;

/// The bytes of an entry: the digest of a record, and eight that seal it.
pub const ENTRY_BYTES: usize = 24;

/// The bytes of a seal.
const SEAL_BYTES: usize = 8;

/// An entry.
pub(crate) type Entry = [u8; ENTRY_BYTES];

// The first eight bytes of a digest.
fn first_eight(digest: [u8; DIGEST_LEN]) -> [u8; SEAL_BYTES]
    ensures { result ≡ take 8 digest }
{
    let [a, b, c, d, e, f, g, h, ..] = digest;
    [a, b, c, d, e, f, g, h]
}

// What seals the sum of the record of this number.
fn seal_of(number: usize, sum: &[u8]) -> [u8; SEAL_BYTES]
    ensures { result ≡ seal_of number sum.now }
{
    let mut hasher = Md5::new();
    hasher.update(&(number as u64).to_le_bytes());
    hasher.update(sum);
    first_eight(hasher.finalize())
}

// The digest of a record's bytes.
fn sum_of(alloc: Global, told: &Record) -> Result<[u8; DIGEST_LEN], OutOfMemory>
    ensures { IfOk result (λ sum. sum ≡ sum_of told.now) }
{
    let mut text = Vec::new(alloc);
    told.encode(&mut text)?;
    Ok(Md5::digest(text.as_slice()))
}

fn joined(sum: [u8; DIGEST_LEN], seal: [u8; SEAL_BYTES]) -> Entry
    ensures { result ≡ sum ++ seal }
{
    let mut entry = [0; ENTRY_BYTES];
    let (front, back) = entry.split_at_mut(DIGEST_LEN);
    front.copy_from_slice(&sum);
    back.copy_from_slice(&seal);
    entry
}

/// The entry of the record of this number. It takes the memory of the record's bytes for as long as it works.
pub(crate) fn entry_of(alloc: Global, number: usize, told: &Record) -> Result<Entry, OutOfMemory>
    ensures { IfOk result (λ entry. entry ≡ entry_of number told.now) }
{
    let sum = sum_of(alloc, told)?;
    Ok(joined(sum, seal_of(number, &sum)))
}

/// Whether these bytes are an entry of this number, of whichever record.
pub(crate) fn is_entry(number: usize, bytes: &[u8]) -> bool
    ensures { IsTrue result ↔ IsEntry number bytes.now }
{
    if bytes.len() != ENTRY_BYTES {
        return false;
    }
    let (sum, seal) = bytes.split_at(DIGEST_LEN);
    seal == seal_of(number, sum).as_slice()
}
