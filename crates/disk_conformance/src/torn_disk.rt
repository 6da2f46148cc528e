//! A disk whose writes a crash tears.

ghost use Rattle.std.specs.Prelude.{[], false, ⊤};
ghost use Rattle.disk_records.specs.Disk.{CountsFailure};

use disk_records::{Disk, DiskFailed, Pick};
use stable_records::FaultCount;
use std::alloc::{AllocError, Global};

/// The bytes of a part of a write, so few that parts end inside of lengths and of fields.
const PART_BYTES: usize = 3;

/// The byte that stands where nothing was written yet, and where a crash left a part in disorder.
const DISORDER: u8 = 0xff;

/// The bytes that a file stays below.
const LIMIT: usize = 1 << 63;

/// Bytes that were written together.
#[derive(Drop)]
struct Part {
    at: usize,
    bytes: Vec<u8>,
}

/// A disk in memory that stops at one of its calls, and never works again: a write that is stopped is done, and any other call is not.
/// A crash leaves of each part of the writes that are not synced what is picked for that part.
#[derive(Drop)]
pub struct TornDisk {
    alloc: Global,
    synced: Vec<u8>,
    parts: Vec<Part>,
    calls_left: u64,
    failures: FaultCount,
}

/// The file with these bytes at this place, and bytes ff between where it is shorter.
fn laid(alloc: Global, file: &[u8], at: usize, bytes: &[u8]) -> Result<Vec<u8>, AllocError> {
    let mut left = file[..at.min(file.len())].to_vec(alloc)?;
    left.resize(at, DISORDER)?;
    left.extend_from_slice(bytes)?;
    if let Some(after) = file.get(left.len()..) {
        left.extend_from_slice(after)?;
    }
    Ok(left)
}

/// The file with what is picked of a part.
fn picked(alloc: Global, file: Vec<u8>, part: &Part, pick: Pick) -> Result<Vec<u8>, AllocError> {
    match pick {
        Pick::Written => laid(alloc, &file, part.at, &part.bytes),
        Pick::Unwritten => Ok(file),
        Pick::Filled => {
            let disorder = Vec::from_elem(alloc, DISORDER, part.bytes.len())?;
            laid(alloc, &file, part.at, &disorder)
        }
    }
}

/// The pick for the part at the lowest of a number's digits to the base of three.
fn lowest_pick(picks: u32) -> Pick {
    match picks % 3 {
        0 => Pick::Written,
        1 => Pick::Unwritten,
        _ => Pick::Filled,
    }
}

/// Puts the parts of a write behind the others.
fn push_parts(
    alloc: Global,
    parts: &mut Vec<Part>,
    at: usize,
    bytes: &[u8],
) -> Result<(), AllocError> {
    let mut at = at;
    for bytes in bytes.chunks(PART_BYTES) {
        parts.push(Part {
            at,
            bytes: bytes.to_vec(alloc)?,
        })?;
        at = at.saturating_add(bytes.len());
    }
    Ok(())
}

/// Whether a disk that has so many calls left is stopped at this one. One call less is left then.
fn is_stopped(calls_left: &mut u64) -> bool {
    let is_stopped = *calls_left == 0;
    *calls_left = calls_left.saturating_sub(1);
    is_stopped
}

/// Counts a failure where the disk was stopped, or memory was refused.
fn ended<T: Drop>(
    failures: &mut FaultCount,
    is_stopped: bool,
    done: Result<T, AllocError>,
) -> Result<T, DiskFailed>
    ensures { CountsFailure result failures.old.count failures.new.count }
{
    match done {
        Ok(given) if !is_stopped => Ok(given),
        _ => {
            failures.rise();
            Err(DiskFailed)
        }
    }
}

impl TornDisk {
    /// A disk whose file has these bytes, all of which stand. It is stopped behind so many calls.
    pub fn new(alloc: Global, file: Vec<u8>, calls: u64) -> TornDisk {
        TornDisk {
            alloc,
            synced: file,
            parts: Vec::new(alloc),
            calls_left: calls,
            failures: FaultCount::new(),
        }
    }

    /// How many numbers a crash may be told, one for each choice of a pick for each part.
    pub fn choices(&self) -> u32 {
        let mut choices: u32 = 1;
        for _ in 0..self.parts.len() {
            choices = choices.saturating_mul(3);
        }
        choices
    }

    /// The bytes that a crash leaves now, with the picks that this number tells.
    pub fn crashed(&self, picks: u32) -> Result<Vec<u8>, AllocError> {
        let mut left = self.synced.clone()?;
        let mut picks = picks;
        for part in &self.parts {
            left = picked(self.alloc, left, part, lowest_pick(picks))?;
            picks /= 3;
        }
        Ok(left)
    }

    fn content(&self) -> Result<Vec<u8>, AllocError> {
        self.crashed(0)
    }
}

/// Copies the bytes at a place, where there are so many.
fn copy_part(file: &[u8], at: usize, into: &mut [u8]) -> bool {
    match file.get(at..at.saturating_add(into.len())) {
        Some(part) if part.len() == into.len() => {
            into.copy_from_slice(part);
            true
        }
        _ => false,
    }
}

impl Disk for TornDisk {
    ghost tells = { false };

    ghost failures = { λ d. d.failures.count };

    ghost content = { λ _. [] };

    ghost may_leave = { λ _ _. ⊤ };

    ghost moment = { λ _. 0 };

    ghost left_since = { λ _ _ _. ⊤ };

    fn len(&mut self) -> Result<usize, DiskFailed> {
        let is_stopped = is_stopped(&mut self.calls_left);
        let file = self.content();
        let file = ended(&mut self.failures, is_stopped, file)?;
        Ok(file.len())
    }

    fn read_at(&mut self, at: usize, into: &mut [u8]) -> Result<(), DiskFailed> {
        let is_stopped = is_stopped(&mut self.calls_left);
        let file = self.content();
        let file = ended(&mut self.failures, is_stopped, file)?;
        let is_cut = !copy_part(&file, at, into);
        ended(&mut self.failures, is_cut, Ok(()))
    }

    fn write_at(&mut self, at: usize, bytes: &[u8]) -> Result<(), DiskFailed> {
        let is_stopped = is_stopped(&mut self.calls_left);
        if at >= LIMIT || bytes.len() >= LIMIT - at {
            self.failures.rise();
            return Err(DiskFailed);
        }
        let done = push_parts(self.alloc, &mut self.parts, at, bytes);
        ended(&mut self.failures, is_stopped, done)
    }

    fn sync(&mut self) -> Result<(), DiskFailed> {
        let is_stopped = is_stopped(&mut self.calls_left);
        let file = self.content();
        self.synced = ended(&mut self.failures, is_stopped, file)?;
        self.parts.clear();
        Ok(())
    }

    ghost content_may_stay = { λ _ _. tt };

    ghost counts_now = { λ _ _ _ _ _. tt };

    ghost only_now = { λ _ _ _. tt };
}
