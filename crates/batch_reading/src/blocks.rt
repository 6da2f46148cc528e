//! The bytes of selected values that have so many bytes each.

ghost use Rattle.std.specs.Prelude.{◌≡◌, ℕ, ◌+◌, ◌*◌, ◌≤◌, length, if◌then◌else◌, Some, IfOk};
ghost use Rattle.std.specs.List.{flat_map};
ghost use Rattle.batch_types.specs.Placed.{bytes_from};
ghost use Rattle.batch_reading.specs.Spots.{DoRun, places_of, spots_of, IsSelection};
ghost use Rattle.batch_reading.specs.Cleared.{without_block, cleared};
ghost use Rattle.batch_reading.specs.Taken.{block_taken};

use crate::selection::{Run, Selection, bit_at};
use bitmaps::Bitmap;
use std::alloc::{AllocError, Global};

/// The bytes of the values of a run.
fn run_bytes<'a>(bytes: &'a [u8], size: usize, run: Run) -> &'a [u8]
    requires { size * (run.start + run.count) ≤ length bytes.now }
    ensures { result.now ≡ bytes_from bytes.now (size * run.start) (size * run.count) }
{
    let start = size * run.start;
    &bytes[start..start + size * run.count]
}

/// The bytes of the values at the places of some runs.
fn run_blocks(alloc: Global, size: usize, bytes: &[u8], runs: &[Run]) -> Result<Vec<u8>, AllocError>
    requires { (limit : ℕ) × DoRun 0 limit runs.now × (size * limit ≤ length bytes.now) }
    ensures { IfOk result (λ blocks. blocks.items
        ≡ flat_map (λ place. bytes_from bytes.now (size * place) size) (places_of runs.now)) }
{
    let mut blocks = Vec::new(alloc);
    for run in runs {
        blocks.extend_from_slice(run_bytes(bytes, size, *run))?;
    }
    Ok(blocks)
}

/// Puts zero bytes in place of the value of this number.
fn clear_block(blocks: &mut [u8], size: usize, number: usize)
    requires { size * number + size ≤ length blocks.old }
    ensures { blocks.new ≡ without_block size number blocks.old }
{
    let start = size * number;
    blocks[start..start + size].fill(0);
}

/// Puts zero bytes in place of the value of this number, unless it is kept.
fn clear_unless(blocks: &mut [u8], size: usize, number: usize, kept: bool)
    requires { size * number + size ≤ length blocks.old }
    ensures { blocks.new ≡ (if kept then blocks.old else without_block size number blocks.old) }
{
    if !kept {
        clear_block(blocks, size, number);
    }
}

/// Puts zero bytes in place of the values that are not marked.
fn clear_unmarked(blocks: &mut [u8], size: usize, marks: &Bitmap)
    requires { size * length marks.now ≤ length blocks.old }
    ensures cleared { blocks.new ≡ cleared size marks.now blocks.old }
    ensures long { length blocks.new ≡ length blocks.old }
{
    for number in 0..marks.len() {
        clear_unless(blocks, size, number, bit_at(marks, number));
    }
}

/// The bytes of the selected values, and zero bytes where the value is not marked.
fn marked_blocks(
    alloc: Global,
    size: usize,
    bytes: &[u8],
    selection: &Selection<'_>,
    marks: &Bitmap,
) -> Result<Vec<u8>, AllocError>
    requires selection { (limit : ℕ) × IsSelection limit selection.now × (size * limit ≤ length bytes.now) }
    requires marks { selection.now.there.now ≡ Some marks.now }
    ensures { IfOk result (λ blocks. blocks.items ≡ flat_map (block_taken size bytes.now) (spots_of selection.now)) }
{
    let mut blocks = run_blocks(alloc, size, bytes, selection.runs)?;
    clear_unmarked(blocks.as_mut_slice(), size, marks);
    Ok(blocks)
}

/// The bytes of the selected values, and zero bytes where the value is not selected.
pub(crate) fn blocks_taken(
    alloc: Global,
    size: usize,
    bytes: &[u8],
    selection: &Selection<'_>,
) -> Result<Vec<u8>, AllocError>
    requires { (limit : ℕ) × IsSelection limit selection.now × (size * limit ≤ length bytes.now) }
    ensures { IfOk result (λ blocks. blocks.items ≡ flat_map (block_taken size bytes.now) (spots_of selection.now)) }
{
    match selection.there {
        Some(marks) => marked_blocks(alloc, size, bytes, selection, marks),
        None => run_blocks(alloc, size, bytes, selection.runs),
    }
}
