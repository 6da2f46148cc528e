//! Offsets, which say where values of variable size begin and end.

ghost use Rattle.std.specs.Prelude.{◌≡◌, ◌+◌, ◌*◌, ◌≤◌, ◌++◌, length, OnOk, OnErr};
ghost use Rattle.byteorder.specs.Endian.{little_bytes};
ghost use Rattle.batch_types.specs.Placed.{bytes_from, offset_at as offset_in, start_of};

use byteorder::{ByteOrder, LittleEndian};
use std::alloc::AllocError;

/// The four bytes of offset `row`.
fn block(offsets: &[u8], row: usize) -> &[u8]
    requires { 4 * row + 4 ≤ length offsets.now }
    ensures { result.now ≡ bytes_from offsets.now (4 * row) 4 }
{
    let start = 4 * row;
    &offsets[start..start + 4]
}

/// Offset `row` of some that are there, a signed number of four bytes, the lowest first (Apache Arrow, "Arrow Columnar
/// Format", "Variable-size Binary Layout" and "Byte Order (Endianness)").
pub fn offset_at(offsets: &[u8], row: usize) -> i64
    requires { 4 * row + 4 ≤ length offsets.now }
    ensures { result ≡ offset_in 4 offsets.now row }
{
    LittleEndian::read_int(block(offsets, row), 4)
}

/// Where value `row` begins, by its offset without its sign.
pub fn start_at(offsets: &[u8], row: usize) -> usize
    requires { 4 * row + 4 ≤ length offsets.now }
    ensures { result ≡ start_of 4 offsets.now row }
{
    offset_at(offsets, row).unsigned_abs() as usize
}

/// Appends an offset: the lowest four bytes of a number, which has no more where it is below 2^31. [`AllocError`] says
/// that memory was refused, and the vector then holds what it did before.
pub fn put_offset(offsets: &mut Vec<u8>, number: usize) -> Result<(), AllocError>
    ensures ok { OnOk result (offsets.new.items ≡ offsets.old.items ++ little_bytes 4 number) }
    ensures err { OnErr result (offsets.new.items ≡ offsets.old.items) }
{
    offsets.extend_from_slice(&(number as u64).to_le_bytes()[..4])
}
