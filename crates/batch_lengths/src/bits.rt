//! Marks of places, a bit for each, the lowest of a byte first.

ghost use Rattle.std.specs.Prelude.{◌≡◌, ◌==◌, ◌+◌, ◌<◌, ◌≤◌, ℕ, get_or, true};
ghost use Rattle.std.specs.Int.{bit_at};
ghost use Rattle.bitmaps.specs.Bits.{bit_of};
ghost use Rattle.batch_reading.specs.Taken.{valid_in};

/// How many bytes the marks of a block have.
pub(crate) const BYTES: usize = 128;

/// The byte at a place, 0 behind the last one.
fn byte_at(bytes: &[u8], place: usize) -> u8
    ensures { result ≡ get_or bytes.now place 0 }
{
    match bytes.get(place) {
        Some(byte) => *byte,
        None => 0,
    }
}

/// The eight bits from this one on, as a byte.
fn eight_bits(bytes: &[u8], start: usize) -> u8
    ensures { (i : ℕ) → i < 8 → (bit_at result i == 1) ≡ bit_of bytes.now (start + i) }
{
    let place = start / 8;
    let shift = start % 8;
    let low = byte_at(bytes, place) >> shift;
    if shift == 0 {
        return low;
    }
    low | (byte_at(bytes, place + 1) << (8 - shift))
}

/// Which of the eight values from this one on are valid by a bitmap (Apache Arrow, "Arrow Columnar Format", "Validity
/// bitmaps").
pub(crate) fn eight_valid(validity: &[u8], start: usize) -> u8
    ensures { (i : ℕ) → i < 8 → (bit_at result i == 1) ≡ valid_in validity.now (start + i) }
{
    if validity.is_empty() {
        0xff
    } else {
        eight_bits(validity, start)
    }
}

/// How many of the lowest bits of a byte are like the lowest.
pub(crate) fn lowest_alike(byte: u8) -> usize
    ensures some { 0 < result }
    ensures few { result ≤ 8 }
    ensures alike { (i : ℕ) → i < result → bit_at byte i ≡ bit_at byte 0 }
{
    if byte == 0 || byte == 0xff {
        8
    } else if byte % 2 == 0 {
        byte.trailing_zeros() as usize
    } else {
        byte.trailing_ones() as usize
    }
}

/// The byte of which so many bits from this one on are set.
fn ones(low: usize, count: usize) -> u8
    requires some { 0 < count }
    requires within { low + count ≤ 8 }
    ensures before { (i : ℕ) → i < low → bit_at result i ≡ 0 }
    ensures these { (i : ℕ) → low ≤ i → i < low + count → bit_at result i ≡ 1 }
    ensures behind { (i : ℕ) → low + count ≤ i → bit_at result i ≡ 0 }
{
    (0xff >> (8 - count)) << low
}

/// Sets the first of so many bits that stand in one byte, and says how many they are.
fn set_some(set: &mut [u8; BYTES], start: usize, count: usize) -> usize
    requires some { 0 < count }
    requires within { start + count ≤ 1024 }
    ensures some { 0 < result }
    ensures few { result ≤ count }
    ensures before { (k : ℕ) → k < start → bit_of set.new k ≡ bit_of set.old k }
    ensures these { (k : ℕ) → start ≤ k → k < start + result → bit_of set.new k ≡ true }
    ensures behind { (k : ℕ) → start + result ≤ k → bit_of set.new k ≡ bit_of set.old k }
{
    let low = start % 8;
    let some = count.min(8 - low);
    set[start / 8] |= ones(low, some);
    some
}

/// Sets so many bits from this one on.
pub(crate) fn set_bits(set: &mut [u8; BYTES], start: usize, count: usize)
    requires within { start + count ≤ 1024 }
    ensures before { (k : ℕ) → k < start → bit_of set.new k ≡ bit_of set.old k }
    ensures these { (k : ℕ) → start ≤ k → k < start + count → bit_of set.new k ≡ true }
    ensures behind { (k : ℕ) → start + count ≤ k → bit_of set.new k ≡ bit_of set.old k }
{
    let mut done = 0;
    while done < count {
        done += set_some(set, start + done, count - done);
    }
}
