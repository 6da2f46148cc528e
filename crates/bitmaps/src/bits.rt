//! Bits in bytes.

ghost use Rattle.std.specs.Prelude.{◌≡◌, ◌==◌, ◌^◌, if◌then◌else◌, ℕ, ◌+◌, ◌-◌, ◌*◌, ◌<◌, ◌≤◌, ◌/◌, ◌%◌, ◌&&◌};
ghost use Rattle.std.specs.Prelude.{length, get_or, nat_lt, false};
ghost use Rattle.std.specs.Int.{bit_at};
ghost use Rattle.bitmaps.specs.Bits.{bit_of, bits_of, zeros};

/// The byte at a place, 0 behind the last one.
fn byte_at(bytes: &[u8], place: usize) -> u8
    ensures { result ≡ get_or bytes.now place 0 }
{
    match bytes.get(place) {
        Some(byte) => *byte,
        None => 0,
    }
}

/// Whether the bit is set: bit `index % 8` of byte `index / 8`, the lowest first (Apache Arrow, "Arrow Columnar
/// Format", "Validity bitmaps"). Behind the last byte no bit is set.
pub fn bit(bytes: &[u8], index: usize) -> bool
    ensures { result ≡ bit_of bytes.now index }
{
    (byte_at(bytes, index / 8) >> (index % 8)) & 1 == 1
}

/// The eight bits from this one on, as a byte.
pub(crate) fn eight_bits(bytes: &[u8], start: usize) -> u8
    ensures { (i : ℕ) → i < 8 → (bit_at result i == 1) ≡ bit_of bytes.now (start + i) }
{
    let place = start / 8;
    let shift = start % 8;
    let low = byte_at(bytes, place) >> shift;
    if shift == 0 {
        return low;
    }
    low | (byte_at(bytes, place + 1) << (8 - shift))
}

/// The lowest bits of a byte, so many of them, and zero bits above.
pub(crate) fn low_bits(byte: u8, count: usize) -> u8
    ensures bits { (i : ℕ) → bit_at result i ≡ (if nat_lt i count then bit_at byte i else 0) }
    ensures small { result < 2 ^ count }
{
    if count < 8 {
        byte & ((1 << count) - 1)
    } else {
        byte
    }
}

/// The byte of eight bits that are all this one.
pub(crate) fn eight_equal(bit: bool) -> u8
    ensures { (i : ℕ) → i < 8 → (bit_at result i == 1) ≡ bit }
{
    if bit { 0xff } else { 0 }
}

/// How many bits of these bytes are not set.
fn zeros_in(bytes: &[u8]) -> usize
    requires { 8 * length bytes.now < 2 ^ 64 }
    ensures { result ≡ zeros (bits_of bytes.now 0 (8 * length bytes.now)) }
{
    let mut zeros = 0;
    for byte in bytes {
        zeros += 8 - byte.count_ones() as usize;
    }
    zeros
}

/// The bytes of these bits that fill whole bytes, where they begin at one; else none.
pub(crate) fn whole_bytes(bytes: &[u8], start: usize, count: usize) -> &[u8]
    requires { start + count < 2 ^ 64 }
    ensures few { 8 * length result.now ≤ count }
    ensures aligned { 0 < length result.now → start % 8 ≡ 0 }
    ensures bytes { (i : ℕ) → i < length result.now → get_or result.now i 0 ≡ get_or bytes.now (start / 8 + i) 0 }
{
    let (first, whole) = (start / 8, count / 8);
    if start % 8 != 0 || bytes.len() < first + whole {
        return &[];
    }
    &bytes[first..first + whole]
}

/// How many of these bits are not set, eight at a time.
fn zeros_from(bytes: &[u8], start: usize, count: usize) -> usize
    requires { start + count < 2 ^ 64 }
    ensures { result ≡ zeros (bits_of bytes.now start count) }
{
    let mut zeros = 0;
    let mut done = 0;
    while done < count {
        let run = (count - done).min(8);
        let set = low_bits(eight_bits(bytes, start + done), run).count_ones();
        zeros += run - set as usize;
        done += run;
    }
    zeros
}

/// How many of these bits are not set: `count` of them, from bit `start` on. Bits behind the last byte are not set. The
/// run ends below bit 2^64.
pub fn count_zeros(bytes: &[u8], start: usize, count: usize) -> usize
    requires { start + count < 2 ^ 64 }
    ensures { result ≡ zeros (bits_of bytes.now start count) }
{
    let whole = whole_bytes(bytes, start, count);
    let done = 8 * whole.len();
    zeros_in(whole) + zeros_from(bytes, start + done, count - done)
}
