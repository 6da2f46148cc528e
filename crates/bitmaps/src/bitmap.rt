//! A list of bits that grows.

ghost use Rattle.std.specs.Prelude.{◌≡◌, ℕ, ◌+◌, ◌*◌, ◌/◌, ◌%◌, ◌^◌, ◌<◌, ◌≤◌, ◌==◌, ◌&&◌, ◌||◌, nat_lt, if◌then◌else◌};
ghost use Rattle.std.specs.Prelude.{Bool, true, false, List, [], ◌∷◌, ◌++◌, length, get_or, replicate};
ghost use Rattle.std.specs.Prelude.{vec_capacity, OnOk, OnErr, IfOk, IsTrue, slice_get, ◌↔◌};
ghost use Rattle.std.specs.Int.{bit_at};
ghost use Rattle.std.proofs.Common.{bit_and, bit_xor};
ghost use lib.Pointwise.{pointwise};
ghost use Rattle.std.specs.Cmp.Rules.{comparing};
ghost use Rattle.std.specs.Bool.{beq};
ghost use Rattle.std.proofs.Common.{rules};
ghost use Rattle.bitmaps.specs.Bits.{bit_of, bits_of, zeros};
ghost use Rattle.bitmaps.specs.Packed.{IsPacked, IsKept};
ghost use Rattle.bitmaps.specs.Packing.{packed_bytes};
ghost use Rattle.bitmaps.specs.Joined.{set_in_both, set_in_one};

use crate::bits::{bit, count_zeros, eight_bits, eight_equal, low_bits, whole_bytes};
use std::alloc::{AllocError, Global};
use std::marker::Model;

/// Puts the lowest bits of a byte, `count` of them, behind the first `from` bits. There is room for one byte more.
fn put_bits(bytes: &mut Vec<u8>, from: usize, byte: u8, count: usize)
    requires kept { IsKept bytes.old.items from }
    requires room { length bytes.old.items < vec_capacity bytes.old }
    requires some { (0 < count) × (count ≤ 8) × (byte < 2 ^ count) }
    ensures before { (j : ℕ) → j < from → bit_of bytes.new.items j ≡ bit_of bytes.old.items j }
    ensures put { (i : ℕ) → bit_of bytes.new.items (from + i) ≡ (bit_at byte i == 1) }
    ensures kept { IsKept bytes.new.items (from + count) }
    ensures capacity { vec_capacity bytes.new ≡ vec_capacity bytes.old }
{
    let used = from % 8;
    if used == 0 {
        bytes.push_reserved(byte);
        return;
    }
    bytes[from / 8] |= byte << used;
    if 8 < used + count {
        bytes.push_reserved(byte >> (8 - used));
    }
}

/// Puts these bits behind the first `from` bits: `count` of them, from bit `start` of `source` on. There is room for
/// them.
fn put_run(bytes: &mut Vec<u8>, from: usize, source: &[u8], start: usize, count: usize)
    requires kept { IsKept bytes.old.items from }
    requires room { length bytes.old.items + (count + 7) / 8 ≤ vec_capacity bytes.old }
    requires within { (start + count < 2 ^ 64) × (from + count < 2 ^ 64) }
    ensures put { bits_of bytes.new.items 0 (from + count)
        ≡ bits_of bytes.old.items 0 from ++ bits_of source.now start count }
    ensures kept { IsKept bytes.new.items (from + count) }
{
    let mut done = 0;
    while done < count {
        let run = (count - done).min(8);
        let byte = low_bits(eight_bits(source, start + done), run);
        put_bits(bytes, from + done, byte, run);
        done += run;
    }
}

/// The bytes of these bits that fill whole bytes, where they begin at one, as do those behind the first `from` bits; else
/// none.
fn whole_behind(from: usize, source: &[u8], start: usize, count: usize) -> &[u8]
    requires { start + count < 2 ^ 64 }
    ensures few { 8 * length result.now ≤ count }
    ensures aligned { 0 < length result.now → (from % 8 ≡ 0) × (start % 8 ≡ 0) }
    ensures bytes { (i : ℕ) → i < length result.now
        → get_or result.now i 0 ≡ get_or source.now (start / 8 + i) 0 }
{
    if from % 8 == 0 {
        whole_bytes(source, start, count)
    } else {
        &[]
    }
}

/// Puts these bits behind the first `from` bits, as [`put_run`] does, whole bytes at once where they begin at one.
fn put_many(
    bytes: &mut Vec<u8>,
    from: usize,
    source: &[u8],
    start: usize,
    count: usize,
) -> Result<(), AllocError>
    requires kept { IsKept bytes.old.items from }
    requires room { length bytes.old.items + (count + 7) / 8 ≤ vec_capacity bytes.old }
    requires within { (start + count < 2 ^ 64) × (from + count < 2 ^ 64) }
    ensures put { OnOk result (bits_of bytes.new.items 0 (from + count)
        ≡ bits_of bytes.old.items 0 from ++ bits_of source.now start count) }
    ensures kept { OnOk result (IsKept bytes.new.items (from + count)) }
    ensures same { OnErr result (bytes.new.items ≡ bytes.old.items) }
{
    let whole = whole_behind(from, source, start, count);
    let done = 8 * whole.len();
    bytes.extend_from_slice(whole)?;
    put_run(bytes, from + done, source, start + done, count - done);
    Ok(())
}

/// Puts equal bits behind the first `from` bits, `count` of them. There is room for them.
fn put_equal(bytes: &mut Vec<u8>, from: usize, bit: bool, count: usize)
    requires kept { IsKept bytes.old.items from }
    requires room { length bytes.old.items + (count + 7) / 8 ≤ vec_capacity bytes.old }
    requires within { from + count < 2 ^ 64 }
    ensures put { bits_of bytes.new.items 0 (from + count) ≡ bits_of bytes.old.items 0 from ++ replicate count bit }
    ensures kept { IsKept bytes.new.items (from + count) }
{
    let eight = eight_equal(bit);
    let mut done = 0;
    while done < count {
        let run = (count - done).min(8);
        let byte = low_bits(eight, run);
        put_bits(bytes, from + done, byte, run);
        done += run;
    }
}

/// Leaves in some bytes the bits that are set in the others too, as many bytes.
fn and_bytes(bytes: &mut Vec<u8>, other: &[u8])
    requires { length bytes.old.items ≡ length other.now }
    ensures length { length bytes.new.items ≡ length bytes.old.items }
    ensures each { (k : ℕ) → get_or bytes.new.items k 0 ≡ bit_and (get_or bytes.old.items k 0) (get_or other.now k 0) }
{
    for place in 0..other.len() {
        bytes[place] &= other[place];
    }
}

/// Turns in some bytes the bits that are set in the others, as many bytes.
fn xor_bytes(bytes: &mut Vec<u8>, other: &[u8])
    requires { length bytes.old.items ≡ length other.now }
    ensures length { length bytes.new.items ≡ length bytes.old.items }
    ensures each { (k : ℕ) → get_or bytes.new.items k 0 ≡ bit_xor (get_or bytes.old.items k 0) (get_or other.now k 0) }
{
    for place in 0..other.len() {
        bytes[place] ^= other[place];
    }
}

/// Whether bytes that are kept for `length` bits hold the same bits as others that are kept for `other` bits.
fn is_same(left: &[u8], length: usize, right: &[u8], other: usize) -> bool
    requires left { IsKept left.now length }
    requires right { IsKept right.now other }
    ensures { result ≡ pointwise beq (bits_of left.now 0 length) (bits_of right.now 0 other) }
{
    *left == *right && length == other
}

/// Bytes that are kept for so many bits are the packed form of these bits. It does nothing: it is called for what it
/// says.
fn is_packed(bytes: &[u8], length: usize)
    requires { IsKept bytes.now length }
    ensures { bytes.now ≡ packed_bytes (bits_of bytes.now 0 length) }
{}

/// A list of bits that grows, packed eight a byte. It has fewer than 2^64 bits. Two are equal where their lists are.
#[derive(Debug, Drop)]
pub struct Bitmap {
    bytes: Vec<u8>,
    length: usize,
}

impl Model for Bitmap {
    ghost Value = { List Bool };

    ghost view = { λ b. bits_of b.bytes.items 0 b.length };

    ghost invariant = { λ b. IsKept b.bytes.items b.length };
}

impl Bitmap {
    /// The list without a bit. It takes memory from this allocator as it grows.
    pub fn new(alloc: Global) -> Bitmap
        ensures { result ≡ [] }
    {
        Bitmap {
            bytes: Vec::new(alloc),
            length: 0,
        }
    }

    /// How many bits there are.
    pub fn len(&self) -> usize
        ensures { result ≡ length self.now }
    {
        self.length
    }

    /// Whether there is no bit.
    pub fn is_empty(&self) -> bool
        ensures { IsTrue result ↔ (self.now ≡ []) }
    {
        self.len() == 0
    }

    /// The bit of this number, `None` where there are no more than so many bits.
    pub fn get(&self, index: usize) -> Option<bool>
        ensures { result ≡ slice_get self.now index }
    {
        if index < self.length {
            Some(bit(self.bytes.as_slice(), index))
        } else {
            None
        }
    }

    /// The packed form of the list: as few bytes as will do, and zero bits behind the last bit (Apache Arrow, "Arrow
    /// Columnar Format", "Validity bitmaps").
    pub fn as_bytes(&self) -> &[u8]
        ensures packed { IsPacked self.now result.now }
        ensures bytes { result.now ≡ packed_bytes self.now }
    {
        let bytes = self.bytes.as_slice();
        is_packed(bytes, self.length);
        bytes
    }

    /// The packed form of the list, which is given up for it: a byte for each eight bits, the first of them its lowest,
    /// and zero bits behind the last one (Apache Arrow, "Arrow Columnar Format", "Validity bitmaps"). It takes no
    /// memory.
    pub fn into_bytes(self) -> Vec<u8>
        ensures { result.items ≡ packed_bytes self }
    {
        is_packed(self.bytes.as_slice(), self.length);
        self.bytes
    }

    /// Puts a bit behind the others. Where memory is refused, or the list would have 2^64 bits, nothing changes and the
    /// answer is the same, `AllocError`.
    pub fn push(&mut self, bit: bool) -> Result<(), AllocError>
        ensures fits { OnOk result (length self.old + 1 < 2 ^ 64) }
        ensures pushed { OnOk result (self.new ≡ self.old ++ bit ∷ []) }
        ensures same { OnErr result (self.new ≡ self.old) }
    {
        let Some(length) = self.length.checked_add(1) else {
            return Err(AllocError);
        };
        self.bytes.reserve(1)?;
        put_bits(&mut self.bytes, self.length, u8::from(bit), 1);
        self.length = length;
        Ok(())
    }

    /// Puts bits behind the others: `count` of them, from bit `start` of these bytes on. Bits behind the last byte are
    /// not set. The run ends below bit 2^64 of the bytes. Where memory is refused, or the list would have 2^64 bits or
    /// more, nothing changes and the answer is the same, `AllocError`.
    pub fn extend_from(
        &mut self,
        bytes: &[u8],
        start: usize,
        count: usize,
    ) -> Result<(), AllocError>
        requires { start + count < 2 ^ 64 }
        ensures fits { OnOk result (length self.old + count < 2 ^ 64) }
        ensures extended { OnOk result (self.new ≡ self.old ++ bits_of bytes.now start count) }
        ensures same { OnErr result (self.new ≡ self.old) }
    {
        let Some(length) = self.length.checked_add(count) else {
            return Err(AllocError);
        };
        self.bytes.reserve(count / 8 + 1)?;
        put_many(&mut self.bytes, self.length, bytes, start, count)?;
        self.length = length;
        Ok(())
    }

    /// Puts equal bits behind the others, `count` of them. Where memory is refused, or the list would have 2^64 bits or
    /// more, nothing changes and the answer is the same, `AllocError`.
    pub fn push_run(&mut self, bit: bool, count: usize) -> Result<(), AllocError>
        ensures fits { OnOk result (length self.old + count < 2 ^ 64) }
        ensures extended { OnOk result (self.new ≡ self.old ++ replicate count bit) }
        ensures same { OnErr result (self.new ≡ self.old) }
    {
        let Some(length) = self.length.checked_add(count) else {
            return Err(AllocError);
        };
        let room = count / 8 + 1;
        self.bytes.reserve(room)?;
        put_equal(&mut self.bytes, self.length, bit, count);
        self.length = length;
        Ok(())
    }

    /// Leaves set the bits that are set in the other list too, which is as long. It takes no memory.
    pub fn and_with(&mut self, other: &Bitmap)
        requires { length self.old ≡ length other.now }
        ensures both { self.new ≡ set_in_both self.old other.now }
        ensures long { length self.new ≡ length self.old }
    {
        and_bytes(&mut self.bytes, other.bytes.as_slice());
    }

    /// Turns the bits that are set in the other list, which is as long. It takes no memory.
    pub fn xor_with(&mut self, other: &Bitmap)
        requires { length self.old ≡ length other.now }
        ensures one { self.new ≡ set_in_one self.old other.now }
        ensures long { length self.new ≡ length self.old }
    {
        xor_bytes(&mut self.bytes, other.bytes.as_slice());
    }

    /// How many bits are not set: of a validity bitmap, how many values are null.
    pub fn count_zeros(&self) -> usize
        ensures { result ≡ zeros self.now }
    {
        count_zeros(self.bytes.as_slice(), 0, self.length)
    }
}

impl Clone for Bitmap {
    ghost is_clone = { λ old new. new ≡ old };

    /// A copy with bytes of its own, or memory is refused.
    fn clone(&self) -> Result<Bitmap, AllocError>
        ensures { IfOk result (λ new. new ≡ self.now) }
    {
        Ok(Bitmap {
            bytes: self.bytes.clone()?,
            length: self.length,
        })
    }
}

impl PartialEq for Bitmap {
    ghost eq = { pointwise beq };

    ghost laws = { Prim.search (comparing, rules) };

    fn eq(&self, other: &Bitmap) -> bool {
        is_same(&self.bytes, self.length, &other.bytes, other.length)
    }
}

impl Eq for Bitmap {
    ghost laws = { Prim.search (comparing, rules) };
}
