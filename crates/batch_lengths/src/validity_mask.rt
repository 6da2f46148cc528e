//! Following places of a column, of some of which the cells are wanted.

ghost use Rattle.std.specs.Prelude.{◌≡◌, ◌==◌, ◌<◌, ◌≤◌, ◌-◌, ◌+◌, ◌*◌, ◌^◌, ◌++◌, ◌&&◌, map, true, false, IsTrue, IsFalse, ℕ};
ghost use Rattle.std.specs.Int.{bit_at};
ghost use Rattle.bitmaps.specs.Bits.{bit_of};
ghost use Rattle.batch_reading.specs.Taken.{valid_in, seen};
ghost use Rattle.batch_lengths.specs.Along.{run_spots, blank_spots, mark_of, spots_marked, AreTaken, IsGathered};

use crate::bits::{BYTES, eight_valid, lowest_alike, set_bits};
use bitmaps::bit;

/// How many places are marked one by one.
pub(crate) const BLOCK: usize = 8 * BYTES;

/// Following places of a column, and which of their cells are wanted.
#[derive(Clone, Copy)]
pub(crate) struct ValidityMask {
    /// The first place.
    pub(crate) start: usize,
    /// How many places there are, no more than `BLOCK` unless all cells are wanted.
    pub(crate) count: usize,
    /// Whether all of their cells are wanted.
    pub(crate) all: bool,
    /// Which are wanted, where not all are.
    pub(crate) set: [u8; BYTES],
}

impl ValidityMask {
    /// Of so many following places, whose cells are all wanted.
    pub(crate) fn run(start: usize, count: usize) -> ValidityMask
        ensures start { result.start ≡ start }
        ensures count { result.count ≡ count }
        ensures all { result.all ≡ true }
        ensures spots { spots_marked result ≡ run_spots start count }
    {
        ValidityMask {
            start,
            count,
            all: true,
            set: [0; BYTES],
        }
    }

    /// Whether the cell of this number is wanted.
    pub(crate) fn is_marked(&self, number: usize) -> bool
        ensures { result ≡ mark_of self.now number }
    {
        self.all || bit(&self.set, number)
    }

    /// The marks of the eight cells from eight times this number on.
    fn eight_marks(&self, number: usize) -> u8
        requires { number < 128 }
        ensures { (i : ℕ) → i < 8 → (bit_at result i == 1) ≡ mark_of self.now (8 * number + i) }
    {
        if self.all { 0xff } else { self.set[number] }
    }

    /// The same places without those whose values are null by a bitmap.
    pub(crate) fn taken(&self, validity: &[u8]) -> ValidityMask
        requires few { self.now.count ≤ 1024 }
        requires within { self.now.start + self.now.count + 8 < 2 ^ 64 }
        ensures start { result.start ≡ self.now.start }
        ensures count { result.count ≡ self.now.count }
        ensures all { result.all ≡ false }
        ensures marks { (k : ℕ) → k < self.now.count
            → bit_of result.set k ≡ (mark_of self.now k && valid_in validity.now (self.now.start + k)) }
        ensures spots { spots_marked result ≡ map (seen validity.now) (spots_marked self.now) }
        ensures taken { AreTaken validity.now result }
    {
        let mut set = [0; BYTES];
        for place in 0..(self.count + 7) / 8 {
            set[place] = self.eight_marks(place) & eight_valid(validity, self.start + 8 * place);
        }
        ValidityMask {
            start: self.start,
            count: self.count,
            all: false,
            set,
        }
    }

    /// How many cells from this number on, of those whose marks stand in one byte, are all wanted, or are all not.
    pub(crate) fn alike(&self, number: usize) -> usize
        requires some { number < self.now.count }
        requires few { self.now.count ≤ 1024 }
        requires one { self.now.all ≡ false }
        ensures some { 0 < result }
        ensures within { number + result ≤ self.now.count }
        ensures alike { (k : ℕ) → k < result → mark_of self.now (number + k) ≡ mark_of self.now number }
    {
        let low = number % 8;
        let alike = lowest_alike(self.set[number / 8] >> low);
        alike.min(8 - low).min(self.count - number)
    }

    /// Marks the places one by one.
    fn unfold(&mut self)
        requires few { self.old.count ≤ 1024 }
        requires gathered { IsGathered self.old }
        ensures start { self.new.start ≡ self.old.start }
        ensures count { self.new.count ≡ self.old.count }
        ensures all { self.new.all ≡ false }
        ensures marks { (k : ℕ) → k < self.old.count → bit_of self.new.set k ≡ mark_of self.old k }
        ensures behind { (k : ℕ) → self.old.count ≤ k → bit_of self.new.set k ≡ false }
    {
        if self.all {
            self.set = [0; BYTES];
            set_bits(&mut self.set, 0, self.count);
            self.all = false;
        }
    }

    /// Takes in a run of places, all of whose cells are wanted, from one behind these on; says whether it did, which it does
    /// where it stands right behind them, or where all fit into a block.
    pub(crate) fn join(&mut self, start: usize, count: usize) -> bool
        requires gathered { IsGathered self.old }
        requires behind { self.old.start + self.old.count ≤ start }
        requires within { start + count < 2 ^ 64 }
        ensures gathered { IsGathered self.new }
        ensures spots { IsTrue result → spots_marked self.new ≡ spots_marked self.old
            ++ (blank_spots (self.old.start + self.old.count) (start - (self.old.start + self.old.count))
            ++ run_spots start count) }
        ensures end { IsTrue result → self.new.start + self.new.count ≡ start + count }
        ensures same { IsFalse result → self.new ≡ self.old }
    {
        let past = start - self.start;
        if self.all && past == self.count {
            self.count += count;
            return true;
        }
        if past + count > BLOCK {
            return false;
        }
        self.unfold();
        set_bits(&mut self.set, past, count);
        self.count = past + count;
        true
    }
}
