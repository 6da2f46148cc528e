//! Promises of all slots from a first one on.

ghost use Rattle.std.specs.Prelude.{◌≡◌, ℕ, ◌+◌, ◌<◌, ◌≤◌, ◌||◌, [], take, drop, length, nat_lt, OnOk, OnErr};
ghost use Rattle.std.specs.List.{AllByRecursion};
ghost use Rattle.std.specs.Ordering.{is_lt};
ghost use Rattle.ballots.specs.Ballot.{ballot_cmp, IsAbove};
ghost use Rattle.ballots.specs.Limits.{max_slot};
ghost use Rattle.acceptor.specs.Ranges.{Rise, higher, ranged_at};
ghost use Rattle.acceptor.specs.Ranged.{AreBelow, BindsFrom, IsHighestFrom};
ghost use Rattle.acceptor.specs.Raising.{RaisesFrom};

use ballots::{Ballot, MAX_SLOT, OutOfMemory, Slot};
use std::alloc::Global;
use std::marker::Model;

/// Ranges of slots, each from its first slot to the last one that there is, and the ballot that these slots promised
/// together. First slots rise, and ballots rise with them: where two ranges meet, the later one has the higher ballot.
#[derive(Debug, Drop)]
pub(crate) struct Ranges {
    ranges: Vec<(Slot, Ballot)>,
}

impl Model for Ranges {
    ghost use Rattle.std.specs.Prelude.{◌-◌, vec_len, vec_capacity};
    ghost use Rattle.acceptor.specs.Ranges.{RangesState, Rise};

    ghost Value = { RangesState };

    ghost view = { λ r. record {
      ranges = r.ranges.items;
      room = vec_capacity r.ranges - vec_len r.ranges;
    } };

    ghost invariant = { λ r. Rise r.ranges.items };
}

impl Ranges {
    /// No promise. They take memory from this allocator as they grow.
    pub(crate) fn new(alloc: Global) -> Ranges
        ensures { result.ranges ≡ [] }
    {
        Ranges {
            ranges: Vec::new(alloc),
        }
    }

    /// What the slot has promised with others: the ballot of the last range that begins at it or below.
    pub(crate) fn promised(&self, slot: Slot) -> Option<Ballot>
        ensures { result ≡ ranged_at self.now.ranges slot }
    {
        let begun = begun_below(&self.ranges, slot.number() + 1);
        if begun == 0 {
            return None;
        }
        let (_, ballot) = self.ranges[begun - 1];
        Some(ballot)
    }

    /// The highest of these promises, which the last slot has made.
    pub(crate) fn highest(&self) -> Option<Ballot>
        ensures { (first : ℕ) → first ≤ max_slot → IsHighestFrom (ranged_at self.now.ranges) first result }
    {
        let _ = &self.ranges;
        self.promised(Slot::new(MAX_SLOT)?)
    }

    /// Makes room for so many promises. Nothing else changes, whatever the answer.
    pub(crate) fn reserve(&mut self, count: usize) -> Result<(), OutOfMemory>
        ensures ready { OnOk result (count ≤ self.new.room) }
        ensures same { self.new.ranges ≡ self.old.ranges }
        ensures room { self.old.room ≤ self.new.room }
        ensures memory { OnErr result (self.old.room < count) }
    {
        self.ranges.reserve(count)
    }

    /// Promises the ballot for all slots from this one on, without memory. It takes the place of ranges that begin there
    /// or later.
    pub(crate) fn put_from(&mut self, first: Slot, ballot: Ballot)
        requires below { AreBelow (ranged_at self.old.ranges) first ballot }
        requires room { 0 < self.old.room }
        ensures binds { BindsFrom (ranged_at self.old.ranges) (ranged_at self.new.ranges) first ballot }
        ensures room { self.old.room ≤ self.new.room + 1 }
    {
        let earlier = begun_below(&self.ranges, first.number());
        self.ranges.truncate(earlier);
        self.ranges.push_reserved((first, ballot));
    }

    /// Makes this the promise of each slot from this one on, unless that has a higher one, without memory. A promise above
    /// all others takes two binary searches and a push. One that comes out of order takes time with the number of ranges.
    pub(crate) fn raise_from(&mut self, first: Slot, ballot: Ballot)
        requires { 0 < self.old.room }
        ensures raises { RaisesFrom (ranged_at self.old.ranges) (ranged_at self.new.ranges) first ballot }
        ensures room { self.old.room ≤ self.new.room + 1 }
    {
        match self.highest() {
            Some(highest) if !highest.is_below(ballot) => self.raise_among(first, ballot),
            _ => self.put_from(first, ballot),
        }
    }

    // The same of a promise that is not above all others.
    fn raise_among(&mut self, first: Slot, ballot: Ballot)
        requires { 0 < self.old.room }
        ensures raises { RaisesFrom (ranged_at self.old.ranges) (ranged_at self.new.ranges) first ballot }
        ensures room { self.old.room ≤ self.new.room + 1 }
    {
        let _ = &self.ranges;
        match self.promised(first) {
            Some(held) if !held.is_below(ballot) => {}
            _ => self.insert_from(first, ballot),
        }
    }

    // The same of a promise that is above that of its first slot: it takes the place of the ranges that begin there or
    // later and have no higher ballot.
    fn insert_from(&mut self, first: Slot, ballot: Ballot)
        requires above { IsAbove ballot (ranged_at self.old.ranges first) }
        requires room { 0 < self.old.room }
        ensures raises { RaisesFrom (ranged_at self.old.ranges) (ranged_at self.new.ranges) first ballot }
        ensures room { self.old.room ≤ self.new.room + 1 }
    {
        self.ranges.retain(
            |range: &(Slot, Ballot)| -> bool
                ensures { result ≡ (nat_lt range.now.0 first || is_lt (ballot_cmp ballot range.now.1)) }
            { range.0.number() < first.number() || ballot.is_below(range.1) },
        );
        let earlier = begun_below(&self.ranges, first.number());
        let Ok(_) = self.ranges.insert(earlier, (first, ballot)) else {
            unreachable!()
        };
    }
}

/// The higher of two ballots, of which either may be none.
pub(crate) fn higher_of(one: Option<Ballot>, other: Option<Ballot>) -> Option<Ballot>
    ensures { result ≡ higher one other }
{
    match (one, other) {
        (Some(low), Some(high)) if low.is_below(high) => other,
        (None, _) => other,
        _ => one,
    }
}

// How many ranges begin below this number: those stand first.
fn begun_below(ranges: &[(Slot, Ballot)], end: u32) -> usize
    requires { Rise ranges.now }
    ensures bound { result ≤ length ranges.now }
    ensures earlier { AllByRecursion (λ range. range.0 < end) (take result ranges.now) }
    ensures later { AllByRecursion (λ range. end ≤ range.0) (drop result ranges.now) }
{
    ranges.partition_point(
        |range: &(Slot, Ballot)| -> bool
            ensures { result ≡ nat_lt range.now.0 end }
        { range.0.number() < end },
    )
}
