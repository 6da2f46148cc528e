ghost use Rattle.std.specs.Prelude.{◌≡◌, ◌↔◌, ◌<◌, ◌≤◌, ◌+◌, ◌∷◌, ◌++◌, [], ℕ, List, Some, option_map};
ghost use Rattle.std.specs.Prelude.{IsTrue, IfOk, OnOk, OnErr};
ghost use Rattle.ballots.specs.Ballot.{IsAbove, IsAtLeast};
ghost use Rattle.ballots.specs.declared.record.Record.{Record as Kept};
ghost use Rattle.acceptor.specs.Standing.{IsFresh, IsSame, Sets};
ghost use Rattle.acceptor.specs.AcceptorState.{HasRoomFor, promised_at, accepted_at, standing};
ghost use Rattle.acceptor.specs.Answering.{Prepares, Accepts};
ghost use Rattle.acceptor.specs.Ranged.{AreAcceptances, AreBelow, IsHighestFrom, PreparesFrom};
ghost use Rattle.acceptor.specs.Raising.{Applies};
ghost use Rattle.acceptor.specs.Restored.{IsRestored};

use crate::answer::Answer;
use crate::maps::{
    acceptances_from, held_acceptance, held_promise, highest_promise_from, put_acceptance,
    put_promise, raise_acceptance, raise_promise,
};
use crate::ranges::{Ranges, higher_of};
use crate::records::copied;
use ballots::{Acceptance, Ballot, OutOfMemory, Record, Slot};
use indexmap::IndexMap;
use std::alloc::Global;
use std::marker::Model;

/// An acceptor for all slots. It takes memory for each slot that it has promised or accepted for, and for promises of
/// all slots from a first one on, however many these are.
#[derive(Debug, Drop)]
pub struct Acceptor {
    promises: IndexMap<Slot, Ballot>,
    ranges: Ranges,
    acceptances: IndexMap<Slot, Acceptance>,
}

impl Model for Acceptor {
    ghost use Rattle.acceptor.specs.AcceptorState.{AcceptorState};

    ghost Value = { AcceptorState };

    ghost use Rattle.std.specs.Prelude.{min};
    ghost use Rattle.indexmap.specs.IndexMap.{spare};

    ghost view = { λ a. record {
      promises = a.promises.entries;
      ranges = a.ranges.ranges;
      acceptances = a.acceptances.entries;
      room = min (min (spare a.promises) (spare a.acceptances)) a.ranges.room;
    } };
}

impl Acceptor {
    /// An acceptor that has promised and accepted nothing. It takes memory from this allocator as it grows.
    pub fn new(alloc: Global) -> Acceptor
        ensures fresh { IsFresh (standing result) }
        ensures restored { IsRestored [] (standing result) }
    {
        Acceptor {
            promises: IndexMap::new(alloc),
            ranges: Ranges::new(alloc),
            acceptances: IndexMap::new(alloc),
        }
    }

    /// The acceptor that these records leave, the first of them kept first (section 2.5). Each slot has the highest
    /// ballot that a record promises or accepts at, and the acceptance at the highest ballot, the last one where
    /// ballots are equal.
    pub fn from_records(alloc: Global, records: &[Record]) -> Result<Acceptor, OutOfMemory>
        ensures { IfOk result (λ acceptor. IsRestored records.now (standing acceptor)) }
    {
        let mut acceptor = Acceptor::new(alloc);
        for told in records {
            acceptor.apply_copy(told)?;
        }
        Ok(acceptor)
    }

    /// The highest ballot that the slot has promised, `None` where it has promised nothing.
    pub fn promised(&self, slot: Slot) -> Option<Ballot>
        ensures { result ≡ promised_at self.now slot }
    {
        higher_of(
            held_promise(&self.promises, slot),
            self.ranges.promised(slot),
        )
    }

    /// The value that the slot has last accepted, with the ballot that it was accepted at, `None` where it has
    /// accepted nothing.
    pub fn accepted(&self, slot: Slot) -> Option<&Acceptance>
        ensures { option_map (λ held. held.now) result ≡ accepted_at self.now slot }
    {
        held_acceptance(&self.acceptances, slot)
    }

    /// Whether `on_prepare` would promise the ballot, memory apart: it is above what the slot has promised.
    pub fn would_promise(&self, slot: Slot, ballot: Ballot) -> bool
        ensures { IsTrue result ↔ IsAbove ballot (promised_at self.now slot) }
    {
        match self.promised(slot) {
            Some(promised) => promised.is_below(ballot),
            None => true,
        }
    }

    /// Whether `on_prepare_from` would promise the ballot, memory apart: it is above all that the slots from this one on
    /// have promised.
    pub fn would_promise_from(&self, slot: Slot, ballot: Ballot) -> bool
        ensures { IsTrue result ↔ AreBelow (promised_at self.now) slot ballot }
    {
        match self.highest_from(slot) {
            Some(greatest) => greatest.is_below(ballot),
            None => true,
        }
    }

    /// Whether `on_accept` would grant the ballot, memory apart: it is what the slot has promised, or above.
    pub fn would_grant(&self, slot: Slot, ballot: Ballot) -> bool
        ensures { IsTrue result ↔ IsAtLeast ballot (promised_at self.now slot) }
    {
        match self.promised(slot) {
            Some(promised) => !ballot.is_below(promised),
            None => true,
        }
    }

    /// Answers a Prepare. A promise is kept before it is answered. Only a promise takes memory, its own: room that
    /// [`Acceptor::make_room`] made stays.
    pub fn on_prepare(&mut self, slot: Slot, ballot: Ballot) -> Result<Answer, OutOfMemory>
        ensures answered { IfOk result (Prepares (standing self.old) (standing self.new) slot ballot) }
        ensures err { OnErr result (IsSame (standing self.old) (standing self.new)) }
        ensures memory { OnErr result (IsAbove ballot (promised_at self.old slot)) }
        ensures room { 0 < self.old.room → 0 < self.new.room }
    {
        if let Some(promised) = self.promised(slot) {
            if !promised.is_below(ballot) {
                return Ok(Answer::Nack(promised));
            }
        }

        // What takes memory comes first: where it is refused, nothing has changed. Room for one slot more stays, for a
        // record.
        let report = self.accepted_copy(slot)?;
        self.promises.reserve(2)?;
        put_promise(&mut self.promises, slot, ballot);
        Ok(Answer::Promise(report))
    }

    /// Answers a Prepare of all slots from this one on: one promise binds them all, and slots below stay as they are. Its
    /// time and memory grow with what the acceptor holds, not with the number of slots. Only a promise takes memory, its
    /// own: room that [`Acceptor::make_room`] made stays.
    pub fn on_prepare_from(&mut self, slot: Slot, ballot: Ballot) -> Result<Answer, OutOfMemory>
        ensures answered { IfOk result (PreparesFrom (standing self.old) (standing self.new) slot ballot) }
        ensures err { OnErr result (IsSame (standing self.old) (standing self.new)) }
        ensures memory { OnErr result (AreBelow (promised_at self.old) slot ballot) }
        ensures room { 0 < self.old.room → 0 < self.new.room }
    {
        if let Some(greatest) = self.highest_from(slot) {
            if !greatest.is_below(ballot) {
                return Ok(Answer::Nack(greatest));
            }
        }

        // What takes memory comes first. Room for one promise more stays, for a record.
        let reports = self.reports_from(slot)?;
        self.ranges.reserve(2)?;
        self.ranges.put_from(slot, ballot);
        Ok(Answer::PromiseFrom(reports))
    }

    /// Answers an Accept. What is accepted is kept before it is answered. Only a grant takes memory, its own: room that
    /// [`Acceptor::make_room`] made stays.
    pub fn on_accept(&mut self, slot: Slot, proposal: Acceptance) -> Result<Answer, OutOfMemory>
        ensures answered { IfOk result (Accepts (standing self.old) (standing self.new) slot proposal) }
        ensures err { OnErr result (IsSame (standing self.old) (standing self.new)) }
        ensures memory { OnErr result (IsAtLeast proposal.ballot (promised_at self.old slot)) }
        ensures room { 0 < self.old.room → 0 < self.new.room }
    {
        let ballot = proposal.ballot;
        if let Some(promised) = self.promised(slot) {
            if ballot.is_below(promised) {
                return Ok(Answer::Nack(promised));
            }
        }
        self.set(slot, proposal)?;
        Ok(Answer::Granted)
    }

    /// Makes room for a record of the slot, which [`Acceptor::apply`] then takes without memory. Nothing else changes,
    /// whatever the answer. Memory can be refused only where there is no room yet.
    pub fn make_room(&mut self, slot: Slot) -> Result<(), OutOfMemory>
        ensures ready { OnOk result (0 < self.new.room) }
        ensures same { IsSame (standing self.old) (standing self.new) }
        ensures room { self.old.room ≤ self.new.room }
        ensures memory { OnErr result (self.old.room ≡ 0) }
    {
        self.reserve(1)
    }

    /// Takes a record as the last of those that the acceptor has: a promise raises what its slot has promised, one of all
    /// slots from a first one on what each of them has, and an acceptance that and what its slot has accepted, unless that
    /// was at a higher ballot. It takes no memory: [`Acceptor::make_room`] makes the room, of which this uses one place at
    /// most. A promise of all slots from a first one on that is below another such takes time with the number of these.
    pub fn apply(&mut self, told: Record)
        requires { HasRoomFor self.old told }
        ensures restored { (records : List Kept) → IsRestored records (standing self.old)
            → IsRestored (records ++ told ∷ []) (standing self.new) }
        ensures applies { Applies (standing self.old) (standing self.new) told }
        ensures room { self.old.room ≤ self.new.room + 1 }
    {
        match told {
            Record::Began(_) => {}
            Record::Promised(slot, ballot) => raise_promise(&mut self.promises, slot, ballot),
            Record::Accepted(slot, acceptance) => {
                raise_promise(&mut self.promises, slot, acceptance.ballot);
                raise_acceptance(&mut self.acceptances, slot, acceptance);
            }
            Record::PromisedFrom(first, ballot) => self.ranges.raise_from(first, ballot),
        }
    }

    fn apply_copy(&mut self, told: &Record) -> Result<(), OutOfMemory>
        ensures { (records : List Kept) → IsRestored records (standing self.old)
            → OnOk result (IsRestored (records ++ told.now ∷ []) (standing self.new)) }
    {
        let copy = copied(told)?;
        self.reserve(1)?;
        self.apply(copy);
        Ok(())
    }

    // Makes room for so many records.
    fn reserve(&mut self, slots: usize) -> Result<(), OutOfMemory>
        ensures ready { OnOk result (slots ≤ self.new.room) }
        ensures same { IsSame (standing self.old) (standing self.new) }
        ensures room { self.old.room ≤ self.new.room }
        ensures memory { OnErr result (self.old.room < slots) }
    {
        self.promises.reserve(slots)?;
        self.acceptances.reserve(slots)?;
        self.ranges.reserve(slots)
    }

    // Promises the ballot of a proposal, and keeps that as accepted. Where memory is refused, nothing has changed. Room
    // for one slot more stays, for a record.
    fn set(&mut self, slot: Slot, granted: Acceptance) -> Result<(), OutOfMemory>
        requires { IsAtLeast granted.ballot (promised_at self.old slot) }
        ensures ok { OnOk result (Sets (standing self.old) (standing self.new) slot granted.ballot (Some granted)) }
        ensures err { OnErr result (IsSame (standing self.old) (standing self.new)) }
        ensures room { 0 < self.old.room → 0 < self.new.room }
    {
        self.reserve(2)?;
        put_promise(&mut self.promises, slot, granted.ballot);
        put_acceptance(&mut self.acceptances, slot, granted);
        Ok(())
    }

    // The highest ballot that this slot or one above it has promised.
    fn highest_from(&self, first: Slot) -> Option<Ballot>
        ensures { IsHighestFrom (promised_at self.now) first result }
    {
        higher_of(
            highest_promise_from(&self.promises, first),
            self.ranges.highest(),
        )
    }

    // What this slot and all above it have accepted, for a report. It sorts the acceptances, which stay what they are.
    fn reports_from(&mut self, first: Slot) -> Result<Vec<(Slot, Acceptance)>, OutOfMemory>
        ensures reports { IfOk result (λ reports. AreAcceptances (accepted_at self.old) first reports.items) }
        ensures promises { self.new.promises ≡ self.old.promises }
        ensures ranges { self.new.ranges ≡ self.old.ranges }
        ensures acceptances { (slot : ℕ) → accepted_at self.new slot ≡ accepted_at self.old slot }
        ensures room { self.old.room ≤ self.new.room }
    {
        self.acceptances.sort_keys()?;
        acceptances_from(*self.acceptances.allocator(), &self.acceptances, first)
    }

    // What the slot has accepted, for a report: the acceptor keeps the value, so the report has a copy.
    fn accepted_copy(&self, slot: Slot) -> Result<Option<Acceptance>, OutOfMemory>
        ensures { IfOk result (λ copy. copy ≡ accepted_at self.now slot) }
    {
        match self.accepted(slot) {
            Some(held) => Ok(Some(held.clone()?)),
            None => Ok(None),
        }
    }
}
