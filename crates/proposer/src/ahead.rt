//! What an attempt for all slots from one on keeps of those behind its first: which of them is next, and what the
//! promises that count report from there on.

ghost use Rattle.std.specs.Prelude.{◌≡◌, ◌↔◌, ◌<◌, ◌≤◌, ◌++◌, [], suc, map, List, Some};
ghost use Rattle.std.specs.Prelude.{IsTrue, IsSome, IfSome, IfOk, OnErr};
ghost use Rattle.ballots.specs.Limits.{max_slot};
ghost use Rattle.ballots.specs.declared.value.Value.{Value as Held};
ghost use Rattle.proposer.specs.Choosing.{PromiseReport, Chooses};
ghost use Rattle.proposer.specs.Kept.{from_slot, reported_at, reports_in, with_reports};
ghost use Rattle.proposer.specs.Kept.{HasRoom, RiseFrom, HasSome, GivesNext, MovesOn};
ghost use Rattle.proposer.specs.Counting.{IsBest};

use crate::choice::{Choice, higher_of, higher_report, value_or};
use crate::reports::Reports;
use arrayvec::ArrayVec;
use ballots::{MAX_MEMBERS, OutOfMemory, Slot, Value};
use std::marker::Model;

// A place for each promise that counts: each member has one at most.
const PLACES: usize = MAX_MEMBERS as usize;

/// The next slot of an attempt, and what is reported of the slots from there on.
#[derive(Debug, Drop)]
pub(crate) struct Ahead {
    // One above the greatest slot where all slots have an Accept.
    next: u32,
    // Those of each promise that counts, in the order in which they came.
    kept: ArrayVec<Reports, PLACES>,
}

impl Model for Ahead {
    ghost use Rattle.std.specs.Prelude.{map};
    ghost use Rattle.proposer.specs.Kept.{AheadState, reports_in};

    ghost Value = { AheadState };

    ghost view = { λ a. record {
      next = a.next;
      kept = map reports_in a.kept.items;
    } };
}

impl Ahead {
    /// Behind this slot, where nothing was reported yet.
    pub(crate) fn new(first: Slot) -> Ahead
        ensures next { result.next ≡ suc first }
        ensures kept { result.kept ≡ [] }
    {
        Ahead {
            next: first.number() + 1,
            kept: ArrayVec::new(),
        }
    }

    /// The next slot, `None` where there is none.
    pub(crate) fn next(&self) -> Option<Slot>
        ensures within { IsSome result ↔ (self.now.next ≤ max_slot) }
        ensures value { IfSome result (λ slot. slot ≡ self.now.next) }
    {
        Slot::new(self.next)
    }

    /// Whether something is reported of the next slot or of one behind it.
    pub(crate) fn has_reports(&self) -> bool
        ensures { IsTrue result ↔ HasSome self.now.kept }
    {
        are_some(self.kept.as_slice())
    }

    /// Keeps what one more promise reports.
    pub(crate) fn keep(&mut self, reports: Reports)
        ensures { HasRoom (Some self.old) → self.new ≡ with_reports (reports_in reports) self.old }
    {
        let mut reports = reports;
        reports.drop_below(self.next);
        // There is a place for each member.
        let _ = self.kept.try_push(reports);
    }

    /// Goes on to the next slot, and gives it with the value that is reported highest of it, or the candidate.
    pub(crate) fn go_on(&mut self, candidate: Value) -> Option<(Slot, Value)>
        ensures gives { GivesNext candidate self.old result }
        ensures moves { MovesOn self.old self.new result }
    {
        let slot = Slot::new(self.next)?;
        let choice = taken(self.kept.as_mut_slice(), slot, Choice::own(candidate));
        self.next = slot.number() + 1;
        Some((slot, choice.value))
    }

    /// What `go_on` would give, with a copy of the value.
    pub(crate) fn see_go_on(&self, candidate: &Value) -> Result<Option<(Slot, Value)>, OutOfMemory>
        ensures gives { IfOk result (λ given. GivesNext candidate.now self.now given) }
        ensures memory { OnErr result (self.now.next ≤ max_slot) }
    {
        let Some(slot) = self.next() else {
            return Ok(None);
        };
        let value = seen(self.kept.as_slice(), slot, candidate).clone()?;
        Ok(Some((slot, value)))
    }
}

// Whether there are reports.
fn are_some(kept: &[Reports]) -> bool
    ensures { IsTrue result ↔ HasSome (map reports_in kept.now) }
{
    for reports in kept {
        if !reports.are_none() {
            return true;
        }
    }
    false
}

// The best of the choice and of what is reported of the slot, which leaves the reports.
fn taken(kept: &mut [Reports], slot: Slot, choice: Choice) -> Choice
    ensures best { RiseFrom slot (map reports_in kept.old) → (candidate : Held) (reports : List PromiseReport)
        → IsBest candidate reports choice.reported_at choice.value
        → IsBest candidate (reports ++ reported_at slot (map reports_in kept.old)) result.reported_at result.value }
    ensures kept { RiseFrom slot (map reports_in kept.old)
        → map reports_in kept.new ≡ map (from_slot (suc slot)) (map reports_in kept.old) }
{
    let mut choice = choice;
    for reports in kept.iter_mut() {
        choice = higher_of(choice, reports.take(slot));
    }
    choice
}

// The best of the candidate and of what is reported of the slot.
fn seen<'a>(kept: &'a [Reports], slot: Slot, candidate: &'a Value) -> &'a Value
    ensures { RiseFrom slot (map reports_in kept.now)
        → Chooses candidate.now (reported_at slot (map reports_in kept.now)) result.now }
{
    let mut highest = None;
    for reports in kept {
        highest = higher_report(highest, reports.at(slot));
    }
    value_or(highest, candidate)
}
