ghost use Rattle.std.specs.Prelude.{◌≡◌, ℕ, suc, ◌==◌, ◌||◌, ◌++◌, ◌∷◌, [], List, Some, None, option_map};
ghost use Rattle.std.specs.Prelude.{IsTrue, ◌↔◌, IfOk, OnErr};
ghost use Rattle.ballots.specs.Majority.{contains};
ghost use Rattle.ballots.specs.declared.value.Value.{Value as Held};
ghost use Rattle.proposer.specs.Call.{Promise, OneSlot, AllFrom};
ghost use Rattle.proposer.specs.Reporting.{report_of, rises_from};
ghost use Rattle.proposer.specs.Promised.{Reaches};
ghost use Rattle.proposer.specs.Kept.{reports_in, from_slot, with_reports, HasRoom, HasNext, HasSomeAhead};
ghost use Rattle.proposer.specs.Kept.{GivesAhead, MovesAhead};
ghost use Rattle.proposer.specs.Counting.{Counts, AnswersAtMajority, IsNew, WouldCount, HoldsAhead, reach_by};

use crate::ahead::Ahead;
use crate::choice::{Choice, higher_of, higher_value};
use crate::reports::Reports;
use ballots::{Acceptance, Ballot, Members, NodeId, NodeSet, OutOfMemory, Slot, Value};

/// An attempt to have a value accepted for a slot, or for each slot from one on.
#[derive(Debug, Drop)]
pub(crate) struct Attempt {
    pub(crate) slot: Slot,
    pub(crate) ballot: Ballot,
    // Whose promises are counted.
    pub(crate) counted: NodeSet,
    // What would be proposed now. It is gone once the Accept was answered.
    pub(crate) choice: Option<Choice>,
    // What is known of the slots behind this one, where it is an attempt for them too.
    pub(crate) ahead: Option<Ahead>,
}

impl Attempt {
    /// An attempt for a slot that nothing has answered yet.
    pub(crate) fn new(slot: Slot, ballot: Ballot, candidate: Value) -> Attempt
        ensures slot { result.slot ≡ slot }
        ensures ballot { result.ballot ≡ ballot }
        ensures counts { (members : ℕ) → Counts members candidate [] result }
        ensures ahead { result.ahead ≡ None }
    {
        Attempt {
            slot,
            ballot,
            counted: NodeSet::new(),
            choice: Some(Choice::own(candidate)),
            ahead: None,
        }
    }

    /// The same, for all slots from this one on.
    pub(crate) fn new_from(slot: Slot, ballot: Ballot, candidate: Value) -> Attempt
        ensures slot { result.slot ≡ slot }
        ensures ballot { result.ballot ≡ ballot }
        ensures counts { (members : ℕ) → Counts members candidate [] result }
        ensures ahead { (seen_round : ℕ) (members : ℕ) → HoldsAhead members (record {
          slot = slot;
          reach = AllFrom;
          seen_round = seen_round;
          candidate = candidate;
          ballot = ballot;
        }) [] result.counted result.ahead }
    {
        Attempt {
            slot,
            ballot,
            counted: NodeSet::new(),
            choice: Some(Choice::own(candidate)),
            ahead: Some(Ahead::new(slot)),
        }
    }

    /// Whether it is for this slot, at this ballot.
    pub(crate) fn is_at(&self, slot: Slot, ballot: Ballot) -> bool
        ensures { IsTrue result ↔ (Reaches (reach_by self.now.ahead) self.now.slot slot × (self.now.ballot ≡ ballot)) }
    {
        let is_reached = match &self.ahead {
            Some(_) => self.slot.number() <= slot.number(),
            None => self.slot == slot,
        };
        is_reached && self.ballot == ballot
    }

    // Whether it begins at this slot, at this ballot.
    fn is_of(&self, slot: Slot, ballot: Ballot) -> bool
        ensures { IsTrue result ↔ ((self.now.slot ≡ slot) × (self.now.ballot ≡ ballot)) }
    {
        self.slot == slot && self.ballot == ballot
    }

    /// Whether its majority has answered, and its Accept was given.
    pub(crate) fn has_majority(&self) -> bool
        ensures { IsTrue result ↔ (self.now.choice ≡ None) }
    {
        self.choice.is_none()
    }

    /// Whether a promise of this node would be counted: it is a member, and none of its promises is counted.
    pub(crate) fn is_new(&self, members: Members, sender: NodeId) -> bool
        ensures { IsTrue result ↔ IsNew members sender self.now }
    {
        members.have(sender) && !self.counted.contains(sender)
    }

    /// Whether a promise of this node for this slot and ballot would be counted.
    pub(crate) fn would_count(
        &self,
        members: Members,
        sender: NodeId,
        slot: Slot,
        ballot: Ballot,
    ) -> bool
        ensures { IsTrue result ↔ WouldCount OneSlot members sender slot ballot self.now }
    {
        self.ahead.is_none() && self.is_of(slot, ballot) && self.is_new(members, sender)
    }

    /// The same of a promise of all slots from this one on.
    pub(crate) fn would_count_from(
        &self,
        members: Members,
        sender: NodeId,
        slot: Slot,
        ballot: Ballot,
    ) -> bool
        ensures { IsTrue result ↔ WouldCount AllFrom members sender slot ballot self.now }
    {
        self.ahead.is_some() && self.is_of(slot, ballot) && self.is_new(members, sender)
    }

    /// Counts a promise, and gives the value to propose where the majority comes with it.
    pub(crate) fn count(
        &mut self,
        members: Members,
        sender: NodeId,
        report: Option<Acceptance>,
    ) -> Option<Value>
        requires { IsNew members sender self.old }
        ensures slot { self.new.slot ≡ self.old.slot }
        ensures ballot { self.new.ballot ≡ self.old.ballot }
        ensures counted { (node : ℕ)
            → contains self.new.counted node ≡ (contains self.old.counted node || (sender == node)) }
        ensures ahead { self.new.ahead ≡ self.old.ahead }
        ensures counts { (candidate : Held) (promises : List Promise) (promise : Promise)
            → promise.sender ≡ sender → promise.report ≡ report → Counts members candidate promises self.old
            → Counts members candidate (promises ++ promise ∷ []) self.new }
        ensures gives { (candidate : Held) (promises : List Promise) (promise : Promise)
            → promise.sender ≡ sender → promise.report ≡ report
            → Counts members candidate promises self.old → AnswersAtMajority members candidate promises promise result }
    {
        self.counted = self.counted.with(sender);
        let choice = higher_of(self.choice.take()?, report);
        if members.are_majority(self.counted) {
            return Some(choice.value);
        }
        self.choice = Some(choice);
        None
    }

    /// The same of a promise of all slots from the first on, with reports that rise from there.
    pub(crate) fn count_from(
        &mut self,
        members: Members,
        sender: NodeId,
        reports: Reports,
    ) -> Option<Value>
        requires new { IsNew members sender self.old }
        requires rise { IsTrue (rises_from self.old.slot (reports_in reports)) }
        ensures slot { self.new.slot ≡ self.old.slot }
        ensures ballot { self.new.ballot ≡ self.old.ballot }
        ensures counted { (node : ℕ)
            → contains self.new.counted node ≡ (contains self.old.counted node || (sender == node)) }
        ensures ahead { HasRoom self.old.ahead → self.new.ahead
            ≡ option_map (with_reports (from_slot (suc self.old.slot) (reports_in reports))) self.old.ahead }
        ensures counts { (candidate : Held) (promises : List Promise) (promise : Promise)
            → promise.sender ≡ sender → promise.report ≡ report_of self.old.slot (reports_in reports)
            → Counts members candidate promises self.old
            → Counts members candidate (promises ++ promise ∷ []) self.new }
        ensures gives { (candidate : Held) (promises : List Promise) (promise : Promise)
            → promise.sender ≡ sender → promise.report ≡ report_of self.old.slot (reports_in reports)
            → Counts members candidate promises self.old → AnswersAtMajority members candidate promises promise result }
    {
        let mut reports = reports;
        let report = reports.take(self.slot);
        keep_in(&mut self.ahead, reports);
        self.count(members, sender, report)
    }

    /// The value that `count` would give, as a copy.
    pub(crate) fn see_count(
        &self,
        members: Members,
        sender: NodeId,
        report: Option<&Acceptance>,
    ) -> Result<Option<Value>, OutOfMemory>
        requires { IsNew members sender self.now }
        ensures gives { IfOk result (λ given. (candidate : Held) (promises : List Promise) (promise : Promise)
            → promise.sender ≡ sender → promise.report ≡ option_map (λ report. report.now) report.entry
            → Counts members candidate promises self.now
            → AnswersAtMajority members candidate promises promise given) }
        ensures memory { OnErr result ((candidate : Held) (promises : List Promise) (promise : Promise)
            → promise.sender ≡ sender → promise.report ≡ option_map (λ report. report.now) report.entry
            → Counts members candidate promises self.now
            → AnswersAtMajority members candidate promises promise None → ⊥) }
    {
        let Some(choice) = &self.choice else {
            return Ok(None);
        };
        if !members.are_majority(self.counted.with(sender)) {
            return Ok(None);
        }
        copied(higher_value(choice, report))
    }

    /// Goes on to the next slot, and gives it with the value that is reported highest of it, or the candidate.
    pub(crate) fn go_on(&mut self, candidate: Value) -> Option<(Slot, Value)>
        ensures slot { self.new.slot ≡ self.old.slot }
        ensures ballot { self.new.ballot ≡ self.old.ballot }
        ensures counted { self.new.counted ≡ self.old.counted }
        ensures choice { self.new.choice ≡ self.old.choice }
        ensures gives { GivesAhead candidate self.old.ahead result }
        ensures moves { MovesAhead self.old.ahead self.new.ahead result }
    {
        match &mut self.ahead {
            Some(ahead) => ahead.go_on(candidate),
            None => None,
        }
    }

    /// What `go_on` would give, with a copy of the value.
    pub(crate) fn see_go_on(&self, candidate: &Value) -> Result<Option<(Slot, Value)>, OutOfMemory>
        ensures gives { IfOk result (λ given. GivesAhead candidate.now self.now.ahead given) }
        ensures memory { OnErr result (HasNext self.now.ahead) }
    {
        match &self.ahead {
            Some(ahead) => ahead.see_go_on(candidate),
            None => Ok(None),
        }
    }

    /// Whether something is reported of the next slot or of one behind it.
    pub(crate) fn has_reports(&self) -> bool
        ensures { IsTrue result ↔ HasSomeAhead self.now.ahead }
    {
        match &self.ahead {
            Some(ahead) => ahead.has_reports(),
            None => false,
        }
    }
}

// A copy of the value.
fn copied(value: &Value) -> Result<Option<Value>, OutOfMemory>
    ensures { IfOk result (λ copy. copy ≡ Some value.now) }
{
    Ok(Some(value.clone()?))
}

// Keeps what one more promise reports of the slots behind the first.
fn keep_in(held: &mut Option<Ahead>, reports: Reports)
    ensures { HasRoom held.old → held.new ≡ option_map (with_reports (reports_in reports)) held.old }
{
    if let Some(ahead) = held {
        ahead.keep(reports);
    }
}
