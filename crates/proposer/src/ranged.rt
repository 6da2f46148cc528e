//! The calls of a proposer about an attempt for all slots from one on.

ghost use Rattle.std.specs.Prelude.{◌≡◌, ℕ, ◌≤◌, max, ◌++◌, ◌∷◌, [], List, Some, None};
ghost use Rattle.std.specs.Prelude.{IsTrue, ◌↔◌, IsErr, IfOk, OnErr, OnSome, IfNone};
ghost use Rattle.ballots.specs.Limits.{max_round};
ghost use Rattle.proposer.specs.Call.{Start, AllFrom, ProposerCall, Begins, PromisesFrom, GoesOn};
ghost use Rattle.proposer.specs.Attempting.{highest_begun, next_ballot, AnswersFrom};
ghost use Rattle.proposer.specs.GoingOn.{IsNext, GoesOnWith, HasReportAhead};
ghost use Rattle.proposer.specs.State.{StateAfter, Holds, HoldsOpen, place_of, attempt_of};

use crate::attempt::Attempt;
use crate::proposer::{Proposer, RoundsSpent};
use crate::reports::{Reports, report_at, rise_from};
use ballots::{Acceptance, Ballot, Members, NodeId, OutOfMemory, Slot, Value};

impl Proposer {
    /// Begins an attempt for all slots from this one on, as `begin` does for one: the candidate is for the first slot,
    /// and `go_on` is given one for each further slot (section 3).
    pub fn begin_from(
        &mut self,
        slot: Slot,
        seen_round: u32,
        candidate: Value,
    ) -> Result<Ballot, RoundsSpent>
        ensures spent { (start : Start) (calls : List ProposerCall) → StateAfter start calls self.old
            → IsErr result ↔ (max_round ≤ max seen_round (highest_begun start.highest_round calls)) }
        ensures ballot { IfOk result (λ ballot. (start : Start) (calls : List ProposerCall) → StateAfter start calls self.old
            → ballot ≡ next_ballot start.me (highest_begun start.highest_round calls) seen_round) }
        ensures stands { IfOk result (λ ballot. (start : Start) (calls : List ProposerCall) → StateAfter start calls self.old
            → StateAfter start (calls ++ Begins (record {
              slot = slot;
              reach = AllFrom;
              seen_round = seen_round;
              candidate = candidate;
              ballot = ballot;
            }) ∷ []) self.new) }
        ensures opens { IfOk result (λ ballot. attempt_of self.new ≡ Some (slot, ballot)) }
        ensures limit { IsErr result ↔ (max_round ≤ max seen_round self.old.highest_round) }
        ensures next { IfOk result (λ ballot. ballot ≡ next_ballot self.old.me self.old.highest_round seen_round) }
        ensures node { self.new.me ≡ self.old.me }
        ensures round { IfOk result (λ ballot. self.new.highest_round ≡ ballot.round) }
        ensures err { OnErr result (self.new ≡ self.old) }
    {
        let ballot = self.next_ballot(seen_round)?;
        self.highest_round = ballot.round();
        self.attempt = Some(Attempt::new_from(slot, ballot, candidate));
        Ok(ballot)
    }

    /// Counts a promise of all slots from one on, as `on_promise` does one of one slot: an attempt for all slots from
    /// one on counts these alone, and another none of them. The slots of the reports rise from the promise's slot on,
    /// as a message's do; else it counts nothing. The Accept is for the first slot, by what is reported of that. What
    /// is reported of the slots behind it is kept for `go_on`, also of promises that come after the majority.
    pub fn on_promise_from(
        &mut self,
        sender: NodeId,
        slot: Slot,
        ballot: Ballot,
        reports: Vec<(Slot, Acceptance)>,
    ) -> Option<(Slot, Ballot, Value)>
        ensures answers { (start : Start) (calls : List ProposerCall) → StateAfter start calls self.old
            → AnswersFrom start.members calls
            (record { sender = sender; slot = slot; ballot = ballot; reports = reports.items }) result }
        ensures stands { (start : Start) (calls : List ProposerCall) → StateAfter start calls self.old
            → StateAfter start (calls ++ PromisesFrom
            (record { sender = sender; slot = slot; ballot = ballot; reports = reports.items }) ∷ []) self.new }
        ensures attempt { attempt_of self.new ≡ attempt_of self.old }
        ensures node { self.new.me ≡ self.old.me }
        ensures round { self.new.highest_round ≡ self.old.highest_round }
    {
        let members = self.members;
        count_from_in(&mut self.attempt, members, sender, slot, ballot, reports)
    }

    /// What `on_promise_from` would give, with a copy of the value. Only that copy takes memory.
    pub fn see_on_promise_from(
        &self,
        sender: NodeId,
        slot: Slot,
        ballot: Ballot,
        reports: &[(Slot, Acceptance)],
    ) -> Result<Option<(Slot, Ballot, Value)>, OutOfMemory>
        ensures answers { IfOk result (λ answer. (start : Start) (calls : List ProposerCall) → StateAfter start calls self.now
            → AnswersFrom start.members calls
            (record { sender = sender; slot = slot; ballot = ballot; reports = reports.now }) answer) }
        ensures memory { OnErr result ((start : Start) (calls : List ProposerCall) → StateAfter start calls self.now
            → AnswersFrom start.members calls
            (record { sender = sender; slot = slot; ballot = ballot; reports = reports.now }) None → ⊥) }
    {
        match &self.attempt {
            Some(attempt) => {
                see_count_from_in(attempt, self.members, sender, slot, ballot, reports)
            }
            None => Ok(None),
        }
    }

    /// The slot for which `go_on` would give an Accept, `None` where it would give none.
    pub fn next(&self) -> Option<Slot>
        ensures { (start : Start) (calls : List ProposerCall) → StateAfter start calls self.now
            → IsNext start.members calls result }
    {
        match &self.attempt {
            Some(attempt) => next_for(attempt),
            None => None,
        }
    }

    /// Whether the promises that count report something of that slot or of one behind it; false where there is none.
    pub fn has_report_ahead(&self) -> bool
        ensures { (start : Start) (calls : List ProposerCall) → StateAfter start calls self.now
            → IsTrue result ↔ HasReportAhead start.members calls }
    {
        match &self.attempt {
            Some(attempt) => has_report_ahead_for(attempt),
            None => false,
        }
    }

    /// Goes on to the next slot, and gives the Accept for it: the value of the report of the highest ballot among the
    /// promises that count (the first counted, where ballots are equal), or the candidate where nothing is reported of
    /// it. It gives nothing, and changes nothing, where no attempt for all slots from one on is open and has its
    /// majority, and where no slot is left.
    pub fn go_on(&mut self, candidate: Value) -> Option<(Slot, Ballot, Value)>
        ensures answers { (start : Start) (calls : List ProposerCall) → StateAfter start calls self.old
            → GoesOnWith start.members calls candidate result }
        ensures stands { OnSome result ((start : Start) (calls : List ProposerCall) → StateAfter start calls self.old
            → StateAfter start (calls ++ GoesOn candidate ∷ []) self.new) }
        ensures none { IfNone result (self.new ≡ self.old) }
        ensures attempt { attempt_of self.new ≡ attempt_of self.old }
        ensures node { self.new.me ≡ self.old.me }
        ensures round { self.new.highest_round ≡ self.old.highest_round }
    {
        go_on_in(&mut self.attempt, candidate)
    }

    /// What `go_on` would give, with a copy of the value. Only that copy takes memory.
    pub fn see_go_on(&self, candidate: &Value) -> Result<Option<(Slot, Ballot, Value)>, OutOfMemory>
        ensures answers { IfOk result (λ answer. (start : Start) (calls : List ProposerCall) → StateAfter start calls self.now
            → GoesOnWith start.members calls candidate.now answer) }
        ensures memory { OnErr result ((start : Start) (calls : List ProposerCall) → StateAfter start calls self.now
            → GoesOnWith start.members calls candidate.now None → ⊥) }
    {
        match &self.attempt {
            Some(attempt) => see_go_on_for(attempt, candidate),
            None => Ok(None),
        }
    }
}

// Counts a promise of all slots from one on for what is held.
fn count_from_in(
    held: &mut Option<Attempt>,
    members: Members,
    sender: NodeId,
    slot: Slot,
    ballot: Ballot,
    reports: Vec<(Slot, Acceptance)>,
) -> Option<(Slot, Ballot, Value)>
    ensures answers { (calls : List ProposerCall) → HoldsOpen members calls held.old → AnswersFrom members calls
        (record { sender = sender; slot = slot; ballot = ballot; reports = reports.items }) result }
    ensures stands { (calls : List ProposerCall) → HoldsOpen members calls held.old → HoldsOpen members (calls ++ PromisesFrom
        (record { sender = sender; slot = slot; ballot = ballot; reports = reports.items }) ∷ []) held.new }
{
    match held {
        Some(attempt) => count_from_for(attempt, members, sender, slot, ballot, reports),
        None => None,
    }
}

fn count_from_for(
    attempt: &mut Attempt,
    members: Members,
    sender: NodeId,
    slot: Slot,
    ballot: Ballot,
    reports: Vec<(Slot, Acceptance)>,
) -> Option<(Slot, Ballot, Value)>
    ensures answers { (calls : List ProposerCall) → Holds members calls attempt.old → AnswersFrom members calls
        (record { sender = sender; slot = slot; ballot = ballot; reports = reports.items }) result }
    ensures stands { (calls : List ProposerCall) → Holds members calls attempt.old → Holds members (calls ++ PromisesFrom
        (record { sender = sender; slot = slot; ballot = ballot; reports = reports.items }) ∷ []) attempt.new }
{
    if !rise_from(reports.as_slice(), slot) {
        return None;
    }
    if !attempt.would_count_from(members, sender, slot, ballot) {
        return None;
    }
    // the type keeps that there are no more members than places for reports
    let _most = members.count();
    let value = attempt.count_from(members, sender, Reports::new(reports))?;
    Some((slot, ballot, value))
}

// What `count_from_in` would give for an attempt.
fn see_count_from_in(
    attempt: &Attempt,
    members: Members,
    sender: NodeId,
    slot: Slot,
    ballot: Ballot,
    reports: &[(Slot, Acceptance)],
) -> Result<Option<(Slot, Ballot, Value)>, OutOfMemory>
    ensures answers { IfOk result (λ answer. (calls : List ProposerCall) → Holds members calls attempt.now
        → AnswersFrom members calls
        (record { sender = sender; slot = slot; ballot = ballot; reports = reports.now }) answer) }
    ensures memory { OnErr result ((calls : List ProposerCall) → Holds members calls attempt.now
        → AnswersFrom members calls
        (record { sender = sender; slot = slot; ballot = ballot; reports = reports.now }) None → ⊥) }
{
    if !rise_from(reports, slot) {
        return Ok(None);
    }
    if !attempt.would_count_from(members, sender, slot, ballot) {
        return Ok(None);
    }
    match attempt.see_count(members, sender, report_at(reports, slot))? {
        Some(value) => Ok(Some((slot, ballot, value))),
        None => Ok(None),
    }
}

// Goes on with what is held.
fn go_on_in(held: &mut Option<Attempt>, candidate: Value) -> Option<(Slot, Ballot, Value)>
    ensures answers { (members : ℕ) (calls : List ProposerCall) → HoldsOpen members calls held.old
        → GoesOnWith members calls candidate result }
    ensures stands { OnSome result ((members : ℕ) (calls : List ProposerCall) → HoldsOpen members calls held.old
        → HoldsOpen members (calls ++ GoesOn candidate ∷ []) held.new) }
    ensures none { IfNone result (held.new ≡ held.old) }
    ensures attempt { place_of held.new ≡ place_of held.old }
{
    match held {
        Some(attempt) => go_on_for(attempt, candidate),
        None => None,
    }
}

fn go_on_for(attempt: &mut Attempt, candidate: Value) -> Option<(Slot, Ballot, Value)>
    ensures answers { (members : ℕ) (calls : List ProposerCall) → Holds members calls attempt.old
        → GoesOnWith members calls candidate result }
    ensures stands { OnSome result ((members : ℕ) (calls : List ProposerCall) → Holds members calls attempt.old
        → Holds members (calls ++ GoesOn candidate ∷ []) attempt.new) }
    ensures none { IfNone result (attempt.new ≡ attempt.old) }
    ensures slot { attempt.new.slot ≡ attempt.old.slot }
    ensures ballot { attempt.new.ballot ≡ attempt.old.ballot }
{
    next_for(attempt)?;
    let ballot = attempt.ballot;
    let (slot, value) = attempt.go_on(candidate)?;
    Some((slot, ballot, value))
}

// What `go_on_in` would give for an attempt.
fn see_go_on_for(
    attempt: &Attempt,
    candidate: &Value,
) -> Result<Option<(Slot, Ballot, Value)>, OutOfMemory>
    ensures answers { IfOk result (λ answer. (members : ℕ) (calls : List ProposerCall) → Holds members calls attempt.now
        → GoesOnWith members calls candidate.now answer) }
    ensures memory { OnErr result ((members : ℕ) (calls : List ProposerCall) → Holds members calls attempt.now
        → GoesOnWith members calls candidate.now None → ⊥) }
{
    if next_for(attempt).is_none() {
        return Ok(None);
    }
    let ballot = attempt.ballot;
    match attempt.see_go_on(candidate)? {
        Some(given) => Ok(Some((given.0, ballot, given.1))),
        None => Ok(None),
    }
}

// The slot that an attempt may go on to.
fn next_for(attempt: &Attempt) -> Option<Slot>
    ensures { (members : ℕ) (calls : List ProposerCall) → Holds members calls attempt.now → IsNext members calls result }
{
    if !attempt.has_majority() {
        return None;
    }
    match &attempt.ahead {
        Some(ahead) => ahead.next(),
        None => None,
    }
}

// Whether something is reported of that slot or of one behind it.
fn has_report_ahead_for(attempt: &Attempt) -> bool
    ensures { (members : ℕ) (calls : List ProposerCall) → Holds members calls attempt.now
        → IsTrue result ↔ HasReportAhead members calls }
{
    next_for(attempt).is_some() && attempt.has_reports()
}
