ghost use Rattle.std.specs.Prelude.{◌≡◌, ℕ, ◌≤◌, ◌++◌, ◌∷◌, [], List, max, Option, Some, None};
ghost use Rattle.std.specs.Prelude.{IfOk, OnErr, IsErr, IsTrue, ◌↔◌};
ghost use Rattle.ballots.specs.Limits.{max_round};
ghost use Rattle.proposer.specs.Call.{Start, OneSlot, Begins, Promises, Nacks, ProposerCall};
ghost use Rattle.proposer.specs.Attempting.{highest_begun, next_ballot, IsAttempt, Answers, HasItsMajority};
ghost use Rattle.proposer.specs.Counting.{IsAt};
ghost use Rattle.proposer.specs.State.{StateAfter, HasHistory, Holds, HoldsOpen, attempt_of, IsRefusedBy};

use crate::attempt::Attempt;
use ballots::{Acceptance, Ballot, Members, NodeId, OutOfMemory, Slot, Value};
use std::marker::Model;
use thiserror::Error;

/// No round is left for another attempt.
#[derive(Clone, Copy, Debug, PartialEq, Eq, Error)]
#[error("RoundsSpent")]
pub struct RoundsSpent;

/// A proposer of one node: at most one attempt at a time, to have a value accepted for one slot, or for each slot from
/// one on.
#[derive(Debug, Drop)]
pub struct Proposer {
    pub(crate) me: NodeId,
    pub(crate) members: Members,
    pub(crate) highest_round: u32,
    pub(crate) attempt: Option<Attempt>,
}

impl Model for Proposer {
    ghost use Rattle.proposer.specs.State.{ProposerState, HasHistory};

    ghost Value = { ProposerState };

    ghost view = { λ p. record {
      me = p.me;
      members = p.members;
      highest_round = p.highest_round;
      attempt = p.attempt;
    } };

    ghost invariant = { λ p. HasHistory (record {
      me = p.me;
      members = p.members;
      highest_round = p.highest_round;
      attempt = p.attempt;
    }) };
}

impl Proposer {
    /// A proposer with no attempt, of a node that has begun no ballot above this round (0 where it has begun none).
    pub fn new(me: NodeId, members: Members, highest_round: u32) -> Proposer
        ensures { StateAfter (record { me = me; members = members; highest_round = highest_round }) [] result }
    {
        Proposer {
            me,
            members,
            highest_round,
            attempt: None,
        }
    }

    /// The slot and the ballot of the open attempt, its first slot where it is for all from one on, `None` where none
    /// is open. An attempt stays open after its majority. Each proposer has a history: it was made, and some calls left
    /// it as it is.
    pub fn attempt(&self) -> Option<(Slot, Ballot)>
        ensures value { result ≡ attempt_of self.now }
        ensures history { HasHistory self.now }
        ensures open { (start : Start) (calls : List ProposerCall) → StateAfter start calls self.now → IsAttempt calls result }
    {
        match &self.attempt {
            Some(attempt) => Some((attempt.slot, attempt.ballot)),
            None => None,
        }
    }

    /// Whether the open attempt has its majority, so that its Accept was given; false where none is open.
    pub fn has_majority(&self) -> bool
        ensures { (start : Start) (calls : List ProposerCall) → StateAfter start calls self.now
            → IsTrue result ↔ HasItsMajority start.members calls }
    {
        match &self.attempt {
            Some(attempt) => attempt.has_majority(),
            None => false,
        }
    }

    /// Begins an attempt to have the candidate accepted for the slot, in place of an older attempt, and gives its
    /// ballot: one round above what the node has seen and above all that it has begun. [`RoundsSpent`] where no round
    /// is left, and then all is as before.
    pub fn begin(
        &mut self,
        slot: Slot,
        seen_round: u32,
        candidate: Value,
    ) -> Result<Ballot, RoundsSpent>
        ensures spent { (start : Start) (calls : List ProposerCall) → StateAfter start calls self.old
            → IsErr result ↔ (max_round ≤ max seen_round (highest_begun start.highest_round calls)) }
        ensures ballot { IfOk result (λ ballot. (start : Start) (calls : List ProposerCall) → StateAfter start calls self.old
            → ballot ≡ next_ballot start.me (highest_begun start.highest_round calls) seen_round) }
        ensures stands { IfOk result (λ ballot. (start : Start) (calls : List ProposerCall) → StateAfter start calls self.old
            → StateAfter start (calls ++ Begins (record {
              slot = slot;
              reach = OneSlot;
              seen_round = seen_round;
              candidate = candidate;
              ballot = ballot;
            }) ∷ []) self.new) }
        ensures opens { IfOk result (λ ballot. attempt_of self.new ≡ Some (slot, ballot)) }
        ensures limit { IsErr result ↔ (max_round ≤ max seen_round self.old.highest_round) }
        ensures next { IfOk result (λ ballot. ballot ≡ next_ballot self.old.me self.old.highest_round seen_round) }
        ensures node { self.new.me ≡ self.old.me }
        ensures round { IfOk result (λ ballot. self.new.highest_round ≡ ballot.round) }
        ensures err { OnErr result (self.new ≡ self.old) }
    {
        let ballot = self.next_ballot(seen_round)?;
        self.highest_round = ballot.round();
        self.attempt = Some(Attempt::new(slot, ballot, candidate));
        Ok(ballot)
    }

    /// What `begin` would give, and `begin_from`.
    pub fn see_begin(
        &self,
        _slot: Slot,
        seen_round: u32,
        _candidate: &Value,
    ) -> Result<Ballot, RoundsSpent>
        ensures spent { (start : Start) (calls : List ProposerCall) → StateAfter start calls self.now
            → IsErr result ↔ (max_round ≤ max seen_round (highest_begun start.highest_round calls)) }
        ensures ballot { IfOk result (λ ballot. (start : Start) (calls : List ProposerCall) → StateAfter start calls self.now
            → ballot ≡ next_ballot start.me (highest_begun start.highest_round calls) seen_round) }
        ensures limit { IsErr result ↔ (max_round ≤ max seen_round self.now.highest_round) }
        ensures next { IfOk result (λ ballot. ballot ≡ next_ballot self.now.me self.now.highest_round seen_round) }
    {
        self.next_ballot(seen_round)
    }

    /// Counts a promise for the open attempt's slot and ballot: of members, each once, whatever else it sends. With the
    /// promise that makes the counted senders a majority it gives the Accept to send: the value of the report of the
    /// highest ballot (the first counted, where ballots are equal), or the candidate where nothing is reported. An
    /// attempt gives one Accept at most.
    pub fn on_promise(
        &mut self,
        sender: NodeId,
        slot: Slot,
        ballot: Ballot,
        report: Option<Acceptance>,
    ) -> Option<(Slot, Ballot, Value)>
        ensures answers { (start : Start) (calls : List ProposerCall) → StateAfter start calls self.old
            → Answers start.members calls
            (record { sender = sender; slot = slot; ballot = ballot; report = report }) result }
        ensures stands { (start : Start) (calls : List ProposerCall) → StateAfter start calls self.old
            → StateAfter start (calls ++ Promises
            (record { sender = sender; slot = slot; ballot = ballot; report = report }) ∷ []) self.new }
        ensures attempt { attempt_of self.new ≡ attempt_of self.old }
        ensures node { self.new.me ≡ self.old.me }
        ensures round { self.new.highest_round ≡ self.old.highest_round }
    {
        let members = self.members;
        count_in(&mut self.attempt, members, sender, slot, ballot, report)
    }

    /// What `on_promise` would give, with a copy of the value. Only that copy takes memory.
    pub fn see_on_promise(
        &self,
        sender: NodeId,
        slot: Slot,
        ballot: Ballot,
        report: &Option<Acceptance>,
    ) -> Result<Option<(Slot, Ballot, Value)>, OutOfMemory>
        ensures answers { IfOk result (λ answer. (start : Start) (calls : List ProposerCall) → StateAfter start calls self.now
            → Answers start.members calls
            (record { sender = sender; slot = slot; ballot = ballot; report = report.now }) answer) }
        ensures memory { OnErr result ((start : Start) (calls : List ProposerCall) → StateAfter start calls self.now
            → Answers start.members calls
            (record { sender = sender; slot = slot; ballot = ballot; report = report.now }) None → ⊥) }
    {
        match &self.attempt {
            Some(attempt) => see_count_in(attempt, self.members, sender, slot, ballot, report),
            None => Ok(None),
        }
    }

    /// Ends the attempt of this slot and ballot, if it is open: a member has promised a higher one. An attempt for all
    /// slots from one on is ended by one of any of these slots, also before its majority.
    pub fn on_nack(&mut self, slot: Slot, ballot: Ballot)
        ensures stands { (start : Start) (calls : List ProposerCall) → StateAfter start calls self.old
            → StateAfter start (calls ++ Nacks slot ballot ∷ []) self.new }
        ensures node { self.new.me ≡ self.old.me }
        ensures round { self.new.highest_round ≡ self.old.highest_round }
        ensures own { attempt_of self.old ≡ Some (slot, ballot) → attempt_of self.new ≡ None }
        ensures ends { IsRefusedBy self.old slot ballot → attempt_of self.new ≡ None }
        ensures stays { (IsRefusedBy self.old slot ballot → ⊥) → attempt_of self.new ≡ attempt_of self.old }
    {
        end_at(&mut self.attempt, slot, ballot);
    }

    /// What `on_nack` would give, which is nothing.
    pub fn see_on_nack(&self, _slot: Slot, _ballot: Ballot) {}

    // The node's next ballot.
    pub(crate) fn next_ballot(&self, seen_round: u32) -> Result<Ballot, RoundsSpent>
        ensures spent { IsErr result ↔ (max_round ≤ max seen_round self.now.highest_round) }
        ensures ballot { IfOk result (λ ballot. ballot ≡ next_ballot self.now.me self.now.highest_round seen_round) }
    {
        match Ballot::above(seen_round.max(self.highest_round), self.me) {
            Some(ballot) => Ok(ballot),
            None => Err(RoundsSpent),
        }
    }
}

// Counts a promise for what is held.
fn count_in(
    held: &mut Option<Attempt>,
    members: Members,
    sender: NodeId,
    slot: Slot,
    ballot: Ballot,
    report: Option<Acceptance>,
) -> Option<(Slot, Ballot, Value)>
    ensures answers { (calls : List ProposerCall) → HoldsOpen members calls held.old
        → Answers members calls (record { sender = sender; slot = slot; ballot = ballot; report = report }) result }
    ensures stands { (calls : List ProposerCall) → HoldsOpen members calls held.old
        → HoldsOpen members (calls ++ Promises
        (record { sender = sender; slot = slot; ballot = ballot; report = report }) ∷ []) held.new }
{
    match held {
        Some(attempt) => count_for(attempt, members, sender, slot, ballot, report),
        None => None,
    }
}

fn count_for(
    attempt: &mut Attempt,
    members: Members,
    sender: NodeId,
    slot: Slot,
    ballot: Ballot,
    report: Option<Acceptance>,
) -> Option<(Slot, Ballot, Value)>
    ensures answers { (calls : List ProposerCall) → Holds members calls attempt.old
        → Answers members calls (record { sender = sender; slot = slot; ballot = ballot; report = report }) result }
    ensures stands { (calls : List ProposerCall) → Holds members calls attempt.old
        → Holds members (calls ++ Promises
        (record { sender = sender; slot = slot; ballot = ballot; report = report }) ∷ []) attempt.new }
{
    if !attempt.would_count(members, sender, slot, ballot) {
        return None;
    }
    let value = attempt.count(members, sender, report)?;
    Some((slot, ballot, value))
}

// What `count_for` would give.
fn see_count_in(
    attempt: &Attempt,
    members: Members,
    sender: NodeId,
    slot: Slot,
    ballot: Ballot,
    report: &Option<Acceptance>,
) -> Result<Option<(Slot, Ballot, Value)>, OutOfMemory>
    ensures answers { IfOk result (λ answer. (calls : List ProposerCall) → Holds members calls attempt.now
        → Answers members calls
        (record { sender = sender; slot = slot; ballot = ballot; report = report.now }) answer) }
    ensures memory { OnErr result ((calls : List ProposerCall) → Holds members calls attempt.now
        → Answers members calls
        (record { sender = sender; slot = slot; ballot = ballot; report = report.now }) None → ⊥) }
{
    if !attempt.would_count(members, sender, slot, ballot) {
        return Ok(None);
    }
    match attempt.see_count(members, sender, report.as_ref())? {
        Some(value) => Ok(Some((slot, ballot, value))),
        None => Ok(None),
    }
}

// Ends what is held, if it is of this slot and ballot.
fn end_at(held: &mut Option<Attempt>, slot: Slot, ballot: Ballot)
    ensures stands { (members : ℕ) (calls : List ProposerCall) → HoldsOpen members calls held.old
        → HoldsOpen members (calls ++ Nacks slot ballot ∷ []) held.new }
    ensures ends { IsAt held.old slot ballot → held.new ≡ None }
    ensures stays { (IsAt held.old slot ballot → ⊥) → held.new ≡ held.old }
{
    if is_at(held, slot, ballot) {
        *held = None;
    }
}

// Whether what is held is of this slot and ballot.
fn is_at(held: &Option<Attempt>, slot: Slot, ballot: Ballot) -> bool
    ensures { IsTrue result ↔ IsAt held.now slot ballot }
{
    match held {
        Some(attempt) => attempt.is_at(slot, ballot),
        None => false,
    }
}
