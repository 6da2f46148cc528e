//! What a node has of agreement.

ghost use Rattle.std.specs.Prelude.{◌≡◌, ℕ, ◌<◌, max, IfOk, IsSome, Option, None, Some};
ghost use Rattle.std.specs.Option.{option_or};
ghost use Rattle.ballots.specs.Limits.{max_round};
ghost use Rattle.ballots.specs.Ballot.{Ballot as Pair};
ghost use Rattle.ballots.specs.Slots.{OthersStay};
ghost use Rattle.ballots.specs.declared.value.Value.{Value as Held};
ghost use Rattle.ballots.specs.declared.record.Record.TheVariants as kept_as;
ghost use Rattle.proposer.specs.Attempting.{next_ballot};
ghost use Rattle.decided_log.specs.LogState.{decided_at};
ghost use Rattle.agreement_rules.specs.Views.{Views, started_with};
ghost use Rattle.agreement.specs.declared.step.Change.TheVariants.{Began, Promised, Accepted, Decided};
ghost use Rattle.agreement.specs.State.{Has};
ghost use Rattle.agreement.specs.Step.{left_by, HasRoomForLearned, CanTake, CanCountVote, CanLearn};

use crate::config::AgreementConfig;
use crate::step::{AgreementStep, Change};
use acceptor::laws::applied_is_restored;
use acceptor::{Acceptor, highest_begun_round};
use ballots::{Acceptance, Ballot, NodeId, OutOfMemory, Record, Slot, Value};
use decided_log::DecidedLog;
use learner::Learner;
use proposer::Proposer;
use std::alloc::Global;
use std::marker::Model;

/// One node's part in agreement: its acceptor, proposer and learner, and the log of what is decided.
#[derive(Drop)]
pub struct Agreement {
    pub(crate) alloc: Global,
    pub(crate) me: NodeId,
    pub(crate) config: AgreementConfig,
    pub(crate) seen_round: u32,
    pub(crate) acceptor: Acceptor,
    pub(crate) proposer: Proposer,
    pub(crate) learner: Learner,
    pub(crate) log: DecidedLog,
}

impl Model for Agreement {
    ghost use Rattle.agreement.specs.State.{AgreementState, agreement_code};
    ghost use Rattle.learner.specs.State.{state_code};

    ghost Value = { AgreementState };

    ghost use Rattle.std.specs.Coded.{codes};

    ghost coded = { agreement_code (Prim.hlevel codes) (Prim.hlevel codes)
        (state_code (Prim.hlevel codes) (Prim.hlevel codes) (Prim.hlevel codes) (Prim.hlevel codes))
        (Prim.hlevel codes) };

    ghost view = { λ a. record {
      me = a.me;
      config = a.config;
      seen_round = a.seen_round;
      acceptor = a.acceptor;
      proposer = a.proposer;
      learner = a.learner;
      log = a.log;
    } };
}

impl Agreement {
    /// The node that starts with these records, the first of them kept first, and has nothing else (section 2.5).
    pub fn open(
        alloc: Global,
        me: NodeId,
        config: AgreementConfig,
        records: &[Record],
    ) -> Result<Agreement, OutOfMemory>
        ensures stands { IfOk result (λ node. Has node (started_with records.now)) }
        ensures me { IfOk result (λ node. node.me ≡ me) }
        ensures config { IfOk result (λ node. node.config ≡ config) }
    {
        let members = config.members();
        // the type keeps that there are no more slots than numbers of slots
        let _slots = config.slot_limit();
        let acceptor = Acceptor::from_records(alloc, records)?;
        Ok(Agreement {
            alloc,
            me,
            config,
            seen_round: 0,
            acceptor,
            proposer: Proposer::new(me, members, highest_begun_round(records)),
            learner: Learner::new(alloc, members),
            log: DecidedLog::new(alloc, me),
        })
    }

    /// Takes a step that was decided, and no memory.
    pub fn commit(&mut self, step: AgreementStep)
        requires { CanTake self.old step.change }
        ensures stands { (views : Views) → Has self.old views
            → Has self.new (left_by views step.seen_round step.change) }
        ensures me { self.new.me ≡ self.old.me }
        ensures config { self.new.config ≡ self.old.config }
    {
        self.take(step.change);
        self.seen_round = step.seen_round;
    }

    // Makes a change.
    fn take(&mut self, change: Change)
        requires { CanTake self.old change }
        ensures stands { (views : Views) → Has self.old views → Has self.new (left_by views views.seen_round change) }
        ensures me { self.new.me ≡ self.old.me }
        ensures config { self.new.config ≡ self.old.config }
    {
        match change {
            Change::Nothing => {}
            Change::Answered(kept) => self.acceptor.apply(kept),
            Change::Began {
                slot,
                candidate,
                ..
            } => self.begin(slot, candidate),
            Change::Promised {
                sender,
                slot,
                ballot,
                report,
            } => self.count(sender, slot, ballot, report),
            Change::Refused { slot, ballot } => self.proposer.on_nack(slot, ballot),
            Change::Accepted {
                sender,
                slot,
                acceptance,
                learned,
            } => self.count_vote(sender, slot, acceptance, learned),
            Change::Decided {
                slot,
                value,
                learned,
            } => self.learn(slot, value, learned),
        }
    }

    // Begins an attempt at the next ballot, of which a record was kept.
    fn begin(&mut self, slot: Slot, candidate: Value)
        requires { max self.old.seen_round self.old.proposer.highest_round < max_round }
        ensures stands { (views : Views) (ballot : Pair) → Has self.old views
            → ballot ≡ next_ballot self.old.proposer.me self.old.proposer.highest_round self.old.seen_round
            → Has self.new (left_by views views.seen_round (Began slot candidate ballot (kept_as.Began ballot))) }
        ensures me { self.new.me ≡ self.old.me }
        ensures config { self.new.config ≡ self.old.config }
    {
        applied_is_restored();
        let _ = self.proposer.begin(slot, self.seen_round, candidate);
    }

    // Counts a promise.
    fn count(&mut self, sender: NodeId, slot: Slot, ballot: Ballot, report: Option<Acceptance>)
        ensures stands { (views : Views) → Has self.old views
            → Has self.new (left_by views views.seen_round (Promised sender slot ballot report)) }
        ensures me { self.new.me ≡ self.old.me }
        ensures config { self.new.config ≡ self.old.config }
    {
        self.proposer.on_promise(sender, slot, ballot, report);
    }

    // Counts what an acceptor accepted, and keeps what the slot learns by it.
    fn count_vote(
        &mut self,
        sender: NodeId,
        slot: Slot,
        acceptance: Acceptance,
        learned: Option<Value>,
    )
        requires { CanCountVote self.old sender slot acceptance learned }
        ensures stands { (views : Views) → Has self.old views
            → Has self.new (left_by views views.seen_round (Accepted sender slot acceptance learned)) }
        ensures me { self.new.me ≡ self.old.me }
        ensures config { self.new.config ≡ self.old.config }
    {
        self.learner
            .on_accepted(sender, slot, acceptance.ballot, acceptance.value);
        log_learned(&mut self.log, slot, learned);
    }

    // Learns a decided value.
    fn learn(&mut self, slot: Slot, value: Value, learned: Option<Value>)
        requires { CanLearn self.old slot value learned }
        ensures stands { (views : Views) → Has self.old views
            → Has self.new (left_by views views.seen_round (Decided slot value learned)) }
        ensures me { self.new.me ≡ self.old.me }
        ensures config { self.new.config ≡ self.old.config }
    {
        self.learner.on_decided(slot, value);
        log_learned(&mut self.log, slot, learned);
    }
}

// Keeps what a slot has learned.
fn log_learned(log: &mut DecidedLog, slot: Slot, learned: Option<Value>)
    requires { HasRoomForLearned log.old learned }
    ensures here { (held : Option Held) → (IsSome learned → held ≡ None) → decided_at log.old slot ≡ held
        → decided_at log.new slot ≡ option_or held learned }
    ensures others { OthersStay (decided_at log.old) (decided_at log.new) slot }
    ensures node { log.new.node ≡ log.old.node }
{
    if let Some(value) = learned {
        log.insert(slot, value);
    }
}
