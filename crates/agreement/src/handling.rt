//! What a node learns of the acceptances and the decisions that it is told.

ghost use Rattle.std.specs.Prelude.{◌≡◌, ℕ, ◌<◌, [], ◌∷◌, ◌++◌, List, Option, None, Some, IfOk, OnOk, OnErr};
ghost use Rattle.std.specs.Option.{option_or};
ghost use Rattle.ballots.specs.Slots.{OthersStay};
ghost use Rattle.ballots.specs.declared.value.Value.{Value as Held};
ghost use Rattle.ballots.specs.declared.message.Body.TheVariants as body;
ghost use Rattle.learner.specs.Calls.{LearnerCall, slot_of, Learns};
ghost use Rattle.learner.specs.Calls as learner_call;
ghost use Rattle.learner.specs.Changes.{LearnsNow, DecidedNow};
ghost use Rattle.learner.specs.State.{HasRoomToLearn, HasRoomForVote, decided_at as learned_at};
ghost use Rattle.decided_log.specs.Decided.{IsPrefix, IsSame};
ghost use Rattle.decided_log.specs.LogState.{decided_at};
ghost use Rattle.agreement_rules.specs.Views.{Views};
ghost use Rattle.agreement.specs.State.{Has};
ghost use Rattle.agreement.specs.Step.{Gains, Grows, HasRoomForLearned, StepIsDue, IsReady, StaysAsItWas};

use crate::agreement::Agreement;
use crate::step::{AgreementStep, Change};
use ballots::{Acceptance, NodeId, OutOfMemory, Slot, Value};
use decided_log::DecidedLog;
use learner::laws::{a_call_adds_to_its_slot, states_are_what_was_learned};
use std::alloc::Global;

impl Agreement {
    /// What is due to an Accepted: it is counted, and with the one that makes a majority the slot learns, by which the
    /// prefix may grow (section 2.3). Nothing goes out. Room is made; what the node stands by stays as it was, also where
    /// memory is refused.
    pub fn handle_accepted(
        &mut self,
        seen_round: u32,
        sender: NodeId,
        slot: Slot,
        acceptance: Acceptance,
    ) -> Result<AgreementStep, OutOfMemory>
        requires { slot < self.old.config.slot_limit }
        ensures gives { IfOk result (StepIsDue self.old seen_round sender slot (body.Accepted acceptance)) }
        ensures ready { IfOk result (IsReady self.old self.new) }
        ensures err { OnErr result (StaysAsItWas self.old self.new) }
        ensures me { self.new.me ≡ self.old.me }
        ensures config { self.new.config ≡ self.old.config }
    {
        let learned = self.see_accepted(sender, slot, &acceptance)?;
        let grown = self.see_growth(slot, &learned)?;
        let change = Change::Accepted {
            sender,
            slot,
            acceptance,
            learned,
        };
        Ok(gaining(self.alloc, grown, seen_round, change))
    }

    /// What is due to a Decided: the slot learns its value, where it has learned none, by which the prefix may grow
    /// (section 2.3). Nothing goes out. Room is made; what the node stands by stays as it was, also where memory is
    /// refused.
    pub fn handle_decided(
        &mut self,
        seen_round: u32,
        slot: Slot,
        value: Value,
    ) -> Result<AgreementStep, OutOfMemory>
        requires { slot < self.old.config.slot_limit }
        ensures gives { IfOk result
            (λ step. (sender : ℕ) → StepIsDue self.old seen_round sender slot (body.Decided value) step) }
        ensures ready { IfOk result (IsReady self.old self.new) }
        ensures err { OnErr result (StaysAsItWas self.old self.new) }
        ensures me { self.new.me ≡ self.old.me }
        ensures config { self.new.config ≡ self.old.config }
    {
        let learned = self.see_decided(slot, &value)?;
        let grown = self.see_growth(slot, &learned)?;
        let change = Change::Decided {
            slot,
            value,
            learned,
        };
        Ok(gaining(self.alloc, grown, seen_round, change))
    }

    // What the slot learns by an acceptance; the learner has the room for it then.
    fn see_accepted(
        &mut self,
        sender: NodeId,
        slot: Slot,
        acceptance: &Acceptance,
    ) -> Result<Option<Value>, OutOfMemory>
        ensures learns { IfOk result (λ learned. (views : Views) → Has self.old views
            → Learns self.old.config.members views.learner_calls
            (learner_call.Accepted sender slot acceptance.now.ballot acceptance.now.value) slot learned) }
        ensures now { IfOk result
            (LearnsNow self.new.learner sender slot acceptance.now.ballot acceptance.now.value) }
        ensures room { OnOk result (HasRoomForVote self.new.learner sender slot acceptance.now.ballot) }
        ensures stays { StaysAsItWas self.old self.new }
        ensures me { self.new.me ≡ self.old.me }
        ensures config { self.new.config ≡ self.old.config }
    {
        states_are_what_was_learned();
        self.learner
            .see_on_accepted(sender, slot, acceptance.ballot, &acceptance.value)
    }

    // What the slot learns by a decision; the learner has the room for it then.
    fn see_decided(&mut self, slot: Slot, value: &Value) -> Result<Option<Value>, OutOfMemory>
        ensures learns { IfOk result (λ learned. (views : Views) → Has self.old views
            → Learns self.old.config.members views.learner_calls (learner_call.Decided slot value.now) slot learned) }
        ensures now { IfOk result (DecidedNow (learned_at self.new.learner slot) value.now) }
        ensures room { OnOk result (HasRoomToLearn self.new.learner slot) }
        ensures stays { StaysAsItWas self.old self.new }
        ensures me { self.new.me ≡ self.old.me }
        ensures config { self.new.config ≡ self.old.config }
    {
        states_are_what_was_learned();
        self.learner.see_on_decided(slot, value)
    }

    // By which values the prefix grows where the slot learns this; the log has the room for it then.
    fn see_growth(&mut self, slot: Slot, learned: &Option<Value>) -> Result<Vec<Value>, OutOfMemory>
        ensures grows { IfOk result (λ grown. (views : Views) (call : LearnerCall) → Has self.old views
            → slot_of call ≡ slot → Learns self.old.config.members views.learner_calls call slot learned.now
            → Grows self.old.config.members views.learner_calls (views.learner_calls ++ call ∷ []) grown.items) }
        ensures room { OnOk result (HasRoomForLearned self.new.log learned.now) }
        ensures stays { StaysAsItWas self.old self.new }
        ensures learner { self.new.learner ≡ self.old.learner }
        ensures me { self.new.me ≡ self.old.me }
        ensures config { self.new.config ≡ self.old.config }
    {
        states_are_what_was_learned();
        a_call_adds_to_its_slot();
        gain(self.alloc, &mut self.log, slot, learned)
    }
}

// The values by which the log's prefix grows where the slot gets this; the log has the room for it then.
fn gain(
    alloc: Global,
    log: &mut DecidedLog,
    slot: Slot,
    learned: &Option<Value>,
) -> Result<Vec<Value>, OutOfMemory>
    ensures grows { IfOk result (λ grown. (prefix : List Held) (after : ℕ → Option Held)
        → IsPrefix (decided_at log.old) prefix → after slot ≡ option_or (decided_at log.old slot) learned.now
        → OthersStay (decided_at log.old) after slot → IsPrefix after (prefix ++ grown.items)) }
    ensures room { OnOk result (HasRoomForLearned log.new learned.now) }
    ensures same { IsSame (decided_at log.old) (decided_at log.new) }
    ensures node { log.new.node ≡ log.old.node }
{
    match learned {
        Some(value) => log.gain(slot, value),
        None => Ok(Vec::new(alloc)),
    }
}

// A step that sends nothing, and grows the prefix by these values.
fn gaining(alloc: Global, grown: Vec<Value>, seen_round: u32, change: Change) -> AgreementStep
    ensures { Gains result grown.items seen_round change }
{
    AgreementStep {
        sends: Vec::new(alloc),
        grown,
        seen_round,
        change,
    }
}
