//! How a node begins an attempt.

ghost use Rattle.std.specs.Prelude.{◌≡◌, ◌↔◌, ℕ, ◌<◌, [], ◌∷◌, Some, IfOk, IfErr, IsTrue, max};
ghost use Rattle.ballots.specs.Limits.{max_round};
ghost use Rattle.ballots.specs.Message.{message};
ghost use Rattle.ballots.specs.declared.message.Body.TheVariants as body;
ghost use Rattle.ballots.specs.declared.record.Record.TheVariants as kept_as;
ghost use Rattle.proposer.specs.Attempting.{next_ballot};
ghost use Rattle.agreement.specs.declared.step.Change.TheVariants.{Began};
ghost use Rattle.agreement.specs.declared.refusal.Refusal.TheVariants as refusal;
ghost use Rattle.agreement.specs.Step.{Sends, AttemptGives, CanTake};

use crate::agreement::Agreement;
use crate::refusal::Refusal;
use crate::replies::sending;
use crate::step::{AgreementStep, Change};
use ballots::{Ballot, Body, Message, Record, Slot, Value};

impl Agreement {
    /// Begins an attempt to have the value chosen for the slot, at the node's next ballot, with a record of it and a
    /// Prepare (section 2.2, phase 1a). [`Refusal::SlotsSpent`] exactly where there is no such slot, else
    /// [`Refusal::RoundsSpent`] exactly where no round is left; nothing changes before the step is taken.
    pub fn plan_attempt(&self, slot: Slot, candidate: Value) -> Result<AgreementStep, Refusal>
        ensures gives { AttemptGives self.now slot candidate result }
        ensures grows { IfOk result (λ step. step.grown.items ≡ []) }
        ensures can { IfOk result (λ step. CanTake self.now step.change) }
    {
        if slot.number() >= self.config.slot_limit() {
            return Err(Refusal::SlotsSpent);
        }
        match self.proposer.see_begin(slot, self.seen_round, &candidate) {
            Ok(ballot) => self.attempt_at(slot, candidate, ballot),
            Err(_) => Err(Refusal::RoundsSpent),
        }
    }

    /// Whether a round is left for an attempt, for this slot as for any other: where none is, [`Agreement::plan_attempt`]
    /// tells [`Refusal::RoundsSpent`]. It takes no memory, so a caller can ask before it makes a candidate.
    pub fn has_round_left(&self, slot: Slot) -> bool
        ensures { IsTrue result ↔ (max self.now.seen_round self.now.proposer.highest_round < max_round) }
    {
        self.proposer
            .see_begin(slot, self.seen_round, &Value::Noop)
            .is_ok()
    }

    // The attempt at this ballot.
    fn attempt_at(
        &self,
        slot: Slot,
        candidate: Value,
        ballot: Ballot,
    ) -> Result<AgreementStep, Refusal>
        ensures sends { IfOk result (λ step. Sends step (message self.now.me slot (body.Prepare ballot) ∷ [])
            self.now.seen_round (Began slot candidate ballot (kept_as.Began ballot))) }
        ensures memory { IfErr result (λ fault. fault ≡ refusal.OutOfMemory) }
    {
        let prepare = Message {
            sender: self.me,
            slot,
            body: Body::Prepare { ballot },
        };
        let change = Change::Began {
            slot,
            candidate,
            ballot,
            began: Record::Began(ballot),
        };
        Ok(sending(self.alloc, prepare, self.seen_round, change)?)
    }
}
