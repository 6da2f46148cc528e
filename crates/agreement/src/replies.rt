//! What an acceptor's part of a node answers, and what its proposer's and its learner's make of answers.

ghost use Rattle.std.specs.Prelude.{◌≡◌, ℕ, [], ◌∷◌, IfOk, OnErr};
ghost use Rattle.ballots.specs.Ballot.{IsAbove, IsAtLeast};
ghost use Rattle.ballots.specs.Message.{message};
ghost use Rattle.ballots.specs.declared.message.Body.TheVariants as body;
ghost use Rattle.acceptor.specs.AcceptorState.{accepted_at, promised_at};
ghost use Rattle.agreement.specs.declared.step.Change.TheVariants.{Nothing};
ghost use Rattle.agreement.specs.Step.{Sends, StepIsDue, IsReady, StaysAsItWas};

use crate::agreement::Agreement;
use crate::step::{AgreementStep, Change};
use acceptor::Acceptor;
use ballots::{Acceptance, Ballot, Body, Message, NodeId, OutOfMemory, Record, Slot};
use std::alloc::Global;

// A step that sends this message alone.
pub(crate) fn sending(
    alloc: Global,
    message: Message,
    seen_round: u32,
    change: Change,
) -> Result<AgreementStep, OutOfMemory>
    ensures { IfOk result (λ step. Sends step (message ∷ []) seen_round change) }
{
    let mut sends = Vec::new(alloc);
    sends.push(message)?;
    Ok(AgreementStep {
        sends,
        grown: Vec::new(alloc),
        seen_round,
        change,
    })
}

// What the slot has accepted, as a report has it.
fn report_of(acceptor: &Acceptor, slot: Slot) -> Result<Option<Acceptance>, OutOfMemory>
    ensures { IfOk result (λ report. report ≡ accepted_at acceptor.now slot) }
{
    match acceptor.accepted(slot) {
        Some(held) => Ok(Some(held.clone()?)),
        None => Ok(None),
    }
}

impl Agreement {
    /// What is due to a Prepare at this ballot: a promise, where it is above all that the slot has promised, with a
    /// record, and else the refusal that names what it has promised (section 2.2, phase 1b). Room for the record is
    /// made; what the node stands by stays as it was, also where memory is refused.
    pub fn reply_to_prepare(
        &mut self,
        seen_round: u32,
        slot: Slot,
        ballot: Ballot,
    ) -> Result<AgreementStep, OutOfMemory>
        ensures gives { IfOk result
            (λ step. (sender : ℕ) → StepIsDue self.old seen_round sender slot (body.Prepare ballot) step) }
        ensures ready { IfOk result (IsReady self.old self.new) }
        ensures err { OnErr result (StaysAsItWas self.old self.new) }
        ensures me { self.new.me ≡ self.old.me }
        ensures config { self.new.config ≡ self.old.config }
    {
        match self.acceptor.promised(slot) {
            Some(promised) if !promised.is_below(ballot) => self.refuse(
                seen_round, slot, ballot, promised,
            ),
            _ => self.promise(seen_round, slot, ballot),
        }
    }

    /// What is due to an Accept of this proposal: a grant, where its ballot is what the slot has promised or above,
    /// with a record, and else the refusal that names what it has promised (section 2.2, phase 2b). Room for the record is
    /// made; what the node stands by stays as it was, also where memory is refused.
    pub fn reply_to_accept(
        &mut self,
        seen_round: u32,
        slot: Slot,
        proposal: Acceptance,
    ) -> Result<AgreementStep, OutOfMemory>
        ensures gives { IfOk result
            (λ step. (sender : ℕ) → StepIsDue self.old seen_round sender slot (body.Accept proposal) step) }
        ensures ready { IfOk result (IsReady self.old self.new) }
        ensures err { OnErr result (StaysAsItWas self.old self.new) }
        ensures me { self.new.me ≡ self.old.me }
        ensures config { self.new.config ≡ self.old.config }
    {
        match self.acceptor.promised(slot) {
            Some(promised) if proposal.ballot.is_below(promised) => {
                self.refuse(seen_round, slot, proposal.ballot, promised)
            }
            _ => self.accept(seen_round, slot, proposal),
        }
    }

    fn promise(
        &mut self,
        seen_round: u32,
        slot: Slot,
        ballot: Ballot,
    ) -> Result<AgreementStep, OutOfMemory>
        requires { IsAbove ballot (promised_at self.old.acceptor slot) }
        ensures gives { IfOk result
            (λ step. (sender : ℕ) → StepIsDue self.old seen_round sender slot (body.Prepare ballot) step) }
        ensures ready { IfOk result (IsReady self.old self.new) }
        ensures err { OnErr result (StaysAsItWas self.old self.new) }
        ensures me { self.new.me ≡ self.old.me }
        ensures config { self.new.config ≡ self.old.config }
    {
        let report = report_of(&self.acceptor, slot)?;
        self.acceptor.make_room(slot)?;
        let reply = Message {
            sender: self.me,
            slot,
            body: Body::Promise { ballot, report },
        };
        let kept = Record::Promised(slot, ballot);
        sending(self.alloc, reply, seen_round, Change::Answered(kept))
    }

    fn accept(
        &mut self,
        seen_round: u32,
        slot: Slot,
        proposal: Acceptance,
    ) -> Result<AgreementStep, OutOfMemory>
        requires { IsAtLeast proposal.ballot (promised_at self.old.acceptor slot) }
        ensures gives { IfOk result
            (λ step. (sender : ℕ) → StepIsDue self.old seen_round sender slot (body.Accept proposal) step) }
        ensures ready { IfOk result (IsReady self.old self.new) }
        ensures err { OnErr result (StaysAsItWas self.old self.new) }
        ensures me { self.new.me ≡ self.old.me }
        ensures config { self.new.config ≡ self.old.config }
    {
        let kept = proposal.clone()?;
        self.acceptor.make_room(slot)?;
        let reply = Message {
            sender: self.me,
            slot,
            body: Body::Accepted(proposal),
        };
        let kept = Record::Accepted(slot, kept);
        sending(self.alloc, reply, seen_round, Change::Answered(kept))
    }

    // The refusal of a ballot, which names what the slot has promised.
    fn refuse(
        &self,
        seen_round: u32,
        slot: Slot,
        ballot: Ballot,
        promised: Ballot,
    ) -> Result<AgreementStep, OutOfMemory>
        ensures { IfOk result (λ step.
            Sends step (message self.now.me slot (body.Nack ballot promised) ∷ []) seen_round Nothing) }
    {
        let reply = Message {
            sender: self.me,
            slot,
            body: Body::Nack { ballot, promised },
        };
        sending(self.alloc, reply, seen_round, Change::Nothing)
    }
}
