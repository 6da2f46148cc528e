//! What a node makes of promises and refusals, and what it tells one that asks.

ghost use Rattle.std.specs.Prelude.{◌≡◌, ℕ, [], IfOk};
ghost use Rattle.ballots.specs.declared.message.Body.TheVariants as body;
ghost use Rattle.ballots.specs.Ballot.{Ballot as Pair};
ghost use Rattle.agreement_rules.specs.Due.{accept_of};
ghost use Rattle.agreement.specs.declared.step.Change.TheVariants.{Nothing};
ghost use Rattle.agreement.specs.Step.{Sends, StepIsDue, CanTake};

use crate::agreement::Agreement;
use crate::replies::sending;
use crate::step::{AgreementStep, Change};
use ballots::{Acceptance, Ballot, Body, Message, NodeId, OutOfMemory, Slot, Value};
use learner::laws::states_are_what_was_learned;
use std::alloc::Global;

// A step that sends these messages.
fn step_with(alloc: Global, sends: Vec<Message>, seen_round: u32, change: Change) -> AgreementStep
    ensures { Sends result sends.items seen_round change }
{
    AgreementStep {
        sends,
        grown: Vec::new(alloc),
        seen_round,
        change,
    }
}

// A step that sends nothing.
pub(crate) fn quiet(alloc: Global, seen_round: u32, change: Change) -> AgreementStep
    ensures { Sends result [] seen_round change }
{
    step_with(alloc, Vec::new(alloc), seen_round, change)
}

// A step that sends the Accept that a majority of promises leads to, if there is one.
fn sending_accept(
    alloc: Global,
    me: NodeId,
    accept: Option<(Slot, Ballot, Value)>,
    seen_round: u32,
    change: Change,
) -> Result<AgreementStep, OutOfMemory>
    ensures { IfOk result (λ step. Sends step (accept_of me accept) seen_round change) }
{
    match accept {
        Some((slot, ballot, value)) => {
            let proposal = Message {
                sender: me,
                slot,
                body: Body::Accept(Acceptance { ballot, value }),
            };
            sending(alloc, proposal, seen_round, change)
        }
        None => Ok(quiet(alloc, seen_round, change)),
    }
}

impl Agreement {
    /// What is due to a Promise: it is counted, and with the one that makes the open attempt's majority the Accept goes
    /// out (section 2.2, phase 2a). Memory can be refused for the message and its value's bytes, and then nothing has
    /// changed.
    pub fn reply_to_promise(
        &self,
        seen_round: u32,
        sender: NodeId,
        slot: Slot,
        ballot: Ballot,
        report: Option<Acceptance>,
    ) -> Result<AgreementStep, OutOfMemory>
        ensures gives { IfOk result (StepIsDue self.now seen_round sender slot (body.Promise ballot report)) }
        ensures can { IfOk result (λ step. CanTake self.now step.change) }
    {
        let accept = self.proposer.see_on_promise(sender, slot, ballot, &report)?;
        let change = Change::Promised {
            sender,
            slot,
            ballot,
            report,
        };
        sending_accept(self.alloc, self.me, accept, seen_round, change)
    }

    /// What is due to a Nack: it ends the attempt that it refuses, and nothing goes out.
    pub fn reply_to_nack(&self, seen_round: u32, slot: Slot, ballot: Ballot) -> AgreementStep
        ensures gives { (sender : ℕ) (promised : Pair)
            → StepIsDue self.now seen_round sender slot (body.Nack ballot promised) result }
        ensures can { CanTake self.now result.change }
    {
        quiet(self.alloc, seen_round, Change::Refused { slot, ballot })
    }

    /// What is due to an Ask: a Decided for each slot of the prefix from this one on, sixteen at most (section 2.3).
    pub fn reply_to_ask(&self, seen_round: u32, slot: Slot) -> Result<AgreementStep, OutOfMemory>
        ensures gives { IfOk result (λ step. (sender : ℕ) → StepIsDue self.now seen_round sender slot body.Ask step) }
        ensures can { IfOk result (λ step. CanTake self.now step.change) }
    {
        states_are_what_was_learned();
        let _prefix = self.log.prefix();
        let messages = self.log.asked(slot)?;
        Ok(step_with(self.alloc, messages, seen_round, Change::Nothing))
    }
}
