//! What is due to any message.

ghost use Rattle.std.specs.Prelude.{◌≡◌, ℕ, ◌<◌, max, IfOk, OnErr};
ghost use Rattle.ballots.specs.declared.message.Body.{Body as Says};
ghost use Rattle.agreement.specs.Step.{StepIsDue, MessageGives, IsReady, StaysAsItWas};

use crate::agreement::Agreement;
use crate::range::greatest_round;
use crate::refusal::Refusal;
use crate::step::AgreementStep;
use ballots::{Body, Message, NodeId, OutOfMemory, Slot};

impl Agreement {
    /// What is due to a message (section 2): [`Refusal::OutOfRange`] exactly where its sender, its slot or the node of a
    /// ballot in it is none of the configuration's, else the reply to its body of a node that has seen its greatest
    /// round. Room is made; what the node stands by stays as it was, also where memory is refused.
    pub fn plan_message(&mut self, message: Message) -> Result<AgreementStep, Refusal>
        ensures gives { MessageGives self.old message result }
        ensures ready { IfOk result (IsReady self.old self.new) }
        ensures err { OnErr result (StaysAsItWas self.old self.new) }
        ensures me { self.new.me ≡ self.old.me }
        ensures config { self.new.config ≡ self.old.config }
    {
        if !self.takes(&message) {
            return Err(Refusal::OutOfRange);
        }
        let seen_round = self.seen_round.max(greatest_round(&message.body));
        Ok(self.reply_to(seen_round, message.sender, message.slot, message.body)?)
    }

    // What is due to a body of this sender and slot, of a node that has seen its round.
    fn reply_to(
        &mut self,
        seen_round: u32,
        sender: NodeId,
        slot: Slot,
        body: Body,
    ) -> Result<AgreementStep, OutOfMemory>
        requires { slot < self.old.config.slot_limit }
        ensures gives { IfOk result (StepIsDue self.old seen_round sender slot body) }
        ensures ready { IfOk result (IsReady self.old self.new) }
        ensures err { OnErr result (StaysAsItWas self.old self.new) }
        ensures me { self.new.me ≡ self.old.me }
        ensures config { self.new.config ≡ self.old.config }
    {
        match body {
            Body::Prepare { ballot } => self.reply_to_prepare(seen_round, slot, ballot),
            Body::Promise { ballot, report } => {
                self.reply_to_promise(seen_round, sender, slot, ballot, report)
            }
            Body::Nack { ballot, .. } => Ok(self.reply_to_nack(seen_round, slot, ballot)),
            Body::Accept(proposal) => self.reply_to_accept(seen_round, slot, proposal),
            Body::Accepted(acceptance) => self.handle_accepted(
                seen_round, sender, slot, acceptance,
            ),
            Body::Ask => self.reply_to_ask(seen_round, slot),
            Body::Decided { value } => self.handle_decided(seen_round, slot, value),
        }
    }
}
