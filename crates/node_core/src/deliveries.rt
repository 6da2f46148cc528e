//! What is due to a message.

ghost use Rattle.std.specs.Prelude.{◌≡◌, ◌↔◌, IsTrue, IfOk};
ghost use Rattle.agreement_rules.specs.Due.{IsMessageOf};
ghost use Rattle.histories.specs.Due.{Deliver};
ghost use Rattle.node_core.specs.State.{StandsAsBefore};
ghost use Rattle.node_core.specs.Plans.{PlanGives, CanCommit};

use crate::node::Node;
use crate::plan::Planned;
use agreement::Refusal;
use ballots::Message;
use learner::laws::{learned_where_chosen_or_decided, states_are_what_was_learned};
use table_types::laws::texts_hold_one_list_of_uploads;

impl Node {
    /// Whether no refusal is due to a message: its sender and the node of each ballot in it are members, and its slot is
    /// below the limit. It takes no memory.
    pub fn takes(&self, message: &Message) -> bool
        ensures { IsTrue result ↔ IsMessageOf self.now.agreement.config message.now }
    {
        self.agreement.takes(message)
    }

    /// What is due to a message. Room is made for what it makes the node learn.
    pub(crate) fn plan_message(&mut self, message: Message) -> Result<Planned, Refusal>
        ensures gives { PlanGives self.old (Deliver message) result }
        ensures can { IfOk result (CanCommit self.new) }
        ensures same { StandsAsBefore self.old self.new }
        ensures me { self.new.agreement.me ≡ self.old.agreement.me }
        ensures config { self.new.agreement.config ≡ self.old.agreement.config }
    {
        states_are_what_was_learned();
        learned_where_chosen_or_decided();
        texts_hold_one_list_of_uploads();
        let step = self.agreement.plan_message(message)?;
        let grown = step.grown.as_slice();
        if grown.is_empty() {
            return Ok(Planned::Steps(step));
        }
        let ready = self.tables.ready_with(grown, &self.waiting)?;
        Ok(Planned::Learns(step, ready))
    }
}
