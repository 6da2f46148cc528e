//! What is due to any input.

ghost use Rattle.std.specs.Prelude.{◌≡◌, IfOk};
ghost use Rattle.node_core.specs.State.{StandsAsBefore};
ghost use Rattle.node_core.specs.Inputs.{input_of};
ghost use Rattle.node_core.specs.Plans.{PlanGives, CanCommit};

use crate::input::Input;
use crate::node::Node;
use crate::plan::{Plan, Planned};
use agreement::Refusal;

impl Node {
    /// What is due to an input (`Due` in the definitions of `histories`): a plan, which [`Node::commit`] makes true once its
    /// record is kept. All room is made, and nothing changes that decides what the node does, whatever the answer.
    ///
    /// The first of these refusals is told that is due:
    /// - [`Refusal::OutOfRange`]: a message's sender, its slot, or the node of a ballot in it, is none of the
    ///   configuration's; or a tick is above 7.
    /// - [`Refusal::SlotsSpent`]: an upload comes and every slot has learned a value; or the slot of a tick's attempt is
    ///   none.
    /// - [`Refusal::RoundsSpent`]: a tick's attempt has no round left.
    /// - [`Refusal::OutOfMemory`]: memory was refused, and none of the others is due.
    pub fn plan(&mut self, input: Input) -> Result<Plan, Refusal>
        ensures gives { PlanGives self.old (input_of input) result }
        ensures can { IfOk result (CanCommit self.new) }
        ensures same { StandsAsBefore self.old self.new }
        ensures me { self.new.agreement.me ≡ self.old.agreement.me }
        ensures config { self.new.agreement.config ≡ self.old.agreement.config }
    {
        let planned = match input {
            Input::Put(upload) => self.plan_put(upload)?,
            Input::Tick(left) => self.plan_tick(left)?,
            Input::Deliver(message) => self.plan_message(message)?,
        };
        Ok(Plan { planned })
    }
}
