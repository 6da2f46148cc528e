//! What is due to a tick.

ghost use Rattle.std.specs.Prelude.{◌≤◌, IfOk};
ghost use Rattle.agreement_rules.specs.Due.{most_left};
ghost use Rattle.histories.specs.Due.{Tick};
ghost use Rattle.node_core.specs.Plans.{PlanGives, TickGives, CanCommit};
ghost use Rattle.agreement.specs.Step.{CanTake};

use crate::node::Node;
use crate::plan::Planned;
use agreement::{AgreementStep, Refusal};

/// The most free slots that an attempt leaves to other nodes.
pub const MOST_LEFT: u8 = 7;

impl Node {
    /// What is due to a tick. Nothing changes, nor is room made.
    pub(crate) fn plan_tick(&self, left: u8) -> Result<Planned, Refusal>
        ensures gives { PlanGives self.now (Tick left) result }
        ensures can { IfOk result (CanCommit self.now) }
    {
        if left > MOST_LEFT {
            return Err(Refusal::OutOfRange);
        }
        let step = self.step_of_tick(left)?;
        // the type keeps that the node stands by some records and calls
        let _config = self.agreement.config();
        Ok(Planned::Steps(step))
    }

    // Where uploads wait, an attempt for the first; else one at the first free slot, if something is learned behind it; and
    // if not, an Ask.
    fn step_of_tick(&self, left: u8) -> Result<AgreementStep, Refusal>
        requires within { left ≤ most_left }
        ensures gives { TickGives self.now left result }
        ensures can { IfOk result (λ step. CanTake self.now.agreement step.change) }
    {
        match self.waiting.first() {
            Some(upload) => self.attempt_upload(upload, left),
            None if self.agreement.has_gap() => self.attempt_noop(),
            None => Ok(self.agreement.plan_ask()?),
        }
    }
}
