//! What is due to an upload that a client hands in.

ghost use Rattle.std.specs.Prelude.{◌≡◌, IfOk};
ghost use Rattle.agreement_rules.specs.Views.{Views};
ghost use Rattle.histories.specs.Due.{Put};
ghost use Rattle.node_core.specs.State.{NodeHas, StandsAsBefore};
ghost use Rattle.node_core.specs.Plans.{PlanGives, CanCommit, JudgesPut, TellsKnown};

use crate::node::Node;
use crate::plan::Planned;
use agreement::Refusal;
use table_versions::Outcome;
use uploads::Upload;

impl Node {
    /// What is due to an upload that a client hands in. Room for it is made.
    pub(crate) fn plan_put(&mut self, upload: Upload) -> Result<Planned, Refusal>
        ensures gives { PlanGives self.old (Put upload) result }
        ensures can { IfOk result (CanCommit self.new) }
        ensures same { StandsAsBefore self.old self.new }
        ensures me { self.new.agreement.me ≡ self.old.agreement.me }
        ensures config { self.new.agreement.config ≡ self.old.agreement.config }
    {
        if self.knows(&upload) {
            return Ok(Planned::Stays);
        }
        if self.agreement.first_free().is_none() {
            return Err(Refusal::SlotsSpent);
        }
        self.waiting.make_room()?;
        Ok(Planned::Waits(upload))
    }

    /// The refusal that is due to an upload that a client hands in, `None` exactly where none is. It takes no memory.
    pub fn refuses_put(&self, upload: &Upload) -> Option<Refusal>
        ensures { (views : Views) → NodeHas self.now views → JudgesPut self.now views upload.now result }
    {
        if self.knows(upload) {
            return None;
        }
        if self.agreement.first_free().is_none() {
            return Some(Refusal::SlotsSpent);
        }
        None
    }

    // Whether the upload waits already, or something is known of it.
    fn knows(&self, upload: &Upload) -> bool
        ensures { (views : Views) → NodeHas self.now views
            → TellsKnown self.now.agreement.config views upload.now result }
    {
        let _text = upload.as_slice();
        if self.waiting.contains(upload) {
            return true;
        }
        match self.tables.outcome(upload) {
            Outcome::Unknown => false,
            _ => true,
        }
    }
}
