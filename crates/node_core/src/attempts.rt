//! Attempts to have a value agreed on.

ghost use Rattle.std.specs.Prelude.{◌≡◌, ℕ, ◌≤◌, List, [], ◌∷◌, length, Some, IfOk, IfErr};
ghost use Rattle.ballots.specs.declared.value.Value.{Value as Held};
ghost use Rattle.ballots.specs.declared.value.Value.TheVariants as held;
ghost use Rattle.agreement.specs.Step.{CanTake};
ghost use Rattle.agreement_rules.specs.Views.{Views, HasPrefix, HasGap};
ghost use Rattle.agreement_rules.specs.Due.{most_left};
ghost use Rattle.node_core.specs.State.{NodeHas};
ghost use Rattle.node_core.specs.Plans.{TickGives, HasRoundLeft, CannotBegin};

use crate::node::Node;
use crate::slots::slot_left;
use agreement::{AgreementStep, Refusal};
use ballots::{OutOfMemory, Slot, UploadBytes, Value};
use table_types::laws::texts_hold_one_list_of_uploads;
use uploads::Upload;

// The upload as a value to agree on, which shares its bytes.
fn value_of(upload: &Upload) -> Result<Value, OutOfMemory>
    ensures { IfOk result (λ value. value ≡ held.Upload upload.now) }
{
    texts_hold_one_list_of_uploads();
    match UploadBytes::new(upload.encode()?) {
        Some(bytes) => Ok(Value::Upload(bytes)),
        None => unreachable!(),
    }
}

impl Node {
    // An attempt for the upload that has waited longest, at the slot that leaves so many free ones to others.
    pub(crate) fn attempt_upload(&self, upload: &Upload, left: u8) -> Result<AgreementStep, Refusal>
        requires first { (others : List (List ℕ)) × (self.now.waiting.texts ≡ upload.now ∷ others) }
        requires within { left ≤ most_left }
        ensures gives { TickGives self.now left result }
        ensures can { IfOk result (λ step. CanTake self.now.agreement step.change) }
    {
        let slot = self.slot_to_begin(slot_left(&self.agreement, left))?;
        self.agreement.plan_attempt(slot, value_of(upload)?)
    }

    // An attempt for nothing at the first free slot, so that the prefix can grow.
    pub(crate) fn attempt_noop(&self) -> Result<AgreementStep, Refusal>
        requires none { self.now.waiting.texts ≡ [] }
        requires gap { (views : Views) (values : List Held) → NodeHas self.now views
            → HasPrefix self.now.agreement.config.members views.learner_calls values
            → HasGap self.now.agreement.config.members views.learner_calls (length values) }
        ensures gives { (left : ℕ) → left ≤ most_left → TickGives self.now left result }
        ensures can { IfOk result (λ step. CanTake self.now.agreement step.change) }
    {
        let slot = self.slot_to_begin(self.agreement.first_free())?;
        self.agreement.plan_attempt(slot, Value::Noop)
    }

    // The slot, where there is one and a round is left for it: that is settled before memory is asked.
    fn slot_to_begin(&self, slot: Option<Slot>) -> Result<Slot, Refusal>
        ensures slot { IfOk result (λ found. slot ≡ Some found) }
        ensures round { IfOk result (λ found. HasRoundLeft self.now.agreement) }
        ensures fault { IfErr result (CannotBegin self.now.agreement slot) }
    {
        match slot {
            Some(slot) if self.agreement.has_round_left(slot) => Ok(slot),
            Some(_) => Err(Refusal::RoundsSpent),
            None => Err(Refusal::SlotsSpent),
        }
    }
}
