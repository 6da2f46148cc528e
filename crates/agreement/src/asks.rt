//! How a node asks for what is decided.

ghost use Rattle.std.specs.Prelude.{◌≡◌, ℕ, ◌<◌, [], ◌∷◌, List, length, IfOk, OnErr};
ghost use Rattle.ballots.specs.Message.{message};
ghost use Rattle.ballots.specs.declared.message.Body.TheVariants as body;
ghost use Rattle.ballots.specs.declared.value.Value.{Value as Held};
ghost use Rattle.agreement_rules.specs.Views.{Views, HasPrefix};
ghost use Rattle.agreement.specs.declared.step.Change.TheVariants.{Nothing};
ghost use Rattle.agreement.specs.State.{Has};
ghost use Rattle.agreement.specs.Step.{Sends, AskGives, CanTake};

use crate::agreement::Agreement;
use crate::proposals::quiet;
use crate::replies::sending;
use crate::step::{AgreementStep, Change};
use ballots::{Body, Message, OutOfMemory, Slot};

impl Agreement {
    /// Asks for what is decided from the first free slot on (section 2.3), or does nothing where every slot has learned a
    /// value. Memory can be refused only where there is such a slot.
    pub fn plan_ask(&self) -> Result<AgreementStep, OutOfMemory>
        ensures gives { IfOk result (AskGives self.now) }
        ensures grows { IfOk result (λ step. step.grown.items ≡ []) }
        ensures can { IfOk result (λ step. CanTake self.now step.change) }
        ensures memory { OnErr result ((views : Views) (values : List Held) → Has self.now views
            → HasPrefix self.now.config.members views.learner_calls values → length values < self.now.config.slot_limit) }
    {
        match self.first_free() {
            Some(slot) => self.ask_from(slot),
            None => Ok(quiet(self.alloc, self.seen_round, Change::Nothing)),
        }
    }

    // Asks for what is decided from this slot on.
    fn ask_from(&self, slot: Slot) -> Result<AgreementStep, OutOfMemory>
        ensures { IfOk result (λ step.
            Sends step (message self.now.me slot body.Ask ∷ []) self.now.seen_round Nothing) }
    {
        let ask = Message {
            sender: self.me,
            slot,
            body: Body::Ask,
        };
        sending(self.alloc, ask, self.seen_round, Change::Nothing)
    }
}
