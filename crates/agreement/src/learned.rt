//! Which node it is, of which configuration, and what it has learned.

ghost use Rattle.std.specs.Prelude.{◌≡◌, ◌↔◌, ℕ, ◌<◌, ◌≤◌, List, length, IsTrue};
ghost use Rattle.std.specs.Option.{MatchOption};
ghost use Rattle.ballots.specs.declared.value.Value.{Value as Held};
ghost use Rattle.learner.specs.Calls.{IsLearned};
ghost use Rattle.agreement_rules.specs.Views.{Views, IsFree, HasPrefix, HasGap};
ghost use Rattle.agreement.specs.State.{Has};

use crate::agreement::Agreement;
use crate::config::AgreementConfig;
use ballots::{NodeId, Slot, Value};
use decided_log::laws::prefixes_are_one;
use learner::laws::states_are_what_was_learned;

impl Agreement {
    /// Which node it is.
    pub fn me(&self) -> NodeId
        ensures { result ≡ self.now.me }
    {
        self.me
    }

    /// How many members agree, and for how many slots.
    pub fn config(&self) -> AgreementConfig
        ensures { result ≡ self.now.config }
    {
        self.config
    }

    /// The values of the slots 0, 1, .. up to the first that has learned none (section 3): as many as there are slots, at
    /// most.
    pub fn prefix(&self) -> &[Value]
        ensures prefix { (views : Views) → Has self.now views
            → HasPrefix self.now.config.members views.learner_calls result.now }
        ensures within { (views : Views) → Has self.now views → length result.now ≤ self.now.config.slot_limit }
    {
        states_are_what_was_learned();
        self.log.prefix()
    }

    /// The value that the slot has learned, `None` where it has learned none.
    pub fn learned(&self, slot: Slot) -> Option<&Value>
        ensures { (views : Views) → Has self.now views
            → MatchOption result (IsFree self.now.config.members views.learner_calls slot)
            (λ value. IsLearned self.now.config.members views.learner_calls slot value.now) }
    {
        states_are_what_was_learned();
        self.learner.decided(slot)
    }

    /// Whether the slot has learned no value.
    pub fn is_free(&self, slot: Slot) -> bool
        ensures { (views : Views) → Has self.now views
            → IsTrue result ↔ IsFree self.now.config.members views.learner_calls slot }
    {
        self.learned(slot).is_none()
    }

    /// The first slot that has learned no value, behind the prefix: `None` where every slot has learned one.
    pub fn first_free(&self) -> Option<Slot>
        ensures { (views : Views) (values : List Held) → Has self.now views
            → HasPrefix self.now.config.members views.learner_calls values
            → MatchOption result (length values ≡ self.now.config.slot_limit)
            (λ slot. (slot ≡ length values) × (slot < self.now.config.slot_limit)) }
    {
        states_are_what_was_learned();
        prefixes_are_one();
        let prefix = self.log.prefix();
        if prefix.len() >= self.config.slot_limit() as usize {
            return None;
        }
        Slot::new(prefix.len() as u32)
    }

    /// Whether a slot behind the first free one has learned a value (section 3).
    pub fn has_gap(&self) -> bool
        ensures { (views : Views) (values : List Held) → Has self.now views
            → HasPrefix self.now.config.members views.learner_calls values
            → IsTrue result ↔ HasGap self.now.config.members views.learner_calls (length values) }
    {
        states_are_what_was_learned();
        self.log.has_gap()
    }
}
