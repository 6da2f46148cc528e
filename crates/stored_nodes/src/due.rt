//! Laws of what is due to an input, of every kind.

ghost use Rattle.std.specs.Prelude.{ℕ, Option, None};
ghost use Rattle.ballots.specs.declared.record.Record.{Record};
ghost use Rattle.agreement_rules.specs.Views.{AgreementConfig, Views};
ghost use Rattle.agreement_rules.specs.Due.{Refusal, Refuses, Plan, Plans};
ghost use Rattle.histories.specs.Due.{Input, IsDue, InputKeeps};
ghost use Rattle.histories.specs.Following.{IsAllowed};
ghost use Rattle.node_core.specs.Plans.{IsTaken};

use agreement_rules::laws::{records_are_those_of_plans, something_is_due};
use histories::laws::due_is_one;

/// Of an input that a node takes no refusal is due, so that it may want memory.
pub(crate) fn what_is_taken_is_allowed()
    ensures { (config : AgreementConfig) (me : ℕ) (views : Views) (input : Input) → IsTaken config me views input
        → IsAllowed config me views input }
{
    due_is_one();
}

/// The record that is due is the one that the plan keeps; of an input that is refused none is due; and of one that is
/// taken it is some record, or none.
pub(crate) fn records_are_due()
    ensures planned { (config : AgreementConfig) (me : ℕ) (views : Views) (input : Input) (plan : Plan)
        → IsDue config me views input (Plans plan) → InputKeeps config me views input plan.kept }
    ensures refused { (config : AgreementConfig) (me : ℕ) (views : Views) (input : Input) (refusal : Refusal)
        → IsDue config me views input (Refuses refusal) → InputKeeps config me views input None }
    ensures taken { (config : AgreementConfig) (me : ℕ) (views : Views) (input : Input) → IsTaken config me views input
        → (kept : Option Record) × InputKeeps config me views input kept }
{
    records_are_those_of_plans();
    something_is_due();
}
