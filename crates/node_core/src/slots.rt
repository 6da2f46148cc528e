//! The slot that an attempt is for.

ghost use Rattle.std.specs.Prelude.{List};
ghost use Rattle.ballots.specs.declared.value.Value.{Value as Held};
ghost use Rattle.agreement_rules.specs.Views.{Views, HasPrefix};
ghost use Rattle.agreement.specs.State.{Has};
ghost use Rattle.node_core.specs.Plans.{IsSlotLeft};

use agreement::Agreement;
use ballots::Slot;
use learner::laws::states_are_what_was_learned;

/// The slot that has learned nothing and leaves so many such slots below it to others, `None` where there is no such slot
/// below the limit. Its time is that of a walk from the first free slot on.
pub(crate) fn slot_left(agreement: &Agreement, left: u8) -> Option<Slot>
    ensures { (views : Views) (values : List Held) → Has agreement.now views
        → HasPrefix agreement.now.config.members views.learner_calls values
        → IsSlotLeft agreement.now.config views left result }
{
    states_are_what_was_learned();
    let slots = agreement.config().slot_limit();
    let first = match agreement.first_free() {
        Some(slot) => slot.number(),
        None => slots,
    };
    let mut passed = 0;
    for number in first..slots {
        let slot = Slot::new(number)?;
        if agreement.is_free(slot) {
            if passed == left {
                return Some(slot);
            }
            passed += 1;
        }
    }
    None
}
