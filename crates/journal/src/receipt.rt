//! Receipts of steps.

ghost use Rattle.std.specs.Prelude.{◌≡◌, ◌↔◌, true, IsTrue};
ghost use Rattle.node_parts.specs.node_events.specs.declared.event_result.EventResult.{EventResult as Given};
ghost use Rattle.journal.specs.Receipts.{step_told};

use node_events::{Event, EventResult};
use node_parts::Step;

/// What whoever took a step of a journal has of it. It is worth something where the journal confirms it
/// ([`crate::Journal::confirm`]).
#[derive(Debug, Drop)]
pub struct Receipt {
    /// The number of the step in the journal, from 0 on.
    pub number: u64,
    /// The event.
    pub event: Event,
    /// What it gave.
    pub answer: EventResult,
}

// What is given is equal where it is one.
fn equal_answers_are_one()
    ensures { (a b : Given) → (⟦<EventResult as PartialEq>⟧.eq a b ≡ true) ↔ (a ≡ b) }
{}

/// Whether the step has the event and the answer of the receipt.
pub(crate) fn tells_step(receipt: &Receipt, step: &Step) -> bool
    ensures { IsTrue result ↔ (step.now ≡ step_told receipt.now) }
{
    equal_answers_are_one();
    step.event.same_as(&receipt.event) && step.result == receipt.answer
}
