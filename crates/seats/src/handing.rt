//! What a node is handed: a copy of an input that it does not refuse.

ghost use Rattle.std.specs.Prelude.{◌≡◌, IfOk, IfErr};
ghost use Rattle.journal.specs.parts.agreement_rules.specs.Views.{Views};
ghost use Rattle.node_core.specs.Inputs.{input_of as node_input};
ghost use Rattle.node_core.specs.State.{NodeHas};
ghost use Rattle.node_core.specs.Plans.{IsRefused};
ghost use Rattle.seats.specs.Inputs.{input_of};

use crate::input::SeatInput;
use agreement::Refusal;
use node_core::{Input, Node};

/// A copy of the input for the node, or why the node refuses it. What is refused is not copied.
pub(crate) fn handed_over(node: &Node, input: &SeatInput) -> Result<Input, Refusal>
    ensures copy { IfOk result (λ copy. node_input copy ≡ input_of input.now) }
    ensures refused { IfErr result (λ refusal. (views : Views) → NodeHas node.now views
        → IsRefused node.now views (input_of input.now) refusal) }
{
    match input {
        SeatInput::Put(upload) => {
            if let Some(refusal) = node.refuses_put(upload) {
                return Err(refusal);
            }
            match upload.clone() {
                Ok(copy) => Ok(Input::Put(copy)),
                Err(_) => Err(Refusal::OutOfMemory),
            }
        }
        SeatInput::Tick(left) => Ok(Input::Tick(*left)),
        SeatInput::Deliver(_, message) => {
            if !node.takes(message) {
                return Err(Refusal::OutOfRange);
            }
            match message.clone() {
                Ok(copy) => Ok(Input::Deliver(copy)),
                Err(_) => Err(Refusal::OutOfMemory),
            }
        }
    }
}
