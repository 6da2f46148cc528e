//! The values of the slots from 0 on.

ghost use Rattle.std.specs.Prelude.{◌≡◌, ◌≤◌, ◌++◌, ◌∷◌, [], ℕ, List, length, IfOk, OnOk};
ghost use Rattle.std.specs.List.{All};
ghost use Rattle.std.specs.List.Sorted.{IsNonDecreasingBy};
ghost use Rattle.ballots.specs.declared.record.Record.{Record as Kept};
ghost use Rattle.chosen_records.specs.Chosen.{TellsChosen};
ghost use Rattle.folder_report.specs.Values.{FillSlots, followed_by, slots_limit};

use ballots::{Body, Message, OutOfMemory, Value};
use std::alloc::Global;

/// The values that the messages tell of the slots from 0 on, up to the first slot of which none tells. Slots rise in
/// the messages. The values share their bytes.
pub(crate) fn values_told(alloc: Global, told: &[Message]) -> Result<Vec<Value>, OutOfMemory>
    ensures values { (members : ℕ) (all : List (List Kept)) → All (TellsChosen members all) told.now
        → IsNonDecreasingBy (λ message. message.slot) told.now
        → IfOk result (λ values. FillSlots members all told.now values.items) }
    ensures few { IfOk result (λ values. length values.items ≤ slots_limit) }
{
    let mut values = Vec::new(alloc);
    for message in told {
        take_value(&mut values, message)?;
    }
    Ok(values)
}

// Takes the value that the message tells, where it is of the slot behind these.
fn take_value(values: &mut Vec<Value>, message: &Message) -> Result<(), OutOfMemory>
    ensures value { OnOk result (values.new.items ≡ followed_by values.old.items message.now) }
    ensures few { length values.old.items ≤ slots_limit → OnOk result (length values.new.items ≤ slots_limit) }
{
    if message.slot.number() as usize != values.len() {
        return Ok(());
    }
    match &message.body {
        Body::Accepted(acceptance) => push_copy(values, &acceptance.value),
        _ => Ok(()),
    }
}

// Pushes the value, which shares its bytes.
fn push_copy(values: &mut Vec<Value>, value: &Value) -> Result<(), OutOfMemory>
    ensures { OnOk result (values.new.items ≡ values.old.items ++ value.now ∷ []) }
{
    values.push(value.clone()?)?;
    Ok(())
}
