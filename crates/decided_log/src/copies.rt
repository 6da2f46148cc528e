//! What a log tells: copies of its values, and the messages that say what is decided.

ghost use Rattle.std.specs.Prelude.{◌≡◌, ℕ, ◌+◌, ◌<◌, ◌≤◌, List, [], ◌∷◌, None, length, nat_eq, IfSome, IfOk, OnErr};
ghost use Rattle.std.specs.Option.{option_map};
ghost use Rattle.std.specs.Map.{lookup};
ghost use Rattle.ballots.specs.Limits.{max_slot};
ghost use Rattle.decided_log.specs.Decided.{IsPrefix};
ghost use Rattle.decided_log.specs.Asked.{decided_messages};
ghost use Rattle.decided_log.specs.Keeping.{grown_at};

use ballots::{Body, Message, NodeId, OutOfMemory, Slot, Value};
use indexmap::IndexMap;
use std::alloc::Global;

// The value of the slot of this number. Where nothing stands behind a gap, as mostly, nothing is hashed.
fn later_value(later: &IndexMap<Slot, Value>, number: usize) -> Option<&Value>
    requires { (slot : ℕ) → max_slot < slot → lookup (nat_eq slot) later.now.entries ≡ None }
    ensures value { option_map (λ value. value.now) result ≡ lookup (nat_eq number) later.now.entries }
    ensures within { IfSome result (λ value. number ≤ max_slot) }
{
    if later.is_empty() {
        return None;
    }
    let slot = Slot::new(u32::try_from(number).ok()?)?;
    later.get(&slot)
}

// The value for the slot, and the values of the slots behind it up to the first gap: copies, in the order of the slots.
pub(crate) fn prefix_growth(
    alloc: Global,
    later: &IndexMap<Slot, Value>,
    slot: Slot,
    value: &Value,
) -> Result<Vec<Value>, OutOfMemory>
    requires { (slot : ℕ) → max_slot < slot → lookup (nat_eq slot) later.now.entries ≡ None }
    ensures { IfOk result (λ values. IsPrefix (grown_at later.now.entries slot value.now) values.items) }
{
    let mut values = Vec::new(alloc);
    values.push(value.clone()?)?;
    while let Some(next) = later_value(later, slot.number() as usize + values.len()) {
        values.push(next.clone()?)?;
    }
    Ok(values)
}

// The message that the slot of this number has the value.
fn decided(node: NodeId, number: u32, value: &Value) -> Result<Message, OutOfMemory>
    requires { number ≤ max_slot }
    ensures { IfOk result (λ message. decided_messages node number (value.now ∷ []) ≡ message ∷ []) }
{
    let Some(slot) = Slot::new(number) else {
        unreachable!()
    };
    let value = value.clone()?;
    Ok(Message {
        sender: node,
        slot,
        body: Body::Decided { value },
    })
}

// A message for each of the values, from this slot on.
pub(crate) fn decided_from(
    alloc: Global,
    node: NodeId,
    first: Slot,
    values: &[Value],
) -> Result<Vec<Message>, OutOfMemory>
    requires { first + length values.now ≤ max_slot + 1 }
    ensures messages { IfOk result (λ messages. messages.items ≡ decided_messages node first values.now) }
    ensures memory { OnErr result (0 < length values.now) }
{
    let mut messages = Vec::new(alloc);
    for (k, value) in values.iter().enumerate() {
        messages.push(decided(node, first.number() + k as u32, value)?)?;
    }
    Ok(messages)
}
