//! Steps on the two parts of a log: the values up to the first gap, and those behind it by their slots.

ghost use Rattle.std.specs.Prelude.{◌≡◌, ℕ, ◌+◌, ◌<◌, ◌≤◌, Bool, true, false, length, vec_capacity, nat_eq, is_some};
ghost use Rattle.std.specs.Prelude.{Option, Some, None, if◌then◌else◌};
ghost use Rattle.std.specs.Map.{lookup};
ghost use Rattle.indexmap.specs.IndexMap.{spare};
ghost use Rattle.ballots.specs.Limits.{max_slot};
ghost use Rattle.decided_log.specs.Decided.{Inserts};
ghost use Rattle.decided_log.specs.LogState.{found};
ghost use Rattle.decided_log.specs.Keeping.{IsJoinable, IsKept, Takes, Joins};

use ballots::{Slot, Value};
use indexmap::IndexMap;

// Puts the value where its slot has its place: in the prefix, with those that then follow it, or behind the gap. Where
// the slot has a value, that one stays.
pub(crate) fn put(
    prefix: &mut Vec<Value>,
    later: &mut IndexMap<Slot, Value>,
    slot: Slot,
    value: Value,
)
    requires kept { IsKept prefix.old.items later.old.entries (vec_capacity prefix.old) }
    requires reserved { length prefix.old.items + length later.old.entries < vec_capacity prefix.old }
    requires room { 0 < spare later.old }
    ensures kept { IsKept prefix.new.items later.new.entries (vec_capacity prefix.new) }
    ensures inserts { Inserts
        (found prefix.old.items later.old.entries) (found prefix.new.items later.new.entries)
        slot value }
    ensures count { length prefix.new.items + length later.new.entries
        ≤ length prefix.old.items + length later.old.entries + 1 }
    ensures capacity { vec_capacity prefix.new ≡ vec_capacity prefix.old }
    ensures room { spare later.old ≤ spare later.new + 1 }
{
    let number = slot.number() as usize;
    if number > prefix.len() {
        keep_later(later, slot, value);
    } else if number == prefix.len() {
        prefix.push_reserved(value);
        advance_prefix(prefix, later);
    }
}

// Keeps the value behind the gap, where its slot has none yet.
fn keep_later(later: &mut IndexMap<Slot, Value>, slot: Slot, value: Value)
    requires { 0 < spare later.old }
    ensures inserts { Inserts
        (λ other. lookup (nat_eq other) later.old.entries) (λ other. lookup (nat_eq other) later.new.entries)
        slot value }
    ensures len { length later.new.entries ≤ length later.old.entries + 1 }
    ensures room { spare later.old ≤ spare later.new + 1 }
{
    if later.contains_key(&slot) {
        return;
    }
    later.insert(slot, value).unwrap();
}

// Takes out the value of the slot of this number. Where nothing stands behind a gap, as mostly, nothing is hashed.
fn take_later(later: &mut IndexMap<Slot, Value>, number: usize) -> Option<Value>
    requires { (slot : ℕ) → max_slot < slot → lookup (nat_eq slot) later.old.entries ≡ None }
    ensures value { result ≡ lookup (nat_eq number) later.old.entries }
    ensures takes { Takes later.old.entries later.new.entries number }
    ensures len { length later.new.entries + (if is_some result then 1 else 0) ≡ length later.old.entries }
    ensures room { spare later.old ≤ spare later.new }
{
    if later.is_empty() {
        return None;
    }
    let slot = Slot::new(u32::try_from(number).ok()?)?;
    later.swap_remove(&slot)
}

// Moves the value at the prefix's end into the prefix, and says whether there was one.
fn advance_one(prefix: &mut Vec<Value>, later: &mut IndexMap<Slot, Value>) -> bool
    requires { IsJoinable prefix.old.items later.old.entries (vec_capacity prefix.old) }
    ensures joinable { IsJoinable prefix.new.items later.new.entries (vec_capacity prefix.new) }
    ensures joins { Joins prefix.old.items prefix.new.items later.old.entries later.new.entries }
    ensures capacity { vec_capacity prefix.new ≡ vec_capacity prefix.old }
    ensures room { spare later.old ≤ spare later.new }
    ensures fewer { result ≡ true → length later.new.entries < length later.old.entries }
    ensures gap { result ≡ false → lookup (nat_eq (length prefix.new.items)) later.new.entries ≡ None }
{
    match take_later(later, prefix.len()) {
        Some(value) => {
            prefix.push_reserved(value);
            true
        }
        None => false,
    }
}

// Moves the values that stand at the prefix's end into it, one after the other, up to the first gap.
fn advance_prefix(prefix: &mut Vec<Value>, later: &mut IndexMap<Slot, Value>)
    requires { IsJoinable prefix.old.items later.old.entries (vec_capacity prefix.old) }
    ensures kept { IsKept prefix.new.items later.new.entries (vec_capacity prefix.new) }
    ensures joins { Joins prefix.old.items prefix.new.items later.old.entries later.new.entries }
    ensures capacity { vec_capacity prefix.new ≡ vec_capacity prefix.old }
    ensures room { spare later.old ≤ spare later.new }
{
    while advance_one(prefix, later) {}
}
