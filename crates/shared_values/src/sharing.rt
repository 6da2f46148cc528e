//! Records whose values are shared.

ghost use Rattle.std.specs.Prelude.{◌≡◌};

use crate::held::HeldValues;
use ballots::{Record, Value};

/// Has the record share the value that is held for its slot, where that is equal to its own; the bytes of its own are dropped
/// then. Whatever is held, the record is equal to what it was. Where memory for a further owner of the bytes is refused it
/// keeps its own.
pub fn share(told: &mut Record, held: &HeldValues)
    ensures { told.new ≡ told.old }
{
    if let Record::Accepted(slot, acceptance) = told {
        if let Value::Upload(value) = &mut acceptance.value {
            if let Some(shared) = held.equal_to(*slot, value) {
                *value = shared;
            }
        }
    }
}

/// Has each of these records share the value that is held for its slot, as [`share`] does. They are equal to what they were.
pub fn share_all(records: &mut [Record], held: &HeldValues)
    ensures { records.new ≡ records.old }
{
    for told in records.iter_mut() {
        share(told, held);
    }
}
