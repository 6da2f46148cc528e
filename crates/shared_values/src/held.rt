//! Values that are held, by their slots.

ghost use Rattle.std.specs.Prelude.{◌≡◌, IfOk, IfSome, OnOk};
ghost use Rattle.shared_values.specs.Held.{HoldsLast, HoldsNone, held_at, upload_at};
ghost use Rattle.std.specs.Option.{option_or};

use ballots::{OutOfMemory, Record, Slot, UploadBytes, Value};
use std::alloc::{AllocError, Global};
use std::collections::BTreeMap;

/// The last upload that each slot has accepted, by some records. Holding it takes no memory for its bytes, which are shared
/// with those records.
#[derive(Drop)]
pub struct HeldValues {
    values: BTreeMap<u32, UploadBytes>,
}

impl HeldValues {
    /// No value. It takes no memory.
    pub fn none(alloc: Global) -> HeldValues
        ensures { HoldsNone result }
    {
        HeldValues {
            values: BTreeMap::new(alloc),
        }
    }

    /// The values of the acceptances among these records: of each slot that of the last one which is an upload. Memory is taken
    /// from this allocator for their places alone.
    pub fn of(alloc: Global, records: &[Record]) -> Result<HeldValues, OutOfMemory>
        ensures { IfOk result (λ held. HoldsLast held records.now) }
    {
        let mut held = HeldValues::none(alloc);
        for record in records {
            held.hold(record)?;
        }
        Ok(held)
    }

    // Holds the value of one record more, where it has one.
    fn hold(&mut self, told: &Record) -> Result<(), AllocError>
        ensures { OnOk result ((slot : _) → held_at self.new slot
            ≡ option_or (upload_at told.now slot) (held_at self.old slot)) }
    {
        if let Record::Accepted(slot, acceptance) = told {
            if let Value::Upload(value) = &acceptance.value {
                self.values.insert(slot.number(), value.clone()?)?;
            }
        }
        Ok(())
    }

    /// What is held for the slot, where it is equal to this value and memory for a clone is not refused.
    pub(crate) fn equal_to(&self, slot: Slot, value: &UploadBytes) -> Option<UploadBytes>
        ensures { IfSome result (λ held. held ≡ value.now) }
    {
        let held = self.values.get(&slot.number())?;
        if held == value {
            held.clone().ok()
        } else {
            None
        }
    }
}
