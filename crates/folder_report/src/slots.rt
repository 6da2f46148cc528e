//! The slots that are not served.

ghost use Rattle.std.specs.Prelude.{◌≡◌, ◌<◌, ◌++◌, ℕ, length, map, IfOk, OnOk};
ghost use Rattle.folder_report.specs.Marks.{ListsMarked, mark_at, slot_told};
ghost use Rattle.folder_report.specs.Reporting.{TellsSlots};
ghost use Rattle.folder_report.specs.Values.{TellsAgain, slots_limit};

use crate::marks::{Marks, SLOTS, marks_of};
use crate::report::SlotReport;
use ballots::{Message, OutOfMemory, Record, Slot};
use std::alloc::Global;

/// The slots from this one on for which an acceptance is recorded, where the messages tell what was chosen.
pub(crate) fn slots_behind(
    alloc: Global,
    records: &[Vec<Record>],
    told: &[Message],
    first: u32,
) -> Result<Vec<SlotReport>, OutOfMemory>
    ensures { (members : ℕ) → TellsAgain members (map (λ own. own.items) records.now) told.now
        → IfOk result (λ slots. TellsSlots members (map (λ own. own.items) records.now) first slots.items) }
{
    let marks = marks_of(alloc, records, told)?;
    marked_from(alloc, &marks, first)
}

// The slots from this one on that are marked.
fn marked_from(alloc: Global, marks: &Marks, first: u32) -> Result<Vec<SlotReport>, OutOfMemory>
    requires { length marks.now.items ≡ slots_limit }
    ensures { IfOk result (λ slots. ListsMarked marks.now.items first slots_limit slots.items) }
{
    let mut slots = Vec::new(alloc);
    for number in first..SLOTS {
        push_marked(&mut slots, marks, number)?;
    }
    Ok(slots)
}

// Pushes the slot of this number, where it is marked.
fn push_marked(slots: &mut Vec<SlotReport>, marks: &Marks, number: u32) -> Result<(), OutOfMemory>
    requires within { number < slots_limit }
    requires size { length marks.now.items ≡ slots_limit }
    ensures { OnOk result (slots.new.items ≡ slots.old.items ++ slot_told number (mark_at marks.now.items number)) }
{
    let (Some(state), Some(slot)) = (marks[number as usize], Slot::new(number)) else {
        return Ok(());
    };
    slots.push(SlotReport { slot, state })?;
    Ok(())
}
