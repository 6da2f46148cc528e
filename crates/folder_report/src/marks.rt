//! How each slot stands that there can be, by its number.

ghost use Rattle.std.specs.Prelude.{◌≡◌, ◌==◌, ℕ, None, length, map, IfOk};
ghost use Rattle.std.specs.List.{list_any};
ghost use Rattle.folder_report.specs.Marks.{AreMarked, MarkAll, accept, accepts, are_of, mark_at};
ghost use Rattle.folder_report.specs.Values.{slots_limit};
ghost use Rattle.folder_report.specs.declared.report.SlotState.TheVariants.{Undecided, Waiting};

use crate::report::SlotState;
use ballots::{MAX_SLOT, Message, OutOfMemory, Record, Slot};
use std::alloc::Global;

/// How many slots there can be.
pub(crate) const SLOTS: u32 = MAX_SLOT + 1;

/// How each slot stands, `None` where no acceptance is recorded for it.
pub(crate) type Marks = Vec<Option<SlotState>>;

/// How each slot stands by these records, where the messages tell what was chosen.
pub(crate) fn marks_of(
    alloc: Global,
    records: &[Vec<Record>],
    told: &[Message],
) -> Result<Marks, OutOfMemory>
    ensures { IfOk result (λ marks. MarkAll (map (λ own. own.items) records.now) told.now marks.items) }
{
    let mut marks = unmarked(alloc, SLOTS as usize)?;
    mark_accepted(&mut marks, records);
    mark_chosen(&mut marks, told);
    Ok(marks)
}

// So many slots, of which none is marked.
fn unmarked(alloc: Global, count: usize) -> Result<Marks, OutOfMemory>
    ensures size { IfOk result (λ marks. length marks.items ≡ count) }
    ensures none { IfOk result (λ marks. (slot : ℕ) → mark_at marks.items slot ≡ None) }
{
    vec![in alloc; None; count]
}

// Marks each slot for which an acceptance is recorded.
fn mark_accepted(marks: &mut Marks, records: &[Vec<Record>])
    requires { length marks.old.items ≡ slots_limit }
    ensures { AreMarked marks.old.items marks.new.items
        (λ slot. list_any (λ own. accept slot own.items) records.now) Undecided }
{
    for own in records {
        mark_records(marks, own.as_slice());
    }
}

// Marks each slot for which one of these records is an acceptance.
fn mark_records(marks: &mut Marks, own: &[Record])
    requires { length marks.old.items ≡ slots_limit }
    ensures { AreMarked marks.old.items marks.new.items (λ slot. accept slot own.now) Undecided }
{
    for kept in own {
        mark_record(marks, kept);
    }
}

// Marks the slot for which the record is an acceptance.
fn mark_record(marks: &mut Marks, kept: &Record)
    requires { length marks.old.items ≡ slots_limit }
    ensures { AreMarked marks.old.items marks.new.items (λ slot. accepts slot kept.now) Undecided }
{
    match kept {
        Record::Accepted(slot, _) => mark(marks, *slot, SlotState::Undecided),
        Record::Began(_) | Record::Promised(_, _) | Record::PromisedFrom(_, _) => {}
    }
}

// Marks each slot of which a message tells.
fn mark_chosen(marks: &mut Marks, told: &[Message])
    requires { length marks.old.items ≡ slots_limit }
    ensures { AreMarked marks.old.items marks.new.items (λ slot. are_of slot told.now) Waiting }
{
    for message in told {
        mark(marks, message.slot, SlotState::Waiting);
    }
}

// Marks the slot.
fn mark(marks: &mut Marks, slot: Slot, state: SlotState)
    requires { length marks.old.items ≡ slots_limit }
    ensures { AreMarked marks.old.items marks.new.items (λ other. slot == other) state }
{
    marks[slot.number() as usize] = Some(state);
}
