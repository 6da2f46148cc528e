//! The lines of a report.

ghost use Rattle.std.specs.Prelude.{◌≡◌, ◌++◌, IfOk, OnOk, string_bytes};
ghost use Rattle.std.specs.List.{flat_map};
ghost use Rattle.folder_report.specs.Lines.{decided_line, report_text, slot_line, state_text, table_line};

use crate::report::{FolderReport, SlotReport, SlotState, TableReport};
use std::alloc::{AllocError, Global};

// The line of how many slots are decided.
fn decided_line(alloc: Global, decided: u32) -> Result<String, AllocError>
    ensures { IfOk result (λ line. string_bytes line ≡ decided_line decided) }
{
    format!(in alloc; "slots {decided}\n")
}

// The line of a table.
fn table_line(alloc: Global, table: &TableReport) -> Result<String, AllocError>
    ensures { IfOk result (λ line. string_bytes line ≡ table_line table.now) }
{
    let name = table.name.as_str();
    let version = table.version;
    format!(in alloc; "table {name} version {version}\n")
}

// How a slot stands, in words.
fn state_text(state: SlotState) -> &'static str
    ensures { result.now ≡ state_text state }
{
    match state {
        SlotState::Undecided => "undecided",
        SlotState::Waiting => "decided, and served once the slots before it are",
    }
}

// The line of a slot.
fn slot_line(alloc: Global, told: SlotReport) -> Result<String, AllocError>
    ensures { IfOk result (λ line. string_bytes line ≡ slot_line told) }
{
    let slot = told.slot.number();
    let state = state_text(told.state);
    format!(in alloc; "slot {slot} {state}\n")
}

// Appends the lines of tables.
fn push_tables(alloc: Global, text: &mut String, tables: &[TableReport]) -> Result<(), AllocError>
    ensures { OnOk result (string_bytes text.new ≡ string_bytes text.old ++ flat_map table_line tables.now) }
{
    for table in tables {
        text.push_str(table_line(alloc, table)?.as_str())?;
    }
    Ok(())
}

// Appends the lines of slots.
fn push_slots(alloc: Global, text: &mut String, slots: &[SlotReport]) -> Result<(), AllocError>
    ensures { OnOk result (string_bytes text.new ≡ string_bytes text.old ++ flat_map slot_line slots.now) }
{
    for told in slots {
        text.push_str(slot_line(alloc, *told)?.as_str())?;
    }
    Ok(())
}

/// The lines of the report. [`AllocError`] says that memory was refused.
pub(crate) fn report_text(alloc: Global, report: &FolderReport) -> Result<String, AllocError>
    ensures { IfOk result (λ text. string_bytes text ≡ report_text report.now) }
{
    let mut text = decided_line(alloc, report.decided)?;
    push_tables(alloc, &mut text, report.tables.as_slice())?;
    push_slots(alloc, &mut text, report.slots.as_slice())?;
    Ok(text)
}
