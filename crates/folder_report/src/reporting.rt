//! The report of the records of all nodes.

ghost use Rattle.std.specs.Prelude.{◌≡◌, ℕ, List, length, map, IfErr, IfOk};
ghost use Rattle.ballots.specs.declared.record.Record.{Record as Kept};
ghost use Rattle.chosen_records.specs.Chosen.{Differ, TellsDiffer};
ghost use Rattle.folder_report.specs.Reporting.{FaultTells, Reports};
ghost use Rattle.folder_report.specs.Values.{TellsAgain};

use crate::fault::ReportFault;
use crate::report::FolderReport;
use crate::slots::slots_behind;
use crate::tables::tables_of;
use crate::values::values_told;
use ballots::{Members, Message, OutOfMemory, Record};
use chosen_records::{ChosenFault, chosen_again};
use std::alloc::Global;
use std::hash::RandomState;

/// What a server that resumes over the records of these nodes serves, and how each later slot stands for which some
/// node recorded an acceptance. Place k has the records of node k, in the order in which they were kept, a list for
/// each member. `hashing` has the keys by which names and ids are looked up.
///
/// It is [`ReportFault::Differ`] exactly where two values are recorded at one ballot of a slot, memory apart, and names
/// such a slot. Beside what the tables take, it takes memory for a value of each slot and for a byte of each of the
/// 1,000,000 slots that there can be; values share their bytes with the records.
pub fn report_of(
    alloc: Global,
    hashing: RandomState,
    members: Members,
    records: &[Vec<Record>],
) -> Result<FolderReport, ReportFault>
    requires { length records.now ≡ members }
    ensures report { IfOk result (Reports members (map (λ own. own.items) records.now)) }
    ensures differ { IfErr result (FaultTells (map (λ own. own.items) records.now)) }
    ensures agree { IfOk result (λ _. (slot : ℕ) → Differ (map (λ own. own.items) records.now) slot → ⊥) }
{
    let told = told_again(alloc, members, records)?;
    Ok(report_told(alloc, hashing, records, told.as_slice())?)
}

// The messages that tell what was chosen.
fn told_again(
    alloc: Global,
    members: Members,
    records: &[Vec<Record>],
) -> Result<Vec<Message>, ReportFault>
    requires { length records.now ≡ members }
    ensures told { IfOk result (λ told. TellsAgain members (map (λ own. own.items) records.now) told.items) }
    ensures differ { IfErr result (FaultTells (map (λ own. own.items) records.now)) }
    ensures agree { IfOk result (λ _. (slot : ℕ) → Differ (map (λ own. own.items) records.now) slot → ⊥) }
{
    match chosen_again(alloc, members, records) {
        Ok(told) => Ok(told),
        Err(fault) => Err(report_fault(fault)),
    }
}

// Why nothing is reported where nothing is told again.
fn report_fault(fault: ChosenFault) -> ReportFault
    ensures { (all : List (List Kept)) → TellsDiffer all fault → FaultTells all result }
{
    match fault {
        ChosenFault::Differ(slot) => ReportFault::Differ(slot),
        ChosenFault::OutOfMemory => ReportFault::OutOfMemory,
    }
}

// The report of records of which these messages tell what was chosen.
fn report_told(
    alloc: Global,
    hashing: RandomState,
    records: &[Vec<Record>],
    told: &[Message],
) -> Result<FolderReport, OutOfMemory>
    ensures { (members : ℕ) → TellsAgain members (map (λ own. own.items) records.now) told.now
        → IfOk result (Reports members (map (λ own. own.items) records.now)) }
{
    let values = values_told(alloc, told)?;
    let decided = values.len() as u32;
    let tables = tables_of(alloc, hashing, values.as_slice())?;
    let slots = slots_behind(alloc, records, told, decided)?;
    Ok(FolderReport {
        decided,
        tables,
        slots,
    })
}
