//! Laws of the definitions that reports are proved against.

ghost use Rattle.std.specs.Prelude.{◌≡◌, ℕ, List, map};
ghost use Rattle.ballots.specs.declared.record.Record.{Record};
ghost use Rattle.folder_report.specs.Reporting.{HaveOneValue, Reports, told_table};
ghost use Rattle.folder_report.specs.declared.report.FolderReport.{FolderReport};

use table_versions::laws::values_hold_one_list_of_uploads;

/// Two reports of the same records tell of as many decided slots, and of the same later slots, in the same way. Where
/// for no slot two values are chosen, as of all records of correct nodes (Lamport, *Paxos Made Simple*, section 2.2),
/// they tell of the same tables.
pub fn records_have_one_report()
    ensures decided { (members : ℕ) (all : List (List Record)) (one other : FolderReport) → Reports members all one
        → Reports members all other → one.decided ≡ other.decided }
    ensures slots { (members : ℕ) (all : List (List Record)) (one other : FolderReport) → Reports members all one
        → Reports members all other → one.slots.items ≡ other.slots.items }
    ensures tables { (members : ℕ) (all : List (List Record)) (one other : FolderReport) → Reports members all one
        → Reports members all other → HaveOneValue members all
        → map told_table one.tables.items ≡ map told_table other.tables.items }
{
    values_hold_one_list_of_uploads();
}
