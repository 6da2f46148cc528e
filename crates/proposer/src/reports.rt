//! What one promise of all slots from one on reports of the slots that an attempt has not come to yet.

ghost use Rattle.std.specs.Prelude.{◌≡◌, ◌≢◌, ◌↔◌, suc, [], Some, None, IsTrue, option_map};
ghost use Rattle.proposer.specs.Reporting.{report_of, rises_from};
ghost use Rattle.proposer.specs.Kept.{from_slot, reports_in, IsFrontBelow};

use ballots::{Acceptance, Slot};
use std::collections::VecDeque;

/// The reports of one promise, by rising slots. They are taken as they came, and each leaves from the front.
#[derive(Debug, Drop)]
pub(crate) struct Reports {
    pub(crate) ahead: Option<VecDeque<(Slot, Acceptance)>>,
}

impl Default for Reports {
    fn default() -> Reports {
        Reports { ahead: None }
    }
}

impl Reports {
    /// These reports.
    pub(crate) fn new(reports: Vec<(Slot, Acceptance)>) -> Reports
        ensures { reports_in result ≡ reports.items }
    {
        Reports {
            ahead: Some(VecDeque::from(reports)),
        }
    }

    /// Whether there are none.
    pub(crate) fn are_none(&self) -> bool
        ensures { IsTrue result ↔ (reports_in self.now ≡ []) }
    {
        match &self.ahead {
            Some(ahead) => ahead.is_empty(),
            None => true,
        }
    }

    /// The report of a slot, where none of a slot below it is left.
    pub(crate) fn at(&self, slot: Slot) -> Option<&Acceptance>
        ensures { IsTrue (rises_from slot (reports_in self.now))
            → option_map (λ report. report.now) result ≡ report_of slot (reports_in self.now) }
    {
        match &self.ahead {
            Some(ahead) => front_at(ahead, slot),
            None => None,
        }
    }

    /// Takes the report of a slot, where none of a slot below it is left.
    pub(crate) fn take(&mut self, slot: Slot) -> Option<Acceptance>
        ensures value { IsTrue (rises_from slot (reports_in self.old)) → result ≡ report_of slot (reports_in self.old) }
        ensures rest { IsTrue (rises_from slot (reports_in self.old))
            → reports_in self.new ≡ from_slot (suc slot) (reports_in self.old) }
    {
        match &mut self.ahead {
            Some(ahead) => take_at(ahead, slot),
            None => None,
        }
    }

    /// Drops those of slots below this one.
    pub(crate) fn drop_below(&mut self, slot: u32)
        ensures { reports_in self.new ≡ from_slot slot (reports_in self.old) }
    {
        if let Some(ahead) = &mut self.ahead {
            drop_below(ahead, slot);
        }
    }
}

fn front_at(ahead: &VecDeque<(Slot, Acceptance)>, slot: Slot) -> Option<&Acceptance>
    ensures { IsTrue (rises_from slot ahead.now.items)
        → option_map (λ report. report.now) result ≡ report_of slot ahead.now.items }
{
    of_slot(ahead.front()?, slot)
}

fn take_at(ahead: &mut VecDeque<(Slot, Acceptance)>, slot: Slot) -> Option<Acceptance>
    ensures value { IsTrue (rises_from slot ahead.old.items) → result ≡ report_of slot ahead.old.items }
    ensures rest { IsTrue (rises_from slot ahead.old.items) → ahead.new.items ≡ from_slot (suc slot) ahead.old.items }
{
    front_at(ahead, slot)?;
    let (_, report) = ahead.pop_front()?;
    Some(report)
}

fn drop_below(ahead: &mut VecDeque<(Slot, Acceptance)>, slot: u32)
    ensures { ahead.new.items ≡ from_slot slot ahead.old.items }
{
    while is_below(ahead, slot) {
        ahead.pop_front();
    }
}

// Whether the first is of a slot below this one.
fn is_below(ahead: &VecDeque<(Slot, Acceptance)>, slot: u32) -> bool
    ensures { IsTrue result ↔ IsFrontBelow slot ahead.now.items }
{
    match ahead.front() {
        Some((at, _)) => at.number() < slot,
        None => false,
    }
}

/// Whether the slots of these reports rise, from the first one on.
pub(crate) fn rise_from(reports: &[(Slot, Acceptance)], first: Slot) -> bool
    ensures { result ≡ rises_from first reports.now }
{
    let mut least = first.number();
    for (slot, _) in reports {
        if slot.number() < least {
            return false;
        }
        least = slot.number() + 1;
    }
    true
}

/// What they report of a slot, where they rise from it on.
pub(crate) fn report_at(reports: &[(Slot, Acceptance)], slot: Slot) -> Option<&Acceptance>
    ensures { IsTrue (rises_from slot reports.now)
        → option_map (λ report. report.now) result ≡ report_of slot reports.now }
{
    of_slot(reports.first()?, slot)
}

// What a report says of the slot.
fn of_slot(report: &(Slot, Acceptance), slot: Slot) -> Option<&Acceptance>
    ensures other { report.now.0 ≢ slot → option_map (λ report. report.now) result ≡ None }
    ensures own { report.now.0 ≡ slot → option_map (λ report. report.now) result ≡ Some report.now.1 }
{
    if report.0 == slot {
        Some(&report.1)
    } else {
        None
    }
}
