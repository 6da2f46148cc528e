//! The value that an attempt would propose, by what is reported so far.

ghost use Rattle.std.specs.Prelude.{◌++◌, ◌∷◌, [], List, IsTrue, ◌↔◌, option_map, option_to_list};
ghost use Rattle.ballots.specs.Ballot.{IsAbove};
ghost use Rattle.ballots.specs.declared.value.Value.{Value as Held};
ghost use Rattle.proposer.specs.Choosing.{PromiseReport, IsHighest, Chooses};
ghost use Rattle.proposer.specs.Counting.{IsBest, IsTop};

use ballots::{Acceptance, Ballot, Value};

/// The best value so far: the candidate, or that of the highest report, which has a ballot.
#[derive(Debug, Drop)]
pub(crate) struct Choice {
    pub(crate) reported_at: Option<Ballot>,
    pub(crate) value: Value,
}

impl Choice {
    /// The candidate, where nothing was reported yet.
    pub(crate) fn own(candidate: Value) -> Choice
        ensures { IsBest candidate [] result.reported_at result.value }
    {
        Choice {
            reported_at: None,
            value: candidate,
        }
    }
}

/// The better of the choice so far and a report: that of the higher ballot, and of equal ones the choice.
pub(crate) fn higher_of(choice: Choice, report: Option<Acceptance>) -> Choice
    ensures { (candidate : Held) (reports : List PromiseReport) → IsBest candidate reports choice.reported_at choice.value
        → IsBest candidate (reports ++ option_to_list report) result.reported_at result.value }
{
    match report {
        Some(report) => higher_of_report(choice, report),
        None => choice,
    }
}

fn higher_of_report(choice: Choice, report: Acceptance) -> Choice
    ensures { (candidate : Held) (reports : List PromiseReport) → IsBest candidate reports choice.reported_at choice.value
        → IsBest candidate (reports ++ report ∷ []) result.reported_at result.value }
{
    let Acceptance { ballot, value } = report;
    if !is_better(choice.reported_at, ballot) {
        return choice;
    }
    Choice {
        reported_at: Some(ballot),
        value,
    }
}

/// The value that `higher_of` would take.
pub(crate) fn higher_value<'a>(choice: &'a Choice, report: Option<&'a Acceptance>) -> &'a Value
    ensures { (candidate : Held) (reports : List PromiseReport)
        → IsBest candidate reports choice.now.reported_at choice.now.value
        → Chooses candidate (reports ++ option_to_list (option_map (λ report. report.now) report.entry)) result.now }
{
    match report {
        Some(report) if is_better(choice.reported_at, report.ballot) => &report.value,
        _ => &choice.value,
    }
}

/// The higher of a report, if there is one, and the highest so far; of equal ones the latter.
pub(crate) fn higher_report<'a>(
    highest: Option<&'a Acceptance>,
    report: Option<&'a Acceptance>,
) -> Option<&'a Acceptance>
    ensures { (reports : List PromiseReport) → IsTop reports (option_map (λ report. report.now) highest.entry)
        → IsTop (reports ++ option_to_list (option_map (λ report. report.now) report.entry))
        (option_map (λ report. report.now) result) }
{
    match (highest, report) {
        (Some(highest), Some(report)) => Some(higher_of_two(highest, report)),
        (None, report) => report,
        (highest, None) => highest,
    }
}

fn higher_of_two<'a>(highest: &'a Acceptance, report: &'a Acceptance) -> &'a Acceptance
    ensures { (reports : List PromiseReport) → IsHighest reports highest.now
        → IsHighest (reports ++ report.now ∷ []) result.now }
{
    if highest.ballot.is_below(report.ballot) {
        report
    } else {
        highest
    }
}

/// The value of the highest report, or the candidate where there is none.
pub(crate) fn value_or<'a>(highest: Option<&'a Acceptance>, candidate: &'a Value) -> &'a Value
    ensures { (reports : List PromiseReport) → IsTop reports (option_map (λ report. report.now) highest.entry)
        → Chooses candidate.now reports result.now }
{
    match highest {
        Some(report) => &report.value,
        None => candidate,
    }
}

// Whether a report of this ballot goes before the choice so far.
fn is_better(reported_at: Option<Ballot>, ballot: Ballot) -> bool
    ensures { IsTrue result ↔ IsAbove ballot reported_at }
{
    match reported_at {
        Some(highest) => highest.is_below(ballot),
        None => true,
    }
}
