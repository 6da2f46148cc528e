//! Which rules a message breaks, by what it is.

ghost use Rattle.std.specs.Prelude.{◌↔◌, ℕ, IsTrue};
ghost use Rattle.lawful_histories.specs.Lawful.{IsLawful};
ghost use Rattle.run_breaches.specs.Rules.{BodyTells, TellsReport, IsReportBelow, IsReportProposed};

use crate::breach::BrokenRules;
use crate::searches::{
    first_bound_above, first_bound_from, first_other_value, first_unreported, highest_report,
    is_promised, is_safe, was_chosen, was_proposed,
};
use ballots::{Acceptance, Ballot, Body, Members, Message, NodeId, Slot, Value};

/// Which rules the message breaks after these messages, `None` where it keeps them all.
pub(crate) fn broken_rules(
    members: Members,
    before: &[Message],
    message: &Message,
) -> Option<BrokenRules>
    requires { IsLawful members before.now }
    ensures { BodyTells members message.now.slot before.now message.now.sender message.now.body result }
{
    let slot = message.slot;
    match &message.body {
        Body::Promise { ballot, report } => {
            broken_by_promise(before, slot, message.sender, *ballot, report)
        }
        Body::Accept(proposal) => broken_by_accept(members, before, slot, proposal),
        Body::Accepted(acceptance) => broken_by_accepted(before, slot, message.sender, acceptance),
        Body::Decided { value } => broken_by_decided(members, before, slot, value),
        Body::Prepare { .. } | Body::Nack { .. } | Body::Ask => None,
    }
}

fn broken_by_promise(
    before: &[Message],
    slot: Slot,
    node: NodeId,
    ballot: Ballot,
    report: &Option<Acceptance>,
) -> Option<BrokenRules>
    ensures { (n : ℕ) → BodyTells n slot before.now node (Body.Promise ballot report.now) result }
{
    let not_above = first_bound_from(before, slot, node, ballot);
    let unreported = first_unreported(before, slot, node, report);
    let report_not_below = !is_report_below(report, ballot);
    let report_not_proposed = !is_report_proposed(before, slot, report);
    if not_above.is_some() || unreported.is_some() || report_not_below || report_not_proposed {
        return Some(BrokenRules::Promise {
            not_above,
            unreported,
            report_not_below,
            report_not_proposed,
        });
    }
    None
}

// Whether what is reported, if anything, is of a ballot below this one.
fn is_report_below(report: &Option<Acceptance>, ballot: Ballot) -> bool
    ensures { IsTrue result ↔ IsReportBelow report.now ballot }
{
    match report {
        Some(reported) => reported.ballot.is_below(ballot),
        None => true,
    }
}

// Whether what is reported, if anything, was proposed.
fn is_report_proposed(before: &[Message], slot: Slot, report: &Option<Acceptance>) -> bool
    ensures { IsTrue result ↔ IsReportProposed slot before.now report.now }
{
    match report {
        Some(reported) => was_proposed(before, slot, reported.ballot, &reported.value),
        None => true,
    }
}

fn broken_by_accept(
    members: Members,
    before: &[Message],
    slot: Slot,
    proposal: &Acceptance,
) -> Option<BrokenRules>
    ensures { (node : ℕ) → BodyTells members slot before.now node (Body.Accept proposal.now) result }
{
    let second_value = first_other_value(before, slot, proposal.ballot, &proposal.value);
    let not_promised = !is_promised(members, before, slot, proposal.ballot);
    let not_reported = unsafe_report(members, before, slot, proposal);
    if second_value.is_some() || not_promised || not_reported.is_some() {
        return Some(BrokenRules::Accept {
            second_value,
            not_promised,
            not_reported,
        });
    }
    None
}

// The place of the highest report, where a majority promised the ballot and the value is not safe.
fn unsafe_report(
    members: Members,
    before: &[Message],
    slot: Slot,
    proposal: &Acceptance,
) -> Option<usize>
    ensures { TellsReport members slot before.now proposal.now.ballot proposal.now.value result }
{
    let ballot = proposal.ballot;
    if !is_promised(members, before, slot, ballot)
        || is_safe(members, before, slot, ballot, &proposal.value)
    {
        return None;
    }
    match highest_report(members, before, slot, ballot) {
        Some((place, _)) => Some(place),
        None => None,
    }
}

fn broken_by_accepted(
    before: &[Message],
    slot: Slot,
    node: NodeId,
    acceptance: &Acceptance,
) -> Option<BrokenRules>
    ensures { (n : ℕ) → BodyTells n slot before.now node (Body.Accepted acceptance.now) result }
{
    let not_proposed = !was_proposed(before, slot, acceptance.ballot, &acceptance.value);
    let below = first_bound_above(before, slot, node, acceptance.ballot);
    if not_proposed || below.is_some() {
        return Some(BrokenRules::Accepted {
            not_proposed,
            below,
        });
    }
    None
}

fn broken_by_decided(
    members: Members,
    before: &[Message],
    slot: Slot,
    value: &Value,
) -> Option<BrokenRules>
    requires { IsLawful members before.now }
    ensures { (node : ℕ) → BodyTells members slot before.now node (Body.Decided value.now) result }
{
    if was_chosen(members, before, slot, value) {
        return None;
    }
    Some(BrokenRules::Decided)
}
