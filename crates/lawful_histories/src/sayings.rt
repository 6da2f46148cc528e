//! What one message says of a slot, asked one question at a time.

ghost use Rattle.std.specs.Prelude.{◌≡◌, ◌↔◌, ℕ, IsTrue, Some};
ghost use Rattle.std.specs.Option.{option_map};
ghost use Rattle.lawful_histories.specs.Saying.{says, Accept, Accepted, Decided};
ghost use Rattle.lawful_histories.specs.Judging.{bound_in, PromisedAtMost, PromisedBelow, ReportCovers, IsReported, HasValueAt, IsWithin, IsReportOf, PromisesWithin};

use ballots::{Acceptance, Ballot, Body, Message, NodeId, Slot, Value};

/// Whether it proposes this value at this ballot.
pub(crate) fn proposes(message: &Message, at: Slot, proposed: Ballot, wanted: &Value) -> bool
    ensures { IsTrue result ↔ (says message.now at ≡ Accept proposed wanted.now) }
{
    match &message.body {
        Body::Accept(proposal) => {
            message.slot == at && proposal.ballot == proposed && proposal.value == *wanted
        }
        _ => false,
    }
}

/// Whether it proposes nothing but this value at this ballot.
pub(crate) fn has_value_at(message: &Message, at: Slot, proposed: Ballot, wanted: &Value) -> bool
    ensures { IsTrue result ↔ HasValueAt proposed wanted.now (says message.now at) }
{
    match &message.body {
        Body::Accept(proposal) => {
            message.slot != at || proposal.ballot != proposed || proposal.value == *wanted
        }
        _ => true,
    }
}

/// The sender, where it is an Accepted of this value at this ballot.
pub(crate) fn acceptor_in(
    message: &Message,
    at: Slot,
    accepted: Ballot,
    wanted: &Value,
) -> Option<NodeId>
    ensures { (a : ℕ) → (result ≡ Some a) ↔ (says message.now at ≡ Accepted a accepted wanted.now) }
{
    match &message.body {
        Body::Accepted(acceptance)
            if message.slot == at && acceptance.ballot == accepted && acceptance.value == *wanted =>
            { Some(message.sender) }
        _ => None,
    }
}

/// Whether it says that this value is decided.
pub(crate) fn decides(message: &Message, at: Slot, wanted: &Value) -> bool
    ensures { IsTrue result ↔ (says message.now at ≡ Decided wanted.now) }
{
    match &message.body {
        Body::Decided { value } => message.slot == at && *value == *wanted,
        _ => false,
    }
}

/// The ballot to which it binds the acceptor: that of its promise, or at which it accepted.
fn bound_of(message: &Message, at: Slot, acceptor: NodeId) -> Option<Ballot>
    ensures { result ≡ bound_in acceptor (says message.now at) }
{
    match &message.body {
        Body::Promise { ballot, .. } | Body::Accepted(Acceptance { ballot, .. })
            if message.slot == at && message.sender == acceptor => { Some(*ballot) }
        _ => None,
    }
}

/// Whether it binds the acceptor to no ballot above this one.
pub(crate) fn promised_at_most(message: &Message, at: Slot, acceptor: NodeId, limit: Ballot) -> bool
    ensures { IsTrue result ↔ PromisedAtMost acceptor limit (says message.now at) }
{
    match bound_of(message, at, acceptor) {
        Some(bound) => !limit.is_below(bound),
        None => true,
    }
}

/// Whether it binds the acceptor to ballots below this one alone.
pub(crate) fn promised_below(message: &Message, at: Slot, acceptor: NodeId, limit: Ballot) -> bool
    ensures { IsTrue result ↔ PromisedBelow acceptor limit (says message.now at) }
{
    match bound_of(message, at, acceptor) {
        Some(bound) => bound.is_below(limit),
        None => true,
    }
}

/// Whether the report covers what the acceptor accepted by it, if anything.
pub(crate) fn is_reported(
    message: &Message,
    at: Slot,
    acceptor: NodeId,
    report: &Option<Acceptance>,
) -> bool
    ensures { IsTrue result ↔ IsReported acceptor report.now (says message.now at) }
{
    match &message.body {
        Body::Accepted(acceptance) => {
            message.slot != at
                || message.sender != acceptor
                || report_covers(report, acceptance.ballot)
        }
        _ => true,
    }
}

/// Whether the report is of this ballot or a higher one.
fn report_covers(report: &Option<Acceptance>, ballot: Ballot) -> bool
    ensures { IsTrue result ↔ ReportCovers report.now ballot }
{
    match report {
        Some(reported) => !reported.ballot.is_below(ballot),
        None => false,
    }
}

/// The sender, where it is a promise of this ballot that reports nothing above this report, or nothing at all where
/// that reports nothing.
pub(crate) fn promiser_within(
    message: &Message,
    at: Slot,
    promised: Ballot,
    bound: &Option<Acceptance>,
) -> Option<NodeId>
    ensures { (a : ℕ) → (result ≡ Some a) ↔ PromisesWithin a promised bound.now (says message.now at) }
{
    match &message.body {
        Body::Promise { ballot, report }
            if message.slot == at && *ballot == promised && is_within(report, bound) => {
            Some(message.sender)
        }
        _ => None,
    }
}

/// Whether the report is of no ballot above the bound's, or is none where the bound is none.
fn is_within(report: &Option<Acceptance>, bound: &Option<Acceptance>) -> bool
    ensures { IsTrue result ↔ IsWithin bound.now report.now }
{
    match (bound, report) {
        (_, None) => true,
        (None, Some(_)) => false,
        (Some(highest), Some(reported)) => !highest.ballot.is_below(reported.ballot),
    }
}

/// Whether it is a report of this value.
pub(crate) fn reports(report: &Option<Acceptance>, wanted: &Value) -> bool
    ensures { IsTrue result ↔ IsReportOf wanted.now report.now }
{
    match report {
        Some(reported) => reported.value == *wanted,
        None => false,
    }
}
