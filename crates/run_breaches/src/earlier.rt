//! What one message that was sent before is to a later one, asked one question at a time.

ghost use Rattle.std.specs.Prelude.{◌≡◌, ◌↔◌, ℕ, IsTrue, Some};
ghost use Rattle.lawful_histories.specs.Judging.{ReportCovers};
ghost use Rattle.ballots.specs.Ballot.{Ballot as Pair};
ghost use Rattle.run_breaches.specs.Earlier.{bound_in, LetsPropose, LetsAccept, LetsPromise, LetsReport, Proposes};
ghost use Rattle.run_breaches.specs.Earlier.{Accepts, Promises, Reports, Decides, IsWithin};

use ballots::{Acceptance, Ballot, Body, Members, Message, NodeId, Slot, Value};

/// Whether it proposes nothing but this value at this ballot.
pub(crate) fn lets_propose(message: &Message, at: Slot, proposed: Ballot, wanted: &Value) -> bool
    ensures { IsTrue result ↔ LetsPropose at proposed wanted.now message.now }
{
    match &message.body {
        Body::Accept(proposal) => {
            message.slot != at || proposal.ballot != proposed || proposal.value == *wanted
        }
        _ => true,
    }
}

/// The ballot to which it binds its sender: the one that it promises, or at which it accepts.
fn bound_of(message: &Message) -> Option<Ballot>
    ensures { result ≡ bound_in message.now.body }
{
    match &message.body {
        Body::Promise { ballot, .. } | Body::Accepted(Acceptance { ballot, .. }) => Some(*ballot),
        _ => None,
    }
}

/// Whether it binds the node to no ballot above this one.
pub(crate) fn lets_accept(message: &Message, at: Slot, node: NodeId, ballot: Ballot) -> bool
    ensures { IsTrue result ↔ LetsAccept at node ballot message.now }
{
    match bound_of(message) {
        Some(bound) => message.slot != at || message.sender != node || !ballot.is_below(bound),
        None => true,
    }
}

/// Whether it binds the node to ballots below this one alone.
pub(crate) fn lets_promise(message: &Message, at: Slot, node: NodeId, ballot: Ballot) -> bool
    ensures { IsTrue result ↔ LetsPromise at node ballot message.now }
{
    match bound_of(message) {
        Some(bound) => message.slot != at || message.sender != node || bound.is_below(ballot),
        None => true,
    }
}

/// Whether the report is of the ballot at which the node accepts by it, if it does, or of a higher one.
pub(crate) fn lets_report(
    message: &Message,
    at: Slot,
    node: NodeId,
    report: &Option<Acceptance>,
) -> bool
    ensures { IsTrue result ↔ LetsReport at node report.now message.now }
{
    match &message.body {
        Body::Accepted(acceptance) => {
            message.slot != at || message.sender != node || report_covers(report, acceptance.ballot)
        }
        _ => true,
    }
}

/// Whether the report is of this ballot or a higher one.
fn report_covers(report: &Option<Acceptance>, ballot: Ballot) -> bool
    ensures { IsTrue result ↔ ReportCovers report.now ballot }
{
    match report {
        Some(reported) => !reported.ballot.is_below(ballot),
        None => false,
    }
}

/// Whether it proposes this value at this ballot.
pub(crate) fn proposes(message: &Message, at: Slot, proposed: Ballot, wanted: &Value) -> bool
    ensures { IsTrue result ↔ Proposes at proposed wanted.now message.now }
{
    match &message.body {
        Body::Accept(proposal) => {
            message.slot == at && proposal.ballot == proposed && proposal.value == *wanted
        }
        _ => false,
    }
}

/// Whether it tells that this value is decided.
pub(crate) fn decides(message: &Message, at: Slot, wanted: &Value) -> bool
    ensures { IsTrue result ↔ Decides at wanted.now message.now }
{
    match &message.body {
        Body::Decided { value } => message.slot == at && *value == *wanted,
        _ => false,
    }
}

/// The sender, where it is an Accepted of this value at this ballot.
pub(crate) fn acceptor_in(
    message: &Message,
    at: Slot,
    accepted: Ballot,
    wanted: &Value,
) -> Option<NodeId>
    ensures { (a : ℕ) → (result ≡ Some a) ↔ Accepts at accepted wanted.now a message.now }
{
    match &message.body {
        Body::Accepted(acceptance)
            if message.slot == at && acceptance.ballot == accepted && acceptance.value == *wanted =>
            { Some(message.sender) }
        _ => None,
    }
}

/// The sender, where it is a Promise of this ballot with a report within the bound.
pub(crate) fn promiser_within(
    message: &Message,
    at: Slot,
    promised: Ballot,
    bound: &Option<Ballot>,
) -> Option<NodeId>
    ensures { (a : ℕ) → (result ≡ Some a) ↔ Promises at promised (IsWithin bound.now) a message.now }
{
    match &message.body {
        Body::Promise { ballot, report }
            if message.slot == at && *ballot == promised && is_within(report, bound) => {
            Some(message.sender)
        }
        _ => None,
    }
}

/// Whether the report is of no ballot above the bound, or is none where there is no bound.
fn is_within(report: &Option<Acceptance>, bound: &Option<Ballot>) -> bool
    ensures { IsTrue result ↔ IsWithin bound.now report.now }
{
    match (bound, report) {
        (_, None) => true,
        (None, Some(_)) => false,
        (Some(highest), Some(reported)) => !highest.is_below(reported.ballot),
    }
}

/// The ballot that it reports, where it is a member's Promise of this ballot.
pub(crate) fn reported_by(
    message: &Message,
    members: Members,
    at: Slot,
    promised: Ballot,
) -> Option<Ballot>
    ensures { (h : Pair) → (result ≡ Some h) ↔ Reports members at promised (λ q. q.ballot ≡ h) message.now }
{
    match &message.body {
        Body::Promise {
            ballot,
            report: Some(reported),
        } if message.slot == at && members.have(message.sender) && *ballot == promised => {
            Some(reported.ballot)
        }
        _ => None,
    }
}
