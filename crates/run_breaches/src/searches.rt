//! What all messages before a place are to a later one.

ghost use Rattle.std.specs.Prelude.{◌≡◌, ◌↔◌, ℕ, ◌<◌, IsTrue, Some};
ghost use Rattle.std.specs.List.{Any};
ghost use Rattle.lawful_histories.specs.Judging.{IsSetOf};
ghost use Rattle.lawful_histories.specs.Lawful.{IsLawful};
ghost use Rattle.run_breaches.specs.Earlier.{LetsPropose, LetsAccept, LetsPromise, LetsReport, Decides};
ghost use Rattle.run_breaches.specs.Earlier.{Accepts, Promises, IsWithin, WasProposed, MostPromised, IsPromised};
ghost use Rattle.run_breaches.specs.Earlier.{ShowsSafe, MayBeProposed, MostAccepted, WasChosen, ShowsChosen};
ghost use Rattle.run_breaches.specs.Rules.{IsFirstAgainst};
ghost use Rattle.run_breaches.specs.Highest.{Turns, IsBestOf, BoundsReports};

use crate::earlier::{
    acceptor_in, decides, lets_accept, lets_promise, lets_propose, lets_report, promiser_within,
    proposes, reported_by,
};
use ballots::{Acceptance, Ballot, Body, Members, Message, NodeId, NodeSet, Slot, Value};
use lawful_histories::laws::lawful_by_messages;

/// The first Accept of the ballot with another value.
pub(crate) fn first_other_value(
    before: &[Message],
    slot: Slot,
    ballot: Ballot,
    value: &Value,
) -> Option<usize>
    ensures { IsFirstAgainst before.now (LetsPropose slot ballot value.now) result }
{
    before
        .iter()
        .position(|message| !lets_propose(message, slot, ballot, value))
}

/// The first message that binds the node to a ballot above this one.
pub(crate) fn first_bound_above(
    before: &[Message],
    slot: Slot,
    node: NodeId,
    ballot: Ballot,
) -> Option<usize>
    ensures { IsFirstAgainst before.now (LetsAccept slot node ballot) result }
{
    before
        .iter()
        .position(|message| !lets_accept(message, slot, node, ballot))
}

/// The first message that binds the node to this ballot or one above.
pub(crate) fn first_bound_from(
    before: &[Message],
    slot: Slot,
    node: NodeId,
    ballot: Ballot,
) -> Option<usize>
    ensures { IsFirstAgainst before.now (LetsPromise slot node ballot) result }
{
    before
        .iter()
        .position(|message| !lets_promise(message, slot, node, ballot))
}

/// The first Accepted of the node above what is reported.
pub(crate) fn first_unreported(
    before: &[Message],
    slot: Slot,
    node: NodeId,
    report: &Option<Acceptance>,
) -> Option<usize>
    ensures { IsFirstAgainst before.now (LetsReport slot node report.now) result }
{
    before
        .iter()
        .position(|message| !lets_report(message, slot, node, report))
}

/// Whether the value was proposed at the ballot.
pub(crate) fn was_proposed(before: &[Message], slot: Slot, ballot: Ballot, value: &Value) -> bool
    ensures { IsTrue result ↔ WasProposed slot before.now ballot value.now }
{
    before
        .iter()
        .any(|message| proposes(message, slot, ballot, value))
}

/// Whether the value may be proposed at the ballot.
pub(crate) fn is_safe(
    members: Members,
    before: &[Message],
    slot: Slot,
    ballot: Ballot,
    value: &Value,
) -> bool
    ensures { IsTrue result ↔ MayBeProposed members slot before.now ballot value.now }
{
    most_promised(members, before, slot, ballot, None)
        || before.iter().any(|message| shows_safe(members, before, message, slot, ballot, value))
}

// Whether it is a member's Promise of the ballot that reports this value, and a majority promised with no higher
// report.
fn shows_safe(
    members: Members,
    before: &[Message],
    message: &Message,
    at: Slot,
    promised: Ballot,
    wanted: &Value,
) -> bool
    ensures { IsTrue result ↔ ShowsSafe members at before.now promised wanted.now message.now }
{
    match &message.body {
        Body::Promise {
            ballot,
            report: Some(reported),
        } => {
            message.slot == at
                && members.have(message.sender)
                && *ballot == promised
                && reported.value == *wanted
                && most_promised(members, before, at, promised, Some(reported.ballot))
        }
        _ => false,
    }
}

/// Whether a majority promised the ballot.
pub(crate) fn is_promised(members: Members, before: &[Message], slot: Slot, ballot: Ballot) -> bool
    ensures { IsTrue result ↔ IsPromised members slot before.now ballot }
{
    let bound = highest_bound(members, before, slot, ballot);
    most_promised(members, before, slot, ballot, bound)
}

// The highest ballot that members report with their Promises of the ballot.
fn highest_bound(members: Members, before: &[Message], slot: Slot, ballot: Ballot) -> Option<Ballot>
    ensures { BoundsReports members slot before.now ballot result }
{
    match highest_report(members, before, slot, ballot) {
        Some((_, highest)) => Some(highest),
        None => None,
    }
}

// Whether a majority promised the ballot with reports within the bound.
fn most_promised(
    members: Members,
    before: &[Message],
    slot: Slot,
    ballot: Ballot,
    bound: Option<Ballot>,
) -> bool
    ensures { IsTrue result ↔ MostPromised members slot before.now ballot (IsWithin bound) }
{
    members.are_majority(promisers(before, slot, ballot, &bound))
}

// The nodes that promised the ballot with reports within the bound.
fn promisers(before: &[Message], slot: Slot, ballot: Ballot, bound: &Option<Ballot>) -> NodeSet
    ensures { IsSetOf result (λ a. Any (Promises slot ballot (IsWithin bound.now) a) before.now) }
{
    let mut nodes = NodeSet::new();
    for place in 0..before.len() {
        if let Some(node) = promiser_within(&before[place], slot, ballot, bound) {
            nodes = nodes.with(node);
        }
    }
    nodes
}

/// The first Promise of the ballot by a member that reports the highest ballot, with that.
pub(crate) fn highest_report(
    members: Members,
    before: &[Message],
    slot: Slot,
    ballot: Ballot,
) -> Option<(usize, Ballot)>
    ensures { IsBestOf members slot before.now ballot result }
{
    let mut best = None;
    for place in 0..before.len() {
        best = better_of(
            best,
            place,
            reported_by(&before[place], members, slot, ballot),
        );
    }
    best
}

// The best so far, or what is reported in this place where that is higher.
fn better_of(
    best: Option<(usize, Ballot)>,
    place: usize,
    reported: Option<Ballot>,
) -> Option<(usize, Ballot)>
    ensures { Turns best place reported result }
{
    match (best, reported) {
        (_, None) => best,
        (None, Some(ballot)) => Some((place, ballot)),
        (Some((_, highest)), Some(ballot)) => {
            if highest.is_below(ballot) {
                Some((place, ballot))
            } else {
                best
            }
        }
    }
}

/// Whether the value was chosen. After a lawful history a value that was told as decided needs no second look at the
/// votes.
pub(crate) fn was_chosen(members: Members, before: &[Message], slot: Slot, value: &Value) -> bool
    requires { IsLawful members before.now }
    ensures { IsTrue result ↔ WasChosen members slot before.now value.now }
{
    lawful_by_messages();
    was_decided(before, slot, value) || is_shown(members, before, slot, value)
}

// Whether the votes show that the value was chosen.
fn is_shown(members: Members, before: &[Message], slot: Slot, value: &Value) -> bool
    ensures { IsTrue result ↔ Any (ShowsChosen members slot before.now value.now) before.now }
{
    before.iter().any(|message| shows_chosen(members, before, message, slot, value))
}

fn was_decided(before: &[Message], slot: Slot, value: &Value) -> bool
    ensures { IsTrue result ↔ Any (Decides slot value.now) before.now }
{
    before.iter().any(|message| decides(message, slot, value))
}

// Whether it is an Accepted of this value, at a ballot at which a majority accepted it.
fn shows_chosen(
    members: Members,
    before: &[Message],
    message: &Message,
    at: Slot,
    wanted: &Value,
) -> bool
    ensures { IsTrue result ↔ ShowsChosen members at before.now wanted.now message.now }
{
    match &message.body {
        Body::Accepted(acceptance) => {
            message.slot == at
                && acceptance.value == *wanted
                && most_accepted(members, before, at, acceptance.ballot, wanted)
        }
        _ => false,
    }
}

// Whether a majority accepted the value at the ballot.
fn most_accepted(
    members: Members,
    before: &[Message],
    slot: Slot,
    ballot: Ballot,
    value: &Value,
) -> bool
    ensures { IsTrue result ↔ MostAccepted members slot before.now ballot value.now }
{
    members.are_majority(acceptors_of(before, slot, ballot, value))
}

// The nodes that accepted the value at the ballot.
fn acceptors_of(before: &[Message], slot: Slot, ballot: Ballot, value: &Value) -> NodeSet
    ensures { IsSetOf result (λ a. Any (Accepts slot ballot value.now a) before.now) }
{
    let mut nodes = NodeSet::new();
    for place in 0..before.len() {
        if let Some(node) = acceptor_in(&before[place], slot, ballot, value) {
            nodes = nodes.with(node);
        }
    }
    nodes
}
