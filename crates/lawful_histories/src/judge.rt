//! Whether the messages before let a message follow, clause by clause.

ghost use Rattle.std.specs.Prelude.{◌↔◌, ℕ, IsTrue};
ghost use Rattle.std.specs.List.{Any};
ghost use Rattle.lawful_histories.specs.Saying.{saying, says, Accept, Decided};
ghost use Rattle.lawful_histories.specs.Judging.{AnySaid, AllSaid, PromisedAtMost, PromisedBelow, IsReported};
ghost use Rattle.lawful_histories.specs.Judging.{HasValueAt, IsSetOf, HasPromised, HasAccepted, MostPromise};
ghost use Rattle.lawful_histories.specs.Judging.{LetsPropose, MayPropose, MostAccepted, ShowsChosen, MayDecide};
ghost use Rattle.lawful_histories.specs.Judging.{MayReport, MayBeSaid, MayBeSent};

use crate::sayings::{
    acceptor_in, decides, has_value_at, is_reported, promised_at_most, promised_below,
    promiser_within, proposes, reports,
};
use ballots::{Acceptance, Ballot, Body, Members, Message, NodeId, NodeSet, Slot, Value};

/// Whether the messages before let this one follow: of each slot they let be said what it says.
pub(crate) fn may_be_sent(members: Members, before: &[Message], message: &Message) -> bool
    ensures { IsTrue result ↔ MayBeSent members before.now message.now }
{
    may_be_said(members, before, message)
}

// Whether they let be said what it says of its own slot. On all others it is silent.
fn may_be_said(members: Members, before: &[Message], message: &Message) -> bool
    ensures { IsTrue result ↔ MayBeSaid members message.now.slot before.now (saying message.now.sender message.now.body) }
{
    let slot = message.slot;
    match &message.body {
        Body::Promise { ballot, report } => {
            may_promise(before, slot, message.sender, *ballot, report)
        }
        Body::Accept(proposal) => may_accept(members, before, slot, proposal),
        Body::Accepted(acceptance) => may_be_accepted(before, slot, message.sender, acceptance),
        Body::Decided { value } => may_decide(members, before, slot, value),
        Body::Prepare { .. } | Body::Nack { .. } | Body::Ask => true,
    }
}

// Whether an Accept may be sent: it is the only one of its ballot, and its value may be proposed.
fn may_accept(members: Members, before: &[Message], slot: Slot, proposal: &Acceptance) -> bool
    ensures { IsTrue result
        ↔ MayBeSaid members slot before.now (Accept proposal.now.ballot proposal.now.value) }
{
    all_have_value_at(before, slot, proposal.ballot, &proposal.value)
        && may_propose(members, before, slot, proposal.ballot, &proposal.value)
}

// Whether the acceptor may accept this: it was proposed, and nothing higher was promised.
fn may_be_accepted(
    before: &[Message],
    slot: Slot,
    acceptor: NodeId,
    acceptance: &Acceptance,
) -> bool
    ensures { IsTrue result ↔ (AnySaid slot before.now (Accept acceptance.now.ballot acceptance.now.value)
        × AllSaid slot before.now (PromisedAtMost acceptor acceptance.now.ballot)) }
{
    was_proposed(before, slot, acceptance.ballot, &acceptance.value)
        && all_bind_up_to(before, slot, acceptor, acceptance.ballot)
}

// Whether the acceptor may promise the ballot with this report.
fn may_promise(
    before: &[Message],
    slot: Slot,
    acceptor: NodeId,
    ballot: Ballot,
    report: &Option<Acceptance>,
) -> bool
    ensures { IsTrue result ↔ (AllSaid slot before.now (PromisedBelow acceptor ballot)
        × MayReport slot before.now ballot report.now × AllSaid slot before.now (IsReported acceptor report.now)) }
{
    all_bind_below(before, slot, acceptor, ballot)
        && may_report(before, slot, ballot, report)
        && is_highest(before, slot, acceptor, report)
}

// Whether the report is of a ballot below, and was proposed.
fn may_report(before: &[Message], slot: Slot, ballot: Ballot, report: &Option<Acceptance>) -> bool
    ensures { IsTrue result ↔ MayReport slot before.now ballot report.now }
{
    match report {
        Some(reported) => {
            reported.ballot.is_below(ballot)
                && was_proposed(before, slot, reported.ballot, &reported.value)
        }
        None => true,
    }
}

// Whether the acceptor accepted nothing above what it reports.
fn is_highest(before: &[Message], slot: Slot, acceptor: NodeId, report: &Option<Acceptance>) -> bool
    ensures { IsTrue result ↔ AllSaid slot before.now (IsReported acceptor report.now) }
{
    before
        .iter()
        .all(|message| is_reported(message, slot, acceptor, report))
}

fn all_bind_below(before: &[Message], slot: Slot, acceptor: NodeId, ballot: Ballot) -> bool
    ensures { IsTrue result ↔ AllSaid slot before.now (PromisedBelow acceptor ballot) }
{
    before
        .iter()
        .all(|message| promised_below(message, slot, acceptor, ballot))
}

fn all_bind_up_to(before: &[Message], slot: Slot, acceptor: NodeId, ballot: Ballot) -> bool
    ensures { IsTrue result ↔ AllSaid slot before.now (PromisedAtMost acceptor ballot) }
{
    before.iter().all(|message| promised_at_most(message, slot, acceptor, ballot))
}

fn all_have_value_at(before: &[Message], slot: Slot, ballot: Ballot, value: &Value) -> bool
    ensures { IsTrue result ↔ AllSaid slot before.now (HasValueAt ballot value.now) }
{
    before
        .iter()
        .all(|message| has_value_at(message, slot, ballot, value))
}

fn was_proposed(before: &[Message], slot: Slot, ballot: Ballot, value: &Value) -> bool
    ensures { IsTrue result ↔ AnySaid slot before.now (Accept ballot value.now) }
{
    before
        .iter()
        .any(|message| proposes(message, slot, ballot, value))
}

// Whether the value may be proposed at the ballot.
fn may_propose(
    members: Members,
    before: &[Message],
    slot: Slot,
    ballot: Ballot,
    value: &Value,
) -> bool
    ensures { IsTrue result ↔ MayPropose members slot before.now ballot value.now }
{
    most_promise(members, before, slot, ballot, &None)
        || is_highest_report(members, before, slot, ballot, value)
}

// Whether some promise of the ballot reports this value, higher than the reports of a majority.
fn is_highest_report(
    members: Members,
    before: &[Message],
    slot: Slot,
    ballot: Ballot,
    value: &Value,
) -> bool
    ensures { IsTrue result ↔ Any (λ m. LetsPropose members slot before.now ballot value.now (says m slot)) before.now }
{
    before.iter().any(|message| lets_propose(members, before, message, slot, ballot, value))
}

// Whether the message is a member's promise of the ballot that reports this value, and a majority promised with no
// higher report.
fn lets_propose(
    members: Members,
    before: &[Message],
    message: &Message,
    at: Slot,
    promised: Ballot,
    wanted: &Value,
) -> bool
    ensures { IsTrue result ↔ LetsPropose members at before.now promised wanted.now (says message.now at) }
{
    match &message.body {
        Body::Promise { ballot, report } => {
            message.slot == at
                && members.have(message.sender)
                && *ballot == promised
                && reports(report, wanted)
                && most_promise(members, before, at, promised, report)
        }
        _ => false,
    }
}

// Whether a majority promised the ballot with reports within this one.
fn most_promise(
    members: Members,
    before: &[Message],
    slot: Slot,
    ballot: Ballot,
    bound: &Option<Acceptance>,
) -> bool
    ensures { IsTrue result ↔ MostPromise members slot before.now ballot bound.now }
{
    members.are_majority(promisers(before, slot, ballot, bound))
}

// The nodes that promised the ballot with reports within this one.
fn promisers(before: &[Message], slot: Slot, ballot: Ballot, bound: &Option<Acceptance>) -> NodeSet
    ensures { IsSetOf result (HasPromised slot before.now ballot bound.now) }
{
    let mut nodes = NodeSet::new();
    for place in 0..before.len() {
        if let Some(node) = promiser_within(&before[place], slot, ballot, bound) {
            nodes = nodes.with(node);
        }
    }
    nodes
}

// Whether the value may be told as decided. A value that was told before needs no second look at the votes.
fn may_decide(members: Members, before: &[Message], slot: Slot, value: &Value) -> bool
    ensures { IsTrue result ↔ MayDecide members slot before.now value.now }
{
    was_decided(before, slot, value)
        || before.iter().any(|message| shows_chosen(members, before, message, slot, value))
}

fn was_decided(before: &[Message], slot: Slot, value: &Value) -> bool
    ensures { IsTrue result ↔ AnySaid slot before.now (Decided value.now) }
{
    before.iter().any(|message| decides(message, slot, value))
}

// Whether the message is an Accepted of this value, at a ballot at which a majority accepted it.
fn shows_chosen(
    members: Members,
    before: &[Message],
    message: &Message,
    at: Slot,
    wanted: &Value,
) -> bool
    ensures { IsTrue result ↔ ShowsChosen members at before.now wanted.now (says message.now at) }
{
    match &message.body {
        Body::Accepted(acceptance) => {
            message.slot == at
                && acceptance.value == *wanted
                && most_accepted(members, before, at, acceptance.ballot, wanted)
        }
        _ => false,
    }
}

// Whether a majority accepted the value at the ballot.
fn most_accepted(
    members: Members,
    before: &[Message],
    slot: Slot,
    ballot: Ballot,
    value: &Value,
) -> bool
    ensures { IsTrue result ↔ MostAccepted members slot before.now ballot value.now }
{
    members.are_majority(acceptors_of(before, slot, ballot, value))
}

// The nodes that accepted the value at the ballot.
fn acceptors_of(before: &[Message], slot: Slot, ballot: Ballot, value: &Value) -> NodeSet
    ensures { IsSetOf result (HasAccepted slot before.now ballot value.now) }
{
    let mut nodes = NodeSet::new();
    for place in 0..before.len() {
        if let Some(node) = acceptor_in(&before[place], slot, ballot, value) {
            nodes = nodes.with(node);
        }
    }
    nodes
}
