//! What a run weighs: a number that depends on each message that was sent, and on what each event gave.

use ballots::{Acceptance, Ballot, Body, Message, Value};
use part_tasks::weight_of;
use schedule_runner::{EventResult, Trace};
use table_versions::{Answer, Outcome};

fn mixed(sum: u64, number: u64) -> u64 {
    sum.wrapping_mul(31).wrapping_add(number)
}

fn ballot_weight(ballot: Ballot) -> u64 {
    mixed(u64::from(ballot.round()), u64::from(ballot.node().number()))
}

fn value_weight(value: &Value) -> u64 {
    weight_of(value.as_bytes())
}

fn acceptance_weight(acceptance: &Acceptance) -> u64 {
    mixed(
        ballot_weight(acceptance.ballot),
        value_weight(&acceptance.value),
    )
}

fn report_weight(report: &Option<Acceptance>) -> u64 {
    match report {
        Some(report) => acceptance_weight(report),
        None => 0,
    }
}

fn body_weight(body: &Body) -> u64 {
    match body {
        Body::Prepare { ballot } => mixed(1, ballot_weight(*ballot)),
        Body::Promise { ballot, report } => {
            mixed(mixed(2, ballot_weight(*ballot)), report_weight(report))
        }
        Body::Nack { ballot, promised } => {
            mixed(mixed(3, ballot_weight(*ballot)), ballot_weight(*promised))
        }
        Body::Accept(proposal) => mixed(4, acceptance_weight(proposal)),
        Body::Accepted(acceptance) => mixed(5, acceptance_weight(acceptance)),
        Body::Ask => 6,
        Body::Decided { value } => mixed(7, value_weight(value)),
    }
}

fn message_weight(message: &Message) -> u64 {
    let place = mixed(
        u64::from(message.sender.number()),
        u64::from(message.slot.number()),
    );
    mixed(place, body_weight(&message.body))
}

fn outcome_weight(outcome: Outcome) -> u64 {
    match outcome {
        Outcome::Applied(version) => mixed(7, version),
        Outcome::SchemaMismatch => 8,
        Outcome::Conflict => 9,
        Outcome::Unknown => 10,
    }
}

/// What an answer weighs: the number of its bytes, and the last of them.
pub(crate) fn answer_weight(answer: &Answer) -> u64 {
    let bytes = answer.len() as u64;
    match answer.frames().last() {
        Some(last) => bytes
            .wrapping_sub(last.len() as u64)
            .wrapping_add(weight_of(last.as_slice())),
        None => bytes,
    }
}

fn result_weight(given: &EventResult) -> u64 {
    match given {
        EventResult::Sent { first, count } => mixed(mixed(1, *first), *count),
        EventResult::Done => 2,
        EventResult::Answer(answer) => mixed(3, answer_weight(answer)),
        EventResult::Unavailable => 4,
        EventResult::Info(version) => mixed(5, *version),
        EventResult::NoTable => 6,
        EventResult::Outcome(outcome) => outcome_weight(*outcome),
        EventResult::Refused(_) => 11,
    }
}

/// The messages, by how many there are.
fn messages_weight(sent: &[Message]) -> u64 {
    let mut sum = sent.len() as u64;
    for message in sent {
        sum = mixed(sum, message_weight(message));
    }
    sum
}

/// How many messages there are, each of them, and what each event gave.
pub(crate) fn trace_weight(trace: &Trace) -> u64 {
    let mut sum = messages_weight(trace.sent());
    for step in trace.steps() {
        sum = mixed(sum, result_weight(&step.result));
    }
    sum
}
