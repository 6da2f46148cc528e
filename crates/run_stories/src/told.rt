//! The words of what is told of a run.

use ballots::Message;
use schedule_runner::{Event, EventResult, Reason, Step};
use std::alloc::Global;
use story_requests::{RequestFault, Response};
use table_versions::{Answer as Served, Outcome};

fn tell_numbered(name: &str, number: u64, answer: &mut Response) -> Result<(), RequestFault> {
    answer.word(name)?;
    answer.number(number)
}

fn tell_sent(first: u64, count: u64, answer: &mut Response) -> Result<(), RequestFault> {
    tell_numbered("sent", first, answer)?;
    answer.number(count)
}

fn tell_served(alloc: Global, served: &Served, answer: &mut Response) -> Result<(), RequestFault> {
    answer.word("answer")?;
    answer.bytes(served.to_vec(alloc)?.as_slice())
}

fn tell_outcome(outcome: Outcome, answer: &mut Response) -> Result<(), RequestFault> {
    match outcome {
        Outcome::Applied(version) => tell_numbered("applied", version, answer),
        Outcome::SchemaMismatch => answer.word("mismatch"),
        Outcome::Conflict => answer.word("conflict"),
        Outcome::Unknown => answer.word("unknown"),
    }
}

fn reason_name(reason: Reason) -> &'static str {
    match reason {
        Reason::OutOfRange => "OutOfRange",
        Reason::SlotsSpent => "SlotsSpent",
        Reason::RoundsSpent => "RoundsSpent",
        Reason::OutOfMemory => "OutOfMemory",
        Reason::Down => "Down",
        Reason::NotSent => "NotSent",
    }
}

fn tell_reason(reason: Reason, answer: &mut Response) -> Result<(), RequestFault> {
    answer.word("refused")?;
    answer.word(reason_name(reason))
}

// What a cut gives is told as such.
fn done_name(event: &Event) -> &'static str {
    match event {
        Event::TickCut(..) | Event::DeliverCut(..) => "cut",
        _ => "done",
    }
}

fn tell_step(alloc: Global, step: &Step, answer: &mut Response) -> Result<(), RequestFault> {
    match &step.result {
        EventResult::Sent { first, count } => tell_sent(*first, *count, answer),
        EventResult::Done => answer.word(done_name(&step.event)),
        EventResult::Answer(served) => tell_served(alloc, served, answer),
        EventResult::Unavailable => answer.word("unavailable"),
        EventResult::Info(version) => tell_numbered("info", *version, answer),
        EventResult::NoTable => answer.word("notable"),
        EventResult::Outcome(outcome) => tell_outcome(*outcome, answer),
        EventResult::Refused(reason) => tell_reason(*reason, answer),
    }
}

/// Tells what each step gave.
pub(crate) fn tell_steps(
    alloc: Global,
    steps: &[Step],
    answer: &mut Response,
) -> Result<(), RequestFault> {
    for step in steps {
        tell_step(alloc, step, answer)?;
    }
    Ok(())
}

fn tell_message(
    alloc: Global,
    message: &Message,
    answer: &mut Response,
) -> Result<(), RequestFault> {
    let mut bytes = Vec::new(alloc);
    message.encode(&mut bytes)?;
    answer.bytes(bytes.as_slice())
}

/// Tells the bytes of each message.
pub(crate) fn tell_messages(
    alloc: Global,
    sent: &[Message],
    answer: &mut Response,
) -> Result<(), RequestFault> {
    for message in sent {
        tell_message(alloc, message, answer)?;
    }
    Ok(())
}
