//! The line of each event: its number, and what it gave.

ghost use Rattle.std.specs.Prelude.{◌≡◌, ◌+◌, ◌++◌, IfOk, OnOk, codes, decimal, string_bytes};
ghost use Rattle.hex.specs.Hex.{encode_lower};
ghost use Rattle.replay_command.specs.Lines.{numbers_text, sent_text, done_text, outcome_text, reason_text, result_text, line_of};

use std::alloc::{AllocError, Global};
use table_versions::{Answer, Outcome};
use traces::{Event, EventResult, Reason, Step};

/// The number so many places behind the first one. Two numbers of 64 bits have room for their sum in 128.
fn number_behind(first: u64, more: u64) -> u128
    ensures { result ≡ first + more }
{
    u128::from(first) + u128::from(more)
}

fn number_text(alloc: Global, number: u128) -> Result<String, AllocError>
    ensures { IfOk result (λ text. string_bytes text ≡ codes "," ++ decimal number) }
{
    format!(in alloc; ",{number}")
}

/// Appends a comma and the number so many places behind the first one.
fn push_number(alloc: Global, text: &mut String, first: u64, more: u64) -> Result<(), AllocError>
    ensures { OnOk result (string_bytes text.new ≡ string_bytes text.old ++ (codes "," ++ decimal (first + more))) }
{
    let number = number_text(alloc, number_behind(first, more))?;
    text.push_str(number.as_str())?;
    Ok(())
}

/// The numbers from the first one on, so many more than one, with commas between them.
fn numbers_text(alloc: Global, first: u64, more: u64) -> Result<String, AllocError>
    ensures { IfOk result (λ text. string_bytes text ≡ numbers_text first more) }
{
    let mut text = format!(in alloc; "{first}")?;
    for told in 0..more {
        push_number(alloc, &mut text, first, told + 1)?;
    }
    Ok(text)
}

/// The messages that were sent.
fn sent_text(alloc: Global, first: u64, count: u64) -> Result<String, AllocError>
    ensures { IfOk result (λ text. string_bytes text ≡ sent_text first count) }
{
    if count == 0 {
        return String::from_str(alloc, "sent -");
    }
    let numbers = numbers_text(alloc, first, count - 1)?;
    format!(in alloc; "sent {numbers}")
}

/// What is said of an event that was taken.
fn done_text(event: &Event) -> &'static str
    ensures { result.now ≡ done_text event.now }
{
    match event {
        Event::TickCut(..) | Event::DeliverCut(..) => "cut",
        Event::Put(..)
        | Event::Tick(..)
        | Event::Deliver(..)
        | Event::Restart(..)
        | Event::Get(..)
        | Event::Info(..)
        | Event::Outcome(..) => "done",
    }
}

fn outcome_text(alloc: Global, outcome: Outcome) -> Result<String, AllocError>
    ensures { IfOk result (λ text. string_bytes text ≡ outcome_text outcome) }
{
    match outcome {
        Outcome::Applied(version) => format!(in alloc; "applied {version}"),
        Outcome::SchemaMismatch => String::from_str(alloc, "mismatch"),
        Outcome::Conflict => String::from_str(alloc, "conflict"),
        Outcome::Unknown => String::from_str(alloc, "unknown"),
    }
}

/// The name of the reason why an event was refused.
fn reason_text(reason: Reason) -> &'static str
    ensures { result.now ≡ reason_text reason }
{
    match reason {
        Reason::OutOfRange => "OutOfRange",
        Reason::SlotsSpent => "SlotsSpent",
        Reason::RoundsSpent => "RoundsSpent",
        Reason::OutOfMemory => "OutOfMemory",
        Reason::Down => "Down",
        Reason::NotSent => "NotSent",
    }
}

fn answer_text(alloc: Global, answer: &Answer) -> Result<String, AllocError>
    ensures { IfOk result (λ text. string_bytes text ≡ codes "answer " ++ encode_lower answer.now) }
{
    let bytes = answer.to_vec(alloc)?;
    let digits = hex::encode(alloc, bytes.as_slice())?;
    format!(in alloc; "answer {digits}")
}

fn refused_text(alloc: Global, reason: Reason) -> Result<String, AllocError>
    ensures { IfOk result (λ text. string_bytes text ≡ codes "refused " ++ reason_text reason) }
{
    let name = reason_text(reason);
    format!(in alloc; "refused {name}")
}

/// What a step gave.
fn result_text(alloc: Global, step: &Step) -> Result<String, AllocError>
    ensures { IfOk result (λ text. string_bytes text ≡ result_text step.now.event step.now.result) }
{
    match &step.result {
        EventResult::Sent { first, count } => sent_text(alloc, *first, *count),
        EventResult::Done => String::from_str(alloc, done_text(&step.event)),
        EventResult::Answer(answer) => answer_text(alloc, answer),
        EventResult::Unavailable => String::from_str(alloc, "unavailable"),
        EventResult::Info(version) => format!(in alloc; "info {version}"),
        EventResult::NoTable => String::from_str(alloc, "notable"),
        EventResult::Outcome(outcome) => outcome_text(alloc, *outcome),
        EventResult::Refused(reason) => refused_text(alloc, *reason),
    }
}

/// The line of the event of this number.
pub(crate) fn line_of(alloc: Global, number: usize, step: &Step) -> Result<String, AllocError>
    ensures { IfOk result (λ line. string_bytes line ≡ line_of number step.now) }
{
    let result = result_text(alloc, step)?;
    format!(in alloc; "{number} {result}\n")
}
