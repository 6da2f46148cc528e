//! What is told of a history that is unlawful, and of files of recorded runs (Lamport, *Paxos Made Simple*, section 2).

use crate::histories::History;
use crate::{shown, words};
use audit_command::{audit_run, explain_run};
use ballots::Message;
use breach_words::message_line;
use run_breaches::{Breach, BrokenRules, are_lawful_by_slot, first_breach, first_breach_by_slot};
use std::alloc::Global;
use story_requests::{RequestFault, Response, Words};

/// Answers what is asked of a file or of a message.
pub(crate) fn answer(
    alloc: Global,
    asked: &str,
    words: &mut Words<'_>,
    answer: &mut Response,
) -> Result<(), RequestFault> {
    match asked {
        "explain" => explain(alloc, words, answer),
        "audit" => audit(alloc, words, answer),
        _ => line(alloc, words, answer),
    }
}

// The explained audit of a file: its status, what it writes, and what it says of a fault.
fn explain(
    alloc: Global,
    words: &mut Words<'_>,
    answer: &mut Response,
) -> Result<(), RequestFault> {
    let file = words.bytes(alloc)?;
    let mut output = Vec::new(alloc);
    let mut said = Vec::new(alloc);
    let status = explain_run(alloc, &file, &mut output, &mut said);
    show(status, &output, &said, answer)
}

// The same of the audit that is not explained.
fn audit(alloc: Global, words: &mut Words<'_>, answer: &mut Response) -> Result<(), RequestFault> {
    let file = words.bytes(alloc)?;
    let mut output = Vec::new(alloc);
    let mut said = Vec::new(alloc);
    let status = audit_run(alloc, &file, &mut output, &mut said);
    show(status, &output, &said, answer)
}

fn show(status: u8, output: &[u8], said: &[u8], answer: &mut Response) -> Result<(), RequestFault> {
    answer.number(u64::from(status))?;
    answer.bytes(output)?;
    answer.bytes(said)
}

/// The first breach of a history, as both searches find it; then whether the history is lawful, by the index of slots.
pub(crate) fn breach(
    alloc: Global,
    history: &History,
    answer: &mut Response,
) -> Result<(), RequestFault> {
    let members = history.members();
    let said = history.said();
    let found = first_breach(members, said);
    let by_slot = first_breach_by_slot(alloc, members, said)?;
    if found != by_slot {
        return answer.word("FoundOtherwise");
    }
    let is_lawful = are_lawful_by_slot(alloc, members, said)?;
    shown::whether(is_lawful, answer)?;
    match found {
        Some(breach) => show_breach(&breach, answer),
        None => Ok(()),
    }
}

// The place and the slot of the message, and the rules that it breaks.
fn show_breach(breach: &Breach, answer: &mut Response) -> Result<(), RequestFault> {
    answer.number(breach.place as u64)?;
    answer.number(u64::from(breach.slot.number()))?;
    show_rules(&breach.broken, answer)
}

// The kind of the message, and of each rule of its kind the place of the message that it goes against, or whether it is
// broken.
fn show_rules(broken: &BrokenRules, answer: &mut Response) -> Result<(), RequestFault> {
    match broken {
        BrokenRules::Promise {
            not_above,
            unreported,
            report_not_below,
            report_not_proposed,
        } => {
            answer.word("Promise")?;
            show_place(*not_above, answer)?;
            show_place(*unreported, answer)?;
            shown::whether(*report_not_below, answer)?;
            shown::whether(*report_not_proposed, answer)
        }
        BrokenRules::Accept {
            second_value,
            not_promised,
            not_reported,
        } => {
            answer.word("Accept")?;
            show_place(*second_value, answer)?;
            shown::whether(*not_promised, answer)?;
            show_place(*not_reported, answer)
        }
        BrokenRules::Accepted {
            not_proposed,
            below,
        } => {
            answer.word("Accepted")?;
            shown::whether(*not_proposed, answer)?;
            show_place(*below, answer)
        }
        BrokenRules::Decided => answer.word("Decided"),
    }
}

fn show_place(place: Option<usize>, answer: &mut Response) -> Result<(), RequestFault> {
    match place {
        Some(place) => answer.number(place as u64),
        None => answer.word("no"),
    }
}

// The line of a message, in which a long upload is shown by its ends.
fn line(alloc: Global, words: &mut Words<'_>, answer: &mut Response) -> Result<(), RequestFault> {
    let message = words::message(alloc, words)?;
    show_line(alloc, &message, answer)
}

fn show_line(alloc: Global, message: &Message, answer: &mut Response) -> Result<(), RequestFault> {
    let line = message_line(alloc, message)?;
    answer.bytes(line.as_bytes())
}
