//! Runs, what is asked of them, and uploads without batches.

use ballots::Members;
use header_types::Schema;
use schedule_runner::{Event, EventResult, Trace};
use std::alloc::Global;
use std::test::Fail;
use table_types::Ticket;
use uploads::{Upload, UploadFault};

/// So many members.
pub(crate) fn members(count: u8) -> Result<Members, Fail> {
    Ok(Members::new(count).ok_or("no members")?)
}

/// The upload without batches to the table `t`, of this number.
pub(crate) fn upload(alloc: Global, number: u64) -> Result<Upload, Fail> {
    let schema = Schema {
        fields: Vec::new(alloc),
        metadata: Vec::new(alloc),
    };
    let id = u128::from(number).to_be_bytes();
    match Upload::new(alloc, "t", id, &schema, &[]) {
        Ok(upload) => Ok(upload),
        Err(UploadFault::OutOfMemory) => Err(Fail::from("OutOfMemory")),
        Err(_) => Err(Fail::from("no upload")),
    }
}

/// The ticket for this version of the table `t`.
pub(crate) fn ticket(alloc: Global, version: u64) -> Result<Ticket, Fail> {
    Ok(Ticket::new(String::from_str(alloc, "t")?, version).ok_or("no ticket")?)
}

/// Each of these messages comes to the node before it.
pub(crate) fn push_deliveries(
    events: &mut Vec<Event>,
    deliveries: &[(u64, u64)],
) -> Result<(), Fail> {
    for (node, number) in deliveries {
        events.push(Event::Deliver(*node, *number))?;
    }
    Ok(())
}

/// Of an attempt of node 0 whose Prepare has this number, each message to the nodes by which it is decided there. Six are
/// sent.
pub(crate) fn push_attempt(events: &mut Vec<Event>, first: u64) -> Result<(), Fail> {
    for (node, number) in [
        (0, 0),
        (1, 0),
        (0, 1),
        (0, 2),
        (0, 3),
        (1, 3),
        (0, 4),
        (0, 5),
    ] {
        events.push(Event::Deliver(node, first.saturating_add(number)))?;
    }
    Ok(())
}

/// Whether all answers in the run are one.
pub(crate) fn answers_are_one(trace: &Trace) -> bool {
    let mut answers = trace.steps().iter().filter_map(|step| match &step.result {
        EventResult::Answer(answer) => Some(answer),
        _ => None,
    });
    match answers.next() {
        Some(first) => answers.all(|answer| answer == first),
        None => true,
    }
}
