//! The events of a leader that loses no message.

use crate::plan::Plan;
use part_tasks::push;
use schedule_runner::Event;
use std::alloc::{AllocError, Global};
use uploads::Upload;

/// Delivers the message of this number to so many nodes.
fn push_to(events: &mut Vec<Event>, nodes: u8, number: u64) -> Result<(), AllocError> {
    for node in 0..nodes {
        push(events, Event::Deliver(u64::from(node), number))?;
    }
    Ok(())
}

/// Delivers so many messages, the first of which has this number, each to so many nodes. Gives the number of the message
/// behind them.
fn push_messages(
    events: &mut Vec<Event>,
    messages: u8,
    nodes: u8,
    first: u64,
) -> Result<u64, AllocError> {
    for further in 0..messages {
        push_to(events, nodes, first.wrapping_add(u64::from(further)))?;
    }
    Ok(first.wrapping_add(u64::from(messages)))
}

/// An upload is put to the first node, which begins with a tick.
fn push_put(events: &mut Vec<Event>, upload: &Upload) -> Result<(), AllocError> {
    push(events, Event::Put(0, upload.clone()?))?;
    push(events, Event::Tick(0, 0))
}

/// What happens so that one upload is decided at the first of the members and learned by all: its Prepare, which has
/// this number, goes to all of them, their promises to the first, its Accept to all, and what each accepted to all.
/// Gives the number of the message that is sent next.
fn push_decision(
    events: &mut Vec<Event>,
    members: u8,
    prepare: u64,
    upload: &Upload,
) -> Result<u64, AllocError> {
    push_put(events, upload)?;
    let promised = push_messages(events, 1, members, prepare)?;
    let accept = push_messages(events, members, 1, promised)?;
    let accepted = push_messages(events, 1, members, accept)?;
    push_messages(events, members, members, accepted)
}

/// One upload after the other is put and decided.
fn push_decisions(
    events: &mut Vec<Event>,
    members: u8,
    uploads: &[Upload],
) -> Result<(), AllocError> {
    let mut next = 0;
    for upload in uploads {
        next = push_decision(events, members, next, upload)?;
    }
    Ok(())
}

/// Asks each of the members what has become of an upload.
fn push_questions(events: &mut Vec<Event>, members: u8, upload: &Upload) -> Result<(), AllocError> {
    for node in 0..members {
        push(events, Event::Outcome(u64::from(node), upload.clone()?))?;
    }
    Ok(())
}

/// The uploads are put and decided one after the other, and in the end each member is asked about the last of them.
pub(crate) fn events_of(alloc: Global, plan: &Plan) -> Result<Vec<Event>, AllocError> {
    let members = plan.config.members.count();
    let mut events = Vec::new(alloc);
    push_decisions(&mut events, members, &plan.uploads)?;
    if let Some(last) = plan.uploads.last() {
        push_questions(&mut events, members, last)?;
    }
    Ok(events)
}
