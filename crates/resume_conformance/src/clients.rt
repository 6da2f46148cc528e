//! What clients are told of their uploads.

use crate::uploading::{ticket, upload};
use node_events::{Event, EventResult};
use stable_records::MemoryStable;
use std::alloc::Global;
use std::test::Fail;
use stored_nodes::StoredNode;
use table_versions::{Answer, Outcome};

/// An upload that a node told to be applied: its number, the version that it is of its table, and what answered the
/// ticket for that version.
#[derive(Drop)]
pub(crate) struct Acknowledged {
    pub(crate) number: u64,
    version: u64,
    answer: Answer,
}

// Which version of its table this node tells the upload to be, if any.
fn version_told(
    alloc: Global,
    node: &mut StoredNode<MemoryStable>,
    number: u64,
) -> Result<Option<u64>, Fail> {
    let mut sent = Vec::new(alloc);
    let asked = Event::Outcome(u64::from(node.me().number()), upload(alloc, number)?);
    let told = node.apply(&mut sent, &asked);
    drop(asked);
    match told {
        Ok(EventResult::Outcome(Outcome::Applied(version))) => Ok(Some(version)),
        Ok(EventResult::Outcome(Outcome::Unknown)) => Ok(None),
        _ => Err(Fail::from("an outcome that no upload here has")),
    }
}

// What this node answers to the ticket for this version of the upload's table.
fn answer_told(
    alloc: Global,
    node: &mut StoredNode<MemoryStable>,
    number: u64,
    version: u64,
) -> Result<Answer, Fail> {
    let mut sent = Vec::new(alloc);
    let asked = Event::Get(
        u64::from(node.me().number()),
        ticket(alloc, number, version)?,
    );
    let told = node.apply(&mut sent, &asked);
    drop(asked);
    match told {
        Ok(EventResult::Answer(answer)) => Ok(answer),
        _ => Err(Fail::from("a version that was told has no answer")),
    }
}

/// What this node acknowledges of the upload of this number, if anything.
pub(crate) fn told_of(
    alloc: Global,
    node: &mut StoredNode<MemoryStable>,
    number: u64,
) -> Result<Option<Acknowledged>, Fail> {
    let Some(version) = version_told(alloc, node, number)? else {
        return Ok(None);
    };
    let answer = answer_told(alloc, node, number, version)?;
    Ok(Some(Acknowledged {
        number,
        version,
        answer,
    }))
}

/// Whether this node acknowledges the same.
pub(crate) fn tells_the_same(
    alloc: Global,
    node: &mut StoredNode<MemoryStable>,
    before: &Acknowledged,
) -> Result<bool, Fail> {
    match told_of(alloc, node, before.number)? {
        Some(now) => Ok(now.version == before.version && now.answer == before.answer),
        None => Ok(false),
    }
}
