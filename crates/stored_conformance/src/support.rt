//! Seats, and what is asked of them.

use agreement::AgreementConfig;
use ballots::{Members, Message, NodeId};
use header_types::Schema;
use node_events::{Event, EventResult, Reason, TableText};
use stable_records::{Stable, StoreFault};
use std::alloc::Global;
use std::hash::RandomState;
use std::test::Fail;
use stored_nodes::{StoredNode, StoredNodeFault};
use table_versions::Outcome;
use uploads::{Upload, UploadFault};

/// The upload without batches to the table `t`, of this number.
pub(crate) fn upload(alloc: Global, number: u64) -> Result<Upload, Fail> {
    let schema = Schema {
        fields: Vec::new(alloc),
        metadata: Vec::new(alloc),
    };
    let id = u128::from(number).to_be_bytes();
    match Upload::new(alloc, "t", id, &schema, &[]) {
        Ok(upload) => Ok(upload),
        Err(UploadFault::OutOfMemory) => Err(Fail::from("OutOfMemory")),
        Err(_) => Err(Fail::from("no upload")),
    }
}

/// Why no seat is opened, or none.
#[derive(Clone, Copy, Debug, PartialEq, Eq)]
pub(crate) enum Unopened {
    HasRecords,
    Store(StoreFault),
}

/// The only member of a configuration of a hundred slots, with this store, or why it is not opened.
pub(crate) fn seat<S: Stable + Drop>(
    alloc: Global,
    hashing: RandomState,
    store: S,
) -> Result<Result<Box<StoredNode<S>>, Unopened>, Fail> {
    let me = NodeId::new(0).ok_or("no node")?;
    let members = Members::new(1).ok_or("no members")?;
    let config = AgreementConfig::new(members, 100).ok_or("no config")?;
    match StoredNode::open(alloc, hashing, me, config, store) {
        Ok(Some(seat)) => Ok(Ok(Box::new(alloc, seat)?)),
        Ok(None) => Ok(Err(Unopened::HasRecords)),
        Err(fault) => Ok(Err(Unopened::Store(fault))),
    }
}

/// What an event gave, in short.
#[derive(Clone, Copy, Debug, PartialEq, Eq)]
pub(crate) enum Gave {
    Sent(u64, u64),
    Done,
    NoTable,
    Applied(u64),
    Other,
    Refused(Reason),
    Failed(StoredNodeFault),
}

/// Applies the event. It takes the event, so that this is the one place where one is dropped.
pub(crate) fn apply<S: Stable + Drop>(
    seat: &mut StoredNode<S>,
    sent: &mut Vec<Message>,
    event: Event,
) -> Gave {
    match seat.apply(sent, &event) {
        Ok(EventResult::Sent { first, count }) => Gave::Sent(first, count),
        Ok(EventResult::Done) => Gave::Done,
        Ok(EventResult::NoTable) => Gave::NoTable,
        Ok(EventResult::Outcome(Outcome::Applied(version))) => Gave::Applied(version),
        Ok(EventResult::Refused(reason)) => Gave::Refused(reason),
        Ok(_) => Gave::Other,
        Err(fault) => Gave::Failed(fault),
    }
}

/// Asks for the latest version of the table `t`.
pub(crate) fn info(alloc: Global) -> Result<Event, Fail> {
    let table = TableText::new(String::from_str(alloc, "t")?);
    Ok(Event::Info(0, table))
}

/// Whether the node is down.
pub(crate) fn is_down<S: Stable + Drop>(
    alloc: Global,
    seat: &mut StoredNode<S>,
) -> Result<bool, Fail> {
    let mut sent = Vec::new(alloc);
    Ok(apply(seat, &mut sent, info(alloc)?) == Gave::Refused(Reason::Down))
}

/// The round of the Prepare that was sent last, 0 where none was.
pub(crate) fn last_round(sent: &[Message]) -> u32 {
    match sent.last() {
        Some(
            Message {
                body: ballots::Body::Prepare { ballot },
                ..
            },
        ) => ballot.round(),
        _ => 0,
    }
}

/// Fails where it does not hold.
pub(crate) fn check(holds: bool, what: &'static str) -> Result<(), Fail> {
    if holds { Ok(()) } else { Err(Fail::from(what)) }
}
