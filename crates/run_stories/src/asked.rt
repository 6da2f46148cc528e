//! What requests name: nodes, uploads and events.

use ballots::Members;
use bytes::Bytes;
use schedule_runner::{Config, Event, TableText};
use std::alloc::{AllocError, Global};
use story_requests::{RequestFault, Words};
use table_types::Ticket;
use uploads::{DecodeFault, Upload};

fn byte_of(words: &mut Words<'_>) -> Result<u8, RequestFault> {
    match u8::try_from(words.number()?) {
        Ok(number) => Ok(number),
        Err(_) => Err(RequestFault::BadRequest),
    }
}

/// The nodes and the slots that come next.
pub(crate) fn config_of(words: &mut Words<'_>) -> Result<Config, RequestFault> {
    let count = byte_of(words)?;
    let slots = words.number()?;
    match (Members::new(count), u32::try_from(slots)) {
        (Some(members), Ok(slot_limit)) => Ok(Config {
            members,
            slot_limit,
            journal_limit: 1,
        }),
        _ => Err(RequestFault::BadRequest),
    }
}

fn shared(bytes: Vec<u8>) -> Result<Bytes, AllocError> {
    Ok(Bytes::from_vec(bytes)?)
}

fn decoded(alloc: Global, bytes: Bytes) -> Result<Upload, RequestFault> {
    match Upload::decode(alloc, bytes) {
        Ok(upload) => Ok(upload),
        Err(DecodeFault::NotAnUpload) => Err(RequestFault::BadRequest),
        Err(DecodeFault::OutOfMemory) => Err(RequestFault::OutOfMemory),
    }
}

/// The upload that the next bytes are.
pub(crate) fn upload_of(alloc: Global, words: &mut Words<'_>) -> Result<Upload, RequestFault> {
    let bytes = shared(words.bytes(alloc)?)?;
    decoded(alloc, bytes)
}

fn upload_at(uploads: &[Upload], words: &mut Words<'_>) -> Result<Upload, RequestFault> {
    match uploads.get(words.number()? as usize) {
        Some(upload) => Ok(upload.clone()?),
        None => Err(RequestFault::BadRequest),
    }
}

fn ticket_of(alloc: Global, words: &mut Words<'_>) -> Result<Ticket, RequestFault> {
    let table = String::from_str(alloc, words.next())?;
    let version = words.number()?;
    match Ticket::new(table, version) {
        Some(ticket) => Ok(ticket),
        None => Err(RequestFault::BadRequest),
    }
}

fn table_of(alloc: Global, words: &mut Words<'_>) -> Result<TableText, AllocError> {
    Ok(TableText::new(String::from_str(alloc, words.next())?))
}

/// The event of this name, with its node and what follows.
pub(crate) fn event_of(
    alloc: Global,
    uploads: &[Upload],
    name: &str,
    words: &mut Words<'_>,
) -> Result<Event, RequestFault> {
    let node = words.number()?;
    match name {
        "put" => Ok(Event::Put(node, upload_at(uploads, words)?)),
        "tick" => Ok(Event::Tick(node, byte_of(words)?)),
        "deliver" => Ok(Event::Deliver(node, words.number()?)),
        "tickcut" => Ok(Event::TickCut(node, byte_of(words)?)),
        "delivercut" => Ok(Event::DeliverCut(node, words.number()?)),
        "restart" => Ok(Event::Restart(node)),
        "get" => Ok(Event::Get(node, ticket_of(alloc, words)?)),
        "info" => Ok(Event::Info(node, table_of(alloc, words)?)),
        "outcome" => Ok(Event::Outcome(node, upload_at(uploads, words)?)),
        _ => Err(RequestFault::BadRequest),
    }
}
