//! Calls that are refused memory, and then are asked again: a refusal changes nothing, and takes no other fault's place.
//! Run with every allocation refused in turn, each test ends as before or for want of memory.

use crate::support::{batches, id, no_tables, schema, small, small_value};
use ballots::Value;
use batch_columns::Batch;
use bytes::Bytes;
use header_types::Schema;
use std::alloc::{AllocError, Global};
use std::test::Fail;
use table_types::{Ticket, TicketFault};
use table_versions::{Answer, Outcome, TableInfo, Tables};
use uploads::{DecodeFault, Upload, UploadFault};

/// An upload of these batches.
fn new(
    alloc: Global,
    table: &str,
    schema: &Schema,
    batches: &[Batch],
) -> Result<Upload, UploadFault> {
    match Upload::new(alloc, table, id(1), schema, batches) {
        Err(UploadFault::OutOfMemory) => Upload::new(alloc, table, id(1), schema, batches),
        made => made,
    }
}

/// The upload that these bytes are.
fn decode(alloc: Global, text: &Bytes) -> Result<Result<Upload, DecodeFault>, AllocError> {
    match Upload::decode(alloc, text.clone()?) {
        Err(DecodeFault::OutOfMemory) => Ok(Upload::decode(alloc, text.clone()?)),
        read => Ok(read),
    }
}

/// An upload of two batches.
fn two_batches(alloc: Global) -> Result<Upload, Fail> {
    let batches = batches(alloc, &[3, 0])?;
    let schema = schema(alloc)?;
    match new(alloc, "t", &schema, batches.as_slice()) {
        Ok(upload) => Ok(upload),
        Err(_) => Err(Fail::from("no upload")),
    }
}

#[test]
fn an_upload_is_made(rt: HostRuntime) -> Result<(), Fail> {
    let upload = two_batches(rt.alloc())?;
    let count = upload.batch_count();
    assert!(rt; count == 2);
    Ok(())
}

#[test]
fn an_upload_to_no_table_is_not_made(rt: HostRuntime) -> Result<(), Fail> {
    let schema = schema(rt.alloc())?;
    let fault = new(rt.alloc(), "a/b", &schema, &[]).err();
    assert!(rt; fault == Some(UploadFault::BadTable));
    Ok(())
}

#[test]
fn an_upload_is_read(rt: HostRuntime) -> Result<(), Fail> {
    let upload = two_batches(rt.alloc())?;
    let text = upload.encode()?;
    let read = decode(rt.alloc(), &text)?;
    assert!(rt; read.is_ok_and(|read| read == upload));
    Ok(())
}

/// The bytes of an upload.
fn encode(upload: &Upload) -> Result<Bytes, AllocError> {
    match upload.encode() {
        Ok(text) => Ok(text),
        Err(_) => upload.encode(),
    }
}

#[test]
fn an_upload_is_written(rt: HostRuntime) -> Result<(), Fail> {
    let upload = two_batches(rt.alloc())?;
    let text = encode(&upload)?;
    assert!(rt; text.as_slice() == upload.as_slice());
    Ok(())
}

#[test]
fn bytes_that_are_none_are_not_read(rt: HostRuntime) -> Result<(), Fail> {
    let upload = two_batches(rt.alloc())?;
    let mut bytes = Vec::from_slice(rt.alloc(), upload.as_slice())?;
    bytes.push(0)?;
    let text = Bytes::from_vec(bytes)?;
    let fault = decode(rt.alloc(), &text)?.err();
    assert!(rt; fault == Some(DecodeFault::NotAnUpload));
    Ok(())
}

/// The batches of an upload.
fn batches_of(alloc: Global, upload: &Upload) -> Result<Vec<Batch>, AllocError> {
    match upload.batches(alloc) {
        Ok(batches) => Ok(batches),
        Err(_) => upload.batches(alloc),
    }
}

#[test]
fn batches_are_those_that_were_uploaded(rt: HostRuntime) -> Result<(), Fail> {
    let upload = two_batches(rt.alloc())?;
    let read = batches_of(rt.alloc(), &upload)?;
    let wanted = batches(rt.alloc(), &[3, 0])?;
    assert!(rt; read == wanted);
    Ok(())
}

const TICKET: [u8; 5] = [0x0a, 1, b't', 0x10, 2];

/// The ticket that these bytes are.
fn read_ticket(alloc: Global, bytes: &[u8]) -> Result<Ticket, TicketFault> {
    match Ticket::decode(alloc, bytes) {
        Err(TicketFault::OutOfMemory) => Ticket::decode(alloc, bytes),
        read => read,
    }
}

#[test]
fn a_ticket_is_read(rt: HostRuntime) -> Result<(), Fail> {
    let read = read_ticket(rt.alloc(), &TICKET);
    assert!(rt; read.is_ok_and(|ticket| ticket.table() == "t" && ticket.version() == 2));
    Ok(())
}

#[test]
fn bytes_that_are_no_ticket_are_not_read(rt: HostRuntime) -> Result<(), Fail> {
    let fault = read_ticket(rt.alloc(), &[0x0a, 1, b'/', 0x10, 2]).err();
    assert!(rt; fault == Some(TicketFault::BadTicket));
    Ok(())
}

/// The bytes of the ticket for a version of the table `t`.
fn written_ticket(alloc: Global, version: u64) -> Result<Vec<u8>, Fail> {
    let ticket = ticket_for(alloc, version)?;
    Ok(match ticket.encode(alloc) {
        Ok(bytes) => bytes,
        Err(_) => ticket.encode(alloc)?,
    })
}

/// The ticket for a version of the table `t`.
fn ticket_for(alloc: Global, version: u64) -> Result<Ticket, Fail> {
    let name = String::from_str(alloc, "t")?;
    match Ticket::new(name, version) {
        Some(ticket) => Ok(ticket),
        None => Err(Fail::from("no ticket")),
    }
}

#[test]
fn a_ticket_is_written(rt: HostRuntime) -> Result<(), Fail> {
    let bytes = written_ticket(rt.alloc(), 2)?;
    assert!(rt; bytes.as_slice() == TICKET.as_slice());
    Ok(())
}

/// The tables take the values, and where memory is refused they are asked again: they hold as many as before.
fn take(tables: &mut Tables, values: &[Value]) -> Result<(), Fail> {
    if tables.taken() > 100 || values.len() > 100 {
        return Err(Fail::from("too many"));
    }
    let before = tables.taken();
    let ready = match tables.ready(values) {
        Ok(ready) => ready,
        Err(_) if tables.taken() == before => tables.ready(values)?,
        Err(_) => return Err(Fail::from("something was taken")),
    };
    tables.apply(ready);
    Ok(())
}

/// Two uploads to the table `t` and one to `s`.
fn three(alloc: Global) -> Result<Vec<Value>, Fail> {
    let mut values = Vec::new(alloc);
    values.push(small_value(alloc, "t", 1)?)?;
    values.push(small_value(alloc, "s", 2)?)?;
    values.push(small_value(alloc, "t", 3)?)?;
    Ok(values)
}

/// Tables that took one upload, and then three.
fn taken(rt: &HostRuntime) -> Result<Box<Tables>, Fail> {
    let alloc = rt.alloc();
    let first = small_value(alloc, "r", 0)?;
    let three = three(alloc)?;
    let mut tables = no_tables(rt)?;
    take(&mut tables, std::slice::from_ref(&first))?;
    take(&mut tables, three.as_slice())?;
    Ok(tables)
}

#[test]
fn uploads_are_taken(rt: HostRuntime) -> Result<(), Fail> {
    let tables = taken(&rt)?;
    let last = small(rt.alloc(), "t", 3)?;
    assert!(rt; tables.taken() == 4 && tables.outcome(&last) == Outcome::Applied(2));
    Ok(())
}

/// What answers a ticket.
fn answer(tables: &Tables, ticket: &Ticket) -> Result<Option<Answer>, AllocError> {
    match tables.answer(ticket) {
        Ok(answer) => Ok(answer),
        Err(_) => tables.answer(ticket),
    }
}

#[test]
fn a_ticket_is_answered(rt: HostRuntime) -> Result<(), Fail> {
    let tables = taken(&rt)?;
    let ticket = ticket_for(rt.alloc(), 2)?;
    let answer = answer(&tables, &ticket)?;
    assert!(rt; answer.is_some_and(|answer| answer.len() == 152 + 2 * 23));
    Ok(())
}

#[test]
fn a_ticket_for_no_version_has_no_answer(rt: HostRuntime) -> Result<(), Fail> {
    let tables = taken(&rt)?;
    let ticket = ticket_for(rt.alloc(), 3)?;
    let answer = tables.answer(&ticket);
    assert!(rt; answer == Ok(None));
    Ok(())
}

/// The latest version of a table.
fn latest(tables: &Tables, table: &str) -> Result<Option<TableInfo>, AllocError> {
    match tables.latest(table) {
        Ok(info) => Ok(info),
        Err(_) => tables.latest(table),
    }
}

#[test]
fn the_latest_version_is_told(rt: HostRuntime) -> Result<(), Fail> {
    let tables = taken(&rt)?;
    let info = latest(&tables, "t")?;
    assert!(rt; info.is_some_and(|info| info.version == 2 && info.total_bytes == 152 + 2 * 23));
    Ok(())
}

#[test]
fn no_table_has_no_version(rt: HostRuntime) -> Result<(), Fail> {
    let tables = taken(&rt)?;
    let info = tables.latest("u");
    assert!(rt; info.is_ok_and(|info| info.is_none()));
    Ok(())
}

/// The names of the tables.
fn names(tables: &Tables) -> Result<Vec<String>, AllocError> {
    match tables.tables() {
        Ok(names) => Ok(names),
        Err(_) => tables.tables(),
    }
}

/// Whether they are these.
fn are(names: &[String], wanted: &[&str]) -> bool {
    names.len() == wanted.len()
        && names
            .iter()
            .zip(wanted)
            .all(|(name, text)| name.as_str() == *text)
}

#[test]
fn the_tables_are_told(rt: HostRuntime) -> Result<(), Fail> {
    let tables = taken(&rt)?;
    let names = names(&tables)?;
    assert!(rt; are(names.as_slice(), &["r", "t", "s"]));
    Ok(())
}
