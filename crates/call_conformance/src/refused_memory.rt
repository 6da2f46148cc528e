//! Calls that are refused memory, and then are made again: a service answers with the trailer of that name alone, and a
//! client is told so, behind a beginning of its request, and has read nothing behind the trailer.
//! Run with every allocation refused in turn, each test ends as before or for want of memory.

use crate::asked::{FIRST, INFO, OK, PUT, TOLD, UNAVAILABLE};
use crate::gotten::ticket;
use crate::support::{backend, bytes, upload};
use client_calls::{
    ClientFault, Download, call_get, call_get_frames, call_info, call_list, call_put,
};
use flight_calls::{CallFault, serve_call};
use proto_wire::FlightInfo;
use std::alloc::{AllocError, Global};
use std::test::Fail;
use table_backend::TableBackend;
use table_types::Ticket;
use uploads::Upload;

/// The frames of the paths of a get, a schema's call and a list.
const GET_PATH: &str = "\
    000000002a2f6172726f772e666c696768742e70726f746f636f6c2e466c69676874536572766963652f446f476574";

const SCHEMA_PATH: &str = "\
    000000002e2f6172726f772e666c696768742e70726f746f636f6c2e466c69676874536572766963652f476574536368656d61";

const LIST_PATH: &str = "\
    00000000302f6172726f772e666c696768742e70726f746f636f6c2e466c69676874536572766963652f4c697374466c69676874\
    73";

/// The frames of the ticket for version 1 of t, of the path to t, and of no expression, each with the end behind it.
const TICKET: &str = "00000000070a050a017410018000000000";

const TABLE: &str = "000000000508011a01748000000000";

const ALL: &str = "00000000008000000000";

/// The trailer of status 8.
const OUT_OF_MEMORY: &[u8] = b"\x80\x00\x00\x00\x0c\x08OutOfMemory";

/// What a request is answered. The writer has its room beforehand, so that no write fails.
fn answer(alloc: Global, backend: &mut TableBackend, request: &[u8]) -> Result<Vec<u8>, Fail> {
    let mut reader = request;
    let mut writer = Vec::with_capacity(alloc, 1_000)?;
    match serve_call(alloc, &mut reader, &mut writer, backend) {
        Ok(()) => Ok(writer),
        Err(_) => Err(Fail::from("not served")),
    }
}

/// The answer to the request of these digits; where memory is refused, the trailer alone says so, and it is made again.
fn served(alloc: Global, backend: &mut TableBackend, parts: &[&str]) -> Result<Vec<u8>, Fail> {
    let request = bytes(alloc, parts)?;
    let answer = self::answer(alloc, backend, request.as_slice())?;
    if answer.as_slice() == OUT_OF_MEMORY {
        return self::answer(alloc, backend, request.as_slice());
    }
    Ok(answer)
}

/// Whether there are so many bytes, of which the last are the trailer of a call that was answered.
fn is_whole(answer: &[u8], length: usize) -> bool {
    answer.len() == length && answer.ends_with(b"\x80\x00\x00\x00\x01\x00")
}

/// Whether the upload is put, and then each of the other calls is answered of it.
fn are_served(alloc: Global, backend: &mut TableBackend) -> Result<bool, Fail> {
    let put = served(alloc, backend, &[PUT])?;
    let is_put = put.as_slice() == bytes(alloc, &[FIRST, OK])?.as_slice();
    let is_got = is_whole(&served(alloc, backend, &[GET_PATH, TICKET])?, 355);
    let is_told = is_whole(&served(alloc, backend, &[INFO])?, 230);
    let is_shown = is_whole(&served(alloc, backend, &[SCHEMA_PATH, TABLE])?, 174);
    let is_listed = is_whole(&served(alloc, backend, &[LIST_PATH, ALL])?, 230);
    Ok(is_put && is_got && is_told && is_shown && is_listed)
}

#[test]
fn each_call_is_served_again(rt: HostRuntime) -> Result<(), Fail> {
    let mut backend = backend(&rt)?;
    assert!(rt; are_served(rt.alloc(), &mut backend)?);
    assert!(rt; backend.tables().taken() == 1);
    Ok(())
}

/// What stands behind the trailers here, and is not read.
const BEHIND: &str = "0000";

/// Where a client may stand in an answer when it is refused memory: in front of it, behind the five bytes in front of a
/// payload, and behind a payload. In that of a version, whose frames have 160, 189 and 6 bytes.
const OF_GET: [usize; 7] = [0, 5, 160, 165, 349, 354, 355];

/// In the answer to a put, whose frames have 27 and 6 bytes.
const OF_PUT: [usize; 5] = [0, 5, 27, 32, 33];

/// In what is told of a table, in 12 and 6 bytes, and of two.
const OF_INFO: [usize; 5] = [0, 5, 12, 17, 18];

const OF_LIST: [usize; 7] = [0, 5, 12, 17, 24, 29, 30];

/// In an answer with a message of 70,000 bytes, of which room for 65,536 is made first.
const OF_LONG: [usize; 6] = [0, 5, 65_541, 70_005, 70_010, 70_011];

/// In a refusal.
const OF_REFUSAL: [usize; 3] = [0, 5, 17];

/// Whether so many bytes of an answer were read as may be: up to one of these places where memory was refused, else to
/// the last.
fn is_read<T>(told: &Result<T, ClientFault>, taken: usize, places: &[usize]) -> bool {
    match told {
        Err(ClientFault::Call(CallFault::OutOfMemory)) => places.contains(&taken),
        Ok(_) | Err(_) => places.last() == Some(&taken),
    }
}

/// What a client gets of an answer, and a beginning of the request.
fn get(
    alloc: Global,
    answer: &[u8],
    ticket: &Ticket,
) -> Result<Result<Download, ClientFault>, Fail> {
    let mut reader = answer;
    let mut writer = Vec::with_capacity(alloc, 100)?;
    let got = call_get(alloc, &mut reader, &mut writer, ticket);
    let request = bytes(alloc, &[GET_PATH, TICKET])?;
    let taken = answer.len().saturating_sub(reader.len());
    if request.starts_with(writer.as_slice()) && is_read(&got, taken, &OF_GET) {
        return Ok(got);
    }
    Err(Fail::from("another request or rest"))
}

/// The version; where memory is refused, it is got again.
fn gotten(alloc: Global, answer: &[u8], ticket: &Ticket) -> Result<Download, Fail> {
    let got = match get(alloc, answer, ticket)? {
        Err(ClientFault::Call(CallFault::OutOfMemory)) => get(alloc, answer, ticket)?,
        got => got,
    };
    Ok(got?)
}

#[test]
fn a_version_is_got_again(rt: HostRuntime) -> Result<(), Fail> {
    let mut backend = backend(&rt)?;
    served(rt.alloc(), &mut backend, &[PUT])?;
    let mut answer = served(rt.alloc(), &mut backend, &[GET_PATH, TICKET])?;
    answer.extend_from_slice(bytes(rt.alloc(), &[BEHIND])?.as_slice())?;
    let ticket = ticket(rt.alloc(), 1)?;
    let download = gotten(rt.alloc(), answer.as_slice(), &ticket)?;
    assert!(rt; download.uploads.len() == 1 && download.schema.fields.len() == 1);
    Ok(())
}

/// The frames that a client gets of an answer, and a beginning of the request.
fn frames(
    alloc: Global,
    answer: &[u8],
    ticket: &Ticket,
    places: &[usize],
) -> Result<Result<Vec<u8>, ClientFault>, Fail> {
    let mut reader = answer;
    let mut writer = Vec::with_capacity(alloc, 100)?;
    let got = call_get_frames(alloc, &mut reader, &mut writer, ticket);
    let request = bytes(alloc, &[GET_PATH, TICKET])?;
    let taken = answer.len().saturating_sub(reader.len());
    if request.starts_with(writer.as_slice()) && is_read(&got, taken, places) {
        return Ok(got);
    }
    Err(Fail::from("another request or rest"))
}

/// The frames; where memory is refused, they are got again.
fn gotten_frames(
    alloc: Global,
    answer: &[u8],
    ticket: &Ticket,
    places: &[usize],
) -> Result<Vec<u8>, Fail> {
    let got = match frames(alloc, answer, ticket, places)? {
        Err(ClientFault::Call(CallFault::OutOfMemory)) => frames(alloc, answer, ticket, places)?,
        got => got,
    };
    Ok(got?)
}

#[test]
fn frames_are_got_again(rt: HostRuntime) -> Result<(), Fail> {
    let mut backend = backend(&rt)?;
    served(rt.alloc(), &mut backend, &[PUT])?;
    let mut answer = served(rt.alloc(), &mut backend, &[GET_PATH, TICKET])?;
    answer.extend_from_slice(bytes(rt.alloc(), &[BEHIND])?.as_slice())?;
    let ticket = ticket(rt.alloc(), 1)?;
    let got = gotten_frames(rt.alloc(), answer.as_slice(), &ticket, &OF_GET)?;
    assert!(rt; got.len() == 349 && answer.starts_with(got.as_slice()));
    Ok(())
}

/// An answer with a message of 70,000 bytes, and two bytes behind its trailer.
fn long_answer(alloc: Global) -> Result<Vec<u8>, AllocError> {
    let mut answer = Vec::from_slice(alloc, &[0, 0, 1, 0x11, 0x70])?;
    let payload = vec![in alloc; 7; 70_000]?;
    answer.extend_from_slice(payload.as_slice())?;
    answer.extend_from_slice(b"\x80\x00\x00\x00\x01\x00\x00\x00")?;
    Ok(answer)
}

#[test]
fn a_long_message_is_got_again(rt: HostRuntime) -> Result<(), Fail> {
    let answer = long_answer(rt.alloc())?;
    let ticket = ticket(rt.alloc(), 1)?;
    let got = gotten_frames(rt.alloc(), answer.as_slice(), &ticket, &OF_LONG)?;
    assert!(rt; got.len() == 70_005 && answer.starts_with(got.as_slice()));
    Ok(())
}

/// What a client makes of the answer to a put, behind a beginning of its request.
fn put(alloc: Global, upload: &Upload) -> Result<Result<u64, ClientFault>, Fail> {
    let answer = bytes(alloc, &[FIRST, OK, BEHIND])?;
    let mut reader = answer.as_slice();
    let mut writer = Vec::with_capacity(alloc, 1_000)?;
    let told = call_put(alloc, &mut reader, &mut writer, upload);
    let request = bytes(alloc, &[PUT])?;
    let taken = answer.len().saturating_sub(reader.len());
    if request.starts_with(writer.as_slice()) && is_read(&told, taken, &OF_PUT) {
        return Ok(told);
    }
    Err(Fail::from("another request or rest"))
}

#[test]
fn a_version_is_told_again(rt: HostRuntime) -> Result<(), Fail> {
    let upload = upload(rt.alloc())?;
    let told = match put(rt.alloc(), &upload)? {
        Err(ClientFault::Call(CallFault::OutOfMemory)) => put(rt.alloc(), &upload)?,
        told => told,
    };
    assert!(rt; told? == 1);
    Ok(())
}

/// What a client makes of what is told of t, behind a beginning of its request.
fn info(alloc: Global) -> Result<Result<FlightInfo, ClientFault>, Fail> {
    let answer = bytes(alloc, &[TOLD, OK, BEHIND])?;
    let mut reader = answer.as_slice();
    let mut writer = Vec::with_capacity(alloc, 100)?;
    let told = call_info(alloc, &mut reader, &mut writer, "t");
    let request = bytes(alloc, &[INFO])?;
    let taken = answer.len().saturating_sub(reader.len());
    if request.starts_with(writer.as_slice()) && is_read(&told, taken, &OF_INFO) {
        return Ok(told);
    }
    Err(Fail::from("another request or rest"))
}

#[test]
fn a_table_is_told_again(rt: HostRuntime) -> Result<(), Fail> {
    let told = match info(rt.alloc())? {
        Err(ClientFault::Call(CallFault::OutOfMemory)) => info(rt.alloc())?,
        told => told,
    };
    assert!(rt; told?.total_records == 5);
    Ok(())
}

/// What a client makes of what these digits tell of all tables, behind a beginning of its request.
fn list(
    alloc: Global,
    parts: &[&str],
    places: &[usize],
) -> Result<Result<Vec<FlightInfo>, ClientFault>, Fail> {
    let answer = bytes(alloc, parts)?;
    let mut reader = answer.as_slice();
    let mut writer = Vec::with_capacity(alloc, 100)?;
    let told = call_list(alloc, &mut reader, &mut writer);
    let request = bytes(alloc, &[LIST_PATH, ALL])?;
    let taken = answer.len().saturating_sub(reader.len());
    if request.starts_with(writer.as_slice()) && is_read(&told, taken, places) {
        return Ok(told);
    }
    Err(Fail::from("another request or rest"))
}

#[test]
fn tables_are_told_again(rt: HostRuntime) -> Result<(), Fail> {
    let answer = [TOLD, TOLD, OK, BEHIND];
    let told = match list(rt.alloc(), &answer, &OF_LIST)? {
        Err(ClientFault::Call(CallFault::OutOfMemory)) => list(rt.alloc(), &answer, &OF_LIST)?,
        told => told,
    };
    assert!(rt; told?.len() == 2);
    Ok(())
}

/// Whether a refusal of status 14 is told, or why not.
fn is_refused(told: Result<Vec<FlightInfo>, ClientFault>) -> Result<bool, ClientFault> {
    match told {
        Ok(_) => Ok(false),
        Err(ClientFault::Status(status, text)) => {
            Ok(status == 14 && text.as_str() == "Unavailable")
        }
        Err(fault) => Err(fault),
    }
}

#[test]
fn a_refusal_is_told_again(rt: HostRuntime) -> Result<(), Fail> {
    let answer = [UNAVAILABLE, BEHIND];
    let told = match list(rt.alloc(), &answer, &OF_REFUSAL)? {
        Err(ClientFault::Call(CallFault::OutOfMemory)) => {
            list(rt.alloc(), &answer, &OF_REFUSAL)?
        }
        told => told,
    };
    assert!(rt; is_refused(told)?);
    Ok(())
}
