//! Calls that are asked by `client_calls` and served by `flight_calls`.

use crate::streams::{Broken, Narrow};
use crate::support::{backend, upload};
use client_calls::{call_info, call_put};
use flight_calls::{CallFault, serve_call};
use proto_wire::FlightInfo;
use std::alloc::Global;
use std::io::{self, Write};
use std::test::Fail;
use table_backend::TableBackend;
use uploads::Upload;

/// How many calls are served one behind the other.
const CALLS: u64 = 2_000;

/// The trailer of a call of which a read failed: status 13, `Io`.
pub(crate) const IO_TRAILER: [u8; 8] = [0x80, 0, 0, 0, 3, 13, b'I', b'o'];

/// The answer to a request.
pub(crate) fn answer(
    alloc: Global,
    backend: &mut TableBackend,
    request: &[u8],
) -> Result<Vec<u8>, Fail> {
    let mut reader = request;
    let mut writer = Vec::new(alloc);
    match serve_call(alloc, &mut reader, &mut writer, backend) {
        Ok(()) => Ok(writer),
        Err(_) => Err(Fail::from("not served")),
    }
}

/// The request of a put, which is not answered.
fn put_request(alloc: Global, upload: &Upload) -> Result<Vec<u8>, Fail> {
    let mut reader: &[u8] = &[];
    let mut writer = Vec::new(alloc);
    match call_put(alloc, &mut reader, &mut writer, upload) {
        Err(_) => Ok(writer),
        Ok(_) => Err(Fail::from("answered")),
    }
}

/// The request of what is told of a table, which is not answered.
fn info_request(alloc: Global, table: &str) -> Result<Vec<u8>, Fail> {
    let mut reader: &[u8] = &[];
    let mut writer = Vec::new(alloc);
    match call_info(alloc, &mut reader, &mut writer, table) {
        Err(_) => Ok(writer),
        Ok(_) => Err(Fail::from("answered")),
    }
}

/// The version that the backend makes of an upload, as its client is told.
pub(crate) fn put(alloc: Global, backend: &mut TableBackend, upload: &Upload) -> Result<u64, Fail> {
    let request = put_request(alloc, upload)?;
    let answer = answer(alloc, backend, request.as_slice())?;
    let mut reader = answer.as_slice();
    match call_put(alloc, &mut reader, &mut Vec::new(alloc), upload) {
        Ok(version) => Ok(version),
        Err(_) => Err(Fail::from("no version")),
    }
}

/// What is told of t, as a client is told.
fn info(alloc: Global, backend: &mut TableBackend) -> Result<FlightInfo, Fail> {
    let request = info_request(alloc, "t")?;
    let answer = answer(alloc, backend, request.as_slice())?;
    let mut reader = answer.as_slice();
    match call_info(alloc, &mut reader, &mut Vec::new(alloc), "t") {
        Ok(info) => Ok(info),
        Err(_) => Err(Fail::from("nothing told")),
    }
}

#[test]
fn an_upload_is_asked_served_and_told(rt: HostRuntime) -> Result<(), Fail> {
    let mut backend = backend(&rt)?;
    let upload = upload(rt.alloc())?;
    assert!(rt; put(rt.alloc(), &mut backend, &upload)? == 1);
    let info = info(rt.alloc(), &mut backend)?;
    assert!(rt; info.total_records == 3);
    assert!(rt; info.total_bytes == 349);
    assert!(rt; info.endpoint.len() == 1);
    Ok(())
}

#[test]
fn thousands_of_puts_of_one_upload_make_one_version(rt: HostRuntime) -> Result<(), Fail> {
    let mut backend = backend(&rt)?;
    let upload = upload(rt.alloc())?;
    let mut first: u64 = 0;
    for _ in 0..CALLS {
        if put(rt.alloc(), &mut backend, &upload)? == 1 {
            first = first.saturating_add(1);
        }
    }
    assert!(rt; first == CALLS);
    assert!(rt; backend.tables().taken() == 1);
    assert!(rt; backend.handed().len() as u64 == CALLS);
    Ok(())
}

/// Whether serving the put fails for its writer, which has so much room.
fn fails(rt: &HostRuntime, room: usize) -> Result<bool, Fail> {
    let mut backend = backend(rt)?;
    let request = put_request(rt.alloc(), &upload(rt.alloc())?)?;
    let mut reader = request.as_slice();
    let served = serve_call(rt.alloc(), &mut reader, &mut Narrow { room }, &mut *backend);
    Ok(served == Err(CallFault::Write) && backend.tables().taken() == 1)
}

#[test]
fn a_write_that_fails_is_told_and_the_put_stands(rt: HostRuntime) -> Result<(), Fail> {
    // The answer has 27 bytes and its trailer 6.
    let mut failed: u64 = 0;
    for room in 0..33 {
        if fails(&rt, room)? {
            failed = failed.saturating_add(1);
        }
    }
    assert!(rt; failed == 33);
    assert!(rt; !fails(&rt, 33)?);
    Ok(())
}

/// Whether a call of which a read fails behind these bytes is told as such, and nothing is handed over.
fn breaks(rt: &HostRuntime, beginning: &[u8]) -> Result<bool, Fail> {
    let mut backend = backend(rt)?;
    let mut reader = Broken { left: beginning };
    let mut writer = Vec::new(rt.alloc());
    let served = serve_call(rt.alloc(), &mut reader, &mut writer, &mut *backend);
    let is_told = served == Err(CallFault::Read) && writer.as_slice() == IO_TRAILER.as_slice();
    Ok(is_told && backend.handed().is_empty())
}

#[test]
fn a_read_that_fails_is_told_and_nothing_is_put(rt: HostRuntime) -> Result<(), Fail> {
    let request = put_request(rt.alloc(), &upload(rt.alloc())?)?;
    let mut told: usize = 0;
    for length in 0..request.len() {
        if breaks(&rt, &request[..length])? {
            told = told.saturating_add(1);
        }
    }
    assert!(rt; told == request.len());
    Ok(())
}

/// A writer that counts its bytes, and those of them that were flushed.
#[derive(Drop)]
struct Counting {
    written: usize,
    flushed: usize,
}

impl Write for Counting {
    fn write(&mut self, bytes: &[u8]) -> io::Result<usize> {
        self.written = self.written.saturating_add(bytes.len());
        Ok(bytes.len())
    }

    fn flush(&mut self) -> io::Result<()> {
        self.flushed = self.written;
        Ok(())
    }
}

/// How many bytes answer a request, and how many of them were flushed.
fn counted(rt: &HostRuntime, request: &[u8]) -> Result<(usize, usize), Fail> {
    let mut backend = backend(rt)?;
    let mut reader = request;
    let mut writer = Counting {
        written: 0,
        flushed: 0,
    };
    match serve_call(rt.alloc(), &mut reader, &mut writer, &mut *backend) {
        Ok(()) => Ok((writer.written, writer.flushed)),
        Err(_) => Err(Fail::from("not served")),
    }
}

#[test]
fn all_of_an_answer_is_flushed(rt: HostRuntime) -> Result<(), Fail> {
    let request = put_request(rt.alloc(), &upload(rt.alloc())?)?;
    assert!(rt; counted(&rt, request.as_slice())? == (33, 33));
    // A trailer alone, of status 3 and the text NoEnd.
    assert!(rt; counted(&rt, &[])? == (11, 11));
    Ok(())
}
