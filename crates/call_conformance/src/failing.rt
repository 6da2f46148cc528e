//! Calls of which each read and each write fails in turn, at the service and at its client, and calls over streams that take one byte
//! at a time.

use crate::gotten::ticket;
use crate::served::{IO_TRAILER, answer, put};
use crate::streams::{Broken, Narrow, Slow, Tight};
use crate::support::{backend, check, upload};
use client_calls::{ClientFault, call_get, call_get_frames, call_info, call_list, call_put};
use flight_calls::{CallFault, serve_call};
use std::alloc::Global;
use std::io::{Read, Write};
use std::test::Fail;
use table_backend::TableBackend;

/// What is asked of a service that has one upload.
#[derive(Clone, Copy, Debug, PartialEq, Eq)]
pub(crate) enum Asked {
    /// DoPut of the same upload once more.
    Put,
    /// DoGet of its version.
    Get,
    /// The same, of which the frames are given as they come.
    Frames,
    /// GetFlightInfo of its table.
    Info,
    /// ListFlights.
    List,
}

/// What an answer tells is let go.
fn ended<T: Drop>(told: Result<T, ClientFault>) -> Result<(), ClientFault> {
    match told {
        Ok(told) => {
            drop(told);
            Ok(())
        }
        Err(fault) => Err(fault),
    }
}

/// Makes the call over these streams.
pub(crate) fn ask<R: Read, W: Write>(
    alloc: Global,
    asked: Asked,
    r: &mut R,
    w: &mut W,
) -> Result<Result<(), ClientFault>, Fail> {
    match asked {
        Asked::Put => Ok(ended(call_put(alloc, r, w, &upload(alloc)?))),
        Asked::Get => Ok(ended(call_get(alloc, r, w, &ticket(alloc, 1)?))),
        Asked::Frames => Ok(ended(call_get_frames(alloc, r, w, &ticket(alloc, 1)?))),
        Asked::Info => Ok(ended(call_info(alloc, r, w, "t"))),
        Asked::List => Ok(ended(call_list(alloc, r, w))),
    }
}

/// The request of the call, which is not answered.
fn request(alloc: Global, asked: Asked) -> Result<Vec<u8>, Fail> {
    let mut writer = Vec::new(alloc);
    let mut nothing: &[u8] = &[];
    match ask(alloc, asked, &mut nothing, &mut writer)? {
        Err(_) => Ok(writer),
        Ok(()) => Err(Fail::from("answered")),
    }
}

/// A service that has taken the upload.
fn service(rt: &HostRuntime) -> Result<Box<TableBackend>, Fail> {
    let mut backend = backend(rt)?;
    put(rt.alloc(), &mut backend, &upload(rt.alloc())?)?;
    Ok(backend)
}

/// What the service answers to the call.
pub(crate) fn answered(rt: &HostRuntime, asked: Asked) -> Result<Vec<u8>, Fail> {
    let mut backend = service(rt)?;
    answer(
        rt.alloc(),
        &mut backend,
        request(rt.alloc(), asked)?.as_slice(),
    )
}

/// Whether a read that fails behind this beginning of a request is told as such, and the service is as before.
fn tells_the_read(rt: &HostRuntime, beginning: &[u8]) -> Result<bool, Fail> {
    let mut backend = service(rt)?;
    let mut reader = Broken { left: beginning };
    let mut writer = Vec::new(rt.alloc());
    let served = serve_call(rt.alloc(), &mut reader, &mut writer, &mut *backend);
    let is_told = served == Err(CallFault::Read) && writer.as_slice() == IO_TRAILER.as_slice();
    Ok(is_told && backend.handed().len() == 1)
}

/// Whether serving the request fails for its writer, which has so much room, and the service has its one upload.
fn tells_the_write(rt: &HostRuntime, request: &[u8], room: usize) -> Result<bool, Fail> {
    let mut backend = service(rt)?;
    let mut reader = request;
    let served = serve_call(rt.alloc(), &mut reader, &mut Narrow { room }, &mut *backend);
    Ok(served == Err(CallFault::Write) && backend.tables().taken() == 1)
}

/// How many beginnings of the request end as they have to, where a read fails behind them.
fn reads_told(rt: &HostRuntime, request: &[u8]) -> Result<usize, Fail> {
    let mut told: usize = 0;
    for length in 0..request.len() {
        if tells_the_read(rt, &request[..length])? {
            told = told.saturating_add(1);
        }
    }
    Ok(told)
}

/// How many rooms of a writer that are less than the answer end as they have to.
fn writes_told(rt: &HostRuntime, request: &[u8], whole: usize) -> Result<usize, Fail> {
    let mut told: usize = 0;
    for room in 0..whole {
        if tells_the_write(rt, request, room)? {
            told = told.saturating_add(1);
        }
    }
    Ok(told)
}

/// Each read and each write of the service fails in turn.
fn serving_fails(rt: &HostRuntime, asked: Asked) -> Result<(), Fail> {
    let request = request(rt.alloc(), asked)?;
    let whole = answered(rt, asked)?.len();
    let request = request.as_slice();
    check(
        reads_told(rt, request)? == request.len(),
        "a read that fails is told otherwise",
    )?;
    check(
        writes_told(rt, request, whole)? == whole,
        "a write that fails is told otherwise",
    )?;
    check(
        !tells_the_write(rt, request, whole)?,
        "a write fails in a room for all",
    )
}

/// How many beginnings of the answer end as they have to, where a read of the client fails behind them.
fn answers_told(alloc: Global, asked: Asked, answer: &[u8]) -> Result<usize, Fail> {
    let mut told: usize = 0;
    for length in 0..answer.len() {
        let mut reader = Broken {
            left: &answer[..length],
        };
        let got = ask(alloc, asked, &mut reader, &mut Vec::new(alloc))?;
        if got == Err(ClientFault::Call(CallFault::Read)) {
            told = told.saturating_add(1);
        }
    }
    Ok(told)
}

/// How many rooms of the client's writer that are less than the request end as they have to.
fn requests_told(alloc: Global, asked: Asked, whole: usize, answer: &[u8]) -> Result<usize, Fail> {
    let mut told: usize = 0;
    for room in 0..whole {
        let mut reader = answer;
        let got = ask(alloc, asked, &mut reader, &mut Narrow { room })?;
        if got == Err(ClientFault::Call(CallFault::Write)) && reader.len() == answer.len() {
            told = told.saturating_add(1);
        }
    }
    Ok(told)
}

/// Each read and each write of the client fails in turn.
fn asking_fails(rt: &HostRuntime, asked: Asked) -> Result<(), Fail> {
    let whole = request(rt.alloc(), asked)?.len();
    let answer = answered(rt, asked)?;
    let answer = answer.as_slice();
    check(
        answers_told(rt.alloc(), asked, answer)? == answer.len(),
        "a read that fails is told otherwise",
    )?;
    check(
        requests_told(rt.alloc(), asked, whole, answer)? == whole,
        "a write that fails is told otherwise",
    )
}

/// Streams that take a byte at a time change neither the answer nor the request, nor what the client is told.
fn one_byte_at_a_time(rt: &HostRuntime, asked: Asked) -> Result<(), Fail> {
    let alloc = rt.alloc();
    let request = request(alloc, asked)?;
    let answer = answered(rt, asked)?;
    let mut backend = service(rt)?;
    let mut reader = Slow {
        left: request.as_slice(),
    };
    let mut writer = Tight {
        taken: Vec::new(alloc),
    };
    let served = serve_call(alloc, &mut reader, &mut writer, &mut *backend);
    check(served.is_ok(), "not served")?;
    check(
        writer.taken.as_slice() == answer.as_slice(),
        "another answer",
    )?;
    let mut reader = Slow {
        left: answer.as_slice(),
    };
    let mut writer = Tight {
        taken: Vec::new(alloc),
    };
    let got = ask(alloc, asked, &mut reader, &mut writer)?;
    check(got.is_ok(), "no answer")?;
    check(
        writer.taken.as_slice() == request.as_slice(),
        "another request",
    )
}

#[test]
fn each_read_and_write_of_the_service_fails(rt: HostRuntime) -> Result<(), Fail> {
    serving_fails(&rt, Asked::Put)?;
    serving_fails(&rt, Asked::Get)?;
    serving_fails(&rt, Asked::Info)?;
    serving_fails(&rt, Asked::List)
}

#[test]
fn each_read_and_write_of_the_client_fails(rt: HostRuntime) -> Result<(), Fail> {
    asking_fails(&rt, Asked::Put)?;
    asking_fails(&rt, Asked::Get)?;
    asking_fails(&rt, Asked::Frames)?;
    asking_fails(&rt, Asked::Info)?;
    asking_fails(&rt, Asked::List)
}

#[test]
fn streams_may_take_one_byte_at_a_time(rt: HostRuntime) -> Result<(), Fail> {
    one_byte_at_a_time(&rt, Asked::Put)?;
    one_byte_at_a_time(&rt, Asked::Get)?;
    one_byte_at_a_time(&rt, Asked::Info)?;
    one_byte_at_a_time(&rt, Asked::List)
}
