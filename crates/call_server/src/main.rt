//! Serves calls of Arrow Flight that come on standard input, one behind the other, and answers each on standard output
//! before it reads on: a peer that is written in another language speaks to it over two pipes (`tools/peer.py`).
//!
//! Its tables hold the uploads of this one run and begin empty. It ends with status 0 where the input ends behind a call,
//! and with status 1 where a read or a write fails, or behind 1,000,000 calls. A service has a connection for each call;
//! here a call that is refused before its end leaves the rest of its frames in the input, where they are read as another
//! call, so a peer ends the input behind such a refusal.
//!
//! Nothing is claimed here but that serving is safe and ends: what is answered is promised by `flight_calls` and
//! `table_backend`.
#![tactic(auto)]

use flight_calls::serve_call;
use std::alloc::{AllocError, Global};
use std::hash::RandomState;
use std::io::{self, BufRead, BufReader, BufWriter, Write};
use std::process::ExitCode;
use table_backend::{MAX_VALUES, TableBackend};

/// The most calls that are served.
const MAX_CALLS: u32 = 1_000_000;

/// Where the tables are said to be served.
const LOCATIONS: [&str; 3] = [
    "plain+tcp://127.0.0.1:42000",
    "plain+tcp://127.0.0.1:42001",
    "plain+tcp://127.0.0.1:42002",
];

fn main(rt: HostRuntime) -> ExitCode {
    match start(&rt) {
        Ok(true) => ExitCode::SUCCESS,
        Ok(false) => ExitCode::FAILURE,
        Err(_) => ExitCode::FAILURE,
    }
}

// The locations that clients are told.
fn locations(alloc: Global) -> Result<Vec<String>, AllocError> {
    let mut locations = Vec::new(alloc);
    for location in LOCATIONS {
        let location = String::from_str(alloc, location)?;
        locations.push(location)?;
    }
    Ok(locations)
}

// Serves the calls of standard input, and says whether all of them were served.
fn start(rt: &HostRuntime) -> io::Result<bool> {
    let alloc = rt.alloc();
    let hashing = RandomState::new(rt)?;
    let mut backend = empty_tables(alloc, hashing)?;
    let mut input = BufReader::new(alloc, rt.stdin())?;
    let mut output = BufWriter::new(alloc, rt.stdout())?;
    serve_all(alloc, &mut input, &mut output, &mut backend)
}

// Tables of no upload.
fn empty_tables(alloc: Global, hashing: RandomState) -> Result<Box<TableBackend>, AllocError> {
    let locations = locations(alloc)?;
    let boxed = Box::new(
        alloc,
        TableBackend::new(alloc, hashing, MAX_VALUES, locations),
    )?;
    Ok(boxed)
}

// Serves calls to the end of the input, and says whether all of them were served.
fn serve_all<R: BufRead, W: Write>(
    alloc: Global,
    input: &mut R,
    output: &mut W,
    backend: &mut TableBackend,
) -> io::Result<bool> {
    for _ in 0..MAX_CALLS {
        if input.fill_buf()?.is_empty() {
            return Ok(true);
        }
        if serve_call(alloc, input, output, backend).is_err() {
            return Ok(false);
        }
    }
    Ok(false)
}
