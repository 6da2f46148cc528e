//! Reads and writes the messages of Arrow Flight, the headers of Arrow's metadata and batches, and calls the parts of a
//! Paxos node, the tables that uploads make, runs of whole nodes and a store of records, to be measured and compared from
//! outside. `flight_bench TASK COUNT FILE` does its task so many times on what the file holds.
//!
//! A task takes the file's bytes as they are, and prints the count and a sum that depends on each repetition. A task
//! `reencode-..` reads the file's message once and writes it so many times as `encode-..` does, and prints the bytes that
//! were written last.
//!
//! Nothing is claimed here but that each task is safe and ends: what is read and written is promised by the crates that
//! do it.
#![tactic(auto)]

use part_tasks::{
    TaskFault, call_acceptor, call_learner, call_log, decode_data, decode_header, decode_info,
    encode_data, encode_header, encode_info, read_batch_often, report_value, rewrite_batch_often,
    write_batch_often,
};
use std::alloc::Global;
use std::fs;
use std::hash::RandomState;
use std::io::Write;
use std::process::ExitCode;
use store_tasks::{keep_often, recall_often};
use upload_tasks::{
    answer_often, compare_often, decode_uploads, hold_all, run_often, seat_often, take_often,
};

/// The status of a run that met no fault.
const SUCCESS: u8 = 0;

/// The status of a run that met one.
const FAILURE: u8 = 1;

/// The status of words that ask for nothing.
const USAGE: u8 = 2;

fn main(rt: HostRuntime) -> ExitCode {
    let status = match start(&rt) {
        Ok(status) => status,
        Err(fault) => {
            // Where this fails too, the status alone tells.
            let _ = eprintln!(rt; "flight_bench: {fault}");
            FAILURE
        }
    };
    ExitCode::from(status)
}

// Reads the words and does what they ask for.
fn start(rt: &HostRuntime) -> Result<u8, TaskFault> {
    let words: Vec<String> = std::env::args(rt)?.collect(rt.alloc())?;
    match words.as_slice() {
        [_, task, count, file] => match count.parse::<u64>() {
            Ok(count) => perform(rt, task.as_str(), count, file.as_str()),
            Err(_) => refuse(rt),
        },
        _ => refuse(rt),
    }
}

fn refuse(rt: &HostRuntime) -> Result<u8, TaskFault> {
    eprintln!(rt; "usage: flight_bench TASK COUNT FILE")?;
    Ok(USAGE)
}

fn perform(rt: &HostRuntime, task: &str, count: u64, path: &str) -> Result<u8, TaskFault> {
    let bytes = fs::read(rt, path)?;
    let status = match store(rt, task, count, &bytes, path) {
        Some(Ok(sum)) => report(rt, task, count, sum, &[]),
        Some(Err(fault)) => Err(fault),
        None => perform_on(rt, task, count, &bytes),
    };
    drop(bytes);
    status
}

// Does a task of a store so many times, where it is one: at the file of this path, which has these bytes.
fn store(
    rt: &HostRuntime,
    task: &str,
    count: u64,
    bytes: &[u8],
    path: &str,
) -> Option<Result<u64, TaskFault>> {
    match task {
        "keep-records" => Some(keep_often(rt, rt.alloc(), count, bytes, path)),
        "recall-records" => Some(recall_often(rt, rt.alloc(), count, path)),
        _ => None,
    }
}

fn perform_on(rt: &HostRuntime, task: &str, count: u64, bytes: &[u8]) -> Result<u8, TaskFault> {
    let hashing = RandomState::new(rt)?;
    let mut written = Vec::new(rt.alloc());
    let sum = repeat(rt.alloc(), hashing, task, count, bytes, &mut written);
    let status = match sum {
        Some(Ok(sum)) => report(rt, task, count, sum, &written),
        Some(Err(fault)) => Err(fault),
        None => refuse(rt),
    };
    drop(written);
    status
}

// Does the task so many times, and gives the sum of the weights of all repetitions, modulo 2^64.
fn repeat(
    alloc: Global,
    hashing: RandomState,
    task: &str,
    count: u64,
    bytes: &[u8],
    written: &mut Vec<u8>,
) -> Option<Result<u64, TaskFault>> {
    let sum = match task {
        "decode-data" => decode_data(alloc, count, bytes),
        "encode-data" | "reencode-data" => encode_data(alloc, count, bytes, written),
        "decode-info" => decode_info(alloc, count, bytes),
        "encode-info" | "reencode-info" => encode_info(alloc, count, bytes, written),
        "decode-header" => decode_header(alloc, count, bytes),
        "encode-header" | "reencode-header" => encode_header(alloc, count, bytes, written),
        "read-batch" => read_batch_often(alloc, count, bytes),
        "write-batch" => write_batch_often(alloc, count, bytes),
        "rewrite-batch" => rewrite_batch_often(alloc, count, bytes),
        "call-acceptor" => call_acceptor(alloc, count, bytes.len()),
        "call-learner" => call_learner(alloc, count, bytes.len()),
        "call-log" => call_log(alloc, count, bytes.len()),
        "report-value" => report_value(alloc, count, bytes),
        "take-uploads" => take_often(alloc, hashing, count, bytes),
        "hold-uploads" => hold_all(alloc, hashing, count, bytes),
        "decode-uploads" => decode_uploads(alloc, count, bytes),
        "answer-tickets" => answer_often(alloc, hashing, count, bytes),
        "run-events" => run_often(alloc, hashing, count, bytes),
        "seat-events" => seat_often(alloc, hashing, count, bytes),
        "compare-events" => compare_often(alloc, hashing, count, bytes),
        _ => return None,
    };
    Some(sum)
}

fn report(
    rt: &HostRuntime,
    task: &str,
    count: u64,
    sum: u64,
    written: &[u8],
) -> Result<u8, TaskFault> {
    if task.starts_with("reencode-") {
        rt.stdout().write_all(written)?;
    } else {
        println!(rt; "{count} {sum}")?;
    }
    Ok(SUCCESS)
}
