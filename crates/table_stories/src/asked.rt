//! What requests name: values, uploads and tickets.

use ballots::{UploadBytes, Value};
use bytes::Bytes;
use std::alloc::{AllocError, Global};
use story_requests::{RequestFault, Words};
use table_types::Ticket;
use uploads::{DecodeFault, Upload};

/// The name of a table that comes next.
pub(crate) fn table_of(alloc: Global, words: &mut Words<'_>) -> Result<String, RequestFault> {
    match String::from_utf8(words.bytes(alloc)?) {
        Ok(text) => Ok(text),
        Err(_) => Err(RequestFault::BadRequest),
    }
}

/// The ticket of the version and the table that come next, and `None` where there is none such.
pub(crate) fn ticket_of(
    alloc: Global,
    words: &mut Words<'_>,
) -> Result<Option<Ticket>, RequestFault> {
    let version = words.number()?;
    let table = table_of(alloc, words)?;
    Ok(Ticket::new(table, version))
}

fn shared(bytes: Vec<u8>) -> Result<Bytes, AllocError> {
    Ok(Bytes::from_vec(bytes)?)
}

fn decoded(alloc: Global, bytes: Bytes) -> Result<Option<Upload>, RequestFault> {
    match Upload::decode(alloc, bytes) {
        Ok(upload) => Ok(Some(upload)),
        Err(DecodeFault::NotAnUpload) => Ok(None),
        Err(DecodeFault::OutOfMemory) => Err(RequestFault::OutOfMemory),
    }
}

/// The upload that the next bytes are, if they are one.
pub(crate) fn upload_of(
    alloc: Global,
    words: &mut Words<'_>,
) -> Result<Option<Upload>, RequestFault> {
    let bytes = shared(words.bytes(alloc)?)?;
    decoded(alloc, bytes)
}

fn value_of(alloc: Global, words: &mut Words<'_>) -> Result<Value, RequestFault> {
    let bytes = shared(words.bytes(alloc)?)?;
    if bytes.is_empty() {
        return Ok(Value::Noop);
    }
    match UploadBytes::new(bytes) {
        Some(bytes) => Ok(Value::Upload(bytes)),
        None => Err(RequestFault::BadRequest),
    }
}

fn push(values: &mut Vec<Value>, value: Value) -> Result<(), AllocError> {
    values.push(value)?;
    Ok(())
}

/// The values of all words that are left.
pub(crate) fn values_of(alloc: Global, words: &mut Words<'_>) -> Result<Vec<Value>, RequestFault> {
    let mut values = Vec::new(alloc);
    for _ in 0..u64::MAX {
        if words.is_empty() {
            break;
        }
        push(&mut values, value_of(alloc, words)?)?;
    }
    Ok(values)
}
