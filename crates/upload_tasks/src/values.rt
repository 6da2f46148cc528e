//! The uploads in the bytes that a task is handed.

use ballots::{UploadBytes, Value};
use bytes::Bytes;
use part_tasks::{TaskFault, push};
use std::alloc::Global;
use uploads::{DecodeFault, Upload};

/// The number at the front, in four bytes, and what follows it.
pub(crate) fn split_number(bytes: &[u8]) -> Option<(u32, &[u8])> {
    let (number, rest) = bytes.split_first_chunk()?;
    Some((u32::from_le_bytes(*number), rest))
}

/// The bytes behind a length at the front, and what follows them.
pub(crate) fn split_upload(bytes: &[u8]) -> Option<(&[u8], &[u8])> {
    let (count, rest) = split_number(bytes)?;
    rest.split_at_checked(count as usize)
}

/// The upload that the bytes are, which are shared, or this fault where they are none.
pub(crate) fn upload_of(
    alloc: Global,
    bytes: Bytes,
    fault: TaskFault,
) -> Result<Upload, TaskFault> {
    match Upload::decode(alloc, bytes) {
        Ok(upload) => Ok(upload),
        Err(DecodeFault::NotAnUpload) => Err(fault),
        Err(DecodeFault::OutOfMemory) => Err(TaskFault::OutOfMemory),
    }
}

/// A value with a copy of these bytes.
fn value_of(alloc: Global, bytes: &[u8]) -> Result<Value, TaskFault> {
    match UploadBytes::new(Bytes::copy_from_slice(alloc, bytes)?) {
        Some(upload) => Ok(Value::Upload(upload)),
        None => Err(TaskFault::Uploads),
    }
}

fn push_value(alloc: Global, values: &mut Vec<Value>, bytes: &[u8]) -> Result<(), TaskFault> {
    let value = value_of(alloc, bytes)?;
    Ok(push(values, value)?)
}

fn push_values(alloc: Global, values: &mut Vec<Value>, bytes: &[u8]) -> Result<(), TaskFault> {
    let mut rest = bytes;
    for _ in 0..bytes.len() {
        if rest.is_empty() {
            break;
        }
        let Some((upload, behind)) = split_upload(rest) else {
            return Err(TaskFault::Uploads);
        };
        push_value(alloc, values, upload)?;
        rest = behind;
    }
    Ok(())
}

/// The uploads as values that nodes may agree on, each with bytes of its own.
pub(crate) fn values_in(alloc: Global, bytes: &[u8]) -> Result<Vec<Value>, TaskFault> {
    let mut values = Vec::new(alloc);
    push_values(alloc, &mut values, bytes)?;
    Ok(values)
}
