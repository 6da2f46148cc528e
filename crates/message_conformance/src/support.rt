//! Nodes, ballots, slots and values by their numbers, and what tests expect of each.

use ballots::{Ballot, NodeId, Slot, UploadBytes, Value};
use bytes::Bytes;
use std::alloc::{AllocError, Global};
use std::fmt::Display;
use std::process::Abort;
use std::test::Fail;

pub(crate) fn node(number: u8) -> Result<NodeId, Fail> {
    Ok(NodeId::new(number).ok_or("no node")?)
}

pub(crate) fn ballot(round: u32, number: u8) -> Result<Ballot, Fail> {
    let node = node(number)?;
    Ok(Ballot::new(round, node).ok_or("no ballot")?)
}

pub(crate) fn slot(number: u32) -> Result<Slot, Fail> {
    Ok(Slot::new(number).ok_or("no slot")?)
}

/// The upload of these bytes.
pub(crate) fn upload(bytes: Bytes) -> Result<UploadBytes, Fail> {
    Ok(UploadBytes::new(bytes).ok_or("no upload")?)
}

/// The value of these bytes.
pub(crate) fn upload_of(alloc: Global, bytes: &[u8]) -> Result<Value, Fail> {
    let shared = Bytes::copy_from_slice(alloc, bytes)?;
    Ok(Value::Upload(upload(shared)?))
}

/// So many bytes, of which neighbours differ.
fn long_bytes(alloc: Global, len: usize) -> Result<Vec<u8>, AllocError> {
    let mut bytes = Vec::new(alloc);
    for place in 0..len {
        bytes.push((place % 251) as u8)?;
    }
    Ok(bytes)
}

/// A value of so many bytes.
pub(crate) fn long_value(alloc: Global, len: usize) -> Result<Value, Fail> {
    let shared = Bytes::from_vec(long_bytes(alloc, len)?)?;
    Ok(Value::Upload(upload(shared)?))
}

/// What these print, each with a space behind it.
pub(crate) fn names<T: Display>(alloc: Global, printed: &[T]) -> Result<String, AllocError> {
    let mut names = String::new(alloc);
    for one in printed {
        write!(names, "{one} ")?;
    }
    Ok(names)
}

/// Ends the test where this is not so, and says of which number.
pub(crate) fn expect_of(rt: &impl Abort, is_so: bool, number: usize) {
    assert!(rt; is_so, "{number}");
}

/// Ends the test where this is not so.
pub(crate) fn expect(rt: &impl Abort, is_so: Result<bool, Fail>) -> Result<(), Fail> {
    let is_so = is_so?;
    assert!(rt; is_so);
    Ok(())
}
