//! Bytes as digits, and the upload of the examples.

use bytes::Bytes;
use std::alloc::Global;
use std::hash::RandomState;
use std::test::Fail;
use table_backend::TableBackend;
use uploads::Upload;

/// The upload of docs/FORMATS.md: to the table t, one column of Int of eight bits, 1, null and 3.
const UPLOAD: &str = "\
    0a01741210000102030405060708090a0b0c0d0e0f1a9801100000000c00180004000600080010000c000000040001002000\
    00000000000000000000000000000000000000000a000c000000040000000a00000008000000000000000100000018000000\
    0000120018000400080009000c000000100000001200000014000000010200001c0000002400000000000000010000006100\
    000008000c00040008000800000008000000010000000000000022a5010a9001100000000c00180004000600080010000c00\
    000004000300200000000000000010000000000000000000000000000a0018000800040010000a0000001800000003000000\
    0000000024000000000000000000000001000000030000000000000001000000000000000000000002000000000000000000\
    0000010000000000000008000000000000000300000000000000121005000000000000000100030000000000";

/// The bytes of all these digits.
pub(crate) fn bytes(alloc: Global, parts: &[&str]) -> Result<Vec<u8>, Fail> {
    let mut all = Vec::new(alloc);
    for part in parts {
        let Ok(some) = hex::decode(alloc, part.as_bytes()) else {
            return Err(Fail::from("no digits"));
        };
        all.extend_from_slice(some.as_slice())?;
    }
    Ok(all)
}

/// The upload of the examples.
pub(crate) fn upload(alloc: Global) -> Result<Upload, Fail> {
    let text = Bytes::from_vec(bytes(alloc, &[UPLOAD])?)?;
    match Upload::decode(alloc, text) {
        Ok(upload) => Ok(upload),
        Err(_) => Err(Fail::from("no upload")),
    }
}

/// A backend that has taken nothing, at one location. It is in a box, since a test that held it as it is would be proved long.
pub(crate) fn backend(rt: &HostRuntime) -> Result<Box<TableBackend>, Fail> {
    let mut locations = Vec::new(rt.alloc());
    locations.push(String::from_str(rt.alloc(), "plain+tcp://127.0.0.1:42000")?)?;
    let hashing = RandomState::new(rt)?;
    let backend = TableBackend::new(rt.alloc(), hashing, 100_000, locations);
    let boxed = Box::new(rt.alloc(), backend)?;
    Ok(boxed)
}

/// Fails where it does not hold.
pub(crate) fn check(holds: bool, what: &'static str) -> Result<(), Fail> {
    if holds { Ok(()) } else { Err(Fail::from(what)) }
}
