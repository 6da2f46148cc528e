//! Copies of an upload.

use bytes::Bytes;
use std::alloc::{AllocError, Global};
use std::test::Fail;
use uploads::Upload;

/// So many copies of an upload.
fn copies(alloc: Global, upload: &Upload, count: usize) -> Result<Vec<Upload>, AllocError> {
    let mut copies = Vec::new(alloc);
    for _ in 0..count {
        copies.push(upload.clone()?)?;
    }
    Ok(copies)
}

/// An upload of 4 MiB. A hundred thousand copies of its bytes would take 400 GB.
fn large(alloc: Global) -> Result<Upload, Fail> {
    match crate::support::made(alloc, "t", &[4_000_000])? {
        Ok(upload) => Ok(upload),
        Err(_) => Err(Fail::from("no upload")),
    }
}

#[test]
fn copies_share_their_bytes(rt: HostRuntime) -> Result<(), Fail> {
    let upload = large(rt.alloc())?;
    let copies = copies(rt.alloc(), &upload, 100_000)?;
    let is_same = copies.last() == Some(&upload);
    assert!(rt; is_same && copies.len() == 100_000);
    Ok(())
}

/// So many encodings of an upload.
fn encodings(alloc: Global, upload: &Upload, count: usize) -> Result<Vec<Bytes>, AllocError> {
    let mut encodings = Vec::new(alloc);
    for _ in 0..count {
        encodings.push(upload.encode()?)?;
    }
    Ok(encodings)
}

#[test]
fn encodings_share_their_bytes(rt: HostRuntime) -> Result<(), Fail> {
    let upload = large(rt.alloc())?;
    let encodings = encodings(rt.alloc(), &upload, 100_000)?;
    let is_same = encodings
        .last()
        .is_some_and(|text| text.as_slice() == upload.as_slice());
    assert!(rt; is_same && encodings.len() == 100_000);
    Ok(())
}
