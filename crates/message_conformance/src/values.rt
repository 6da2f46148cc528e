//! Uploads and the values that are made of them: what they hold, when two are the same, and that clones share their
//! bytes.

use crate::support::{expect, long_value, upload, upload_of};
use ballots::{UploadBytes, Value};
use bytes::Bytes;
use std::alloc::{AllocError, Global};
use std::test::Fail;

/// Whether the bytes are these letters.
fn are_letters(bytes: &[u8], letters: &str) -> bool {
    bytes == letters.as_bytes()
}

/// Whether a clone of an upload has these letters, and it too.
fn are_kept(upload: &UploadBytes, letters: &str) -> Result<bool, Fail> {
    let copy = upload.clone()?;
    Ok(are_letters(copy.as_slice(), letters) && are_letters(upload.as_slice(), letters))
}

#[test]
fn no_upload_has_no_bytes(rt: HostRuntime) {
    assert!(rt; UploadBytes::new(Bytes::new()).is_none());
}

/// The bytes of an upload are those that it was made of, also of a clone.
#[test]
fn upload_bytes(rt: HostRuntime) -> Result<(), Fail> {
    let upload = upload(Bytes::copy_from_slice(rt.alloc(), b"abc")?)?;
    expect(&rt, are_kept(&upload, "abc"))
}

/// And of what was a `Vec`.
#[test]
fn upload_bytes_of_a_vec(rt: HostRuntime) -> Result<(), Fail> {
    let bytes = Vec::from_slice(rt.alloc(), b"def")?;
    let upload = upload(Bytes::from_vec(bytes)?)?;
    assert!(rt; are_letters(upload.as_slice(), "def"));
    Ok(())
}

/// Whether a clone of the value is the same.
fn is_cloned(value: &Value) -> Result<bool, Fail> {
    let copy = value.clone()?;
    Ok(copy == *value)
}

/// Whether the value is not that of this one byte.
fn differs(alloc: Global, value: &Value, byte: u8) -> Result<bool, Fail> {
    let other = upload_of(alloc, &[byte])?;
    Ok(*value != other)
}

/// Whether a clone of the value is the same, and another is not.
fn is_right(alloc: Global, value: &Value) -> Result<bool, Fail> {
    let is_cloned = is_cloned(value)?;
    let differs = differs(alloc, value, 7)?;
    Ok(is_cloned && differs && are_letters(value.as_bytes(), "abc"))
}

/// Values are the same where their bytes are.
#[test]
fn values(rt: HostRuntime) -> Result<(), Fail> {
    let value = upload_of(rt.alloc(), b"abc")?;
    expect(&rt, is_right(rt.alloc(), &value))
}

/// Whether the value is one of bytes.
fn is_upload(value: &Value) -> bool {
    *value != Value::Noop
}

/// No value is one of no bytes.
#[test]
fn no_value(rt: HostRuntime) -> Result<(), Fail> {
    let value = upload_of(rt.alloc(), b"abc")?;
    assert!(rt; is_upload(&value) && are_letters(Value::Noop.as_bytes(), ""));
    Ok(())
}

/// Puts a clone.
fn push_clone(clones: &mut Vec<Value>, value: &Value) -> Result<(), AllocError> {
    Ok(clones.push(value.clone()?)?)
}

/// So many clones of a value.
fn clones_of(alloc: Global, value: &Value, count: usize) -> Result<Vec<Value>, AllocError> {
    let mut clones = Vec::new(alloc);
    for _ in 0..count {
        push_clone(&mut clones, value)?;
    }
    Ok(clones)
}

/// Whether there is memory for so many clones.
fn are_cloned(alloc: Global, value: &Value, count: usize) -> Result<bool, Fail> {
    let clones = clones_of(alloc, value, count)?;
    Ok(clones.len() == count)
}

/// A hundred thousand clones of the longest value share its bytes: copies would be more than a terabyte.
#[test]
fn clones_share_their_bytes(rt: HostRuntime) -> Result<(), Fail> {
    let value = long_value(rt.alloc(), 16_777_216)?;
    expect(&rt, are_cloned(rt.alloc(), &value, 100_000))
}
