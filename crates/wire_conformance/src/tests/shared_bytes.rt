//! What a field of a large text means, shared with the text: no byte of it is copied.

use bytes::Bytes;
use proto_fields::{shared_bytes_at, write_bytes};
use std::alloc::{AllocError, Global};
use std::test::Fail;

/// The bytes of a large text's field: 1 MiB.
const LARGE: usize = 1_048_576;

/// Writes field 1 with many bytes.
fn write_large(alloc: Global, text: &mut Vec<u8>) -> Result<(), AllocError> {
    let content = Vec::from_elem(alloc, 0x61, LARGE)?;
    write_bytes(text, 1, content.as_slice())
}

/// A text of that field, and field 2 with one byte behind it.
fn large_text(alloc: Global) -> Result<Vec<u8>, AllocError> {
    let mut text = Vec::new(alloc);
    write_large(alloc, &mut text)?;
    write_bytes(&mut text, 2, b"b")?;
    Ok(text)
}

/// The bytes of field 1, where they have the text's owner.
fn shared_of(text: &Bytes) -> Option<usize> {
    if !text.is_unique() {
        return None;
    }
    let shared = shared_bytes_at(text, 1).ok()?;
    if text.is_unique() || shared.is_unique() {
        return None;
    }
    Some(shared.len())
}

/// Whether the field shares the text's bytes as long as it is there.
fn is_shared(text: &Bytes) -> bool {
    shared_of(text) == Some(LARGE) && text.is_unique()
}

#[test]
fn shares_a_large_field(rt: HostRuntime) -> Result<(), Fail> {
    let text = Bytes::from_vec(large_text(rt.alloc())?)?;
    assert!(rt; is_shared(&text));
    Ok(())
}
