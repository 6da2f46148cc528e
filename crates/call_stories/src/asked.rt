//! What requests name: locations, and the input of a call.

use std::alloc::{AllocError, Global};
use story_requests::{RequestFault, Words};

fn push_text(alloc: Global, texts: &mut Vec<String>, word: &str) -> Result<(), AllocError> {
    let text = String::from_str(alloc, word)?;
    texts.push(text)?;
    Ok(())
}

/// All words that are left, each a text.
pub(crate) fn texts_of(alloc: Global, words: &mut Words<'_>) -> Result<Vec<String>, AllocError> {
    let mut texts = Vec::new(alloc);
    for _ in 0..u64::MAX {
        if words.is_empty() {
            break;
        }
        push_text(alloc, &mut texts, words.next())?;
    }
    Ok(texts)
}

// Puts these bytes so often.
fn put(input: &mut Vec<u8>, count: u64, bytes: &[u8]) -> Result<(), AllocError> {
    for _ in 0..count {
        input.extend_from_slice(bytes)?;
    }
    Ok(())
}

// Puts the bytes of the next two words, as often as the first says.
fn put_part(alloc: Global, input: &mut Vec<u8>, words: &mut Words<'_>) -> Result<(), RequestFault> {
    let count = words.number()?;
    let bytes = words.bytes(alloc)?;
    Ok(put(input, count, bytes.as_slice())?)
}

/// The input that the words that are left make.
pub(crate) fn input_of(alloc: Global, words: &mut Words<'_>) -> Result<Vec<u8>, RequestFault> {
    let mut input = Vec::new(alloc);
    for _ in 0..u64::MAX {
        if words.is_empty() {
            break;
        }
        put_part(alloc, &mut input, words)?;
    }
    Ok(input)
}
