//! What words of a request stand for.

use ballots::{Members, Message, NodeId, Slot};
use std::alloc::Global;
use story_requests::{RequestFault, Words};

/// The message whose encoding the next word is.
pub(crate) fn message(alloc: Global, words: &mut Words<'_>) -> Result<Message, RequestFault> {
    let bytes = words.bytes(alloc)?;
    match Message::decode(alloc, &bytes) {
        Ok(message) => Ok(message),
        Err(_) => Err(RequestFault::BadRequest),
    }
}

/// The slot of that message.
pub(crate) fn slot(alloc: Global, words: &mut Words<'_>) -> Result<Slot, RequestFault> {
    let message = message(alloc, words)?;
    Ok(message.slot)
}

/// The next word as a number of 32 bits.
pub(crate) fn number(words: &mut Words<'_>) -> Result<u32, RequestFault> {
    match u32::try_from(words.number()?) {
        Ok(number) => Ok(number),
        Err(_) => Err(RequestFault::BadRequest),
    }
}

fn byte(words: &mut Words<'_>) -> Result<u8, RequestFault> {
    match u8::try_from(words.number()?) {
        Ok(number) => Ok(number),
        Err(_) => Err(RequestFault::BadRequest),
    }
}

/// The node whose number the next word is.
pub(crate) fn node(words: &mut Words<'_>) -> Result<NodeId, RequestFault> {
    NodeId::new(byte(words)?).ok_or(RequestFault::BadRequest)
}

/// As many members as the next word says.
pub(crate) fn members(words: &mut Words<'_>) -> Result<Members, RequestFault> {
    Members::new(byte(words)?).ok_or(RequestFault::BadRequest)
}
