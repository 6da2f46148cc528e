//! Frames, read and written (gRPC over HTTP/2, "Length-Prefixed-Message").

use proto_wire::{END_FLAG, Frame, MAX_FRAME_PAYLOAD, MESSAGE_FLAG, read_frame, write_frame};
use std::alloc::Global;
use story_requests::{RequestFault, Response, Words};

/// The frames that stand one after the other, and then `NoMore` or the fault, and the bytes behind which the reader
/// stands.
pub(crate) fn read_all(
    alloc: Global,
    bytes: &[u8],
    answer: &mut Response,
) -> Result<(), RequestFault> {
    let mut rest = bytes;
    // Each frame has at least five bytes.
    for _ in 0..=bytes.len() {
        if !read_one(alloc, &mut rest, answer)? {
            break;
        }
    }
    answer.bytes(rest)
}

// The frame at the front, or how the input ends; and whether there was a frame.
fn read_one(alloc: Global, rest: &mut &[u8], answer: &mut Response) -> Result<bool, RequestFault> {
    match read_frame(alloc, rest) {
        Ok(Some(frame)) => show(&frame, answer),
        Ok(None) => end("NoMore", answer),
        Err(fault) => end(fault.to_string(alloc)?.as_str(), answer),
    }
}

fn show(frame: &Frame, answer: &mut Response) -> Result<bool, RequestFault> {
    answer.number(u64::from(frame.flag))?;
    answer.bytes(&frame.payload)?;
    Ok(true)
}

fn end(how: &str, answer: &mut Response) -> Result<bool, RequestFault> {
    answer.word(how)?;
    Ok(false)
}

/// The bytes of the frame of this flag and payload.
pub(crate) fn write(
    alloc: Global,
    words: &mut Words<'_>,
    answer: &mut Response,
) -> Result<(), RequestFault> {
    let flag = words.number()?;
    let payload = words.bytes(alloc)?;
    let is_flag = flag == u64::from(MESSAGE_FLAG) || flag == u64::from(END_FLAG);
    if !is_flag || payload.len() > MAX_FRAME_PAYLOAD {
        return Err(RequestFault::BadRequest);
    }
    let mut frame = Vec::new(alloc);
    if write_frame(&mut frame, flag as u8, &payload).is_err() {
        return Err(RequestFault::OutOfMemory);
    }
    answer.bytes(&frame)
}
