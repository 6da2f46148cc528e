//! Readers and writers of frames whose calls fail, each in its turn.

use super::frames::{read, write};
use super::texts::are_equal;
use grpc_frames::{Frame, FrameFault, MESSAGE_FLAG};
use std::alloc::{AllocError, Global};
use std::io;
use std::io::{Read, Write};
use std::process::Abort;
use std::test::Fail;

/// The payload of the frame whose calls fail: the frame has 5 bytes more.
const CUT_PAYLOAD: usize = 40;

/// Gives at most `step` bytes a call, and fails where no call is left.
#[derive(Drop)]
struct FailingReader<'a> {
    bytes: &'a [u8],
    step: usize,
    calls: usize,
}

impl<'a> Read for FailingReader<'a> {
    fn read(&mut self, buf: &mut [u8]) -> io::Result<usize> {
        if self.calls == 0 {
            return Err(io::ErrorKind::Interrupted.into());
        }
        self.calls -= 1;
        let count = buf.len().min(self.step);
        self.bytes.read(&mut buf[..count])
    }
}

/// Takes at most `step` bytes a call, and fails where no call is left.
#[derive(Drop)]
struct FailingWriter {
    written: Vec<u8>,
    step: usize,
    calls: usize,
}

impl Write for FailingWriter {
    fn write(&mut self, buf: &[u8]) -> io::Result<usize> {
        if self.calls == 0 {
            return Err(io::ErrorKind::Interrupted.into());
        }
        self.calls -= 1;
        let count = buf.len().min(self.step);
        self.written.extend_from_slice(&buf[..count])?;
        Ok(count)
    }

    fn flush(&mut self) -> io::Result<()> {
        Ok(())
    }
}

/// So many bytes, which differ from place to place and from length to length.
fn payload_of(alloc: Global, len: usize) -> Result<Vec<u8>, AllocError> {
    let mut payload = Vec::new(alloc);
    for place in 0..len {
        payload.push((place.wrapping_add(len) % 251) as u8)?;
    }
    Ok(payload)
}

/// Whether a frame with this flag and payload was read.
fn is_frame(read: &Result<Option<Frame>, FrameFault>, flag: u8, payload: &[u8]) -> bool {
    match read {
        Ok(Some(frame)) => frame.flag == flag && are_equal(frame.payload.as_slice(), payload),
        _ => false,
    }
}

/// Whether this fault was told.
fn is_fault(read: &Result<Option<Frame>, FrameFault>, fault: FrameFault) -> bool {
    match read {
        Err(told) => *told == fault,
        Ok(_) => false,
    }
}

/// The text of a frame.
fn frame_text(alloc: Global, flag: u8, payload: &[u8]) -> Result<Vec<u8>, Fail> {
    let mut text = Vec::new(alloc);
    write(&mut text, flag, payload)?;
    Ok(text)
}

/// The calls that move so many bytes, at most `step` of them a call.
fn calls_for(bytes: usize, step: usize) -> usize {
    bytes.div_ceil(step.max(1))
}

/// The calls that move the frame whose calls fail: the five bytes in front, and then the payload.
fn calls_for_frame(step: usize) -> usize {
    calls_for(5, step).saturating_add(calls_for(CUT_PAYLOAD, step))
}

/// The bytes of that frame that so many calls move.
fn moved_by(calls: usize, step: usize) -> usize {
    let front = calls_for(5, step);
    if calls <= front {
        return calls.saturating_mul(step).min(5);
    }
    let behind = (calls - front).saturating_mul(step).min(CUT_PAYLOAD);
    behind.saturating_add(5)
}

/// The frame whose calls fail.
#[derive(Clone, Copy)]
struct Cut<'a> {
    /// Its text, with bytes behind it that are none of its own.
    text: &'a [u8],
    payload: &'a [u8],
}

impl<'a> Cut<'a> {
    fn of(text: &'a [u8], payload: &'a [u8]) -> Cut<'a> {
        Cut { text, payload }
    }
}

/// The text of that frame, with the bytes behind it.
fn cut_text(alloc: Global, payload: &[u8]) -> Result<Vec<u8>, Fail> {
    let mut text = frame_text(alloc, MESSAGE_FLAG, payload)?;
    text.extend_from_slice(b"\x00\x00\x00\x00\x01\x07")?;
    Ok(text)
}

/// Ends the test where this is not so of so many calls.
fn expect_calls(rt: &impl Abort, is_so: bool, calls: usize, step: usize) {
    assert!(rt; is_so, "{calls} calls of {step}");
}

/// Whether the frame was read where the calls were enough, and `Io` is told where they were not.
fn is_outcome(read: &Result<Option<Frame>, FrameFault>, is_enough: bool, payload: &[u8]) -> bool {
    if is_enough {
        return is_frame(read, MESSAGE_FLAG, payload);
    }
    is_fault(read, FrameFault::Io)
}

/// Whether a reader whose calls fail after so many gives the frame where these are enough, and `Io` where they are not,
/// with the bytes left that no call gave.
fn is_read_within(alloc: Global, cut: Cut<'_>, step: usize, calls: usize) -> bool {
    let mut reader = FailingReader {
        bytes: cut.text,
        step,
        calls,
    };
    let is_enough = calls_for_frame(step) <= calls;
    let is_told = is_outcome(&read(alloc, &mut reader), is_enough, cut.payload);
    let left = cut.text.get(moved_by(calls, step)..).unwrap_or(&[]);
    is_told && are_equal(reader.bytes, left)
}

/// Fails the reader's calls in turn, from the first to the one behind the frame's last.
fn expect_reads(rt: &impl Abort, alloc: Global, cut: Cut<'_>, step: usize) {
    for calls in 0..=calls_for_frame(step) {
        expect_calls(rt, is_read_within(alloc, cut, step, calls), calls, step);
    }
}

/// Readers of every step.
fn expect_all_reads(rt: &impl Abort, alloc: Global, cut: Cut<'_>) {
    for step in 1..=46 {
        expect_reads(rt, alloc, cut, step);
    }
}

/// Those of a frame with this payload.
fn expect_cut_reads(rt: &impl Abort, alloc: Global, payload: &[u8]) -> Result<(), Fail> {
    let text = cut_text(alloc, payload)?;
    expect_all_reads(rt, alloc, Cut::of(text.as_slice(), payload));
    Ok(())
}

#[test]
fn each_read_that_fails_is_told(rt: HostRuntime) -> Result<(), Fail> {
    let payload = payload_of(rt.alloc(), CUT_PAYLOAD)?;
    expect_cut_reads(&rt, rt.alloc(), payload.as_slice())
}

/// Whether all was written where the calls were enough, and `Io` is told where they were not.
fn is_ending(ending: Result<(), FrameFault>, is_enough: bool) -> bool {
    match ending {
        Ok(()) => is_enough,
        Err(fault) => !is_enough && fault == FrameFault::Io,
    }
}

/// Whether a writer whose calls fail after so many takes the frame where these are enough, and else `Io` is told with
/// what they took gone out.
fn is_written_within(alloc: Global, cut: Cut<'_>, step: usize, calls: usize) -> bool {
    let mut writer = FailingWriter {
        written: Vec::new(alloc),
        step,
        calls,
    };
    let ending = write(&mut writer, MESSAGE_FLAG, cut.payload);
    let gone = cut.text.get(..moved_by(calls, step)).unwrap_or(&[]);
    let is_told = is_ending(ending, calls_for_frame(step) <= calls);
    is_told && are_equal(writer.written.as_slice(), gone)
}

/// Fails the writer's calls in turn, from the first to the one behind the frame's last.
fn expect_writes(rt: &impl Abort, alloc: Global, cut: Cut<'_>, step: usize) {
    for calls in 0..=calls_for_frame(step) {
        expect_calls(rt, is_written_within(alloc, cut, step, calls), calls, step);
    }
}

/// Writers of every step.
fn expect_all_writes(rt: &impl Abort, alloc: Global, cut: Cut<'_>) {
    for step in 1..=46 {
        expect_writes(rt, alloc, cut, step);
    }
}

/// Those of a frame with this payload.
fn expect_cut_writes(rt: &impl Abort, alloc: Global, payload: &[u8]) -> Result<(), Fail> {
    let text = cut_text(alloc, payload)?;
    expect_all_writes(rt, alloc, Cut::of(text.as_slice(), payload));
    Ok(())
}

#[test]
fn each_write_that_fails_is_told(rt: HostRuntime) -> Result<(), Fail> {
    let payload = payload_of(rt.alloc(), CUT_PAYLOAD)?;
    expect_cut_writes(&rt, rt.alloc(), payload.as_slice())
}
