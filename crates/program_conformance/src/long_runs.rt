//! Runs of the acceptor where a limit is met, a million frames or payloads of 4 MiB, with the answers and the lines
//! worked out by hand.

use crate::streams::Narrow;
use crate::support::spelled;
use acceptor_command::{AnswerFault, answer_frames};
use std::alloc::Global;
use std::test::Fail;

/// So many Asks, each a frame that needs no reply.
fn asks(alloc: Global, count: usize) -> Result<Vec<u8>, Fail> {
    let ask = spelled(alloc, "00 00000002 0806")?;
    let mut text = Vec::new(alloc);
    for _ in 0..count {
        text.extend_from_slice(&ask)?;
    }
    Ok(text)
}

/// How a run over so many Asks and an end frame behind them ends.
fn ending_of(alloc: Global, count: usize) -> Result<Result<(), (u32, AnswerFault)>, Fail> {
    let mut text = asks(alloc, count)?;
    text.extend_from_slice(&[0x80, 0, 0, 0, 0])?;
    let mut reader = text.as_slice();
    Ok(answer_frames(alloc, &mut reader, &mut Vec::new(alloc)))
}

/// The limit of frames is told before what the next one would be: behind a million of them an end frame is not looked at.
#[test]
fn tells_the_limit_before_an_end(rt: HostRuntime) -> Result<(), Fail> {
    let before = ending_of(rt.alloc(), 999_999)?;
    assert!(rt; before == Err((999_999, AnswerFault::EndFlag)));
    let behind = ending_of(rt.alloc(), 1_000_000)?;
    assert!(rt; behind == Err((1_000_000, AnswerFault::FrameLimit)));
    Ok(())
}

/// Appends a frame that begins with these bytes and ends with so many of a value.
fn push_with_value(
    alloc: Global,
    text: &mut Vec<u8>,
    beginning: &str,
    count: usize,
) -> Result<(), Fail> {
    text.extend_from_slice(&spelled(alloc, beginning)?)?;
    text.extend_from_slice(&Vec::from_elem(alloc, 7, count)?)?;
    Ok(())
}

/// The longest Accept whose value a Promise can report: the Promise is two bytes longer, since it has a second round,
/// and as long as a payload may be.
const REPORTED: usize = 4_194_293;

/// An Accept of a value of so many bytes, and a Prepare above it.
fn accept_and_prepare(alloc: Global, beginning: &str, count: usize) -> Result<Vec<u8>, Fail> {
    let mut text = Vec::new(alloc);
    push_with_value(alloc, &mut text, beginning, count)?;
    text.extend_from_slice(&spelled(alloc, "00 00000004 08012802")?)?;
    Ok(text)
}

/// Whether the first answer goes out where there is room for so many bytes, and else a failed write is told of it.
fn is_written_within(alloc: Global, text: &[u8], room: usize) -> bool {
    let mut reader = text;
    let mut writer = Narrow::new(alloc, room, 9);
    let ending = answer_frames(alloc, &mut reader, &mut writer);
    // The Accepted is 14 bytes beside its value.
    let frame = if room < REPORTED + 14 { 0 } else { 1 };
    writer.written.len() == room && ending == Err((frame, AnswerFault::Write))
}

#[test]
fn tells_a_long_answer_that_is_cut(rt: HostRuntime) -> Result<(), Fail> {
    let alloc = rt.alloc();
    let text = accept_and_prepare(alloc, "00 003ffffe 0804 2801 4af5ffff01", REPORTED)?;
    for room in [1_000, REPORTED + 13, REPORTED + 14, REPORTED + 15] {
        assert!(rt; is_written_within(alloc, &text, room), "in {room}");
    }
    Ok(())
}
