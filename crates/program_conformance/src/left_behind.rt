//! Where the reader stands after a run.

use crate::support::spelled;
use acceptor_command::answer_frames;
use std::alloc::Global;
use std::test::Fail;

/// Inputs, each behind how many bytes of it a run reads: an end frame, with and without a payload; a flag that is none
/// of the three, a compressed frame and one that is too long, of which five bytes are read; frames that carry no
/// message, the second one behind an Ask.
const STOPS: [(usize, &str); 7] = [
    (5, "80 00000000"),
    (7, "80 00000002 0806"),
    (5, "02 00000002 0806"),
    (5, "01 00000002 0806"),
    (5, "00 00400001 0806"),
    (7, "00 00000002 0809"),
    (14, "00 00000002 0806 00 00000002 0809"),
];

/// What stands behind each of them: Asks.
const BEHIND: &str = "00 00000002 0806 00 00000002 0806 00 00000002 0806";

/// Whether a run over the bytes fails without an answer, and has read so many of them.
fn is_read(alloc: Global, input: &[u8], read: usize) -> bool {
    let mut reader = input;
    let mut output = Vec::new(alloc);
    let ending = answer_frames(alloc, &mut reader, &mut output);
    ending.is_err() && input.get(read..) == Some(reader) && output.is_empty()
}

#[test]
fn reads_no_more_than_the_frame_that_ends_it(rt: HostRuntime) -> Result<(), Fail> {
    let alloc = rt.alloc();
    for (read, stop) in STOPS {
        let mut input = spelled(alloc, stop)?;
        input.extend_from_slice(&spelled(alloc, BEHIND)?)?;
        assert!(rt; is_read(alloc, &input, read), "{read} bytes");
    }
    Ok(())
}

/// Behind thousands of Asks too.
#[test]
fn reads_no_more_behind_thousands_of_frames(rt: HostRuntime) -> Result<(), Fail> {
    let alloc = rt.alloc();
    let ask = spelled(alloc, "00 00000002 0806")?;
    let mut input = Vec::new(alloc);
    for _ in 0..5_000 {
        input.extend_from_slice(&ask)?;
    }
    input.extend_from_slice(&spelled(alloc, "80 00000000")?)?;
    input.extend_from_slice(&ask)?;
    assert!(rt; is_read(alloc, &input, 35_005));
    Ok(())
}
