//! How much of what comes back a client has read when its call ends: all of a trailer and nothing behind it, the five
//! bytes in front of a payload that no frame of an answer may have, or whatever came before the end or before a read
//! that failed.

use crate::failing::{Asked, answered, ask};
use crate::streams::Portions;
use crate::support::check;
use client_calls::ClientFault;
use flight_calls::CallFault;
use std::alloc::Global;
use std::test::Fail;

/// How a call ended.
#[derive(Clone, Copy, Debug, PartialEq, Eq)]
enum Ending {
    /// With what the answer tells.
    Told,
    /// With the status and the text of a refusal.
    Refused,
    /// What came is no answer.
    NoAnswer,
    /// A read failed.
    Read,
    /// In another way.
    Otherwise,
}

/// The trailer of a call that was answered, which is the last of each answer here, and one of status 14.
const OK: &[u8] = b"\x80\x00\x00\x00\x01\x00";

const UNAVAILABLE: &[u8] = b"\x80\x00\x00\x00\x0c\x0eUnavailable";

/// The frame of a message that is none of an answer, but where messages may say anything.
const STRANGE: &[u8] = b"\x00\x00\x00\x00\x01\xff";

/// Trailers that are none: without a status, of status 0 with a text, and of status 14 with a text that is no UTF-8.
const NO_TRAILERS: [&[u8]; 3] = [
    b"\x80\x00\x00\x00\x00",
    b"\x80\x00\x00\x00\x02\x00A",
    b"\x80\x00\x00\x00\x02\x0e\xff",
];

/// What stands in front of payloads that no frame of an answer may have: flags that are none, that of a compressed
/// message, and a message and a trailer that are too long.
const NO_HEADS: [&[u8]; 5] = [
    b"\x02\x00\x00\x00\x00",
    b"\xff\x00\x00\x00\x01",
    b"\x01\x00\x00\x00\x01",
    b"\x00\x00\x40\x00\x01",
    b"\x80\xff\xff\xff\xff",
];

/// What a reader behind all these would go on with: a message without bytes, a trailer, and a flag that is none.
const BEHIND: &[u8] = b"\x00\x00\x00\x00\x00\x80\x00\x00\x00\x01\x00\x02";

/// How many bytes are read at once, at most.
const PORTIONS: [usize; 3] = [1, 7, usize::MAX];

/// The five bytes in front of a message of 70,000 bytes, for which room is made twice: for 65,536 bytes first.
const LONG_HEAD: [u8; 5] = [0, 0, 1, 0x11, 0x70];

/// How many bytes of that frame come, where the others don't.
const LONG_CUTS: [usize; 5] = [5, 65_540, 65_541, 65_542, 70_004];

/// How a call ended that was told this.
fn how_ended(got: Result<(), ClientFault>) -> Ending {
    match got {
        Ok(()) => Ending::Told,
        Err(ClientFault::Status(_, _)) => Ending::Refused,
        Err(ClientFault::BadAnswer) => Ending::NoAnswer,
        Err(ClientFault::Call(CallFault::Read)) => Ending::Read,
        Err(ClientFault::Call(_)) => Ending::Otherwise,
    }
}

/// Whether the call ends so over this reader, and has then read so many bytes.
fn ends(
    alloc: Global,
    asked: Asked,
    reader: Portions<'_>,
    end: Ending,
    taken: usize,
) -> Result<bool, Fail> {
    let mut reader = reader;
    let before = reader.left.len();
    let got = ask(alloc, asked, &mut reader, &mut Vec::new(alloc))?;
    let left = reader.left.len();
    Ok(how_ended(got) == end && before.saturating_sub(left) == taken)
}

/// These bytes, and those behind them.
fn joined(alloc: Global, front: &[u8], behind: &[u8]) -> Result<Vec<u8>, Fail> {
    let mut all = Vec::from_slice(alloc, front)?;
    all.extend_from_slice(behind)?;
    Ok(all)
}

/// Whether the call ends so with all of these bytes and nothing behind them, where more bytes follow, where the input
/// ends, and where a read fails.
fn leaves_at(
    alloc: Global,
    asked: Asked,
    text: &[u8],
    most: usize,
    end: Ending,
) -> Result<bool, Fail> {
    let more = joined(alloc, text, BEHIND)?;
    let followed = Portions {
        left: more.as_slice(),
        most,
        fails: false,
    };
    let ended = Portions {
        left: text,
        most,
        fails: false,
    };
    let broken = Portions {
        left: text,
        most,
        fails: true,
    };
    Ok(
        ends(alloc, asked, followed, end, text.len())?
            && ends(alloc, asked, ended, end, text.len())?
            && ends(alloc, asked, broken, end, text.len())?,
    )
}

/// The call ends so with what stands in front, this text, and nothing behind it, however many bytes are read at once.
fn leaves(alloc: Global, asked: Asked, front: &[u8], text: &[u8], end: Ending) -> Result<(), Fail> {
    let all = joined(alloc, front, text)?;
    for most in PORTIONS {
        check(
            leaves_at(alloc, asked, all.as_slice(), most, end)?,
            "another end, or another rest",
        )?;
    }
    Ok(())
}

/// Behind these messages, trailers that are none.
fn faulty_trailers(alloc: Global, asked: Asked, front: &[u8]) -> Result<(), Fail> {
    for text in NO_TRAILERS {
        leaves(alloc, asked, front, text, Ending::NoAnswer)?;
    }
    Ok(())
}

/// Behind these messages, frames that are none.
fn faulty_heads(alloc: Global, asked: Asked, front: &[u8]) -> Result<(), Fail> {
    for text in NO_HEADS {
        leaves(alloc, asked, front, text, Ending::NoAnswer)?;
    }
    Ok(())
}

/// Behind these messages, whatever they say, a refusal, trailers that are none, and frames that are none.
fn faults(alloc: Global, asked: Asked, front: &[u8]) -> Result<(), Fail> {
    leaves(alloc, asked, front, UNAVAILABLE, Ending::Refused)?;
    faulty_trailers(alloc, asked, front)?;
    faulty_heads(alloc, asked, front)
}

/// The messages of the answer to the call.
fn messages(rt: &HostRuntime, asked: Asked) -> Result<Vec<u8>, Fail> {
    let answer = answered(rt, asked)?;
    let answer = answer.as_slice();
    check(answer.ends_with(OK), "no trailer")?;
    let length = answer.len().saturating_sub(OK.len());
    Ok(Vec::from_slice(rt.alloc(), &answer[..length])?)
}

/// Nothing is read behind the answer, nor behind what is at fault in the place of its end, in front, or behind a
/// strange message.
fn nothing_behind(rt: &HostRuntime, asked: Asked) -> Result<(), Fail> {
    let messages = messages(rt, asked)?;
    let messages = messages.as_slice();
    leaves(rt.alloc(), asked, messages, OK, Ending::Told)?;
    faults(rt.alloc(), asked, messages)?;
    faults(rt.alloc(), asked, &[])?;
    faults(rt.alloc(), asked, STRANGE)
}

/// A strange message in front of the answer's, or behind them, is found at the trailer alone.
fn behind_strange(rt: &HostRuntime, asked: Asked, end: Ending) -> Result<(), Fail> {
    let messages = messages(rt, asked)?;
    let before = joined(rt.alloc(), STRANGE, messages.as_slice())?;
    let behind = joined(rt.alloc(), messages.as_slice(), STRANGE)?;
    leaves(rt.alloc(), asked, STRANGE, OK, end)?;
    leaves(rt.alloc(), asked, before.as_slice(), OK, end)?;
    leaves(rt.alloc(), asked, behind.as_slice(), OK, end)
}

/// Whether all of this beginning of an answer is read, where the input ends behind it and where a read fails.
fn takes_all(alloc: Global, asked: Asked, text: &[u8], most: usize) -> Result<bool, Fail> {
    let ended = Portions {
        left: text,
        most,
        fails: false,
    };
    let broken = Portions {
        left: text,
        most,
        fails: true,
    };
    Ok(
        ends(alloc, asked, ended, Ending::NoAnswer, text.len())?
            && ends(alloc, asked, broken, Ending::Read, text.len())?,
    )
}

/// How many beginnings of the answer are read whole, so many bytes at once.
fn taken_whole(alloc: Global, asked: Asked, answer: &[u8], most: usize) -> Result<usize, Fail> {
    let mut whole: usize = 0;
    for length in 0..answer.len() {
        if takes_all(alloc, asked, &answer[..length], most)? {
            whole = whole.saturating_add(1);
        }
    }
    Ok(whole)
}

/// Each beginning of the answer to the call is read whole.
fn beginnings(rt: &HostRuntime, asked: Asked) -> Result<(), Fail> {
    let answer = answered(rt, asked)?;
    let answer = answer.as_slice();
    for most in PORTIONS {
        check(
            taken_whole(rt.alloc(), asked, answer, most)? == answer.len(),
            "a beginning is left, or ends otherwise",
        )?;
    }
    Ok(())
}

/// The frame of a message of 70,000 bytes.
fn long(alloc: Global) -> Result<Vec<u8>, Fail> {
    let payload = vec![in alloc; 0; 70_000]?;
    joined(alloc, &LONG_HEAD, payload.as_slice())
}

/// What comes of a message that takes several reads is read whole, where the rest does not come.
fn long_beginnings(alloc: Global, asked: Asked) -> Result<(), Fail> {
    let frame = long(alloc)?;
    let frame = frame.as_slice();
    for length in LONG_CUTS {
        let text = &frame[..length.min(frame.len())];
        check(
            takes_all(alloc, asked, text, usize::MAX)?,
            "a beginning is left, or ends otherwise",
        )?;
    }
    let refused = joined(alloc, frame, UNAVAILABLE)?;
    check(
        leaves_at(
            alloc,
            asked,
            refused.as_slice(),
            usize::MAX,
            Ending::Refused,
        )?,
        "another end, or another rest",
    )
}

#[test]
fn a_client_reads_nothing_behind_what_ends_its_call(rt: HostRuntime) -> Result<(), Fail> {
    nothing_behind(&rt, Asked::Put)?;
    nothing_behind(&rt, Asked::Get)?;
    nothing_behind(&rt, Asked::Frames)?;
    nothing_behind(&rt, Asked::Info)?;
    nothing_behind(&rt, Asked::List)
}

#[test]
fn a_client_reads_to_the_trailer_behind_a_strange_message(rt: HostRuntime) -> Result<(), Fail> {
    behind_strange(&rt, Asked::Put, Ending::NoAnswer)?;
    behind_strange(&rt, Asked::Get, Ending::NoAnswer)?;
    behind_strange(&rt, Asked::Frames, Ending::Told)?;
    behind_strange(&rt, Asked::Info, Ending::NoAnswer)?;
    behind_strange(&rt, Asked::List, Ending::NoAnswer)
}

#[test]
fn a_client_reads_all_of_each_beginning_of_an_answer(rt: HostRuntime) -> Result<(), Fail> {
    beginnings(&rt, Asked::Put)?;
    beginnings(&rt, Asked::Get)?;
    beginnings(&rt, Asked::Frames)?;
    beginnings(&rt, Asked::Info)?;
    beginnings(&rt, Asked::List)
}

#[test]
fn a_client_reads_all_that_comes_of_a_long_message(rt: HostRuntime) -> Result<(), Fail> {
    long_beginnings(rt.alloc(), Asked::Put)?;
    long_beginnings(rt.alloc(), Asked::Get)?;
    long_beginnings(rt.alloc(), Asked::Frames)?;
    long_beginnings(rt.alloc(), Asked::Info)?;
    long_beginnings(rt.alloc(), Asked::List)
}
