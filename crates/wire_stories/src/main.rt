//! Answers requests about the wire: frames read and written, numbered fields, and the messages of Arrow Flight.
//!
//! `frames BYTES` gives the flag and the payload of each frame, and then how the input ends, with the bytes that are
//! left; `frame FLAG PAYLOAD` the bytes of a frame. `fields BYTES` gives of each field its number, its kind and what it
//! holds; `front BYTES` the same of the field at the front, what it lends, and the bytes behind it. `varint FIELD
//! NUMBER` and `bytes FIELD BYTES` give the bytes of a field, and with `nonzero-` and `nonempty-` before them those
//! that leave a default out. The name of a message and bytes give what each of its fields holds, and its encoding.
//! `tools/tellers/wire.py` makes the requests.
//!
//! Nothing is claimed here but that answering is safe and ends: what is answered is promised by `proto_wire` and the
//! crates below it.
#![tactic(auto)]

mod fields;
mod frames;
mod messages;
mod shown;

use std::alloc::Global;
use std::process::ExitCode;
use story_requests::{Answers, RequestFault, Response, Words};

fn main(rt: HostRuntime) -> ExitCode {
    story_requests::run::<Wire>(&rt)
}

/// Who answers. Nothing is kept from one request to the next.
#[derive(Drop)]
struct Wire;

impl Answers for Wire {
    fn new(_alloc: Global) -> Result<Wire, RequestFault> {
        Ok(Wire)
    }

    fn answer(
        &mut self,
        alloc: Global,
        asked: &str,
        words: &mut Words<'_>,
        answer: &mut Response,
    ) -> Result<(), RequestFault> {
        match asked {
            "frame" => frames::write(alloc, words, answer),
            "varint" | "nonzero-varint" | "bytes" | "nonempty-bytes" => {
                fields::write(alloc, asked, words, answer)
            }
            _ => read(alloc, asked, words, answer),
        }
    }
}

// Answers what is asked of the bytes that are the next word.
fn read(
    alloc: Global,
    asked: &str,
    words: &mut Words<'_>,
    answer: &mut Response,
) -> Result<(), RequestFault> {
    let bytes = words.bytes(alloc)?;
    match asked {
        "frames" => frames::read_all(alloc, &bytes, answer),
        "fields" => fields::read_all(alloc, &bytes, answer),
        "front" => fields::split_front(alloc, &bytes, answer),
        _ => messages::read(alloc, asked, &bytes, answer),
    }
}
