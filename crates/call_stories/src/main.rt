//! Answers requests about Flight calls. `story_requests` says what a request and an answer are.
//!
//! `new SLOTS LOCATION ..` begins with a backend that holds no upload, takes so many, and serves at these locations. `call
//! COUNT BYTES ..` serves one call, whose input is these bytes one after the other, each of them so often. It gives the bytes
//! of the answer, how many bytes of the input were left, and the ids of the uploads that were handed over.
//!
//! Nothing is claimed here but that answering is safe and ends: what is told is promised by the crates that do it.
#![tactic(auto)]

mod asked;
mod story;

use std::process::ExitCode;
use story::Story;
use story_requests::run;

fn main(rt: HostRuntime) -> ExitCode {
    run::<Story>(&rt)
}
