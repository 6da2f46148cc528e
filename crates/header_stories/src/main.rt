//! Answers requests about the headers of Arrow's messages, and about the places that they are read at: `uint`,
//! `follow`, `slot`, `vector` and `text` with bytes, a place and what else is wanted; `message` and `rewritten` with the
//! bytes of a message; `encapsulated` with two runs of bytes; `profile` and `written` with a schema, and `shapes` with
//! two.
//!
//! What is asked for is answered in words, or else the fault's name. A header is answered as `{:?}` prints it, in
//! hexadecimal. `schemas` says how a schema is spelled.
//!
//! Nothing is claimed here but that answering is safe and ends: what is read and written is promised by the crates that
//! do it.
#![tactic(auto)]

mod headers;
mod places;
mod schemas;

use std::alloc::Global;
use std::process::ExitCode;
use story_requests::{Answers, RequestFault, Response, Words, run};

/// Who answers about headers.
#[derive(Drop)]
struct HeaderAnswers {}

impl Answers for HeaderAnswers {
    fn new(_alloc: Global) -> Result<HeaderAnswers, RequestFault> {
        Ok(HeaderAnswers {})
    }

    fn answer(
        &mut self,
        alloc: Global,
        asked: &str,
        words: &mut Words<'_>,
        answer: &mut Response,
    ) -> Result<(), RequestFault> {
        match asked {
            "uint" | "slot" | "vector" => places::answer_at(alloc, asked, words, answer),
            "follow" => places::answer_follow(alloc, words, answer),
            "text" => places::answer_text(alloc, words, answer),
            "message" => headers::answer_message(alloc, words, answer),
            "rewritten" => headers::answer_rewritten(alloc, words, answer),
            "encapsulated" => headers::answer_encapsulated(alloc, words, answer),
            "profile" => schemas::answer_profile(alloc, words, answer),
            "written" => schemas::answer_written(alloc, words, answer),
            "shapes" => schemas::answer_shapes(alloc, words, answer),
            _ => Err(RequestFault::BadRequest),
        }
    }
}

fn main(rt: HostRuntime) -> ExitCode {
    run::<HeaderAnswers>(&rt)
}
