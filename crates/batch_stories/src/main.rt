//! Answers requests about batches: `read SCHEMA HEADER BODY` with the bytes of two messages and of a body reads a batch
//! and writes it again, `layouts SCHEMA` says how values of the fields stand in buffers; and about what batches are
//! made of: `bits` and `nulls` make a column, `bitmap` a bitmap, and `zeros` counts the zeros of runs of bits.
//!
//! What can't be read is answered with the fault's name. What `{:?}` prints of a value is answered in hexadecimal.
//!
//! Nothing is claimed here but that answering is safe and ends: what is read and written is promised by the crates that
//! do it.
#![tactic(auto)]

mod bitmap_answers;
mod cells;
mod column_answers;
mod layouts;
mod reading;

use std::alloc::Global;
use std::process::ExitCode;
use story_requests::{Answers, RequestFault, Response, Words, run};

/// Who answers about batches.
#[derive(Drop)]
struct BatchAnswers {}

impl Answers for BatchAnswers {
    fn new(_alloc: Global) -> Result<BatchAnswers, RequestFault> {
        Ok(BatchAnswers {})
    }

    fn answer(
        &mut self,
        alloc: Global,
        asked: &str,
        words: &mut Words<'_>,
        answer: &mut Response,
    ) -> Result<(), RequestFault> {
        match asked {
            "read" => reading::answer_read(alloc, words, answer),
            "layouts" => layouts::answer_layouts(alloc, words, answer),
            "bits" => column_answers::answer_bits(alloc, words, answer),
            "nulls" => column_answers::answer_nulls(alloc, words, answer),
            "bitmap" => bitmap_answers::answer_bitmap(alloc, words, answer),
            "zeros" => bitmap_answers::answer_zeros(alloc, words, answer),
            _ => Err(RequestFault::BadRequest),
        }
    }
}

fn main(rt: HostRuntime) -> ExitCode {
    run::<BatchAnswers>(&rt)
}
