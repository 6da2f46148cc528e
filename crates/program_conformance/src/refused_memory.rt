//! A run of the acceptor that is refused memory: the frames before it are answered, its line names the frame and the
//! fault, and the next run over the same frames answers all.
//! Run with every allocation refused in turn, the test ends as before or for want of memory.

use crate::support::{ANSWERS, CONVERSATION, ENDS, spelled, tells};
use acceptor_command::acceptor_run;
use std::alloc::{AllocError, Global};
use std::test::Fail;

/// What a run writes, and how it ends. Its vectors have their room beforehand, so that no write fails.
#[derive(Drop)]
struct Ran {
    written: Vec<u8>,
    said: Vec<u8>,
    status: u8,
}

fn run(alloc: Global, input: &[u8]) -> Result<Ran, AllocError> {
    let mut reader = input;
    let mut written = Vec::with_capacity(alloc, 100)?;
    let mut said = Vec::with_capacity(alloc, 100)?;
    let status = acceptor_run(alloc, &mut reader, &mut written, &mut said);
    Ok(Ran {
        written,
        said,
        status,
    })
}

/// Whether it ended at this frame for want of memory, behind these answers.
fn wants_memory_at(
    alloc: Global,
    ran: &Ran,
    frame: usize,
    answers: &[u8],
) -> Result<bool, AllocError> {
    let line = format!(in alloc; "frame {frame}: OutOfMemory")?;
    let is_told = tells(alloc, ran.status, &ran.said, &line)?;
    Ok(is_told && ran.written.as_slice() == answers)
}

/// Whether it ended so at one of the frames, behind the answers to those before.
fn wants_memory(alloc: Global, ran: &Ran, answers: &[u8]) -> Result<bool, AllocError> {
    let mut sent = 0;
    for (frame, (_, answer_end)) in ENDS.iter().enumerate() {
        let before = answers.get(..sent).unwrap_or(&[]);
        if wants_memory_at(alloc, ran, frame, before)? {
            return Ok(true);
        }
        sent = *answer_end;
    }
    Ok(false)
}

/// Whether it answered all frames.
fn is_whole(ran: &Ran, answers: &[u8]) -> bool {
    ran.status == 0 && ran.said.is_empty() && ran.written.as_slice() == answers
}

#[test]
fn a_run_answers_or_wants_memory(rt: HostRuntime) -> Result<(), Fail> {
    let input = spelled(rt.alloc(), CONVERSATION)?;
    let answers = spelled(rt.alloc(), ANSWERS)?;
    let first = run(rt.alloc(), &input)?;
    if !is_whole(&first, &answers) {
        assert!(rt; wants_memory(rt.alloc(), &first, &answers)?);
        let second = run(rt.alloc(), &input)?;
        assert!(rt; is_whole(&second, &answers));
    }
    Ok(())
}
