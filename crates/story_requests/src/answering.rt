//! Requests on standard input, answered one after the other.

use crate::fault::RequestFault;
use crate::response::Response;
use crate::words::Words;
use std::alloc::Global;
use std::io::{self, BufWriter, Write};
use std::process::ExitCode;

/// Who answers requests.
pub trait Answers: Sized + Drop {
    /// One who was asked nothing yet.
    fn new(alloc: Global) -> Result<Self, RequestFault>;

    /// Answers one request: what is asked, and the words of its arguments.
    fn answer(
        &mut self,
        alloc: Global,
        asked: &str,
        words: &mut Words<'_>,
        answer: &mut Response,
    ) -> Result<(), RequestFault>;
}

/// Answers the requests on standard input, a line each on standard output. The status is 0, or 1 where one can't be
/// answered, with the fault on standard error.
pub fn run<T: Answers>(rt: &HostRuntime) -> ExitCode {
    match answer_all::<T>(rt) {
        Ok(()) => ExitCode::from(0),
        Err(fault) => {
            // Where this fails too, the status alone tells.
            let _ = eprintln!(rt; "{fault}");
            ExitCode::from(1)
        }
    }
}

fn answer_all<T: Answers>(rt: &HostRuntime) -> Result<(), RequestFault> {
    let alloc = rt.alloc();
    let text = io::read_to_string(alloc, rt.stdin())?;
    let mut output = BufWriter::new(alloc, rt.stdout())?;
    answer_lines::<T, _>(alloc, text.as_str(), &mut output)?;
    output.flush()?;
    Ok(())
}

fn answer_lines<T: Answers, W: Write>(
    alloc: Global,
    text: &str,
    output: &mut W,
) -> Result<(), RequestFault> {
    let mut answers = T::new(alloc)?;
    for line in text.lines() {
        answer_line(alloc, line, &mut answers, output)?;
    }
    Ok(())
}

fn answer_line<T: Answers, W: Write>(
    alloc: Global,
    line: &str,
    answers: &mut T,
    output: &mut W,
) -> Result<(), RequestFault> {
    let mut words = Words::new(line);
    let asked = words.next();
    let mut answer = Response::new(alloc);
    answers.answer(alloc, asked, &mut words, &mut answer)?;
    if !words.is_empty() {
        return Err(RequestFault::BadRequest);
    }
    writeln!(output, "{}", answer.as_str())?;
    Ok(())
}
