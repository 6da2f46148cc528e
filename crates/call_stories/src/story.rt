//! A backend that has taken some uploads, and calls that it serves.

use crate::asked::{input_of, texts_of};
use flight_calls::{CallFault, serve_call};
use std::alloc::{AllocError, Global};
use std::hash::RandomState;
use std::io;
use std::random::RandomSource;
use story_requests::{Answers, RequestFault, Response, Words};
use table_backend::TableBackend;
use uploads::Upload;

/// Who has a backend.
#[derive(Drop)]
pub(crate) struct Story {
    hashing: RandomState,
    backend: Box<TableBackend>,
}

fn backend_of(
    alloc: Global,
    hashing: RandomState,
    slots: u64,
    locations: Vec<String>,
) -> Result<Box<TableBackend>, AllocError> {
    let backend = TableBackend::new(alloc, hashing, slots, locations);
    let backend = Box::new(alloc, backend)?;
    Ok(backend)
}

// Serves a call, and leaves what stands behind it.
fn serve(
    alloc: Global,
    backend: &mut TableBackend,
    rest: &mut &[u8],
    output: &mut Vec<u8>,
) -> Result<(), CallFault> {
    serve_call(alloc, rest, output, backend)
}

// Serves a call, and gives how many bytes of its input were left.
fn served(
    alloc: Global,
    backend: &mut TableBackend,
    input: &[u8],
    output: &mut Vec<u8>,
) -> Result<u64, RequestFault> {
    let mut rest = input;
    match serve(alloc, backend, &mut rest, output) {
        Ok(()) => Ok(rest.len() as u64),
        Err(CallFault::OutOfMemory) => Err(RequestFault::OutOfMemory),
        Err(_) => Err(RequestFault::Io),
    }
}

fn tell_names(handed: &[Upload], answer: &mut Response) -> Result<(), RequestFault> {
    for upload in handed {
        answer.bytes(&upload.id())?;
    }
    Ok(())
}

fn call(
    alloc: Global,
    backend: &mut TableBackend,
    words: &mut Words<'_>,
    answer: &mut Response,
) -> Result<(), RequestFault> {
    let input = input_of(alloc, words)?;
    let before = backend.handed().len();
    let mut output = Vec::new(alloc);
    let left = served(alloc, backend, input.as_slice(), &mut output)?;
    answer.bytes(output.as_slice())?;
    answer.number(left)?;
    tell_names(backend.handed().get(before..).unwrap_or(&[]), answer)
}

impl Story {
    fn begin(&mut self, alloc: Global, words: &mut Words<'_>) -> Result<(), RequestFault> {
        let slots = words.number()?;
        let locations = texts_of(alloc, words)?;
        self.backend = backend_of(alloc, self.hashing, slots, locations)?;
        Ok(())
    }
}

// The same keys at each run: a story is told alike every time, and none of its names is a stranger's.
struct NoKeys;

impl RandomSource for NoKeys {
    fn fill_bytes(&self, _keys: &mut [u8]) -> io::Result<()> {
        Ok(())
    }
}

impl Answers for Story {
    // With a backend that takes no upload.
    fn new(alloc: Global) -> Result<Story, RequestFault> {
        let hashing = RandomState::new(&NoKeys)?;
        let backend = backend_of(alloc, hashing, 0, Vec::new(alloc))?;
        Ok(Story { hashing, backend })
    }

    fn answer(
        &mut self,
        alloc: Global,
        asked: &str,
        words: &mut Words<'_>,
        answer: &mut Response,
    ) -> Result<(), RequestFault> {
        match asked {
            "new" => self.begin(alloc, words),
            "call" => call(alloc, &mut self.backend, words, answer),
            _ => Err(RequestFault::BadRequest),
        }
    }
}
