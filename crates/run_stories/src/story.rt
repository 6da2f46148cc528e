//! Nodes, the uploads that are numbered, and the events that happen.

use crate::asked::{config_of, event_of, upload_of};
use crate::told::{tell_messages, tell_steps};
use schedule_runner::{Config, Event, RunFault, Trace, audit, run};
use std::alloc::{AllocError, Global};
use std::hash::RandomState;
use std::io;
use std::random::RandomSource;
use story_requests::{Answers, RequestFault, Response, Words};
use uploads::Upload;

/// Who has heard of nodes, uploads and events.
#[derive(Drop)]
pub(crate) struct Story {
    hashing: RandomState,
    config: Option<Config>,
    uploads: Vec<Upload>,
    events: Vec<Event>,
}

fn push<T: Drop>(items: &mut Vec<T>, item: T) -> Result<(), AllocError> {
    items.push(item)?;
    Ok(())
}

fn boxed(alloc: Global, trace: Trace) -> Result<Box<Trace>, AllocError> {
    let trace = Box::new(alloc, trace)?;
    Ok(trace)
}

// What happened, and `None` of nodes or slots that are too many or too few.
fn played(alloc: Global, story: &Story) -> Result<Option<Box<Trace>>, RequestFault> {
    let Some(config) = story.config else {
        return Err(RequestFault::BadRequest);
    };
    match run(alloc, story.hashing, config, story.events.as_slice()) {
        Ok(trace) => Ok(Some(boxed(alloc, trace)?)),
        Err(RunFault::BadConfig) => Ok(None),
        Err(RunFault::OutOfMemory) => Err(RequestFault::OutOfMemory),
    }
}

fn tell_judged(alloc: Global, trace: &Trace, answer: &mut Response) -> Result<(), RequestFault> {
    let judged = if audit(trace) { "lawful" } else { "unlawful" };
    answer.word(judged)?;
    tell_messages(alloc, trace.sent(), answer)
}

fn play(alloc: Global, story: &Story, answer: &mut Response) -> Result<(), RequestFault> {
    match &played(alloc, story)? {
        Some(trace) => tell_steps(alloc, trace.steps(), answer),
        None => answer.word("BadConfig"),
    }
}

fn messages(alloc: Global, story: &Story, answer: &mut Response) -> Result<(), RequestFault> {
    match &played(alloc, story)? {
        Some(trace) => tell_judged(alloc, trace, answer),
        None => answer.word("BadConfig"),
    }
}

impl Story {
    fn begin(&mut self, words: &mut Words<'_>) -> Result<(), RequestFault> {
        self.config = Some(config_of(words)?);
        self.uploads.clear();
        self.events.clear();
        Ok(())
    }

    fn number(&mut self, alloc: Global, words: &mut Words<'_>) -> Result<(), RequestFault> {
        let upload = upload_of(alloc, words)?;
        Ok(push(&mut self.uploads, upload)?)
    }

    fn add(
        &mut self,
        alloc: Global,
        name: &str,
        words: &mut Words<'_>,
    ) -> Result<(), RequestFault> {
        let event = event_of(alloc, self.uploads.as_slice(), name, words)?;
        Ok(push(&mut self.events, event)?)
    }
}

// The same keys at each run: a story is told alike every time, and none of its names is a stranger's.
struct NoKeys;

impl RandomSource for NoKeys {
    fn fill_bytes(&self, _keys: &mut [u8]) -> io::Result<()> {
        Ok(())
    }
}

impl Answers for Story {
    fn new(alloc: Global) -> Result<Story, RequestFault> {
        Ok(Story {
            hashing: RandomState::new(&NoKeys)?,
            config: None,
            uploads: Vec::new(alloc),
            events: Vec::new(alloc),
        })
    }

    fn answer(
        &mut self,
        alloc: Global,
        asked: &str,
        words: &mut Words<'_>,
        answer: &mut Response,
    ) -> Result<(), RequestFault> {
        match asked {
            "nodes" => self.begin(words),
            "upload" => self.number(alloc, words),
            "play" => play(alloc, self, answer),
            "messages" => messages(alloc, self, answer),
            _ => self.add(alloc, asked, words),
        }
    }
}
