//! Histories of messages, and whether they are lawful (Lamport, *Paxos Made Simple*, section 2).

use crate::explaining::breach;
use crate::words;
use ballots::{Members, Message};
use lawful_histories::{SentMessages, audit};
use std::alloc::Global;
use std::mem;
use story_requests::{RequestFault, Response, Words};

/// How many members agree, and the messages that were said, in order.
#[derive(Drop)]
pub(crate) struct History {
    members: Members,
    said: Vec<Message>,
}

impl History {
    /// Nothing is said yet.
    pub(crate) fn new(alloc: Global, members: Members) -> History {
        History {
            members,
            said: Vec::new(alloc),
        }
    }

    /// How many members agree.
    pub(crate) fn members(&self) -> Members {
        self.members
    }

    /// What was said.
    pub(crate) fn said(&self) -> &[Message] {
        &self.said
    }

    fn push(&mut self, message: Message) -> Result<(), RequestFault> {
        match self.said.push(message) {
            Ok(()) => Ok(()),
            Err(_) => Err(RequestFault::OutOfMemory),
        }
    }
}

/// Answers a call of the history.
pub(crate) fn answer(
    alloc: Global,
    history: &mut History,
    words: &mut Words<'_>,
    answer: &mut Response,
) -> Result<(), RequestFault> {
    match words.next() {
        "new" => make(alloc, history, words),
        "say" => say(alloc, history, words),
        "if" => suppose(alloc, history, words, answer),
        "audit" => judge(history, answer),
        "breach" => breach(alloc, history, answer),
        _ => Err(RequestFault::BadRequest),
    }
}

// Puts a history of so many members in its place.
fn make(alloc: Global, history: &mut History, words: &mut Words<'_>) -> Result<(), RequestFault> {
    let members = words::members(words)?;
    drop(mem::replace(history, History::new(alloc, members)));
    Ok(())
}

// Says the message.
fn say(alloc: Global, history: &mut History, words: &mut Words<'_>) -> Result<(), RequestFault> {
    history.push(words::message(alloc, words)?)
}

// Whether the history would be lawful with the message.
fn suppose(
    alloc: Global,
    history: &mut History,
    words: &mut Words<'_>,
    answer: &mut Response,
) -> Result<(), RequestFault> {
    say(alloc, history, words)?;
    judge(history, answer)?;
    history.said.pop();
    Ok(())
}

// Whether the history is lawful.
fn judge(history: &History, answer: &mut Response) -> Result<(), RequestFault> {
    let trace = SentMessages::new(history.members, history.said.clone()?);
    answer.word(if audit(&trace) { "lawful" } else { "unlawful" })
}
