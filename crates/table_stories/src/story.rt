//! Tables that have taken some values, and what is asked of them.

use crate::asked::{table_of, ticket_of, upload_of, values_of};
use crate::told::{tell_frames, tell_info, tell_outcome, tell_ticket, tell_upload};
use std::alloc::{AllocError, Global};
use std::hash::RandomState;
use std::io;
use std::random::RandomSource;
use story_requests::{Answers, RequestFault, Response, Words};
use table_types::{Ticket, TicketFault};
use table_versions::{MAX_VALUES, Tables};

/// Who has tables.
#[derive(Drop)]
pub(crate) struct Story {
    hashing: RandomState,
    tables: Box<Tables>,
}

// Tables of no values.
fn no_tables(alloc: Global, hashing: RandomState) -> Result<Box<Tables>, AllocError> {
    let tables = Box::new(alloc, Tables::new(alloc, hashing))?;
    Ok(tables)
}

fn read_upload(
    alloc: Global,
    words: &mut Words<'_>,
    answer: &mut Response,
) -> Result<(), RequestFault> {
    match &upload_of(alloc, words)? {
        Some(upload) => tell_upload(alloc, upload, answer),
        None => answer.word("NotAnUpload"),
    }
}

fn write_ticket(
    alloc: Global,
    words: &mut Words<'_>,
    answer: &mut Response,
) -> Result<(), RequestFault> {
    match &ticket_of(alloc, words)? {
        Some(ticket) => answer.bytes(ticket.encode(alloc)?.as_slice()),
        None => answer.word("none"),
    }
}

fn read_ticket(
    alloc: Global,
    words: &mut Words<'_>,
    answer: &mut Response,
) -> Result<(), RequestFault> {
    let bytes = words.bytes(alloc)?;
    match Ticket::decode(alloc, bytes.as_slice()) {
        Ok(ticket) => tell_ticket(&ticket, answer),
        Err(TicketFault::BadTicket) => answer.word("BadTicket"),
        Err(TicketFault::OutOfMemory) => Err(RequestFault::OutOfMemory),
    }
}

fn take(
    alloc: Global,
    tables: &mut Tables,
    words: &mut Words<'_>,
    answer: &mut Response,
) -> Result<(), RequestFault> {
    let values = values_of(alloc, words)?;
    let taken = tables.taken();
    if taken > MAX_VALUES || values.len() as u64 > MAX_VALUES - taken {
        return Err(RequestFault::BadRequest);
    }
    let ready = tables.ready(values.as_slice())?;
    tables.apply(ready);
    answer.number(tables.taken())
}

fn outcome(
    alloc: Global,
    tables: &Tables,
    words: &mut Words<'_>,
    answer: &mut Response,
) -> Result<(), RequestFault> {
    match &upload_of(alloc, words)? {
        Some(upload) => tell_outcome(tables.outcome(upload), answer),
        None => Err(RequestFault::BadRequest),
    }
}

fn names(tables: &Tables, answer: &mut Response) -> Result<(), RequestFault> {
    let names = tables.tables()?;
    for name in &names {
        answer.bytes(name.as_bytes())?;
    }
    Ok(())
}

fn latest(
    alloc: Global,
    tables: &Tables,
    words: &mut Words<'_>,
    answer: &mut Response,
) -> Result<(), RequestFault> {
    let table = table_of(alloc, words)?;
    match &tables.latest(table.as_str())? {
        Some(info) => tell_info(info, answer),
        None => answer.word("none"),
    }
}

fn answered(
    tables: &Tables,
    ticket: &Option<Ticket>,
    answer: &mut Response,
) -> Result<(), RequestFault> {
    let Some(ticket) = ticket else {
        return Err(RequestFault::BadRequest);
    };
    match &tables.answer(ticket)? {
        Some(served) => tell_frames(served.frames(), answer),
        None => answer.word("none"),
    }
}

// The same keys at each run: a story is told alike every time, and none of its names is a stranger's.
struct NoKeys;

impl RandomSource for NoKeys {
    fn fill_bytes(&self, _keys: &mut [u8]) -> io::Result<()> {
        Ok(())
    }
}

impl Answers for Story {
    fn new(alloc: Global) -> Result<Story, RequestFault> {
        let hashing = RandomState::new(&NoKeys)?;
        let tables = no_tables(alloc, hashing)?;
        Ok(Story { hashing, tables })
    }

    fn answer(
        &mut self,
        alloc: Global,
        asked: &str,
        words: &mut Words<'_>,
        answer: &mut Response,
    ) -> Result<(), RequestFault> {
        match asked {
            "upload" => read_upload(alloc, words, answer),
            "ticket" => write_ticket(alloc, words, answer),
            "read-ticket" => read_ticket(alloc, words, answer),
            "new" => {
                self.tables = no_tables(alloc, self.hashing)?;
                Ok(())
            }
            "take" => take(alloc, &mut self.tables, words, answer),
            "outcome" => outcome(alloc, &self.tables, words, answer),
            "tables" => names(&self.tables, answer),
            "latest" => latest(alloc, &self.tables, words, answer),
            "answer" => answered(&self.tables, &ticket_of(alloc, words)?, answer),
            _ => Err(RequestFault::BadRequest),
        }
    }
}
