//! The words of what is told.

use bytes::Bytes;
use std::alloc::Global;
use story_requests::{RequestFault, Response};
use table_types::Ticket;
use table_versions::{Outcome, TableInfo};
use uploads::Upload;

fn tell_columns(alloc: Global, upload: &Upload, answer: &mut Response) -> Result<(), RequestFault> {
    let schema = upload.schema(alloc)?;
    for field in &schema.fields {
        answer.bytes(field.name.as_bytes())?;
    }
    Ok(())
}

/// Tells the parts of an upload.
pub(crate) fn tell_upload(
    alloc: Global,
    upload: &Upload,
    answer: &mut Response,
) -> Result<(), RequestFault> {
    answer.bytes(upload.table().as_bytes())?;
    answer.bytes(&upload.id())?;
    answer.number(upload.schema_bytes().len() as u64)?;
    answer.number(upload.batch_count() as u64)?;
    tell_columns(alloc, upload, answer)
}

/// Tells what has become of an upload.
pub(crate) fn tell_outcome(outcome: Outcome, answer: &mut Response) -> Result<(), RequestFault> {
    match outcome {
        Outcome::Applied(version) => answer.number(version),
        Outcome::SchemaMismatch => answer.word("SchemaMismatch"),
        Outcome::Conflict => answer.word("Conflict"),
        Outcome::Unknown => answer.word("Unknown"),
    }
}

/// Tells the latest version of a table.
pub(crate) fn tell_info(info: &TableInfo, answer: &mut Response) -> Result<(), RequestFault> {
    answer.bytes(info.table.as_bytes())?;
    answer.number(info.version)?;
    answer.number(info.records)?;
    answer.number(info.total_bytes)?;
    answer.bytes(info.schema.as_slice())
}

/// Tells each frame of an answer.
pub(crate) fn tell_frames(frames: &[Bytes], answer: &mut Response) -> Result<(), RequestFault> {
    for frame in frames {
        answer.bytes(frame.as_slice())?;
    }
    Ok(())
}

/// Tells the version and the table of a ticket.
pub(crate) fn tell_ticket(ticket: &Ticket, answer: &mut Response) -> Result<(), RequestFault> {
    answer.number(ticket.version())?;
    answer.bytes(ticket.table().as_bytes())
}
