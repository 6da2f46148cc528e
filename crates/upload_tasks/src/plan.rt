//! What a run is made of.

use crate::values::{split_number, split_upload, upload_of};
use ballots::Members;
use bytes::Bytes;
use part_tasks::{TaskFault, push};
use schedule_runner::{Config, MAX_JOURNAL_ENTRIES};
use std::alloc::Global;
use uploads::Upload;

/// What the nodes have in common, and what clients put.
#[derive(Drop)]
pub(crate) struct Plan {
    pub(crate) config: Config,
    pub(crate) uploads: Vec<Upload>,
}

/// How many members and how many slots there are, and what follows these numbers.
fn split_head(bytes: &[u8]) -> Option<(u32, u32, &[u8])> {
    let (members, rest) = split_number(bytes)?;
    let (slots, rest) = split_number(rest)?;
    Some((members, slots, rest))
}

/// So many members, where there can be so many.
fn members_of(count: u32) -> Option<Members> {
    match u8::try_from(count) {
        Ok(count) => Members::new(count),
        Err(_) => None,
    }
}

/// The configuration with so many members and slots.
fn config_of(members: u32, slots: u32) -> Result<Config, TaskFault> {
    match members_of(members) {
        Some(members) => Ok(Config {
            members,
            slot_limit: slots,
            journal_limit: MAX_JOURNAL_ENTRIES,
        }),
        None => Err(TaskFault::BadConfig),
    }
}

fn push_upload(alloc: Global, uploads: &mut Vec<Upload>, bytes: &[u8]) -> Result<(), TaskFault> {
    let copy = Bytes::copy_from_slice(alloc, bytes)?;
    let upload = upload_of(alloc, copy, TaskFault::Plan)?;
    Ok(push(uploads, upload)?)
}

fn push_uploads(alloc: Global, uploads: &mut Vec<Upload>, bytes: &[u8]) -> Result<(), TaskFault> {
    let mut rest = bytes;
    for _ in 0..bytes.len() {
        if rest.is_empty() {
            break;
        }
        let Some((upload, behind)) = split_upload(rest) else {
            return Err(TaskFault::Plan);
        };
        push_upload(alloc, uploads, upload)?;
        rest = behind;
    }
    Ok(())
}

/// The run that the bytes tell of, with uploads that each have bytes of their own.
pub(crate) fn plan_in(alloc: Global, bytes: &[u8]) -> Result<Plan, TaskFault> {
    let Some((members, slots, rest)) = split_head(bytes) else {
        return Err(TaskFault::Plan);
    };
    let config = config_of(members, slots)?;
    let mut uploads = Vec::new(alloc);
    push_uploads(alloc, &mut uploads, rest)?;
    Ok(Plan { config, uploads })
}
