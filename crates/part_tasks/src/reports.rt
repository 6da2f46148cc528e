//! An acceptor that reports an upload's value in promises of rising ballots.

use crate::fault::TaskFault;
use crate::parts::{first_ballot, node};
use crate::shared::push;
use acceptor::{Acceptor, Answer};
use ballots::{Acceptance, Ballot, Slot, UploadBytes, Value};
use bytes::Bytes;
use std::alloc::Global;

/// Has an acceptor accept these bytes as an upload's value, and then promise so many ballots for the same slot. Each
/// promise reports the value, and all are kept until the last is given, so that their memory can be measured. The sum
/// counts them.
pub fn report_value(alloc: Global, count: u64, bytes: &[u8]) -> Result<u64, TaskFault> {
    let proposal = proposal_of(alloc, bytes)?;
    let mut acceptor = Acceptor::new(alloc);
    let sum = report_proposal(alloc, &mut acceptor, count, proposal);
    drop(acceptor);
    sum
}

fn report_proposal(
    alloc: Global,
    acceptor: &mut Acceptor,
    count: u64,
    proposal: Acceptance,
) -> Result<u64, TaskFault> {
    drop(acceptor.on_accept(first_slot(), proposal)?);
    let mut promises: Vec<Answer> = Vec::new(alloc);
    for further in 0..count {
        push_promise(acceptor, further, &mut promises)?;
    }
    Ok(promises.len() as u64)
}

fn push_promise(
    acceptor: &mut Acceptor,
    further: u64,
    promises: &mut Vec<Answer>,
) -> Result<(), TaskFault> {
    let ballot = rising_ballot(further)?;
    let promise = acceptor.on_prepare(first_slot(), ballot)?;
    Ok(push(promises, promise)?)
}

fn proposal_of(alloc: Global, bytes: &[u8]) -> Result<Acceptance, TaskFault> {
    match UploadBytes::new(Bytes::copy_from_slice(alloc, bytes)?) {
        Some(upload) => Ok(Acceptance {
            ballot: first_ballot(),
            value: Value::Upload(upload),
        }),
        None => Err(TaskFault::Upload),
    }
}

fn first_slot() -> Slot {
    Slot::new(0).unwrap()
}

// The ballot of a round behind the first. The highest number is no round, so that a sum may stop at it.
fn rising_ballot(further: u64) -> Result<Ballot, TaskFault> {
    let Ok(further) = u32::try_from(further) else {
        return Err(TaskFault::Rounds);
    };
    match Ballot::new(further.saturating_add(2), node(0)) {
        Some(ballot) => Ok(ballot),
        None => Err(TaskFault::Rounds),
    }
}
