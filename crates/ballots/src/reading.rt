//! Numbers, ballots and values of what the fields of a message or a record mean, each within its limits.

ghost use Rattle.std.specs.Prelude.{◌≡◌, ◌≤◌, IfOk};
ghost use Rattle.std.specs.Option.{option_map};
ghost use Rattle.ballots.specs.Message.{IsUploadValue};
ghost use Rattle.ballots.specs.MessageReading.{Gives, TakesNone, known, within, ballot_at as ballot_meant, value_at as value_meant, acceptance_at as acceptance_meant};

use crate::acceptance::Acceptance;
use crate::ballot::{Ballot, MAX_ROUND};
use crate::fault::MessageFault;
use crate::node::{MAX_NODE, NodeId};
use crate::slot::{MAX_SLOT, Slot};
use crate::value::{MAX_UPLOAD_BYTES, UploadBytes, Value};
use bytes::Bytes;
use proto_fields::WireFault;
use std::alloc::Global;

/// What is meant, or the fault of a field of another wire type.
#[tactic(auto, unfolding(crate::specs::MessageReading::known))]
pub(crate) fn known_number(found: Option<u64>) -> Result<u64, MessageFault>
    ensures { Gives TakesNone result (known found) }
{
    match found {
        Some(number) => Ok(number),
        None => Err(MessageFault::Wire(WireFault::BadWireType)),
    }
}

#[tactic(auto, using(crate::proofs::Steps::steps), unfolding(crate::specs::MessageReading::within))]
fn number_within(found: Option<u64>, limit: u64) -> Result<u64, MessageFault>
    ensures read { Gives TakesNone result (within limit found) }
    ensures bound { IfOk result (λ n. n ≤ limit) }
{
    let number = known_number(found)?;
    if number > limit {
        return Err(MessageFault::OutOfRange);
    }
    Ok(number)
}

pub(crate) fn node_at(found: Option<u64>) -> Result<NodeId, MessageFault>
    ensures { Gives TakesNone result (within MAX_NODE found) }
{
    let number = number_within(found, u64::from(MAX_NODE))?;
    match NodeId::new(number as u8) {
        Some(node) => Ok(node),
        None => Err(MessageFault::OutOfRange),
    }
}

pub(crate) fn slot_at(found: Option<u64>) -> Result<Slot, MessageFault>
    ensures { Gives TakesNone result (within MAX_SLOT found) }
{
    let number = number_within(found, u64::from(MAX_SLOT))?;
    match Slot::new(number as u32) {
        Some(slot) => Ok(slot),
        None => Err(MessageFault::OutOfRange),
    }
}

/// The ballot of this round and node.
#[tactic(auto, using(crate::proofs::Steps::steps), unfolding(crate::specs::MessageReading::ballot_at))]
pub(crate) fn ballot_at(round: Option<u64>, node: Option<u64>) -> Result<Ballot, MessageFault>
    ensures { Gives TakesNone result (ballot_meant round node) }
{
    let round = number_within(round, u64::from(MAX_ROUND))?;
    let node = node_at(node)?;
    match Ballot::new(round as u32, node) {
        Some(ballot) => Ok(ballot),
        None => Err(MessageFault::OutOfRange),
    }
}

/// The value, copied once its length is known to be within its limit.
#[tactic(auto, using(crate::proofs::Steps::steps), unfolding(crate::specs::MessageReading::value_at, crate::specs::MessageReading::known))]
pub(crate) fn value_at(alloc: Global, found: Option<&[u8]>) -> Result<Value, MessageFault>
    ensures { Gives IsUploadValue result (value_meant (option_map (λ bytes. bytes.now) found.entry)) }
{
    let Some(found) = found else {
        return Err(MessageFault::Wire(WireFault::BadWireType));
    };
    if found.is_empty() {
        return Ok(Value::Noop);
    }
    if found.len() > MAX_UPLOAD_BYTES {
        return Err(MessageFault::OutOfRange);
    }
    let copy = Bytes::copy_from_slice(alloc, found)?;
    match UploadBytes::new(copy) {
        Some(upload) => Ok(Value::Upload(upload)),
        None => Err(MessageFault::OutOfRange),
    }
}

/// A ballot and the value that was accepted at it. The value is read last, since a copy of it may be refused memory.
#[tactic(auto, using(crate::proofs::Steps::steps), unfolding(crate::specs::MessageReading::acceptance_at))]
pub(crate) fn acceptance_at(
    alloc: Global,
    ballot: (Option<u64>, Option<u64>),
    value: Option<&[u8]>,
) -> Result<Acceptance, MessageFault>
    ensures { Gives (λ a. IsUploadValue a.value) result
        (acceptance_meant ballot.0 ballot.1 (option_map (λ bytes. bytes.now) value.entry)) }
{
    let ballot = ballot_at(ballot.0, ballot.1)?;
    let value = value_at(alloc, value)?;
    Ok(Acceptance { ballot, value })
}
