//! Messages read from their bytes.

ghost use Rattle.std.specs.Prelude.{◌≡◌, ◌⊎◌, IfOk, IfErr, Ok, Err};
ghost use Rattle.ballots.specs.declared.message.Message.{Message as Meant};
ghost use Rattle.ballots.specs.declared.fault.MessageFault.TheVariants.{OutOfMemory};
ghost use Rattle.ballots.specs.Message.{parts_of, IsMessageText, IsFaultOf, ReportsUpload, CarriesUpload, HasUpload};
ghost use Rattle.ballots.specs.Gathering.{parts_in};
ghost use Rattle.ballots.specs.MessageReading.{Gives, OfFields, TellsFields, prepare_at, promise_at, report_at, nack_at, accept_at, accepted_at, decided_at, body_at, message_at};

use crate::acceptance::Acceptance;
use crate::fault::MessageFault;
use crate::fields::{Fields, gather};
use crate::message::numbers::{
    ACCEPT, ACCEPTED, ASK, DECIDED, KIND, NACK, NODE, PREPARE, PROMISE, ROUND, SECOND_NODE,
    SECOND_ROUND, SENDER, SLOT, VALUE,
};
use crate::message::{Body, Message};
use crate::reading::{acceptance_at, ballot_at, known_number, node_at, slot_at, value_at};
use std::alloc::Global;

#[tactic(auto, using(crate::proofs::Steps::steps))]
fn prepare_of(fields: &Fields<'_>) -> Result<Body, MessageFault>
    ensures { Gives CarriesUpload result (prepare_at (parts_in fields.now)) }
{
    let ballot = ballot_at(fields.number(ROUND), fields.number(NODE))?;
    Ok(Body::Prepare { ballot })
}

/// What a Promise reports: nothing where its second round is 0, whatever else stands there.
#[tactic(auto, using(crate::proofs::Steps::steps), unfolding(crate::specs::MessageReading::report_at, crate::specs::MessageReading::known))]
fn report_of(alloc: Global, fields: &Fields<'_>) -> Result<Option<Acceptance>, MessageFault>
    ensures { Gives ReportsUpload result (report_at (parts_in fields.now)) }
{
    let second_round = known_number(fields.number(SECOND_ROUND))?;
    if second_round == 0 {
        return Ok(None);
    }
    let report = acceptance_at(
        alloc,
        (fields.number(SECOND_ROUND), fields.number(SECOND_NODE)),
        fields.value,
    )?;
    Ok(Some(report))
}

#[tactic(auto, using(crate::proofs::Steps::steps))]
fn promise_of(alloc: Global, fields: &Fields<'_>) -> Result<Body, MessageFault>
    ensures { Gives CarriesUpload result (promise_at (parts_in fields.now)) }
{
    let ballot = ballot_at(fields.number(ROUND), fields.number(NODE))?;
    let report = report_of(alloc, fields)?;
    Ok(Body::Promise { ballot, report })
}

#[tactic(auto, using(crate::proofs::Steps::steps))]
fn nack_of(fields: &Fields<'_>) -> Result<Body, MessageFault>
    ensures { Gives CarriesUpload result (nack_at (parts_in fields.now)) }
{
    let ballot = ballot_at(fields.number(ROUND), fields.number(NODE))?;
    let promised = ballot_at(fields.number(SECOND_ROUND), fields.number(SECOND_NODE))?;
    Ok(Body::Nack { ballot, promised })
}

#[tactic(auto, using(crate::proofs::Steps::steps))]
fn accept_of(alloc: Global, fields: &Fields<'_>) -> Result<Body, MessageFault>
    ensures { Gives CarriesUpload result (accept_at (parts_in fields.now)) }
{
    let proposal = acceptance_at(
        alloc,
        (fields.number(ROUND), fields.number(NODE)),
        fields.value,
    )?;
    Ok(Body::Accept(proposal))
}

#[tactic(auto, using(crate::proofs::Steps::steps))]
fn accepted_of(alloc: Global, fields: &Fields<'_>) -> Result<Body, MessageFault>
    ensures { Gives CarriesUpload result (accepted_at (parts_in fields.now)) }
{
    let acceptance = acceptance_at(
        alloc,
        (fields.number(ROUND), fields.number(NODE)),
        fields.value,
    )?;
    Ok(Body::Accepted(acceptance))
}

#[tactic(auto, using(crate::proofs::Steps::steps))]
fn decided_of(alloc: Global, fields: &Fields<'_>) -> Result<Body, MessageFault>
    ensures { Gives CarriesUpload result (decided_at (parts_in fields.now)) }
{
    let value = value_at(alloc, fields.value)?;
    Ok(Body::Decided { value })
}

#[tactic(auto, unfolding(crate::specs::MessageReading::body_at))]
fn body_of(alloc: Global, kind: u64, fields: &Fields<'_>) -> Result<Body, MessageFault>
    ensures { Gives CarriesUpload result (body_at kind (parts_in fields.now)) }
{
    match kind {
        PREPARE => prepare_of(fields),
        PROMISE => promise_of(alloc, fields),
        NACK => nack_of(fields),
        ACCEPT => accept_of(alloc, fields),
        ACCEPTED => accepted_of(alloc, fields),
        ASK => Ok(Body::Ask),
        DECIDED => decided_of(alloc, fields),
        _ => Err(MessageFault::BadKind),
    }
}

#[tactic(auto, using(crate::proofs::Steps::steps), unfolding(crate::specs::MessageReading::message_at))]
fn message_in(alloc: Global, fields: &Fields<'_>) -> Result<Message, MessageFault>
    ensures { Gives HasUpload result (message_at (parts_in fields.now)) }
{
    let kind = known_number(fields.number(KIND))?;
    let sender = node_at(fields.number(SENDER))?;
    let slot = slot_at(fields.number(SLOT))?;
    let body = body_of(alloc, kind, fields)?;
    Ok(Message { sender, slot, body })
}

#[tactic(auto, using(crate::proofs::Gathering::parts_are))]
fn message_of(alloc: Global, text: &[u8]) -> Result<Message, MessageFault>
    ensures meant { OfFields text.now (λ fields. Gives HasUpload result (message_at (parts_of fields))) }
    ensures fields { TellsFields text.now result }
{
    let fields = gather(text, VALUE)?;
    message_in(alloc, &fields)
}

impl Message {
    /// The message that a text means.
    ///
    /// A text that means no message is refused with a fault that stands in it: [`MessageFault::Wire`] where it is no
    /// list of protobuf fields or a field that its kind has is of another wire type, [`MessageFault::BadKind`],
    /// [`MessageFault::OutOfRange`]. Fields that the kind does not have are passed over. The only other refusal is
    /// [`MessageFault::OutOfMemory`], and only of a text that means a message with an upload: its bytes are copied
    /// last.
    pub fn decode(alloc: Global, text: &[u8]) -> Result<Message, MessageFault>
        ensures read { IfOk result (IsMessageText text.now) }
        ensures only { (m : Meant) → IsMessageText text.now m → (result ≡ Ok m) ⊎ (result ≡ Err OutOfMemory) }
        ensures fault { IfErr result (IsFaultOf text.now) }
        ensures memory { result ≡ Err OutOfMemory → (m : Meant) × IsMessageText text.now m × HasUpload m }
    {
        message_of(alloc, text)
    }
}
