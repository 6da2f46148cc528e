//! Records read from their bytes.

ghost use Rattle.std.specs.Prelude.{◌≡◌, ◌⊎◌, IfOk, IfErr, Ok, Err};
ghost use Rattle.ballots.specs.declared.record.Record.{Record as Meant};
ghost use Rattle.ballots.specs.declared.fault.MessageFault.TheVariants.{OutOfMemory};
ghost use Rattle.ballots.specs.Gathering.{record_parts_in};
ghost use Rattle.ballots.specs.MessageReading.{Gives, OfFields, TellsFields};
ghost use Rattle.ballots.specs.Record.{record_parts_of, IsRecordText, IsRecordFault, KeepsUpload};
ghost use Rattle.ballots.specs.RecordReading.{began_at, promised_at, accepted_at, promised_from_at, kept_at, record_at};

use crate::fault::MessageFault;
use crate::fields::{Fields, gather};
use crate::reading::{acceptance_at, ballot_at, known_number, slot_at};
use crate::record::Record;
use crate::record::numbers::{
    ACCEPTED, BEGAN, KIND, NODE, PROMISED, PROMISED_FROM, ROUND, SLOT, VALUE,
};
use std::alloc::Global;

#[tactic(auto, using(crate::proofs::Steps::steps))]
fn began_of(fields: &Fields<'_>) -> Result<Record, MessageFault>
    ensures { Gives KeepsUpload result (began_at (record_parts_in fields.now)) }
{
    let ballot = ballot_at(fields.number(ROUND), fields.number(NODE))?;
    Ok(Record::Began(ballot))
}

#[tactic(auto, using(crate::proofs::Steps::steps))]
fn promised_of(fields: &Fields<'_>) -> Result<Record, MessageFault>
    ensures { Gives KeepsUpload result (promised_at (record_parts_in fields.now)) }
{
    let slot = slot_at(fields.number(SLOT))?;
    let ballot = ballot_at(fields.number(ROUND), fields.number(NODE))?;
    Ok(Record::Promised(slot, ballot))
}

#[tactic(auto, using(crate::proofs::Steps::steps))]
fn accepted_of(alloc: Global, fields: &Fields<'_>) -> Result<Record, MessageFault>
    ensures { Gives KeepsUpload result (accepted_at (record_parts_in fields.now)) }
{
    let slot = slot_at(fields.number(SLOT))?;
    let acceptance = acceptance_at(
        alloc,
        (fields.number(ROUND), fields.number(NODE)),
        fields.value,
    )?;
    Ok(Record::Accepted(slot, acceptance))
}

#[tactic(auto, using(crate::proofs::Steps::steps))]
fn promised_from_of(fields: &Fields<'_>) -> Result<Record, MessageFault>
    ensures { Gives KeepsUpload result (promised_from_at (record_parts_in fields.now)) }
{
    let first = slot_at(fields.number(SLOT))?;
    let ballot = ballot_at(fields.number(ROUND), fields.number(NODE))?;
    Ok(Record::PromisedFrom(first, ballot))
}

#[tactic(auto, unfolding(crate::specs::RecordReading::kept_at))]
fn kept_of(alloc: Global, kind: u64, fields: &Fields<'_>) -> Result<Record, MessageFault>
    ensures { Gives KeepsUpload result (kept_at kind (record_parts_in fields.now)) }
{
    match kind {
        BEGAN => began_of(fields),
        PROMISED => promised_of(fields),
        ACCEPTED => accepted_of(alloc, fields),
        PROMISED_FROM => promised_from_of(fields),
        _ => Err(MessageFault::BadKind),
    }
}

#[tactic(auto, using(crate::proofs::Steps::steps), unfolding(crate::specs::RecordReading::record_at))]
fn record_in(alloc: Global, fields: &Fields<'_>) -> Result<Record, MessageFault>
    ensures { Gives KeepsUpload result (record_at (record_parts_in fields.now)) }
{
    let kind = known_number(fields.number(KIND))?;
    kept_of(alloc, kind, fields)
}

#[tactic(auto, using(crate::proofs::Gathering::record_parts_are))]
fn record_of(alloc: Global, text: &[u8]) -> Result<Record, MessageFault>
    ensures meant { OfFields text.now (λ fields. Gives KeepsUpload result (record_at (record_parts_of fields))) }
    ensures fields { TellsFields text.now result }
{
    let fields = gather(text, VALUE)?;
    record_in(alloc, &fields)
}

impl Record {
    /// The record that a text means.
    ///
    /// A text that means no record is refused with a fault that stands in it: [`MessageFault::Wire`] where it is no
    /// list of protobuf fields or a field that its kind has is of another wire type, [`MessageFault::BadKind`],
    /// [`MessageFault::OutOfRange`]. Fields that the kind does not have are passed over. The only other refusal is
    /// [`MessageFault::OutOfMemory`], and only of a text that means a record with an upload: its bytes are copied last.
    pub fn decode(alloc: Global, text: &[u8]) -> Result<Record, MessageFault>
        ensures read { IfOk result (IsRecordText text.now) }
        ensures only { (r : Meant) → IsRecordText text.now r → (result ≡ Ok r) ⊎ (result ≡ Err OutOfMemory) }
        ensures fault { IfErr result (IsRecordFault text.now) }
        ensures memory { result ≡ Err OutOfMemory → (r : Meant) × IsRecordText text.now r × KeepsUpload r }
    {
        record_of(alloc, text)
    }
}
