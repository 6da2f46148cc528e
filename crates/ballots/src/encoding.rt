//! Messages written as bytes, each in its one canonical encoding.

ghost use Rattle.std.specs.Prelude.{◌≡◌, ◌≤◌, ◌++◌, length, OnOk, OnErr};
ghost use Rattle.proto_fields.specs.Writing.{Grows};
ghost use Rattle.ballots.specs.declared.node.TheConstants.{MAX_NODE};
ghost use Rattle.ballots.specs.declared.slot.TheConstants.{MAX_SLOT};
ghost use Rattle.ballots.specs.Ballot.{IsBallot};
ghost use Rattle.ballots.specs.Limits.{max_message_bytes};
ghost use Rattle.ballots.specs.Message.{kind_of, head_fields, ballot_fields, second_fields, value_fields};
ghost use Rattle.ballots.specs.Message.{report_fields, body_fields, written, canonical, IsValue, IsAcceptanceInRange};
ghost use Rattle.ballots.specs.Message.{IsReportInRange, IsBodyInRange, IsInRange, IsMessageText};

use crate::acceptance::Acceptance;
use crate::ballot::Ballot;
use crate::message::numbers::{
    ACCEPT, ACCEPTED, ASK, DECIDED, KIND, NACK, NODE, PREPARE, PROMISE, ROUND, SECOND_NODE,
    SECOND_ROUND, SENDER, SLOT, VALUE,
};
use crate::message::{Body, Message};
use crate::node::NodeId;
use crate::slot::Slot;
use crate::value::{OutOfMemory, Value};
use crate::writing::{append_pair, or_undone, pair};
use proto_fields::{write_nonempty_bytes, write_nonzero_varint};

#[tactic(auto, using(crate::proofs::Written::written_rules))]
fn append_head(out: &mut Vec<u8>, kind: u64, sender: NodeId, slot: Slot) -> Result<(), OutOfMemory>
    ensures ok { OnOk result (out.new.items ≡ out.old.items ++ written (head_fields kind sender slot)) }
    ensures err { Grows out.old.items out.new.items }
    ensures within { (sender ≤ MAX_NODE) × (slot ≤ MAX_SLOT) }
{
    write_nonzero_varint(out, KIND, kind)?;
    write_nonzero_varint(out, SENDER, u64::from(sender.number()))?;
    write_nonzero_varint(out, SLOT, u64::from(slot.number()))?;
    Ok(())
}

/// Appends the message's own ballot.
fn append_ballot(out: &mut Vec<u8>, ballot: Ballot) -> Result<(), OutOfMemory>
    ensures ok { OnOk result (out.new.items ≡ out.old.items ++ written (ballot_fields ballot)) }
    ensures err { Grows out.old.items out.new.items }
    ensures within { IsBallot ballot }
{
    append_pair(out, (ROUND, NODE), pair(ballot))
}

/// Appends the ballot that is reported, or that refused.
fn append_second(out: &mut Vec<u8>, ballot: Ballot) -> Result<(), OutOfMemory>
    ensures ok { OnOk result (out.new.items ≡ out.old.items ++ written (second_fields ballot)) }
    ensures err { Grows out.old.items out.new.items }
    ensures within { IsBallot ballot }
{
    append_pair(out, (SECOND_ROUND, SECOND_NODE), pair(ballot))
}

fn append_value(out: &mut Vec<u8>, value: &Value) -> Result<(), OutOfMemory>
    ensures ok { OnOk result (out.new.items ≡ out.old.items ++ written (value_fields value.now)) }
    ensures err { Grows out.old.items out.new.items }
    ensures within { IsValue value.now }
{
    write_nonempty_bytes(out, VALUE, value.as_bytes())
}

#[tactic(auto, using(crate::proofs::Written::written_rules))]
fn append_acceptance(out: &mut Vec<u8>, acceptance: &Acceptance) -> Result<(), OutOfMemory>
    ensures ok { OnOk result (out.new.items
        ≡ out.old.items ++ written (ballot_fields acceptance.now.ballot ++ value_fields acceptance.now.value)) }
    ensures err { Grows out.old.items out.new.items }
    ensures within { OnOk result (IsAcceptanceInRange acceptance.now) }
{
    append_ballot(out, acceptance.ballot)?;
    append_value(out, &acceptance.value)
}

/// Appends what a Promise reports.
#[tactic(auto, using(crate::proofs::Written::written_rules))]
fn append_report(out: &mut Vec<u8>, report: &Option<Acceptance>) -> Result<(), OutOfMemory>
    ensures ok { OnOk result (out.new.items ≡ out.old.items ++ written (report_fields report.now)) }
    ensures err { Grows out.old.items out.new.items }
    ensures within { OnOk result (IsReportInRange report.now) }
{
    let Some(report) = report else {
        return Ok(());
    };
    append_second(out, report.ballot)?;
    append_value(out, &report.value)
}

#[tactic(auto, using(crate::proofs::Written::written_rules))]
fn append_promise(
    out: &mut Vec<u8>,
    ballot: Ballot,
    report: &Option<Acceptance>,
) -> Result<(), OutOfMemory>
    ensures ok { OnOk result (out.new.items
        ≡ out.old.items ++ written (ballot_fields ballot ++ report_fields report.now)) }
    ensures err { Grows out.old.items out.new.items }
    ensures within { OnOk result (IsBallot ballot × IsReportInRange report.now) }
{
    append_ballot(out, ballot)?;
    append_report(out, report)
}

#[tactic(auto, using(crate::proofs::Written::written_rules))]
fn append_nack(out: &mut Vec<u8>, ballot: Ballot, promised: Ballot) -> Result<(), OutOfMemory>
    ensures ok { OnOk result (out.new.items
        ≡ out.old.items ++ written (ballot_fields ballot ++ second_fields promised)) }
    ensures err { Grows out.old.items out.new.items }
    ensures within { IsBallot ballot × IsBallot promised }
{
    append_ballot(out, ballot)?;
    append_second(out, promised)
}

impl Body {
    /// The number of its kind.
    fn kind(&self) -> u64
        ensures { result ≡ kind_of self.now }
    {
        match self {
            Body::Prepare { .. } => PREPARE,
            Body::Promise { .. } => PROMISE,
            Body::Nack { .. } => NACK,
            Body::Accept(_) => ACCEPT,
            Body::Accepted(_) => ACCEPTED,
            Body::Ask => ASK,
            Body::Decided { .. } => DECIDED,
        }
    }

    /// Appends what the message says beside its head.
    fn append(&self, out: &mut Vec<u8>) -> Result<(), OutOfMemory>
        ensures ok { OnOk result (out.new.items ≡ out.old.items ++ written (body_fields self.now)) }
        ensures err { Grows out.old.items out.new.items }
        ensures within { OnOk result (IsBodyInRange self.now) }
    {
        match self {
            Body::Prepare { ballot } => append_ballot(out, *ballot),
            Body::Promise { ballot, report } => append_promise(out, *ballot, report),
            Body::Nack { ballot, promised } => append_nack(out, *ballot, *promised),
            Body::Accept(proposal) => append_acceptance(out, proposal),
            Body::Accepted(acceptance) => append_acceptance(out, acceptance),
            Body::Ask => Ok(()),
            Body::Decided { value } => append_value(out, value),
        }
    }
}

impl Message {
    #[tactic(auto, using(crate::proofs::Written::written_rules), unfolding(crate::specs::Message::canonical))]
    fn append(&self, out: &mut Vec<u8>) -> Result<(), OutOfMemory>
        ensures ok { OnOk result (out.new.items ≡ out.old.items ++ canonical self.now) }
        ensures err { Grows out.old.items out.new.items }
        ensures within { OnOk result (IsInRange self.now) }
    {
        append_head(out, self.body.kind(), self.sender, self.slot)?;
        self.body.append(out)
    }

    /// Appends the message's bytes: rising field numbers, shortest varints, defaults left out, [`MAX_MESSAGE_BYTES`] at
    /// most. A refused one leaves the vector as it was.
    pub fn encode(&self, out: &mut Vec<u8>) -> Result<(), OutOfMemory>
        ensures ok { OnOk result (out.new.items ≡ out.old.items ++ canonical self.now) }
        ensures err { OnErr result (out.new.items ≡ out.old.items) }
        // What is written means the message, and so is read as it.
        ensures means { OnOk result (IsMessageText (canonical self.now) self.now) }
        ensures short { OnOk result (length (canonical self.now) ≤ max_message_bytes) }
    {
        let start = out.len();
        let appended = self.append(out);
        or_undone(out, start, appended)
    }
}
