//! Messages as one line each, as in `node 1 slot 5 Promise 2.1 accepted 1.0 616263`.

ghost use Rattle.std.specs.Prelude.{◌≡◌, ◌++◌, ◌<◌, ◌-◌, List, IfOk, length, take, drop, string_bytes, codes};
ghost use Rattle.hex.specs.Hex.{encode_lower};
ghost use Rattle.breach_words.specs.Words.{ballot_text, upload_text, ends_text, value_text, acceptance_text, promise_text};
ghost use Rattle.breach_words.specs.Words.{body_text, message_text};

use ballots::{Acceptance, Ballot, Body, Message, Value};
use std::alloc::{AllocError, Global};

/// The most bytes of an upload that a line shows all of.
pub const MAX_WHOLE_BYTES: usize = 32;

/// How many bytes of a longer one it shows of the front.
const FRONT_BYTES: usize = 24;

/// And how many of the end.
const END_BYTES: usize = 8;

/// A message as one line, without a newline: its sender, its slot, and what it says, by the names of [`Body`].
///
/// It is the line that `Display` writes of a message, but for an upload of more than [`MAX_WHOLE_BYTES`] bytes: of that
/// the first 24 and the last 8 bytes are shown, with how many there are.
pub fn message_line(alloc: Global, message: &Message) -> Result<String, AllocError>
    ensures { IfOk result (λ line. string_bytes line ≡ message_text message.now) }
{
    let sender = message.sender.number();
    let slot = message.slot.number();
    let body = body_line(alloc, &message.body)?;
    format!(in alloc; "node {sender} slot {slot} {body}")
}

fn body_line(alloc: Global, body: &Body) -> Result<String, AllocError>
    ensures { IfOk result (λ line. string_bytes line ≡ body_text body.now) }
{
    match body {
        Body::Prepare { ballot } => prepare_line(alloc, *ballot),
        Body::Promise { ballot, report } => promise_line(alloc, *ballot, report),
        Body::Nack { ballot, promised } => nack_line(alloc, *ballot, *promised),
        Body::Accept(proposal) => accept_line(alloc, proposal),
        Body::Accepted(acceptance) => accepted_line(alloc, acceptance),
        Body::Ask => format!(in alloc; "Ask"),
        Body::Decided { value } => decided_line(alloc, value),
    }
}

fn prepare_line(alloc: Global, ballot: Ballot) -> Result<String, AllocError>
    ensures { IfOk result (λ line. string_bytes line ≡ codes "Prepare " ++ ballot_text ballot) }
{
    let ballot = ballot_line(alloc, ballot)?;
    format!(in alloc; "Prepare {ballot}")
}

fn promise_line(
    alloc: Global,
    ballot: Ballot,
    report: &Option<Acceptance>,
) -> Result<String, AllocError>
    ensures { IfOk result (λ line. string_bytes line ≡ promise_text ballot report.now) }
{
    let ballot = ballot_line(alloc, ballot)?;
    match report {
        Some(report) => {
            let report = acceptance_line(alloc, report)?;
            format!(in alloc; "Promise {ballot} accepted {report}")
        }
        None => format!(in alloc; "Promise {ballot}"),
    }
}

fn nack_line(alloc: Global, ballot: Ballot, promised: Ballot) -> Result<String, AllocError>
    ensures { IfOk result (λ line. string_bytes line
        ≡ codes "Nack " ++ (ballot_text ballot ++ (codes " promised " ++ ballot_text promised))) }
{
    let ballot = ballot_line(alloc, ballot)?;
    let promised = ballot_line(alloc, promised)?;
    format!(in alloc; "Nack {ballot} promised {promised}")
}

fn accept_line(alloc: Global, proposal: &Acceptance) -> Result<String, AllocError>
    ensures { IfOk result (λ line. string_bytes line ≡ codes "Accept " ++ acceptance_text proposal.now) }
{
    let proposal = acceptance_line(alloc, proposal)?;
    format!(in alloc; "Accept {proposal}")
}

fn accepted_line(alloc: Global, acceptance: &Acceptance) -> Result<String, AllocError>
    ensures { IfOk result (λ line. string_bytes line ≡ codes "Accepted " ++ acceptance_text acceptance.now) }
{
    let acceptance = acceptance_line(alloc, acceptance)?;
    format!(in alloc; "Accepted {acceptance}")
}

fn decided_line(alloc: Global, value: &Value) -> Result<String, AllocError>
    ensures { IfOk result (λ line. string_bytes line ≡ codes "Decided " ++ value_text value.now) }
{
    let value = value_line(alloc, value)?;
    format!(in alloc; "Decided {value}")
}

// The ballot, a space and the value.
fn acceptance_line(alloc: Global, acceptance: &Acceptance) -> Result<String, AllocError>
    ensures { IfOk result (λ line. string_bytes line ≡ acceptance_text acceptance.now) }
{
    let ballot = ballot_line(alloc, acceptance.ballot)?;
    let value = value_line(alloc, &acceptance.value)?;
    format!(in alloc; "{ballot} {value}")
}

// The round, a point and the node.
fn ballot_line(alloc: Global, ballot: Ballot) -> Result<String, AllocError>
    ensures { IfOk result (λ line. string_bytes line ≡ ballot_text ballot) }
{
    let round = ballot.round();
    let node = ballot.node().number();
    format!(in alloc; "{round}.{node}")
}

// `noop`, or the bytes of the upload.
fn value_line(alloc: Global, value: &Value) -> Result<String, AllocError>
    ensures { IfOk result (λ line. string_bytes line ≡ value_text value.now) }
{
    match value {
        Value::Noop => format!(in alloc; "noop"),
        Value::Upload(upload) => upload_line(alloc, upload.as_slice()),
    }
}

fn upload_line(alloc: Global, upload: &[u8]) -> Result<String, AllocError>
    ensures { IfOk result (λ line. string_bytes line ≡ upload_text upload.now) }
{
    if upload.len() <= MAX_WHOLE_BYTES {
        hex::encode(alloc, upload)
    } else {
        ends_line(alloc, upload)
    }
}

// The ends of a long upload, and how many bytes it has.
fn ends_line(alloc: Global, upload: &[u8]) -> Result<String, AllocError>
    requires { 32 < length upload.now }
    ensures { IfOk result (λ line. string_bytes line ≡ ends_text upload.now) }
{
    let length = upload.len();
    let front = front_line(alloc, upload)?;
    let end = end_line(alloc, upload)?;
    format!(in alloc; "{front}..{end} ({length} bytes)")
}

fn front_line(alloc: Global, upload: &[u8]) -> Result<String, AllocError>
    requires { 32 < length upload.now }
    ensures { IfOk result (λ line. string_bytes line ≡ encode_lower (take 24 upload.now)) }
{
    hex::encode(alloc, &upload[..FRONT_BYTES])
}

fn end_line(alloc: Global, upload: &[u8]) -> Result<String, AllocError>
    requires { 32 < length upload.now }
    ensures { IfOk result (λ line. string_bytes line ≡ encode_lower (drop (length upload.now - 8) upload.now)) }
{
    hex::encode(alloc, &upload[upload.len() - END_BYTES..])
}
