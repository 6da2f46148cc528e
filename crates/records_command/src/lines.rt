//! The line of each record: its number, and what was kept.

ghost use Rattle.std.specs.Prelude.{◌≡◌, IfOk, string_bytes};
ghost use Rattle.records_command.specs.Lines.{acceptance_text, ballot_text, line_of, record_text, upload_text, value_text};

use ballots::{Acceptance, Ballot, Record, Value};
use std::alloc::{AllocError, Global};

/// The most bytes of an upload that are shown.
const SHOWN_BYTES: usize = 32;

fn ballot_text(alloc: Global, ballot: Ballot) -> Result<String, AllocError>
    ensures { IfOk result (λ text. string_bytes text ≡ ballot_text ballot) }
{
    let round = ballot.round();
    let node = ballot.node().number();
    format!(in alloc; "{round}.{node}")
}

// The first bytes of an upload in hexadecimal digits, and how many it has.
fn upload_text(alloc: Global, bytes: &[u8]) -> Result<String, AllocError>
    ensures { IfOk result (λ text. string_bytes text ≡ upload_text bytes.now) }
{
    let count = bytes.len();
    let shown = hex::encode(alloc, &bytes[..count.min(SHOWN_BYTES)])?;
    format!(in alloc; "upload of {count} bytes {shown}")
}

fn value_text(alloc: Global, value: &Value) -> Result<String, AllocError>
    ensures { IfOk result (λ text. string_bytes text ≡ value_text value.now) }
{
    match value {
        Value::Noop => String::from_str(alloc, "noop"),
        Value::Upload(bytes) => upload_text(alloc, bytes.as_slice()),
    }
}

fn accepted_text(alloc: Global, acceptance: &Acceptance) -> Result<String, AllocError>
    ensures { IfOk result (λ text. string_bytes text ≡ acceptance_text acceptance.now) }
{
    let ballot = ballot_text(alloc, acceptance.ballot)?;
    let value = value_text(alloc, &acceptance.value)?;
    format!(in alloc; "{ballot} {value}")
}

fn record_text(alloc: Global, kept: &Record) -> Result<String, AllocError>
    ensures { IfOk result (λ text. string_bytes text ≡ record_text kept.now) }
{
    match kept {
        Record::Began(ballot) => {
            let ballot = ballot_text(alloc, *ballot)?;
            format!(in alloc; "began {ballot}")
        }
        Record::Promised(slot, ballot) => {
            let slot = slot.number();
            let ballot = ballot_text(alloc, *ballot)?;
            format!(in alloc; "promised slot {slot} {ballot}")
        }
        Record::Accepted(slot, acceptance) => {
            let slot = slot.number();
            let accepted = accepted_text(alloc, acceptance)?;
            format!(in alloc; "accepted slot {slot} {accepted}")
        }
        Record::PromisedFrom(first, ballot) => {
            let first = first.number();
            let ballot = ballot_text(alloc, *ballot)?;
            format!(in alloc; "promised from slot {first} {ballot}")
        }
    }
}

/// The line of the record of this number, with the line feed behind it. [`AllocError`] says that memory was refused.
pub(crate) fn line_of(alloc: Global, number: usize, kept: &Record) -> Result<String, AllocError>
    ensures { IfOk result (λ line. string_bytes line ≡ line_of number kept.now) }
{
    let text = record_text(alloc, kept)?;
    format!(in alloc; "{number} {text}\n")
}
