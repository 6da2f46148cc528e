//! A recorded run, read from the file that tells it.

ghost use Rattle.std.specs.Prelude.{◌≡◌, ◌≢◌, ◌⊎◌, ◌↔◌, ℕ, List, map, Some, None, Ok, Err, IfOk, IfErr, MatchResult, option_map, IsUtf8};
ghost use Rattle.std.specs.List.{AllZip};
ghost use Rattle.serde_json.specs.Read.{read as read_text};
ghost use Rattle.serde_json.specs.View.{view, items_view};
ghost use Rattle.ballots.specs.Majority.{IsMembers};
ghost use Rattle.ballots.specs.declared.message.Message.{Message as Meant};
ghost use Rattle.ballots.specs.declared.fault.MessageFault.TheVariants as MessageFault;
ghost use Rattle.lawful_histories.specs.Recorded.{members_of, sent_of};
ghost use Rattle.audit_command.specs.declared.trace_file.TraceFault.TheVariants.{BadTrace, OutOfMemory};
ghost use Rattle.audit_command.specs.declared.trace_file.TraceFlaw.TheVariants as TraceFlaw;
ghost use Rattle.audit_command.specs.declared.trace_file.MessageFlaw.TheVariants as MessageFlaw;
ghost use Rattle.audit_command.specs.Flaws.{TellsFlaw, IsValueFault, IsItemsFault, IsItemFault, IsDigitsFault};
ghost use Rattle.audit_command.specs.TraceFile.{MeansTrace, SpellsMessage, IsMessageHex, members_at, sent_at};

use ballots::{MAX_MEMBERS, Members, Message, MessageFault};
use hex::FromHexError;
use lawful_histories::SentMessages;
use serde_json::Value;
use std::alloc::Global;
use std::str::from_utf8;
use thiserror::Error;

/// Why a file is not read as a recorded run.
#[derive(Clone, Copy, Debug, PartialEq, Eq, Error)]
pub enum TraceFault {
    /// The file tells no recorded run, and this is what is wrong with it.
    #[error("BadTrace")]
    BadTrace(TraceFlaw),
    /// Memory was refused.
    #[error("OutOfMemory")]
    OutOfMemory,
}

/// The first thing that is wrong with a file that tells no recorded run: first the file as a whole, then its members, then
/// its messages in their order.
#[derive(Clone, Copy, Debug, PartialEq, Eq, Error)]
pub enum TraceFlaw {
    /// The file is not UTF-8.
    #[error("the file is not UTF-8")]
    NotUtf8,
    /// The file is not one JSON value.
    #[error("the file is not one JSON value")]
    NotJson,
    /// It is no object with a whole number `members`, 1 to [`MAX_MEMBERS`].
    #[error("`members` is missing or not a whole number from 1 to 7")]
    Members,
    /// It is no object with an array `sent`.
    #[error("`sent` is missing or not an array")]
    Sent,
    /// The message in this place of `sent`, from 0, is none.
    #[error("message {place} of `sent` {flaw}")]
    Message {
        /// Its place, from 0.
        place: usize,
        /// What is wrong with it.
        flaw: MessageFlaw,
    },
}

/// What is wrong with an item of `sent`.
#[derive(Clone, Copy, Debug, PartialEq, Eq, Error)]
pub enum MessageFlaw {
    /// It is not a string.
    #[error("is not a string")]
    NotText,
    /// The text is not pairs of hexadecimal digits.
    #[error("is not pairs of hexadecimal digits")]
    NotHexadecimal,
    /// The bytes that the digits spell mean no message.
    #[error("is not a valid message: {0}")]
    NoMessage(MessageFault),
}

/// The recorded run that a file tells.
///
/// The file is a JSON object (RFC 8259) with a whole number `members`, 1 to [`MAX_MEMBERS`], and an array `sent` of
/// texts: the bytes of each message in hexadecimal digits of either case (RFC 4648, section 8), in the order of
/// sending. Other members of the object are passed over, and of two members of one name the last one counts. Any other
/// file is a [`TraceFault::BadTrace`], with what is wrong. The only other fault is [`TraceFault::OutOfMemory`], and only of a file that is
/// UTF-8: what else is wrong with a text shows once it is read, which takes memory.
pub fn read_trace(alloc: Global, file: &[u8]) -> Result<SentMessages, TraceFault>
    ensures read { IfOk result (λ trace. MeansTrace file.now (members_of trace) (sent_of trace)) }
    ensures only { (members : ℕ) (sent : List Meant) → MeansTrace file.now members sent
        → MatchResult result (λ trace. (members_of trace ≡ members) × (sent_of trace ≡ sent)) (λ fault. fault ≡ OutOfMemory) }
    ensures memory { result ≡ Err OutOfMemory → IsUtf8 file.now }
    ensures flaw { IfErr result (λ fault. TellsFlaw fault file.now) }
{
    let value = value_of(alloc, file)?;
    let members = members_of(&value)?;
    let Some(items) = sent_of(&value) else {
        return Err(TraceFault::BadTrace(TraceFlaw::Sent));
    };
    let sent = messages_of(alloc, items)?;
    Ok(SentMessages::new(members, sent))
}

fn value_of(alloc: Global, file: &[u8]) -> Result<Value, TraceFault>
    ensures read { IfOk result (λ value. IsUtf8 file.now × (read_text file.now ≡ Some (view value))) }
    ensures err { IfErr result (λ fault. (fault ≡ OutOfMemory) ⊎ (IsUtf8 file.now → read_text file.now ≡ None)) }
    ensures memory { result ≡ Err OutOfMemory → IsUtf8 file.now }
    ensures flaw { IfErr result (λ fault. IsValueFault fault file.now) }
{
    let Ok(text) = from_utf8(file) else {
        return Err(TraceFault::BadTrace(TraceFlaw::NotUtf8));
    };
    match Value::from_str(alloc, text) {
        Ok(value) => Ok(value),
        Err(error) if error.is_memory() => Err(TraceFault::OutOfMemory),
        Err(_) => Err(TraceFault::BadTrace(TraceFlaw::NotJson)),
    }
}

fn members_of(value: &Value) -> Result<Members, TraceFault>
    ensures read { IfOk result (λ members. (members_at (view value.now) ≡ Some members) × IsMembers members) }
    ensures only { (members : ℕ) → members_at (view value.now) ≡ Some members → IsMembers members → result ≡ Ok members }
    ensures flaw { IfErr result (λ fault. fault ≡ BadTrace TraceFlaw.Members) }
{
    let Some(count) = value.get("members").and_then(Value::as_u64) else {
        return Err(TraceFault::BadTrace(TraceFlaw::Members));
    };
    if count > u64::from(MAX_MEMBERS) {
        return Err(TraceFault::BadTrace(TraceFlaw::Members));
    }
    match Members::new(count as u8) {
        Some(members) => Ok(members),
        None => Err(TraceFault::BadTrace(TraceFlaw::Members)),
    }
}

fn sent_of(value: &Value) -> Option<&Vec<Value>>
    ensures { option_map (λ items. items_view items.now.items) result ≡ sent_at (view value.now) }
{
    value.get("sent").and_then(Value::as_array)
}

fn messages_of(alloc: Global, items: &[Value]) -> Result<Vec<Message>, TraceFault>
    ensures read { IfOk result (λ sent. AllZip SpellsMessage (map view items.now) sent.items) }
    ensures only { (sent : List Meant) → AllZip SpellsMessage (map view items.now) sent
        → MatchResult result (λ read. read.items ≡ sent) (λ fault. fault ≡ OutOfMemory) }
    ensures flaw { IfErr result (λ fault. IsItemsFault fault (map view items.now)) }
{
    let mut sent = Vec::new(alloc);
    for place in 0..items.len() {
        let message = message_of(alloc, place, &items[place])?;
        if sent.push(message).is_err() {
            return Err(TraceFault::OutOfMemory);
        }
    }
    Ok(sent)
}

fn message_of(alloc: Global, place: usize, item: &Value) -> Result<Message, TraceFault>
    ensures read { IfOk result (SpellsMessage (view item.now)) }
    ensures only { (m : Meant) → SpellsMessage (view item.now) m → (result ≡ Ok m) ⊎ (result ≡ Err OutOfMemory) }
    ensures flaw { IfErr result (λ fault. IsItemFault fault place (view item.now)) }
{
    match item.as_str() {
        Some(digits) => message_of_digits(alloc, place, digits),
        None => Err(flaw_at(place, MessageFlaw::NotText)),
    }
}

fn message_of_digits(alloc: Global, place: usize, digits: &str) -> Result<Message, TraceFault>
    ensures read { IfOk result (IsMessageHex digits.now) }
    ensures only { (m : Meant) → IsMessageHex digits.now m → (result ≡ Ok m) ⊎ (result ≡ Err OutOfMemory) }
    ensures flaw { IfErr result (λ fault. IsDigitsFault fault place digits.now) }
{
    let bytes = match hex::decode(alloc, digits) {
        Ok(bytes) => bytes,
        Err(FromHexError::OutOfMemory) => return Err(TraceFault::OutOfMemory),
        Err(_) => return Err(flaw_at(place, MessageFlaw::NotHexadecimal)),
    };
    match Message::decode(alloc, &bytes) {
        Ok(message) => Ok(message),
        Err(fault) => Err(fault_of(place, fault)),
    }
}

fn fault_of(place: usize, fault: MessageFault) -> TraceFault
    ensures memory { (result ≡ OutOfMemory) ↔ (fault ≡ MessageFault.OutOfMemory) }
    ensures flaw { (result ≡ OutOfMemory) ⊎ ((fault ≢ MessageFault.OutOfMemory)
        × (result ≡ BadTrace (TraceFlaw.Message place (MessageFlaw.NoMessage fault)))) }
{
    match fault {
        MessageFault::OutOfMemory => TraceFault::OutOfMemory,
        _ => flaw_at(place, MessageFlaw::NoMessage(fault)),
    }
}

fn flaw_at(place: usize, flaw: MessageFlaw) -> TraceFault
    ensures { result ≡ BadTrace (TraceFlaw.Message place flaw) }
{
    TraceFault::BadTrace(TraceFlaw::Message { place, flaw })
}
