//! Events from the arrays that tell them: a word, the number of a node, and what stands behind it.

ghost use Rattle.std.specs.Prelude.{◌≡◌, ◌≤◌, ◌∷◌, ℕ, List, [], Some, Ok, IfOk, IfErr, map, slice_get};
ghost use Rattle.serde_json.specs.Data.{string};
ghost use Rattle.serde_json.specs.View.{view};
ghost use Rattle.table_types.specs.Ticket.{TableVersion, IsTableVersion};
ghost use Rattle.node_events.specs.declared.event.Event.{Event as Happening};
ghost use Rattle.run_files.specs.declared.fault.ValueFault.TheVariants.{OutOfMemory};
ghost use Rattle.run_files.specs.Flaws.{ReadsItems};
ghost use Rattle.run_files.specs.JsonValues.{whole};
ghost use Rattle.run_files.specs.ScheduleFile.{Says, TellsEvent, most_left_read};

use crate::fault::ValueFault;
use crate::json_values::{text_of, whole_of, words_of};
use serde_json::Value;
use std::alloc::{AllocError, Global};
use table_types::Ticket;
use traces::{Event, TableText};
use uploads::Upload;

/// How many slots a tick leaves to others: a number of eight bits.
fn left_of(value: &Value) -> Result<u8, ValueFault>
    ensures read { IfOk result (λ left. (view value.now ≡ whole left) × (left ≤ most_left_read)) }
    ensures only { (left : ℕ) → view value.now ≡ whole left → left ≤ most_left_read → result ≡ Ok left }
{
    match value.as_u64() {
        Some(left) if left <= 255 => Ok(left as u8),
        _ => Err(ValueFault::Unfit),
    }
}

/// The upload of this place in the list.
fn upload_at(uploads: &[Upload], value: &Value) -> Result<Upload, ValueFault>
    ensures read { IfOk result (λ upload. (place : ℕ) × (view value.now ≡ whole place)
        × (slice_get uploads.now place ≡ Some upload)) }
    ensures refused { (place : ℕ) (upload : List ℕ) → view value.now ≡ whole place
        → slice_get uploads.now place ≡ Some upload → IfErr result (λ fault. fault ≡ OutOfMemory) }
{
    let place = whole_of(value)?;
    match uploads.get(place as usize) {
        Some(upload) => Ok(upload.clone()?),
        None => Err(ValueFault::Unfit),
    }
}

/// The ticket for this version of this table.
pub(crate) fn ticket_of(alloc: Global, table: &Value, version: &Value) -> Result<Ticket, ValueFault>
    ensures table { IfOk result (λ ticket. view table.now ≡ string ticket.table) }
    ensures version { IfOk result (λ ticket. view version.now ≡ whole ticket.version) }
    ensures valid { IfOk result IsTableVersion }
    ensures refused { (asked : TableVersion) → view table.now ≡ string asked.table
        → view version.now ≡ whole asked.version → IsTableVersion asked → IfErr result (λ fault. fault ≡ OutOfMemory) }
{
    let version = whole_of(version)?;
    let table = text_of(alloc, table)?;
    match Ticket::new(table, version) {
        Some(ticket) => Ok(ticket),
        None => Err(ValueFault::Unfit),
    }
}

fn event_of_node(word: &str, node: u64) -> Result<Event, ValueFault>
    ensures read { (uploads : List (List ℕ)) → IfOk result (Says uploads word.now node []) }
    ensures refused { (uploads : List (List ℕ)) (event : Happening) → Says uploads word.now node [] event
        → IfErr result (λ fault. fault ≡ OutOfMemory) }
{
    match word {
        "restart" => Ok(Event::Restart(node)),
        _ => Err(ValueFault::Unfit),
    }
}

/// The event of this word, of the node and one thing more.
fn event_of_one(
    alloc: Global,
    uploads: &[Upload],
    word: &str,
    node: u64,
    value: &Value,
) -> Result<Event, ValueFault>
    ensures read { IfOk result (Says uploads.now word.now node (view value.now ∷ [])) }
    ensures refused { (event : Happening) → Says uploads.now word.now node (view value.now ∷ []) event
        → IfErr result (λ fault. fault ≡ OutOfMemory) }
{
    match word {
        "put" => Ok(Event::Put(node, upload_at(uploads, value)?)),
        "tick" => Ok(Event::Tick(node, left_of(value)?)),
        "deliver" => Ok(Event::Deliver(node, whole_of(value)?)),
        "tickcut" => Ok(Event::TickCut(node, left_of(value)?)),
        "delivercut" => Ok(Event::DeliverCut(node, whole_of(value)?)),
        "info" => Ok(Event::Info(node, TableText::new(text_of(alloc, value)?))),
        "outcome" => Ok(Event::Outcome(node, upload_at(uploads, value)?)),
        _ => Err(ValueFault::Unfit),
    }
}

fn event_of_two(
    alloc: Global,
    word: &str,
    node: u64,
    table: &Value,
    version: &Value,
) -> Result<Event, ValueFault>
    ensures read { (uploads : List (List ℕ))
        → IfOk result (Says uploads word.now node (view table.now ∷ view version.now ∷ [])) }
    ensures refused { (uploads : List (List ℕ)) (event : Happening)
        → Says uploads word.now node (view table.now ∷ view version.now ∷ []) event
        → IfErr result (λ fault. fault ≡ OutOfMemory) }
{
    match word {
        "get" => Ok(Event::Get(node, ticket_of(alloc, table, version)?)),
        _ => Err(ValueFault::Unfit),
    }
}

/// The event of this word, of the node and with what stands behind it.
fn event_of_parts(
    alloc: Global,
    uploads: &[Upload],
    word: &str,
    node: u64,
    rest: &[Value],
) -> Result<Event, ValueFault>
    ensures read { IfOk result (Says uploads.now word.now node (map view rest.now)) }
    ensures refused { (event : Happening) → Says uploads.now word.now node (map view rest.now) event
        → IfErr result (λ fault. fault ≡ OutOfMemory) }
{
    match rest {
        [] => event_of_node(word, node),
        [value] => event_of_one(alloc, uploads, word, node, value),
        [table, version] => event_of_two(alloc, word, node, table, version),
        _ => Err(ValueFault::Unfit),
    }
}

/// The event that an array tells.
pub(crate) fn event_of(
    alloc: Global,
    uploads: &[Upload],
    value: &Value,
) -> Result<Event, ValueFault>
    ensures read { IfOk result (TellsEvent uploads.now (view value.now)) }
    ensures refused { (event : Happening) → TellsEvent uploads.now (view value.now) event
        → IfErr result (λ fault. fault ≡ OutOfMemory) }
{
    match words_of(value) {
        Some(said) => event_of_parts(alloc, uploads, said.word, said.node, said.rest),
        None => Err(ValueFault::Unfit),
    }
}

/// The events that these values tell, in order; or the place of the first that tells none.
pub(crate) fn events_of(
    alloc: Global,
    uploads: &[Upload],
    values: &[Value],
) -> Result<Result<Vec<Event>, usize>, AllocError>
    ensures { IfOk result (ReadsItems (TellsEvent uploads.now) (map view values.now)) }
{
    let mut events = Vec::new(alloc);
    for place in 0..values.len() {
        match event_of(alloc, uploads, &values[place]) {
            Ok(event) => events.push(event)?,
            Err(ValueFault::Unfit) => return Ok(Err(place)),
            Err(ValueFault::OutOfMemory) => return Err(AllocError),
        }
    }
    Ok(Ok(events))
}
