//! A schedule, read from the file that tells it.

ghost use Rattle.std.specs.Prelude.{◌≡◌, ◌≤◌, ℕ, List, Some, None, Ok, Err, IfOk, IfErr, IfSome, IsSome, MatchResult, IsUtf8, codes};
ghost use Rattle.serde_json.specs.View.{view};
ghost use Rattle.ballots.specs.Majority.{IsMembers};
ghost use Rattle.node_events.specs.declared.event.Event.{Event as Happening};
ghost use Rattle.traces.specs.declared.config.Config.{Config as Configured};
ghost use Rattle.traces.specs.Limits.{most_slots};
ghost use Rattle.run_files.specs.declared.fault.ScheduleFault.TheVariants.{OutOfMemory};
ghost use Rattle.run_files.specs.Flaws.{IsScheduleFlaw, IsScheduleFlawIn, ReadsSchedule};
ghost use Rattle.run_files.specs.JsonValues.{number_at};
ghost use Rattle.run_files.specs.ScheduleFile.{MeansSchedule, TellsConfig};

use crate::event_words::events_of;
use crate::fault::ScheduleFault;
use crate::flaw::ScheduleFlaw;
use crate::json_values::{array_at, value_of};
use crate::upload_values::uploads_of;
use ballots::{MAX_MEMBERS, Members};
use serde_json::Value;
use std::alloc::{AllocError, Global};
use traces::{Config, Event, MAX_JOURNAL_ENTRIES, MAX_SLOTS};

/// Events of nodes, and what the nodes have in common.
#[derive(Debug, Drop)]
pub struct Schedule {
    /// How many nodes and slots there are.
    pub config: Config,
    /// The events, in order.
    pub events: Vec<Event>,
}

fn members_of(value: &Value) -> Option<Members>
    ensures read { IfSome result (λ members. (number_at (codes "members") (view value.now) ≡ Some members) × IsMembers members) }
    ensures only { (members : ℕ) → number_at (codes "members") (view value.now) ≡ Some members → IsMembers members
        → IsSome result }
{
    let count = value.get("members").and_then(Value::as_u64)?;
    if count > u64::from(MAX_MEMBERS) {
        return None;
    }
    Members::new(count as u8)
}

fn slot_limit_of(value: &Value) -> Option<u32>
    ensures read { IfSome result (λ slots. (number_at (codes "slot_limit") (view value.now) ≡ Some slots)
        × (1 ≤ slots) × (slots ≤ most_slots)) }
    ensures only { (slots : ℕ) → number_at (codes "slot_limit") (view value.now) ≡ Some slots → 1 ≤ slots
        → slots ≤ most_slots → IsSome result }
{
    let count = value.get("slot_limit").and_then(Value::as_u64)?;
    if count == 0 || count > u64::from(MAX_SLOTS) {
        return None;
    }
    Some(count as u32)
}

/// What the nodes have in common, or what is wrong with it. A journal takes as many entries as it can have.
fn config_of(value: &Value) -> Result<Config, ScheduleFlaw>
    ensures read { IfOk result (TellsConfig (view value.now)) }
    ensures flaw { IfErr result (IsScheduleFlawIn (view value.now)) }
{
    let Some(members) = members_of(value) else {
        return Err(ScheduleFlaw::Members);
    };
    let Some(slot_limit) = slot_limit_of(value) else {
        return Err(ScheduleFlaw::SlotLimit);
    };
    Ok(Config {
        members,
        slot_limit,
        journal_limit: MAX_JOURNAL_ENTRIES,
    })
}

/// The schedule in a file, or what is wrong with it.
fn schedule_in(alloc: Global, file: &[u8]) -> Result<Result<Schedule, ScheduleFlaw>, AllocError>
    ensures read { IfOk result (ReadsSchedule file.now) }
    ensures memory { IfErr result (λ _. IsUtf8 file.now) }
{
    let value = match value_of(alloc, file)? {
        Ok(value) => value,
        Err(flaw) => return Ok(Err(ScheduleFlaw::Text(flaw))),
    };
    let config = match config_of(&value) {
        Ok(config) => config,
        Err(flaw) => return Ok(Err(flaw)),
    };
    let Some(uploads) = array_at(&value, "uploads") else {
        return Ok(Err(ScheduleFlaw::Uploads));
    };
    let Some(events) = array_at(&value, "events") else {
        return Ok(Err(ScheduleFlaw::Events));
    };
    let uploads = match uploads_of(alloc, uploads)? {
        Ok(uploads) => uploads,
        Err(place) => return Ok(Err(ScheduleFlaw::Upload(place))),
    };
    match events_of(alloc, &uploads, events)? {
        Ok(events) => Ok(Ok(Schedule { config, events })),
        Err(place) => Ok(Err(ScheduleFlaw::Event(place))),
    }
}

/// The schedule that a file tells.
///
/// The file is a JSON object (RFC 8259) with a whole number `members`, 1 to [`MAX_MEMBERS`], a whole number `slot_limit`,
/// 1 to [`MAX_SLOTS`], an array `uploads` and an array `events`. docs/FORMATS.md has what these arrays hold. Other members
/// of the object, and of an upload's, are passed over, and of two members of one name the last one counts. Such a file tells
/// one schedule, and that is read. Any other file is a [`ScheduleFault::BadSchedule`], and no such file is. The only other
/// fault is [`ScheduleFault::OutOfMemory`], and only of a file that is UTF-8.
pub fn read_schedule(alloc: Global, file: &[u8]) -> Result<Schedule, ScheduleFault>
    ensures read { IfOk result (λ schedule. MeansSchedule file.now schedule.config schedule.events.items) }
    ensures only { (config : Configured) (events : List Happening) → MeansSchedule file.now config events
        → MatchResult result (λ schedule. (schedule.config ≡ config) × (schedule.events.items ≡ events))
        (λ fault. fault ≡ OutOfMemory) }
    ensures memory { result ≡ Err OutOfMemory → IsUtf8 file.now }
{
    match schedule_in(alloc, file) {
        Ok(Ok(schedule)) => Ok(schedule),
        Ok(Err(_)) => Err(ScheduleFault::BadSchedule),
        Err(_) => Err(ScheduleFault::OutOfMemory),
    }
}

/// The first thing that is wrong with a file that tells no schedule, as [`read_schedule`] reads it; none where it tells
/// one. [`AllocError`] says that memory was refused, and comes only of a file that is UTF-8.
pub fn schedule_flaw(alloc: Global, file: &[u8]) -> Result<Option<ScheduleFlaw>, AllocError>
    ensures flaw { IfOk result (λ flaw. IfSome flaw (IsScheduleFlaw file.now)) }
    ensures none { result ≡ Ok None → (config : Configured) × (events : List Happening) × MeansSchedule file.now config events }
    ensures memory { IfErr result (λ _. IsUtf8 file.now) }
{
    match schedule_in(alloc, file)? {
        Ok(_) => Ok(None),
        Err(flaw) => Ok(Some(flaw)),
    }
}
