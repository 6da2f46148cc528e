//! Whether a node's own list is what a journal has of it.

ghost use Rattle.std.specs.Prelude.{◌≡◌, ◌↔◌, IsTrue, take, drop};
ghost use Rattle.std.specs.Option.{option_map};
ghost use Rattle.journal.specs.parts.histories.specs.Owning.{concerns, number_in, is_turned_away, handed_in, sends_in, entry_of, own as own_entries};
ghost use Rattle.journal.specs.parts.node_events.specs.Told.{event_of, result_of};
ghost use Rattle.journal.specs.parts.traces.specs.Told.{step_of, steps_of};
ghost use Rattle.seats.specs.Walking.{LeavesOwn};

use crate::compact_entry::CompactEntry;
use crate::messages::{same_handed, same_messages};
use ballots::{Message, NodeId};
use journal::Step;
use node_events::{Event, EventResult, Reason};

// Whether the event is one of this node that may change it.
fn is_of(me: NodeId, event: &Event) -> bool
    ensures { result ≡ concerns me (event_of event.now) }
{
    match event {
        Event::Get(..) | Event::Info(..) | Event::Outcome(..) => false,
        _ => event.node() == u64::from(me.number()),
    }
}

// The number of the message that the event hands over.
fn number_of(event: &Event) -> Option<u64>
    ensures { result ≡ number_in (event_of event.now) }
{
    match event {
        Event::Deliver(_, number) | Event::DeliverCut(_, number) => Some(*number),
        _ => None,
    }
}

// Whether the node was down, or the message was not sent yet.
fn turned_away(given: &EventResult) -> bool
    ensures { result ≡ is_turned_away (result_of given.now) }
{
    match given {
        EventResult::Refused(reason) => match reason {
            Reason::Down | Reason::NotSent => true,
            _ => false,
        },
        _ => false,
    }
}

// The message that the node was handed in the step, if it looked at one.
fn handed<'a>(sent: &'a [Message], step: &Step) -> Option<&'a Message>
    ensures { option_map (λ message. message.now) result ≡ handed_in sent.now (step_of step.now) }
{
    if turned_away(&step.result) {
        return None;
    }
    match number_of(&step.event) {
        Some(number) => sent.get(number as usize),
        None => None,
    }
}

// The messages that went out.
fn sends<'a>(sent: &'a [Message], given: &EventResult) -> &'a [Message]
    ensures { result.now ≡ sends_in sent.now (result_of given.now) }
{
    match given {
        EventResult::Sent { first, count } => part_of(sent, *first, *count),
        _ => &[],
    }
}

// So many messages from this number on, as far as there are some.
fn part_of(sent: &[Message], first: u64, count: u64) -> &[Message]
    ensures { result.now ≡ take count (drop first sent.now) }
{
    let rest = sent.split_at(sent.len().min(first as usize)).1;
    rest.split_at(rest.len().min(count as usize)).0
}

// Whether the node has this step as its entry.
fn is_entry(entry: &CompactEntry, sent: &[Message], step: &Step, recovered: bool) -> bool
    ensures { IsTrue result ↔ (entry.now ≡ entry_of sent.now (step_of step.now) recovered) }
{
    entry.is_of(&step.event)
        && entry.gave(&step.result)
        && entry.recovered() == recovered
        && same_handed(entry.handed(), handed(sent, step))
        && same_messages(entry.sends(), sends(sent, &step.result))
}

// What is left of the node's own entries behind that of a step of the journal, `None` where they differ.
fn left_behind<'a>(
    own: &'a [CompactEntry],
    me: NodeId,
    sent: &[Message],
    step: &Step,
    recovered: bool,
) -> Option<&'a [CompactEntry]>
    ensures { LeavesOwn me sent.now (step_of step.now) recovered own.now (option_map (λ left. left.now) result) }
{
    if !is_of(me, &step.event) {
        return Some(own);
    }
    match own {
        [entry, left @ ..] if is_entry(entry, sent, step, recovered) => Some(left),
        _ => None,
    }
}

/// Whether these are all entries of the node in these steps, each as it stands there. It takes time with the number of the
/// steps.
pub(crate) fn are_own(
    own: &[CompactEntry],
    me: NodeId,
    sent: &[Message],
    steps: &[Step],
    recovered: &[bool],
) -> bool
    ensures { IsTrue result ↔ (own_entries me sent.now (steps_of steps.now) recovered.now ≡ own.now) }
{
    let mut left = own;
    let mut flags = recovered;
    for step in steps {
        let [flag, rest @ ..] = flags else {
            return left.is_empty();
        };
        flags = rest;
        match left_behind(left, me, sent, step, *flag) {
            Some(behind) => left = behind,
            None => return false,
        }
    }
    left.is_empty()
}
