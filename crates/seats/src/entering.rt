//! What is entered of an input: a step of the journal, the node's own entry of it, and the receipt.

ghost use Rattle.std.specs.Prelude.{◌≡◌, ℕ, ◌+◌, ◌≤◌, ◌<◌, ◌∷◌, ◌++◌, [], false, Some, IfOk, IsSome, length, vec_len};
ghost use Rattle.std.specs.Option.{IfSome};
ghost use Rattle.journal.specs.parts.node_events.specs.declared.event.Event.{Event as EventSpec};
ghost use Rattle.journal.specs.Journaled.{HasRoom, MayEnter, HasEntry, EntersOwn};
ghost use Rattle.journal.specs.Logged.{KeepsLog, own_entry};
ghost use Rattle.seats.specs.Inputs.{event_at, given_for, handed_by, IsCutAt};
ghost use Rattle.seats.specs.Entries.{AreCopies, done_step, done_entry, cut_step, cut_entry};
ghost use Rattle.seats.specs.Steps.{TellsEntry};

use crate::input::SeatInput;
use crate::own_entries::OwnEntries;
use ballots::{Message, NodeId};
use journal::{Beginning, Journal, OwnEntry, Receipt, Retention, Step};
use node_events::{Event, EventResult};
use std::alloc::{AllocError, Global};

/// Copies of an input's event, one for each place where it stands, and of the messages that go out.
#[derive(Drop)]
pub(crate) struct Copies {
    pub(crate) entered: Event,
    pub(crate) told: Event,
    pub(crate) own: Event,
    pub(crate) sends: Vec<Message>,
    pub(crate) own_sends: Vec<Message>,
}

impl Copies {
    /// The copies of this input at this node. [`AllocError`] says that memory was refused.
    pub(crate) fn of(
        alloc: Global,
        me: NodeId,
        input: &SeatInput,
        sends: &[Message],
    ) -> Result<Copies, AllocError>
        ensures { IfOk result (AreCopies me input.now sends.now) }
    {
        let entered = event_for(me, input)?;
        let told = event_for(me, input)?;
        let own = event_for(me, input)?;
        let copied = Vec::from_clones(alloc, sends)?;
        let own_sends = Vec::from_clones(alloc, sends)?;
        Ok(Copies {
            entered,
            told,
            own,
            sends: copied,
            own_sends,
        })
    }
}

// The event of an input at this node. An upload's bytes are shared.
fn event_for(me: NodeId, input: &SeatInput) -> Result<Event, AllocError>
    ensures { IfOk result (λ event. event ≡ event_at me input.now) }
{
    let node = u64::from(me.number());
    match input {
        SeatInput::Put(upload) => match upload.clone() {
            Ok(copy) => Ok(Event::Put(node, copy)),
            Err(_) => Err(AllocError),
        },
        SeatInput::Tick(left) => Ok(Event::Tick(node, *left)),
        SeatInput::Deliver(number, _) => Ok(Event::Deliver(node, *number)),
    }
}

// What an input gives that is done.
fn given_by(input: &SeatInput, first: u64, count: u64) -> EventResult
    ensures { result ≡ given_for input.now first count }
{
    match input {
        SeatInput::Put(_) => EventResult::Done,
        SeatInput::Tick(_) => EventResult::Sent { first, count },
        SeatInput::Deliver(_, _) => EventResult::Sent { first, count },
    }
}

// The message that is delivered, if one is.
fn message_of(input: SeatInput) -> Option<Message>
    ensures { result ≡ handed_by input }
{
    match input {
        SeatInput::Put(upload) => {
            drop(upload);
            None
        }
        SeatInput::Tick(_) => None,
        SeatInput::Deliver(_, message) => Some(message),
    }
}

// The event of a node that goes down in the midst of an input; of a put there is none.
fn cut_for(me: NodeId, input: &SeatInput) -> Option<Event>
    ensures cut { IfSome result (IsCutAt me input.now) }
    ensures some { (event : EventSpec) → IsCutAt me input.now event → IsSome result }
{
    let node = u64::from(me.number());
    match input {
        SeatInput::Put(_) => None,
        SeatInput::Tick(left) => Some(Event::TickCut(node, *left)),
        SeatInput::Deliver(number, _) => Some(Event::DeliverCut(node, *number)),
    }
}

/// Enters an input that was done, with the messages that go out, which are numbered from those of the journal on: one entry
/// of the journal, and one of the node's own. There is room for both.
pub(crate) fn enter_done<J: Beginning, M: Retention>(
    me: NodeId,
    own: &mut OwnEntries,
    journal: &mut Journal<J, M>,
    input: SeatInput,
    copies: Copies,
) -> Receipt
    requires own_room { 0 < own.old.room }
    requires room { HasRoom journal.old (vec_len copies.sends) }
    requires copies { AreCopies me input copies.sends.items copies }
    requires follows { MayEnter journal.old
        (done_step me input (length journal.old.trace.sent) (vec_len copies.sends)) copies.sends.items false }
    requires entry { own_entry journal.old
        (done_step me input (length journal.old.trace.sent) (vec_len copies.sends)) copies.sends.items false
        ≡ Some (done_entry me input (length journal.old.trace.sent) copies.sends.items) }
    ensures own { own.new.entries ≡ own.old.entries
        ++ done_entry me input (length journal.old.trace.sent) copies.sends.items ∷ [] }
    ensures keeps { own.new.keeps ≡ own.old.keeps }
    ensures entry { HasEntry journal.old
        (done_step me input (length journal.old.trace.sent) (vec_len copies.sends)) copies.sends.items false journal.new }
    ensures told { TellsEntry journal.old (event_at me input)
        (given_for input (length journal.old.trace.sent) (vec_len copies.sends)) result }
    ensures others { EntersOwn journal.old
        (done_step me input (length journal.old.trace.sent) (vec_len copies.sends)) copies.sends.items false journal.new }
    ensures log { KeepsLog journal.old journal.new }
{
    let Copies {
        entered,
        told,
        own: own_event,
        sends,
        own_sends,
    } = copies;
    let first = journal.sent_count();
    let number = journal.step_count();
    let count = sends.len() as u64;
    let receipt = Receipt {
        number,
        event: told,
        answer: given_by(&input, first, count),
    };
    let own_step = Step {
        event: own_event,
        result: given_by(&input, first, count),
    };
    let step = Step {
        event: entered,
        result: given_by(&input, first, count),
    };
    let entry = OwnEntry {
        step: own_step,
        recovered: false,
        handed: message_of(input),
        sends: own_sends,
    };
    journal.enter(step, sends, false, Some(&entry));
    own.push(me, entry);
    receipt
}

/// Enters that a node went down in the midst of an input that is no put: one entry of the journal, and one of the node's
/// own. There is room for both.
pub(crate) fn enter_cut<J: Beginning, M: Retention>(
    alloc: Global,
    me: NodeId,
    own: &mut OwnEntries,
    journal: &mut Journal<J, M>,
    input: SeatInput,
)
    requires own_room { 0 < own.old.room }
    requires room { HasRoom journal.old 0 }
    requires follows { (cut : EventSpec) × IsCutAt me input cut × MayEnter journal.old (cut_step cut) [] false }
    requires entry { (cut : EventSpec) → IsCutAt me input cut
        → own_entry journal.old (cut_step cut) [] false ≡ Some (cut_entry cut input) }
    ensures keeps { own.new.keeps ≡ own.old.keeps }
    ensures entered { (cut : EventSpec) × IsCutAt me input cut
        × (own.new.entries ≡ own.old.entries ++ cut_entry cut input ∷ [])
        × HasEntry journal.old (cut_step cut) [] false journal.new
        × EntersOwn journal.old (cut_step cut) [] false journal.new }
    ensures log { KeepsLog journal.old journal.new }
{
    let Some(cut) = cut_for(me, &input) else {
        unreachable!();
    };
    let Some(own_cut) = cut_for(me, &input) else {
        unreachable!();
    };
    let entry = OwnEntry {
        step: Step {
            event: own_cut,
            result: EventResult::Done,
        },
        recovered: false,
        handed: message_of(input),
        sends: Vec::new(alloc),
    };
    let step = Step {
        event: cut,
        result: EventResult::Done,
    };
    journal.enter(step, Vec::new(alloc), false, Some(&entry));
    own.push(me, entry);
}
