//! What a seat did itself, in few bytes.

ghost use Rattle.std.specs.Prelude.{◌≡◌, ◌↔◌, ℕ, IsTrue};
ghost use Rattle.std.specs.Option.{option_map};
ghost use Rattle.journal.specs.parts.histories.specs.EventResult.{Sent, Done};
ghost use Rattle.journal.specs.parts.node_events.specs.Told.{event_of, result_of};
ghost use Rattle.seats.specs.Compact.{IsDone};

use ballots::{Message, NodeId};
use journal::{OwnEntry, Step};
use node_events::{Event, EventResult};
use std::marker::Model;
use uploads::Upload;

/// What a node did, with what its entry has beside the number of the node.
#[derive(Drop)]
pub(crate) enum CompactStep {
    /// An upload was put.
    Put {
        upload: Upload,
        sends: Vec<Message>,
    },
    /// A tick was taken, and these messages went out, numbered from `first` on.
    Tick {
        left: u8,
        first: u64,
        sends: Vec<Message>,
    },
    /// The message of this number was taken, and these went out, numbered from `first` on.
    Deliver {
        number: u64,
        message: Message,
        first: u64,
        sends: Vec<Message>,
    },
    /// The node went down in the midst of a tick.
    TickCut {
        left: u8,
    },
    /// The node went down in the midst of the delivery of the message of this number.
    DeliverCut {
        number: u64,
        message: Message,
    },
    /// The node started again, and had back the record that was due where it went down, or had not.
    Restart {
        recovered: bool,
    },
}

/// An entry of a seat's own list. It takes 144 bytes, where an [`OwnEntry`] has 216. Contracts see the entry.
#[derive(Drop)]
pub(crate) struct CompactEntry {
    me: NodeId,
    step: CompactStep,
}

impl Model for CompactEntry {
    ghost use Rattle.journal.specs.parts.histories.specs.Owning.{OwnEntry};
    ghost use Rattle.seats.specs.Compact.{entry_in};

    ghost Value = { OwnEntry };

    ghost view = { λ e. entry_in e.me e.step };
}

// The number of the first message that went out, 0 where none could.
fn first_of(given: &EventResult) -> u64
    ensures { (first count : ℕ) → result_of given.now ≡ Sent first count → result ≡ first }
{
    match given {
        EventResult::Sent { first, .. } => *first,
        _ => 0,
    }
}

// Whether so many messages went out, numbered from this one on.
fn is_sent(given: &EventResult, first: u64, count: u64) -> bool
    ensures { IsTrue result ↔ (Sent first count ≡ result_of given.now) }
{
    match given {
        EventResult::Sent { first: x, count: y } => *x == first && *y == count,
        _ => false,
    }
}

// Whether it was done, and nothing is told of messages.
fn is_done(given: &EventResult) -> bool
    ensures { IsTrue result ↔ (Done ≡ result_of given.now) }
{
    match given {
        EventResult::Done => true,
        _ => false,
    }
}

impl CompactEntry {
    /// The entry of a node that did something, or started again. What it holds is moved, not copied.
    pub(crate) fn of(me: NodeId, entry: OwnEntry) -> CompactEntry
        requires { IsDone me entry }
        ensures { result ≡ entry }
    {
        let OwnEntry {
            step: Step { event, result },
            recovered,
            handed,
            sends,
        } = entry;
        let first = first_of(&result);
        drop(result);
        let step = match event {
            Event::Put(_, upload) => CompactStep::Put { upload, sends },
            Event::Tick(_, left) => CompactStep::Tick { left, first, sends },
            Event::Deliver(_, number) => CompactStep::Deliver {
                number,
                message: handed.unwrap(),
                first,
                sends,
            },
            Event::TickCut(_, left) => CompactStep::TickCut { left },
            Event::DeliverCut(_, number) => CompactStep::DeliverCut {
                number,
                message: handed.unwrap(),
            },
            Event::Restart(_) => CompactStep::Restart { recovered },
            _ => unreachable!(),
        };
        CompactEntry { me, step }
    }

    /// Whether it is of this event.
    pub(crate) fn is_of(&self, event: &Event) -> bool
        ensures { IsTrue result ↔ (self.now.step.event ≡ event_of event.now) }
    {
        let me = u64::from(self.me.number());
        match (&self.step, event) {
            (CompactStep::Put { upload: x, .. }, Event::Put(node, y)) => *node == me && x == y,
            (CompactStep::Tick { left: x, .. }, Event::Tick(node, y)) => *node == me && x == y,
            (CompactStep::Deliver { number: x, .. }, Event::Deliver(node, y)) => {
                *node == me && x == y
            }
            (CompactStep::TickCut { left: x }, Event::TickCut(node, y)) => *node == me && x == y,
            (CompactStep::DeliverCut { number: x, .. }, Event::DeliverCut(node, y)) => {
                *node == me && x == y
            }
            (CompactStep::Restart { .. }, Event::Restart(node)) => *node == me,
            _ => false,
        }
    }

    /// Whether its event gave this.
    pub(crate) fn gave(&self, given: &EventResult) -> bool
        ensures { IsTrue result ↔ (self.now.step.result ≡ result_of given.now) }
    {
        match &self.step {
            CompactStep::Tick { first, sends, .. } | CompactStep::Deliver { first, sends, .. } => {
                is_sent(given, *first, sends.len() as u64)
            }
            _ => is_done(given),
        }
    }

    /// Of a restart, whether the node had back the record that was due where it went down.
    pub(crate) fn recovered(&self) -> bool
        ensures { result ≡ self.now.recovered }
    {
        match &self.step {
            CompactStep::Restart { recovered } => *recovered,
            _ => false,
        }
    }

    /// The message that the node was handed.
    pub(crate) fn handed(&self) -> Option<&Message>
        ensures { option_map (λ message. message.now) result ≡ self.now.handed }
    {
        match &self.step {
            CompactStep::Deliver { message, .. } | CompactStep::DeliverCut { message, .. } => {
                Some(message)
            }
            _ => None,
        }
    }

    /// The messages that it sent.
    pub(crate) fn sends(&self) -> &[Message]
        ensures { result.now ≡ self.now.sends }
    {
        match &self.step {
            CompactStep::Put { sends, .. }
            | CompactStep::Tick { sends, .. }
            | CompactStep::Deliver { sends, .. } => sends.as_slice(),
            _ => &[],
        }
    }
}
