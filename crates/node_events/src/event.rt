//! Events of nodes.

ghost use Rattle.std.specs.Prelude.{◌≡◌, ◌↔◌, IsTrue};
ghost use Rattle.histories.specs.Event.{node_of};

use crate::table_text::TableText;
use table_types::Ticket;
use uploads::Upload;

/// An event of one node, whose number comes first. Every number may stand there: an event of a node that is no member is
/// refused ([`crate::Reason::OutOfRange`]), and so is any but a restart of a node that is down ([`crate::Reason::Down`]).
#[derive(Debug, Drop)]
pub enum Event {
    /// A client hands the node an upload.
    Put(u64, Upload),
    /// Time passes at the node. The second number tells how many free slots it leaves to others, at most 7
    /// ([`crate::Reason::OutOfRange`] above).
    Tick(u64, u8),
    /// The node is handed a message, by its number in the order of sending, from 0 on. A number that was not sent yet is
    /// refused ([`crate::Reason::NotSent`]).
    Deliver(u64, u64),
    /// The node goes down in the midst of a tick: behind its record, where one is due, and before all else. It goes down
    /// also where the tick would be refused.
    TickCut(u64, u8),
    /// The node goes down in the midst of a delivery, in the same way. Where the message was not sent yet it stays up
    /// ([`crate::Reason::NotSent`]).
    DeliverCut(u64, u64),
    /// The node restarts with the records that it kept, whether it was down or not. Where memory is refused, it is down.
    Restart(u64),
    /// A client asks the node for a version of a table.
    Get(u64, Ticket),
    /// A client asks the node for the number of a table's latest version.
    Info(u64, TableText),
    /// A client asks the node what has become of an upload.
    Outcome(u64, Upload),
}

impl Event {
    ghost use Rattle.node_events.specs.Told.{event_of};

    /// The number of the node of which it is.
    pub fn node(&self) -> u64
        ensures { result ≡ node_of (event_of self.now) }
    {
        match self {
            Event::Put(node, _)
            | Event::Tick(node, _)
            | Event::Deliver(node, _)
            | Event::TickCut(node, _)
            | Event::DeliverCut(node, _)
            | Event::Restart(node)
            | Event::Get(node, _)
            | Event::Info(node, _)
            | Event::Outcome(node, _) => *node,
        }
    }

    /// Whether the two are one event: of one node, of one kind, and with the same upload, number or text.
    pub fn same_as(&self, other: &Event) -> bool
        ensures { IsTrue result ↔ (self.now ≡ other.now) }
    {
        match (self, other) {
            (Event::Put(a, x), Event::Put(b, y)) => a == b && x == y,
            (Event::Tick(a, x), Event::Tick(b, y)) => a == b && x == y,
            (Event::Deliver(a, x), Event::Deliver(b, y)) => a == b && x == y,
            (Event::TickCut(a, x), Event::TickCut(b, y)) => a == b && x == y,
            (Event::DeliverCut(a, x), Event::DeliverCut(b, y)) => a == b && x == y,
            (Event::Restart(a), Event::Restart(b)) => a == b,
            (Event::Get(a, x), Event::Get(b, y)) => a == b && same_ticket(x, y),
            (Event::Info(a, x), Event::Info(b, y)) => a == b && x.as_str() == y.as_str(),
            (Event::Outcome(a, x), Event::Outcome(b, y)) => a == b && x == y,
            _ => false,
        }
    }
}

// Whether the two ask for one version of one table.
fn same_ticket(a: &Ticket, b: &Ticket) -> bool
    ensures { IsTrue result ↔ (a.now ≡ b.now) }
{
    a.version() == b.version() && a.table() == b.table()
}
