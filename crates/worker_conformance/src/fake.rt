//! A workplace in memory.

use ballots::{Body, Message, NodeId, Slot};
use node_worker::{End, PutId, Sent, WorkInput, Workplace, WorkplaceFault};

/// How many nodes there are.
pub(crate) const NODES: usize = 3;

/// The message of no number.
pub(crate) const UNREADABLE: u64 = 404;

/// What was done at the workplace.
#[derive(Clone, Copy, Debug, PartialEq, Eq)]
pub(crate) enum Seen {
    /// The message of this number was handed to the node.
    Delivered(u64),
    /// A tick was.
    Ticked(u8),
    /// The worker of a node was told of a message.
    Told(usize, u64),
    /// It was asked what has become of the put of this number, and that was entered.
    Entered(u64),
    /// The put of this number was answered what was entered.
    Settled(u64, u64),
    /// It ended so.
    Ended(u64, End),
}

/// A node that sends two messages with each input, and at which puts wait.
#[derive(Drop)]
pub(crate) struct Fake {
    /// What was done, in its order.
    pub(crate) seen: Vec<Seen>,
    /// The puts that wait, by their places.
    pub(crate) puts: [Option<u64>; 4],
    /// What the node meets, and nothing is done.
    pub(crate) fault: Option<WorkplaceFault>,
}

impl Fake {
    // Memory that is refused here shows as something that was not seen.
    fn see(&mut self, seen: Seen) {
        let _ = self.seen.push(seen);
    }

    // The put leaves its place.
    fn leave(&mut self, put: PutId) {
        if let Some(place) = self.puts.get_mut(put.place) {
            *place = None;
        }
    }
}

impl Workplace for Fake {
    type Settled = u64;

    ghost nodes = { 3 };

    ghost does = { λ _ _ _. Unit {0} };

    fn count(&self) -> usize {
        NODES
    }

    fn read(&mut self, number: u64) -> Option<Message> {
        if number == UNREADABLE {
            return None;
        }
        Some(Message {
            sender: NodeId::new(2)?,
            slot: Slot::new(0)?,
            body: Body::Ask,
        })
    }

    fn hand(&mut self, input: WorkInput) -> Result<Sent, WorkplaceFault> {
        match input {
            WorkInput::Deliver(number, message) => {
                drop(message);
                self.see(Seen::Delivered(number));
            }
            WorkInput::Tick(left) => self.see(Seen::Ticked(left)),
        }
        match self.fault {
            Some(fault) => Err(fault),
            None => Ok(Sent { first: 7, next: 9 }),
        }
    }

    fn tell(&mut self, node: usize, number: u64) {
        self.see(Seen::Told(node, number));
    }

    fn places(&mut self) -> usize {
        self.puts.len()
    }

    fn find(&mut self, place: usize) -> Option<PutId> {
        let number = (*self.puts.get(place)?)?;
        Some(PutId { place, number })
    }

    // Of the put 1 nothing is known; a query of the put 2 meets that the journal is full, one of the put 3 that there is no
    // memory.
    fn enter(&mut self, put: PutId) -> Result<Option<u64>, WorkplaceFault> {
        self.see(Seen::Entered(put.number));
        match put.number {
            1 => Ok(None),
            2 => Err(WorkplaceFault::JournalFull),
            3 => Err(WorkplaceFault::OutOfMemory),
            number => Ok(Some(number.wrapping_mul(10))),
        }
    }

    fn answer(&mut self, put: PutId, ending: Result<u64, End>)
        ensures { Unit {0} }
    {
        self.leave(put);
        match ending {
            Ok(settled) => self.see(Seen::Settled(put.number, settled)),
            Err(end) => self.see(Seen::Ended(put.number, end)),
        }
    }

    fn waits(&mut self) -> bool {
        self.puts.iter().any(|put| put.is_some())
    }
}
