//! What a worker works at.

ghost use Rattle.std.specs.Prelude.{◌≡◌, ℕ};
ghost use Rattle.node_worker.specs.Deeds.{Deed, Read, Handed, Told, Counted, Found, Entered, Answered, Looked};

use ballots::Message;
use stable_records::StoreFault;

/// What the worker of a node hears.
#[derive(Clone, Copy, Debug, PartialEq, Eq)]
pub enum Note {
    /// The message of this number was sent.
    Message(u64),
    /// An event of the node was entered that is no tick, no delivery and no answer, and an upload may wait.
    Look,
    /// The work is over.
    Stop,
}

/// What a worker hands to its node.
#[derive(Debug, Drop)]
pub enum WorkInput {
    /// The message of this number.
    Deliver(u64, Message),
    /// Time has passed. An attempt leaves so many free slots to other nodes.
    Tick(u8),
}

/// The numbers of the messages that went out: those from the first on, below the next.
#[derive(Clone, Copy, Debug, PartialEq, Eq)]
pub struct Sent {
    /// The first.
    pub first: u64,
    /// The one behind the last.
    pub next: u64,
}

/// Why a node did nothing with what it was handed, or was cut off in the midst of it.
#[derive(Clone, Copy, Debug, PartialEq, Eq)]
pub enum WorkplaceFault {
    /// The node is down.
    Down,
    /// What the journal has of the node is not what the node did.
    Strange,
    /// The journal has as many entries as it may have.
    JournalFull,
    /// There is no such message under the number of the delivery.
    NotSent,
    /// The input is outside of the configuration.
    OutOfRange,
    /// Every slot has a value.
    SlotsSpent,
    /// There is no ballot above those that were seen.
    RoundsSpent,
    /// Memory was refused.
    OutOfMemory,
    /// The record of what was due could not be kept.
    Store(StoreFault),
    /// Other records were recalled than were kept.
    Lost,
}

/// Why nothing is told of a put that waited. Its upload may be decided even so.
#[derive(Clone, Copy, Debug, PartialEq, Eq)]
pub enum End {
    /// The node is down, was started again, or its work is over.
    Down,
    /// Every slot has a value.
    SlotsSpent,
    /// There is no ballot above those that were seen.
    RoundsSpent,
    /// The journal has as many entries as it may have.
    JournalFull,
    /// A record could not be kept, or what was kept is not what was found.
    Store(StoreFault),
}

/// A put that waits at a node: its place there, and its number, which no other put of the node has.
#[derive(Clone, Copy, Debug, PartialEq, Eq)]
pub struct PutId {
    /// Where it waits. Once it is answered another may wait there.
    pub place: usize,
    /// Which it is.
    pub number: u64,
}

/// Where the worker of a node works: what it needs of its node, of the messages that were sent, of the puts that wait at the
/// node, and of the workers of all nodes. Others may work there at the same time, so of each call no more is said than what
/// it may leave.
pub trait Workplace {
    /// What is told of a put whose outcome is known: the outcome, and that it was entered.
    type Settled: Drop;

    /// How many nodes there are.
    ghost nodes: { ℕ };

    /// What it may be after a call, by what was done with that call.
    ghost does: { Self → Deed Self.Settled → Self → Type 0 };

    /// How many nodes there are, this one among them.
    fn count(&self) -> usize
        ensures { result ≡ nodes };

    /// The message of this number, where it was sent and memory can be had for a copy of it.
    fn read(&mut self, number: u64) -> Option<Message>
        ensures { does self.old (Read number result) self.new };

    /// Hands an input to the node, and gives the numbers of the messages that went out.
    fn hand(&mut self, input: WorkInput) -> Result<Sent, WorkplaceFault>
        ensures { does self.old (Handed input result) self.new };

    /// Tells the worker of a node that the message of this number was sent.
    fn tell(&mut self, node: usize, number: u64)
        ensures { does self.old (Told node number) self.new };

    /// How many places there are where puts may wait at the node, waiting or not.
    fn places(&mut self) -> usize
        ensures { does self.old (Counted result) self.new };

    /// The put that waits at this place, `None` where none does.
    fn find(&mut self, place: usize) -> Option<PutId>
        ensures { does self.old (Found place result) self.new };

    /// Asks the node what has become of a put, and enters the query with its outcome where that is known; `None`, and
    /// nothing is entered, where it is not.
    fn enter(&mut self, put: PutId) -> Result<Option<Self::Settled>, WorkplaceFault>
        ensures { does self.old (Entered put result) self.new };

    /// Tells whoever handed in the put how it ends, and it waits no more.
    fn answer(&mut self, put: PutId, ending: Result<Self::Settled, End>)
        ensures { does self.old (Answered put ending) self.new };

    /// Whether any put waits at the node.
    fn waits(&mut self) -> bool
        ensures { does self.old (Looked result) self.new };
}
