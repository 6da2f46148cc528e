//! The messages that nodes send each other (Lamport, *Paxos Made Simple*, sections 2.2 and 2.3).

use crate::acceptance::Acceptance;
use crate::ballot::Ballot;
use crate::node::NodeId;
use crate::slot::Slot;
use crate::value::Value;

/// The most bytes of a message's encoding: those of a Promise that reports the longest value.
pub const MAX_MESSAGE_BYTES: usize = 16_777_245;

/// A message: who sends it, for which slot, and what it says. It names its sender and never its receiver: any node may
/// be handed any message at any time.
#[derive(Clone, Debug, PartialEq, Eq, Drop)]
pub struct Message {
    /// Who sends it.
    pub sender: NodeId,
    /// For which slot; of an Ask the first slot that the sender does not know.
    pub slot: Slot,
    /// What it says.
    pub body: Body,
}

/// What a message says of its slot.
#[derive(Clone, Debug, PartialEq, Eq, Drop)]
pub enum Body {
    /// Phase 1a: asks for a promise to take no Accept below the ballot for this slot.
    Prepare {
        /// At which ballot.
        ballot: Ballot,
    },
    /// Phase 1b: the promise, with what the sender has accepted for the slot, if anything.
    Promise {
        /// The ballot of the Prepare.
        ballot: Ballot,
        /// What the sender has accepted, and at which ballot.
        report: Option<Acceptance>,
    },
    /// The refusal of a Prepare or an Accept below what the sender has promised.
    Nack {
        /// The refused ballot.
        ballot: Ballot,
        /// What the sender has promised.
        promised: Ballot,
    },
    /// Phase 2a: asks to accept this value at this ballot.
    Accept(Acceptance),
    /// Phase 2b: this value is accepted at this ballot.
    Accepted(Acceptance),
    /// Asks for the values decided from this slot on.
    Ask,
    /// The value that is decided for the slot.
    Decided {
        /// What is decided.
        value: Value,
    },
}

/// The numbers of a message's fields, and of its kinds.
pub(crate) mod numbers {
    /// Which message it is: one of the kinds below.
    pub const KIND: u32 = 1;

    /// The node that sends.
    pub const SENDER: u32 = 2;

    /// The slot that the message is about.
    pub const SLOT: u32 = 3;

    /// The round of the message's ballot.
    pub const ROUND: u32 = 5;

    /// The node of the message's ballot.
    pub const NODE: u32 = 6;

    /// The round of the ballot that is reported, or that refused.
    pub const SECOND_ROUND: u32 = 7;

    /// The node of that ballot.
    pub const SECOND_NODE: u32 = 8;

    /// The value's bytes, none for a Noop.
    pub const VALUE: u32 = 9;

    /// A Prepare.
    pub const PREPARE: u64 = 1;

    /// A Promise.
    pub const PROMISE: u64 = 2;

    /// A Nack.
    pub const NACK: u64 = 3;

    /// An Accept.
    pub const ACCEPT: u64 = 4;

    /// An Accepted.
    pub const ACCEPTED: u64 = 5;

    /// An Ask.
    pub const ASK: u64 = 6;

    /// A Decided.
    pub const DECIDED: u64 = 7;
}
