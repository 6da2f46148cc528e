//! What nodes keep so that a restart forgets no promise (Lamport, *Paxos Made Simple*, sections 2.2, 2.5 and 3).

use crate::acceptance::Acceptance;
use crate::ballot::Ballot;
use crate::slot::Slot;

/// The most bytes of a record's encoding: those of the longest value that was accepted.
pub const MAX_RECORD_BYTES: usize = 16_777_235;

/// What a node keeps before it answers (Lamport, *Paxos Made Simple*, section 2.5: an acceptor records its response in
/// stable storage before it sends it, and a proposer the greatest number that it has begun with). A record does not say
/// whose it is: each node keeps its own.
#[derive(Clone, Debug, PartialEq, Eq, Drop)]
pub enum Record {
    /// The node began an attempt at this ballot.
    Began(Ballot),
    /// The slot has promised the ballot.
    Promised(Slot, Ballot),
    /// The slot has accepted the value at the ballot.
    Accepted(Slot, Acceptance),
    /// The slot and all later ones, up to the last that there is, have promised the ballot (section 3, where one
    /// message prepares infinitely many instances).
    PromisedFrom(Slot, Ballot),
}

/// The numbers of a record's fields, and of its kinds.
pub(crate) mod numbers {
    /// Which record it is: one of the kinds below.
    pub const KIND: u32 = 1;

    /// The slot that has promised or accepted, or the first of those that have promised.
    pub const SLOT: u32 = 2;

    /// The round of the ballot.
    pub const ROUND: u32 = 3;

    /// The node of the ballot.
    pub const NODE: u32 = 4;

    /// The value's bytes, none for a Noop.
    pub const VALUE: u32 = 5;

    /// A Began.
    pub const BEGAN: u64 = 1;

    /// A Promised.
    pub const PROMISED: u64 = 2;

    /// An Accepted.
    pub const ACCEPTED: u64 = 3;

    /// A PromisedFrom.
    pub const PROMISED_FROM: u64 = 4;
}
