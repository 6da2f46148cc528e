//! An attempt that a node began.

ghost use Rattle.std.specs.Prelude.{◌≡◌, ℕ, Some, []};
ghost use Rattle.node_worker.specs.Paces.{WatchedAttempt, IsAttempt, AreAttempts, with_message, refuses, decides, accepts};

use ballots::{Ballot, Body, Members, Message, NodeSet, Slot};

/// An attempt that a node began, and whose slot it has not learned as far as messages tell.
#[derive(Clone, Copy, Debug)]
pub(crate) struct Attempt {
    pub(crate) slot: Slot,
    pub(crate) ballot: Ballot,
    /// Who accepted its proposal.
    pub(crate) accepted: NodeSet,
}

impl Attempt {
    /// An attempt that nothing has answered yet.
    #[tactic(auto, using(crate::proofs::Waiting::opens))]
    pub(crate) fn new(slot: Slot, ballot: Ballot) -> Attempt
        ensures { (members : ℕ) → IsAttempt members (record { slot = slot; ballot = ballot; since = [] }) result }
    {
        Attempt {
            slot,
            ballot,
            accepted: NodeSet::new(),
        }
    }

    /// Whether the message refuses it.
    pub(crate) fn is_refused_by(&self, message: &Message) -> bool
        ensures { result ≡ refuses self.now.slot self.now.ballot message.now }
    {
        message.slot == self.slot
            && match &message.body {
                Body::Nack { ballot, .. } => *ballot == self.ballot,
                _ => false,
            }
    }

    // Whether the message tells what was decided for its slot.
    fn is_decided_by(&self, message: &Message) -> bool
        ensures { result ≡ decides self.now.slot message.now }
    {
        message.slot == self.slot && matches!(message.body, Body::Decided { .. })
    }

    // Whether the sender of the message accepted it.
    fn is_accepted_by(&self, message: &Message) -> bool
        ensures { result ≡ accepts self.now.slot self.now.ballot message.now }
    {
        message.slot == self.slot
            && match &message.body {
                Body::Accepted(acceptance) => acceptance.ballot == self.ballot,
                _ => false,
            }
    }

    /// What is left of it behind the message, `None` where it is over.
    pub(crate) fn after(self, members: Members, message: &Message) -> Option<Attempt>
        ensures { (begun : WatchedAttempt) → IsAttempt members begun self
            → AreAttempts members (Some (with_message message.now begun)) result }
    {
        if self.is_refused_by(message) || self.is_decided_by(message) {
            return None;
        }
        if !self.is_accepted_by(message) {
            return Some(self);
        }
        let accepted = self.accepted.with(message.sender);
        if members.are_majority(accepted) {
            None
        } else {
            Some(Attempt { accepted, ..self })
        }
    }
}
