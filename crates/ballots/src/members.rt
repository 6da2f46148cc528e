ghost use Rattle.std.specs.Prelude.{◌≡◌, ℕ, ◌≤◌, ◌<◌, ◌↔◌, IsSome, IfSome, IsTrue};
ghost use Rattle.ballots.specs.Majority.{IsMembers, IsMajority, members_in};

use crate::node::NodeId;
use crate::node_set::NodeSet;
use std::marker::Model;

/// The most nodes that a cluster has.
pub const MAX_MEMBERS: u8 = 7;

/// How many nodes agree, 1 to [`MAX_MEMBERS`]: the nodes of the numbers from 0 on, one below this.
#[derive(Clone, Copy, Debug, PartialEq, Eq, PartialOrd, Ord, Hash)]
pub struct Members {
    number: u8,
}

impl Model for Members {
    ghost Value = { ℕ };

    ghost view = { λ m. m.number };

    ghost invariant = { λ m. IsMembers m.number };

    ghost inverse = { λ m. record { number = m } };
}

impl Members {
    /// This many members, `None` for none or for more than [`MAX_MEMBERS`].
    pub fn new(count: u8) -> Option<Members>
        ensures within { IsSome result ↔ IsMembers count }
        ensures value { IfSome result (λ members. members ≡ count) }
    {
        if 0 < count && count <= MAX_MEMBERS {
            Some(Members { number: count })
        } else {
            None
        }
    }

    /// How many members there are.
    pub fn count(self) -> u8
        ensures value { result ≡ self }
        ensures within { IsMembers self }
    {
        self.number
    }

    /// Whether the node is a member: its number is below their count.
    pub fn have(self, node: NodeId) -> bool
        ensures { IsTrue result ↔ (node < self) }
    {
        node.number() < self.count()
    }

    /// Whether so many of the members are a majority: twice as many are more than all (Lamport, *Paxos Made Simple*,
    /// section 2.1).
    pub fn is_majority(self, size: usize) -> bool
        ensures { IsTrue result ↔ IsMajority self size }
    {
        size > usize::from(self.count()) / 2
    }

    /// How many of the members are in the set. Nodes of it that are no members do not count.
    pub fn count_in(self, set: NodeSet) -> usize
        ensures { result ≡ members_in self set }
    {
        let mut count = 0;
        for number in 0..self.count() {
            if set.has[usize::from(number)] {
                count += 1;
            }
        }
        count
    }

    /// Whether the members in the set are a majority: twice as many as these are more than all members (section 2.1).
    /// Nodes of the set that are no members do not count.
    pub fn are_majority(self, set: NodeSet) -> bool
        ensures { IsTrue result ↔ IsMajority self (members_in self set) }
    {
        self.is_majority(self.count_in(set))
    }
}
