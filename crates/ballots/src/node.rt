ghost use Rattle.std.specs.Prelude.{◌≡◌, ℕ, ◌≤◌, ◌↔◌, IsSome, IfSome};
ghost use Rattle.ballots.specs.Limits.{max_node};

use std::marker::Model;

/// The greatest number of a node: a cluster has at most seven.
pub const MAX_NODE: u8 = 6;

/// A node's number, 0 to [`MAX_NODE`].
#[derive(Clone, Copy, Debug, PartialEq, Eq, PartialOrd, Ord, Hash)]
pub struct NodeId {
    number: u8,
}

impl Model for NodeId {
    ghost Value = { ℕ };

    ghost view = { λ n. n.number };

    ghost invariant = { λ n. n.number ≤ max_node };

    ghost inverse = { λ n. record { number = n } };
}

impl NodeId {
    /// The node of this number, `None` above [`MAX_NODE`].
    pub fn new(number: u8) -> Option<NodeId>
        ensures within { IsSome result ↔ (number ≤ max_node) }
        ensures value { IfSome result (λ node. node ≡ number) }
    {
        if number <= MAX_NODE {
            Some(NodeId { number })
        } else {
            None
        }
    }

    /// The node's number.
    pub fn number(self) -> u8
        ensures value { result ≡ self }
        ensures within { self ≤ max_node }
    {
        self.number
    }
}
