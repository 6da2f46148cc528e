ghost use Rattle.std.specs.Prelude.{◌≡◌, ◌==◌, ◌||◌, ℕ, false};
ghost use Rattle.ballots.specs.Majority.{contains};

use crate::members::MAX_MEMBERS;
use crate::node::NodeId;
use std::marker::Model;

/// A set of nodes. It takes no memory, and a copy of it is another set.
#[derive(Clone, Copy, Debug, PartialEq, Eq)]
pub struct NodeSet {
    pub(crate) has: [bool; MAX_MEMBERS as usize],
}

impl Model for NodeSet {
    ghost use Rattle.ballots.specs.Majority.{NodeSet};

    ghost Value = { NodeSet };

    ghost view = { λ s. s.has };

    ghost inverse = { λ s. record { has = s } };
}

impl NodeSet {
    /// The set without a node.
    pub fn new() -> NodeSet
        ensures { (node : ℕ) → contains result node ≡ false }
    {
        NodeSet {
            has: [false; MAX_MEMBERS as usize],
        }
    }

    /// The set with this node too.
    pub fn with(self, node: NodeId) -> NodeSet
        ensures { (other : ℕ) → contains result other ≡ (contains self other || (node == other)) }
    {
        let mut has = self.has;
        has[usize::from(node.number())] = true;
        NodeSet { has }
    }

    /// Whether the node is in the set.
    pub fn contains(self, node: NodeId) -> bool
        ensures { result ≡ contains self node }
    {
        self.has[usize::from(node.number())]
    }
}
