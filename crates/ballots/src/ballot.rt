ghost use Rattle.std.specs.Prelude.{◌≡◌, ℕ, ◌+◌, ◌≤◌, ◌<◌, ◌↔◌, IsSome, IsNone, IfSome, IsTrue};
ghost use Rattle.ballots.specs.Limits.{max_round};

use crate::node::NodeId;
use std::cmp::Ordering;
use std::marker::Model;

/// The greatest round of a ballot.
pub const MAX_ROUND: u32 = 4_000_000_000;

/// A ballot: a round, 1 to [`MAX_ROUND`], and the node that began it. Ballots are ordered by round, then by node, so
/// that no two nodes ever begin the same one (Lamport, *Paxos Made Simple*, section 2.2; the pair is this service's).
#[derive(Clone, Copy, Debug, PartialEq, Eq, PartialOrd, Ord, Hash)]
pub struct Ballot {
    round: u32,
    node: NodeId,
}

impl Model for Ballot {
    ghost use Rattle.std.specs.Prelude.{◌≤◌, ◌<◌};
    ghost use Rattle.ballots.specs.Limits.{max_round};
    ghost use Rattle.ballots.specs.Ballot.{Ballot};

    ghost Value = { Ballot };

    ghost view = { λ b. record { round = b.round; node = b.node } };

    ghost invariant = { λ b. (0 < b.round) × (b.round ≤ max_round) };

    ghost inverse = { λ b. record { round = b.round; node = b.node } };
}

impl Ballot {
    ghost use Rattle.std.specs.declared.cmp.Ordering.TheVariants.{Less, Equal, Greater};
    ghost use Rattle.ballots.specs.Ballot.{IsBelow, ballot_cmp};

    /// The ballot of this round and node, `None` for a round outside 1 to [`MAX_ROUND`].
    pub fn new(round: u32, node: NodeId) -> Option<Ballot>
        ensures within { IsSome result ↔ ((0 < round) × (round ≤ max_round)) }
        ensures value { IfSome result (λ ballot. (ballot.round ≡ round) × (ballot.node ≡ node)) }
    {
        if 0 < round && round <= MAX_ROUND {
            Some(Ballot { round, node })
        } else {
            None
        }
    }

    /// The next ballot of a node that has seen this round: one round above it. `None` where no round is left, at
    /// [`MAX_ROUND`] or above.
    pub fn above(seen_round: u32, me: NodeId) -> Option<Ballot>
        ensures spent { IsNone result ↔ (max_round ≤ seen_round) }
        ensures value { IfSome result (λ ballot. (ballot.round ≡ seen_round + 1) × (ballot.node ≡ me)) }
    {
        if seen_round >= MAX_ROUND {
            return None;
        }
        Ballot::new(seen_round + 1, me)
    }

    /// The round, 1 to [`MAX_ROUND`].
    pub fn round(self) -> u32
        ensures value { result ≡ self.round }
        ensures above_zero { 0 < self.round }
        ensures within { self.round ≤ max_round }
    {
        self.round
    }

    /// The node that began it.
    pub fn node(self) -> NodeId
        ensures { result ≡ self.node }
    {
        self.node
    }

    /// How this ballot stands to the other: `Less` exactly where it is below it, `Equal` exactly where both are one.
    /// `cmp` and the operators say the same.
    pub fn compare(self, other: Ballot) -> Ordering
        ensures value { result ≡ ballot_cmp self other }
        ensures below { (result ≡ Less) ↔ IsBelow self other }
        ensures same { (result ≡ Equal) ↔ (self ≡ other) }
        ensures above { (result ≡ Greater) ↔ IsBelow other self }
    {
        self.cmp(&other)
    }

    /// Whether this ballot is below the other, as `<` says too.
    pub fn is_below(self, other: Ballot) -> bool
        ensures { IsTrue result ↔ IsBelow self other }
    {
        self.round < other.round
            || (self.round == other.round && self.node.number() < other.node.number())
    }
}
