//! The operators that order ballots, which are derived (Lamport, *Paxos Made Simple*, section 2.2: numbers that no two
//! proposers share), and sets of nodes, whose order says nothing.

use crate::support::{ballot, expect_of, node};
use ballots::{Ballot, NodeId, NodeSet};
use std::cmp::Ordering;
use std::test::Fail;

/// Ballots from the lowest to the highest, each a round and a node.
const RANKED: [(u32, u8); 6] = [
    (1, 0),
    (1, 6),
    (2, 0),
    (2, 1),
    (3_999_999_999, 6),
    (4_000_000_000, 0),
];

/// Whether the operators say of two ballots what is said of their ranks.
fn are_ordered(a: Ballot, b: Ballot, ranks: Ordering) -> bool {
    let (below, above) = (ranks == Ordering::Less, ranks == Ordering::Greater);
    (a < b) == below && (a <= b) != above && (a > b) == above && (a >= b) != below
}

/// Whether the comparisons say it.
fn are_compared(a: Ballot, b: Ballot, ranks: Ordering) -> bool {
    let same = ranks == Ordering::Equal;
    (a == b) == same && a.cmp(&b) == ranks && a.partial_cmp(&b) == Some(ranks)
}

/// Whether one ballot, of this rank, is told from each of them by its rank.
fn is_ranked(a: Ballot, rank: usize) -> Result<bool, Fail> {
    let mut is_right = true;
    for (other, (round, number)) in RANKED.iter().enumerate() {
        let b = ballot(*round, *number)?;
        let ranks = rank.cmp(&other);
        is_right = is_right && are_ordered(a, b, ranks) && are_compared(a, b, ranks);
    }
    Ok(is_right)
}

#[test]
fn ballots_compare_as_their_ranks(rt: HostRuntime) -> Result<(), Fail> {
    for (rank, (round, number)) in RANKED.iter().enumerate() {
        let ballot = ballot(*round, *number)?;
        expect_of(&rt, is_ranked(ballot, rank)?, rank);
    }
    Ok(())
}

/// Whether a set of two nodes is the same in another order, and not that of one of them.
fn is_set_of_both(one: NodeId, other: NodeId) -> bool {
    let set = NodeSet::new().with(one).with(other);
    let again = NodeSet::new().with(other).with(one).with(other);
    set == again && set != NodeSet::new().with(one)
}

/// A set is the same in whatever order its nodes come, and however often.
#[test]
fn sets_are_compared_by_their_nodes(rt: HostRuntime) -> Result<(), Fail> {
    let (two, five) = (node(2)?, node(5)?);
    assert!(rt; is_set_of_both(two, five));
    Ok(())
}
