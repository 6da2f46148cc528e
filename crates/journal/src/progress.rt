//! How far the log of all nodes' own entries has come.

ghost use Rattle.std.specs.Prelude.{◌≡◌, [], ◌∷◌, ◌++◌, Some, length, IfErr, IfOk};
ghost use Rattle.journal.specs.Logged.{own_of, HasGoneOn};

use crate::own::OwnEntry;
use ballots::{MAX_MEMBERS, NodeId};
use ghost_log::{Head, Naming, Reached};
use std::marker::Model;

/// The log of all nodes' own entries, and how many of them each node has. Contracts see the entries.
#[derive(Drop)]
pub(crate) struct Progress<J: Naming> {
    head: Head<OwnEntry, J>,
    reached: Reached<OwnEntry, J>,
    counts: [u64; MAX_MEMBERS as usize],
}

impl<J: Naming> Model for Progress<J> {
    ghost use Rattle.std.specs.Prelude.{List};
    ghost use Rattle.node_parts.specs.histories.specs.Owning.{OwnEntry};
    ghost use Rattle.journal.specs.Logged.{AreCounted};

    ghost Value = { List OwnEntry };

    ghost view = { λ p. p.reached };

    ghost invariant = { λ p. AreCounted p.counts p.reached };
}

impl<J: Naming> Progress<J> {
    /// A log without an entry.
    pub(crate) fn new(head: Head<OwnEntry, J>, reached: Reached<OwnEntry, J>) -> Progress<J>
        requires { reached ≡ [] }
        ensures { result ≡ [] }
    {
        Progress {
            head,
            reached,
            counts: [0; MAX_MEMBERS as usize],
        }
    }

    /// What the log has reached.
    pub(crate) fn reached(&self) -> Reached<OwnEntry, J>
        ensures { result ≡ self.now }
    {
        self.reached.again()
    }

    /// How many entries this node has.
    pub(crate) fn count(&self, node: NodeId) -> u64
        ensures { result ≡ length (own_of node self.now) }
    {
        self.counts[usize::from(node.number())]
    }

    /// The log with an entry more; or how far it has come, where it does not stand where this knows it to stand, or has as many
    /// entries as a log has at most.
    pub(crate) fn with(self, entry: &OwnEntry) -> Result<Progress<J>, Reached<OwnEntry, J>>
        ensures more { IfOk result (λ more. more ≡ self ++ entry.now ∷ []) }
        ensures gone_on { IfErr result (λ seen. HasGoneOn self (Some seen)) }
    {
        let Progress {
            head,
            reached,
            mut counts,
        } = self;
        let more = match head.append(&reached, entry) {
            Ok(more) => more,
            Err(seen) => return Err(seen),
        };
        let node = entry.step.event.node();
        if node < u64::from(MAX_MEMBERS) {
            counts[node as usize] += 1;
        }
        Ok(Progress {
            head,
            reached: more,
            counts,
        })
    }
}
