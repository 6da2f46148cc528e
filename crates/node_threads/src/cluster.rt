//! A cluster.

ghost use Rattle.std.specs.Prelude.{◌≡◌};
ghost use Rattle.std.specs.Option.{IfSome};

use crate::locks::Locks;
use seats::{Beginning, Journal, Retention, Seat, Whole};
use stable_records::Stable;
use std::marker::Brand;
use std::sync::{Mutex, Wait};

/// The seats of the nodes of one configuration, and their journal, each behind a lock.
pub struct Cluster<const N: usize, S: Stable + Drop, J: Beginning = Brand, M: Retention = Whole> {
    seats: [Mutex<Seat<S, J, M>>; N],
    journal: Mutex<Journal<J, M>>,
}

// Written out, so that whoever drops a cluster does so by one call, and does not prove again what is inside it.
impl<const N: usize, S: Stable + Drop, J: Beginning, M: Retention> Drop for Cluster<N, S, J, M> {
    fn drop(self) {
        let Cluster { seats, journal } = self;
        drop(seats);
        drop(journal);
    }
}

impl<const N: usize, S: Stable + Drop, J: Beginning, M: Retention> Cluster<N, S, J, M> {
    /// The cluster of these nodes, each at the place of its number and behind its lock, which nobody holds; `None` where one
    /// stands elsewhere, is down, or does not agree with the journal, or where the configuration has another number of members
    /// than there are seats.
    pub fn new<R: Wait>(
        rt: &R,
        seats: [Mutex<Seat<S, J, M>>; N],
        journal: Journal<J, M>,
    ) -> Option<Cluster<N, S, J, M>> {
        if usize::from(journal.config().members.count()) != N || !are_placed(rt, &seats, &journal) {
            return None;
        }
        Some(Cluster {
            seats,
            journal: Mutex::new(journal),
        })
    }

    /// The seat of the node of this number, `None` where there is no such node. Whoever holds its lock may take the
    /// journal's, and no other seat's.
    pub fn seat(&self, node: usize) -> Option<&Mutex<Seat<S, J, M>>> {
        self.seats.get(node)
    }

    /// The journal. Whoever holds its lock takes no other.
    pub fn journal(&self) -> &Mutex<Journal<J, M>> {
        &self.journal
    }

    /// The locks that the calls of this node take, `None` where there is no such node.
    pub(crate) fn locks(&self, node: usize) -> Option<Locks<'_, S, J, M>>
        ensures { IfSome result (λ locks. locks.node ≡ node) }
    {
        let seat = self.seats.get(node)?;
        Some(Locks::new(node, seat, &self.journal))
    }
}

// Whether each seat is that of the node of its place, is up, and agrees with the journal.
fn are_placed<R: Wait, S: Stable + Drop, J: Beginning, M: Retention>(
    rt: &R,
    seats: &[Mutex<Seat<S, J, M>>],
    journal: &Journal<J, M>,
) -> bool {
    for (place, seat) in seats.iter().enumerate() {
        let seat = seat.lock(rt);
        if usize::from(seat.me().number()) != place || seat.node().is_err() {
            return false;
        }
        if !seat.agrees(journal) {
            return false;
        }
    }
    true
}
