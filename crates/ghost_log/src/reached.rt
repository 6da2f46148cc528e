//! How far a log has come.

ghost use Rattle.std.specs.Prelude.{◌≡◌, ◌⊎◌, length};
ghost use mathlib.Core.List.{IsPrefix};

use crate::naming::Naming;
use crate::rules::Law;
use logbook::Seen;
use std::marker::{Model, PhantomData};

/// That the log of this name has reached these entries. Contracts see them.
#[derive(Drop)]
pub struct Reached<E, J: Naming> {
    pub(crate) count: u64,
    pub(crate) seen: Seen<E, u64, Law>,
    pub(crate) of: PhantomData<J>,
}

impl<E, J: Naming> Model for Reached<E, J> {
    ghost use Rattle.std.specs.Prelude.{◌≡◌, List, length};

    ghost Value = { List E };

    ghost view = { λ r. r.seen.log };

    ghost invariant = { λ r. (r.count ≡ length r.seen.log) × (r.seen.book ≡ J.book) };
}

impl<E, J: Naming> Reached<E, J> {
    /// How many entries they are.
    pub fn len(&self) -> u64
        ensures { result ≡ length self.now }
    {
        self.count
    }

    /// The same again.
    pub fn again(&self) -> Reached<E, J>
        ensures { result ≡ self.now }
    {
        Reached {
            count: self.count,
            seen: self.seen.again(),
            of: PhantomData,
        }
    }

    /// Of what two know of one log, one begins the other.
    pub fn beside(&self, other: &Reached<E, J>)
        ensures { IsPrefix self.now other.now ⊎ IsPrefix other.now self.now }
    {
        let mut both = self.seen.again();
        both.learn(&other.seen);
    }
}
