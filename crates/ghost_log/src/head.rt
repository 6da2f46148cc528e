//! What adds to a log.

ghost use Rattle.std.specs.Prelude.{◌≡◌, ◌⊎◌, ◌<◌, ◌≤◌, ◌^◌, ◌∷◌, ◌++◌, [], length, IfOk, OnOk, IfErr};
ghost use mathlib.Core.List.{IsPrefix};
ghost use Rattle.ghost_log.specs.Rules.{head_of};

use crate::naming::Naming;
use crate::reached::Reached;
use crate::rules::{Add, Law, Nothing};
use logbook::{Offer, Seen, Start, Word};
use std::marker::{Model, PhantomData};

// So many entries a log has at most.
const MOST_ENTRIES: u64 = 1 << 62;

/// A log without an entry, which has no name yet. Contracts see which it is.
#[derive(Drop)]
pub struct Opened<E> {
    word: Word<E, u64, Law>,
    seen: Seen<E, u64, Law>,
}

impl<E> Model for Opened<E> {
    ghost use Rattle.std.specs.Prelude.{◌≡◌, []};
    ghost use Rattle.logbook.specs.Pages.{Book};
    ghost use Rattle.ghost_log.specs.Rules.{head_of};

    ghost Value = { Book };

    ghost view = { λ o. o.seen.book };

    ghost invariant = { λ o. (o.seen.log ≡ []) × (o.word ≡ head_of o.seen.book) };
}

impl<E> Opened<E> {
    /// A log of its own.
    pub fn new() -> Opened<E> {
        let (seen, mut first, _second) = Seen::open(Start::alone(), 0, 0);
        Opened {
            word: Word::tracked(0, &mut first),
            seen,
        }
    }

    /// What adds to the log, and that it has reached nothing, under its name.
    pub fn named<J: Naming>(self) -> (Head<E, J>, Reached<E, J>)
        requires { self ≡ J.book }
        ensures { result.1 ≡ [] }
    {
        let Opened { word, seen } = self;
        (
            Head {
                word,
                of: PhantomData,
            },
            Reached {
                count: 0,
                seen,
                of: PhantomData,
            },
        )
    }
}

/// What adds to the log of this name: how many entries it has.
#[derive(Drop)]
pub struct Head<E, J: Naming> {
    word: Word<E, u64, Law>,
    of: PhantomData<J>,
    ghost word_is: { word ≡ head_of J.book },
}

impl<E, J: Naming> Head<E, J> {
    /// Adds an entry behind those that were reached, and tells that these are reached now. Where the log had come further
    /// it stays as it is, and the error is how far it has come; where it has 2^62 entries, the error is what was given.
    pub fn append(&self, reached: &Reached<E, J>, entry: &E) -> Result<Reached<E, J>, Reached<E, J>>
        ensures entry { IfOk result (λ more. more ≡ reached.now ++ entry.now ∷ []) }
        ensures short { OnOk result (length reached.now < 2 ^ 62) }
        ensures further { IfErr result (λ now. IsPrefix reached.now now
            × ((length reached.now < length now) ⊎ (2 ^ 62 ≤ length reached.now))) }
    {
        if reached.count >= MOST_ENTRIES {
            return Err(reached.again());
        }
        let mut seen = reached.seen.again();
        let mut offer: Offer<E, u64, Law, Nothing> = seen.plain::<Nothing, E, Add>(entry);
        let mut pen = seen.no_pen();
        let count = reached.count;
        let found = self
            .word
            .compare_exchange::<Add, Nothing>(count, count + 1, &mut seen, &mut offer, &mut pen);
        if found != count {
            return Err(Reached {
                count: found,
                seen,
                of: PhantomData,
            });
        }
        Ok(Reached {
            count: count + 1,
            seen,
            of: PhantomData,
        })
    }
}
