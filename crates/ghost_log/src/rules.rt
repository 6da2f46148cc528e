//! The rules of a log: it has as many entries as its head says.

use logbook::{Gain, Plain, Play, Rule};

/// The head says how many entries the log has.
pub struct Law;

impl<E> Rule<E, u64> for Law {
    ghost use Rattle.std.specs.Prelude.{[]};
    ghost use base.Fml.{ftrue};
    ghost use Rattle.ghost_log.specs.Rules.{IsCounted};

    ghost holds = { λ cells log. IsCounted cells log };

    ghost first = { [] };

    ghost hinted = { λ n log. Unit {0} };

    ghost shows = { λ log. [] };

    ghost keeps = { λ names log. ftrue };

    ghost moves = { λ ask before after answer. Unit {0} };
}

/// Nobody trades anything with a log.
pub struct Nothing;

impl<E> Gain<E, u64> for Nothing {
    ghost use base.Fml.{ftrue};

    ghost after = { λ names about answer. ftrue };
}

/// A step that adds an entry.
pub struct Add;

impl<E> Play<E, u64> for Add {
    ghost use Rattle.ghost_log.specs.Rules.{Adds};

    ghost then = { Adds };
}

impl<E> Plain<E, E, u64> for Add {
    ghost use Rattle.std.specs.Prelude.{None};

    ghost ask = { λ entry. entry };

    ghost state = { λ entry. None };
}
