//! Laws of the rules of single messages.

ghost use Rattle.run_breaches.specs.BreachLaws.{KeepingIsLawful, BreakingIsNotKeeping, BreachesAreOne};
ghost use Rattle.run_breaches.specs.FirstBreach.{FirstBreachesAreOne};
ghost use Rattle.run_breaches.specs.Slots.{SlotsAreApart};

use lawful_histories::laws::{beginnings_are_lawful, lawful_by_messages};

/// After a lawful history a message may follow exactly where it keeps every rule, and one that breaks a rule does not
/// keep them all (Lamport, *Paxos Made Simple*, sections 2.2 and 2.3).
pub fn a_message_follows_where_it_keeps_the_rules()
    ensures lawful { KeepingIsLawful }
    ensures broken { BreakingIsNotKeeping }
{
    lawful_by_messages();
}

/// What is told of a message is one: which rules it breaks, and for each the first message that it goes against.
pub fn breaches_are_one()
    ensures { BreachesAreOne }
{}

/// A run has one first breach at most: one place, and one finding there.
pub fn first_breaches_are_one()
    ensures { FirstBreachesAreOne }
{
    beginnings_are_lawful();
    breaches_are_one();
}

/// A message keeps the rules after all messages before it exactly where it keeps them after those of its slot.
pub fn slots_are_apart()
    ensures { SlotsAreApart }
{}
