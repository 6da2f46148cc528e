//! Laws of running nodes.

ghost use Rattle.std.specs.Prelude.{◌≡◌, List, [], ◌++◌};
ghost use Rattle.journal.specs.parts.ballots.specs.declared.record.Record.{Record as Held};
ghost use Rattle.journal.specs.parts.agreement_rules.specs.Views.{Views};
ghost use Rattle.journal.specs.parts.histories.specs.Following.{UpOrDown as HistorySeat, IsUp, at_first};
ghost use Rattle.journal.specs.parts.histories.specs.Keeping.{AreKept};
ghost use Rattle.journal.specs.parts.traces.specs.Told.{config_of};
ghost use Rattle.journal.specs.Journaled.{Journaled, seats_in};
ghost use Rattle.journal.specs.parts.traces.specs.Traced.{Tells};
ghost use Rattle.seats.specs.State.{RunningSeat, IsLedTo, Agrees};

use agreement_rules::laws::plans_keep_what_they_send;
use stable_records::Stable;

/// The records of a running node are those that its own entries made it keep (Lamport, *Paxos Made Simple*, section 2.5):
/// of each message that it sent the one behind the message, and of each cut the one that was due there, where the restart
/// behind the cut recovered it. Where it did not start with nothing, they stand behind those that it started with.
pub fn own_records_are_kept<S: Stable>()
    ensures whole { (seat : RunningSeat S) (stood : HistorySeat) → seat.start ≡ at_first seat.node.me
        → IsLedTo seat stood
        → AreKept (config_of seat.config) (at_first seat.node.me) seat.own seat.node.records }
    ensures later { (seat : RunningSeat S) (stood : HistorySeat) (views : Views) → seat.start ≡ IsUp views
        → IsLedTo seat stood → (more : List Held) × AreKept (config_of seat.config) (IsUp views) seat.own more
        × (seat.node.records ≡ views.records ++ more) }
{
    plans_keep_what_they_send();
}

/// A seat and a journal that have no entries agree, where they have one configuration and one start: so a node that was just
/// opened agrees with a journal that was just made.
pub fn fresh_seats_agree<S: Stable>()
    ensures { (seat : RunningSeat S) (journal : Journaled) → seat.own ≡ [] → Tells journal.trace seat.config [] []
        → journal.recovered ≡ [] → seats_in journal.start seat.node.me ≡ seat.start → Agrees seat journal }
{}
