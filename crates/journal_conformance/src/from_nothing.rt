//! Journals and seats of callers that pick no name: their nodes start with nothing, so the journal is a history by itself, and
//! what is proved of it is said of its own steps and messages, with nothing before them.

ghost use Rattle.std.specs.Prelude.{◌≡◌, ◌≤◌, ◌↔◌, List, IsTrue, length, slice_get};
ghost use Rattle.std.specs.Option.{option_map};
ghost use Rattle.seats.specs.parts.ballots.specs.declared.value.Value.{Value as Decided};
ghost use Rattle.seats.specs.parts.agreement_rules.specs.Views.{Views, HasPrefix};
ghost use Rattle.seats.specs.parts.lawful_histories.specs.Lawful.{IsLawful};
ghost use Rattle.seats.specs.parts.histories.specs.Following.{IsUp, Follows};
ghost use Rattle.seats.specs.parts.safe_histories.specs.Learning.{Runs, HasLearnedPrefix};
ghost use Rattle.seats.specs.parts.safe_histories.specs.Safe.{IsSafe};
ghost use Rattle.seats.specs.parts.traces.specs.Traced.{history_of};
ghost use Rattle.seats.specs.State.{Agrees, IsLedTo};
ghost use Rattle.seats.specs.Steps.{IsDown};

use ballots::Message;
use joined_histories::laws::nothing_precedes_the_start;
use journal::Journal;
use journal::laws::whole_journals_agree;
use schedule_runner::Trace;
use seats::Seat;
use stable_records::Stable;

/// The steps of a journal, and all messages that were sent: each step follows the rules of its node from nothing on, what was
/// sent is lawful (Lamport, *Paxos Made Simple*, section 2.2), and clients may rely on what was answered.
pub fn steps_of(journal: &Journal) -> &Trace
    ensures trace { result.now ≡ journal.now.trace }
    ensures follows { Follows (history_of journal.now.trace) }
    ensures lawful { IsLawful journal.now.trace.config.members journal.now.trace.sent }
    ensures safe { IsSafe (history_of journal.now.trace) }
{
    whole_journals_agree();
    journal.starts_as_named();
    journal.trace()
}

/// Whether a message of this number was sent, and which: one that holds all of its steps has each.
pub fn message_of(journal: &Journal, number: u64) -> Option<&Message>
    ensures { option_map (λ message. message.now) result ≡ slice_get journal.now.trace.sent number }
{
    journal.starts_as_named();
    journal.message(number)
}

/// Whether it has as many steps as its configuration allows, where it holds all of them.
pub fn is_full(journal: &Journal) -> bool
    ensures { IsTrue result ↔ (journal.now.trace.config.journal_limit ≤ length journal.now.trace.steps) }
{
    journal.starts_as_named();
    journal.is_full()
}

/// Whether the journal is of the same configuration and has just the entries of this node that the seat has. Then the node is up
/// exactly where the journal shows that it runs, and its prefix is what the journal shows that it has learned.
pub fn is_shown<S: Stable + Drop>(seat: &Seat<S>, journal: &Journal) -> bool
    ensures agrees { IsTrue result ↔ Agrees seat.now journal.now }
    ensures runs { IsTrue result
        → (IsDown seat.now → ⊥) ↔ Runs seat.now.node.me (history_of journal.now.trace).steps }
    ensures prefix { IsTrue result → (views : Views) (values : List Decided) → IsLedTo seat.now (IsUp views)
        → HasPrefix seat.now.node.config.members views.learner_calls values
        ↔ HasLearnedPrefix seat.now.node.config.members journal.now.trace.sent (history_of journal.now.trace).steps
        seat.now.node.me values }
{
    nothing_precedes_the_start();
    journal.starts_as_named();
    seat.keeps_as_named();
    seat.agrees(journal)
}
