//! Laws of journals and receipts.

ghost use Rattle.std.specs.Prelude.{◌≡◌, ◌⊎◌, ℕ, ◌<◌, ◌≤◌, ◌^◌, List, [], false, length, slice_get, Option, Some, None};
ghost use mathlib.Core.List.{IsPrefix};
ghost use Rattle.node_parts.specs.lawful_histories.specs.Lawful.{IsLawful};
ghost use Rattle.node_parts.specs.table_types.specs.Uploads.{Upload as Uploaded};
ghost use Rattle.node_parts.specs.table_types.specs.Ticket.{TableVersion};
ghost use Rattle.node_parts.specs.histories.specs.Texts.{IsTextOf};
ghost use Rattle.node_parts.specs.traces.specs.declared.step.Step.{Step as StepSpec};
ghost use Rattle.node_parts.specs.histories.specs.History.{History};
ghost use Rattle.node_parts.specs.histories.specs.Following.{Follows};
ghost use Rattle.node_parts.specs.histories.specs.Owning.{OwnEntry};
ghost use Rattle.node_parts.specs.safe_histories.specs.Safe.{IsSafe};
ghost use Rattle.node_parts.specs.joined_histories.specs.Joined.{Precedes};
ghost use Rattle.node_parts.specs.traces.specs.Told.{config_of};
ghost use Rattle.node_parts.specs.traces.specs.Traced.{Traced, history_of};
ghost use Rattle.journal.specs.declared.receipt.Receipt.{Receipt as ReceiptSpec};
ghost use Rattle.journal.specs.Journaled.{seats_in, Journaled, HasFollowed};
ghost use Rattle.journal.specs.Logged.{GoesOn};
ghost use Rattle.journal.specs.Receipts.{IsReceiptOf, AreWorth, IsFresh};

use joined_histories::laws::{fresh_tails_answer, tails_are_safe};
use node_events::laws::telling_loses_nothing;
use safe_histories::laws::replicas_agree;

/// Any two receipts of one journal are worth this, whichever threads got them and whenever, and whatever history left the
/// nodes as the journal has them at its start: two answers to one ticket have equal bytes; and an upload that one tells to be
/// applied as a version stands once, at that version's place, in the other's answer to a ticket of its table for that version or
/// a later one.
pub fn receipts_are_worth_their_answers()
    ensures { (journal : Journaled) (before : History) (one other : ReceiptSpec) → HasFollowed journal
        → Precedes (config_of journal.trace.config) (seats_in journal.start) before
        → IsReceiptOf journal.trace one → IsReceiptOf journal.trace other → AreWorth one other }
{
    tails_are_safe();
}

/// A node that told that an upload was applied as a version answers each later ticket for that version or an earlier one,
/// as long as it neither went down nor was restarted in between. Memory for the answer may be refused.
pub fn fresh_receipts_answer()
    ensures { (journal : Journaled) (before : History) (one other : ReceiptSpec) → HasFollowed journal
        → Precedes (config_of journal.trace.config) (seats_in journal.start) before
        → IsReceiptOf journal.trace one → IsReceiptOf journal.trace other → IsFresh journal.trace one other }
{
    fresh_tails_answer();
    telling_loses_nothing();
}

/// A journal whose nodes started with nothing is a history by itself: its steps follow the rules of the nodes, what was
/// sent is lawful, and clients may rely on what was answered and on any two receipts of it.
pub fn whole_journals_agree()
    ensures follows { (journal : Journaled) → journal.start ≡ [] → HasFollowed journal
        → Follows (history_of journal.trace) }
    ensures lawful { (journal : Journaled) → journal.start ≡ [] → HasFollowed journal
        → IsLawful journal.trace.config.members journal.trace.sent }
    ensures safe { (journal : Journaled) → journal.start ≡ [] → HasFollowed journal
        → IsSafe (history_of journal.trace) }
    ensures worth { (journal : Journaled) (one other : ReceiptSpec) → journal.start ≡ [] → HasFollowed journal
        → IsReceiptOf journal.trace one → IsReceiptOf journal.trace other → AreWorth one other }
{
    replicas_agree();
}

/// Behind an entry a journal knows its log no longer only where it has seen it go on: what it has seen begins with the log that it
/// knew, and is longer, unless that was as long as a log can be.
pub fn a_log_is_lost_only_where_it_goes_on()
    ensures { (log : List OwnEntry) (outrun seen : Option (List OwnEntry)) (more : Option OwnEntry)
        → GoesOn (Some log) outrun more None seen
        → (now : List OwnEntry) × (seen ≡ Some now) × IsPrefix log now × ((length log < length now) ⊎ (2 ^ 62 ≤ length log)) }
{}
