//! Laws of runs, in the words of their traces.

ghost use Rattle.std.specs.Prelude.{◌≡◌, ℕ, ◌≤◌, List, Some, slice_get};
ghost use Rattle.table_types.specs.Uploads.{Upload as Uploaded};
ghost use Rattle.table_types.specs.Ticket.{TableVersion};
ghost use Rattle.table_versions.specs.declared.outcome.Outcome.TheVariants.{Applied};
ghost use Rattle.histories.specs.Texts.{IsTextOf};
ghost use Rattle.safe_histories.specs.Safe.{StandsIn};
ghost use Rattle.traces.specs.declared.config.Config.{Config as ConfigSpec};
ghost use Rattle.agreement.specs.declared.config.TheConstants.{MAX_SLOTS};
ghost use Rattle.traces.specs.declared.config.TheConstants.{MAX_JOURNAL_ENTRIES};
ghost use Rattle.node_events.specs.declared.event.Event.{Event as EventSpec};
ghost use Rattle.node_events.specs.declared.event.Event.TheVariants.{Get, Outcome as AsksOutcome};
ghost use Rattle.node_events.specs.declared.event_result.EventResult.TheVariants.{Answer, Outcome as TellsOutcome};
ghost use Rattle.traces.specs.Limits.{most_slots, most_entries};
ghost use Rattle.traces.specs.Traced.{Traced};
ghost use Rattle.traces.specs.Runs.{IsRunOf};

/// The limits of the definitions are the program's.
pub fn limits_are_these()
    ensures slots { MAX_SLOTS ≡ most_slots }
    ensures entries { MAX_JOURNAL_ENTRIES ≡ most_entries }
{}

/// Any two answers of a run to one ticket have the same bytes, at whichever nodes and times they were given.
pub fn one_ticket_has_one_answer()
    ensures { (config : ConfigSpec) (events : List EventSpec) (trace : Traced) (i j node other : ℕ)
        (ticket : TableVersion) (x y : List ℕ) → IsRunOf config events trace
        → slice_get trace.steps i ≡ Some (record { event = Get node ticket; result = Answer x })
        → slice_get trace.steps j ≡ Some (record { event = Get other ticket; result = Answer y }) → x ≡ y }
{}

/// An upload that some node of a run told to be applied as a version stands once, at that version's place, in every
/// answer to a ticket of its table for that version or a later one, at whichever nodes and times.
pub fn acknowledged_uploads_stand_once()
    ensures { (config : ConfigSpec) (events : List EventSpec) (trace : Traced) (i j node other number : ℕ)
        (text y : List ℕ) (upload : Uploaded) (ticket : TableVersion) → IsRunOf config events trace
        → IsTextOf text upload → ticket.table ≡ upload.table → number ≤ ticket.version
        → slice_get trace.steps i ≡ Some (record { event = AsksOutcome node text; result = TellsOutcome (Applied number) })
        → slice_get trace.steps j ≡ Some (record { event = Get other ticket; result = Answer y })
        → (1 ≤ number) × StandsIn upload.table y ticket.version number upload }
{}
