//! Laws of what nodes have that start again.

ghost use Rattle.std.specs.Prelude.{◌≡◌, ℕ, Bool, List, length, Some, slice_get, slice_index_or};
ghost use Rattle.std.specs.List.{All};
ghost use Rattle.ballots.specs.declared.record.Record.{Record};
ghost use Rattle.ballots.specs.declared.message.Message.{Message};
ghost use Rattle.agreement_rules.specs.Views.{AgreementConfig, Views, started_with};
ghost use Rattle.histories.specs.History.{History};
ghost use Rattle.histories.specs.Following.{UpOrDown, recovered_in, at_first};
ghost use Rattle.joined_histories.specs.Joined.{Precedes};
ghost use Rattle.resumed_histories.specs.StartingOver.{Hears, StartsOver};
ghost use Rattle.chosen_records.specs.Chosen.{IsRecorded};
ghost use Rattle.stored_nodes.specs.State.{StoredNodeState};
ghost use Rattle.resumed_nodes.specs.Heard.{heard, starts_of};
ghost use Rattle.resumed_nodes.specs.Starting.{AreStarted, GoesOn, records_at_nodes};
ghost use Rattle.resumed_nodes.specs.Knowing.{TellsAll, KnowsAcknowledged};

use lawful_histories::laws::lawful_by_messages;
use learner::laws::learned_is_decided_or_chosen;
use resumed_histories::laws::{
    a_process_may_start_over, what_clients_did_stands, what_was_sent_is_recorded,
};
use safe_histories::laws::{
    prefix_is_shown, prefixes_begin_one_another, replicas_agree, running_is_shown,
    running_members_answer, texts_have_one_list_of_uploads,
};
use stable_records::Stable;
use table_types::laws::{tables_grow, uploads_count_once, uploads_have_one_encoding};

/// A node that starts with these records and hears these messages has one thing then, whichever node it is.
pub fn what_is_heard_is_one()
    ensures { (config : AgreementConfig) (node : ℕ) (records : List Record) (told : List Message) (after : Views)
        → Hears config node (started_with records) told after → after ≡ heard records told }
{}

/// Where a history left its members so, and each has been opened with its records and has heard these messages by its
/// rules, the members have started over: each stands where the list of starts has it, and nobody beyond its end differs
/// from a node that has nothing.
pub fn members_have_started_over()
    ensures { (config : AgreementConfig) (left : ℕ → UpOrDown) (before : History) (recovered : ℕ → Bool)
        (all : List (List Record)) (told : List Message) → Precedes config left before → length all ≡ config.members
        → ((node : ℕ) (records : List Record) → slice_get all node ≡ Some records
        → (records ≡ recovered_in (recovered node) (left node))
        × Hears config node (started_with records) told (heard records told))
        → StartsOver config left recovered told (λ node. slice_index_or (starts_of all told) node (at_first node)) }
{}

/// Members that have all started again with their records, and have heard acceptances again that are among these, go on from
/// whatever history left them with these records: some history precedes them, in which clients did the same and were answered
/// the same. So what an earlier process acknowledged holds in all that follows.
pub fn members_go_on<S: Stable>()
    ensures { (config : AgreementConfig) (nodes : List (StoredNodeState S)) (told : List Message)
        → length nodes ≡ config.members → AreStarted config told nodes → All (IsRecorded (records_at_nodes nodes)) told
        → GoesOn config (records_at_nodes nodes) told }
{
    members_have_started_over();
    a_process_may_start_over();
}

/// Members that have all started again so, and have heard of each slot of which a majority of them recorded an acceptance
/// at one ballot, know at once all that was acknowledged in whatever history left them with these records (Lamport, *Paxos
/// Made Simple*, sections 2.3 and 2.5): an upload that was told to be applied as a version is applied as that version at
/// each of them, and they have that version. [`chosen_by`](crate::chosen_by) gives such messages.
pub fn members_know_what_was_acknowledged<S: Stable>()
    ensures { (config : AgreementConfig) (nodes : List (StoredNodeState S)) (told : List Message)
        → length nodes ≡ config.members → AreStarted config told nodes → All (IsRecorded (records_at_nodes nodes)) told
        → TellsAll config (records_at_nodes nodes) told → KnowsAcknowledged config (records_at_nodes nodes) told }
{
    members_go_on::<S>();
    what_clients_did_stands();
    what_was_sent_is_recorded();
    replicas_agree();
    lawful_by_messages();
    running_is_shown();
    running_members_answer();
    prefix_is_shown();
    prefixes_begin_one_another();
    learned_is_decided_or_chosen();
    uploads_have_one_encoding();
    texts_have_one_list_of_uploads();
    tables_grow();
    uploads_count_once();
}
