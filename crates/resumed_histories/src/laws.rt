//! Laws of nodes that all start again.

ghost use Rattle.std.specs.Prelude.{◌≡◌, ◌⊎◌, ℕ, ◌<◌, ◌≤◌, Bool, true, Some, List, ◌++◌, slice_get};
ghost use Rattle.std.specs.List.{Contains};
ghost use Rattle.ballots.specs.Message.{message};
ghost use Rattle.ballots.specs.declared.acceptance.Acceptance.{Acceptance};
ghost use Rattle.ballots.specs.declared.record.Record.{Record};
ghost use Rattle.ballots.specs.declared.record.Record.TheVariants.{Accepted as HasAccepted};
ghost use Rattle.ballots.specs.declared.message.Message.{Message};
ghost use Rattle.ballots.specs.declared.message.Body.TheVariants.{Accepted};
ghost use Rattle.agreement_rules.specs.Views.{AgreementConfig};
ghost use Rattle.agreement_rules.specs.Keeping.{record_of};
ghost use Rattle.histories.specs.History.{Step, History};
ghost use Rattle.table_types.specs.Uploads.{Upload};
ghost use Rattle.table_types.specs.Tables.{applied};
ghost use Rattle.histories.specs.Texts.{IsTextOf};
ghost use Rattle.histories.specs.Event.{Get, Outcome as AsksOutcome};
ghost use Rattle.histories.specs.EventResult.{Answer, Outcome};
ghost use Rattle.histories.specs.Following.{UpOrDown, IsDown, recovered_in, Reaches, ReachesFrom};
ghost use Rattle.histories.specs.Keeping.{records_in};
ghost use Rattle.safe_histories.specs.Safe.{IsStep, StandsIn};
ghost use Rattle.joined_histories.specs.Joined.{Precedes};
ghost use Rattle.cut_histories.specs.Settling.{is_of_a_client, of_clients};
ghost use Rattle.resumed_histories.specs.StartingOver.{StartsOver, StartsOrHands, IsRecorded};
ghost use Rattle.resumed_histories.specs.Finding.{WasFound};

use agreement_rules::laws::replies_are_its_own;
use cut_histories::laws::{a_cut_may_have_sent, nodes_have_the_same_records};
use histories::laws::{a_member_steps_alone, one_step_more_reaches, records_are_kept};
use joined_histories::laws::acknowledgements_outlast;

/// Where a history left the nodes so, and all members start again and hear messages again that were sent in it, the
/// history goes on by restarts and deliveries alone, and precedes nodes that start as these have started: nothing is
/// sent or kept.
pub fn a_cluster_starts_over()
    ensures { (config : AgreementConfig) (left start : ℕ → UpOrDown) (before : History) (recovered : ℕ → Bool) (told : List Message)
        → Precedes config left before → ((m : Message) → Contains told m → Contains before.sent m)
        → StartsOver config left recovered told start
        → (more : List Step) × ((step : Step) → Contains more step → StartsOrHands step.event)
        × Precedes config start (record { config = config; sent = before.sent; steps = before.steps ++ more }) }
{
    a_member_steps_alone();
    one_step_more_reaches();
}

/// What a member has accepted, by the records that a history leaves it, it told in that history; or it went down before
/// it could, and its next start found the record (Lamport, *Paxos Made Simple*, section 2.5). Where a member is down
/// and starts now, it may also be the record that was due where it went down, which this start finds.
pub fn accepted_records_were_sent()
    ensures kept { (config : AgreementConfig) (sent : List Message) (steps : List Step) (recovered : List Bool)
        (seats : ℕ → UpOrDown) (node slot : ℕ) (told : Acceptance) → node < config.members
        → Reaches config sent steps recovered seats → Contains (records_in (seats node)) (HasAccepted slot told)
        → Contains sent (message node slot (Accepted told)) ⊎ WasFound node sent steps recovered slot told }
    ensures started { (config : AgreementConfig) (sent : List Message) (steps : List Step) (recovered : List Bool)
        (seats : ℕ → UpOrDown) (node slot : ℕ) (told : Acceptance) (found : Bool) → node < config.members
        → Reaches config sent steps recovered seats → Contains (recovered_in found (seats node)) (HasAccepted slot told)
        → Contains sent (message node slot (Accepted told)) ⊎ WasFound node sent steps recovered slot told
        ⊎ ((found ≡ true) × (records : List Record) × (seats node ≡ IsDown records (Some (HasAccepted slot told)))) }
{
    records_are_kept();
    replies_are_its_own();
}

/// The record that stands behind a message which a member sent is among those that the history leaves it (Lamport, *Paxos
/// Made Simple*, section 2.5): of an Accepted the acceptance, of a Promise the promise, of a Prepare the begin of its
/// attempt.
pub fn what_was_sent_is_recorded()
    ensures { (config : AgreementConfig) (sent : List Message) (steps : List Step) (recovered : List Bool) (seats : ℕ → UpOrDown)
        (m : Message) (kept : Record) → m.sender < config.members → Reaches config sent steps recovered seats
        → Contains sent m → record_of m ≡ Some kept → Contains (records_in (seats m.sender)) kept }
{
    records_are_kept();
    replies_are_its_own();
}

/// Where clients did the same in two histories, and were answered the same, each of these steps stands in both.
pub fn what_clients_did_stands()
    ensures { (other steps : List Step) → of_clients other ≡ of_clients steps → (place : ℕ) (step : Step)
        → is_of_a_client step.event ≡ true → slice_get steps place ≡ Some step
        → (at : ℕ) × (slice_get other at ≡ Some step) }
{}

/// Where a history left the nodes so, and all members start again with their records and hear again acceptances that are
/// among these, some history precedes nodes that start as these have started, in which clients did the same and were
/// answered the same. Nothing more is asked of the records than that each member has back those that it was left.
pub fn a_process_may_start_over()
    ensures { (config : AgreementConfig) (left start : ℕ → UpOrDown) (before : History) (recovered : ℕ → Bool) (told : List Message)
        → Precedes config left before → ((m : Message) → Contains told m → IsRecorded config left recovered m)
        → StartsOver config left recovered told start
        → (whole : History) × Precedes config start whole × (of_clients whole.steps ≡ of_clients before.steps) }
{
    a_cluster_starts_over();
    a_cut_may_have_sent();
    nodes_have_the_same_records();
}

/// What was acknowledged outlasts a process. All members have started again so, and a tail goes on from there: an upload
/// that was told before to be applied as a version stands at that version's place, and nowhere else, in every answer of
/// the tail to a ticket of its table for that version or a later one; and a ticket that was answered before has the same
/// bytes in the tail.
pub fn acknowledgements_outlast_a_process()
    ensures stands { (config : AgreementConfig) (left start seats : ℕ → UpOrDown) (before tail : History) (found : ℕ → Bool)
        (told : List Message) (recovered : List Bool) (i j k l number version : ℕ) (text y : List ℕ) (upload : Upload)
        → Precedes config left before → ((m : Message) → Contains told m → IsRecorded config left found m)
        → StartsOver config left found told start → ReachesFrom config start tail.sent tail.steps recovered seats
        → IsTextOf text upload → IsStep before.steps i (AsksOutcome k text) (Outcome (applied number))
        → number ≤ version → IsStep tail.steps j (Get l upload.table version) (Answer y)
        → (1 ≤ number) × StandsIn upload.table y version number upload }
    ensures same { (config : AgreementConfig) (left start seats : ℕ → UpOrDown) (before tail : History) (found : ℕ → Bool)
        (told : List Message) (recovered : List Bool) (i j k l version : ℕ) (table x y : List ℕ)
        → Precedes config left before → ((m : Message) → Contains told m → IsRecorded config left found m)
        → StartsOver config left found told start → ReachesFrom config start tail.sent tail.steps recovered seats
        → IsStep before.steps i (Get k table version) (Answer x) → IsStep tail.steps j (Get l table version) (Answer y)
        → x ≡ y }
{
    a_process_may_start_over();
    acknowledgements_outlast();
}
