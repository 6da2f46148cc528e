//! Laws of histories whose nodes follow their rules.

ghost use Rattle.std.specs.Prelude.{◌≡◌, ◌≢◌, ℕ, ◌<◌, Bool, List, [], ◌∷◌, ◌++◌, length};
ghost use Rattle.ballots.specs.declared.message.Message.{Message};
ghost use Rattle.ballots.specs.declared.record.Record.{Record};
ghost use Rattle.std.specs.List.{Contains};
ghost use Rattle.learner.specs.Calls.{LearnerCall, slot_of};
ghost use Rattle.lawful_histories.specs.Lawful.{IsLawful};
ghost use Rattle.histories.specs.Texts.{IsUploadText};
ghost use Rattle.histories.specs.History.{Step, History};
ghost use Rattle.histories.specs.Event.{Event, node_of};
ghost use Rattle.histories.specs.EventResult.{EventResult, Refused, OutOfMemory, count_of};
ghost use Rattle.agreement_rules.specs.Views.{AgreementConfig, Views, started_with};
ghost use Rattle.agreement_rules.specs.Due.{Due};
ghost use Rattle.histories.specs.Due.{Input, IsDue, IsWellFormed};
ghost use Rattle.histories.specs.Following.{UpOrDown, IsUp, NodeGives, IsAsked, StepFollows, ReachesFrom, Reaches, with_seat, Follows};
ghost use Rattle.histories.specs.Owning.{OwnEntry, entries_of, own, Leads, OwnReaches};
ghost use Rattle.histories.specs.Keeping.{AreKept, records_in};

use agreement_rules::laws::{
    due_is_one as part_is_one, messages_are_told_to_their_part, plans_keep_what_they_send,
    prefixes_are_one, something_is_due as part_owes_something,
};
use decided_log::laws::asked_is_a_run_of_the_prefix;
use learner::laws::learned_is_decided_or_chosen;
use proposer::laws::{
    answers_are_one, attempts_open_and_end, choices_are_one, majorities_are_of_members,
};
use table_types::laws::{texts_hold_one_list_of_uploads, uploads_have_one_encoding};

/// What is due to an input is one thing, by what the node has: one refusal, or one plan.
pub fn due_is_one()
    ensures { (config : AgreementConfig) (me : ℕ) (views : Views) (input : Input) (a b : Due)
        → IsDue config me views input a → IsDue config me views input b → a ≡ b }
{
    part_is_one();
    prefixes_are_one();
    texts_hold_one_list_of_uploads();
    uploads_have_one_encoding();
}

/// It cannot be that nothing is due to an input, where a history left the node as it is: an upload that a client hands in,
/// a tick, or any message.
pub fn something_is_due()
    ensures { (config : AgreementConfig) (sent : List Message) (steps : List Step) (recovered : List Bool) (seats : ℕ → UpOrDown)
        (node : ℕ) (views : Views) (input : Input) → Reaches config sent steps recovered seats
        → seats node ≡ IsUp views → IsWellFormed input
        → ((due : Due) → IsDue config node views input due → ⊥) → ⊥ }
{
    part_owes_something();
    messages_are_told_to_their_part();
    learned_is_decided_or_chosen();
}

/// A history in which nothing happened follows the rules.
pub fn nothing_follows()
    ensures { (config : AgreementConfig) → Follows (record { config = config; sent = []; steps = [] }) }
{}

/// Whatever happens, nodes that follow their rules send what Paxos allows: whichever messages are lost, repeated or
/// late, and whichever nodes go down, behind a record or before it, and start again (Lamport, *Paxos Made Simple*,
/// section 2).
pub fn what_follows_is_lawful()
    ensures { (history : History) → Follows history → IsLawful history.config.members history.sent }
{
    choices_are_one();
    attempts_open_and_end();
    answers_are_one();
    majorities_are_of_members();
    learned_is_decided_or_chosen();
    asked_is_a_run_of_the_prefix();
}

/// A step that follows still follows when more messages are sent later: what is due to a node is asked of what was sent
/// before the step, and of what it sends itself. So what a run has shown of its steps stays true while it goes on.
pub fn what_follows_still_follows()
    ensures { (config : AgreementConfig) (sent more : List Message) (next : ℕ) (old new : ℕ → UpOrDown) (step : Step) (recovered : Bool)
        → StepFollows config sent next old step recovered new → StepFollows config (sent ++ more) next old step recovered new }
{}

/// What a member's node gives, by its own views, is a step of all nodes that leaves the others as they are.
pub fn a_member_steps_alone()
    ensures { (config : AgreementConfig) (sent : List Message) (next : ℕ) (seats : ℕ → UpOrDown) (step : Step) (recovered : Bool)
        (seat : UpOrDown) → node_of step.event < config.members
        → NodeGives config sent next recovered (seats (node_of step.event)) step.event step.result seat
        → StepFollows config sent next seats step recovered (with_seat seats (node_of step.event) seat) }
{}

/// Where nothing has happened, every node is as it started.
pub fn nothing_reaches_the_start()
    ensures { (config : AgreementConfig) (start : ℕ → UpOrDown) → ReachesFrom config start [] [] [] start }
{}

/// One step more goes on from where the steps before have come to: it follows them, behind all messages that were sent
/// before, and sends the rest. With this a run of nodes keeps what it has come to while events come.
pub fn one_step_more_reaches()
    ensures { (config : AgreementConfig) (start : ℕ → UpOrDown) (sent more : List Message) (steps : List Step)
        (recovered : List Bool) (seats new : ℕ → UpOrDown) (step : Step) (was : Bool)
        → ReachesFrom config start sent steps recovered seats
        → StepFollows config (sent ++ more) (length sent) seats step was new → IsAsked step.event was
        → length more ≡ count_of step.result
        → ReachesFrom config start (sent ++ more) (steps ++ step ∷ []) (recovered ++ was ∷ []) new }
{}

/// With a step more a node's own entries are those of before, and behind them the step's, if it concerns the node: what is
/// sent later changes none of them. So a node can hold its entries by itself, and compare them with the history's.
pub fn own_entries_grow()
    ensures { (config : AgreementConfig) (start : ℕ → UpOrDown) (sent more : List Message) (steps : List Step)
        (recovered : List Bool) (seats : ℕ → UpOrDown) (step : Step) (was : Bool) (node : ℕ) → node < config.members
        → ReachesFrom config start sent steps recovered seats
        → own node (sent ++ more) (steps ++ step ∷ []) (recovered ++ was ∷ [])
        ≡ own node sent steps recovered ++ entries_of node (sent ++ more) step was }
{}

/// Where a history leaves a member, its own entries leave it too: what it does is by what it was given, and by nothing
/// that the history has besides.
pub fn own_entries_leave_the_node()
    ensures { (config : AgreementConfig) (start : ℕ → UpOrDown) (sent : List Message) (steps : List Step) (recovered : List Bool)
        (seats : ℕ → UpOrDown) (node : ℕ) → node < config.members → ReachesFrom config start sent steps recovered seats
        → OwnReaches config (start node) (own node sent steps recovered) (seats node) }
{}

/// A history that leaves a member in one way may as well leave it in each way that the member's own entries do, with all
/// other nodes as they are. So a node that holds its own entries goes on with what they left it, whatever a history that
/// has the same entries would have left it.
pub fn own_entries_decide_the_node()
    ensures { (config : AgreementConfig) (start : ℕ → UpOrDown) (sent : List Message) (steps : List Step) (recovered : List Bool)
        (seats : ℕ → UpOrDown) (node : ℕ) (seat : UpOrDown) → node < config.members
        → ReachesFrom config start sent steps recovered seats
        → OwnReaches config (start node) (own node sent steps recovered) seat
        → ReachesFrom config start sent steps recovered (with_seat seats node seat) }
{}

/// Where a history leaves a node up, its learner was called for slots below the limit alone, and what waits there are
/// uploads.
pub fn views_are_of_the_configuration()
    ensures slots { (config : AgreementConfig) (sent : List Message) (steps : List Step) (recovered : List Bool)
        (seats : ℕ → UpOrDown) (node : ℕ) (views : Views) (call : LearnerCall) → Reaches config sent steps recovered seats
        → seats node ≡ IsUp views → Contains views.learner_calls call → slot_of call < config.slot_limit }
    ensures waiting { (config : AgreementConfig) (sent : List Message) (steps : List Step) (recovered : List Bool)
        (seats : ℕ → UpOrDown) (node : ℕ) (views : Views) (text : List ℕ) → Reaches config sent steps recovered seats
        → seats node ≡ IsUp views → Contains views.waiting text → IsUploadText text }
{
    messages_are_told_to_their_part();
}

/// The records that a history leaves a member are those that it kept (Lamport, *Paxos Made Simple*, section 2.5): of each
/// message that it sent the one behind the message, and of each cut the one that was due there, where the restart behind
/// the cut recovered it. So they follow from the member's own entries, with their yes or no at each restart.
pub fn records_are_kept()
    ensures { (config : AgreementConfig) (sent : List Message) (steps : List Step) (recovered : List Bool) (seats : ℕ → UpOrDown)
        (node : ℕ) → node < config.members → Reaches config sent steps recovered seats
        → AreKept config (IsUp (started_with [])) (own node sent steps recovered) (records_in (seats node)) }
{
    plans_keep_what_they_send();
}

/// What a step gives a node is one thing, unless memory is refused; and whatever it gives, it leaves the node in one way. So
/// the steps of a history, and the node's own entries too, leave a node as they do, and in no other way.
pub fn steps_are_one()
    ensures given { (config : AgreementConfig) (sent : List Message) (next : ℕ) (recovered : Bool) (old new other : UpOrDown) (event : Event)
        (x y : EventResult) → x ≢ Refused OutOfMemory → y ≢ Refused OutOfMemory
        → NodeGives config sent next recovered old event x new → NodeGives config sent next recovered old event y other
        → x ≡ y }
    ensures left { (config : AgreementConfig) (sent : List Message) (next : ℕ) (recovered : Bool) (old new other : UpOrDown) (event : Event)
        (x : EventResult) → NodeGives config sent next recovered old event x new
        → NodeGives config sent next recovered old event x other → new ≡ other }
    ensures entries { (config : AgreementConfig) (old new other : UpOrDown) (entry : OwnEntry) → Leads config old entry new
        → Leads config old entry other → new ≡ other }
{
    part_is_one();
    prefixes_are_one();
    texts_hold_one_list_of_uploads();
    uploads_have_one_encoding();
}

/// The records that a node's entries made it keep are one list: each message that it sent has its own record, a cut in doubt
/// the one that was due there, and nothing else leaves any (Lamport, *Paxos Made Simple*, section 2.5).
pub fn kept_records_are_one()
    ensures { (config : AgreementConfig) (seat : UpOrDown) (entries : List OwnEntry) (a b : List Record) → AreKept config seat entries a
        → AreKept config seat entries b → a ≡ b }
{
    part_is_one();
    prefixes_are_one();
    texts_hold_one_list_of_uploads();
    uploads_have_one_encoding();
}
