//! Laws of histories that follow the rules of the nodes.

ghost use Rattle.std.specs.Prelude.{◌≡◌, ◌⊎◌, ◌↔◌, ℕ, ◌-◌, ◌<◌, ◌≤◌, Bool, List, [], ◌∷◌, ◌++◌, length, take, slice_get, Some, None, false};
ghost use Rattle.std.specs.List.{Contains};
ghost use Rattle.ballots.specs.declared.value.Value.{Value};
ghost use Rattle.ballots.specs.declared.message.Message.{Message};
ghost use Rattle.lawful_histories.specs.Lawful.{IsLawful};
ghost use Rattle.table_types.specs.Uploads.{Upload, upload_text};
ghost use Rattle.table_types.specs.Valid.{IsUpload};
ghost use Rattle.table_types.specs.Tables.{Version, version_of, effective, shape_text, applied, outcome_of};
ghost use Rattle.table_types.specs.Answers.{answer_of};
ghost use Rattle.agreement_rules.specs.Views.{AgreementConfig, Views, HasPrefix};
ghost use Rattle.histories.specs.Texts.{IsTextOf, AreUploadsOf};
ghost use Rattle.histories.specs.Due.{Waits, IsKnown};
ghost use Rattle.histories.specs.History.{Step, History};
ghost use Rattle.histories.specs.Event.{node_of, Put, Get, Info as AsksInfo, Outcome as AsksOutcome};
ghost use Rattle.histories.specs.EventResult.{EventResult, Done, Answer, Unavailable, Info, NoTable, Outcome, Refused, Down, NotSent, OutOfMemory, OutOfRange};
ghost use Rattle.histories.specs.Owning.{number_in};
ghost use Rattle.histories.specs.Following.{UpOrDown, IsUp, GetGives, InfoGives, OutcomeGives, Reaches, Follows};
ghost use Rattle.safe_histories.specs.Learning.{is_restart_of, brings_up, brings_down, Runs, sent_before, HasLearnedPrefix, HasTables};
ghost use Rattle.safe_histories.specs.Safe.{IsStep, IsSafe};

use decided_log::laws::asked_is_a_run_of_the_prefix;
use histories::laws::what_follows_is_lawful;
use lawful_histories::laws::{decided_is_one, one_value};
use learner::laws::learned_is_decided_or_chosen;
use proposer::laws::{choices_are_one, majorities_are_of_members, senders_count_once};
use table_types::laws::{
    tables_grow, tables_have_one_shape, uploads_count_once, uploads_have_one_encoding,
};

/// A list of texts is that of one list of uploads; and where one list of texts begins another, its uploads begin the
/// other's.
pub fn texts_have_one_list_of_uploads()
    ensures one { (texts : List (List ℕ)) (x y : List Upload) → AreUploadsOf texts x → AreUploadsOf texts y → x ≡ y }
    ensures begins { (texts more : List (List ℕ)) (x y : List Upload) → AreUploadsOf texts x
        → AreUploadsOf (texts ++ more) y → (rest : List Upload) × (y ≡ x ++ rest) }
{
    uploads_have_one_encoding();
}

/// Of the prefixes that any two nodes have learned of one lawful history, at any two times, one begins the other.
pub fn prefixes_begin_one_another()
    ensures { (members : ℕ) (sent : List Message) (steps later : List Step) (node other : ℕ) (xs ys : List Value)
        → IsLawful members sent → HasLearnedPrefix members sent steps node xs
        → HasLearnedPrefix members sent later other ys
        → ((rest : List Value) × (ys ≡ xs ++ rest)) ⊎ ((rest : List Value) × (xs ≡ ys ++ rest)) }
{
    one_value();
    decided_is_one();
}

/// A member refuses as one that is down exactly where the history shows that it does not run: then all but a restart, and
/// else nothing. Who is no member is refused everything.
pub fn running_is_shown()
    ensures down { (history : History) (place : ℕ) (step : Step) → Follows history
        → slice_get history.steps place ≡ Some step → node_of step.event < history.config.members
        → (Runs (node_of step.event) (take place history.steps) → ⊥)
        → is_restart_of (node_of step.event) step.event ≡ false → step.result ≡ Refused Down }
    ensures up { (history : History) (place : ℕ) (step : Step) → Follows history
        → slice_get history.steps place ≡ Some step → node_of step.event < history.config.members
        → Runs (node_of step.event) (take place history.steps) → step.result ≡ Refused Down → ⊥ }
    ensures strangers { (history : History) (place : ℕ) (step : Step) → Follows history
        → slice_get history.steps place ≡ Some step → history.config.members ≤ node_of step.event
        → step.result ≡ Refused OutOfRange }
{}

/// A member is up, where a history leaves it, exactly where the history shows that it runs.
pub fn up_is_shown()
    ensures { (config : AgreementConfig) (sent : List Message) (steps : List Step) (recovered : List Bool) (seats : ℕ → UpOrDown)
        (node : ℕ) → node < config.members → Reaches config sent steps recovered seats
        → ((views : Views) × (seats node ≡ IsUp views)) ↔ Runs node steps }
{}

/// The prefix of a member that is up is the one that the history shows: what its learner has learned of its calls is what
/// the messages say that were delivered to it since its last restart.
pub fn prefix_is_shown()
    ensures { (config : AgreementConfig) (sent : List Message) (steps : List Step) (recovered : List Bool) (seats : ℕ → UpOrDown)
        (node : ℕ) (views : Views) (values : List Value) → node < config.members
        → Reaches config sent steps recovered seats → seats node ≡ IsUp views
        → HasPrefix config.members views.learner_calls values
        ↔ HasLearnedPrefix config.members sent steps node values }
{
    what_follows_is_lawful();
    one_value();
    decided_is_one();
    learned_is_decided_or_chosen();
}

/// A step is refused as not sent exactly where it hands a message to a member that runs, or is the cut of that, and no
/// message of this number was sent before: so many of them were, from 0 on, as the steps before tell.
pub fn not_sent_is_exact()
    ensures { (history : History) (place : ℕ) (step : Step) → Follows history
        → slice_get history.steps place ≡ Some step
        → (step.result ≡ Refused NotSent) ↔ ((number : ℕ) × (number_in step.event ≡ Some number)
        × (node_of step.event < history.config.members) × Runs (node_of step.event) (take place history.steps)
        × (sent_before (take place history.steps) ≤ number)) }
{}

/// A put that a node took is not forgotten: the upload waits there, or what has become of it is known there.
pub fn puts_are_remembered()
    ensures { (config : AgreementConfig) (sent : List Message) (steps : List Step) (recovered : List Bool) (seats : ℕ → UpOrDown)
        (node : ℕ) (text : List ℕ)
        → Reaches config sent (steps ++ (record { event = Put node text; result = Done }) ∷ []) recovered seats
        → (views : Views) × (seats node ≡ IsUp views)
        × (Waits views text ⊎ IsKnown config views.learner_calls text) }
{}

/// A node that told that an upload was applied as a version answers each ticket for that version or an earlier one, as
/// long as it neither goes down nor is restarted: it has learned no less. Memory for the answer may be refused.
pub fn fresh_answers()
    ensures { (history : History) (i j node number version : ℕ) (text : List ℕ) (upload : Upload) (given : EventResult)
        → Follows history → IsTextOf text upload
        → IsStep history.steps i (AsksOutcome node text) (Outcome (applied number)) → i < j
        → ((k : ℕ) (step : Step) → i < k → k < j → slice_get history.steps k ≡ Some step
        → (brings_up node step ≡ false) × (brings_down node step ≡ false)) → version ≤ number
        → IsStep history.steps j (Get node upload.table version) given
        → ((bytes : List ℕ) × (given ≡ Answer bytes)) ⊎ (given ≡ Refused OutOfMemory) }
{
    what_follows_is_lawful();
    uploads_have_one_encoding();
    tables_grow();
    uploads_count_once();
    one_value();
    decided_is_one();
    learned_is_decided_or_chosen();
}

/// What a lawful history shows of a node at one time is one prefix, and one list of uploads that its tables are of.
pub fn shown_tables_are_one()
    ensures prefix { (members : ℕ) (sent : List Message) (steps : List Step) (node : ℕ) (xs ys : List Value)
        → IsLawful members sent → HasLearnedPrefix members sent steps node xs
        → HasLearnedPrefix members sent steps node ys → xs ≡ ys }
    ensures tables { (members : ℕ) (sent : List Message) (steps : List Step) (node : ℕ) (x y : List Upload)
        → IsLawful members sent → HasTables members sent steps node x → HasTables members sent steps node y → x ≡ y }
{
    uploads_have_one_encoding();
    one_value();
    decided_is_one();
}

/// Tables give one answer to each query.
pub fn answers_are_one()
    ensures get { (uploads : List Upload) (table : List ℕ) (version : ℕ) (a b : EventResult)
        → GetGives uploads table version a → GetGives uploads table version b → a ≡ b }
    ensures info { (uploads : List Upload) (table : List ℕ) (a b : EventResult)
        → InfoGives uploads table a → InfoGives uploads table b → a ≡ b }
    ensures outcome { (uploads : List Upload) (text : List ℕ) (a b : EventResult)
        → OutcomeGives uploads text a → OutcomeGives uploads text b → a ≡ b }
{
    uploads_have_one_encoding();
}

/// The version that is told to be the latest of a table is answered, and no later one is; and no version is answered
/// of a table that is told to be none.
pub fn info_tells_the_latest()
    ensures latest { (uploads : List Upload) (table : List ℕ) (number : ℕ) → InfoGives uploads table (Info number)
        → (bytes : List ℕ) × GetGives uploads table number (Answer bytes) }
    ensures last { (uploads : List Upload) (table : List ℕ) (number version : ℕ) (given : EventResult)
        → InfoGives uploads table (Info number) → number < version → GetGives uploads table version given
        → given ≡ Unavailable }
    ensures none { (uploads : List Upload) (table : List ℕ) (version : ℕ) (given : EventResult)
        → InfoGives uploads table NoTable → GetGives uploads table version given → given ≡ Unavailable }
{}

/// In an answer to a ticket of its table, for the version as which it was told to be applied or a later one, an upload
/// stands at that version's place, among as many uploads as the ticket says; and whatever upload of that answer has its
/// name stands there. The answer's schema is that of its first upload; and its uploads are such as are taken, to that
/// table, and of one shape.
pub fn acknowledged_uploads_have_their_place()
    ensures place { (history : History) (i j node other number version : ℕ) (text y : List ℕ) (upload : Upload)
        → IsSafe history → IsTextOf text upload
        → IsStep history.steps i (AsksOutcome node text) (Outcome (applied number)) → number ≤ version
        → IsStep history.steps j (Get other upload.table version) (Answer y)
        → (found : Version) × (y ≡ answer_of found) × (length found.uploads ≡ version) × (1 ≤ number)
        × (slice_get found.uploads (number - 1) ≡ Some upload)
        × ((place : ℕ) (one : Upload) → slice_get found.uploads place ≡ Some one → one.id ≡ upload.id
        → place ≡ number - 1) }
    ensures shape { (history : History) (i j node other number version : ℕ) (text y : List ℕ) (upload : Upload)
        → IsSafe history → IsTextOf text upload
        → IsStep history.steps i (AsksOutcome node text) (Outcome (applied number)) → number ≤ version
        → IsStep history.steps j (Get other upload.table version) (Answer y)
        → (found : Version) × (y ≡ answer_of found)
        × ((first : Upload) → slice_get found.uploads 0 ≡ Some first → found.schema ≡ first.schema)
        × ((place : ℕ) (one : Upload) → slice_get found.uploads place ≡ Some one
        → IsUpload one × (one.table ≡ upload.table) × (shape_text one ≡ shape_text upload)) }
{
    tables_have_one_shape();
}

/// A member that runs answers each query from the tables of its prefix: a ticket with the version that these have, or
/// that there is none; the latest version of a table by the number of its effective uploads; and always what has become
/// of an upload. Memory may be refused for the first two alone, where there is an answer.
pub fn running_members_answer()
    ensures get { (history : History) (place node version : ℕ) (table : List ℕ) (given : EventResult) → IsSafe history
        → node < history.config.members → Runs node (take place history.steps)
        → IsStep history.steps place (Get node table version) given
        → (uploads : List Upload)
        × HasTables history.config.members history.sent (take place history.steps) node uploads
        × (((found : Version) × (version_of table version uploads ≡ Some found)
        × ((given ≡ Answer (answer_of found)) ⊎ (given ≡ Refused OutOfMemory)))
        ⊎ ((version_of table version uploads ≡ None) × (given ≡ Unavailable))) }
    ensures info { (history : History) (place node : ℕ) (table : List ℕ) (given : EventResult) → IsSafe history
        → node < history.config.members → Runs node (take place history.steps)
        → IsStep history.steps place (AsksInfo node table) given
        → (uploads : List Upload)
        × HasTables history.config.members history.sent (take place history.steps) node uploads
        × (((0 < length (effective table uploads))
        × ((given ≡ Info (length (effective table uploads))) ⊎ (given ≡ Refused OutOfMemory)))
        ⊎ ((effective table uploads ≡ []) × (given ≡ NoTable))) }
    ensures outcome { (history : History) (place node : ℕ) (text : List ℕ) (given : EventResult) → IsSafe history
        → node < history.config.members → Runs node (take place history.steps)
        → IsStep history.steps place (AsksOutcome node text) given
        → (uploads : List Upload) × (upload : Upload)
        × HasTables history.config.members history.sent (take place history.steps) node uploads
        × IsTextOf text upload × (given ≡ Outcome (outcome_of uploads upload)) }
{}

/// All uploads of an answer of a member that runs were put before, each at some node that took it.
pub fn answers_were_put()
    ensures { (history : History) (place node version : ℕ) (table bytes : List ℕ) → IsSafe history
        → node < history.config.members → Runs node (take place history.steps)
        → IsStep history.steps place (Get node table version) (Answer bytes)
        → (found : Version) × (bytes ≡ answer_of found) × ((upload : Upload) → Contains found.uploads upload
        → (earlier : ℕ) × (other : ℕ) × (earlier < place)
        × IsStep history.steps earlier (Put other (upload_text upload)) Done) }
{}

/// What clients may rely on, at any nodes that follow the rules and at any times: answers to one ticket have the same
/// bytes; an upload that was told to be applied stands once in each later version, at its place; a node that is up
/// answers from the tables of its prefix; and what it serves was put before.
pub fn what_follows_is_safe()
    ensures { (history : History) → Follows history → IsLawful history.config.members history.sent → IsSafe history }
{
    uploads_have_one_encoding();
    tables_grow();
    uploads_count_once();
    one_value();
    decided_is_one();
    learned_is_decided_or_chosen();
    choices_are_one();
    senders_count_once();
    majorities_are_of_members();
    asked_is_a_run_of_the_prefix();
}

/// Replicas agree: in every history of nodes that follow their rules, whatever its list of deliveries, losses, repeats,
/// reorderings, cuts and restarts, messages are lawful, and any two answers to one ticket have equal bytes; an upload
/// that was told to be applied as a version stands at that version's place, and nowhere else, in every answer to a
/// ticket of its table for that version or a later one, at whatever node and time; a member that runs answers from the
/// tables of its prefix; and what is served was put before.
pub fn replicas_agree()
    ensures lawful { (history : History) → Follows history → IsLawful history.config.members history.sent }
    ensures safe { (history : History) → Follows history → IsSafe history }
{
    what_follows_is_lawful();
    what_follows_is_safe();
}
