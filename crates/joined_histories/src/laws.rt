//! Laws of histories that are told in two parts.

ghost use Rattle.std.specs.Prelude.{◌≡◌, ◌⊎◌, ◌↔◌, ℕ, ◌<◌, ◌≤◌, Bool, false, List, [], ◌++◌, Some, slice_get};
ghost use Rattle.ballots.specs.declared.value.Value.{Value};
ghost use Rattle.ballots.specs.declared.message.Message.{Message};
ghost use Rattle.lawful_histories.specs.Lawful.{IsLawful};
ghost use Rattle.table_types.specs.Uploads.{Upload};
ghost use Rattle.table_types.specs.Tables.{applied};
ghost use Rattle.agreement_rules.specs.Views.{AgreementConfig, Views, HasPrefix};
ghost use Rattle.histories.specs.Texts.{IsTextOf};
ghost use Rattle.histories.specs.History.{Step, History};
ghost use Rattle.histories.specs.Event.{Get, Outcome as AsksOutcome};
ghost use Rattle.histories.specs.EventResult.{EventResult, Answer, Outcome, Refused, OutOfMemory};
ghost use Rattle.histories.specs.Following.{UpOrDown, IsUp, at_first, ReachesFrom, Follows};
ghost use Rattle.safe_histories.specs.Learning.{brings_up, brings_down, Runs, HasLearnedPrefix};
ghost use Rattle.safe_histories.specs.Safe.{IsStep, SameTicketSameBytes, AcknowledgedStandsOnce, IsSafe, StandsIn};
ghost use Rattle.joined_histories.specs.Joined.{joined, Precedes};

use histories::laws::what_follows_still_follows;
use safe_histories::laws::{fresh_answers, prefix_is_shown, replicas_agree, up_is_shown};

/// A history that begins with one that went before, and goes on with a tail from where that left the nodes, follows their
/// rules, and leaves the nodes where the tail does. So it may go before another tail in turn: histories of any number of
/// parts are joined so.
pub fn joined_histories_follow()
    ensures precedes { (config : AgreementConfig) (start seats : ℕ → UpOrDown) (before tail : History) (recovered : List Bool)
        → Precedes config start before → ReachesFrom config start tail.sent tail.steps recovered seats
        → Precedes config seats (joined before tail) }
    ensures follows { (config : AgreementConfig) (start seats : ℕ → UpOrDown) (before tail : History) (recovered : List Bool)
        → Precedes config start before → ReachesFrom config start tail.sent tail.steps recovered seats
        → Follows (joined before tail) }
{
    what_follows_still_follows();
}

/// Where nothing went before, nodes start with nothing; and what is joined behind nothing is the tail itself.
pub fn nothing_precedes_the_start()
    ensures precedes { (config : AgreementConfig) → Precedes config at_first (record { config = config; sent = []; steps = [] }) }
    ensures joined { (tail : History) → joined (record { config = tail.config; sent = []; steps = [] }) tail ≡ tail }
{}

/// Both parts together are lawful, and clients may rely on what was answered in either.
pub fn joined_replicas_agree()
    ensures lawful { (config : AgreementConfig) (start seats : ℕ → UpOrDown) (before tail : History) (recovered : List Bool)
        → Precedes config start before → ReachesFrom config start tail.sent tail.steps recovered seats
        → IsLawful config.members (before.sent ++ tail.sent) }
    ensures safe { (config : AgreementConfig) (start seats : ℕ → UpOrDown) (before tail : History) (recovered : List Bool)
        → Precedes config start before → ReachesFrom config start tail.sent tail.steps recovered seats
        → IsSafe (joined before tail) }
{
    joined_histories_follow();
    replicas_agree();
}

/// What was acknowledged before outlasts it: an upload that was told to be applied as a version stands at that version's
/// place, and nowhere else, in every answer of the tail to a ticket of its table for that version or a later one. And a ticket
/// that was answered before has the same bytes in the tail.
pub fn acknowledgements_outlast()
    ensures stands { (config : AgreementConfig) (start seats : ℕ → UpOrDown) (before tail : History) (recovered : List Bool)
        (i j k l number version : ℕ) (text y : List ℕ) (upload : Upload) → Precedes config start before
        → ReachesFrom config start tail.sent tail.steps recovered seats → IsTextOf text upload
        → IsStep before.steps i (AsksOutcome k text) (Outcome (applied number)) → number ≤ version
        → IsStep tail.steps j (Get l upload.table version) (Answer y)
        → (1 ≤ number) × StandsIn upload.table y version number upload }
    ensures same { (config : AgreementConfig) (start seats : ℕ → UpOrDown) (before tail : History) (recovered : List Bool)
        (i j k l version : ℕ) (table x y : List ℕ) → Precedes config start before
        → ReachesFrom config start tail.sent tail.steps recovered seats
        → IsStep before.steps i (Get k table version) (Answer x)
        → IsStep tail.steps j (Get l table version) (Answer y) → x ≡ y }
{
    joined_replicas_agree();
}

/// What was answered in the tail alone keeps what clients may rely on: two answers to one ticket have equal bytes; and an
/// upload that was told there to be applied as a version stands once in each answer that is to have it.
pub fn tails_are_safe()
    ensures tickets { (config : AgreementConfig) (start seats : ℕ → UpOrDown) (before tail : History) (recovered : List Bool)
        → Precedes config start before → ReachesFrom config start tail.sent tail.steps recovered seats
        → SameTicketSameBytes tail.steps }
    ensures acknowledged { (config : AgreementConfig) (start seats : ℕ → UpOrDown) (before tail : History) (recovered : List Bool)
        → Precedes config start before → ReachesFrom config start tail.sent tail.steps recovered seats
        → AcknowledgedStandsOnce tail.steps }
{
    joined_replicas_agree();
}

/// A node that told in the tail that an upload was applied as a version answers each later ticket for that version or an
/// earlier one, as long as it neither goes down nor is restarted. Memory for the answer may be refused.
pub fn fresh_tails_answer()
    ensures { (config : AgreementConfig) (start seats : ℕ → UpOrDown) (before tail : History) (recovered : List Bool)
        (i j node number version : ℕ) (text : List ℕ) (upload : Upload) (given : EventResult)
        → Precedes config start before → ReachesFrom config start tail.sent tail.steps recovered seats
        → IsTextOf text upload → IsStep tail.steps i (AsksOutcome node text) (Outcome (applied number)) → i < j
        → ((k : ℕ) (step : Step) → i < k → k < j → slice_get tail.steps k ≡ Some step
        → (brings_up node step ≡ false) × (brings_down node step ≡ false)) → version ≤ number
        → IsStep tail.steps j (Get node upload.table version) given
        → ((bytes : List ℕ) × (given ≡ Answer bytes)) ⊎ (given ≡ Refused OutOfMemory) }
{
    joined_histories_follow();
    fresh_answers();
}

/// A member is up, where the tail leaves it, exactly where both parts together show that it runs; and its prefix is the one
/// that they show.
pub fn joined_histories_show()
    ensures up { (config : AgreementConfig) (start seats : ℕ → UpOrDown) (before tail : History) (recovered : List Bool) (node : ℕ)
        → Precedes config start before → ReachesFrom config start tail.sent tail.steps recovered seats
        → node < config.members
        → ((views : Views) × (seats node ≡ IsUp views)) ↔ Runs node (joined before tail).steps }
    ensures prefix { (config : AgreementConfig) (start seats : ℕ → UpOrDown) (before tail : History) (recovered : List Bool)
        (node : ℕ) (views : Views) (values : List Value) → Precedes config start before
        → ReachesFrom config start tail.sent tail.steps recovered seats → node < config.members
        → seats node ≡ IsUp views
        → HasPrefix config.members views.learner_calls values
        ↔ HasLearnedPrefix config.members (joined before tail).sent (joined before tail).steps node values }
{
    joined_histories_follow();
    up_is_shown();
    prefix_is_shown();
}
