//! What a crash leaves of a node, told as a history.

ghost use Rattle.std.specs.Prelude.{◌≡◌, ℕ, ◌<◌, Bool, false, Option, List, [], ◌∷◌, Result};
ghost use Rattle.ballots.specs.declared.message.Message.{Message};
ghost use Rattle.ballots.specs.declared.record.Record.{Record};
ghost use Rattle.stable_records.specs.declared.fault.StoreFault.{StoreFault};
ghost use Rattle.stable_records.specs.Found.{Found, FindsOnly, IsWithOrWithout};
ghost use Rattle.stable_records.specs.Calls.{LeftInKeep};
ghost use Rattle.stable_records.specs.Moments.{AnyCrashLeaves};
ghost use Rattle.agreement_rules.specs.Views.{AgreementConfig, Views};
ghost use Rattle.histories.specs.Due.{Input, InputKeeps};
ghost use Rattle.histories.specs.Event.{Event};
ghost use Rattle.histories.specs.History.{Step};
ghost use Rattle.histories.specs.Following.{UpOrDown, IsUp, Reaches};
ghost use Rattle.node_core.specs.Reopening.{IsCutOf, MayBeLeft, done, IsKeptThrough};

use histories::laws::{a_member_steps_alone, one_step_more_reaches, records_are_kept};
use stable_records::Stable;

/// A crash at any moment of a step is a cut of it (Lamport, *Paxos Made Simple*, section 2.5). Of a node that a history
/// leaves up, and whose store has its records, a crash in a tick or a delivery leaves the records that the node kept in
/// this history with that step cut, and with a restart behind it that recovered the record that was due, or did not. A
/// node that [`crate::Node::reopen`] opens from them stands as that history leaves it, so all that holds of histories
/// holds of it.
///
/// `between` says the same of a crash in a put, which keeps no record, and of one between two inputs: a restart alone goes
/// behind. `left` says that each store's own promise of a keep is enough for this: whatever the keep would have answered, a
/// crash at any moment of it leaves the records with the new one or without.
pub fn a_crash_is_a_cut<S: Stable>()
    ensures within { (config : AgreementConfig) (sent : List Message) (steps : List Step) (recovered : List Bool) (seats : ℕ → UpOrDown)
        (node : ℕ) (views : Views) (cut : Event) (asked : Input) (due : Option Record) (store : S) (found : Found)
        → node < config.members → Reaches config sent steps recovered seats → seats node ≡ IsUp views
        → IsCutOf sent node cut asked → InputKeeps config node views asked due → FindsOnly (S.finds store) views.records
        → MayBeLeft due (S.finds store) found
        → IsKeptThrough config sent steps (done cut ∷ []) recovered (false ∷ []) seats node found }
    ensures between { (config : AgreementConfig) (sent : List Message) (steps : List Step) (recovered : List Bool)
        (seats : ℕ → UpOrDown) (node : ℕ) (views : Views) (store : S) (found : Found) → node < config.members
        → Reaches config sent steps recovered seats → seats node ≡ IsUp views
        → FindsOnly (S.finds store) views.records → S.finds store found
        → IsKeptThrough config sent steps [] recovered [] seats node found }
    ensures left { (old new : S) (last : Record) (answer : Result (Unit {0}) StoreFault) (found : Found)
        → AnyCrashLeaves S.moment S.finds_since old new (LeftInKeep last answer (S.finds old))
        → S.finds_since new (S.moment old) found → IsWithOrWithout last (S.finds old) found }
{
    a_member_steps_alone();
    one_step_more_reaches();
    records_are_kept();
}
