//! Laws of nodes that went down behind a record.

ghost use Rattle.std.specs.Prelude.{◌≡◌, ◌↔◌, ℕ, ◌<◌, ◌≤◌, Bool, Option, List};
ghost use Rattle.std.specs.List.{Contains};
ghost use Rattle.ballots.specs.Ballot.{Ballot};
ghost use Rattle.ballots.specs.Message.{message};
ghost use Rattle.ballots.specs.declared.acceptance.Acceptance.{Acceptance};
ghost use Rattle.ballots.specs.declared.record.Record.TheVariants.{Began, Promised, Accepted as HasAccepted};
ghost use Rattle.ballots.specs.declared.message.Message.{Message};
ghost use Rattle.ballots.specs.declared.message.Body.TheVariants.{Prepare, Promise, Accepted};
ghost use Rattle.agreement_rules.specs.Views.{AgreementConfig, Views};
ghost use Rattle.histories.specs.Event.{Put, Get, Info, Outcome};
ghost use Rattle.histories.specs.EventResult.{EventResult};
ghost use Rattle.histories.specs.History.{Step};
ghost use Rattle.histories.specs.Following.{UpOrDown, IsUp, recovered_in, Reaches};
ghost use Rattle.cut_histories.specs.Settling.{IsSaid, MayHaveSent};

use agreement_rules::laws::{plans_keep_what_they_send, replies_are_its_own};
use histories::laws::{a_member_steps_alone, one_step_more_reaches};

/// A cut may as well have sent. Whichever nodes went down behind a record, and whichever of these records were found
/// when the nodes started again, there is a history that leaves the nodes the same, and in which each message was sent
/// that a record of a member stands behind (Lamport, *Paxos Made Simple*, section 2.5). Of nodes that are down in the
/// end, `found` says whose record is found; in the other history none is in doubt.
pub fn a_cut_may_have_sent()
    ensures { (config : AgreementConfig) (sent : List Message) (steps : List Step) (recovered : List Bool) (seats : ℕ → UpOrDown)
        (found : ℕ → Bool) → Reaches config sent steps recovered seats → MayHaveSent config sent steps seats found }
{
    plans_keep_what_they_send();
    replies_are_its_own();
    a_member_steps_alone();
    one_step_more_reaches();
}

/// What that history leaves: each node starts again with the records that it starts with here, whatever is then said to
/// be recovered; one that is up is as it was, and so is who is no member. All that was sent here was sent there, and so
/// was the Accepted of each acceptance that a member has.
pub fn nodes_have_the_same_records()
    ensures records { (config : AgreementConfig) (sent : List Message) (steps : List Step) (seats : ℕ → UpOrDown) (found : ℕ → Bool)
        (other : MayHaveSent config sent steps seats found) (node : ℕ) (recovered : Bool)
        → recovered_in recovered (other.other_seats node) ≡ recovered_in (found node) (seats node) }
    ensures up { (config : AgreementConfig) (sent : List Message) (steps : List Step) (seats : ℕ → UpOrDown) (found : ℕ → Bool)
        (other : MayHaveSent config sent steps seats found) (node : ℕ) (views : Views) → seats node ≡ IsUp views
        → other.other_seats node ≡ IsUp views }
    ensures outside { (config : AgreementConfig) (sent : List Message) (steps : List Step) (seats : ℕ → UpOrDown) (found : ℕ → Bool)
        (other : MayHaveSent config sent steps seats found) (node : ℕ) → config.members ≤ node
        → other.other_seats node ≡ seats node }
    ensures sent { (config : AgreementConfig) (sent : List Message) (steps : List Step) (seats : ℕ → UpOrDown) (found : ℕ → Bool)
        (other : MayHaveSent config sent steps seats found) (m : Message) → Contains sent m
        → Contains other.other_sent m }
    ensures accepted { (config : AgreementConfig) (sent : List Message) (steps : List Step) (seats : ℕ → UpOrDown)
        (found : ℕ → Bool) (other : MayHaveSent config sent steps seats found) (node slot : ℕ) (told : Acceptance)
        → node < config.members → Contains (recovered_in (found node) (seats node)) (HasAccepted slot told)
        → Contains other.other_sent (message node slot (Accepted told)) }
{
    records_stand_behind_messages();
}

/// What clients handed in and asked there, and what they were answered, is the same.
pub fn clients_do_the_same()
    ensures put { (config : AgreementConfig) (sent : List Message) (steps : List Step) (seats : ℕ → UpOrDown) (found : ℕ → Bool)
        (other : MayHaveSent config sent steps seats found) (node : ℕ) (text : List ℕ) (given : EventResult)
        → Contains other.other_steps (record { event = Put node text; result = given })
        ↔ Contains steps (record { event = Put node text; result = given }) }
    ensures get { (config : AgreementConfig) (sent : List Message) (steps : List Step) (seats : ℕ → UpOrDown) (found : ℕ → Bool)
        (other : MayHaveSent config sent steps seats found) (node version : ℕ) (table : List ℕ) (given : EventResult)
        → Contains other.other_steps (record { event = Get node table version; result = given })
        ↔ Contains steps (record { event = Get node table version; result = given }) }
    ensures info { (config : AgreementConfig) (sent : List Message) (steps : List Step) (seats : ℕ → UpOrDown) (found : ℕ → Bool)
        (other : MayHaveSent config sent steps seats found) (node : ℕ) (table : List ℕ) (given : EventResult)
        → Contains other.other_steps (record { event = Info node table; result = given })
        ↔ Contains steps (record { event = Info node table; result = given }) }
    ensures outcome { (config : AgreementConfig) (sent : List Message) (steps : List Step) (seats : ℕ → UpOrDown) (found : ℕ → Bool)
        (other : MayHaveSent config sent steps seats found) (node : ℕ) (text : List ℕ) (given : EventResult)
        → Contains other.other_steps (record { event = Outcome node text; result = given })
        ↔ Contains steps (record { event = Outcome node text; result = given }) }
{}

/// An acceptance stands behind the Accepted that tells it, a promise behind a Promise of its ballot, and the begin of
/// an attempt behind its Prepare.
pub fn records_stand_behind_messages()
    ensures accepted { (sent : List Message) (node slot : ℕ) (told : Acceptance)
        → IsSaid sent node (HasAccepted slot told) ↔ Contains sent (message node slot (Accepted told)) }
    ensures promised { (sent : List Message) (node slot : ℕ) (ballot : Ballot) → IsSaid sent node (Promised slot ballot)
        ↔ ((report : Option Acceptance) × Contains sent (message node slot (Promise ballot report))) }
    ensures began { (sent : List Message) (node : ℕ) (ballot : Ballot) → IsSaid sent node (Began ballot)
        ↔ ((slot : ℕ) × Contains sent (message node slot (Prepare ballot))) }
{}
