//! Laws of what is due of a node: that it is one thing, that it is always something, and what it is.

ghost use Rattle.std.specs.Prelude.{◌≡◌, ℕ, ◌<◌, ◌≤◌, ◌+◌, ◌-◌, ◌⊎◌, ◌↔◌, List, [], ◌∷◌, ◌++◌, length, min, slice_get};
ghost use Rattle.std.specs.Prelude.{Option, Some, None};
ghost use Rattle.std.specs.List.{Contains, filter_map, cons_option};
ghost use Rattle.ballots.specs.Limits.{max_round};
ghost use Rattle.ballots.specs.Ballot.{Ballot, IsBelow};
ghost use Rattle.ballots.specs.Acceptance.{acceptance};
ghost use Rattle.ballots.specs.Message.{message};
ghost use Rattle.ballots.specs.declared.value.Value.{Value};
ghost use Rattle.ballots.specs.declared.value.Value.TheVariants.{Noop, Upload};
ghost use Rattle.ballots.specs.declared.acceptance.Acceptance.{Acceptance};
ghost use Rattle.ballots.specs.declared.record.Record.{Record as Kept};
ghost use Rattle.ballots.specs.declared.record.Record.TheVariants.{Began};
ghost use Rattle.ballots.specs.declared.message.Message.{Message};
ghost use Rattle.ballots.specs.declared.message.Body.{Body};
ghost use Rattle.ballots.specs.declared.message.Body.TheVariants as body;
ghost use Rattle.acceptor.specs.Standing.{Standing};
ghost use Rattle.acceptor.specs.Restored.{IsRestored, IsHighestRound};
ghost use Rattle.proposer.specs.Call.{OneSlot, Begun, Promise, ProposerCall as Asked, Begins, Promises};
ghost use Rattle.proposer.specs.Choosing.{reports_of, Chooses};
ghost use Rattle.proposer.specs.Attempting.{IsOpen, Completes, counted};
ghost use Rattle.proposer.specs.Promised.{MajorityPromised};
ghost use Rattle.learner.specs.Calls.{LearnerCall, IsLearned};
ghost use Rattle.agreement_rules.specs.Views.{AgreementConfig, Views, started_with, with_waiting};
ghost use Rattle.agreement_rules.specs.Views.{IsFree, IsFreeAfter, HasPrefix};
ghost use Rattle.agreement_rules.specs.Due.{Refusal, OutOfRange, OutOfMemory, Plan, Due, Refuses, Plans};
ghost use Rattle.agreement_rules.specs.Due.{Attempts, AimIsDue, TickIsDue, IsMessageOf, round_in, has_seen, PartIsDue};
ghost use Rattle.agreement_rules.specs.Due.{BodyKeeps, MessageKeeps, TickKeeps};
ghost use Rattle.agreement_rules.specs.Naming.{Names};
ghost use Rattle.agreement_rules.specs.Keeping.{record_of};
ghost use Rattle.agreement_rules.specs.Calling.{proposer_calls_of, learner_calls_of};

use acceptor::laws::{
    answers_are_one as acceptor_answers_are_one, applied_is_restored, restored_is_one,
};
use decided_log::laws::asked_is_a_run_of_the_prefix;
use learner::laws::{learned_is_decided_or_chosen, learned_is_one};
use proposer::laws::{answers_are_one as proposer_answers_are_one, majorities_are_of_members};

/// A node that starts has what its records tell, and nothing else: it has seen no round, nothing waits at it, it has
/// learned nothing, and has no attempt open.
pub fn a_start_has_its_records_alone()
    ensures records { (records : List Kept) → (started_with records).records ≡ records }
    ensures nothing_else { (records : List Kept) → ((started_with records).seen_round ≡ 0)
        × ((started_with records).waiting ≡ []) }
    ensures free { (records : List Kept) (members slot : ℕ)
        → IsFree members (started_with records).learner_calls slot }
    ensures none_open { (records : List Kept) (begun : Begun) (since : List Asked)
        → IsOpen (started_with records).proposer_calls begun since → ⊥ }
{}

/// Where other texts wait at a node, what else it has is as it was.
pub fn what_waits_changes_alone()
    ensures { (views : Views) (texts : List (List ℕ)) → with_waiting views texts ≡ record {
      records = views.records;
      seen_round = views.seen_round;
      waiting = texts;
      proposer_calls = views.proposer_calls;
      learner_calls = views.learner_calls;
    } }
{}

/// What was learned slot by slot has one prefix, the values up to the first gap (Lamport, *Paxos Made Simple*, section
/// 3), and one free slot that leaves so many free ones below it.
pub fn prefixes_are_one()
    ensures prefix { (members : ℕ) (calls : List LearnerCall) (xs ys : List Value)
        → HasPrefix members calls xs → HasPrefix members calls ys → xs ≡ ys }
    ensures free_slot { (members : ℕ) (calls : List LearnerCall) (count slot other : ℕ)
        → IsFreeAfter members calls count slot → IsFreeAfter members calls count other → slot ≡ other }
{
    learned_is_one();
}

/// Whatever was told, it cannot be that nothing is a prefix, or that no free slot leaves so many free ones below it:
/// behind all slots that were told of, each is free.
pub fn prefixes_and_free_slots_exist()
    ensures prefix { (members : ℕ) (calls : List LearnerCall)
        → ((values : List Value) → HasPrefix members calls values → ⊥) → ⊥ }
    ensures free_slot { (members : ℕ) (calls : List LearnerCall) (count : ℕ)
        → ((slot : ℕ) → IsFreeAfter members calls count slot → ⊥) → ⊥ }
{
    learned_is_decided_or_chosen();
}

/// Records leave a standing and a highest round, whatever they are (Lamport, *Paxos Made Simple*, section 2.5).
pub fn records_leave_a_standing()
    ensures standing { (records : List Kept) → (now : Standing) × IsRestored records now }
    ensures round { (records : List Kept) → (highest : ℕ) × IsHighestRound records highest }
{
    applied_is_restored();
    restored_is_one();
}

/// What is due of a node is one thing, by what the node has: one answer to a tick, one plan for a message's body, and
/// one record, or none.
pub fn due_is_one()
    ensures tick { (config : AgreementConfig) (me : ℕ) (views : Views) (left : ℕ) (a b : Due)
        → TickIsDue config me views left a → TickIsDue config me views left b → a ≡ b }
    ensures body { (config : AgreementConfig) (me : ℕ) (views : Views) (sender slot : ℕ) (said : Body) (a b : Plan)
        → PartIsDue config me views sender slot said a → PartIsDue config me views sender slot said b → a ≡ b }
    ensures body_record { (records : List Kept) (slot : ℕ) (said : Body) (a b : Option Kept)
        → BodyKeeps records slot said a → BodyKeeps records slot said b → a ≡ b }
    ensures message_record { (config : AgreementConfig) (views : Views) (m : Message) (a b : Option Kept)
        → MessageKeeps config views m a → MessageKeeps config views m b → a ≡ b }
    ensures tick_record { (config : AgreementConfig) (me : ℕ) (views : Views) (left : ℕ) (a b : Option Kept)
        → TickKeeps config me views left a → TickKeeps config me views left b → a ≡ b }
{
    learned_is_one();
    restored_is_one();
    acceptor_answers_are_one();
    proposer_answers_are_one();
}

/// It cannot be that nothing is due of a node: to a message's body, whatever it says, and of records. To a tick
/// something is due as long as nothing was learned for the slot at the limit, which is none of the configuration's.
pub fn something_is_due()
    ensures tick { (config : AgreementConfig) (me : ℕ) (views : Views) (left : ℕ)
        → IsFree config.members views.learner_calls config.slot_limit
        → ((due : Due) → TickIsDue config me views left due → ⊥) → ⊥ }
    ensures body { (config : AgreementConfig) (me : ℕ) (views : Views) (sender slot : ℕ) (said : Body)
        → ((plan : Plan) → PartIsDue config me views sender slot said plan → ⊥) → ⊥ }
    ensures body_record { (records : List Kept) (slot : ℕ) (said : Body)
        → (kept : Option Kept) × BodyKeeps records slot said kept }
    ensures message_record { (config : AgreementConfig) (views : Views) (m : Message)
        → ((kept : Option Kept) → MessageKeeps config views m kept → ⊥) → ⊥ }
    ensures tick_record { (config : AgreementConfig) (me : ℕ) (views : Views) (left : ℕ)
        → IsFree config.members views.learner_calls config.slot_limit
        → ((kept : Option Kept) → TickKeeps config me views left kept → ⊥) → ⊥ }
{
    applied_is_restored();
    restored_is_one();
    learned_is_decided_or_chosen();
}

/// A tick serves what waits the longest, at the free slot that leaves so many free ones below it. Where nothing waits
/// it fills the first gap with a no-op if something was learned behind it, and if not asks for what is decided from
/// there on (Lamport, *Paxos Made Simple*, section 3). It leaves no more than seven free slots to others, and takes no
/// memory.
pub fn ticks_serve_what_waits()
    ensures waiting { (config : AgreementConfig) (me : ℕ) (views : Views) (left : ℕ) (plan : Plan) (text : List ℕ)
        (others : List (List ℕ)) → views.waiting ≡ text ∷ others → TickIsDue config me views left (Plans plan)
        → (slot : ℕ) × IsFreeAfter config.members views.learner_calls left slot
        × AimIsDue config me views (Attempts slot (Upload text)) (Plans plan) }
    ensures gap { (config : AgreementConfig) (me : ℕ) (views : Views) (left : ℕ) (plan : Plan) (values : List Value)
        (slot : ℕ) (value : Value) → views.waiting ≡ [] → HasPrefix config.members views.learner_calls values
        → length values < slot → IsLearned config.members views.learner_calls slot value
        → TickIsDue config me views left (Plans plan)
        → AimIsDue config me views (Attempts (length values) Noop) (Plans plan) }
    ensures no_gap { (config : AgreementConfig) (me : ℕ) (views : Views) (left : ℕ) (plan : Plan) (values : List Value)
        → views.waiting ≡ [] → HasPrefix config.members views.learner_calls values
        → ((slot : ℕ) (value : Value) → length values < slot
        → IsLearned config.members views.learner_calls slot value → ⊥)
        → TickIsDue config me views left (Plans plan) → (plan.kept ≡ None) × (plan.after ≡ views)
        × (((length values < config.slot_limit) × (plan.sends ≡ message me (length values) body.Ask ∷ []))
        ⊎ ((length values ≡ config.slot_limit) × (plan.sends ≡ []))) }
    ensures out_of_range { (config : AgreementConfig) (me : ℕ) (views : Views) (left : ℕ)
        → TickIsDue config me views left (Refuses OutOfRange) ↔ (7 < left) }
    ensures memory { (config : AgreementConfig) (me : ℕ) (views : Views) (left : ℕ)
        → TickIsDue config me views left (Refuses OutOfMemory) → ⊥ }
{
    learned_is_one();
}

/// An attempt begins at a ballot of the node's own, whose round is above all that the node has seen or begun, and for
/// a slot below the limit (Lamport, *Paxos Made Simple*, sections 2.2 and 2.5): a record of the ballot is kept, a
/// Prepare goes out, and the node's proposer has it open. What else the node has stays as it is.
pub fn attempts_begin_above_all_rounds()
    ensures { (config : AgreementConfig) (me : ℕ) (views : Views) (slot : ℕ) (value : Value) (plan : Plan)
        → AimIsDue config me views (Attempts slot value) (Plans plan)
        → (ballot : Ballot) × (ballot.node ≡ me) × (views.seen_round < ballot.round)
        × ((highest : ℕ) → IsHighestRound views.records highest → highest < ballot.round)
        × (ballot.round ≤ max_round) × (slot < config.slot_limit) × (plan.kept ≡ Some (Began ballot))
        × (plan.sends ≡ message me slot (body.Prepare ballot) ∷ [])
        × (plan.after ≡ record {
          records = views.records ++ Began ballot ∷ [];
          seen_round = views.seen_round;
          waiting = views.waiting;
          proposer_calls = views.proposer_calls ++ Begins (record {
            slot = slot;
            reach = OneSlot;
            seen_round = views.seen_round;
            candidate = value;
            ballot = ballot;
          }) ∷ [];
          learner_calls = views.learner_calls;
        }) }
{
    restored_is_one();
}

/// A message is taken exactly where its sender is a member, its slot is below the limit, and each ballot that it names
/// is a member's.
pub fn messages_are_of_members()
    ensures { (config : AgreementConfig) (m : Message) → IsMessageOf config m ↔ ((m.sender < config.members)
        × (m.slot < config.slot_limit)
        × ((ballot : Ballot) → Names m.body ballot → ballot.node < config.members)) }
{}

/// The round in a message is the greatest of the ballots that it names, and 0 where it names none. Who is handed the
/// message has seen that round, and what it had seen before.
pub fn rounds_are_of_named_ballots()
    ensures at_least { (said : Body) (ballot : Ballot) → Names said ballot → ballot.round ≤ round_in said }
    ensures named { (said : Body) → ((ballot : Ballot) × Names said ballot × (round_in said ≡ ballot.round))
        ⊎ ((round_in said ≡ 0) × ((ballot : Ballot) → Names said ballot → ⊥)) }
    ensures seen { (views : Views) (m : Message) (ballot : Ballot) → Names m.body ballot
        → ballot.round ≤ (has_seen views m).seen_round }
    ensures seen_before { (views : Views) (m : Message) → views.seen_round ≤ (has_seen views m).seen_round }
    ensures seen_else { (views : Views) (m : Message) → has_seen views m ≡ record {
      records = views.records;
      seen_round = (has_seen views m).seen_round;
      waiting = views.waiting;
      proposer_calls = views.proposer_calls;
      learner_calls = views.learner_calls;
    } }
    ensures seen_only { (views : Views) (m : Message) → ((has_seen views m).seen_round ≡ views.seen_round)
        ⊎ ((ballot : Ballot) × Names m.body ballot × ((has_seen views m).seen_round ≡ ballot.round)) }
{}

/// A Prepare is answered by a Promise at its ballot, which reports what the records show as accepted, if that ballot
/// is above all that its slot has promised; else by a Nack that names the ballot, and what the slot has promised. An
/// Accept is granted if its ballot is what its slot has promised or above, and else is refused likewise (Lamport,
/// *Paxos Made Simple*, section 2.2).
pub fn answers_are_by_the_records()
    ensures prepare { (config : AgreementConfig) (me : ℕ) (views : Views) (standing : Standing) (sender slot : ℕ)
        (ballot : Ballot) (plan : Plan) → IsRestored views.records standing
        → PartIsDue config me views sender slot (body.Prepare ballot) plan
        → ((plan.sends ≡ message me slot (body.Promise ballot (standing.accepted slot)) ∷ [])
        × ((held : Ballot) → standing.promised slot ≡ Some held → IsBelow held ballot))
        ⊎ ((promised : Ballot) × (plan.sends ≡ message me slot (body.Nack ballot promised) ∷ [])
        × (standing.promised slot ≡ Some promised) × (IsBelow promised ballot → ⊥)) }
    ensures accept { (config : AgreementConfig) (me : ℕ) (views : Views) (standing : Standing) (sender slot : ℕ)
        (proposal : Acceptance) (plan : Plan) → IsRestored views.records standing
        → PartIsDue config me views sender slot (body.Accept proposal) plan
        → ((plan.sends ≡ message me slot (body.Accepted proposal) ∷ [])
        × ((held : Ballot) → standing.promised slot ≡ Some held → IsBelow proposal.ballot held → ⊥))
        ⊎ ((promised : Ballot) × (plan.sends ≡ message me slot (body.Nack proposal.ballot promised) ∷ [])
        × (standing.promised slot ≡ Some promised) × IsBelow proposal.ballot promised) }
{
    restored_is_one();
}

/// A Promise that completes the open attempt is answered by an Accept at its ballot and for its slot, which are those
/// of the attempt: a majority has promised, and the value is the one that their reports ask for (Lamport, *Paxos Made
/// Simple*, section 2.2). Any other Promise is not answered.
pub fn an_accept_completes_its_attempt()
    ensures { (config : AgreementConfig) (me : ℕ) (views : Views) (promise : Promise) (plan : Plan)
        → PartIsDue config me views promise.sender promise.slot (body.Promise promise.ballot promise.report) plan
        → ((plan.sends ≡ []) × ((begun : Begun) (since : List Asked) → IsOpen views.proposer_calls begun since
        → Completes config.members begun since promise → ⊥))
        ⊎ ((begun : Begun) × (since : List Asked) × (value : Value) × IsOpen views.proposer_calls begun since
        × (promise.slot ≡ begun.slot) × (promise.ballot ≡ begun.ballot)
        × MajorityPromised config.members begun (since ++ Promises promise ∷ [])
        × Chooses begun.candidate (reports_of (counted config.members begun (since ++ Promises promise ∷ []))) value
        × (plan.sends ≡ message me promise.slot (body.Accept (acceptance promise.ballot value)) ∷ [])) }
{
    majorities_are_of_members();
}

/// One that asks from a slot on is told what was learned from there on, up to the first gap: the values of that slot,
/// of the next, and so on, and nothing else (Lamport, *Paxos Made Simple*, section 2.3).
pub fn an_ask_is_answered_by_the_prefix()
    ensures { (config : AgreementConfig) (me : ℕ) (views : Views) (sender slot : ℕ) (values : List Value) (plan : Plan)
        → HasPrefix config.members views.learner_calls values → PartIsDue config me views sender slot body.Ask plan
        → (length plan.sends ≡ min 16 (length values - slot))
        × ((k : ℕ) → k < length plan.sends → (value : Value) × (slice_get values (slot + k) ≡ Some value)
        × (slice_get plan.sends k ≡ Some (message me (slot + k) (body.Decided value)))) }
{
    asked_is_a_run_of_the_prefix();
    learned_is_one();
}

/// A node sends in its own name alone; and what it sends of a message, but for an Ask, is for that message's slot. It
/// answers no Nack, no Accepted and no Decided.
pub fn replies_are_its_own()
    ensures body { (config : AgreementConfig) (me : ℕ) (views : Views) (sender slot : ℕ) (said : Body) (plan : Plan)
        (m : Message) → PartIsDue config me views sender slot said plan → Contains plan.sends m → m.sender ≡ me }
    ensures tick { (config : AgreementConfig) (me : ℕ) (views : Views) (left : ℕ) (plan : Plan) (m : Message)
        → TickIsDue config me views left (Plans plan) → Contains plan.sends m → m.sender ≡ me }
    ensures slot { (config : AgreementConfig) (me : ℕ) (views : Views) (sender slot : ℕ) (said : Body) (plan : Plan)
        (m : Message) → (said ≡ body.Ask → ⊥) → PartIsDue config me views sender slot said plan
        → Contains plan.sends m → m.slot ≡ slot }
    ensures nack { (config : AgreementConfig) (me : ℕ) (views : Views) (sender slot : ℕ) (ballot promised : Ballot) (plan : Plan)
        → PartIsDue config me views sender slot (body.Nack ballot promised) plan → plan.sends ≡ [] }
    ensures accepted { (config : AgreementConfig) (me : ℕ) (views : Views) (sender slot : ℕ) (told : Acceptance) (plan : Plan)
        → PartIsDue config me views sender slot (body.Accepted told) plan → plan.sends ≡ [] }
    ensures decided { (config : AgreementConfig) (me : ℕ) (views : Views) (sender slot : ℕ) (value : Value) (plan : Plan)
        → PartIsDue config me views sender slot (body.Decided value) plan → plan.sends ≡ [] }
{
    majorities_are_of_members();
}

/// The record that is due at a message or a tick is the one that its plan keeps; of a message that is not taken none
/// is.
pub fn records_are_those_of_plans()
    ensures body { (config : AgreementConfig) (me : ℕ) (views : Views) (sender slot : ℕ) (said : Body) (plan : Plan)
        (kept : Option Kept) → PartIsDue config me views sender slot said plan
        → BodyKeeps views.records slot said kept → plan.kept ≡ kept }
    ensures body_keeps { (config : AgreementConfig) (me : ℕ) (views : Views) (sender slot : ℕ) (said : Body) (plan : Plan)
        → PartIsDue config me views sender slot said plan → BodyKeeps views.records slot said plan.kept }
    ensures message { (config : AgreementConfig) (me : ℕ) (views : Views) (m : Message) (plan : Plan) (kept : Option Kept)
        → IsMessageOf config m → PartIsDue config me (has_seen views m) m.sender m.slot m.body plan
        → MessageKeeps config views m kept → plan.kept ≡ kept }
    ensures message_keeps { (config : AgreementConfig) (me : ℕ) (views : Views) (m : Message) (plan : Plan)
        → IsMessageOf config m → PartIsDue config me (has_seen views m) m.sender m.slot m.body plan
        → MessageKeeps config views m plan.kept }
    ensures not_taken { (config : AgreementConfig) (views : Views) (m : Message) (kept : Option Kept)
        → (IsMessageOf config m → ⊥) → MessageKeeps config views m kept → kept ≡ None }
    ensures tick { (config : AgreementConfig) (me : ℕ) (views : Views) (left : ℕ) (plan : Plan) (kept : Option Kept)
        → TickIsDue config me views left (Plans plan) → TickKeeps config me views left kept → plan.kept ≡ kept }
    ensures tick_keeps { (config : AgreementConfig) (me : ℕ) (views : Views) (left : ℕ) (plan : Plan)
        → TickIsDue config me views left (Plans plan) → TickKeeps config me views left plan.kept }
    ensures refused { (config : AgreementConfig) (me : ℕ) (views : Views) (left : ℕ) (refusal : Refusal) (kept : Option Kept)
        → TickIsDue config me views left (Refuses refusal) → TickKeeps config me views left kept → kept ≡ None }
{
    learned_is_one();
    restored_is_one();
    acceptor_answers_are_one();
    proposer_answers_are_one();
}

/// A node keeps the record that has to stand before what it sends goes out, and keeps no other: its records are those
/// of before with that one behind them (Lamport, *Paxos Made Simple*, section 2.5).
pub fn plans_keep_what_they_send()
    ensures body { (config : AgreementConfig) (me : ℕ) (views : Views) (sender slot : ℕ) (said : Body) (plan : Plan)
        → PartIsDue config me views sender slot said plan
        → (filter_map record_of plan.sends ≡ cons_option plan.kept [])
        × (plan.after.records ≡ views.records ++ cons_option plan.kept []) }
    ensures tick { (config : AgreementConfig) (me : ℕ) (views : Views) (left : ℕ) (plan : Plan)
        → TickIsDue config me views left (Plans plan)
        → (filter_map record_of plan.sends ≡ cons_option plan.kept [])
        × (plan.after.records ≡ views.records ++ cons_option plan.kept []) }
{}

/// A message leaves a node with its record, if one is kept, and with one call more of the part that it is for: a
/// Promise and a Nack are for its proposer, an Accepted and a Decided for its learner. What else it has stays as it
/// is.
pub fn messages_are_told_to_their_part()
    ensures { (config : AgreementConfig) (me : ℕ) (views : Views) (sender slot : ℕ) (said : Body) (plan : Plan)
        → PartIsDue config me views sender slot said plan → plan.after ≡ record {
          records = views.records ++ cons_option plan.kept [];
          seen_round = views.seen_round;
          waiting = views.waiting;
          proposer_calls = views.proposer_calls ++ proposer_calls_of sender slot said;
          learner_calls = views.learner_calls ++ learner_calls_of sender slot said;
        } }
{}
