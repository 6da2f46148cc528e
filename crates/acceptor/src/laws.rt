//! Laws of the definitions that every call here is proved against.

ghost use Rattle.std.specs.Prelude.{◌≡◌, ◌≢◌, ◌↔◌, ◌<◌, ℕ, List, ◌∷◌, ◌++◌, [], Option, Some, None};
ghost use Rattle.std.specs.List.{Contains, filter_map};
ghost use Rattle.std.specs.List.Sorted.{IsStrictlyIncreasing};
ghost use Rattle.std.specs.Map.{keys_of};
ghost use Rattle.ballots.specs.Ballot.{Ballot as Pair, IsBelow, IsAbove, IsAtLeast};
ghost use Rattle.ballots.specs.declared.acceptance.Acceptance.{Acceptance};
ghost use Rattle.ballots.specs.declared.record.Record.{Record as Kept};
ghost use Rattle.ballots.specs.declared.record.Record.TheVariants.{Promised, Accepted, PromisedFrom};
ghost use Rattle.acceptor.specs.declared.answer.Answer.{Answer};
ghost use Rattle.acceptor.specs.declared.answer.Answer.TheVariants.{Promise, PromiseFrom, Granted, Nack};
ghost use Rattle.acceptor.specs.Standing.{Standing, IsFresh};
ghost use Rattle.acceptor.specs.Answering.{Prepares, Accepts};
ghost use Rattle.acceptor.specs.Ranged.{IsFrom, Reports, PreparesFrom};
ghost use Rattle.acceptor.specs.Raising.{Applies};
ghost use Rattle.acceptor.specs.Restored.{IsRestored, IsHighestRound};
ghost use Rattle.acceptor.specs.Turns.{Turn, IsStandingAfter, record_of};

/// What an acceptor answers to a Prepare, of one slot or of all slots from a first one on, and to an Accept, is one
/// answer.
pub fn answers_are_one()
    ensures prepare { (old a b : Standing) (slot : ℕ) (ballot : Pair) (x y : Answer)
        → Prepares old a slot ballot x → Prepares old b slot ballot y → x ≡ y }
    ensures accept { (old a b : Standing) (slot : ℕ) (proposal : Acceptance) (x y : Answer)
        → Accepts old a slot proposal x → Accepts old b slot proposal y → x ≡ y }
    ensures promise_from { (old a b : Standing) (first : ℕ) (ballot : Pair) (x y : Reports)
        → PreparesFrom old a first ballot (PromiseFrom x) → PreparesFrom old b first ballot (PromiseFrom y)
        → x.items ≡ y.items }
    ensures nack_from { (old a b : Standing) (first : ℕ) (ballot x y : Pair)
        → PreparesFrom old a first ballot (Nack x) → PreparesFrom old b first ballot (Nack y) → x ≡ y }
    ensures kind_from { (old a b : Standing) (first : ℕ) (ballot y : Pair) (x : Reports)
        → PreparesFrom old a first ballot (PromiseFrom x) → PreparesFrom old b first ballot (Nack y) → ⊥ }
{}

/// What it has promised and accepted after an answer is one thing, slot by slot.
pub fn standings_are_one()
    ensures prepare { (old a b : Standing) (slot : ℕ) (ballot : Pair) (x : Answer)
        → Prepares old a slot ballot x → Prepares old b slot ballot x
        → (other : ℕ) → (a.promised other ≡ b.promised other) × (a.accepted other ≡ b.accepted other) }
    ensures accept { (old a b : Standing) (slot : ℕ) (proposal : Acceptance) (x : Answer)
        → Accepts old a slot proposal x → Accepts old b slot proposal x
        → (other : ℕ) → (a.promised other ≡ b.promised other) × (a.accepted other ≡ b.accepted other) }
    ensures prepare_from { (old a b : Standing) (first : ℕ) (ballot : Pair) (x y : Answer)
        → PreparesFrom old a first ballot x → PreparesFrom old b first ballot y
        → (other : ℕ) → (a.promised other ≡ b.promised other) × (a.accepted other ≡ b.accepted other) }
{}

/// A Prepare is promised only above all that its slot has promised, an Accept granted only at that or above it, and a
/// Promise reports what the slot has accepted (Lamport, *Paxos Made Simple*, section 2.2, phases 1b and 2b). A Prepare
/// of all slots from a first one on is promised only above all that each of them has promised, and its answer reports
/// what each of them has accepted, by rising slots, and nothing of another (section 3). A refusal names what one of them
/// has promised, and that is the ballot or above it.
pub fn answers_follow_the_promise()
    ensures promised { (old new : Standing) (slot : ℕ) (ballot held : Pair) (report : Option Acceptance)
        → Prepares old new slot ballot (Promise report) → old.promised slot ≡ Some held → IsBelow held ballot }
    ensures reported { (old new : Standing) (slot : ℕ) (ballot : Pair) (report : Option Acceptance)
        → Prepares old new slot ballot (Promise report) → report ≡ old.accepted slot }
    ensures granted { (old new : Standing) (slot : ℕ) (proposal : Acceptance) (held : Pair)
        → Accepts old new slot proposal Granted → old.promised slot ≡ Some held → IsBelow proposal.ballot held → ⊥ }
    ensures promised_from { (old new : Standing) (first slot : ℕ) (ballot held : Pair) (reports : Reports)
        → PreparesFrom old new first ballot (PromiseFrom reports) → IsFrom first slot
        → old.promised slot ≡ Some held → IsBelow held ballot }
    ensures reported_from { (old new : Standing) (first slot : ℕ) (ballot : Pair) (held : Acceptance)
        (reports : Reports) → PreparesFrom old new first ballot (PromiseFrom reports)
        → (Contains reports.items (slot, held) ↔ (IsFrom first slot × (old.accepted slot ≡ Some held))) }
    ensures rising_from { (old new : Standing) (first : ℕ) (ballot : Pair) (reports : Reports)
        → PreparesFrom old new first ballot (PromiseFrom reports) → IsStrictlyIncreasing (keys_of reports.items) }
    ensures refused_from { (old new : Standing) (first : ℕ) (ballot promised : Pair)
        → PreparesFrom old new first ballot (Nack promised)
        → IsAtLeast promised (Some ballot)
        × ((slot : ℕ) × IsFrom first slot × (old.promised slot ≡ Some promised)) }
{}

/// What a slot has promised only rises, whatever is asked, and every slot that was not asked for stays as it is: a
/// promise of all slots from a first one on binds none below it.
pub fn promises_only_rise()
    ensures prepare { (old new : Standing) (slot : ℕ) (ballot : Pair) (x : Answer) → Prepares old new slot ballot x
        → (other : ℕ) (held : Pair) → old.promised other ≡ Some held
        → (now : Pair) × (new.promised other ≡ Some now) × IsAtLeast now (Some held) }
    ensures prepare_from { (old new : Standing) (first : ℕ) (ballot : Pair) (x : Answer)
        → PreparesFrom old new first ballot x → (other : ℕ) (held : Pair) → old.promised other ≡ Some held
        → (now : Pair) × (new.promised other ≡ Some now) × IsAtLeast now (Some held) }
    ensures accept { (old new : Standing) (slot : ℕ) (proposal : Acceptance) (x : Answer)
        → Accepts old new slot proposal x → (other : ℕ) (held : Pair) → old.promised other ≡ Some held
        → (now : Pair) × (new.promised other ≡ Some now) × IsAtLeast now (Some held) }
    ensures others_from { (old new : Standing) (first : ℕ) (ballot : Pair) (x : Answer)
        → PreparesFrom old new first ballot x → (other : ℕ) → ¬ IsFrom first other
        → new.promised other ≡ old.promised other }
{}

/// A promise is kept: whatever is asked in between, after a slot has promised a ballot no Prepare at it or below is
/// promised, of it or of slots that it is among, and no Accept below it granted. A Promise and a grant are each at the
/// ballot that the slot has then promised.
pub fn promises_are_kept()
    ensures promised { (old new : Standing) (slot : ℕ) (ballot : Pair) (report : Option Acceptance)
        → Prepares old new slot ballot (Promise report) → new.promised slot ≡ Some ballot }
    ensures granted { (old new : Standing) (slot : ℕ) (proposal : Acceptance)
        → Accepts old new slot proposal Granted
        → (new.promised slot ≡ Some proposal.ballot) × (new.accepted slot ≡ Some proposal) }
    ensures promised_from { (old new : Standing) (first slot : ℕ) (ballot : Pair) (reports : Reports)
        → PreparesFrom old new first ballot (PromiseFrom reports) → IsFrom first slot
        → new.promised slot ≡ Some ballot }
    ensures no_prepare { (old later new : Standing) (turns : List Turn) (slot : ℕ) (held ballot : Pair)
        (report : Option Acceptance) → old.promised slot ≡ Some held → IsStandingAfter old turns later
        → Prepares later new slot ballot (Promise report) → IsBelow held ballot }
    ensures no_prepare_from { (old later new : Standing) (turns : List Turn) (first slot : ℕ) (held ballot : Pair)
        (reports : Reports) → old.promised slot ≡ Some held → IsStandingAfter old turns later
        → PreparesFrom later new first ballot (PromiseFrom reports) → IsFrom first slot → IsBelow held ballot }
    ensures no_accept { (old later new : Standing) (turns : List Turn) (slot : ℕ) (held : Pair) (proposal : Acceptance)
        → old.promised slot ≡ Some held → IsStandingAfter old turns later
        → Accepts later new slot proposal Granted → IsAtLeast proposal.ballot (Some held) }
{}

/// Records leave one standing, slot by slot, and one highest round that was begun. No records leave a fresh start.
pub fn restored_is_one()
    ensures promises { (records : List Kept) (a b : Standing) → IsRestored records a → IsRestored records b
        → (slot : ℕ) → a.promised slot ≡ b.promised slot }
    ensures acceptances { (records : List Kept) (a b : Standing) → IsRestored records a → IsRestored records b
        → (slot : ℕ) → a.accepted slot ≡ b.accepted slot }
    ensures round { (records : List Kept) (a b : ℕ) → IsHighestRound records a → IsHighestRound records b → a ≡ b }
    ensures fresh { (now : Standing) → IsFresh now → IsRestored [] now }
    ensures none { (now : Standing) → IsRestored [] now → IsFresh now }
{}

/// A record that is applied leaves what all records leave with it behind them.
pub fn applied_is_restored()
    ensures { (records : List Kept) (old new : Standing) (told : Kept) → IsRestored records old
        → Applies old new told → IsRestored (records ++ told ∷ []) new }
{}

/// A node that keeps a record of each promise and each acceptance has back, when it starts again, all that it answered
/// by: what an answer leaves is what the records leave with the answer's own behind them, and a refusal leaves what
/// they leave (section 2.5). `run` says it of all answers from any start on, from a fresh one too.
pub fn answers_are_as_recorded()
    ensures promised { (records : List Kept) (old new : Standing) (slot : ℕ) (ballot : Pair)
        (report : Option Acceptance) → IsRestored records old → Prepares old new slot ballot (Promise report)
        → IsRestored (records ++ Promised slot ballot ∷ []) new }
    ensures promised_from { (records : List Kept) (old new : Standing) (first : ℕ) (ballot : Pair) (reports : Reports)
        → IsRestored records old → PreparesFrom old new first ballot (PromiseFrom reports)
        → IsRestored (records ++ PromisedFrom first ballot ∷ []) new }
    ensures granted { (records : List Kept) (old new : Standing) (slot : ℕ) (proposal : Acceptance)
        → IsRestored records old → Accepts old new slot proposal Granted
        → IsRestored (records ++ Accepted slot proposal ∷ []) new }
    ensures prepare_refused { (records : List Kept) (old new : Standing) (slot : ℕ) (ballot promised : Pair)
        → IsRestored records old → Prepares old new slot ballot (Nack promised) → IsRestored records new }
    ensures prepare_from_refused { (records : List Kept) (old new : Standing) (first : ℕ) (ballot promised : Pair)
        → IsRestored records old → PreparesFrom old new first ballot (Nack promised) → IsRestored records new }
    ensures accept_refused { (records : List Kept) (old new : Standing) (slot : ℕ) (proposal : Acceptance)
        (promised : Pair) → IsRestored records old → Accepts old new slot proposal (Nack promised)
        → IsRestored records new }
    ensures run { (records : List Kept) (old new : Standing) (turns : List Turn) → IsRestored records old
        → IsStandingAfter old turns new → IsRestored (records ++ filter_map record_of turns) new }
{}
