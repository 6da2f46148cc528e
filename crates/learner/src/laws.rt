//! Laws of the definitions that every call here is proved against.

ghost use Rattle.std.specs.Prelude.{◌≡◌, ◌≢◌, ℕ, ◌<◌, ◌↔◌, List, [], ◌∷◌, ◌++◌, Option, Some, None};
ghost use Rattle.std.specs.List.{Contains};
ghost use Rattle.std.specs.Option.{option_or};
ghost use Rattle.ballots.specs.Ballot.{Ballot};
ghost use Rattle.ballots.specs.Slots.{OthersStay};
ghost use Rattle.ballots.specs.declared.value.Value.{Value};
ghost use Rattle.learner.specs.Calls.{LearnerCall, Accepted, Decided, slot_of, first_counted};
ghost use Rattle.learner.specs.Calls.{IsChosenOrDecided, IsLearned, Learns};
ghost use Rattle.learner.specs.Votes.{HasAccepted, MajorityAccepted, IsDecidedOrChosen};
ghost use Rattle.learner.specs.State.{LearnerState, decided_at, first_at, voted_at};
ghost use Rattle.learner.specs.Learned.{StateAfter, HasHistory, HasLearned, IsSame};
ghost use Rattle.learner.specs.Changes.{LearnsNow};

/// Of the same calls, a slot learns one value at most, and a further call makes it learn one thing: a value or nothing.
pub fn learned_is_one()
    ensures learned { (members : ℕ) (calls : List LearnerCall) (slot : ℕ) (v w : Value)
        → IsLearned members calls slot v → IsLearned members calls slot w → v ≡ w }
    ensures learns { (members : ℕ) (calls : List LearnerCall) (call : LearnerCall) (slot : ℕ) (a b : Option Value)
        → Learns members calls call slot a → Learns members calls call slot b → a ≡ b }
{}

/// What a slot has learned stays, whatever is told later.
pub fn learned_stays()
    ensures { (members : ℕ) (calls more : List LearnerCall) (slot : ℕ) (v : Value)
        → IsLearned members calls slot v → IsLearned members (calls ++ more) slot v }
{}

/// With one call more its slot has learned what the call makes it learn, where it had learned nothing, and every other
/// slot has learned what it had.
pub fn a_call_adds_to_its_slot()
    ensures { (members : ℕ) (calls : List LearnerCall) (call : LearnerCall) (told : Option Value) (old new : ℕ → Option Value)
        → HasLearned members calls old → Learns members calls call (slot_of call) told
        → new (slot_of call) ≡ option_or (old (slot_of call)) told → OthersStay old new (slot_of call)
        → HasLearned members (calls ++ call ∷ []) new }
{}

/// A slot learns a value exactly where its value was told as decided, or a majority of the members was counted at one
/// ballot.
pub fn learned_where_chosen_or_decided()
    ensures learned { (members : ℕ) (calls : List LearnerCall) (slot : ℕ)
        → IsChosenOrDecided members calls slot → (v : Value) × IsLearned members calls slot v }
    ensures settled { (members : ℕ) (calls : List LearnerCall) (slot : ℕ) (v : Value)
        → IsLearned members calls slot v → IsChosenOrDecided members calls slot }
{}

/// A slot learns where it was told as decided, and where different members, more than half of all, accepted for it at
/// one ballot; and a value that is learned was told as decided, or accepted by a member at such a ballot.
pub fn learned_is_decided_or_chosen()
    ensures decided { (members : ℕ) (calls : List LearnerCall) (slot : ℕ) (v : Value)
        → Contains calls (Decided slot v) → (w : Value) × IsLearned members calls slot w }
    ensures chosen { (members : ℕ) (calls : List LearnerCall) (slot : ℕ) (ballot : Ballot)
        → MajorityAccepted members calls slot ballot → (w : Value) × IsLearned members calls slot w }
    ensures only { (members : ℕ) (calls : List LearnerCall) (slot : ℕ) (v : Value)
        → IsLearned members calls slot v → IsDecidedOrChosen members calls slot v }
{}

/// The first value that is counted at a slot and ballot is that of a member, and no member's vote there comes before
/// it.
pub fn first_counted_comes_first()
    ensures { (members : ℕ) (calls : List LearnerCall) (slot : ℕ) (ballot : Ballot) (v : Value)
        → first_counted members calls slot ballot ≡ Some v
        → (before : List LearnerCall) × (member : ℕ) × (after : List LearnerCall)
        × (calls ≡ before ++ Accepted member slot ballot v ∷ after) × (member < members)
        × ((m : ℕ) → m < members → HasAccepted before m slot ballot → ⊥) }
{}

/// A learner has of each slot what its calls made it learn, and learners of the same calls answer every look-up alike.
/// A look, which leaves every look-up as before, is no call, and what a vote makes a slot learn is as before it.
pub fn states_are_what_was_learned()
    ensures decided { (members : ℕ) (calls : List LearnerCall) (state : LearnerState) (slot : ℕ) (v : Value)
        → StateAfter members calls state → decided_at state slot ≡ Some v ↔ IsLearned members calls slot v }
    ensures votes { (members : ℕ) (calls : List LearnerCall) (a b : LearnerState) (slot : ℕ) (ballot : Ballot) (member : ℕ)
        → StateAfter members calls a → StateAfter members calls b → member < members
        → voted_at a slot ballot member ≡ voted_at b slot ballot member }
    ensures firsts { (members : ℕ) (calls : List LearnerCall) (a b : LearnerState) (slot : ℕ) (ballot : Ballot)
        → StateAfter members calls a → StateAfter members calls b → first_at a slot ballot ≡ first_at b slot ballot }
    ensures looks { (members : ℕ) (calls : List LearnerCall) (old new : LearnerState)
        → IsSame old new → StateAfter members calls old → StateAfter members calls new }
    ensures still { (old new : LearnerState) (acceptor slot : ℕ) (ballot : Ballot) (value : Value)
        (told : Option Value) → IsSame old new → LearnsNow old acceptor slot ballot value told
        → LearnsNow new acceptor slot ballot value told }
{}

/// What a learner has of a slot it was told as decided, or a majority of its members accepted it at one ballot,
/// whatever the calls were.
pub fn values_have_a_history()
    ensures { (state : LearnerState) (slot : ℕ) (v : Value) → HasHistory state → decided_at state slot ≡ Some v
        → (calls : List LearnerCall) × IsDecidedOrChosen state.members calls slot v }
{}
