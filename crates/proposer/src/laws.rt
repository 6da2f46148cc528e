//! Laws of the definitions that every call here is proved against.

ghost use Rattle.std.specs.Prelude.{◌≡◌, ◌≢◌, ℕ, suc, ◌<◌, ◌≤◌, ◌⊎◌, ◌↔◌, true, List, [], ◌∷◌, ◌++◌};
ghost use Rattle.std.specs.Prelude.{Option, Some, None};
ghost use Rattle.std.specs.List.{Contains};
ghost use Rattle.ballots.specs.Limits.{max_slot};
ghost use Rattle.ballots.specs.declared.value.Value.{Value as Held};
ghost use Rattle.ballots.specs.declared.acceptance.Acceptance.{Acceptance};
ghost use Rattle.ballots.specs.Ballot.{Ballot as Pair, IsBelow};
ghost use Rattle.proposer.specs.Call.{Start, OneSlot, AllFrom, Begun, Promise, PromiseFrom, ProposerCall};
ghost use Rattle.proposer.specs.Call.{Begins, Promises, PromisesFrom, GoesOn, Nacks};
ghost use Rattle.proposer.specs.Choosing.{PromiseReport, HasMajority, first_of_each, reports_of, Chooses};
ghost use Rattle.proposer.specs.Reporting.{report_of, rises_from, said_of};
ghost use Rattle.proposer.specs.Attempting.{BallotsIncrease, IsOpen, IsAttempt, answering, answering_at};
ghost use Rattle.proposer.specs.Attempting.{counted, counted_at};
ghost use Rattle.proposer.specs.Attempting.{LeadsToAcceptBy, AnswersCall, Answers, AnswersFrom, HasItsMajority};
ghost use Rattle.proposer.specs.GoingOn.{MayGoOn, GoesOnTo, GoesOnWith, Gives};
ghost use Rattle.proposer.specs.Promised.{Reaches, IsAnswerTo, IsAnswerFrom, MajorityPromised};
ghost use Rattle.proposer.specs.State.{ProposerState, attempt_of, StateAfter, IsRefusedBy};

/// What is chosen of a list of reports is one value: that of a report that no other is above, or the candidate where
/// nothing is reported. The reports are what the promises report.
pub fn choices_are_one()
    ensures one { (candidate : Held) (reports : List PromiseReport) (v w : Held)
        → Chooses candidate reports v → Chooses candidate reports w → v ≡ w }
    ensures highest { (candidate : Held) (reports : List PromiseReport) (v : Held) → Chooses candidate reports v
        → ((reports ≡ []) × (v ≡ candidate)) ⊎ ((ballot : Pair) × Contains reports (record { ballot = ballot; value = v })
        × ((other : PromiseReport) → Contains reports other → IsBelow ballot other.ballot → ⊥)) }
    ensures reports { (promises : List Promise) (report : PromiseReport) → Contains (reports_of promises) report
        ↔ ((promise : Promise) × Contains promises promise × (promise.report ≡ Some report)) }
{}

/// What is reported of a slot is there, where the slots rise.
pub fn reports_are_by_slot()
    ensures { (least slot : ℕ) (reports : List (ℕ × Acceptance)) (report : Acceptance) → rises_from least reports ≡ true
        → report_of slot reports ≡ Some report ↔ Contains reports (slot, report) }
{}

/// An attempt opens where it begins. A promise leaves it open, and so do a call that goes on, and a Nack of another
/// slot or ballot; its own ends it, of any slot for which it is.
pub fn attempts_open_and_end()
    ensures opens { (calls : List ProposerCall) (begun : Begun) → IsOpen (calls ++ Begins begun ∷ []) begun [] }
    ensures goes_on { (calls since : List ProposerCall) (begun : Begun) (promise : Promise)
        → IsOpen calls begun since → IsOpen (calls ++ Promises promise ∷ []) begun (since ++ Promises promise ∷ []) }
    ensures goes_on_from { (calls since : List ProposerCall) (begun : Begun) (promise : PromiseFrom) → IsOpen calls begun since
        → IsOpen (calls ++ PromisesFrom promise ∷ []) begun (since ++ PromisesFrom promise ∷ []) }
    ensures goes_further { (calls since : List ProposerCall) (begun : Begun) (candidate : Held)
        → IsOpen calls begun since → IsOpen (calls ++ GoesOn candidate ∷ []) begun (since ++ GoesOn candidate ∷ []) }
    ensures stays { (calls since : List ProposerCall) (begun : Begun) (slot : ℕ) (ballot : Pair)
        → (Reaches begun.reach begun.slot slot × (ballot ≡ begun.ballot) → ⊥)
        → IsOpen calls begun since → IsOpen (calls ++ Nacks slot ballot ∷ []) begun (since ++ Nacks slot ballot ∷ []) }
    ensures ends { (calls since : List ProposerCall) (begun : Begun) (slot : ℕ) → Reaches begun.reach begun.slot slot
        → IsOpen (calls ++ Nacks slot begun.ballot ∷ []) begun since → ⊥ }
{}

/// After a list of calls one attempt is open at most, and what is answered to a promise, or given to a call to go on,
/// is one answer: what a call gives and what was told of it beforehand are the same.
pub fn answers_are_one()
    ensures attempts { (calls : List ProposerCall) (begun another : Begun) (since after : List ProposerCall)
        → IsOpen calls begun since → IsOpen calls another after → (begun ≡ another) × (since ≡ after) }
    ensures answers { (members : ℕ) (calls : List ProposerCall) (call : ProposerCall) (a b : Option (ℕ × Pair × Held))
        → AnswersCall members calls call a → AnswersCall members calls call b → a ≡ b }
    ensures further { (members : ℕ) (calls : List ProposerCall) (candidate : Held) (a b : Option (ℕ × Pair × Held))
        → GoesOnWith members calls candidate a → GoesOnWith members calls candidate b → a ≡ b }
{}

/// A promise answers an attempt where a member sent it since the attempt began, for its slot and at its ballot, and in
/// the form of its reach: one of all slots from one on answers an attempt for all of them, of each slot with what it
/// reports of that. An attempt has its majority where different members, more than half of all, sent one; none of them
/// counts twice.
pub fn majorities_are_of_members()
    ensures answering { (members : ℕ) (begun : Begun) (since : List ProposerCall) (promise : Promise) → begun.reach ≡ OneSlot
        → Contains (answering members begun since) promise
        ↔ (Contains since (Promises promise) × IsAnswerTo members begun promise) }
    ensures answering_from { (members : ℕ) (begun : Begun) (slot : ℕ) (since : List ProposerCall) (promise : Promise)
        → begun.reach ≡ AllFrom → Contains (answering_at members begun slot since) promise
        ↔ ((said : PromiseFrom) × Contains since (PromisesFrom said) × IsAnswerFrom members begun said
        × (promise ≡ said_of slot said)) }
    ensures majority { (members : ℕ) (begun : Begun) (since : List ProposerCall)
        → HasMajority members (answering members begun since) ↔ MajorityPromised members begun since }
{}

/// Of each sender the first promise counts, and no other.
pub fn senders_count_once()
    ensures first { (promises : List Promise) (promise : Promise) → Contains (first_of_each promises) promise
        ↔ ((before : List Promise) × (after : List Promise) × (promises ≡ before ++ promise ∷ after)
        × ((other : Promise) → Contains before other → other.sender ≢ promise.sender)) }
    ensures once { (promises before mid after : List Promise) (promise other : Promise)
        → first_of_each promises ≡ before ++ promise ∷ (mid ++ other ∷ after) → promise.sender ≢ other.sender }
{}

/// An Accept with the majority is that of the open attempt, for its first slot and at its ballot; a majority of members
/// promised it, and its value is chosen by the reports of the promises that count.
pub fn accepts_need_a_majority()
    ensures { (members : ℕ) (calls : List ProposerCall) (call : ProposerCall) (accept : ℕ × Pair × Held)
        → LeadsToAcceptBy members calls call accept
        → (begun : Begun) × (since : List ProposerCall) × IsOpen calls begun since
        × (accept.0 ≡ begun.slot) × (accept.1 ≡ begun.ballot)
        × MajorityPromised members begun (since ++ call ∷ [])
        × Chooses begun.candidate (reports_of (counted members begun (since ++ call ∷ []))) accept.2 }
{}

/// An Accept for a further slot is that of the open attempt, which is for all slots from one on, at its ballot; a
/// majority of members promised it, and its value is chosen by what the promises that count report of this slot.
pub fn further_accepts_need_a_majority()
    ensures { (members : ℕ) (calls : List ProposerCall) (candidate : Held) (accept : ℕ × Pair × Held)
        → GoesOnTo members calls candidate accept
        → (begun : Begun) × (since : List ProposerCall) × IsOpen calls begun since × (begun.reach ≡ AllFrom)
        × (begun.slot < accept.0) × (accept.0 ≤ max_slot) × (accept.1 ≡ begun.ballot)
        × MajorityPromised members begun since
        × Chooses candidate (reports_of (counted_at members begun accept.0 since)) accept.2 }
{}

/// The open attempt has its majority with the promise that its Accept answers, not before, and with no other promise.
/// To go on changes nothing of it.
pub fn majorities_come_with_accepts()
    ensures now { (members : ℕ) (calls : List ProposerCall) (call : ProposerCall) (accept : ℕ × Pair × Held)
        → LeadsToAcceptBy members calls call accept → HasItsMajority members (calls ++ call ∷ []) }
    ensures not_before { (members : ℕ) (calls : List ProposerCall) (call : ProposerCall) (accept : ℕ × Pair × Held)
        → LeadsToAcceptBy members calls call accept → HasItsMajority members calls → ⊥ }
    ensures no_other { (members : ℕ) (calls : List ProposerCall) (promise : Promise) → Answers members calls promise None
        → HasItsMajority members (calls ++ Promises promise ∷ []) → HasItsMajority members calls }
    ensures no_other_from { (members : ℕ) (calls : List ProposerCall) (promise : PromiseFrom)
        → AnswersFrom members calls promise None
        → HasItsMajority members (calls ++ PromisesFrom promise ∷ []) → HasItsMajority members calls }
    ensures further { (members : ℕ) (calls : List ProposerCall) (candidate : Held)
        → HasItsMajority members (calls ++ GoesOn candidate ∷ []) ↔ HasItsMajority members calls }
{}

/// The slots come in their turn: with the majority the slot behind the first is the next one, and each time that the
/// attempt goes on, the one behind that. There is one next slot at most, and none behind the last slot or without the
/// majority. A promise that comes later leaves it.
pub fn slots_come_in_turn()
    ensures first { (members : ℕ) (calls since : List ProposerCall) (begun : Begun) (call : ProposerCall) (accept : ℕ × Pair × Held)
        → IsOpen calls begun since → begun.reach ≡ AllFrom
        → ((candidate : Held) → Contains since (GoesOn candidate) → ⊥)
        → LeadsToAcceptBy members calls call accept → accept.0 < max_slot
        → MayGoOn members (calls ++ call ∷ []) (suc accept.0) }
    ensures next { (members : ℕ) (calls : List ProposerCall) (candidate : Held) (slot : ℕ) → MayGoOn members calls slot
        → slot < max_slot → MayGoOn members (calls ++ GoesOn candidate ∷ []) (suc slot) }
    ensures last { (members : ℕ) (calls : List ProposerCall) (candidate : Held) (slot : ℕ) → MayGoOn members calls max_slot
        → MayGoOn members (calls ++ GoesOn candidate ∷ []) slot → ⊥ }
    ensures one { (members : ℕ) (calls : List ProposerCall) (slot other : ℕ)
        → MayGoOn members calls slot → MayGoOn members calls other → slot ≡ other }
    ensures majority { (members : ℕ) (calls : List ProposerCall) (slot : ℕ)
        → MayGoOn members calls slot → HasItsMajority members calls }
    ensures stays { (members : ℕ) (calls : List ProposerCall) (promise : PromiseFrom) (slot : ℕ)
        → MayGoOn members calls slot → MayGoOn members (calls ++ PromisesFrom promise ∷ []) slot }
{}

/// Each ballot that is begun is the node's own, above what the node had seen and above all that it began.
pub fn ballots_are_its_own()
    ensures { (me highest : ℕ) (before after : List ProposerCall) (begun : Begun)
        → BallotsIncrease me highest (before ++ Begins begun ∷ after)
        → (begun.ballot.node ≡ me) × (highest < begun.ballot.round) × (begun.seen_round < begun.ballot.round) }
{}

/// In a list of calls in which each attempt begins at its node's next ballot, the ballots rise, and all promises
/// together are answered by one Accept at each ballot at most: two Accepts at one ballot are the same answer to the
/// same promise. With those for further slots there is one for each slot and ballot at most.
pub fn one_accept_a_ballot()
    ensures rise { (me highest : ℕ) (before mid after : List ProposerCall) (begun another : Begun)
        → BallotsIncrease me highest (before ++ Begins begun ∷ (mid ++ Begins another ∷ after))
        → IsBelow begun.ballot another.ballot }
    ensures once { (me highest members : ℕ) (calls : List ProposerCall) → BallotsIncrease me highest calls
        → (before before' after after' : List ProposerCall) (call call' : ProposerCall) (accept accept' : ℕ × Pair × Held)
        → calls ≡ before ++ call ∷ after → calls ≡ before' ++ call' ∷ after'
        → LeadsToAcceptBy members before call accept → LeadsToAcceptBy members before' call' accept'
        → accept.1 ≡ accept'.1
        → (before ≡ before') × (call ≡ call') × (accept ≡ accept') }
    ensures once_a_slot { (me highest members : ℕ) (calls : List ProposerCall) → BallotsIncrease me highest calls
        → (before before' after after' : List ProposerCall) (call call' : ProposerCall) (accept accept' : ℕ × Pair × Held)
        → calls ≡ before ++ call ∷ after → calls ≡ before' ++ call' ∷ after'
        → Gives members before call accept → Gives members before' call' accept'
        → accept.0 ≡ accept'.0 → accept.1 ≡ accept'.1
        → (before ≡ before') × (call ≡ call') × (accept ≡ accept') }
{}

/// Proposers that were made alike and had the same calls are of one node, have begun the same rounds, and have the
/// same attempt open, which the same Nacks end.
pub fn states_answer_alike()
    ensures attempts { (start : Start) (calls : List ProposerCall) (a b : ProposerState)
        → StateAfter start calls a → StateAfter start calls b → attempt_of a ≡ attempt_of b }
    ensures rounds { (start : Start) (calls : List ProposerCall) (a b : ProposerState)
        → StateAfter start calls a → StateAfter start calls b → (a.me ≡ b.me) × (a.highest_round ≡ b.highest_round) }
    ensures is_open { (start : Start) (calls : List ProposerCall) (state : ProposerState)
        → StateAfter start calls state → IsAttempt calls (attempt_of state) }
    ensures open_is_one { (calls : List ProposerCall) (a b : Option (ℕ × Pair))
        → IsAttempt calls a → IsAttempt calls b → a ≡ b }
    ensures refused { (start : Start) (calls since : List ProposerCall) (state : ProposerState) (begun : Begun)
        (slot : ℕ) (ballot : Pair) → StateAfter start calls state → IsOpen calls begun since
        → IsRefusedBy state slot ballot ↔ (Reaches begun.reach begun.slot slot × (begun.ballot ≡ ballot)) }
{}
