//! Laws of the definitions that every call here is proved against.

ghost use Rattle.std.specs.Prelude.{◌≡◌, ◌==◌, ◌<◌, ◌≤◌, ◌||◌, ◌⊎◌, ◌↔◌, ℕ, suc, Bool, true, false, IsTrue, List, [], Some, None};
ghost use Rattle.std.specs.declared.cmp.Ordering.TheVariants.{Less, Equal, Greater};
ghost use Rattle.ballots.specs.declared.value.Value.{Value};
ghost use Rattle.ballots.specs.declared.value.Value.TheVariants.{Noop};
ghost use Rattle.ballots.specs.declared.message.Message.{Message as Meant};
ghost use Rattle.ballots.specs.declared.acceptance.Acceptance.{Acceptance};
ghost use Rattle.ballots.specs.declared.message.Body.TheVariants.{Prepare, Promise, Nack, Accept, Accepted, Ask, Decided};
ghost use Rattle.ballots.specs.declared.ballot.TheConstants.{MAX_ROUND};
ghost use Rattle.ballots.specs.declared.node.TheConstants.{MAX_NODE};
ghost use Rattle.ballots.specs.declared.members.TheConstants.{MAX_MEMBERS};
ghost use Rattle.ballots.specs.declared.slot.TheConstants.{MAX_SLOT};
ghost use Rattle.ballots.specs.declared.value.TheConstants.{MAX_UPLOAD_BYTES};
ghost use Rattle.ballots.specs.declared.message.TheConstants.{MAX_MESSAGE_BYTES};
ghost use Rattle.ballots.specs.declared.record.TheConstants.{MAX_RECORD_BYTES};
ghost use Rattle.ballots.specs.Limits.{max_round, max_node, max_members, max_slot, max_upload_bytes, max_message_bytes, max_record_bytes};
ghost use Rattle.ballots.specs.Ballot.{Ballot as Pair, IsBelow, IsAbove, IsAtLeast, ballot_cmp, is_same_ballot};
ghost use Rattle.ballots.specs.Majority.{tally, IsMajority};
ghost use Rattle.ballots.specs.Slots.{SetsSlot};
ghost use Rattle.ballots.specs.Message.{message, IsMessageText, IsInRange, CarriesUpload, HasUpload, canonical, value_bytes};
ghost use Rattle.ballots.specs.AllFields.{all_fields_text, all_record_fields_text};
ghost use Rattle.ballots.specs.declared.record.Record.{Record as Kept};
ghost use Rattle.ballots.specs.declared.record.Record.TheVariants.{Began, Promised, Accepted as HasAccepted, PromisedFrom};
ghost use Rattle.ballots.specs.Record.{IsRecordText, IsRecordInRange, KeepsUpload, canonical_record};

/// The limits of the definitions are these numbers, and the program's constants are the same.
pub fn limits_are_these()
    ensures round { (max_round ≡ 4000000000) × (MAX_ROUND ≡ max_round) }
    ensures node { (max_node ≡ 6) × (MAX_NODE ≡ max_node) }
    ensures members { (max_members ≡ 7) × (MAX_MEMBERS ≡ max_members) }
    ensures slot { (max_slot ≡ 999999) × (MAX_SLOT ≡ max_slot) }
    ensures upload_bytes { (max_upload_bytes ≡ 16777216) × (MAX_UPLOAD_BYTES ≡ max_upload_bytes) }
    ensures message_bytes { (max_message_bytes ≡ 16777245) × (MAX_MESSAGE_BYTES ≡ max_message_bytes) }
    ensures record_bytes { (max_record_bytes ≡ 16777235) × (MAX_RECORD_BYTES ≡ max_record_bytes) }
{}

/// Of two ballots that are not the same, exactly one is below the other, and below is carried along.
pub fn ballots_are_ordered()
    ensures not_below_itself { (a : Pair) → IsBelow a a → ⊥ }
    ensures carried { (a b c : Pair) → IsBelow a b → IsBelow b c → IsBelow a c }
    ensures either { (a b : Pair) → IsBelow a b ⊎ (a ≡ b) ⊎ IsBelow b a }
{}

/// Comparing by round and then by node answers by that order, and says that two are equal only of the same.
pub fn comparison_is_the_order()
    ensures less { (a b : Pair) → (ballot_cmp a b ≡ Less) ↔ IsBelow a b }
    ensures equal { (a b : Pair) → (ballot_cmp a b ≡ Equal) ↔ (a ≡ b) }
    ensures greater { (a b : Pair) → (ballot_cmp a b ≡ Greater) ↔ IsBelow b a }
{}

/// Every ballot is above none, and at least none. It is above a ballot exactly where that is below it, and at least a
/// ballot exactly where it is not below that.
#[tactic(auto, using(crate::proofs::CallerLemmas::at_least_where_not_below))]
pub fn none_is_below_every_ballot()
    ensures above_none { (b : Pair) → IsAbove b None }
    ensures at_least_none { (b : Pair) → IsAtLeast b None }
    ensures above { (a b : Pair) → IsAbove b (Some a) ↔ IsBelow a b }
    ensures at_least { (a b : Pair) → IsAtLeast b (Some a) ↔ (IsBelow b a → ⊥) }
{}

/// The test passes of one ballot alone.
#[tactic(auto, using(crate::proofs::CallerLemmas::same_ballot_is))]
pub fn same_ballots_are_one()
    ensures { (a b : Pair) → IsTrue (is_same_ballot a b) ↔ (a ≡ b) }
{}

/// The size of a set of members counts each member in it once: none is 0, all are all of them, one more is one more,
/// and sets of the same members have one size.
pub fn sizes_count_each_member_once()
    ensures none { (n : ℕ) → tally n (λ a. false) ≡ 0 }
    ensures all { (n : ℕ) → tally n (λ a. true) ≡ n }
    ensures one_more { (n a : ℕ) (is_in : ℕ → Bool) → a < n → is_in a ≡ false
        → tally n (λ b. is_in b || (a == b)) ≡ suc (tally n is_in) }
    ensures same { (n : ℕ) (p q : ℕ → Bool) → ((a : ℕ) → a < n → p a ≡ q a) → tally n p ≡ tally n q }
{}

/// Any two majorities have a member in common (Lamport, *Paxos Made Simple*, section 2.1), all members are a majority,
/// and a majority stays one with more members.
pub fn majorities_meet()
    ensures meet { (n : ℕ) (p q : ℕ → Bool) → IsMajority n (tally n p) → IsMajority n (tally n q)
        → (a : ℕ) × (a < n) × (p a ≡ true) × (q a ≡ true) }
    ensures all { (n : ℕ) → 0 < n → IsMajority n n }
    ensures stays { (n size more : ℕ) → IsMajority n size → size ≤ more → IsMajority n more }
{}

/// Where a slot is set, each slot has one entry afterwards: its own the new one, every other what it had.
#[tactic(auto, using(crate::proofs::Slots::set_slots))]
pub fn set_slots_are_one<X>()
    ensures { (old a b : ℕ → X) (slot : ℕ) (now : X) → SetsSlot old a slot now → SetsSlot old b slot now
        → (other : ℕ) → a other ≡ b other }
{}

/// A text means one message at most.
pub fn messages_are_one()
    ensures { (text : List ℕ) (m n : Meant) → IsMessageText text m → IsMessageText text n → m ≡ n }
{}

/// The one written encoding of a message means that message.
pub fn canonical_means_its_message()
    ensures { (m : Meant) → IsInRange m → IsMessageText (canonical m) m }
{}

/// Whatever its kind, a message is written as all eight fields in their order, those left out that are 0 or no bytes: a
/// Prepare as kind 1, and so on up to a Decided as kind 7.
#[tactic(auto, using(crate::proofs::AllFields::all_fields))]
pub fn messages_write_all_fields()
    ensures prepare { (s t : ℕ) (b : Pair) → canonical (message s t (Prepare b)) ≡ all_fields_text 1 s t b.round b.node 0 0 [] }
    ensures promise { (s t : ℕ) (b : Pair) → canonical (message s t (Promise b None)) ≡ all_fields_text 2 s t b.round b.node 0 0 [] }
    ensures report { (s t : ℕ) (b : Pair) (r : Acceptance) → canonical (message s t (Promise b (Some r)))
        ≡ all_fields_text 2 s t b.round b.node r.ballot.round r.ballot.node (value_bytes r.value) }
    ensures nack { (s t : ℕ) (b c : Pair) → canonical (message s t (Nack b c)) ≡ all_fields_text 3 s t b.round b.node c.round c.node [] }
    ensures accept { (s t : ℕ) (a : Acceptance) → canonical (message s t (Accept a))
        ≡ all_fields_text 4 s t a.ballot.round a.ballot.node 0 0 (value_bytes a.value) }
    ensures accepted { (s t : ℕ) (a : Acceptance) → canonical (message s t (Accepted a))
        ≡ all_fields_text 5 s t a.ballot.round a.ballot.node 0 0 (value_bytes a.value) }
    ensures ask { (s t : ℕ) → canonical (message s t Ask) ≡ all_fields_text 6 s t 0 0 0 0 [] }
    ensures decided { (s t : ℕ) (v : Value) → canonical (message s t (Decided v)) ≡ all_fields_text 7 s t 0 0 0 0 (value_bytes v) }
{}

/// Reading takes memory for the bytes of an upload alone: whatever has no value, or a Noop, takes none, whoever sends
/// it and for whichever slot.
pub fn only_uploads_take_memory()
    ensures message { (m : Meant) → HasUpload m → CarriesUpload m.body }
    ensures prepare { (b : Pair) → CarriesUpload (Prepare b) → ⊥ }
    ensures promise { (b : Pair) → CarriesUpload (Promise b None) → ⊥ }
    ensures report { (b : Pair) (a : Acceptance) → a.value ≡ Noop → CarriesUpload (Promise b (Some a)) → ⊥ }
    ensures nack { (b c : Pair) → CarriesUpload (Nack b c) → ⊥ }
    ensures accept { (a : Acceptance) → a.value ≡ Noop → CarriesUpload (Accept a) → ⊥ }
    ensures accepted { (a : Acceptance) → a.value ≡ Noop → CarriesUpload (Accepted a) → ⊥ }
    ensures ask { CarriesUpload Ask → ⊥ }
    ensures decided { CarriesUpload (Decided Noop) → ⊥ }
    ensures record_began { (b : Pair) → KeepsUpload (Began b) → ⊥ }
    ensures record_promised { (t : ℕ) (b : Pair) → KeepsUpload (Promised t b) → ⊥ }
    ensures record_accepted { (t : ℕ) (a : Acceptance) → a.value ≡ Noop → KeepsUpload (HasAccepted t a) → ⊥ }
    ensures record_promised_from { (t : ℕ) (b : Pair) → KeepsUpload (PromisedFrom t b) → ⊥ }
{}

/// A text means one record at most.
pub fn records_are_one()
    ensures { (text : List ℕ) (r q : Kept) → IsRecordText text r → IsRecordText text q → r ≡ q }
{}

/// The one written encoding of a record means that record.
pub fn canonical_means_its_record()
    ensures { (r : Kept) → IsRecordInRange r → IsRecordText (canonical_record r) r }
{}

/// Whatever its kind, a record is written as all five fields in their order, those left out that are 0 or no bytes: a
/// Began as kind 1, a Promised as kind 2, an Accepted as kind 3, a PromisedFrom as kind 4.
#[tactic(auto, using(crate::proofs::AllFields::all_record_fields))]
pub fn records_write_all_fields()
    ensures began { (b : Pair) → canonical_record (Began b) ≡ all_record_fields_text 1 0 b.round b.node [] }
    ensures promised { (t : ℕ) (b : Pair) → canonical_record (Promised t b) ≡ all_record_fields_text 2 t b.round b.node [] }
    ensures accepted { (t : ℕ) (a : Acceptance) → canonical_record (HasAccepted t a)
        ≡ all_record_fields_text 3 t a.ballot.round a.ballot.node (value_bytes a.value) }
    ensures promised_from { (t : ℕ) (b : Pair) → canonical_record (PromisedFrom t b)
        ≡ all_record_fields_text 4 t b.round b.node [] }
{}
