//! Laws of the definitions that every call here is proved against.

ghost use Rattle.std.specs.Prelude.{◌≡◌, ℕ, ◌+◌, ◌-◌, ◌<◌, List, [], ◌∷◌, ◌++◌, Option, Some, None};
ghost use Rattle.std.specs.Prelude.{length, min, slice_get};
ghost use Rattle.ballots.specs.declared.value.Value.{Value};
ghost use Rattle.decided_log.specs.declared.log.TheConstants.{MAX_ASKED};
ghost use Rattle.decided_log.specs.Decided.{Inserts, Holds, IsSame, IsPrefix};
ghost use Rattle.decided_log.specs.Asked.{max_asked, decided_message, asked_of};

/// The limit of the definitions is this number, and the program's constant is the same.
pub fn limit_is_this()
    ensures asked { (max_asked ≡ 16) × (MAX_ASKED ≡ max_asked) }
{}

/// An insert leaves one thing, slot by slot: a slot that has a value keeps it, a slot that has none takes the value,
/// and every other slot has what it had.
pub fn inserts_are_one()
    ensures one { (old a b : ℕ → Option Value) (slot : ℕ) (value : Value) → Inserts old a slot value
        → Inserts old b slot value → (other : ℕ) → a other ≡ b other }
    ensures keeps { (old new : ℕ → Option Value) (slot : ℕ) (value : Value) → Inserts old new slot value
        → (other : ℕ) (held : Value) → old other ≡ Some held → new other ≡ Some held }
    ensures takes { (old new : ℕ → Option Value) (slot : ℕ) (value : Value) → Inserts old new slot value
        → old slot ≡ None → new slot ≡ Some value }
{}

/// What a list of inserts leaves is one thing, slot by slot: after no inserts nothing, and after one insert more what
/// that leaves.
pub fn inserts_add_up()
    ensures one { (inserts : List (ℕ × Value)) (a b : ℕ → Option Value) → Holds inserts a → Holds inserts b
        → (slot : ℕ) → a slot ≡ b slot }
    ensures none { (at : ℕ → Option Value) → Holds [] at → (slot : ℕ) → at slot ≡ None }
    ensures more { (inserts : List (ℕ × Value)) (old new : ℕ → Option Value) (slot : ℕ) (value : Value)
        → Holds inserts old → Inserts old new slot value → Holds (inserts ++ (slot, value) ∷ []) new }
    ensures back { (inserts : List (ℕ × Value)) (old new : ℕ → Option Value) (slot : ℕ) (value : Value)
        → Holds inserts old → Holds (inserts ++ (slot, value) ∷ []) new → Inserts old new slot value }
    ensures same { (inserts : List (ℕ × Value)) (old new : ℕ → Option Value) → Holds inserts old → IsSame old new
        → Holds inserts new }
{}

/// What is known slot by slot has one prefix: the values up to the first gap. It only grows.
pub fn prefixes_are_one()
    ensures one { (at : ℕ → Option Value) (xs ys : List Value) → IsPrefix at xs → IsPrefix at ys → xs ≡ ys }
    ensures grows { (old new : ℕ → Option Value) (slot : ℕ) (value : Value) (xs ys : List Value)
        → Inserts old new slot value → IsPrefix old xs → IsPrefix new ys → (more : List Value) × (ys ≡ xs ++ more) }
{}

/// One that asks for what is decided from a slot on is answered with a message for that slot, the next for the next
/// slot, and so on: each with the prefix's value of its slot, sixteen of them at most, and below that none is left out.
pub fn asked_is_a_run_of_the_prefix()
    ensures count { (node from : ℕ) (prefix : List Value)
        → length (asked_of node prefix from) ≡ min 16 (length prefix - from) }
    ensures each { (node from k : ℕ) (prefix : List Value) → k < length (asked_of node prefix from)
        → (value : Value) × (slice_get prefix (from + k) ≡ Some value)
        × (slice_get (asked_of node prefix from) k ≡ Some (decided_message node (from + k) value)) }
{}
