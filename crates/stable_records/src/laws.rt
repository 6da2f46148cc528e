//! Laws of the definitions that every store is proved against.

ghost use Rattle.std.specs.Prelude.{◌≡◌, ◌≢◌, ◌⊎◌, ◌↔◌, ℕ, ◌≤◌, Bool, false, IsTrue, List, [], ◌∷◌, ◌++◌, map};
ghost use Rattle.std.specs.Prelude.{Contains, Some, Ok, Err, IsOk, IfErr, Result, Vec};
ghost use Rattle.std.specs.declared.alloc.Global.{Global as Allocator};
ghost use Rattle.ballots.specs.declared.record.Record.{Record};
ghost use Rattle.stable_records.specs.declared.fault.StoreFault.{StoreFault};
ghost use Rattle.stable_records.specs.Found.{Found, FindsOnly, FindsSame, AddsRecord, IsCutShort};
ghost use Rattle.stable_records.specs.declared.fault.StoreFault.TheVariants.{Device, Damaged, Broken, OutOfMemory};
ghost use Rattle.stable_records.specs.Calls.{CountsFault, ReadyAfterKeep, ReadyAfterRecall};
ghost use Rattle.stable_records.specs.Calls.{Keeps, Recalls, LeftInKeep};
ghost use Rattle.stable_records.specs.Moments.{AnyCrashLeaves};
ghost use Rattle.stable_records.specs.Telling.{Telling, kept, doubted, MayStand, with_keep, with_crash, StandsAfter};

use crate::stable::Stable;

/// What was kept is never lost, whatever failed before or since: each record whose keep was `Ok` stands, in the order
/// of the keeps, and nothing stands that no keep was told. Where none was broken off these records stand and no other;
/// where the last one was, it stands behind them or does not.
pub fn what_was_kept_stands()
    ensures kept { (tellings : List Telling) (records : List Record) (told : Record) → MayStand tellings records
        → Contains tellings (kept told) → Contains records told }
    ensures told { (tellings : List Telling) (records : List Record) (told : Record) → MayStand tellings records
        → Contains records told → Contains tellings (kept told) ⊎ Contains tellings (doubted told) }
    ensures in_order { (first second : List Telling) (records : List Record) → MayStand (first ++ second) records
        → (early late : List Record) × MayStand first early × MayStand second late × (records ≡ early ++ late) }
    ensures together { (first second : List Telling) (early late : List Record) → MayStand first early
        → MayStand second late → MayStand (first ++ second) (early ++ late) }
    ensures all_kept { (told records : List Record) → MayStand (map kept told) records → records ≡ told }
    ensures last_doubted { (told records : List Record) (last : Record)
        → MayStand (map kept told ++ doubted last ∷ []) records → (records ≡ told) ⊎ (records ≡ told ++ last ∷ []) }
{}

/// What a store finds stands after the keeps that it was told, call by call: a keep counts as its answer says, a recall
/// that is `Ok` gives what may stand, and a crash in the midst of a keep leaves it in doubt.
pub fn answers_tell_what_stands<S: Stable>()
    ensures keep { (old new : S) (tellings : List Telling) (last : Record) (answer : Result (Unit {0}) StoreFault)
        → StandsAfter tellings (S.finds old) → Keeps last answer (S.finds old) (S.finds new)
        → StandsAfter (with_keep tellings last answer) (S.finds new) }
    ensures recall { (old new : S) (tellings : List Telling) (answer : Result (Vec Record Allocator) StoreFault)
        → StandsAfter tellings (S.finds old) → Recalls answer (S.finds old) (S.finds new)
        → StandsAfter tellings (S.finds new) }
    ensures recalled { (old new : S) (tellings : List Telling) (records : Vec Record Allocator)
        → StandsAfter tellings (S.finds old) → Recalls (Ok records) (S.finds old) (S.finds new)
        → MayStand tellings records.items × StandsAfter (map kept records.items) (S.finds new) }
    ensures undamaged { (old new : S) (tellings : List Telling) → StandsAfter tellings (S.finds old)
        → Recalls (Err Damaged) (S.finds old) (S.finds new) → ⊥ }
    ensures crash { (old new : S) (tellings : List Telling) (last : Record) (answer : Result (Unit {0}) StoreFault)
        (found : Found) → StandsAfter tellings (S.finds old)
        → AnyCrashLeaves S.moment S.finds_since old new (LeftInKeep last answer (S.finds old))
        → S.finds_since new (S.moment old) found
        → (records : List Record) × MayStand (with_crash tellings last answer) records × (found ≡ Some records) }
{}

/// Where one list of records is found, one is found after a keep that is `Ok`: that list, with the record behind it.
/// Where a keep changes nothing, it is that list.
pub fn one_list_stays_one<S: Stable>()
    ensures one { (old new : S) (records : List Record) (last : Record) → FindsOnly (S.finds old) records
        → AddsRecord last (S.finds old) (S.finds new) → FindsOnly (S.finds new) (records ++ last ∷ []) }
    ensures unchanged { (old new : S) (records : List Record) → FindsOnly (S.finds old) records
        → FindsSame (S.finds old) (S.finds new) → FindsOnly (S.finds new) records }
    ensures stands { (store : S) (records : List Record) → FindsOnly (S.finds store) records
        → StandsAfter (map kept records) (S.finds store) }
{}

/// A crash in the midst of keeps, one after another, cuts them short: the records from before them stand, and of those
/// that were told the first ones, none skipped.
pub fn crashes_cut_keeps_short<S: Stable>()
    ensures begins { (store : S) (records : List Record) → FindsOnly (S.finds store) records
        → AnyCrashLeaves S.moment S.finds_since store store (IsCutShort records []) }
    ensures goes_on { (old mid new : S) (records told : List Record) (last : Record)
        (answer : Result (Unit {0}) StoreFault) → FindsOnly (S.finds mid) (records ++ told)
        → AnyCrashLeaves S.moment S.finds_since old mid (IsCutShort records told)
        → AnyCrashLeaves S.moment S.finds_since mid new (LeftInKeep last answer (S.finds mid))
        → AnyCrashLeaves S.moment S.finds_since old new (IsCutShort records (told ++ last ∷ [])) }
{}

/// Where the count of faults stays as it was, no fault was told but want of memory. It never falls, and neither an `Ok`
/// nor want of memory raises it.
pub fn faults_raise_the_count()
    ensures cause { (answer : Result (Unit {0}) StoreFault) (count : ℕ) → CountsFault answer count count
        → IfErr answer (λ fault. fault ≡ OutOfMemory) }
    ensures never_falls { (answer : Result (Unit {0}) StoreFault) (old new : ℕ) → CountsFault answer old new
        → old ≤ new }
    ensures nothing_else { (answer : Result (Unit {0}) StoreFault) (old new : ℕ) → CountsFault answer old new
        → IsOk answer ⊎ (answer ≡ Err OutOfMemory) → new ≡ old }
{}

/// A keep is Broken exactly where the store is not ready. It is ready from a recall that is `Ok` until a call is
/// Device, and no other answer changes that. No keep is Damaged, and no recall is Broken.
pub fn ready_from_a_recall_to_a_failure()
    ensures broken { (old new : Bool) (answer : Result (Unit {0}) StoreFault) → ReadyAfterKeep answer old new
        → (answer ≡ Err Broken) ↔ (old ≡ false) }
    ensures keep { (old new : Bool) (answer : Result (Unit {0}) StoreFault) → ReadyAfterKeep answer old new
        → IsTrue new ↔ (IsTrue old × (answer ≢ Err Device)) }
    ensures recall { (old new : Bool) (answer : Result (Unit {0}) StoreFault) → ReadyAfterRecall answer old new
        → IsTrue new ↔ (IsOk answer ⊎ (IsTrue old × (answer ≢ Err Device))) }
    ensures never_damaged { (old new : Bool) (answer : Result (Unit {0}) StoreFault) → ReadyAfterKeep answer old new
        → answer ≢ Err Damaged }
    ensures never_broken { (old new : Bool) (answer : Result (Unit {0}) StoreFault) → ReadyAfterRecall answer old new
        → answer ≢ Err Broken }
{}

/// A call takes time: a crash at its first moment leaves what was found before it, and one at its last moment what is
/// found after it.
pub fn calls_begin_and_end<S: Stable>()
    ensures begins { (old new : S) (found : Found) → AnyCrashLeaves S.moment S.finds_since old new (S.finds old)
        → S.finds old found → S.finds_since new (S.moment old) found }
    ensures ends { (old new : S) (found : Found) → AnyCrashLeaves S.moment S.finds_since old new (S.finds old)
        → S.finds new found → S.finds_since new (S.moment old) found }
{}
