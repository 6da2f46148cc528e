//! Laws of the definitions that every reader here is proved against.

ghost use Rattle.std.specs.Prelude.{◌≡◌, ◌≤◌, ◌<◌, ℕ, ℤ, ◌+◌, ◌*◌, ◌^◌, List, ◌++◌, length, Option, Some};
ghost use Rattle.byteorder.specs.Endian.{little_bytes};
ghost use Rattle.flat_places.specs.declared.fault.PlaceFault.{PlaceFault};
ghost use Rattle.flat_places.specs.Number.{ShowsUint, ShowsInt, ShowsReference};
ghost use Rattle.flat_places.specs.Table.{ShowsTable, ShowsField};
ghost use Rattle.flat_places.specs.Vector.{ShowsVector, ShowsText};
ghost use Rattle.flat_places.specs.Fault.{NumberFault, VectorFault, TextFault, SlotFault};

/// A place shows at most one number of a size, and at most one signed one.
pub fn numbers_are_one()
    ensures number { (text : List ℕ) (place size x y : ℕ) → ShowsUint text place size x → ShowsUint text place size y
        → x ≡ y }
    ensures signed { (text : List ℕ) (place size : ℕ) (x y : ℤ) → ShowsInt text place size x
        → ShowsInt text place size y → x ≡ y }
{}

/// A reference names one place.
pub fn references_are_one()
    ensures { (text : List ℕ) (place x y : ℕ) → ShowsReference text place x → ShowsReference text place y → x ≡ y }
{}

/// A table has one vtable with one size, and each field stands at one place or is absent.
pub fn fields_are_one()
    ensures table { (text : List ℕ) (table v w m n : ℕ) → ShowsTable text table v m → ShowsTable text table w n
        → (v ≡ w) × (m ≡ n) }
    ensures field { (text : List ℕ) (table n : ℕ) (x y : Option ℕ) → ShowsField text table n x
        → ShowsField text table n y → x ≡ y }
{}

/// A place shows at most one vector of elements of a size.
pub fn vectors_are_one()
    ensures { (text : List ℕ) (place size i j m n : ℕ) → ShowsVector text place size i m
        → ShowsVector text place size j n → (i ≡ j) × (m ≡ n) }
{}

/// A place shows at most one string.
pub fn texts_are_one()
    ensures { (text : List ℕ) (place : ℕ) (xs ys : List ℕ) → ShowsText text place xs → ShowsText text place ys
        → xs ≡ ys }
{}

/// A string is a vector of elements of one byte, which are its bytes.
pub fn texts_are_vectors()
    ensures { (text : List ℕ) (place : ℕ) (bytes : List ℕ) → ShowsText text place bytes
        → ShowsVector text place 1 (place + 4) (length bytes) }
{}

/// Where a fault stands, nothing is shown.
pub fn faults_show_nothing()
    ensures number { (text : List ℕ) (place size : ℕ) (e : PlaceFault) (x : ℕ) → NumberFault text place size e
        → ¬ ShowsUint text place size x }
    ensures reference { (text : List ℕ) (place : ℕ) (e : PlaceFault) (x : ℕ) → NumberFault text place 4 e
        → ¬ ShowsReference text place x }
    ensures field { (text : List ℕ) (table n : ℕ) (e : PlaceFault) (x : Option ℕ) → SlotFault text table n e
        → ¬ ShowsField text table n x }
    ensures vector { (text : List ℕ) (place size i n : ℕ) (e : PlaceFault) → VectorFault text place size e
        → ¬ ShowsVector text place size i n }
    ensures string { (text : List ℕ) (place : ℕ) (e : PlaceFault) (bytes : List ℕ) → TextFault text place e
        → ¬ ShowsText text place bytes }
{}

/// What a text shows, it shows with any bytes behind it.
pub fn longer_texts_show_the_same()
    ensures number { (text more : List ℕ) (place size x : ℕ) → ShowsUint text place size x
        → ShowsUint (text ++ more) place size x }
    ensures reference { (text more : List ℕ) (place x : ℕ) → ShowsReference text place x
        → ShowsReference (text ++ more) place x }
    ensures field { (text more : List ℕ) (table n : ℕ) (x : Option ℕ) → ShowsField text table n x
        → ShowsField (text ++ more) table n x }
    ensures vector { (text more : List ℕ) (place size i n : ℕ) → ShowsVector text place size i n
        → ShowsVector (text ++ more) place size i n }
    ensures string { (text more : List ℕ) (place : ℕ) (bytes : List ℕ) → ShowsText text place bytes
        → ShowsText (text ++ more) place bytes }
{}

/// A number stands where its bytes were laid, whatever stands around them.
pub fn numbers_stand_where_they_were_laid()
    ensures { (before after : List ℕ) (size x : ℕ) → x < 256 ^ size
        → ShowsUint (before ++ little_bytes size x ++ after) (length before) size x }
{}

/// A field stands as many bytes behind its table as its slot says. The slot of field n is the one behind the vtable's
/// two sizes and the n slots before it.
pub fn fields_stand_where_their_slots_say()
    ensures { (text : List ℕ) (table vtable own_size n offset : ℕ) → ShowsTable text table vtable own_size
        → 6 + 2 * n ≤ own_size
        → ShowsUint text (vtable + 4 + 2 * n) 2 offset → 0 < offset → ShowsField text table n (Some (table + offset)) }
{}

/// What is shown lies in the text.
pub fn what_is_shown_lies_in_the_text()
    ensures number { (text : List ℕ) (place size x : ℕ) → ShowsUint text place size x → place + size ≤ length text }
    ensures reference { (text : List ℕ) (place x : ℕ) → ShowsReference text place x → place + 4 ≤ length text }
    ensures table { (text : List ℕ) (table v m : ℕ) → ShowsTable text table v m
        → (table + 4 ≤ length text) × (v + 2 ≤ length text) }
    ensures vector { (text : List ℕ) (place size i n : ℕ) → ShowsVector text place size i n
        → (i ≡ place + 4) × (i + n * size ≤ length text) }
    ensures string { (text : List ℕ) (place : ℕ) (bytes : List ℕ) → ShowsText text place bytes
        → place + 4 + length bytes ≤ length text }
{}

/// A number is no more than its own bytes: a shorter text in which they lie shows it too.
pub fn shorter_texts_show_the_same_numbers()
    ensures { (text more : List ℕ) (place size x : ℕ) → ShowsUint (text ++ more) place size x
        → place + size ≤ length text
        → ShowsUint text place size x }
{}
