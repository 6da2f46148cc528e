//! Laws of the definitions that every call here is proved against.

ghost use Rattle.std.specs.Prelude.{◌≡◌, ◌==◌, ℕ, ◌+◌, ◌*◌, ◌/◌, ◌%◌, ◌^◌, ◌<◌, ◌≤◌, Bool, true, false, List};
ghost use Rattle.std.specs.Prelude.{[], ◌∷◌, ◌++◌, length, get_or, ◌↔◌, ◌≢◌};
ghost use Rattle.bitmaps.specs.Bits.{bit_of, bits_of, zeros};
ghost use Rattle.bitmaps.specs.Joined.{set_in_both, set_in_one};
ghost use Rattle.bitmaps.specs.Packed.{IsPacked};
ghost use Rattle.bitmaps.specs.Packing.{packed_bytes};

/// Bit j of a byte is its j-th binary digit, the lowest first, and behind eight bits of one byte stand those of the
/// next. No bytes have no bit that is set.
pub fn bits_are_binary_digits()
    ensures first { (byte : ℕ) (rest : List ℕ) (j : ℕ) → j < 8 → bit_of (byte ∷ rest) j ≡ (byte / 2 ^ j % 2 == 1) }
    ensures next { (byte : ℕ) (rest : List ℕ) (j : ℕ) → bit_of (byte ∷ rest) (8 + j) ≡ bit_of rest j }
    ensures none { (j : ℕ) → bit_of [] j ≡ false }
{}

/// A run of bits has as many as it says, each where it stands; two runs that follow one another are one run.
pub fn runs_are_bits_in_order()
    ensures count { (bytes : List ℕ) (start count : ℕ) → length (bits_of bytes start count) ≡ count }
    ensures each { (bytes : List ℕ) (start count i : ℕ) → i < count
        → get_or (bits_of bytes start count) i false ≡ bit_of bytes (start + i) }
    ensures joined { (bytes : List ℕ) (start m n : ℕ)
        → bits_of bytes start (m + n) ≡ bits_of bytes start m ++ bits_of bytes (start + m) n }
{}

/// Each bit that is not set counts one, and no other.
pub fn zeros_add_up()
    ensures none { zeros [] ≡ 0 }
    ensures unset { (rest : List Bool) → zeros (false ∷ rest) ≡ 1 + zeros rest }
    ensures set { (rest : List Bool) → zeros (true ∷ rest) ≡ zeros rest }
{}

/// A list of bits has one packed form, and that form has one list of so many bits.
pub fn packed_is_one()
    ensures bytes { (bits : List Bool) (x y : List ℕ) → ((k : ℕ) → get_or x k 0 < 256) → ((k : ℕ) → get_or y k 0 < 256)
        → IsPacked bits x → IsPacked bits y → x ≡ y }
    ensures bits { (x y : List Bool) (bytes : List ℕ) → IsPacked x bytes → IsPacked y bytes → length x ≡ length y
        → x ≡ y }
    ensures held { (bits : List Bool) (bytes : List ℕ) → IsPacked bits bytes → bits ≡ bits_of bytes 0 (length bits) }
    ensures clear { (bits : List Bool) (bytes : List ℕ) (j : ℕ) → IsPacked bits bytes → length bits ≤ j
        → bit_of bytes j ≡ false }
{}

/// Every list of bits has a packed form: a byte for each eight bits, the first of them its lowest.
pub fn bits_are_packed_by_eights()
    ensures { (bits : List Bool) → IsPacked bits (packed_bytes bits) }
{}

/// Two lists of as many bits are joined bit by bit, and no bit is added or left out: a bit is set in both where it is set
/// in each of them, and set in one of them alone where they differ.
pub fn lists_are_joined_bit_by_bit()
    ensures both { (xs ys : List Bool) (j : ℕ) → length xs ≡ length ys
        → (get_or (set_in_both xs ys) j false ≡ true) ↔ ((get_or xs j false ≡ true) × (get_or ys j false ≡ true)) }
    ensures one { (xs ys : List Bool) (j : ℕ) → length xs ≡ length ys
        → (get_or (set_in_one xs ys) j false ≡ true) ↔ (get_or xs j false ≢ get_or ys j false) }
    ensures long_both { (xs ys : List Bool) → length xs ≡ length ys → length (set_in_both xs ys) ≡ length xs }
    ensures long_one { (xs ys : List Bool) → length xs ≡ length ys → length (set_in_one xs ys) ≡ length xs }
{}
