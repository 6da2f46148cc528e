//! Laws of the definitions that every reader and writer here is proved against.

ghost use Rattle.std.specs.Prelude.{◌≡◌, ℕ, ◌<◌, ◌≤◌, ◌^◌, ◌==◌, if◌then◌else◌, true, List, [], ◌∷◌, ◌++◌, length, Ok};
ghost use Rattle.std.specs.List.{AllByRecursion};
ghost use Rattle.proto_fields.specs.declared.fault.WireFault.{WireFault};
ghost use Rattle.proto_fields.specs.declared.field.TheConstants.{MAX_FIELD_NUMBER};
ghost use Rattle.proto_fields.specs.declared.varint.TheConstants.{MAX_VARINT_BYTES};
ghost use Rattle.proto_fields.specs.Varint.{IsVarint, max_varint_bytes, varint_text};
ghost use Rattle.proto_fields.specs.Field.{Field, BeginsWith, FieldFault, IsFields, FieldsFault, FitsField};
ghost use Rattle.proto_fields.specs.Field.{fields_text, max_field_number, present};
ghost use Rattle.proto_fields.specs.Meaning.{number_in, bytes_in, all_hold, things_of, number_meant, bytes_meant};
ghost use Rattle.proto_fields.specs.Meaning.{after};
ghost use Rattle.proto_fields.specs.Reading.{IsBytes, field_read};

/// The program's limits are those of the definitions: the greatest field number is 2^29 - 1, and a varint has at most
/// ten bytes.
pub fn limits_are_those_defined()
    ensures field_number { MAX_FIELD_NUMBER ≡ max_field_number }
    ensures varint_bytes { MAX_VARINT_BYTES ≡ max_varint_bytes }
{}

/// A text is a list of fields in at most one way.
pub fn fields_are_one()
    ensures { (text : List ℕ) (fs gs : List Field) → IsFields text fs → IsFields text gs → fs ≡ gs }
{}

/// At most one field stands at the front of a text, so no field's encoding begins another's.
pub fn front_field_is_one()
    ensures { (text : List ℕ) (f g : Field) (x y : List ℕ)
        → BeginsWith text f x → BeginsWith text g y → (f ≡ g) × (x ≡ y) }
{}

/// What is written for fields that have an encoding is an encoding of them.
pub fn canonical_fields_are_fields()
    ensures { (fields : List Field) → AllByRecursion FitsField fields → IsFields (fields_text fields) fields }
{}

/// What is written for a number of 64 bits encodes it, and no encoding is shorter.
pub fn canonical_varint_is_shortest()
    ensures encodes { (n : ℕ) → n < 2 ^ 64 → IsVarint (varint_text n) n }
    ensures shortest { (bytes : List ℕ) (n : ℕ) → IsVarint bytes n → length (varint_text n) ≤ length bytes }
{}

/// Reading a text of bytes from left to right finds a field at its front exactly where one is encoded there.
pub fn reading_is_encoding()
    ensures read { (text : List ℕ) (f : Field) (rest : List ℕ)
        → IsBytes text → field_read text ≡ Ok (f, rest) → BeginsWith text f rest }
    ensures encoded { (text : List ℕ) (f : Field) (rest : List ℕ)
        → BeginsWith text f rest → field_read text ≡ Ok (f, rest) }
{}

/// One field more of a number decides what the number's fields mean, and every other number means what it did
/// (Protocol Buffers, "Last One Wins").
pub fn last_one_wins()
    ensures number { (n : ℕ) (fields : List Field) (f : Field) → number_meant n (fields ++ f ∷ [])
        ≡ (if f.number == n then after (number_meant n fields) (number_in f.held) else number_meant n fields) }
    ensures bytes { (n : ℕ) (fields : List Field) (f : Field) → bytes_meant n (fields ++ f ∷ [])
        ≡ (if f.number == n then after (bytes_meant n fields) (bytes_in f.held) else bytes_meant n fields) }
{}

/// Fields that hold their default may be left out: what is written means the same, where at most one field has a
/// number.
pub fn defaults_are_left_out()
    ensures number { (n : ℕ) (fields : List Field)
        → all_hold number_in n fields ≡ true → length (things_of number_in n fields) ≤ 1
        → number_meant n (present fields) ≡ number_meant n fields }
    ensures bytes { (n : ℕ) (fields : List Field)
        → all_hold bytes_in n fields ≡ true → length (things_of bytes_in n fields) ≤ 1
        → bytes_meant n (present fields) ≡ bytes_meant n fields }
{}

/// Where a fault stands, nothing else does: no field at the front of the text, and no list of fields. So a reader that
/// tells a fault has refused what nobody can read.
pub fn faults_stand_apart()
    ensures field { (text : List ℕ) (fault : WireFault) (f : Field) (rest : List ℕ)
        → FieldFault fault text → ¬ BeginsWith text f rest }
    ensures fields { (text : List ℕ) (fault : WireFault) (fields : List Field)
        → FieldsFault fault text → ¬ IsFields text fields }
{}
