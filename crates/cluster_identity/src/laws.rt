//! Laws of the definitions that the functions are proved against.

ghost use Rattle.std.specs.Prelude.{◌≡◌, ℕ, ◌≤◌, ◌++◌, List, length};
ghost use Rattle.cluster_identity.specs.Marks.{first_part, last_part};
ghost use Rattle.cluster_identity.specs.declared.file_mark.FileMark.{FileMark as Mark};
ghost use Rattle.cluster_identity.specs.Identities.{MeansIdentity};
ghost use Rattle.cluster_identity.specs.IdentityTexts.{IsIdentity, identity_text};

/// The first part that is digested is what the bytes begin with, and the last one is what they end with.
pub fn parts_are_the_ends()
    ensures first { (bytes : List ℕ) → (rest : List ℕ) × (bytes ≡ first_part bytes ++ rest) }
    ensures last { (bytes : List ℕ) → (before : List ℕ) × (bytes ≡ before ++ last_part bytes) }
    ensures all { (bytes : List ℕ) → length bytes ≤ 4096 → (first_part bytes ≡ bytes) × (last_part bytes ≡ bytes) }
    ensures most { (bytes : List ℕ) → 4096 ≤ length bytes
        → (length (first_part bytes) ≡ 4096) × (length (last_part bytes) ≡ 4096) }
{}

/// A text means one identity at most.
pub fn identities_are_one()
    ensures { (text : List ℕ) (m n : ℕ) (i j : List ℕ) (f g : List Mark) → MeansIdentity text m i f
        → MeansIdentity text n j g → (m ≡ n) × (i ≡ j) × (f ≡ g) }
{}

/// The text that is written of an identity means it.
pub fn texts_are_read_back()
    ensures { (members : ℕ) (id : List ℕ) (files : List Mark) → IsIdentity members id files
        → MeansIdentity (identity_text members id files) members id files }
{}
