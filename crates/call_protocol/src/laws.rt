//! Laws of the words of calls.

ghost use Rattle.std.specs.Prelude.{◌≡◌, ◌≢◌, ◌≤◌, ◌<◌, ◌++◌, ℕ, List, length};
ghost use Rattle.table_types.specs.Valid.{IsId};
ghost use Rattle.call_protocol.specs.declared.method.Method.{Method as Named};
ghost use Rattle.call_protocol.specs.declared.refusal.CallRefusal.{CallRefusal as Refused};
ghost use Rattle.call_protocol.specs.declared.status.Status.{Status as Told};
ghost use Rattle.call_protocol.specs.Methods.{path_text, PathFault};
ghost use Rattle.call_protocol.specs.Statuses.{code_of, status_of, name_of, refusal_trailer, ok_trailer};
ghost use Rattle.call_protocol.specs.Names.{Descriptor, id_text, NamesTable, NamesUpload, TableFault, UploadNameFault};

/// No call that is refused ends with status 0, which is that of a call that was answered (gRPC, "Status codes and their use
/// in gRPC"); and each refusal has a text, of at most 14 bytes.
pub fn refusals_are_told()
    ensures not_ok { (refusal : Refused) → code_of (status_of refusal) ≢ 0 }
    ensures named { (refusal : Refused) → 1 ≤ length (name_of refusal) }
    ensures short { (refusal : Refused) → length (name_of refusal) ≤ 14 }
{}

/// A path asks for one method, and a path that asks for one is not refused.
pub fn paths_are_one()
    ensures one { (x y : Named) → path_text x ≡ path_text y → x ≡ y }
    ensures apart { (x : Named) (refusal : Refused) → ¬ PathFault (path_text x) refusal }
{}

/// A descriptor names one table, or one upload, and one that names one is not refused for it. The ids of uploads are
/// told apart by their digits, of which there are 32.
pub fn descriptors_name_one()
    ensures table { (d : Descriptor) (x y : List ℕ) → NamesTable d x → NamesTable d y → x ≡ y }
    ensures apart { (d : Descriptor) (x : List ℕ) (refusal : Refused) → NamesTable d x → ¬ TableFault d refusal }
    ensures upload { (d : Descriptor) (t u x y : List ℕ) → NamesUpload d t x → NamesUpload d u y → (t ≡ u) × (x ≡ y) }
    ensures upload_apart { (d : Descriptor) (t x : List ℕ) (refusal : Refused) → NamesUpload d t x
        → ¬ UploadNameFault d refusal }
    ensures digits { (x : List ℕ) → IsId x → length (id_text x) ≡ 32 }
{}
