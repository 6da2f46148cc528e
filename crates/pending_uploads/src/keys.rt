//! The keys by which uploads are found: their ids, and hashes of their encodings.

ghost use Rattle.std.specs.Prelude.{◌≡◌, ◌↔◌, ◌+◌, ◌<◌, ◌≤◌, ◌∷◌, ◌++◌, [], IsTrue, IfSome, OnOk, OnErr, IfErr};
ghost use Rattle.std.specs.List.{Contains, AllByRecursion};
ghost use Rattle.indexmap.specs.IndexMap.{values, spare, IsUnchanged};
ghost use Rattle.pending_uploads.specs.Keys.{StandsByName, StandsByHash, hash_of as hash_of_text};

use crate::keyed::{Keyed, has, put};
use std::hash::{BuildHasher, Hasher, RandomState};
use uploads::Upload;

/// Uploads that stand under their ids.
pub(crate) type Named = Keyed<[u8; 16]>;

/// Uploads that stand under hashes of their encodings.
pub(crate) type Hashed = Keyed<u64>;

/// A hash of the upload's encoding. Nobody foresees it without the random keys.
fn hash_of(hashing: &RandomState, upload: &Upload) -> u64
    ensures { result ≡ hash_of_text hashing.now upload.now }
{
    let mut hasher = hashing.build_hasher();
    hasher.write(upload.as_slice());
    hasher.finish()
}

/// The id at the place where an upload's encoding has it, behind the field of its table (Protocol Buffers, "Encoding").
/// Of bytes that are no upload's it may be any: it serves to look for those that are.
fn name_in(text: &[u8]) -> Option<[u8; 16]> {
    let table = usize::from(*text.get(1)?);
    let name = text.get(4 + table..20 + table)?;
    name.first_chunk::<16>().copied()
}

/// The upload of which these bytes are the encoding, where it stands under its id.
pub(crate) fn find_named<'a>(named: &'a Named, text: &[u8]) -> Option<&'a Upload>
    ensures { IfSome result (λ upload. upload.now ≡ text.now) }
{
    let found = named.get(&name_in(text)?)?;
    if found.as_slice() == text {
        Some(found)
    } else {
        None
    }
}

/// Whether the upload is one of these.
fn is_named(named: &Named, upload: &Upload) -> bool
    requires { AllByRecursion StandsByName named.now.entries }
    ensures { IsTrue result ↔ Contains (values named.now) upload.now }
{
    let _text = upload.as_slice();
    let name = upload.id();
    has(named, &name, upload)
}

/// Whether the upload is one of these. It is hashed only where there are some.
fn is_hashed(hashing: &RandomState, hashed: &Hashed, upload: &Upload) -> bool
    requires { AllByRecursion (StandsByHash hashing.now) hashed.now.entries }
    ensures { IsTrue result ↔ Contains (values hashed.now) upload.now }
{
    if hashed.is_empty() {
        return false;
    }
    let hash = hash_of(hashing, upload);
    has(hashed, &hash, upload)
}

/// Whether the upload is one of either.
pub(crate) fn is_keyed(
    hashing: &RandomState,
    named: &Named,
    hashed: &Hashed,
    upload: &Upload,
) -> bool
    requires by_name { AllByRecursion StandsByName named.now.entries }
    requires by_hash { AllByRecursion (StandsByHash hashing.now) hashed.now.entries }
    ensures { IsTrue result ↔ Contains (values named.now ++ values hashed.now) upload.now }
{
    is_named(named, upload) || is_hashed(hashing, hashed, upload)
}

/// Puts the upload behind the others under its id, or hands it back where another has that id.
fn put_named(named: &mut Named, upload: Upload) -> Result<(), Upload>
    requires room { 0 < spare named.old }
    requires stand { AllByRecursion StandsByName named.old.entries }
    ensures put { OnOk result (values named.new ≡ values named.old ++ upload ∷ []) }
    ensures same { OnErr result (IsUnchanged named.old named.new) }
    ensures back { IfErr result (λ back. back ≡ upload) }
    ensures stand { AllByRecursion StandsByName named.new.entries }
    ensures room { spare named.old ≤ spare named.new + 1 }
{
    let _text = upload.as_slice();
    let name = upload.id();
    put(named, name, upload)
}

/// Puts the upload behind the others under its hash, or hands it back where another has that hash.
fn put_hashed(hashing: &RandomState, hashed: &mut Hashed, upload: Upload) -> Result<(), Upload>
    requires room { 0 < spare hashed.old }
    requires stand { AllByRecursion (StandsByHash hashing.now) hashed.old.entries }
    ensures put { OnOk result (values hashed.new ≡ values hashed.old ++ upload ∷ []) }
    ensures same { OnErr result (IsUnchanged hashed.old hashed.new) }
    ensures back { IfErr result (λ back. back ≡ upload) }
    ensures stand { AllByRecursion (StandsByHash hashing.now) hashed.new.entries }
    ensures room { spare hashed.old ≤ spare hashed.new + 1 }
{
    let _text = upload.as_slice();
    let hash = hash_of(hashing, &upload);
    put(hashed, hash, upload)
}

/// Puts the upload behind those of both, under its id or under its hash, or hands it back where others have both.
pub(crate) fn put_keyed(
    hashing: &RandomState,
    named: &mut Named,
    hashed: &mut Hashed,
    upload: Upload,
) -> Result<(), Upload>
    requires name_room { 0 < spare named.old }
    requires hash_room { 0 < spare hashed.old }
    requires by_name { AllByRecursion StandsByName named.old.entries }
    requires by_hash { AllByRecursion (StandsByHash hashing.now) hashed.old.entries }
    ensures put { OnOk result
        (values named.new ++ values hashed.new ≡ (values named.old ++ values hashed.old) ++ upload ∷ []) }
    ensures same { OnErr result (values named.new ++ values hashed.new ≡ values named.old ++ values hashed.old) }
    ensures back { IfErr result (λ back. back ≡ upload) }
    ensures by_name { AllByRecursion StandsByName named.new.entries }
    ensures by_hash { AllByRecursion (StandsByHash hashing.now) hashed.new.entries }
    ensures name_room { spare named.old ≤ spare named.new + 1 }
    ensures hash_room { spare hashed.old ≤ spare hashed.new + 1 }
{
    if !hashed.is_empty() {
        return put_hashed(hashing, hashed, upload);
    }
    match put_named(named, upload) {
        Ok(()) => Ok(()),
        Err(upload) => put_hashed(hashing, hashed, upload),
    }
}
