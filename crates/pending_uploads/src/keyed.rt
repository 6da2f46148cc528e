//! Uploads in the order in which they came, each under a key by which it is found.

ghost use Rattle.std.specs.Prelude.{◌≡◌, ◌↔◌, ◌+◌, ◌<◌, ◌≤◌, ◌^◌, ◌∷◌, ◌++◌, [], Some, length, slice_get};
ghost use Rattle.std.specs.Prelude.{IsTrue, OnOk, OnErr, IfErr};
ghost use Rattle.std.specs.Option.{option_map};
ghost use Rattle.indexmap.specs.IndexMap.{get, values, spare, IsUnique, IsUnchanged};
ghost use Rattle.pending_uploads.specs.Keys.{KeepsUnknown};

use crate::unknown::is_unknown;
use indexmap::IndexMap;
use std::hash::{Hash, RandomState};
use table_versions::Tables;
use uploads::Upload;

/// Such uploads: no two have one key.
pub(crate) type Keyed<K> = IndexMap<K, Upload, RandomState>;

/// The one that came first.
pub(crate) fn first<K: Eq + Hash>(uploads: &Keyed<K>) -> Option<&Upload>
    ensures { option_map (λ upload. upload.now) result ≡ slice_get (values uploads.now) 0 }
{
    match uploads.first() {
        Some((_, upload)) => Some(upload),
        None => None,
    }
}

/// How many there are.
pub(crate) fn count<K: Eq + Hash>(uploads: &Keyed<K>) -> usize
    ensures count { result ≡ length (values uploads.now) }
    ensures few { result < 2 ^ 62 }
{
    uploads.values().as_slice().len()
}

/// Whether it is this upload that stands under the key.
pub(crate) fn has<K: Eq + Hash>(uploads: &Keyed<K>, key: &K, upload: &Upload) -> bool
    ensures has { IsTrue result ↔ (get K.eq uploads.now key.now ≡ Some upload.now) }
    ensures unique { IsUnique K.eq uploads.now }
{
    let _unique = uploads.len();
    match uploads.get(key) {
        Some(found) => found == upload,
        None => false,
    }
}

/// Puts the upload behind the others under this key, or hands it back where one stands there. It takes no memory.
pub(crate) fn put<K: Eq + Hash + Drop>(
    uploads: &mut Keyed<K>,
    key: K,
    upload: Upload,
) -> Result<(), Upload>
    requires { 0 < spare uploads.old }
    ensures put { OnOk result (uploads.new.entries ≡ uploads.old.entries ++ (key, upload) ∷ []) }
    ensures same { OnErr result (IsUnchanged uploads.old uploads.new) }
    ensures back { IfErr result (λ back. back ≡ upload) }
    ensures room { spare uploads.old ≤ spare uploads.new + 1 }
{
    if uploads.contains_key(&key) {
        return Err(upload);
    }
    match uploads.insert(key, upload) {
        Ok(_) => Ok(()),
        Err(_) => unreachable!(),
    }
}

/// Keeps those of which these tables know nothing, in their order. It takes no memory.
pub(crate) fn keep_unknown<K: Eq + Hash + Drop>(uploads: &mut Keyed<K>, tables: &Tables)
    ensures kept { KeepsUnknown tables.now uploads.old.entries uploads.new.entries }
    ensures room { spare uploads.old ≤ spare uploads.new }
{
    uploads.retain(|_, upload| is_unknown(tables, upload));
}
