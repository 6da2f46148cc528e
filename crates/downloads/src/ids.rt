//! The ids of uploads.

ghost use Rattle.std.specs.Prelude.{map, IfOk, IsTrue, ◌↔◌};
ghost use Rattle.downloads.specs.Downloads.{IdsDiffer};
ghost use Rattle.downloads.specs.Taken.{served_in};

use crate::download::ServedUpload;
use std::alloc::{AllocError, Global};
use std::collections::BTreeSet;

/// Whether no two of the uploads have one id. Each id is looked up among those before it in an ordered set, so that n
/// uploads take n log n comparisons, in whatever order their ids come.
pub(crate) fn ids_differ(alloc: Global, uploads: &[ServedUpload]) -> Result<bool, AllocError>
    ensures { IfOk result (λ differ. IsTrue differ ↔ IdsDiffer (map served_in uploads.now)) }
{
    let mut ids = BTreeSet::new(alloc);
    for upload in uploads {
        if !ids.insert(upload.id)? {
            return Ok(false);
        }
    }
    Ok(true)
}
