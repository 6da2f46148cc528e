//! Of which uploads nothing is known.

ghost use Rattle.pending_uploads.specs.Waiting.{TellsUnknown};

use table_versions::{Outcome, Tables};
use uploads::Upload;

/// Whether these tables know nothing of the upload.
pub(crate) fn is_unknown(tables: &Tables, upload: &Upload) -> bool
    ensures { TellsUnknown tables.now upload.now result }
{
    let _text = upload.as_slice();
    match tables.outcome(upload) {
        Outcome::Unknown => true,
        _ => false,
    }
}
