//! Uploads, and what one message more says of them.

ghost use Rattle.std.specs.Prelude.{◌≡◌, IfOk};
ghost use Rattle.std.specs.Option.{option_to_list};
ghost use Rattle.downloads.specs.Added.{IsBegun, Begins, Lengthens, Adds};

use crate::UploadMessage;
use crate::download::ServedUpload;
use batch_columns::Batch;
use std::alloc::{AllocError, Global};

/// The batch alone, if there is one.
fn listed(alloc: Global, batch: Option<Batch>) -> Result<Vec<Batch>, AllocError>
    ensures { IfOk result (λ batches. batches.items ≡ option_to_list batch) }
{
    let mut batches = Vec::new(alloc);
    match batch {
        Some(batch) => {
            batches.push(batch)?;
            Ok(batches)
        }
        None => Ok(batches),
    }
}

/// The upload of which this is the first that is said.
fn begun(alloc: Global, said: UploadMessage) -> Result<ServedUpload, AllocError>
    ensures { IfOk result (IsBegun said) }
{
    let UploadMessage { id, batch } = said;
    let batches = listed(alloc, batch)?;
    Ok(ServedUpload { id, batches })
}

/// The uploads with one more, of which this is the first that is said.
fn begin(
    alloc: Global,
    uploads: Vec<ServedUpload>,
    said: UploadMessage,
) -> Result<Vec<ServedUpload>, AllocError>
    ensures { IfOk result (λ next. Begins uploads.items said next.items) }
{
    let upload = begun(alloc, said)?;
    let mut next = uploads;
    next.push(upload)?;
    Ok(next)
}

/// The upload with one batch more. `None` says that the upload has no batch, or that there is none more: an id alone is of
/// an upload without batches.
fn lengthen(upload: ServedUpload, batch: Option<Batch>) -> Result<Option<ServedUpload>, AllocError>
    ensures { Lengthens upload batch result }
{
    if upload.batches.is_empty() {
        return Ok(None);
    }
    let Some(batch) = batch else {
        return Ok(None);
    };
    let ServedUpload { id, mut batches } = upload;
    batches.push(batch)?;
    Ok(Some(ServedUpload { id, batches }))
}

/// The uploads with what a message says, of the last of them or of a further one. `None` says that it is an id alone beside
/// an upload of this id, or a batch beside that id alone.
pub(crate) fn add(
    alloc: Global,
    uploads: Vec<ServedUpload>,
    said: UploadMessage,
) -> Result<Option<Vec<ServedUpload>>, AllocError>
    ensures { Adds uploads.items said result }
{
    let mut uploads = uploads;
    let Some(last) = uploads.pop() else {
        return Ok(Some(begin(alloc, uploads, said)?));
    };
    if last.id != said.id {
        uploads.push(last)?;
        return Ok(Some(begin(alloc, uploads, said)?));
    }
    match lengthen(last, said.batch)? {
        Some(last) => {
            uploads.push(last)?;
            Ok(Some(uploads))
        }
        None => Ok(None),
    }
}
