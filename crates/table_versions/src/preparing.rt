//! How an upload is made ready: what is served of it, made once.

ghost use Rattle.std.specs.Prelude.{◌≡◌, [], length, IfOk};
ghost use Rattle.header_types.specs.Fields.{SchemaTree};
ghost use Rattle.batch_types.specs.Cells.{Rows};
ghost use Rattle.table_types.specs.Uploads.{Upload as Uploaded, upload_text};
ghost use Rattle.table_types.specs.Valid.{IsUpload};
ghost use Rattle.table_types.specs.Texts.{IsUploadText};
ghost use Rattle.table_versions.specs.Ledger.{IsPartOf, IsPrepared};
ghost use Rattle.table_versions.specs.Serving.{IsWrittenHead, IsServed};

use crate::answer::bytes_in;
use crate::framing::data_frame;
use crate::prepared::{Part, Prepared};
use crate::shape::shape_of;
use crate::upload_frames::UploadFrames;
use ballots::OutOfMemory;
use bytes::Bytes;
use flatbuf_meta::laws::written_headers_are_shown;
use header_reading::read_message;
use header_types::Header;
use std::alloc::{AllocError, Global};
use table_types::laws::batches_have_headers;
use uploads::Upload;

/// What is served of an upload, and how many rows it has.
#[derive(Drop)]
struct ServedFrames {
    frames: Vec<Bytes>,
    records: u64,
}

/// How many rows the header of a batch says.
fn rows_in(alloc: Global, header: &[u8]) -> Result<u64, OutOfMemory>
    requires { (schema : SchemaTree) × (rows : Rows) × IsWrittenHead header.now schema rows }
    ensures { (schema : SchemaTree) (rows : Rows) → IsWrittenHead header.now schema rows
        → IfOk result (λ count. count ≡ rows.count) }
{
    written_headers_are_shown();
    batches_have_headers();
    match read_message(alloc, header) {
        Ok(Header::Batch(head)) => Ok(head.length as u64),
        Ok(Header::Schema(_)) => unreachable!(),
        Err(_) => Err(AllocError),
    }
}

/// What is served of an upload: each of its batches in a frame with its id, and without batches its id alone.
fn served(alloc: Global, upload: &Upload) -> Result<ServedFrames, OutOfMemory>
    requires { IsUploadText upload.now }
    ensures { (uploaded : Uploaded) → IsUpload uploaded → upload_text uploaded ≡ upload.now
        → IfOk result (IsServed uploaded) }
{
    let mut frames = Vec::new(alloc);
    let mut records = 0;
    let id = upload.id();
    if upload.batch_count() == 0 {
        frames.push(data_frame(alloc, &[], &id, &[])?)?;
        return Ok(ServedFrames { frames, records });
    }
    let mut batches = upload.encoded_batches();
    while let Some((header, body)) = batches.next() {
        frames.push(data_frame(alloc, header, &id, body)?)?;
        records += rows_in(alloc, header)?;
    }
    Ok(ServedFrames { frames, records })
}

/// What the upload adds to its table.
fn part_of(alloc: Global, upload: &Upload) -> Result<Part, OutOfMemory>
    requires { IsUploadText upload.now }
    ensures { (uploaded : Uploaded) → IsUpload uploaded → upload_text uploaded ≡ upload.now
        → IfOk result (λ part. IsPartOf part uploaded) }
{
    let schema = Bytes::copy_from_slice(alloc, upload.schema_bytes())?;
    let shape = shape_of(alloc, upload.schema(alloc)?, &schema)?;
    let schema_frame = data_frame(alloc, upload.schema_bytes(), &[], &[])?;
    let served = served(alloc, upload)?;
    let bytes = bytes_in(served.frames.as_slice()) as u64;
    Ok(Part {
        schema,
        shape,
        schema_frame,
        frames: UploadFrames::new(served.frames),
        bytes,
        records: served.records,
    })
}

/// The upload with all that taking it needs.
pub(crate) fn prepare(alloc: Global, upload: Upload) -> Result<Prepared, OutOfMemory>
    requires { IsUploadText upload }
    ensures { (uploaded : Uploaded) → IsUpload uploaded → upload_text uploaded ≡ upload
        → IfOk result (λ prepared. IsPrepared prepared uploaded) }
{
    let id = upload.id();
    let table = String::from_str(alloc, upload.table())?;
    let part = part_of(alloc, &upload)?;
    Ok(Prepared {
        id,
        text: upload.into_bytes(),
        table,
        part,
    })
}
