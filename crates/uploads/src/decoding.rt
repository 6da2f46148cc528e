//! Whether bytes that nobody has checked are an upload.

ghost use Rattle.std.specs.Prelude.{◌≡◌, OnOk, IfErr};
ghost use Rattle.table_types.specs.Texts.{IsUploadText};
ghost use Rattle.uploads.specs.Found.{HasUploadFields};
ghost use Rattle.uploads.specs.declared.decode_fault.DecodeFault.TheVariants.{NotAnUpload, OutOfMemory};

use crate::decode_fault::DecodeFault;
use crate::finding::find_parts;
use crate::reading::{check_batches, read_schema};
use std::alloc::Global;

/// Whether these bytes are the encoding of an upload that is taken.
///
/// [`DecodeFault::NotAnUpload`] says that they are that of none. [`DecodeFault::OutOfMemory`] says that memory was refused,
/// of bytes that have at least the fields of an upload, each in its one encoding (Protocol Buffers, "Encoding"), with names
/// as they are to be and within all limits; for these no memory is asked.
pub fn check_upload(alloc: Global, text: &[u8]) -> Result<(), DecodeFault>
    ensures ok { OnOk result (IsUploadText text.now) }
    ensures fault { IfErr result (λ fault. fault ≡ NotAnUpload → ¬ IsUploadText text.now) }
    ensures memory { IfErr result (λ fault. fault ≡ OutOfMemory → HasUploadFields text.now) }
{
    let Some(parts) = find_parts(text) else {
        return Err(DecodeFault::NotAnUpload);
    };
    let schema = read_schema(alloc, parts.schema)?;
    check_batches(alloc, &schema, parts.batches)
}
