//! An upload.

ghost use Rattle.std.specs.Prelude.{◌≡◌, ◌==◌, ℕ, List, length, map, Err, IfOk, OnOk, IfErr};
ghost use Rattle.std.specs.List.{AllByRecursion};
ghost use lib.Pointwise.{pointwise};
ghost use Rattle.std.specs.Cmp.Rules.{comparing};
ghost use Rattle.std.proofs.Common.{rules};
ghost use Rattle.header_types.specs.Views.{schema_of};
ghost use Rattle.batch_columns.specs.Batches.{rows_of, IsBatchOf};
ghost use Rattle.table_types.specs.Uploads.{Upload as Uploaded, upload_text, schema_text};
ghost use Rattle.table_types.specs.Valid.{IsUpload};
ghost use Rattle.table_types.specs.Texts.{IsUploadText};
ghost use Rattle.uploads.specs.Found.{HasUploadFields};
ghost use Rattle.uploads.specs.Parts.{HasLeft, batches_parts};
ghost use Rattle.uploads.specs.Making.{AreMade, AreRefused, upload_of};
ghost use Rattle.uploads.specs.declared.decode_fault.DecodeFault.TheVariants.{NotAnUpload, OutOfMemory};

use crate::decode_fault::DecodeFault;
use crate::decoding::check_upload;
use crate::encoded_batches::EncodedBatches;
use crate::making::encode_upload;
use crate::parts::parts_of;
use crate::upload_fault::UploadFault;
use crate::written::{written_batches, written_schema};
use batch_columns::Batch;
use bytes::Bytes;
use header_types::Schema;
use std::alloc::{AllocError, Global};
use std::marker::Model;
use table_types::laws::uploads_have_one_encoding;

/// What a client uploads: rows for a table, under an id that the client chose, in their one encoding. Contracts see the
/// bytes of the encoding. A clone shares them: it copies no byte, and takes no memory but what a further owner of a
/// [`Bytes`] may take.
#[derive(Debug, Drop)]
pub struct Upload {
    text: Bytes,
}

impl Model for Upload {
    ghost Value = { List ℕ };

    ghost view = { λ u. u.text };

    ghost invariant = { λ u. IsUploadText u.text };
}

impl Upload {
    /// The upload to this table, under this id, of this schema and these batches, which are encoded in the one
    /// way that there is, whatever they came from.
    ///
    /// The first of these faults is told that holds:
    /// - [`UploadFault::BadTable`]: the table's name is not 1 to 64 digits, letters of ASCII, `_`, `.` or `-`.
    /// - [`UploadFault::TooManyBatches`]: there are more than 1,024 batches.
    /// - [`UploadFault::ShapeDiffers`]: the schema is not one that can be written and read back ([`Schema::in_profile`]), or
    ///   a batch is not of it ([`Batch::is_of`]).
    /// - [`UploadFault::TooLarge`]: the encoding would have more than 16,777,216 bytes, or a message that is served of it
    ///   (`FlightData` of Apache Arrow, "Flight.proto", with the schema, or with a batch and the upload's id) more
    ///   than 4,194,304. It is counted before memory is asked.
    /// - [`UploadFault::OutOfMemory`]: memory was refused, and none of the others holds.
    pub fn new(
        alloc: Global,
        table: &str,
        id: [u8; 16],
        schema: &Schema,
        batches: &[Batch],
    ) -> Result<Upload, UploadFault>
        ensures text { IfOk result
            (λ upload. upload ≡ upload_text (upload_of table.now id (schema_of schema.now) batches.now)) }
        ensures upload { OnOk result (IsUpload (upload_of table.now id (schema_of schema.now) batches.now)) }
        ensures made { OnOk result (AreMade table.now id (schema_of schema.now) batches.now) }
        ensures fault { IfErr result (AreRefused table.now id (schema_of schema.now) batches.now) }
    {
        let text = encode_upload(alloc, table, &id, schema, batches)?;
        match Bytes::from_vec(text) {
            Ok(text) => Ok(Upload { text }),
            Err(_) => Err(UploadFault::OutOfMemory),
        }
    }

    /// The upload of which these bytes are the encoding. It holds them as they are: no byte is copied.
    ///
    /// [`DecodeFault::NotAnUpload`] says that they are that of none that is taken. [`DecodeFault::OutOfMemory`] says that
    /// memory was refused, of bytes that have at least the fields of an upload, each in its one encoding (Protocol Buffers,
    /// "Encoding"), with names as they are to be and within all limits; for these no memory is asked.
    pub fn decode(alloc: Global, text: Bytes) -> Result<Upload, DecodeFault>
        ensures value { IfOk result (λ upload. upload ≡ text) }
        ensures upload { OnOk result (IsUploadText text) }
        ensures fault { result ≡ Err NotAnUpload → ¬ IsUploadText text }
        ensures memory { result ≡ Err OutOfMemory → HasUploadFields text }
    {
        check_upload(alloc, text.as_slice())?;
        Ok(Upload { text })
    }

    /// Its encoding, which shares these bytes: no byte is copied. [`AllocError`] says that a further owner was refused.
    pub fn encode(&self) -> Result<Bytes, AllocError>
        ensures value { IfOk result (λ text. text ≡ self.now) }
        ensures upload { IsUploadText self.now }
    {
        self.text.clone()
    }

    /// The bytes of its encoding.
    pub fn as_slice(&self) -> &[u8]
        ensures value { result.now ≡ self.now }
        ensures upload { IsUploadText self.now }
    {
        self.text.as_slice()
    }

    /// Its encoding, without a further owner.
    pub fn into_bytes(self) -> Bytes
        ensures value { result ≡ self }
        ensures upload { IsUploadText self }
    {
        self.text
    }

    /// The name of the table that it is for: 1 to 64 digits, letters of ASCII, `_`, `.` or `-`.
    pub fn table(&self) -> &str
        ensures { (upload : Uploaded) → IsUpload upload → upload_text upload ≡ self.now → result.now ≡ upload.table }
    {
        let parts = parts_of(self.text.as_slice());
        match std::str::from_utf8(parts.table) {
            Ok(table) => table,
            Err(_) => unreachable!(),
        }
    }

    /// Its id, which its client chose.
    pub fn id(&self) -> [u8; 16]
        ensures { (upload : Uploaded) → IsUpload upload → upload_text upload ≡ self.now → result ≡ upload.id }
    {
        let parts = parts_of(self.text.as_slice());
        match parts.id.split_first_chunk::<16>() {
            Some((id, _)) => *id,
            None => unreachable!(),
        }
    }

    /// The message with its schema, as it is encoded.
    pub fn schema_bytes(&self) -> &[u8]
        ensures { (upload : Uploaded) → IsUpload upload → upload_text upload ≡ self.now
            → result.now ≡ schema_text upload.schema }
    {
        parts_of(self.text.as_slice()).schema
    }

    /// Its schema. [`AllocError`] says that memory was refused.
    pub fn schema(&self, alloc: Global) -> Result<Schema, AllocError>
        ensures { (upload : Uploaded) → IsUpload upload → upload_text upload ≡ self.now
            → IfOk result (λ schema. schema_of schema ≡ upload.schema) }
    {
        let parts = parts_of(self.text.as_slice());
        written_schema(alloc, parts.schema)
    }

    /// Its batches, each as its header and its body are encoded.
    pub fn encoded_batches(&self) -> EncodedBatches<'_>
        ensures upload { IsUploadText self.now }
        ensures left { (upload : Uploaded) → IsUpload upload → upload_text upload ≡ self.now
            → HasLeft result (batches_parts upload) }
    {
        EncodedBatches::new(parts_of(self.text.as_slice()).batches)
    }

    /// Its batches, in order: each is of its schema, with the rows that were encoded. [`AllocError`] says that memory was
    /// refused.
    pub fn batches(&self, alloc: Global) -> Result<Vec<Batch>, AllocError>
        ensures rows { (upload : Uploaded) → IsUpload upload → upload_text upload ≡ self.now
            → IfOk result (λ batches. map rows_of batches.items ≡ upload.batches) }
        ensures of_schema { (upload : Uploaded) → IsUpload upload → upload_text upload ≡ self.now
            → IfOk result (λ batches. AllByRecursion (IsBatchOf upload.schema) batches.items) }
    {
        let schema = self.schema(alloc)?;
        let parts = parts_of(self.text.as_slice());
        match written_batches(alloc, &schema, parts.batches) {
            Ok(batches) => Ok(batches),
            Err(_) => Err(AllocError),
        }
    }

    /// How many batches it has: at most 1,024.
    pub fn batch_count(&self) -> usize
        ensures { (upload : Uploaded) → IsUpload upload → upload_text upload ≡ self.now
            → result ≡ length upload.batches }
    {
        uploads_have_one_encoding();
        let mut batches = self.encoded_batches();
        let mut count = 0;
        while batches.next().is_some() {
            count += 1;
        }
        count
    }
}

impl Clone for Upload {
    ghost is_clone = { λ old new. new ≡ old };

    fn clone(&self) -> Result<Upload, AllocError>
        ensures { IfOk result (λ new. new ≡ self.now) }
    {
        Ok(Upload {
            text: self.text.clone()?,
        })
    }
}

impl PartialEq for Upload {
    ghost eq = { pointwise ◌==◌ };

    ghost laws = { Prim.search (comparing, rules) };

    /// Whether the two have one encoding.
    fn eq(&self, other: &Upload) -> bool {
        self.text == other.text
    }
}

impl Eq for Upload {
    ghost laws = { Prim.search (comparing, rules) };
}
