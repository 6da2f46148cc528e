//! A batch written as a header and a body.

ghost use Rattle.std.specs.Prelude.{◌≡◌, IfOk, OnOk};
ghost use Rattle.header_types.specs.Views.{schema_of};
ghost use Rattle.header_types.specs.HeaderViews.{head_of};
ghost use Rattle.header_types.specs.Profile.{InProfile};
ghost use Rattle.batch_types.specs.Canonical.{canonical_head, canonical_body};
ghost use Rattle.batch_types.specs.LaysOut.{LaysOut};
ghost use Rattle.batch_types.specs.Written.{CanBeWritten};
ghost use Rattle.batch_columns.specs.Batches.{rows_of, IsBatchOf};

use crate::body::append_body;
use crate::head::batch_head;
use crate::length::body_length;
use batch_columns::Batch;
use batch_types::laws::written_rows_are_laid_out;
use header_types::{BatchHead, Schema};
use std::alloc::{AllocError, Global};

/// The header and the body of a batch (Apache Arrow, "Arrow Columnar Format", "RecordBatch message"). The header has a
/// node for each column and says where in the body each buffer stands: one behind the other, each from a multiple of
/// eight bytes on, with zero bytes between them and at the end ("Buffer alignment and padding"), not compressed. A
/// bitmap is left out where nothing is null, offsets begin at 0, and nothing but zero bytes and blanks stands under a
/// null, so that a batch has one header and body. Columns say themselves how their values stand in buffers: of the
/// schema, which the batch has to be of, nothing is read. Of a schema in profile, what is written lays out the batch's rows
/// and no others, so that they are read again as they were.
///
/// The body is asked of memory at once, [`crate::body_length`] bytes, and buffers are copied whole. [`AllocError`] says
/// that memory was refused, as it is for 2^63 bytes or more, and nothing is left of what was begun.
pub fn write_body(
    alloc: Global,
    schema: &Schema,
    batch: &Batch,
) -> Result<(BatchHead, Vec<u8>), AllocError>
    requires of_schema { IsBatchOf (schema_of schema.now) batch.now }
    ensures head { IfOk result
        (λ written. head_of written.0 ≡ canonical_head (schema_of schema.now) (rows_of batch.now)) }
    ensures body { IfOk result
        (λ written. written.1.items ≡ canonical_body (schema_of schema.now) (rows_of batch.now)) }
    ensures laid { IfOk result (λ written. InProfile (schema_of schema.now)
        → LaysOut (schema_of schema.now) (head_of written.0) written.1.items (rows_of batch.now)) }
    ensures room { OnOk result (CanBeWritten (schema_of schema.now) (rows_of batch.now)) }
{
    written_rows_are_laid_out();
    let Some(length) = body_length(batch) else {
        return Err(AllocError);
    };
    let head = batch_head(alloc, schema, batch)?;
    let mut body = Vec::with_capacity(alloc, length as usize)?;
    append_body(&mut body, batch)?;
    Ok((head, body))
}
