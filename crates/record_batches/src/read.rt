//! A batch read from a header and a body.

ghost use Rattle.std.specs.Prelude.{◌≡◌, ◌≤◌, ◌<◌, ◌⊎◌, ◌^◌, length, IfOk, IfErr, IfSome, IfNone};
ghost use Rattle.header_types.specs.Views.{schema_of};
ghost use Rattle.header_types.specs.HeaderViews.{head_of};
ghost use Rattle.header_types.specs.Profile.{InProfile};
ghost use Rattle.batch_types.specs.Canonical.{canonical_body};
ghost use Rattle.batch_types.specs.Cells.{Rows};
ghost use Rattle.batch_types.specs.LaysOut.{LaysOut};
ghost use Rattle.batch_columns.specs.Batches.{rows_of, IsBatchOf};
ghost use Rattle.record_batches.specs.Reading.{IsToldOf};

use batch_checking::check_batch;
use batch_columns::Batch;
use batch_lengths::canonical_length;
use batch_reading::build_batch;
use batch_types::BatchFault;
use header_types::{BatchHead, Schema};
use std::alloc::Global;

/// The batch that a header and a body lay out for a table of this schema, which is in profile
/// ([`Schema::in_profile`]), with the header's number of rows and a column for each field. Bytes behind the body that the
/// header speaks of are passed over, as is what stands under a null, behind the last row or outside a list's span.
///
/// Else the first fault, in the order of [`BatchFault`]: those of the header, then those of each column, depth first.
/// `OutOfMemory` is told only of a header and a body that lay out a batch, where memory was refused.
pub fn read_batch(
    alloc: Global,
    schema: &Schema,
    head: &BatchHead,
    body: &[u8],
) -> Result<Batch, BatchFault>
    requires profile { InProfile (schema_of schema.now) }
    ensures rows { IfOk result (λ batch. LaysOut (schema_of schema.now) (head_of head.now) body.now (rows_of batch)) }
    ensures of_schema { IfOk result (λ batch. IsBatchOf (schema_of schema.now) batch) }
    ensures fault { IfErr result (λ fault. IsToldOf (schema_of schema.now) (head_of head.now) body.now fault) }
{
    check_batch(schema, head, body)?;
    Ok(build_batch(alloc, schema, head, body)?)
}

/// The batch that a header and a body lay out, as [`read_batch`] gives it, where the body that is written of it
/// ([`crate::write_body`]) has at most `most` bytes. `None` says that it has more, or 2^63 or more, which no header can say:
/// then nothing was built. So what strangers send takes no more memory than whoever asks allows, however many columns name
/// the same bytes of the body.
///
/// Its errors are those of [`read_batch`].
pub fn read_batch_within(
    alloc: Global,
    schema: &Schema,
    head: &BatchHead,
    body: &[u8],
    most: u64,
) -> Result<Option<Batch>, BatchFault>
    requires profile { InProfile (schema_of schema.now) }
    ensures rows { IfOk result (λ read. IfSome read
        (λ batch. LaysOut (schema_of schema.now) (head_of head.now) body.now (rows_of batch))) }
    ensures of_schema { IfOk result (λ read. IfSome read (IsBatchOf (schema_of schema.now))) }
    ensures within { IfOk result (λ read. IfSome read
        (λ batch. length (canonical_body (schema_of schema.now) (rows_of batch)) ≤ most)) }
    ensures longer { IfOk result (λ read. IfNone read ((rows : Rows)
        × LaysOut (schema_of schema.now) (head_of head.now) body.now rows
        × ((most < length (canonical_body (schema_of schema.now) rows))
        ⊎ (2 ^ 63 ≤ length (canonical_body (schema_of schema.now) rows))))) }
    ensures fault { IfErr result (λ fault. IsToldOf (schema_of schema.now) (head_of head.now) body.now fault) }
{
    check_batch(schema, head, body)?;
    if canonical_length(schema, head, body, most).is_none() {
        return Ok(None);
    }
    let batch = build_batch(alloc, schema, head, body)?;
    Ok(Some(batch))
}
