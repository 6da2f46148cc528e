//! A batch of a header and a body that lay it out.

ghost use Rattle.std.specs.Prelude.{◌≡◌, ◌≤◌, nat_abs, length, IfOk};
ghost use Rattle.header_types.specs.HeaderViews.{head_of};
ghost use Rattle.header_types.specs.Profile.{InProfile};
ghost use Rattle.header_types.specs.Views.{schema_of};
ghost use Rattle.batch_types.specs.Cells.{Rows};
ghost use Rattle.batch_types.specs.LaysOut.{LaysOut, body_of};
ghost use Rattle.batch_columns.specs.Batches.{IsBatchOf, rows_of};
ghost use Rattle.batch_reading.specs.Spots.{runs_of_rows};

use crate::building::build_columns;
use crate::plan::ChildSelection;
use crate::selection::Run;
use batch_columns::laws::sources_are_the_columns;
use batch_columns::{Batch, Place};
use batch_types::laws::laid_out_rows_are_of_the_schema;
use header_types::{BatchHead, Schema};
use std::alloc::{AllocError, Global};

/// How many rows a header says that there are, without the sign.
fn row_count(head: &BatchHead) -> usize
    ensures { result ≡ nat_abs head.now.length }
{
    head.length.unsigned_abs() as usize
}

/// One run of so many rows, none where there is no row.
fn row_runs(alloc: Global, count: usize) -> Result<Vec<Run>, AllocError>
    ensures { IfOk result (λ runs. runs.items ≡ runs_of_rows count) }
{
    let mut runs = Vec::new(alloc);
    if count > 0 {
        runs.push(Run { start: 0, count })?;
    }
    Ok(runs)
}

/// The part of a body that its header speaks of.
fn spoken_of<'a>(head: &BatchHead, body: &'a [u8]) -> &'a [u8]
    requires { nat_abs head.now.body_length ≤ length body.now }
    ensures { result.now ≡ body_of (head_of head.now) body.now }
{
    &body[..head.body_length.unsigned_abs() as usize]
}

/// The batch that a header and a body lay out for a schema (Apache Arrow, "Arrow Columnar Format", "RecordBatch
/// message"), of which it is known that they do, and that the schema is in profile ([`Schema::in_profile`]). The batch
/// holds no more than the rows need: what stands under nulls, in front of the first offset or between buffers is left
/// out. The only error is that memory is refused.
pub fn build_batch(
    alloc: Global,
    schema: &Schema,
    head: &BatchHead,
    body: &[u8],
) -> Result<Batch, AllocError>
    requires profile { InProfile (schema_of schema.now) }
    requires laid { (rows : Rows) × LaysOut (schema_of schema.now) (head_of head.now) body.now rows }
    ensures rows { IfOk result
        (λ batch. LaysOut (schema_of schema.now) (head_of head.now) body.now (rows_of batch)) }
    ensures of_schema { IfOk result (λ batch. IsBatchOf (schema_of schema.now) batch) }
{
    sources_are_the_columns();
    laid_out_rows_are_of_the_schema();
    let count = row_count(head);
    let runs = row_runs(alloc, count)?;
    let rows = ChildSelection {
        count,
        runs,
        there: None,
    };
    let selection = rows.selection();
    let fields = schema.fields.as_slice();
    let spoken = spoken_of(head, body);
    let (columns, _) = build_columns(alloc, fields, head, Place::FIRST, spoken, &selection)?;
    Ok(Batch {
        rows: count as u64,
        columns,
    })
}
