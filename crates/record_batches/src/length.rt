//! How long a body is.

ghost use Rattle.std.specs.Prelude.{◌≡◌, ◌-◌, ◌^◌, ◌<◌, ◌≤◌, min, length, IfSome, IfNone};
ghost use Rattle.std.specs.List.{AllByRecursion};
ghost use Rattle.header_types.specs.Fields.{SchemaTree};
ghost use Rattle.batch_types.specs.Canonical.{padded, own_buffers, body_with, canonical_body};
ghost use Rattle.batch_types.specs.Shapes.{shapes_of};
ghost use Rattle.batch_types.specs.Typed.{IsCellOf};
ghost use Rattle.batch_types.specs.Written.{HasRoom, CanBeWritten};
ghost use Rattle.batch_columns.specs.Contents.{layout_in};
ghost use Rattle.batch_columns.specs.Held.{shapes_held};
ghost use Rattle.batch_columns.specs.Batches.{rows_of, IsBatchOf};
ghost use Rattle.record_batches.specs.Parts.{parts_held};
ghost use Rattle.record_batches.specs.Sound.{AreSound};

use crate::buffers::padding;
use batch_columns::{Batch, Column};

/// How many bytes are too many for a header, which says it as a signed number of 64 bits.
const TOO_LONG: u64 = 1 << 63;

/// How many bytes a buffer has with those behind it, up to the next multiple of eight.
fn padded_length(bytes: &[u8]) -> u64
    ensures { result ≡ padded (length bytes.now) }
{
    (bytes.len() + padding(bytes.len())) as u64
}

/// How many bytes the buffers of a column have in a body, those of the columns inside it aside; the largest number
/// where they are more. A column says that its cells are such of its shape, and that there is room for them.
fn own_length(column: &Column) -> u64
    ensures length { result
        ≡ min (length (body_with (own_buffers (layout_in column.now) column.now.cells))) (2 ^ 64 - 1) }
    ensures fit { AllByRecursion (IsCellOf column.now.shape) column.now.cells }
    ensures room { HasRoom (layout_in column.now) column.now.cells }
{
    padded_length(column.validity())
        .saturating_add(padded_length(column.offsets()))
        .saturating_add(padded_length(column.values()))
}

/// How many bytes the buffers of columns and of those inside them have in a body; the largest number where they are
/// more.
fn columns_length(columns: &[Column]) -> u64
    ensures length { result ≡ min (length (body_with (parts_held columns.now).buffers)) (2 ^ 64 - 1) }
    ensures sound { AreSound columns.now }
{
    let mut total = 0_u64;
    for column in columns {
        total = total
            .saturating_add(own_length(column))
            .saturating_add(columns_length(column.inside()));
    }
    total
}

/// How many bytes the body has that [`crate::write_body`] writes of a batch, with those between its buffers; `None`
/// exactly where they are 2^63 or more, which no header can say (Apache Arrow, "Arrow Columnar Format", "RecordBatch
/// message"). A batch of a schema has room for its rows: they can be written. It takes no memory.
pub fn body_length(batch: &Batch) -> Option<u64>
    ensures known { IfSome result (λ n. (schema : SchemaTree)
        → shapes_held batch.now.columns.items ≡ shapes_of schema.fields
        → length (canonical_body schema (rows_of batch.now)) ≡ n) }
    ensures fits { IfSome result (λ n. n < 2 ^ 63) }
    ensures long { IfNone result ((schema : SchemaTree)
        → shapes_held batch.now.columns.items ≡ shapes_of schema.fields
        → 2 ^ 63 ≤ length (canonical_body schema (rows_of batch.now))) }
    ensures room { (schema : SchemaTree) → IsBatchOf schema batch.now → CanBeWritten schema (rows_of batch.now) }
{
    let length = columns_length(&batch.columns);
    if length < TOO_LONG {
        Some(length)
    } else {
        None
    }
}
