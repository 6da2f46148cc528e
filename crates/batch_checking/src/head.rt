//! Whether a header keeps its own rules.

ghost use Rattle.std.specs.Prelude.{◌↔◌, ◌<◌, ◌≤ℤ◌, ℕ, pos, length, get_or, IsTrue, IfErr, OnOk};
ghost use Rattle.header_types.specs.Views.{schema_of};
ghost use Rattle.header_types.specs.HeaderViews.{head_of};
ghost use Rattle.header_types.specs.Profile.{InProfile};
ghost use Rattle.batch_types.specs.Order.{head_order, AreKept, IsFirstBroken};
ghost use Rattle.batch_types.specs.LaysOut.{KeepsHeadRule, HasRowsWithin, HasBody, rows_limit, values_limit};

use batch_columns::{Place, ROWS_LIMIT, VALUES_LIMIT, place_behind};
use batch_types::BatchFault;
use header_types::{BatchHead, Schema};

/// How many rows a batch may have, as a header counts them.
const MAX_ROWS: i64 = ROWS_LIMIT as i64;

/// How many values a node may have.
const MAX_VALUES: i64 = VALUES_LIMIT as i64;

/// Whether no more values are in a node than one may have, and not less than none.
fn is_counted(node: (i64, i64)) -> bool
    ensures { IsTrue result ↔ ((pos 0 ≤ℤ node.0) × (node.0 ≤ℤ pos values_limit)) }
{
    0 <= node.0 && node.0 <= MAX_VALUES
}

/// Whether there may be so many rows.
fn is_row_count(count: i64) -> bool
    ensures { IsTrue result ↔ ((pos 0 ≤ℤ count) × (count ≤ℤ pos rows_limit)) }
{
    0 <= count && count <= MAX_ROWS
}

/// Whether there are no more rows than a batch may have, no more values in a node than one may have, and nowhere less
/// than none.
fn has_rows_within(head: &BatchHead) -> bool
    ensures { IsTrue result ↔ HasRowsWithin (head_of head.now) }
{
    if !is_row_count(head.length) {
        return false;
    }
    are_counted(head.nodes.as_slice())
}

/// Whether this is so of each of these nodes.
fn are_counted(nodes: &[(i64, i64)]) -> bool
    ensures { IsTrue result ↔ ((k : ℕ) → k < length nodes.now → (pos 0 ≤ℤ (get_or nodes.now k (pos 0, pos 0)).0)
        × ((get_or nodes.now k (pos 0, pos 0)).0 ≤ℤ pos values_limit)) }
{
    for node in nodes {
        if !is_counted(*node) {
            return false;
        }
    }
    true
}

/// Whether a body is as long as its header says, or longer.
fn has_body(head: &BatchHead, body: &[u8]) -> bool
    ensures { IsTrue result ↔ HasBody (head_of head.now) body.now }
{
    head.body_length >= 0 && head.body_length.unsigned_abs() as usize <= body.len()
}

/// The first of its own rules that a header breaks, if it breaks one.
pub(crate) fn check_head(schema: &Schema, head: &BatchHead, body: &[u8]) -> Result<(), BatchFault>
    requires profile { InProfile (schema_of schema.now) }
    ensures kept { OnOk result (AreKept (KeepsHeadRule (schema_of schema.now) (head_of head.now) body.now) head_order) }
    ensures fault { IfErr result (λ told. IsFirstBroken
        (KeepsHeadRule (schema_of schema.now) (head_of head.now) body.now) head_order told) }
{
    if head.compressed {
        return Err(BatchFault::Compressed);
    }
    if !has_rows_within(head) {
        return Err(BatchFault::TooManyRows);
    }
    let counts = place_behind(&schema.fields, Place::FIRST);
    if head.nodes.len() != counts.node {
        return Err(BatchFault::NodeCount);
    }
    if head.buffers.len() != counts.buffer {
        return Err(BatchFault::BufferCount);
    }
    if !has_body(head, body) {
        return Err(BatchFault::BufferRange);
    }
    Ok(())
}
