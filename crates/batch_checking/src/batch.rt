//! Whether a header and a body lay out a batch.

ghost use Rattle.std.specs.Prelude.{◌≡◌, nat_abs, IfOk, IfErr, OnOk};
ghost use Rattle.header_types.specs.Views.{schema_of};
ghost use Rattle.header_types.specs.HeaderViews.{head_of};
ghost use Rattle.header_types.specs.Profile.{InProfile};
ghost use Rattle.batch_types.specs.Cells.{Rows};
ghost use Rattle.batch_types.specs.Order.{head_order, AreKept};
ghost use Rattle.batch_types.specs.LaysOut.{KeepsHeadRule, LaysOut, IsFaultOf, body_of};
ghost use Rattle.batch_checking.specs.Whole.{ColumnsAreSound, ColumnsHaveFault};

use crate::around::Around;
use crate::fields::check_fields;
use crate::head::check_head;
use batch_columns::Place;
use batch_columns::laws::sources_are_the_columns;
use batch_types::BatchFault;
use header_types::{BatchHead, Schema};

/// The part of a body that its header speaks of (Apache Arrow, "Arrow Columnar Format", "Encapsulated message format").
fn spoken_of<'a>(schema: &Schema, head: &BatchHead, body: &'a [u8]) -> &'a [u8]
    requires kept { AreKept (KeepsHeadRule (schema_of schema.now) (head_of head.now) body.now) head_order }
    ensures { result.now ≡ body_of (head_of head.now) body.now }
{
    &body[..head.body_length.unsigned_abs() as usize]
}

/// How many rows a header says that there are, without its sign.
fn rows_of(head: &BatchHead) -> usize
    ensures { result ≡ nat_abs head.now.length }
{
    head.length.unsigned_abs() as usize
}

/// The first rule that a column breaks, depth first, if one breaks one, where the header keeps its own rules.
fn check_columns(schema: &Schema, head: &BatchHead, body: &[u8]) -> Result<(), BatchFault>
    requires profile { InProfile (schema_of schema.now) }
    requires kept { AreKept (KeepsHeadRule (schema_of schema.now) (head_of head.now) body.now) head_order }
    ensures sound { OnOk result (ColumnsAreSound (schema_of schema.now) (head_of head.now) body.now) }
    ensures fault { IfErr result (λ told. ColumnsHaveFault (schema_of schema.now) (head_of head.now) body.now told) }
{
    let rows = rows_of(head);
    let around = Around::none(rows);
    let body = spoken_of(schema, head, body);
    match check_fields(&schema.fields, head, Place::FIRST, body, rows, &around) {
        Ok(_) => Ok(()),
        Err(fault) => Err(fault),
    }
}

/// Whether a header and a body lay out a batch of rows of a table of this schema, and if not, which fault is the first:
/// those of the header come first ([`BatchFault`]), then those of each column, depth first, a parent before the columns
/// inside it (Apache Arrow, "Arrow Columnar Format", "Physical memory layout" and "RecordBatch message"). The schema is
/// in profile. It takes no memory, so it never answers `OutOfMemory`. It takes time in proportion to the bytes of the
/// columns' buffers, those of two columns that overlap counted twice; and for each text that is not UTF-8, a search in
/// each of the columns around it, of which there are at most 15, from where the one before it was found.
///
/// # Errors
///
/// [`BatchFault`], but for `OutOfMemory`: the first rule that is broken.
pub fn check_batch(schema: &Schema, head: &BatchHead, body: &[u8]) -> Result<(), BatchFault>
    requires profile { InProfile (schema_of schema.now) }
    ensures kept { IfOk result (λ done. (rows : Rows)
        × LaysOut (schema_of schema.now) (head_of head.now) body.now rows) }
    ensures fault { IfErr result (λ fault. IsFaultOf (schema_of schema.now) (head_of head.now) body.now fault) }
{
    sources_are_the_columns();
    match check_head(schema, head, body) {
        Ok(()) => check_columns(schema, head, body),
        Err(fault) => Err(fault),
    }
}
