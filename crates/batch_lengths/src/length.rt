//! The length of a body that would be written.

ghost use Rattle.std.specs.Prelude.{◌≡◌, ◌⊎◌, ◌<◌, ◌≤◌, ◌^◌, nat_abs, length, IfSome, IfNone};
ghost use Rattle.header_types.specs.HeaderViews.{head_of};
ghost use Rattle.header_types.specs.Limits.{fields_limit};
ghost use Rattle.header_types.specs.Profile.{InProfile};
ghost use Rattle.header_types.specs.Views.{schema_of};
ghost use Rattle.batch_types.specs.Canonical.{canonical_body};
ghost use Rattle.batch_types.specs.Cells.{Rows};
ghost use Rattle.batch_types.specs.Laid.{node_count};
ghost use Rattle.batch_types.specs.LaysOut.{LaysOut, body_of};
ghost use Rattle.batch_reading.specs.Readable.{columns_there};
ghost use Rattle.batch_lengths.specs.Along.{run_spots};
ghost use Rattle.batch_lengths.specs.Sizes.{MayWalk, first_place};
ghost use Rattle.batch_lengths.specs.Tally.{tally, added_from, BeginsWith};

use crate::counted::Counted;
use crate::fields::fields_left;
use crate::validity_mask::ValidityMask;
use crate::walk::walk;
use batch_columns::Place;
use batch_columns::laws::sources_are_the_columns;
use header_types::{BatchHead, MAX_FIELDS, Schema};

/// The most bytes that a header can say, which it does as a signed number of 64 bits.
const LONGEST: u64 = (1 << 63) - 1;

/// How many entries the table has that batches of few columns are measured by: to clear one of [`MAX_FIELDS`] entries takes
/// longer than to measure a small batch.
const FEW: usize = 16;

/// How many rows a header says that there are, without the sign.
fn row_count(head: &BatchHead) -> usize
    ensures { result ≡ nat_abs head.now.length }
{
    head.length.unsigned_abs() as usize
}

/// The part of a body that its header speaks of.
fn spoken_of<'a>(head: &BatchHead, body: &'a [u8]) -> &'a [u8]
    requires { nat_abs head.now.body_length ≤ length body.now }
    ensures part { result.now ≡ body_of (head_of head.now) body.now }
    ensures short { length result.now < 2 ^ 64 }
{
    &body[..head.body_length.unsigned_abs() as usize]
}

/// Adds to the table what is counted of so many rows of each column.
fn count_rows(schema: &Schema, head: &BatchHead, body: &[u8], rows: usize, table: &mut [Counted])
    requires may { MayWalk (schema_of schema.now).fields head.now first_place body.now rows }
    requires room { node_count (schema_of schema.now).fields ≤ length table.old }
    ensures { table.new ≡ added_from 0 table.old
        (tally body.now (columns_there (schema_of schema.now).fields head.now first_place) (run_spots 0 rows)) }
{
    if rows > 0 {
        let marks = ValidityMask::run(0, rows);
        walk(&schema.fields, head, Place::FIRST, body, &marks, table);
    }
}

/// What is counted of so many rows of each column, in the order of the nodes.
fn counted<const N: usize>(
    schema: &Schema,
    head: &BatchHead,
    body: &[u8],
    rows: usize,
) -> [Counted; N]
    requires may { MayWalk (schema_of schema.now).fields head.now first_place body.now rows }
    requires room { node_count (schema_of schema.now).fields ≤ N }
    requires few { N ≤ fields_limit }
    ensures { BeginsWith result
        (tally body.now (columns_there (schema_of schema.now).fields head.now first_place) (run_spots 0 rows)) }
{
    let mut table = [Counted::NONE; N];
    count_rows(schema, head, body, rows, &mut table);
    table
}

/// How many bytes the body has that is written of a batch, as of [`canonical_length`], by a table that has room for one entry
/// for each of the batch's nodes.
fn length_within<const N: usize>(
    schema: &Schema,
    head: &BatchHead,
    body: &[u8],
    most: u64,
) -> Option<u64>
    requires profile { InProfile (schema_of schema.now) }
    requires laid { (rows : Rows) × LaysOut (schema_of schema.now) (head_of head.now) body.now rows }
    requires room { length head.now.nodes.items ≤ N }
    requires few { N ≤ fields_limit }
    ensures known { IfSome result (λ n. (rows : Rows) → LaysOut (schema_of schema.now) (head_of head.now) body.now rows
        → length (canonical_body (schema_of schema.now) rows) ≡ n) }
    ensures fits { IfSome result (λ n. (n ≤ most) × (n < 2 ^ 63)) }
    ensures long { IfNone result ((rows : Rows) → LaysOut (schema_of schema.now) (head_of head.now) body.now rows
        → (most < length (canonical_body (schema_of schema.now) rows))
        ⊎ (2 ^ 63 ≤ length (canonical_body (schema_of schema.now) rows))) }
{
    sources_are_the_columns();
    let most = most.min(LONGEST);
    let rows = row_count(head);
    let spoken = spoken_of(head, body);
    let table = counted::<N>(schema, head, spoken, rows);
    match fields_left(
        &schema.fields,
        head,
        Place::FIRST,
        spoken,
        rows,
        &table,
        most,
    ) {
        Some(left) => Some(most - left),
        None => None,
    }
}

/// How many bytes the body has that is written of the batch that a header and a body lay out for a schema (Apache Arrow,
/// "Arrow Columnar Format", "RecordBatch message"), however many of its columns share the bytes that they name; `None`
/// exactly where they are more than `most`, or 2^63 or more, which no header can say. It is known that a batch is laid out,
/// and that the schema is in profile ([`Schema::in_profile`]).
///
/// It takes no memory but a table of one entry for each field that a schema may have, or of 16 where the batch has no more
/// columns. Each column costs its own values: they are counted a run at a time where nothing around them is null, and else in
/// blocks of up to 1024 places, of which each is looked at only where values have any number of bytes or elements, and else
/// eight at once. A column is looked into only where a value of it may be null, or where values have any number of bytes or
/// elements.
pub fn canonical_length(schema: &Schema, head: &BatchHead, body: &[u8], most: u64) -> Option<u64>
    requires profile { InProfile (schema_of schema.now) }
    requires laid { (rows : Rows) × LaysOut (schema_of schema.now) (head_of head.now) body.now rows }
    ensures known { IfSome result (λ n. (rows : Rows) → LaysOut (schema_of schema.now) (head_of head.now) body.now rows
        → length (canonical_body (schema_of schema.now) rows) ≡ n) }
    ensures fits { IfSome result (λ n. (n ≤ most) × (n < 2 ^ 63)) }
    ensures long { IfNone result ((rows : Rows) → LaysOut (schema_of schema.now) (head_of head.now) body.now rows
        → (most < length (canonical_body (schema_of schema.now) rows))
        ⊎ (2 ^ 63 ≤ length (canonical_body (schema_of schema.now) rows))) }
{
    if head.nodes.len() <= FEW {
        length_within::<FEW>(schema, head, body, most)
    } else {
        length_within::<MAX_FIELDS>(schema, head, body, most)
    }
}
