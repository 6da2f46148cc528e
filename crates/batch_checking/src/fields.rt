//! The columns of fields, depth first.

ghost use Rattle.std.specs.Prelude.{◌≡◌, ◌↔◌, ◌+◌, ◌≤◌, ◌<◌, ◌^◌, ◌*◌, ℕ, pos, nat_abs, IsTrue, IfOk, IfErr, length, get_or};
ghost use Rattle.batch_types.specs.Rules.{first_length, asked_inside as asked_of};
ghost use Rattle.batch_types.specs.LaysOut.{AreSound, HaveFault, values_limit};
ghost use Rattle.batch_columns.specs.Held.{layout_named};
ghost use Rattle.batch_columns.specs.Read.{column_at, IsSourceOf};
ghost use Rattle.batch_columns.specs.Sources.{nodes_of_tree, buffers_of_tree};
ghost use Rattle.batch_checking.specs.Checked.{KeepsOwn, BreaksOwn, InsideIsSound, InsideHasFault};
ghost use Rattle.batch_checking.specs.Columns.{places_in, forest_seen, columns_at, inside_of, MayCheck, MayCheckOne, IsBehind, IsOpen, tree_seen};

use crate::around::Around;
use crate::column::check_source;
use batch_columns::{EncodedColumn, Layout, Place, encoded_column_at};
use batch_types::BatchFault;
use header_types::{BatchHead, Field};

/// How many values a node has, without its sign; none where there is no such node.
fn length_at(nodes: &[(i64, i64)], n: usize) -> usize
    ensures { result ≡ nat_abs (get_or nodes.now n (pos 0, pos 0)).0 }
{
    match nodes.get(n) {
        Some((length, _)) => length.unsigned_abs() as usize,
        None => 0,
    }
}

/// How many values the first of the columns inside a column has, without its sign; none where there is none.
fn first_inside(field: &Field, head: &BatchHead, place: Place) -> usize
    requires { place.node < length head.now.nodes.items }
    ensures { result ≡ first_length (inside_of (column_at field.now head.now place)) }
{
    if field.children.is_empty() {
        0
    } else {
        length_at(&head.nodes, place.node + 1)
    }
}

/// How many values a column asks of each of those inside it (Apache Arrow, "Arrow Columnar Format", "Fixed-Size List
/// Layout" and "Struct Layout").
fn asked_inside(source: &EncodedColumn) -> usize
    requires { source.now.length ≤ values_limit }
    ensures { result ≡ asked_of (layout_named source.now.layout) source.now.length }
{
    match source.layout {
        Layout::FixedSizeList { size } => size as usize * source.length,
        Layout::Struct => source.length,
        Layout::Null
        | Layout::Bits
        | Layout::Bytes { .. }
        | Layout::Binary
        | Layout::Utf8
        | Layout::List => 0,
    }
}

/// The column of a field, if it keeps its own rules, and else the first of them that it breaks.
fn check_column<'a>(
    field: &Field,
    head: &BatchHead,
    place: Place,
    body: &'a [u8],
    asked: usize,
    around: &Around<'a>,
) -> Result<EncodedColumn<'a>, BatchFault>
    requires { MayCheckOne field.now head.now place asked around.now }
    ensures source { IfOk result (λ source. IsSourceOf body.now (column_at field.now head.now place) source) }
    ensures kept { IfOk result (λ source. KeepsOwn body.now (column_at field.now head.now place) asked
        (places_in around.now)) }
    ensures seen { IfOk result (λ source. IsOpen source (column_at field.now head.now place) (places_in around.now)) }
    ensures fault { IfErr result (λ told. BreaksOwn body.now (column_at field.now head.now place) asked
        (places_in around.now) told) }
{
    let first = first_inside(field, head, place);
    let Some(source) = encoded_column_at(field, head, place, body) else {
        return Err(BatchFault::BufferRange);
    };
    match check_source(&source, first, asked, around.rows, around.sources()) {
        Ok(()) => Ok(source),
        Err(fault) => Err(fault),
    }
}

/// The place behind a column and those inside it, if the latter keep their rules, and else the first rule that they break,
/// depth first. The column stands at this place and keeps its own rules.
#[cycle(checking)]
fn check_inside<'a>(
    field: &Field,
    head: &BatchHead,
    place: Place,
    body: &'a [u8],
    source: &EncodedColumn<'a>,
    around: &Around<'a>,
) -> Result<Place, BatchFault>
    requires may { (asked : ℕ) × MayCheckOne field.now head.now place asked around.now }
    requires source { IsSourceOf body.now (column_at field.now head.now place) source.now }
    requires seen { IsOpen source.now (column_at field.now head.now place) (places_in around.now) }
    ensures node { IfOk result (λ next. next.node ≡ place.node + nodes_of_tree (tree_seen field.now)) }
    ensures buffer { IfOk result (λ next. next.buffer ≡ place.buffer + buffers_of_tree (tree_seen field.now)) }
    ensures sound { IfOk result (λ next. InsideIsSound body.now (column_at field.now head.now place)
        (places_in around.now)) }
    ensures fault { IfErr result (λ told. InsideHasFault body.now (column_at field.now head.now place)
        (places_in around.now) told) }
{
    let inside = place.inside(source.layout);
    if field.children.is_empty() {
        return Ok(inside);
    }
    let around = around.with(source);
    let asked = asked_inside(source);
    match check_fields(&field.children, head, inside, body, asked, &around) {
        Ok(next) => Ok(next),
        Err(fault) => Err(fault),
    }
}

/// The place behind the columns of these fields, if they and those inside them keep their rules, and else the first
/// rule that is broken, depth first.
#[cycle(checking)]
pub(crate) fn check_fields<'a>(
    fields: &[Field],
    head: &BatchHead,
    place: Place,
    body: &'a [u8],
    asked: usize,
    around: &Around<'a>,
) -> Result<Place, BatchFault>
    requires { MayCheck (forest_seen fields.now) head.now place asked around.now }
    ensures next { IfOk result (λ next. IsBehind (forest_seen fields.now) place next) }
    ensures sound { IfOk result (λ next. AreSound body.now (columns_at (forest_seen fields.now) head.now place) asked
        (places_in around.now)) }
    ensures fault { IfErr result (λ told. HaveFault body.now (columns_at (forest_seen fields.now) head.now place) asked
        (places_in around.now) told) }
{
    let mut place = place;
    for field in fields {
        let source = check_column(field, head, place, body, asked, around)?;
        place = check_inside(field, head, place, body, &source, around)?;
    }
    Ok(place)
}
