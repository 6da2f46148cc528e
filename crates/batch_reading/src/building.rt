//! The columns of some fields, with those inside them.

ghost use Rattle.std.specs.Prelude.{◌≡◌, ◌+◌, ◌<◌, ◌≤◌, ◌≤ℤ◌, pos, List, length, get_or, IfOk};
ghost use Rattle.header_types.specs.FieldView.{field_head_of};
ghost use Rattle.batch_types.specs.Cells.{Cell};
ghost use Rattle.batch_types.specs.Laid.{node_count, buffer_count};
ghost use Rattle.batch_types.specs.Layouts.{layout_of as layout_of_type, buffers_in_layout};
ghost use Rattle.batch_types.specs.Shapes.{shape};
ghost use Rattle.batch_columns.specs.Held.{layout_named, shapes_held};
ghost use Rattle.batch_columns.specs.Kept.{IsKept};
ghost use Rattle.batch_columns.specs.Read.{column_at, IsSourceOf, LiesInside};
ghost use Rattle.batch_reading.specs.Readable.{forest_seen, AreReadable, HaveFewValues, AreBuilt};

use crate::plan::{Plan, plan_column};
use crate::selection::Selection;
use batch_columns::{Column, EncodedColumn, Layout, Place, encoded_column_at};
use header_types::{BatchHead, Field};
use std::alloc::{AllocError, Global};

/// The column of a field as the header and the body have it, whose buffers lie inside the body.
fn source_of<'a>(field: &Field, head: &BatchHead, place: Place, body: &'a [u8]) -> EncodedColumn<'a>
    requires node { place.node < length head.now.nodes.items }
    requires counted { pos 0 ≤ℤ (get_or head.now.nodes.items place.node (pos 0, pos 0)).0 }
    requires buffers { place.buffer + buffers_in_layout (layout_of_type (field_head_of field.now).data_type)
        ≤ length head.now.buffers.items }
    requires inside { LiesInside body.now (column_at field.now head.now place) }
    ensures { IsSourceOf body.now (column_at field.now head.now place) result }
{
    encoded_column_at(field, head, place, body).unwrap()
}

/// The column that was planned, with the columns inside it.
fn column_of(layout: Layout, count: usize, plan: Plan, inside: Vec<Column>) -> Column
    requires { (cells : List Cell) × (length cells ≡ count) × IsKept (layout_named layout) cells plan.nulls
        plan.validity.items plan.offsets.items plan.values.items inside.items }
    ensures shape { result.shape ≡ shape (layout_named layout) (shapes_held inside.items) }
    ensures cells { (cells : List Cell) → length cells ≡ count → IsKept (layout_named layout) cells plan.nulls
        plan.validity.items plan.offsets.items plan.values.items inside.items → result.cells ≡ cells }
{
    Column::from_parts(
        layout,
        count,
        plan.nulls,
        plan.validity,
        plan.offsets,
        plan.values,
        inside,
    )
}

/// The columns of the selected cells of some fields, whose columns stand at this place of the header, and where the next
/// column stands.
pub(crate) fn build_columns(
    alloc: Global,
    fields: &[Field],
    head: &BatchHead,
    place: Place,
    body: &[u8],
    selection: &Selection<'_>,
) -> Result<(Vec<Column>, Place), AllocError>
    requires { AreReadable (forest_seen fields.now) head.now place body.now selection.now }
    ensures built { IfOk result
        (λ made. AreBuilt (forest_seen fields.now) head.now place body.now selection.now made.0.items) }
    ensures few { IfOk result (λ made. HaveFewValues made.0.items) }
    ensures node { IfOk result (λ made. made.1.node ≡ place.node + node_count (forest_seen fields.now)) }
    ensures buffer { IfOk result (λ made. made.1.buffer ≡ place.buffer + buffer_count (forest_seen fields.now)) }
{
    let mut columns = Vec::new(alloc);
    let mut next = place;
    for field in fields {
        let source = source_of(field, head, next, body);
        let layout = source.layout;
        let plan = plan_column(alloc, &source, selection)?;
        let inner = plan.inside.selection();
        let first = next.inside(layout);
        let (inside, behind) = build_columns(
            alloc,
            field.children.as_slice(),
            head,
            first,
            body,
            &inner,
        )?;
        columns.push(column_of(layout, selection.count, plan, inside))?;
        next = behind;
    }
    Ok((columns, next))
}
