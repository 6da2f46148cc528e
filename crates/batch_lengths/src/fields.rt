//! How many bytes the columns of fields have, depth first.

ghost use Rattle.std.specs.Prelude.{◌≡◌, ◌+◌, ◌^◌, ◌<◌, ◌≤◌, List, IfSome, IfNone};
ghost use Rattle.batch_types.specs.LaysOut.{values_limit};
ghost use Rattle.batch_columns.specs.Held.{layout_named};
ghost use Rattle.batch_reading.specs.Readable.{forest_seen};
ghost use Rattle.batch_reading.specs.Spots.{Spot};
ghost use Rattle.batch_lengths.specs.Sizes.{own_size, size_there, MayMeasure};

use crate::counted::Counted;
use crate::sizes::{count_inside, own_length};
use crate::walk::place_after;
use batch_columns::{Layout, Place, layout_of};
use header_types::{BatchHead, Field};

/// How many bytes are left of so many once the own buffers of a column of so many cells are written, of which this was
/// counted; `None` where they are too many.
fn own_left(layout: Layout, count: usize, counted: Counted, left: u64) -> Option<u64>
    requires few { count ≤ values_limit }
    requires left { left < 2 ^ 63 }
    ensures fits { IfSome result
        (λ rest. rest + own_size (layout_named layout) count counted.has_null counted.total ≡ left) }
    ensures long { IfNone result (left < own_size (layout_named layout) count counted.has_null counted.total) }
{
    let own = own_length(layout, count, counted);
    if own > left { None } else { Some(left - own) }
}

/// How many bytes are left of so many once the columns of some fields and those inside them are written; `None` where they
/// are too many. Their columns stand at this place of the header, so many cells are written of each, and the table has what
/// was counted of them.
pub(crate) fn fields_left(
    fields: &[Field],
    head: &BatchHead,
    place: Place,
    body: &[u8],
    count: usize,
    table: &[Counted],
    most: u64,
) -> Option<u64>
    requires may { (spots : List Spot)
        × MayMeasure (forest_seen fields.now) head.now place body.now count table.now spots }
    requires few { most < 2 ^ 63 }
    ensures fits { (spots : List Spot)
        → MayMeasure (forest_seen fields.now) head.now place body.now count table.now spots
        → IfSome result (λ left. left + size_there body.now (forest_seen fields.now) head.now place spots ≡ most) }
    ensures long { (spots : List Spot)
        → MayMeasure (forest_seen fields.now) head.now place body.now count table.now spots
        → IfNone result (most < size_there body.now (forest_seen fields.now) head.now place spots) }
{
    let mut left = most;
    let mut next = place;
    for field in fields {
        let (layout, counted) = (layout_of(&field.ty), table[next.node]);
        let Some(rest) = own_left(layout, count, counted, left) else {
            return None;
        };
        let cells = count_inside(layout, count, counted.total);
        let first = next.inside(layout);
        let Some(rest) = fields_left(&field.children, head, first, body, cells, table, rest) else {
            return None;
        };
        left = rest;
        next = place_after(field, next);
    }
    Some(left)
}
