//! A column as a header and a body have it.

ghost use Rattle.std.specs.Prelude.{◌≡◌, ◌↔◌, ◌+◌, ◌<◌, ◌≤◌, ◌≤ℤ◌, pos, if◌then◌else◌, [], length, take, drop, get_or, IfSome, IfNone, IsSome};
ghost use Rattle.header_types.specs.FieldView.{field_head_of};
ghost use Rattle.batch_types.specs.Layouts.{layout_of as layout_of_type, buffers_in_layout};
ghost use Rattle.batch_types.specs.Placed.{bytes_at, buffer_at};
ghost use Rattle.batch_types.specs.Rules.{IsInside};
ghost use Rattle.batch_columns.specs.Buffers.{has_offsets};
ghost use Rattle.batch_columns.specs.Held.{layout_named};
ghost use Rattle.batch_columns.specs.Read.{column_at, IsSourceOf, LiesInside};

use crate::place::{Place, buffers_in};
use crate::{Layout, layout_of};
use header_types::{BatchHead, Field};

/// A column as a header and a body have it, the columns inside it aside. A buffer that its layout does not have is
/// empty.
#[derive(Clone, Copy, Debug)]
pub struct EncodedColumn<'a> {
    /// How its values stand in its buffers.
    pub layout: Layout,
    /// How many values it has.
    pub length: usize,
    /// How many of them are null, as the header says.
    pub nulls: i64,
    /// Which of its values are valid.
    pub validity: &'a [u8],
    /// Where each of its values begins, and where the last one ends, in the layouts of variable size.
    pub offsets: &'a [u8],
    /// Its values, or the bytes that offsets lead into.
    pub values: &'a [u8],
}

/// The bytes of a range of a body, where it lies inside the body.
fn bytes_in<'a>(body: &'a [u8], range: (i64, i64)) -> Option<&'a [u8]>
    ensures some { IfSome result (λ bytes. IsInside (length body.now) range × (bytes.now ≡ bytes_at body.now range)) }
    ensures none { IfNone result (¬ (IsInside (length body.now) range)) }
{
    let (begin, count) = range;
    if begin < 0 || count < 0 {
        return None;
    }
    let (begin, count) = (begin.unsigned_abs() as usize, count.unsigned_abs() as usize);
    if begin > body.len() || count > body.len() - begin {
        return None;
    }
    Some(&body[begin..begin + count])
}

/// The bytes of buffer `n` of the buffers of a column, which are `count` from buffer `first` of a header on; empty
/// where it has no more than `n`.
fn buffer_in<'a>(
    buffers: &[(i64, i64)],
    first: usize,
    count: usize,
    n: usize,
    body: &'a [u8],
) -> Option<&'a [u8]>
    requires { first + count ≤ length buffers.now }
    ensures some { IfSome result (λ bytes. (n < count → IsInside (length body.now)
        (get_or (take count (drop first buffers.now)) n (pos 0, pos 0)))
        × (bytes.now ≡ buffer_at body.now (take count (drop first buffers.now)) n)) }
    ensures none { IfNone result ((n < count) × (¬ (IsInside (length body.now)
        (get_or (take count (drop first buffers.now)) n (pos 0, pos 0))))) }
{
    if n < count {
        bytes_in(body, buffers[first + n])
    } else {
        Some(&[])
    }
}

/// The offsets and the values of a column of this layout, by its buffers 1 and 2.
fn offsets_and_values<'a>(layout: Layout, second: &'a [u8], third: &'a [u8]) -> (&'a [u8], &'a [u8])
    ensures offsets { result.0.now ≡ (if has_offsets (layout_named layout) then second.now else []) }
    ensures values { result.1.now ≡ (if has_offsets (layout_named layout) then third.now else second.now) }
{
    if layout.has_offsets() {
        (second, third)
    } else {
        (&[], second)
    }
}

/// How many values a node says that its column has, which is not less than none, and how many of them are null.
fn node_at(nodes: &[(i64, i64)], n: usize) -> (usize, i64)
    requires there { n < length nodes.now }
    requires counted { pos 0 ≤ℤ (get_or nodes.now n (pos 0, pos 0)).0 }
    ensures { get_or (drop n nodes.now) 0 (pos 0, pos 0) ≡ (pos result.0, result.1) }
{
    let (length, nulls) = nodes[n];
    (length.unsigned_abs() as usize, nulls)
}

/// The column of a field at a place of a header, of the bytes of this body: `None` where one of its buffers does not
/// lie inside the body. So many nodes and buffers are there, and its node does not say that it has less than no values.
pub fn encoded_column_at<'a>(
    field: &Field,
    head: &BatchHead,
    place: Place,
    body: &'a [u8],
) -> Option<EncodedColumn<'a>>
    requires node { place.node < length head.now.nodes.items }
    requires counted { pos 0 ≤ℤ (get_or head.now.nodes.items place.node (pos 0, pos 0)).0 }
    requires buffers { place.buffer + buffers_in_layout (layout_of_type (field_head_of field.now).data_type)
        ≤ length head.now.buffers.items }
    ensures source { IfSome result (λ source. IsSourceOf body.now (column_at field.now head.now place) source) }
    ensures inside { IsSome result ↔ LiesInside body.now (column_at field.now head.now place) }
{
    let layout = layout_of(&field.ty);
    let (length, nulls) = node_at(head.nodes.as_slice(), place.node);
    let (buffers, first, count) = (head.buffers.as_slice(), place.buffer, buffers_in(layout));
    let validity = buffer_in(buffers, first, count, 0, body)?;
    let second = buffer_in(buffers, first, count, 1, body)?;
    let third = buffer_in(buffers, first, count, 2, body)?;
    let (offsets, values) = offsets_and_values(layout, second, third);
    Some(EncodedColumn {
        layout,
        length,
        nulls,
        validity,
        offsets,
        values,
    })
}
