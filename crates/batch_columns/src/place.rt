//! Where in a header a column stands.

ghost use Rattle.std.specs.Prelude.{◌≡◌, ◌+◌, ◌*◌, ◌^◌, ◌<◌, ◌≤◌, map};
ghost use Rattle.header_types.specs.Limits.{fields_limit};
ghost use Rattle.header_types.specs.Views.{tree_of, forest_of};
ghost use Rattle.batch_types.specs.Laid.{node_count, buffer_count};
ghost use Rattle.batch_types.specs.Layouts.{buffers_in_layout};
ghost use Rattle.batch_columns.specs.Held.{layout_named};

use crate::{Layout, layout_of};
use header_types::Field;

/// Where in a header a column stands: how many nodes and how many buffers stand before its own (Apache Arrow, "Arrow
/// Columnar Format", "RecordBatch message").
#[derive(Clone, Copy, Debug, PartialEq, Eq)]
pub struct Place {
    /// How many nodes.
    pub node: usize,
    /// How many buffers.
    pub buffer: usize,
}

/// How many buffers a column of this layout has, those of the columns inside it aside (Apache Arrow, "Arrow Columnar
/// Format", "Buffer listing for each layout").
pub fn buffers_in(layout: Layout) -> usize
    ensures { result ≡ buffers_in_layout (layout_named layout) }
{
    match layout {
        Layout::Null => 0,
        Layout::FixedSizeList { .. } | Layout::Struct => 1,
        Layout::Bits | Layout::Bytes { .. } | Layout::List => 2,
        Layout::Binary | Layout::Utf8 => 3,
    }
}

impl Place {
    /// Where the first column of a header stands.
    pub const FIRST: Place = Place { node: 0, buffer: 0 };

    /// Where the first of the columns inside a column of this layout stands: behind its node and its buffers.
    pub fn inside(self, layout: Layout) -> Place
        requires node { self.node + 1 < 2 ^ 64 }
        requires buffer { self.buffer + buffers_in_layout (layout_named layout) < 2 ^ 64 }
        ensures node { result.node ≡ self.node + 1 }
        ensures buffer { result.buffer ≡ self.buffer + buffers_in_layout (layout_named layout) }
    {
        Place {
            node: self.node + 1,
            buffer: self.buffer + buffers_in(layout),
        }
    }
}

/// Where the columns behind those of these fields stand, and of the fields inside them, if those stand at this place
/// (Apache Arrow, "Arrow Columnar Format", "RecordBatch message"). There are no more fields than a schema may have,
/// [`header_types::MAX_FIELDS`].
pub fn place_behind(fields: &[Field], place: Place) -> Place
    requires node { place.node + node_count (forest_of (map tree_of fields.now)) ≤ fields_limit }
    requires buffer { place.buffer ≤ 3 * place.node }
    ensures node { result.node ≡ place.node + node_count (forest_of (map tree_of fields.now)) }
    ensures buffer { result.buffer ≡ place.buffer + buffer_count (forest_of (map tree_of fields.now)) }
    ensures few { result.buffer ≤ 3 * result.node }
{
    let mut place = place;
    for field in fields {
        let inside = place.inside(layout_of(&field.ty));
        place = place_behind(&field.children, inside);
    }
    place
}
