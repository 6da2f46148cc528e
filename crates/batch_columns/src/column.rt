//! A column: its buffers and the columns inside it.

use crate::copy::{copies, with_inside};
use crate::layout::Layout;
use batch_types::laws::written_values_are_the_cells;
use std::alloc::AllocError;
use std::marker::Model;

/// The values of one field for some rows: a list of cells, each of which is null, a bit, bytes, a list of elements or one
/// value of each field inside.
#[cycle(column)]
#[derive(Debug, Drop)]
pub struct Column {
    layout: Layout,
    length: usize,
    nulls: usize,
    validity: Vec<u8>,
    offsets: Vec<u8>,
    values: Vec<u8>,
    inside: Vec<Column>,
}

impl Model for Column {
    ghost use Rattle.batch_columns.specs.Contents.{Contents};
    ghost use Rattle.batch_columns.specs.Coding.{coded_contents};

    ghost Value = { Contents };

    ghost coded = { coded_contents };

    ghost use Rattle.batch_columns.specs.Held.{contents_held, layout_named, height};
    ghost use Rattle.batch_columns.specs.Kept.{IsKept};

    ghost view = { λ a. contents_held a.layout a.length a.validity.items a.offsets.items a.values.items a.inside.items };

    ghost invariant = { λ a. IsKept (layout_named a.layout)
        (contents_held a.layout a.length a.validity.items a.offsets.items a.values.items a.inside.items).cells a.nulls
        a.validity.items a.offsets.items a.values.items a.inside.items };

    ghost size = { λ c. height c.shape };

    ghost use Rattle.std.proofs.Common.{arith};
    ghost use Rattle.batch_columns.specs.Falls.{most_le-heights};

    ghost size_decreases = { λ a h. omega (arith, most_le-heights a.inside.items) };
}

impl Column {
    ghost use Rattle.std.specs.Prelude.{◌≡◌, ◌↔◌, ℕ, List, [], length, get_or, IsTrue};
    ghost use Rattle.batch_types.specs.Cells.{Cell};
    ghost use Rattle.batch_types.specs.Shapes.{shape};
    ghost use Rattle.batch_types.specs.Canonical.{own_buffers, nulls_of};
    ghost use Rattle.std.specs.List.{AllByRecursion};
    ghost use Rattle.batch_types.specs.Typed.{IsCellOf};
    ghost use Rattle.batch_types.specs.Written.{HasRoom};
    ghost use Rattle.batch_columns.specs.Buffers.{offsets_among, values_among};
    ghost use Rattle.batch_columns.specs.Contents.{layout_in, shapes_in};
    ghost use Rattle.batch_columns.specs.Held.{layout_named, shapes_held};
    ghost use Rattle.batch_columns.specs.Kept.{IsKept, HaveInside};

    /// The column of some cells, by what is written of them: `count` of them, `nulls` of them null, their validity, their
    /// offsets, their values, and the columns inside it. A buffer that the layout does not have is empty.
    pub fn from_parts(
        layout: Layout,
        count: usize,
        nulls: usize,
        validity: Vec<u8>,
        offsets: Vec<u8>,
        values: Vec<u8>,
        inside: Vec<Column>,
    ) -> Column
        requires { (cells : List Cell) × (length cells ≡ count)
            × IsKept (layout_named layout) cells nulls validity.items offsets.items values.items inside.items }
        ensures shape { result.shape ≡ shape (layout_named layout) (shapes_held inside.items) }
        ensures cells { (cells : List Cell) → length cells ≡ count
            → IsKept (layout_named layout) cells nulls validity.items offsets.items values.items inside.items
            → result.cells ≡ cells }
    {
        written_values_are_the_cells();
        Column {
            layout,
            length: count,
            nulls,
            validity,
            offsets,
            values,
            inside,
        }
    }

    /// How its values stand in buffers. Each cell is one of that layout, and offsets have room for what they count.
    pub fn layout(&self) -> Layout
        ensures named { layout_named result ≡ layout_in self.now }
        ensures fit { AllByRecursion (IsCellOf self.now.shape) self.now.cells }
        ensures room { HasRoom (layout_in self.now) self.now.cells }
    {
        self.layout
    }

    /// How many cells there are.
    pub fn len(&self) -> usize
        ensures { result ≡ length self.now.cells }
    {
        self.length
    }

    /// Whether there is no cell.
    pub fn is_empty(&self) -> bool
        ensures { IsTrue result ↔ (self.now.cells ≡ []) }
    {
        self.len() == 0
    }

    /// How many of the cells are null ("Null count").
    pub fn null_count(&self) -> usize
        ensures { result ≡ nulls_of self.now.cells }
    {
        self.nulls
    }

    /// Which cells are valid, packed as "Validity bitmaps" says; no bytes where no cell is null, and in the layout `Null`.
    pub fn validity(&self) -> &[u8]
        ensures { result.now ≡ get_or (own_buffers (layout_in self.now) self.now.cells) 0 [] }
    {
        self.validity.as_slice()
    }

    /// The offsets of values of variable size as they are written: where each begins, and where the last one ends, each
    /// a signed number of four bytes, the lowest first; no bytes in a layout without offsets. Each cell is one of the
    /// layout, and offsets have room for what they count.
    pub fn offsets(&self) -> &[u8]
        ensures buffer { result.now ≡ offsets_among (layout_in self.now) (own_buffers (layout_in self.now) self.now.cells) }
        ensures fit { AllByRecursion (IsCellOf self.now.shape) self.now.cells }
        ensures room { HasRoom (layout_in self.now) self.now.cells }
    {
        self.offsets.as_slice()
    }

    /// The values as they are written: those of fixed size, their bits in the layout `Bits`, or the bytes that offsets lead
    /// into; no bytes in a layout without such a buffer. Each cell is one of the layout.
    pub fn values(&self) -> &[u8]
        ensures buffer { result.now ≡ values_among (layout_in self.now) (own_buffers (layout_in self.now) self.now.cells) }
        ensures fit { AllByRecursion (IsCellOf self.now.shape) self.now.cells }
    {
        self.values.as_slice()
    }

    /// Buffer `number` of its layout, from 0 on, as it is written ("Buffer Listing for Each Layout"): the validity, then
    /// the offsets, if there are some, then the values; empty where the layout has none of that number.
    pub fn buffer(&self, number: usize) -> &[u8]
        ensures { result.now ≡ get_or (own_buffers (layout_in self.now) self.now.cells) number [] }
    {
        match (number, self.layout.has_offsets()) {
            (0, _) => self.validity(),
            (1, true) => self.offsets(),
            (1, false) | (2, true) => self.values(),
            _ => &[],
        }
    }

    /// The columns inside it: one of the elements of a list, one of each field of a struct, none in the other layouts.
    /// They hold the elements or fields of the cells that are not null, in order, and blank ones under a null: none in
    /// the layout `List`, as many as its size in `FixedSizeList`, one of each field in `Struct`.
    pub fn inside(&self) -> &[Column]
        ensures shapes { shapes_held result.now ≡ shapes_in self.now }
        ensures held { HaveInside (layout_in self.now) self.now.cells result.now }
    {
        self.inside.as_slice()
    }
}

impl Clone for Column {
    ghost use Rattle.std.specs.Prelude.{◌≡◌, IfOk};

    ghost is_clone = { λ old new. new ≡ old };

    /// A column of the same shape and cells, with buffers of its own, or memory is refused.
    fn clone(&self) -> Result<Column, AllocError>
        ensures { IfOk result (λ new. new ≡ self.now) }
    {
        let alloc = *self.inside.allocator();
        let inside = copies(alloc, self.inside())?;
        with_inside(alloc, self, inside)
    }
}
