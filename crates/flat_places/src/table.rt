//! Fields of a table, by its vtable (FlatBuffers, "FlatBuffer Internals", "Tables").

ghost use Rattle.std.specs.Prelude.{◌≡◌, ◌≤◌, ◌↔◌, ℕ, Option, IsTrue, IfOk, IfErr};
ghost use Rattle.flat_places.specs.Table.{HasSlot, ShowsVtable, HasTable, ShowsField, sizes_len};
ghost use Rattle.flat_places.specs.Fault.{VtableFault, TableFault, CutSlotFault, SlotFault};

use crate::fault::PlaceFault;
use crate::number::{signed_at, uint};
use std::marker::Model;

/// The bytes of a vtable's two sizes, its own and its table's, which stand before its slots.
const SIZES_LEN: usize = 4;

/// The bytes of a slot, and of each of the two sizes before the slots.
const SLOT_LEN: usize = 2;

/// A table, with the place and the own size of its vtable, which are looked at once (FlatBuffers, "FlatBuffer
/// Internals", "Tables"). A contract sees the buffer and the table's place in it.
#[derive(Clone, Drop)]
pub struct Table<'a> {
    /// The bytes.
    buf: &'a [u8],
    /// Where the table stands.
    place: usize,
    /// Where its vtable stands.
    vtable: usize,
    /// The vtable's own size in bytes.
    own_size: usize,
}

impl<'a> Model for Table<'a> {
    ghost use Rattle.flat_places.specs.Table.{Seen};

    ghost Value = { Seen };

    ghost use Rattle.flat_places.specs.TableView.{seen_of, KnowsItsVtable};

    ghost view = { seen_of };

    ghost invariant = { KnowsItsVtable };
}

/// Where the vtable of the table at the place stands.
fn vtable_place(buf: &[u8], table: usize) -> Result<usize, PlaceFault>
    ensures read { IfOk result (ShowsVtable buf.now table) }
    ensures fault { IfErr result (VtableFault buf.now table) }
{
    let offset = signed_at(buf, table)?;
    match table.checked_sub_signed(offset) {
        Some(vtable) => Ok(vtable),
        None => Err(PlaceFault::OutOfBounds),
    }
}

/// A vtable of this size, which is at least [`SIZES_LEN`], has the slot of field `n`.
fn has_slot(own_size: usize, n: usize) -> bool
    requires { sizes_len ≤ own_size }
    ensures { IsTrue result ↔ HasSlot own_size n }
{
    n < (own_size - SIZES_LEN) / SLOT_LEN
}

impl<'a> Table<'a> {
    /// The table at a place, whose vtable is whole: it has room for its two sizes (FlatBuffers, "FlatBuffer Internals",
    /// "Tables"). Neither the table's size nor any slot is looked at.
    ///
    /// The faults are [`PlaceFault::SmallVtable`], where the vtable's own size is below 4, and
    /// [`PlaceFault::OutOfBounds`], where the table's first four bytes or the vtable's first two do not lie in the
    /// buffer.
    pub fn at(buf: &'a [u8], place: usize) -> Result<Table<'a>, PlaceFault>
        ensures seen { IfOk result (λ table. table ≡ record { buf = buf.now; place = place }) }
        ensures whole { IfOk result (λ table. HasTable buf.now place) }
        ensures only { HasTable buf.now place → result ≡ Ok (record { buf = buf.now; place = place }) }
        ensures fault { IfErr result (TableFault buf.now place) }
    {
        let vtable = vtable_place(buf, place)?;
        let own_size = uint(buf, vtable, SLOT_LEN)? as usize;
        if own_size < SIZES_LEN {
            return Err(PlaceFault::SmallVtable);
        }
        Ok(Table {
            buf,
            place,
            vtable,
            own_size,
        })
    }

    /// The buffer that the table stands in.
    pub fn buf(&self) -> &'a [u8]
        ensures { result.now ≡ self.now.buf }
    {
        self.buf
    }

    /// Where field `n` (from 0) of the table stands, and `None` where it is absent: its vtable is too short to have a
    /// slot for it, or the slot holds 0 (FlatBuffers, "FlatBuffer Internals", "Tables"). What stands at the field's
    /// place is not asked, nor whether it lies in the buffer.
    ///
    /// The only fault is [`PlaceFault::OutOfBounds`], where the slot's two bytes do not lie in the buffer. No other
    /// slot is looked at.
    pub fn slot(&self, n: usize) -> Result<Option<usize>, PlaceFault>
        ensures read { IfOk result (ShowsField self.now.buf self.now.place n) }
        ensures only { (field : Option ℕ) → ShowsField self.now.buf self.now.place n field → result ≡ Ok field }
        ensures fault { IfErr result (CutSlotFault self.now.buf self.now.place n) }
    {
        if !has_slot(self.own_size, n) {
            return Ok(None);
        }
        match uint(self.buf, self.vtable + SIZES_LEN + SLOT_LEN * n, SLOT_LEN)? {
            0 => Ok(None),
            offset => Ok(Some(self.place + offset as usize)),
        }
    }
}

/// Where field `n` (from 0) of the table at a place stands, and `None` where it is absent: its vtable is too short to
/// have a slot for it, or the slot holds 0 (FlatBuffers, "FlatBuffer Internals", "Tables"). What stands at the field's
/// place is not asked, nor whether it lies in the text. Who asks for several fields makes a [`Table`] once.
///
/// The faults are [`PlaceFault::SmallVtable`], where the vtable's own size is below 4, and
/// [`PlaceFault::OutOfBounds`], where the table's first four bytes, the vtable's first two or the slot do not lie in
/// the text. Neither the table's size nor any other slot is looked at.
pub fn slot(buf: &[u8], table: usize, n: usize) -> Result<Option<usize>, PlaceFault>
    ensures read { IfOk result (ShowsField buf.now table n) }
    ensures only { (field : Option ℕ) → ShowsField buf.now table n field → result ≡ Ok field }
    ensures fault { IfErr result (SlotFault buf.now table n) }
{
    Table::at(buf, table)?.slot(n)
}
