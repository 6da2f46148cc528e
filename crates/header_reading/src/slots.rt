//! Fields of a table (FlatBuffers, "FlatBuffer Internals", "Tables").

ghost use Rattle.std.specs.Prelude.{◌≡◌, IfOk, IfErr};
ghost use Rattle.std.specs.Option.{option_map};
ghost use Rattle.flat_places.specs.Number.{IsNumberSize};
ghost use Rattle.flat_places.specs.Table.{ShowsField};
ghost use Rattle.flat_places.specs.Fault.{TableFault};
ghost use Rattle.header_types.specs.Slots.{ShowsNumber, ShowsReferenceField, ShowsString, ShowsVectorRef};
ghost use Rattle.header_types.specs.Slots.{FieldSlotFault, SlotNumberFault, ReferenceFault, StringFault};
ghost use Rattle.header_types.specs.Slots.{VectorRefFault, FromPlaceFault};
ghost use Rattle.header_reading.specs.VectorRefs.{vector_ref_of};

use flat_places::{Table, follow, text, uint, vector};
use header_types::MetaFault;

/// The elements of a vector.
#[derive(Clone, Copy)]
pub(crate) struct VectorRef {
    /// Where the first one stands.
    pub(crate) first: usize,
    /// How many there are.
    pub(crate) count: usize,
}

/// The table at a place (FlatBuffers, "FlatBuffer Internals", "Tables").
pub(crate) fn table_at(buf: &[u8], place: usize) -> Result<Table<'_>, MetaFault>
    ensures seen { IfOk result (λ table. table ≡ record { buf = buf.now; place = place }) }
    ensures fault { IfErr result (FromPlaceFault (TableFault buf.now place)) }
{
    Ok(Table::at(buf, place)?)
}

/// The table at a place of the buffer that a table stands in.
pub(crate) fn table_beside<'a>(table: &Table<'a>, place: usize) -> Result<Table<'a>, MetaFault>
    ensures seen { IfOk result (λ other. other ≡ record { buf = table.now.buf; place = place }) }
    ensures fault { IfErr result (FromPlaceFault (TableFault table.now.buf place)) }
{
    table_at(table.buf(), place)
}

/// Where field `n` of the table stands, and `None` where it is absent (FlatBuffers, "FlatBuffer Internals", "Tables").
pub(crate) fn slot_at(table: &Table<'_>, n: usize) -> Result<Option<usize>, MetaFault>
    ensures read { IfOk result (ShowsField table.now.buf table.now.place n) }
    ensures fault { IfErr result (FieldSlotFault table.now.buf table.now.place n) }
{
    Ok(table.slot(n)?)
}

/// The number of `size` bytes at field `n` of the table, and its default where it is absent (FlatBuffers, "Schema",
/// "Tables": "Default values").
pub(crate) fn number(
    table: &Table<'_>,
    n: usize,
    size: usize,
    default: u64,
) -> Result<u64, MetaFault>
    requires { IsNumberSize size }
    ensures read { IfOk result (ShowsNumber table.now.buf table.now.place n size default) }
    ensures fault { IfErr result (SlotNumberFault table.now.buf table.now.place n size) }
{
    match slot_at(table, n)? {
        Some(place) => Ok(uint(table.buf(), place, size)?),
        None => Ok(default),
    }
}

/// The place that field `n` of the table refers to, and `None` where it is absent (FlatBuffers, "FlatBuffer Internals",
/// "Offsets").
pub(crate) fn reference(table: &Table<'_>, n: usize) -> Result<Option<usize>, MetaFault>
    ensures read { IfOk result (ShowsReferenceField table.now.buf table.now.place n) }
    ensures fault { IfErr result (ReferenceFault table.now.buf table.now.place n) }
{
    match slot_at(table, n)? {
        Some(place) => Ok(Some(follow(table.buf(), place)?)),
        None => Ok(None),
    }
}

/// The string that field `n` of the table refers to, and `None` where it is absent (FlatBuffers, "FlatBuffer
/// Internals", "Strings and Vectors").
pub(crate) fn string<'a>(table: &Table<'a>, n: usize) -> Result<Option<&'a str>, MetaFault>
    ensures read { IfOk result (λ shown. ShowsString table.now.buf table.now.place n
        (option_map (λ bytes. bytes.now) shown)) }
    ensures fault { IfErr result (StringFault table.now.buf table.now.place n) }
{
    match reference(table, n)? {
        Some(target) => Ok(Some(text(table.buf(), target)?)),
        None => Ok(None),
    }
}

/// The vector that field `n` of the table refers to, whose elements have `size` bytes each, and no elements where it is
/// absent (FlatBuffers, "FlatBuffer Internals", "Strings and Vectors").
pub(crate) fn vector_at(table: &Table<'_>, n: usize, size: usize) -> Result<VectorRef, MetaFault>
    ensures read { IfOk result (λ shown. ShowsVectorRef table.now.buf table.now.place n size (vector_ref_of shown)) }
    ensures fault { IfErr result (VectorRefFault table.now.buf table.now.place n size) }
{
    match reference(table, n)? {
        Some(target) => {
            let (first, count) = vector(table.buf(), target, size)?;
            Ok(VectorRef { first, count })
        }
        None => Ok(VectorRef { first: 0, count: 0 }),
    }
}
