//! Objects written one behind the other (FlatBuffers, "FlatBuffer Internals"). A place is how many bytes stand before
//! it. A reference is left blank until the object that it names is begun. Where memory is refused, a beginning of what
//! was to be written may stay.

ghost use Rattle.std.specs.Prelude.{◌≡◌, ◌≤◌, ◌+◌, ◌*◌, ◌++◌, ◌⊎◌, [], ◌∷◌, length, OnOk, IfOk};
ghost use Rattle.std.specs.List.{AllByRecursion};
ghost use Rattle.std.specs.Int.{w64};
ghost use Rattle.std.specs.Int.RustNames.{FitsSigned};
ghost use Rattle.byteorder.specs.Endian.{little_bytes};
ghost use Rattle.header_writing.specs.Objects.{zeros, padding, table_lead, shorts, string_object};
ghost use Rattle.header_writing.specs.Canonical.{int64_number, pairs_text, pairs_object};
ghost use Rattle.header_writing.specs.Filling.{referring, with_object, table_begun, references_begun};
ghost use Rattle.header_writing.specs.Written.{cell_bytes, cells_bytes, FitsPair};

use std::alloc::AllocError;

/// What stands in a table, but for the objects that it refers to.
#[derive(Clone, Copy)]
pub(crate) enum Cell {
    /// One byte.
    Byte(u8),
    /// Two bytes.
    Short(u16),
    /// Four bytes.
    Word(u32),
    /// Eight bytes.
    Long(u64),
}

/// A reference that is not set yet.
pub(crate) const REFERENCE: Cell = Cell::Word(0);

/// Appends the lowest four bytes of a number.
pub(crate) fn put_word(text: &mut Vec<u8>, number: usize) -> Result<(), AllocError>
    ensures put { OnOk result (text.new.items ≡ text.old.items ++ little_bytes 4 number) }
{
    text.extend_from_slice(&(number as u64).to_le_bytes()[..4])
}

/// Appends zero bytes until `behind` more end at a multiple of `unit`.
pub(crate) fn pad(text: &mut Vec<u8>, behind: usize, unit: usize) -> Result<(), AllocError>
    requires unit_is { (unit ≡ 4) ⊎ (unit ≡ 8) }
    requires few { behind ≤ 64 }
    ensures padded { OnOk result (text.new.items
        ≡ text.old.items ++ zeros (padding unit (length text.old.items + behind))) }
{
    let count = (unit - (text.len() + behind) % unit) % unit;
    for _ in 0..count {
        text.push(0)?;
    }
    Ok(())
}

/// Sets the reference at `from` to where the text ends (FlatBuffers, "FlatBuffer Internals", "Offsets").
pub(crate) fn refer(text: &mut Vec<u8>, from: usize)
    requires within { from + 4 ≤ length text.old.items }
    ensures set { text.new.items ≡ referring text.old.items from (length text.old.items) }
{
    let offset = (text.len() - from) as u64;
    text.as_mut_slice()[from..from + 4].copy_from_slice(&offset.to_le_bytes()[..4]);
}

/// Appends a string, to which the reference at `from` is set.
pub(crate) fn put_string(text: &mut Vec<u8>, from: usize, string: &str) -> Result<(), AllocError>
    requires within { from + 4 ≤ length text.old.items }
    ensures put { OnOk result (text.new.items ≡ with_object text.old.items from (string_object string.now)) }
{
    pad(text, 0, 4)?;
    refer(text, from);
    put_word(text, string.len())?;
    text.extend_from_slice(string.as_bytes())?;
    text.push(0)?;
    Ok(())
}

/// Appends a number of eight bytes of two's complement.
fn put_long(text: &mut Vec<u8>, number: i64) -> Result<(), AllocError>
    ensures put { OnOk result (text.new.items ≡ text.old.items ++ little_bytes 8 (int64_number number)) }
    ensures fits { FitsSigned w64 number }
{
    text.extend_from_slice(&number.to_le_bytes())
}

/// Appends a struct of two numbers of eight bytes.
fn put_pair(text: &mut Vec<u8>, pair: (i64, i64)) -> Result<(), AllocError>
    ensures put { OnOk result (text.new.items ≡ text.old.items ++ pairs_text (pair ∷ [])) }
    ensures fits { FitsPair pair }
{
    put_long(text, pair.0)?;
    put_long(text, pair.1)?;
    Ok(())
}

/// Appends structs of two numbers of eight bytes.
fn put_structs(text: &mut Vec<u8>, pairs: &[(i64, i64)]) -> Result<(), AllocError>
    ensures put { OnOk result (text.new.items ≡ text.old.items ++ pairs_text pairs.now) }
    ensures fit { OnOk result (AllByRecursion FitsPair pairs.now) }
{
    for pair in pairs {
        put_pair(text, *pair)?;
    }
    Ok(())
}

/// Appends a vector of structs of two numbers of eight bytes, to which the reference at `from` is set.
pub(crate) fn put_pairs(
    text: &mut Vec<u8>,
    from: usize,
    pairs: &[(i64, i64)],
) -> Result<(), AllocError>
    requires within { from + 4 ≤ length text.old.items }
    ensures put { OnOk result (text.new.items ≡ with_object text.old.items from (pairs_object pairs.now)) }
    ensures fit { OnOk result (AllByRecursion FitsPair pairs.now) }
{
    pad(text, 4, 8)?;
    refer(text, from);
    put_word(text, pairs.len())?;
    put_structs(text, pairs)?;
    Ok(())
}

/// Appends numbers of two bytes.
fn put_shorts(text: &mut Vec<u8>, numbers: &[u16]) -> Result<(), AllocError>
    ensures put { OnOk result (text.new.items ≡ text.old.items ++ shorts numbers.now) }
{
    for number in numbers {
        text.extend_from_slice(&number.to_le_bytes())?;
    }
    Ok(())
}

/// Appends a cell of a table.
fn put_cell(text: &mut Vec<u8>, cell: Cell) -> Result<(), AllocError>
    ensures put { OnOk result (text.new.items ≡ text.old.items ++ cell_bytes cell) }
{
    match cell {
        Cell::Byte(number) => text.extend_from_slice(&[number]),
        Cell::Short(number) => text.extend_from_slice(&number.to_le_bytes()),
        Cell::Word(number) => text.extend_from_slice(&number.to_le_bytes()),
        Cell::Long(number) => text.extend_from_slice(&number.to_le_bytes()),
    }
}

/// Appends the cells of a table.
fn put_cells(text: &mut Vec<u8>, cells: &[Cell]) -> Result<(), AllocError>
    ensures put { OnOk result (text.new.items ≡ text.old.items ++ cells_bytes cells.now) }
{
    for cell in cells {
        put_cell(text, *cell)?;
    }
    Ok(())
}

/// Appends a table behind its vtable, whose numbers are given: its size, the table's size, and where each field stands
/// in the table. The reference at `from` is set to it. The cells follow the table's own first four bytes, and the first
/// of them stands where the result says.
pub(crate) fn put_table(
    text: &mut Vec<u8>,
    from: usize,
    numbers: &[u16],
    cells: &[Cell],
) -> Result<usize, AllocError>
    requires within { from + 4 ≤ length text.old.items }
    requires few { length numbers.now ≤ 32 }
    ensures put { OnOk result (text.new.items
        ≡ table_begun text.old.items from numbers.now (cells_bytes cells.now)) }
    ensures first { IfOk result (λ place. place
        ≡ length text.old.items + table_lead (length text.old.items) numbers.now + 4) }
{
    let size = 2 * numbers.len();
    pad(text, size, 8)?;
    put_shorts(text, numbers)?;
    refer(text, from);
    put_word(text, size)?;
    let first = text.len();
    put_cells(text, cells)?;
    Ok(first)
}

/// Appends so many references that are not set yet.
fn put_blank(text: &mut Vec<u8>, count: usize) -> Result<(), AllocError>
    ensures put { OnOk result (text.new.items ≡ text.old.items ++ zeros (4 * count)) }
{
    for _ in 0..count {
        put_word(text, 0)?;
    }
    Ok(())
}

/// Appends a vector of so many references that are not set yet, to which the reference at `from` is set. The first of
/// them stands where the result says.
pub(crate) fn put_references(
    text: &mut Vec<u8>,
    from: usize,
    count: usize,
) -> Result<usize, AllocError>
    requires within { from + 4 ≤ length text.old.items }
    ensures put { OnOk result (text.new.items
        ≡ references_begun text.old.items from count (zeros (4 * count))) }
    ensures first { IfOk result (λ place. place
        ≡ length text.old.items + padding 4 (length text.old.items) + 4) }
{
    pad(text, 0, 4)?;
    refer(text, from);
    put_word(text, count)?;
    let first = text.len();
    put_blank(text, count)?;
    Ok(first)
}
