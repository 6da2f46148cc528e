//! Columns made of cells.

ghost use Rattle.std.specs.Prelude.{◌≡◌, ◌↔◌, ◌<◌, ◌≤◌, ◌^◌, ◌++◌, [], length, map, replicate, true, false};
ghost use Rattle.std.specs.Prelude.{IfOk, OnOk, IsErrOf, IsTrue, IsUtf8};
ghost use Rattle.std.specs.List.{AllByRecursion, flat_map, list_all};
ghost use Rattle.std.specs.Option.{is_some};
ghost use Rattle.bitmaps.specs.Bits.{zeros};
ghost use Rattle.bitmaps.specs.Packing.{packed_bytes};
ghost use Rattle.byteorder.specs.Endian.{little_bytes};
ghost use Rattle.batch_types.specs.Canonical.{bit_in, bytes_or, bytes_lengths, offsets_of};
ghost use Rattle.batch_types.specs.Layouts.{binary_layout, utf8_layout, bytes_layout};
ghost use Rattle.batch_types.specs.Shapes.{shape, no_shape};
ghost use Rattle.batch_columns.specs.Made.{bit_or_null, bytes_or_null, bytes_in, has_size, validity_bytes};
ghost use Rattle.batch_types.specs.Typed.{AreBytes};

use crate::column::Column;
use crate::fault::ColumnFault;
use crate::layout::Layout;
use crate::offsets::put_offset;
use bitmaps::Bitmap;
use std::alloc::{AllocError, Global};

/// Which of some cells are there.
fn marks<T>(alloc: Global, cells: &[Option<T>]) -> Result<Bitmap, AllocError>
    ensures { IfOk result (λ bits. bits ≡ map is_some cells.now) }
{
    let mut bits = Bitmap::new(alloc);
    for cell in cells {
        bits.push(cell.is_some())?;
    }
    Ok(bits)
}

/// The validity of some cells as it is written, and how many of them are not there.
fn validity<T>(alloc: Global, cells: &[Option<T>]) -> Result<(Vec<u8>, usize), AllocError>
    ensures bytes { IfOk result (λ made. made.0.items ≡ validity_bytes (map is_some cells.now)) }
    ensures nulls { IfOk result (λ made. made.1 ≡ zeros (map is_some cells.now)) }
{
    let there = marks(alloc, cells)?;
    let nulls = there.count_zeros();
    if nulls == 0 {
        return Ok((Vec::new(alloc), 0));
    }
    Ok((there.into_bytes(), nulls))
}

/// The bits of some cells, not set where there is none.
fn bits(alloc: Global, cells: &[Option<bool>]) -> Result<Bitmap, AllocError>
    ensures { IfOk result (λ bits. bits ≡ map (λ cell. bit_in (bit_or_null cell)) cells.now) }
{
    let mut bits = Bitmap::new(alloc);
    for cell in cells {
        bits.push(cell.unwrap_or(false))?;
    }
    Ok(bits)
}

/// How many bytes are too many for offsets of four bytes, which are signed.
const TOO_LONG: usize = 1 << 31;

/// The bytes of a cell, none where there is none.
fn bytes_there<'a>(cell: &Option<&'a [u8]>) -> &'a [u8]
    ensures { result.now ≡ bytes_or [] (bytes_or_null cell.now) }
{
    match cell {
        Some(bytes) => bytes,
        None => &[],
    }
}

/// Whether some cells have 2^31 bytes or more in all.
fn are_long(cells: &[Option<&[u8]>]) -> bool
    ensures { IsTrue result ↔ (2 ^ 31 ≤ bytes_in (map bytes_or_null cells.now)) }
{
    let mut total = 0;
    for cell in cells {
        let more = bytes_there(cell).len();
        if TOO_LONG - total <= more {
            return true;
        }
        total += more;
    }
    false
}

/// Appends the bytes of a cell, and the offset where they end.
fn append_variable(
    offsets: &mut Vec<u8>,
    bytes: &mut Vec<u8>,
    more: &[u8],
) -> Result<(), AllocError>
    ensures bytes { OnOk result (bytes.new.items ≡ bytes.old.items ++ more.now) }
    ensures offsets { OnOk result
        (offsets.new.items ≡ offsets.old.items ++ little_bytes 4 (length (bytes.old.items ++ more.now))) }
{
    bytes.extend_from_slice(more)?;
    put_offset(offsets, bytes.len())
}

/// The offsets and the bytes of some cells.
fn spans(alloc: Global, cells: &[Option<&[u8]>]) -> Result<(Vec<u8>, Vec<u8>), AllocError>
    ensures offsets { IfOk result
        (λ made. made.0.items ≡ offsets_of 4 (bytes_lengths (map bytes_or_null cells.now))) }
    ensures bytes { IfOk result (λ made. made.1.items ≡ flat_map (bytes_or []) (map bytes_or_null cells.now)) }
{
    let mut offsets = Vec::new(alloc);
    let mut bytes = Vec::new(alloc);
    put_offset(&mut offsets, 0)?;
    for cell in cells {
        append_variable(&mut offsets, &mut bytes, bytes_there(cell))?;
    }
    Ok((offsets, bytes))
}

/// The bytes of a text, none where there is none.
fn text_there<'a>(cell: &Option<&'a str>) -> &'a [u8]
    ensures bytes { result.now ≡ bytes_or [] (bytes_or_null cell.now) }
    ensures utf8 { AreBytes IsUtf8 (bytes_or_null cell.now) }
{
    match cell {
        Some(text) => text.as_bytes(),
        None => &[],
    }
}

/// Whether some texts have 2^31 bytes or more in all.
fn are_long_texts(cells: &[Option<&str>]) -> bool
    ensures { IsTrue result ↔ (2 ^ 31 ≤ bytes_in (map bytes_or_null cells.now)) }
{
    let mut total = 0;
    for cell in cells {
        let more = text_there(cell).len();
        if TOO_LONG - total <= more {
            return true;
        }
        total += more;
    }
    false
}

/// The offsets and the bytes of some texts.
fn text_spans(alloc: Global, cells: &[Option<&str>]) -> Result<(Vec<u8>, Vec<u8>), AllocError>
    ensures offsets { IfOk result
        (λ made. made.0.items ≡ offsets_of 4 (bytes_lengths (map bytes_or_null cells.now))) }
    ensures bytes { IfOk result (λ made. made.1.items ≡ flat_map (bytes_or []) (map bytes_or_null cells.now)) }
    ensures utf8 { IfOk result (λ made. AllByRecursion (AreBytes IsUtf8) (map bytes_or_null cells.now)) }
{
    let mut offsets = Vec::new(alloc);
    let mut bytes = Vec::new(alloc);
    put_offset(&mut offsets, 0)?;
    for cell in cells {
        append_variable(&mut offsets, &mut bytes, text_there(cell))?;
    }
    Ok((offsets, bytes))
}

/// Whether a cell has so many bytes, if it is there.
fn is_of_size(size: u32, cell: &Option<&[u8]>) -> bool
    ensures { result ≡ has_size size cell.now }
{
    match cell {
        Some(bytes) => bytes.len() == size as usize,
        None => true,
    }
}

/// Whether each cell has so many bytes, if it is there.
fn are_of_size(size: u32, cells: &[Option<&[u8]>]) -> bool
    ensures { result ≡ list_all (has_size size) cells.now }
{
    for cell in cells {
        if !is_of_size(size, cell) {
            return false;
        }
    }
    true
}

/// Appends so many zero bytes.
fn put_zeros(bytes: &mut Vec<u8>, count: u32) -> Result<(), AllocError>
    ensures { OnOk result (bytes.new.items ≡ bytes.old.items ++ replicate count 0) }
{
    for _ in 0..count {
        bytes.push(0)?;
    }
    Ok(())
}

/// Appends the bytes of a cell, or so many zero bytes where there is none.
fn put_block(bytes: &mut Vec<u8>, size: u32, cell: &Option<&[u8]>) -> Result<(), AllocError>
    ensures { OnOk result
        (bytes.new.items ≡ bytes.old.items ++ bytes_or (replicate size 0) (bytes_or_null cell.now)) }
{
    match cell {
        Some(more) => bytes.extend_from_slice(more),
        None => put_zeros(bytes, size),
    }
}

/// The bytes of some cells, so many zero bytes where there are none.
fn blocks(alloc: Global, size: u32, cells: &[Option<&[u8]>]) -> Result<Vec<u8>, AllocError>
    ensures { IfOk result
        (λ bytes. bytes.items ≡ flat_map (bytes_or (replicate size 0)) (map bytes_or_null cells.now)) }
{
    let mut bytes = Vec::new(alloc);
    for cell in cells {
        put_block(&mut bytes, size, cell)?;
    }
    Ok(bytes)
}

/// The column of these texts, which do not have too many bytes.
fn texts(alloc: Global, cells: &[Option<&str>]) -> Result<Column, AllocError>
    requires { bytes_in (map bytes_or_null cells.now) < 2 ^ 31 }
    ensures shape { IfOk result (λ column. column.shape ≡ shape (utf8_layout 4) no_shape) }
    ensures cells { IfOk result (λ column. column.cells ≡ map bytes_or_null cells.now) }
{
    let (validity, nulls) = validity(alloc, cells)?;
    let (offsets, bytes) = text_spans(alloc, cells)?;
    Ok(Column::from_parts(
        Layout::Utf8,
        cells.len(),
        nulls,
        validity,
        offsets,
        bytes,
        Vec::new(alloc),
    ))
}

/// The column of these bytes, which are so many in each cell.
fn sized(alloc: Global, size: u32, cells: &[Option<&[u8]>]) -> Result<Column, AllocError>
    requires { list_all (has_size size) cells.now ≡ true }
    ensures shape { IfOk result (λ column. column.shape ≡ shape (bytes_layout size) no_shape) }
    ensures cells { IfOk result (λ column. column.cells ≡ map bytes_or_null cells.now) }
{
    let (validity, nulls) = validity(alloc, cells)?;
    let bytes = blocks(alloc, size, cells)?;
    Ok(Column::from_parts(
        Layout::Bytes { size },
        cells.len(),
        nulls,
        validity,
        Vec::new(alloc),
        bytes,
        Vec::new(alloc),
    ))
}

/// The column of these bytes, which are not too many.
fn binary(alloc: Global, cells: &[Option<&[u8]>]) -> Result<Column, AllocError>
    requires { bytes_in (map bytes_or_null cells.now) < 2 ^ 31 }
    ensures shape { IfOk result (λ column. column.shape ≡ shape (binary_layout 4) no_shape) }
    ensures cells { IfOk result (λ column. column.cells ≡ map bytes_or_null cells.now) }
{
    let (validity, nulls) = validity(alloc, cells)?;
    let (offsets, bytes) = spans(alloc, cells)?;
    Ok(Column::from_parts(
        Layout::Binary,
        cells.len(),
        nulls,
        validity,
        offsets,
        bytes,
        Vec::new(alloc),
    ))
}

impl Column {
    ghost use Rattle.batch_types.specs.Cells.{null_cell};
    ghost use Rattle.batch_types.specs.Layouts.{null_layout, bits_layout};

    /// The column of so many nulls, in the layout `Null`.
    pub fn nulls(alloc: Global, count: usize) -> Column
        ensures shape { result.shape ≡ shape null_layout no_shape }
        ensures cells { result.cells ≡ replicate count null_cell }
    {
        Column::from_parts(
            Layout::Null,
            count,
            count,
            Vec::new(alloc),
            Vec::new(alloc),
            Vec::new(alloc),
            Vec::new(alloc),
        )
    }
    /// The column of these bits, a null where there is none, in the layout `Bits`. The only error is that memory is
    /// refused.
    pub fn from_bits(alloc: Global, cells: &[Option<bool>]) -> Result<Column, AllocError>
        ensures shape { IfOk result (λ column. column.shape ≡ shape bits_layout no_shape) }
        ensures cells { IfOk result (λ column. column.cells ≡ map bit_or_null cells.now) }
    {
        let (validity, nulls) = validity(alloc, cells)?;
        let values = bits(alloc, cells)?.into_bytes();
        Ok(Column::from_parts(
            Layout::Bits,
            cells.len(),
            nulls,
            validity,
            Vec::new(alloc),
            values,
            Vec::new(alloc),
        ))
    }
    /// The column of these bytes, a null where there are none, in the layout `Binary`. It is `TooLong` exactly where they
    /// are 2^31 or more in all; else the only error is `OutOfMemory`.
    pub fn from_binary(alloc: Global, cells: &[Option<&[u8]>]) -> Result<Column, ColumnFault>
        ensures shape { IfOk result (λ column. column.shape ≡ shape (binary_layout 4) no_shape) }
        ensures cells { IfOk result (λ column. column.cells ≡ map bytes_or_null cells.now) }
        ensures long { IsErrOf result ColumnFault.TooLong ↔ (2 ^ 31 ≤ bytes_in (map bytes_or_null cells.now)) }
        ensures sizes { IsErrOf result ColumnFault.WrongSize → ⊥ }
    {
        if are_long(cells) {
            return Err(ColumnFault::TooLong);
        }
        Ok(binary(alloc, cells)?)
    }
    /// The column of these texts, a null where there is none, in the layout `Utf8`. It is `TooLong` exactly where they
    /// have 2^31 bytes or more in all; else the only error is `OutOfMemory`.
    pub fn from_texts(alloc: Global, cells: &[Option<&str>]) -> Result<Column, ColumnFault>
        ensures shape { IfOk result (λ column. column.shape ≡ shape (utf8_layout 4) no_shape) }
        ensures cells { IfOk result (λ column. column.cells ≡ map bytes_or_null cells.now) }
        ensures long { IsErrOf result ColumnFault.TooLong ↔ (2 ^ 31 ≤ bytes_in (map bytes_or_null cells.now)) }
        ensures sizes { IsErrOf result ColumnFault.WrongSize → ⊥ }
    {
        if are_long_texts(cells) {
            return Err(ColumnFault::TooLong);
        }
        Ok(texts(alloc, cells)?)
    }

    /// The column of these bytes, a null where there are none, in the layout `Bytes` of this size. It is `WrongSize`
    /// exactly where a cell that is there has another number of bytes; else the only error is `OutOfMemory`.
    pub fn from_sized(
        alloc: Global,
        size: u32,
        cells: &[Option<&[u8]>],
    ) -> Result<Column, ColumnFault>
        ensures shape { IfOk result (λ column. column.shape ≡ shape (bytes_layout size) no_shape) }
        ensures cells { IfOk result (λ column. column.cells ≡ map bytes_or_null cells.now) }
        ensures sizes { IsErrOf result ColumnFault.WrongSize ↔ (list_all (has_size size) cells.now ≡ false) }
        ensures long { IsErrOf result ColumnFault.TooLong → ⊥ }
    {
        if !are_of_size(size, cells) {
            return Err(ColumnFault::WrongSize);
        }
        Ok(sized(alloc, size, cells)?)
    }
}
