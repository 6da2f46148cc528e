//! Columns of `batch_columns` that are made of texts and of bytes, and whether columns are of fields.

use batch_columns::{Column, ColumnFault, Layout, are_of, offset_at, put_offset, start_at};
use header_types::{Field, Ty};
use std::alloc::{AllocError, Global};
use std::test::Fail;

/// A field of this type that has none inside it.
fn field(alloc: Global, ty: Ty) -> Field {
    Field {
        name: String::new(alloc),
        nullable: true,
        ty,
        children: Vec::new(alloc),
        metadata: Vec::new(alloc),
    }
}

/// Whether the columns of one bit and of one null, in this order, are of these two fields.
fn fits(alloc: Global, first: Ty, second: Ty) -> Result<bool, AllocError> {
    let mut columns = Vec::new(alloc);
    columns.push(Column::from_bits(alloc, &[Some(true)])?)?;
    columns.push(Column::nulls(alloc, 1))?;
    let mut fields = Vec::new(alloc);
    fields.push(field(alloc, first))?;
    fields.push(field(alloc, second))?;
    let is_one_less = are_of(columns.as_slice(), &fields[..1]);
    Ok(!is_one_less && are_of(columns.as_slice(), fields.as_slice()))
}

#[test]
fn columns_are_of_fields_of_their_layouts(rt: HostRuntime) -> Result<(), Fail> {
    assert!(rt; fits(rt.alloc(), Ty::Bool, Ty::Null)?, "of their own types");
    assert!(rt; !fits(rt.alloc(), Ty::Null, Ty::Bool)?, "in another order");
    assert!(rt; !fits(rt.alloc(), Ty::Bool, Ty::Bool)?, "a null of Bool");
    assert!(rt;
        !fits(rt.alloc(), Ty::Struct, Ty::Null)?,
        "a bit of a struct"
    );
    assert!(rt; !fits(rt.alloc(), Ty::Utf8, Ty::Null)?, "a bit of a text");
    Ok(())
}

/// The column that was made; no fault but want of memory is awaited.
fn made(made: Result<Column, ColumnFault>) -> Result<Column, AllocError> {
    made.map_err(|_| AllocError)
}

/// Whether the column has these bytes, cell by cell, and none behind them.
fn has_bytes(column: &Column, cells: &[Option<&[u8]>]) -> bool {
    let mut is_right = column.len() == cells.len() && column.bit(0).is_none();
    for row in 0..cells.len().saturating_add(3) {
        let cell = cells.get(row).copied();
        let is_null = cell.map(|bytes| bytes.is_none());
        is_right = is_right
            && column.bytes(row) == cell.flatten()
            && column.is_null(row) == is_null;
    }
    is_right
}

#[test]
fn texts_stand_one_behind_the_other(rt: HostRuntime) -> Result<(), Fail> {
    let column = made(Column::from_texts(rt.alloc(), &[Some("ab"), None, Some(""), Some("cde")]))?;
    assert!(rt;
        column.layout() == Layout::Utf8 && column.null_count() == 1,
        "texts"
    );
    assert!(rt; column.validity() == [0b1101].as_slice(), "their bitmap");
    assert!(rt; column.values() == b"abcde".as_slice(), "their bytes");
    let offsets = [0, 0, 0, 0, 2, 0, 0, 0, 2, 0, 0, 0, 2, 0, 0, 0, 5, 0, 0, 0];
    assert!(rt; column.offsets() == offsets.as_slice(), "their offsets");
    let cells: [Option<&[u8]>; 4] = [Some(b"ab"), None, Some(b""), Some(b"cde")];
    assert!(rt; has_bytes(&column, cells.as_slice()), "their cells");
    Ok(())
}

// Its buffers by their numbers, as the format lists them for its layout, and none behind those.
fn has_buffers(column: &Column, listed: &[&[u8]]) -> bool {
    let mut is_right = column.buffer(usize::MAX).is_empty();
    for number in 0..5 {
        let bytes = listed.get(number).copied().unwrap_or(&[]);
        is_right = is_right && column.buffer(number) == bytes;
    }
    is_right
}

#[test]
fn buffers_are_numbered_as_their_layout_lists_them(rt: HostRuntime) -> Result<(), Fail> {
    let alloc = rt.alloc();
    let text = made(Column::from_texts(alloc, &[Some("ab"), None]))?;
    let offsets: [u8; 12] = [0, 0, 0, 0, 2, 0, 0, 0, 2, 0, 0, 0];
    let listed: [&[u8]; 3] = [&[0b01], &offsets, b"ab"];
    assert!(rt; has_buffers(&text, &listed), "bitmap, offsets, bytes");
    assert!(rt; text.layout().has_offsets(), "texts have offsets");
    let bits = Column::from_bits(alloc, &[Some(true), Some(false)])?;
    let listed: [&[u8]; 2] = [&[], &[0b01]];
    assert!(rt; has_buffers(&bits, &listed), "no bitmap, bits");
    assert!(rt;
        bits.offsets().is_empty() && !bits.layout().has_offsets(),
        "bits have no offsets"
    );
    let cells: [Option<&[u8]>; 2] = [None, Some(&[7, 8])];
    let sized = made(Column::from_sized(alloc, 2, cells.as_slice()))?;
    let listed: [&[u8]; 2] = [&[0b10], &[0, 0, 7, 8]];
    assert!(rt; has_buffers(&sized, &listed), "bitmap, values of one size");
    assert!(rt;
        has_buffers(&Column::nulls(alloc, 3), &[]),
        "nulls have none"
    );
    Ok(())
}

#[test]
fn offsets_are_signed_numbers_of_four_bytes(rt: HostRuntime) -> Result<(), Fail> {
    let mut offsets = Vec::new(rt.alloc());
    for number in 0..5_000 {
        put_offset(&mut offsets, number * 3)?;
    }
    assert!(rt; offsets.len() == 20_000, "four bytes each");
    assert!(rt; offset_at(&offsets, 4_999) == 14_997, "the last one");
    put_offset(&mut offsets, 0x1_8000_0002)?;
    let last: [u8; 4] = [2, 0, 0, 0x80];
    assert!(rt;
        offsets.get(20_000..) == Some(last.as_slice()),
        "the lowest four bytes"
    );
    assert!(rt; offset_at(&offsets, 5_000) == -0x7fff_fffe, "below zero");
    assert!(rt;
        start_at(&offsets, 5_000) == 0x7fff_fffe,
        "without its sign"
    );
    Ok(())
}

#[test]
fn thousands_of_bytes_of_any_number_are_found(rt: HostRuntime) -> Result<(), Fail> {
    let text: [u8; 9] = *b"012345678";
    let mut cells: Vec<Option<&[u8]>> = Vec::new(rt.alloc());
    for row in 0..5_000_usize {
        cells.push(if row % 7 == 3 {
            None
        } else {
            text.get(..row % 10)
        })?;
    }
    let column = made(Column::from_binary(rt.alloc(), cells.as_slice()))?;
    assert!(rt; column.layout() == Layout::Binary, "bytes");
    assert!(rt; has_bytes(&column, cells.as_slice()), "their cells");
    Ok(())
}

#[test]
fn values_of_one_size_are_found(rt: HostRuntime) -> Result<(), Fail> {
    let cells: [Option<&[u8]>; 3] = [Some(&[1, 2]), None, Some(&[3, 4])];
    let column = made(Column::from_sized(rt.alloc(), 2, cells.as_slice()))?;
    assert!(rt;
        column.layout() == Layout::Bytes { size: 2 },
        "two bytes each"
    );
    assert!(rt;
        column.values() == [1, 2, 0, 0, 3, 4].as_slice(),
        "zero bytes under a null"
    );
    assert!(rt; has_bytes(&column, cells.as_slice()), "their cells");
    let other = Column::from_sized(rt.alloc(), 3, cells.as_slice());
    assert!(rt;
        matches!(other, Err(ColumnFault::WrongSize)),
        "another size"
    );
    Ok(())
}
