//! Batches of which a short body names the same bytes many times over, or holds much under nulls. Their lengths were worked
//! out by hand from the Apache Arrow Columnar Format ("Physical memory layout" and "Buffer alignment and padding").

use crate::told::{around, field, is_told, plain, table, told};
use bitmaps::count_zeros;
use header_types::{BatchHead, BitWidth, Field, Schema, Ty};
use std::alloc::{AllocError, Global};
use std::test::Fail;

/// A whole number of one byte.
const INT8: Ty = Ty::Int {
    bit_width: BitWidth::Eight,
    is_signed: true,
};

/// No buffer.
const NONE: (i64, i64) = (0, 0);

/// A number of bytes or rows as a header says it.
fn number(count: u64) -> i64 {
    (count & 0xfff_ffff) as i64
}

/// A header and a body that are put together column by column.
#[derive(Drop)]
struct Frame {
    head: BatchHead,
    body: Vec<u8>,
}

impl Frame {
    /// Of so many rows.
    fn new(alloc: Global, rows: u64) -> Frame {
        Frame {
            head: BatchHead {
                length: number(rows),
                nodes: Vec::new(alloc),
                buffers: Vec::new(alloc),
                compressed: false,
                body_length: 0,
            },
            body: Vec::new(alloc),
        }
    }

    /// Puts so many equal bytes into the body, and says where they are.
    fn bytes(&mut self, byte: u8, count: u64) -> Result<(i64, i64), AllocError> {
        let start = self.body.len() as u64;
        for _ in 0..count {
            self.body.push(byte)?;
        }
        Ok((number(start), number(count)))
    }

    /// Puts the offsets of so many lists, each behind the other, that have so many elements in turn.
    fn offsets(&mut self, count: u64, even: u64, odd: u64) -> Result<(i64, i64), AllocError> {
        let start = self.body.len() as u64;
        let mut offset = 0_u64;
        for list in 0..count.wrapping_add(1) {
            self.body.extend_from_slice(&offset.to_le_bytes()[..4])?;
            offset = offset.wrapping_add(if list % 2 == 0 { even } else { odd });
        }
        let long = count.wrapping_add(1).wrapping_mul(4);
        Ok((number(start), number(long)))
    }

    /// Puts a column of so many values, with its validity first where it has buffers.
    fn column(&mut self, count: u64, buffers: &[(i64, i64)]) -> Result<(), AllocError> {
        let mut nulls = 0;
        if let Some((start, long)) = buffers.first() {
            if *long > 0 {
                let first = (start.unsigned_abs() & 0xfff_ffff) as usize * 8;
                nulls = count_zeros(&self.body, first, (count & 0xfff_ffff) as usize) as u64;
            }
        }
        self.head.nodes.push((number(count), number(nulls)))?;
        self.head.buffers.extend_from_slice(buffers)?;
        Ok(())
    }

    /// Whether of a table of these fields so many bytes are told, and written.
    fn has_length(
        mut self,
        alloc: Global,
        fields: Vec<Field>,
        length: u64,
    ) -> Result<bool, AllocError> {
        self.head.body_length = number(self.body.len() as u64);
        let schema = table(alloc, fields);
        let told = told(&schema, &self.head, &self.body, u64::MAX);
        Ok(told == Some(length) && is_told(alloc, &schema, &self.head, &self.body)?)
    }
}

/// A struct of these.
fn tuple(alloc: Global, children: Vec<Field>) -> Field {
    field(alloc, Ty::Struct, children)
}

/// One field.
fn one(alloc: Global, inside: Field) -> Result<Vec<Field>, AllocError> {
    let mut fields = Vec::new(alloc);
    fields.push(inside)?;
    Ok(fields)
}

#[test]
fn columns_in_lists_share_a_validity(rt: HostRuntime) -> Result<(), Fail> {
    let alloc = rt.alloc();
    let mut frame = Frame::new(alloc, 3000);
    let offsets = frame.offsets(3000, 1, 1)?;
    // Every other list is null; of the elements every fourth is valid.
    let (lists, quarter) = (frame.bytes(0x55, 375)?, frame.bytes(0x11, 375)?);
    let values = frame.bytes(7, 3000)?;
    frame.column(3000, &[lists, offsets])?;
    frame.column(3000, &[NONE])?;
    let mut children = Vec::new(alloc);
    frame.column(3000, &[quarter])?;
    children.push(tuple(alloc, Vec::new(alloc)))?;
    frame.column(3000, &[])?;
    children.push(plain(alloc, Ty::Null))?;
    frame.column(3000, &[quarter, values])?;
    children.push(plain(alloc, Ty::Bool))?;
    frame.column(3000, &[quarter, values])?;
    children.push(plain(alloc, INT8))?;
    let list = around(alloc, Ty::List, tuple(alloc, children))?;
    // 1500 elements are wanted: 376 + 12008 of the lists, 192 of the structs, 192 + 192, 192 + 1504.
    assert!(rt; frame.has_length(alloc, one(alloc, list)?, 14_656)?);
    Ok(())
}

#[test]
fn lists_share_all_buffers(rt: HostRuntime) -> Result<(), Fail> {
    let alloc = rt.alloc();
    let mut frame = Frame::new(alloc, 3000);
    let offsets = frame.offsets(3000, 1, 1)?;
    let lists = frame.bytes(0x55, 375)?;
    let mut fields = Vec::new(alloc);
    for _ in 0..100_u32 {
        frame.column(3000, &[lists, offsets])?;
        frame.column(3000, &[])?;
        fields.push(around(alloc, Ty::List, plain(alloc, Ty::Null))?)?;
    }
    // 376 + 12008 of each.
    assert!(rt; frame.has_length(alloc, fields, 1_238_400)?);
    Ok(())
}

#[test]
fn lists_of_one_size_hold_blanks_under_nulls(rt: HostRuntime) -> Result<(), Fail> {
    let alloc = rt.alloc();
    let mut frame = Frame::new(alloc, 1000);
    // Every other row is null; what stands under the others is valid.
    let (rows, pairs, fours) = (
        frame.bytes(0x55, 125)?,
        frame.bytes(0x33, 250)?,
        frame.bytes(0x0f, 500)?,
    );
    frame.column(1000, &[rows])?;
    frame.column(2000, &[pairs])?;
    frame.column(4000, &[NONE])?;
    let mut children = Vec::new(alloc);
    frame.column(4000, &[])?;
    children.push(plain(alloc, Ty::Null))?;
    frame.column(4000, &[fours, fours])?;
    children.push(plain(alloc, Ty::Bool))?;
    let pair = Ty::FixedSizeList { list_size: 2 };
    let inner = around(alloc, pair, tuple(alloc, children))?;
    let pair = Ty::FixedSizeList { list_size: 2 };
    let outer = around(alloc, pair, inner)?;
    // 128 of the rows, and the 4000 bits.
    assert!(rt; frame.has_length(alloc, one(alloc, outer)?, 128 + 504)?);
    Ok(())
}

#[test]
fn lists_in_lists_share_offsets(rt: HostRuntime) -> Result<(), Fail> {
    let alloc = rt.alloc();
    let mut frame = Frame::new(alloc, 3000);
    let offsets = frame.offsets(3000, 1, 1)?;
    let lists = frame.bytes(0x55, 375)?;
    let values = frame.bytes(7, 3000)?;
    for _ in 0..3_u32 {
        frame.column(3000, &[lists, offsets])?;
    }
    frame.column(3000, &[NONE, values])?;
    let inner = around(alloc, Ty::List, plain(alloc, INT8))?;
    let outer = around(alloc, Ty::List, around(alloc, Ty::List, inner)?)?;
    // 376 + 12008 of the rows, 6008 of each 1500 lists inside, which are valid, and 1504.
    assert!(rt; frame.has_length(alloc, one(alloc, outer)?, 25_904)?);
    Ok(())
}

#[test]
fn lists_stand_far_apart(rt: HostRuntime) -> Result<(), Fail> {
    let alloc = rt.alloc();
    let mut frame = Frame::new(alloc, 100);
    let offsets = frame.offsets(100, 1, 300)?;
    let lists = frame.bytes(0x55, 13)?;
    let values = frame.bytes(7, 15_050)?;
    frame.column(100, &[lists, offsets])?;
    frame.column(15_050, &[NONE, values])?;
    let list = around(alloc, Ty::List, plain(alloc, INT8))?;
    // 16 + 408 of the lists, and 50 elements.
    assert!(rt; frame.has_length(alloc, one(alloc, list)?, 480)?);
    Ok(())
}

#[test]
fn long_lists_stand_between_nulls(rt: HostRuntime) -> Result<(), Fail> {
    let alloc = rt.alloc();
    let mut frame = Frame::new(alloc, 10);
    let offsets = frame.offsets(10, 1600, 800)?;
    let lists = frame.bytes(0x55, 2)?;
    let values = frame.bytes(0xfe, 12_000)?;
    frame.column(10, &[lists, offsets])?;
    frame.column(12_000, &[values, values])?;
    let list = around(alloc, Ty::List, plain(alloc, INT8))?;
    // 8 + 48 of the lists, and 8000 elements, some of them null.
    assert!(rt; frame.has_length(alloc, one(alloc, list)?, 8 + 48 + 1000 + 8000)?);
    Ok(())
}

#[test]
fn columns_in_structs_share_a_validity(rt: HostRuntime) -> Result<(), Fail> {
    let alloc = rt.alloc();
    let mut frame = Frame::new(alloc, 3000);
    let half = frame.bytes(0x55, 375)?;
    frame.column(3000, &[half])?;
    let mut children = Vec::new(alloc);
    for _ in 0..20_u32 {
        frame.column(3000, &[half, half])?;
        children.push(plain(alloc, Ty::Bool))?;
    }
    // 376 of the structs, and of each column, of which nothing wanted is null.
    assert!(rt; frame.has_length(alloc, one(alloc, tuple(alloc, children))?, 21 * 376)?);
    Ok(())
}

/// A table of one field.
fn schema(alloc: Global, inside: Field) -> Result<Schema, AllocError> {
    Ok(table(alloc, one(alloc, inside)?))
}

#[test]
fn as_many_elements_as_may_be_have_no_byte(rt: HostRuntime) -> Result<(), Fail> {
    let alloc = rt.alloc();
    let ty = Ty::FixedSizeList { list_size: 1 << 24 };
    let schema = schema(alloc, around(alloc, ty, plain(alloc, Ty::Null))?)?;
    let mut frame = Frame::new(alloc, 1);
    frame.column(1, &[NONE])?;
    frame.column(1 << 24, &[])?;
    assert!(rt; told(&schema, &frame.head, &frame.body, 0) == Some(0));
    Ok(())
}

#[test]
fn many_elements_under_nulls_have_no_byte(rt: HostRuntime) -> Result<(), Fail> {
    let alloc = rt.alloc();
    let inner = Ty::FixedSizeList { list_size: 255 };
    let inner = around(alloc, inner, plain(alloc, Ty::Null))?;
    let outer = Ty::FixedSizeList { list_size: 255 };
    let schema = schema(alloc, around(alloc, outer, inner)?)?;
    let mut frame = Frame::new(alloc, 257);
    let rows = frame.bytes(0x55, 33)?;
    frame.head.body_length = 33;
    frame.column(257, &[rows])?;
    frame.column(65_535, &[NONE])?;
    frame.column(16_711_425, &[])?;
    assert!(rt; told(&schema, &frame.head, &frame.body, 40) == Some(40));
    Ok(())
}
