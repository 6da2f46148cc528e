//! Headers and bodies whose lengths were worked out by hand from the Apache Arrow Columnar Format ("Physical memory layout"
//! and "Buffer alignment and padding").

use crate::told::{around, field, is_told, plain, table, told};
use header_types::{BatchHead, BitWidth, Field, Schema, Ty};
use std::alloc::{AllocError, Global};
use std::test::Fail;

/// A whole number of eight bytes.
const INT64: Ty = Ty::Int {
    bit_width: BitWidth::SixtyFour,
    is_signed: true,
};

/// A header of so many rows, with these nodes and buffers, and with a body of so many bytes.
fn head(
    alloc: Global,
    rows: i64,
    nodes: &[(i64, i64)],
    buffers: &[(i64, i64)],
    body: i64,
) -> Result<BatchHead, AllocError> {
    Ok(BatchHead {
        length: rows,
        nodes: Vec::from_slice(alloc, nodes)?,
        buffers: Vec::from_slice(alloc, buffers)?,
        compressed: false,
        body_length: body,
    })
}

/// A table of one field.
fn one(alloc: Global, field: Field) -> Result<Schema, AllocError> {
    let mut fields = Vec::new(alloc);
    fields.push(field)?;
    Ok(table(alloc, fields))
}

/// A table of 512 columns of whole numbers, and a header in which each has these eight rows of the body.
fn shared(alloc: Global) -> Result<(Schema, BatchHead), AllocError> {
    let mut fields = Vec::new(alloc);
    let mut head = head(alloc, 8, &[], &[], 64)?;
    for _ in 0..512_u32 {
        fields.push(plain(alloc, INT64))?;
        head.nodes.push((8, 0))?;
        head.buffers.push((0, 0))?;
        head.buffers.push((0, 64))?;
    }
    Ok((table(alloc, fields), head))
}

#[test]
fn columns_that_share_a_buffer_are_counted_each(rt: HostRuntime) -> Result<(), Fail> {
    let (schema, head) = shared(rt.alloc())?;
    let body = [7; 64];
    assert!(rt;
        told(&schema, &head, &body, u64::MAX) == Some(32_768),
        "512 of 64 bytes"
    );
    assert!(rt;
        told(&schema, &head, &body, 32_768) == Some(32_768),
        "as many as may be"
    );
    assert!(rt; told(&schema, &head, &body, 32_767).is_none(), "one more");
    assert!(rt; is_told(rt.alloc(), &schema, &head, &body)?, "as written");
    Ok(())
}

#[test]
fn no_row_of_a_long_list_has_no_byte(rt: HostRuntime) -> Result<(), Fail> {
    let alloc = rt.alloc();
    let ty = Ty::FixedSizeList { list_size: 1 << 30 };
    let schema = one(alloc, around(alloc, ty, plain(alloc, Ty::Null))?)?;
    let none = head(alloc, 0, &[(0, 0), (0, 0)], &[(0, 0)], 0)?;
    assert!(rt; told(&schema, &none, &[], 0) == Some(0), "no row");
    let row = head(alloc, 1, &[(1, 0), (0, 0)], &[(0, 0)], 0)?;
    assert!(rt;
        told(&schema, &row, &[], u64::MAX).is_none(),
        "a row is not laid out"
    );
    assert!(rt; is_told(alloc, &schema, &none, &[])?, "as written");
    Ok(())
}

#[test]
fn nulls_of_a_long_list_have_no_byte(rt: HostRuntime) -> Result<(), Fail> {
    let alloc = rt.alloc();
    let ty = Ty::FixedSizeList { list_size: 1 << 20 };
    let schema = one(alloc, around(alloc, ty, plain(alloc, Ty::Null))?)?;
    let nodes = [(16, 16), (1 << 24, 0)];
    let head = head(alloc, 16, &nodes, &[(0, 2)], 2)?;
    assert!(rt;
        told(&schema, &head, &[0, 0], u64::MAX) == Some(8),
        "a bitmap"
    );
    assert!(rt; is_told(alloc, &schema, &head, &[0, 0])?, "as written");
    Ok(())
}

#[test]
fn batches_without_a_column_have_no_byte(rt: HostRuntime) -> Result<(), Fail> {
    let alloc = rt.alloc();
    let schema = table(alloc, Vec::new(alloc));
    let head = head(alloc, 1_048_576, &[], &[], 0)?;
    assert!(rt; told(&schema, &head, &[], 0) == Some(0));
    Ok(())
}

#[test]
fn no_text_has_an_offset(rt: HostRuntime) -> Result<(), Fail> {
    let alloc = rt.alloc();
    let schema = one(alloc, plain(alloc, Ty::Utf8))?;
    let none = head(alloc, 0, &[(0, 0)], &[(0, 0), (0, 0), (0, 0)], 0)?;
    assert!(rt; told(&schema, &none, &[], 8) == Some(8), "without offsets");
    let five = head(alloc, 0, &[(0, 0)], &[(0, 0), (0, 4), (4, 5)], 9)?;
    let body = [5, 0, 0, 0, 1, 2, 3, 4, 5];
    assert!(rt; told(&schema, &five, &body, 8) == Some(8), "from 5 on");
    Ok(())
}

#[test]
fn texts_are_counted_from_the_first_offset_on(rt: HostRuntime) -> Result<(), Fail> {
    let alloc = rt.alloc();
    let schema = one(alloc, plain(alloc, Ty::Binary))?;
    let mut body = [0; 1024];
    body[1] = 1;
    body[5] = 3;
    let ranges = [(0, 0), (0, 8), (0, 1024)];
    let head = head(alloc, 1, &[(1, 0)], &ranges, 1024)?;
    assert!(rt;
        told(&schema, &head, &body, u64::MAX) == Some(8 + 512),
        "256 to 768"
    );
    assert!(rt; is_told(alloc, &schema, &head, &body)?, "as written");
    Ok(())
}

/// A table of lists of lists of whole numbers beside a text, in a struct.
fn lists(alloc: Global) -> Result<Schema, AllocError> {
    let inner = around(alloc, Ty::List, plain(alloc, INT64))?;
    let mut children = Vec::new(alloc);
    children.push(around(alloc, Ty::List, inner)?)?;
    children.push(plain(alloc, Ty::Utf8))?;
    one(alloc, field(alloc, Ty::Struct, children))
}

#[test]
fn what_stands_under_a_null_is_not_counted(rt: HostRuntime) -> Result<(), Fail> {
    let alloc = rt.alloc();
    let schema = lists(alloc)?;
    let body = [
        0, 0, 0, 0, 2, 0, 0, 0, 3, 0, 0, 0, 4, 0, 0, 0, 5, 0, 0, 0, 0b101, 0b0111, 0, 0, 0, 0, 0,
        0, 0, 0, 0, 0, 0, 0, 0, 0, 0, 0, 0, 0, 0, 0, 0, 0, 0, 0, 0, 0, 0, 0, 0, 0, 0, 0, 0, 0, 0,
        0, 0, 0, 0, 0, 0, 0,
    ];
    let nodes = [(3, 1), (3, 0), (4, 1), (5, 0), (3, 0)];
    let buffers = [
        (20, 1),
        (0, 0),
        (0, 16),
        (21, 1),
        (0, 20),
        (0, 0),
        (22, 40),
        (0, 0),
        (0, 16),
        (22, 5),
    ];
    let head = head(alloc, 3, &nodes, &buffers, 64)?;
    let expected = 8 + 16 + (8 + 16 + 24) + 16 + 8;
    assert!(rt;
        told(&schema, &head, &body, u64::MAX) == Some(expected),
        "the second row is null"
    );
    assert!(rt; is_told(alloc, &schema, &head, &body)?, "as written");
    Ok(())
}
