//! Drawn batches, of which every column names its buffers in the same few bytes.

use crate::told::{around, field, is_told, plain, table};
use bitmaps::count_zeros;
use header_types::{BatchHead, BitWidth, Field, Schema, Ty};
use std::alloc::{AllocError, Global};
use std::test::Fail;

/// How many bytes of values a body begins with.
const VALUES: u64 = 26_000;

/// How many offsets stand behind them.
const OFFSETS: u64 = 3300;

/// Among how many of them those of a column begin.
const FIRST: u64 = 800;

/// The highest offset, and so how many values a column inside a list has.
const HIGHEST: u64 = 400;

/// Below how many rows a batch has.
const ROWS: u64 = 150;

/// Numbers that look drawn (Marsaglia, "Xorshift RNGs").
#[derive(Drop)]
struct Draw {
    state: u64,
    /// How many times as large a batch is as the numbers above say.
    scale: u64,
}

impl Draw {
    /// A number that grows with the batch.
    fn scaled(&self, number: u64) -> u64 {
        number.wrapping_mul(self.scale)
    }

    /// The next number below a limit.
    fn below(&mut self, limit: u64) -> u64 {
        self.state ^= self.state << 13;
        self.state ^= self.state >> 7;
        self.state ^= self.state << 17;
        if limit == 0 { 0 } else { self.state % limit }
    }
}

/// The bytes that all columns share: bytes of ASCII, and offsets that begin above 0 and rise.
fn body_of(alloc: Global, draw: &mut Draw) -> Result<Vec<u8>, AllocError> {
    let mut body = Vec::new(alloc);
    for _ in 0..draw.scaled(VALUES) {
        body.push((draw.below(128) & 0x7f) as u8)?;
    }
    let mut offset = draw.below(3);
    for _ in 0..draw.scaled(OFFSETS) {
        body.extend_from_slice(&offset.to_le_bytes()[..4])?;
        let most = draw.scale.wrapping_add(1);
        offset = offset
            .wrapping_add(draw.below(most) & draw.below(most))
            .min(draw.scaled(HIGHEST));
    }
    Ok(body)
}

/// A type without fields inside it.
fn flat_type(draw: &mut Draw) -> Ty {
    match draw.below(6) {
        0 => Ty::Null,
        1 => Ty::Bool,
        2 => Ty::Utf8,
        3 => Ty::Binary,
        4 => Ty::FixedSizeBinary { byte_width: 3 },
        _ => Ty::Int {
            bit_width: BitWidth::SixtyFour,
            is_signed: false,
        },
    }
}

/// A list of one size around a field.
fn sized(alloc: Global, size: u64, inside: Field) -> Result<Field, AllocError> {
    let list_size = (size & 3) as i32;
    around(alloc, Ty::FixedSizeList { list_size }, inside)
}

/// A field with others inside it, up to a depth.
fn field_of(alloc: Global, draw: &mut Draw, depth: u32) -> Result<Field, AllocError> {
    if depth == 0 {
        return Ok(plain(alloc, flat_type(draw)));
    }
    match draw.below(5) {
        0 => around(alloc, Ty::List, field_of(alloc, draw, depth - 1)?),
        1 => {
            let size = draw.below(3);
            sized(alloc, size, field_of(alloc, draw, depth - 1)?)
        }
        2 | 3 => {
            let mut children = Vec::new(alloc);
            for _ in 0..draw.below(4) {
                children.push(field_of(alloc, draw, depth - 1)?)?;
            }
            Ok(field(alloc, Ty::Struct, children))
        }
        _ => Ok(plain(alloc, flat_type(draw))),
    }
}

/// A range of so many bytes, anywhere among the values.
fn range(draw: &mut Draw, count: u64) -> (i64, i64) {
    let start = draw.below(draw.scaled(VALUES).saturating_sub(count));
    ((start & 0xff_ffff) as i64, (count & 0xff_ffff) as i64)
}

/// The validity of so many values, and how many of them are null.
fn validity(draw: &mut Draw, body: &[u8], count: u64) -> ((i64, i64), i64) {
    if draw.below(2) == 0 {
        return ((0, 0), 0);
    }
    let bitmap = range(draw, count.wrapping_add(7) / 8);
    let start = (bitmap.0.unsigned_abs() & 0xff_ffff) as usize * 8;
    let nulls = count_zeros(body, start, (count & 0xff_ffff) as usize);
    (bitmap, (nulls & 0xff_ffff) as i64)
}

/// The offsets of so many values.
fn offsets(draw: &mut Draw, count: u64) -> (i64, i64) {
    let long = count.wrapping_add(1);
    let first = draw.below(draw.scaled(OFFSETS).saturating_sub(long).min(FIRST));
    let start = draw.scaled(VALUES).wrapping_add(first.wrapping_mul(4));
    (
        (start & 0xff_ffff) as i64,
        (long.wrapping_mul(4) & 0xff_ffff) as i64,
    )
}

/// How many bytes the values of a column of so many need.
fn bytes_of(draw: &Draw, ty: &Ty, count: u64) -> Option<u64> {
    match ty {
        Ty::Bool => Some(count.wrapping_add(7) / 8),
        Ty::Int { .. } => Some(count.wrapping_mul(8)),
        Ty::FixedSizeBinary { .. } => Some(count.wrapping_mul(3)),
        Ty::Utf8 | Ty::Binary => Some(draw.scaled(HIGHEST)),
        _ => None,
    }
}

/// Puts the buffers behind the validity of a column of so many values.
fn put_values(
    draw: &mut Draw,
    ty: &Ty,
    count: u64,
    buffers: &mut Vec<(i64, i64)>,
) -> Result<(), AllocError> {
    if matches!(ty, Ty::Utf8 | Ty::Binary | Ty::List) {
        buffers.push(offsets(draw, count))?;
    }
    if let Some(count) = bytes_of(draw, ty, count) {
        buffers.push(range(draw, count))?;
    }
    Ok(())
}

/// How many values the columns inside a column of so many have.
fn count_inside(draw: &mut Draw, ty: &Ty, count: u64) -> u64 {
    match ty {
        Ty::List => draw.scaled(HIGHEST),
        Ty::FixedSizeList { list_size } => count
            .wrapping_mul(u64::from(list_size.unsigned_abs()))
            .wrapping_add(draw.below(5)),
        _ => count,
    }
}

/// Puts the columns of some fields of so many values, depth first.
fn put_columns(
    draw: &mut Draw,
    fields: &[Field],
    count: u64,
    body: &[u8],
    head: &mut BatchHead,
) -> Result<(), AllocError> {
    for field in fields {
        let (bitmap, nulls) = validity(draw, body, count);
        head.nodes.push(((count & 0xff_ffff) as i64, nulls))?;
        if !matches!(field.ty, Ty::Null) {
            head.buffers.push(bitmap)?;
        }
        put_values(draw, &field.ty, count, &mut head.buffers)?;
        let inside = count_inside(draw, &field.ty, count);
        put_columns(draw, &field.children, inside, body, head)?;
    }
    Ok(())
}

/// A drawn schema of up to four fields.
fn schema_of(alloc: Global, draw: &mut Draw) -> Result<Schema, AllocError> {
    let mut fields = Vec::new(alloc);
    for _ in 0..draw.below(5) {
        fields.push(field_of(alloc, draw, 4)?)?;
    }
    Ok(table(alloc, fields))
}

/// Whether what is told of a drawn batch is what is written of it.
fn is_drawn_told(alloc: Global, state: u64, scale: u64) -> Result<bool, AllocError> {
    let mut draw = Draw { state, scale };
    let body = body_of(alloc, &mut draw)?;
    let schema = schema_of(alloc, &mut draw)?;
    let rows = draw.below(ROWS.wrapping_mul(scale));
    let mut head = BatchHead {
        length: (rows & 0xff_ffff) as i64,
        nodes: Vec::new(alloc),
        buffers: Vec::new(alloc),
        compressed: false,
        body_length: (body.len() & 0xff_ffff) as i64,
    };
    put_columns(&mut draw, &schema.fields, rows, &body, &mut head)?;
    is_told(alloc, &schema, &head, &body)
}

/// Of how many of so many drawn batches what is told is what is written.
fn count_told(alloc: Global, batches: u64, scale: u64) -> Result<u64, AllocError> {
    let mut told = 0_u64;
    for number in 0..batches {
        let state = number.wrapping_add(1).wrapping_mul(0x9e37_79b9_7f4a_7c15);
        if is_drawn_told(alloc, state, scale)? {
            told = told.wrapping_add(1);
        }
    }
    Ok(told)
}

#[test]
fn drawn_batches_are_as_long_as_they_are_written(rt: HostRuntime) -> Result<(), Fail> {
    assert!(rt; count_told(rt.alloc(), 400, 1)? == 400, "each of them");
    Ok(())
}

#[test]
fn large_drawn_batches_are_too(rt: HostRuntime) -> Result<(), Fail> {
    assert!(rt; count_told(rt.alloc(), 60, 6)? == 60, "each of them");
    Ok(())
}
