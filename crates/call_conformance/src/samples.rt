//! A field of each type of the profile, and a column of it: a value, a null and another value.

use batch_cells::Cell;
use batch_columns::Column;
use column_building::column_of;
use header_types::{BitWidth, DateUnit, DecimalWidth, Field, Precision, TimeUnit, Ty};
use std::alloc::{AllocError, Global};
use std::test::Fail;

/// A field, and a column of it.
#[derive(Drop)]
pub(crate) struct Sample {
    pub(crate) field: Field,
    pub(crate) column: Column,
}

/// Whole numbers of one byte.
const INT8: Ty = Ty::Int {
    bit_width: BitWidth::Eight,
    is_signed: true,
};

/// A field of this type with these inside it.
fn field(alloc: Global, ty: Ty, children: Vec<Field>) -> Result<Field, AllocError> {
    Ok(Field {
        name: String::from_str(alloc, "a")?,
        nullable: true,
        ty,
        children,
        metadata: Vec::new(alloc),
    })
}

/// A field without any inside it.
fn plain(alloc: Global, ty: Ty) -> Result<Field, AllocError> {
    field(alloc, ty, Vec::new(alloc))
}

/// A field of this type with one of whole numbers inside it.
fn around_numbers(alloc: Global, ty: Ty) -> Result<Field, AllocError> {
    let children = vec![in alloc; plain(alloc, INT8)?]?;
    field(alloc, ty, children)
}

/// A whole number of this width.
fn int(bit_width: BitWidth, is_signed: bool) -> Ty {
    Ty::Int {
        bit_width,
        is_signed,
    }
}

/// The types of numbers, and how many bytes each has.
pub(crate) fn numbers(alloc: Global) -> Result<Vec<(Ty, u32)>, AllocError> {
    let types = vec![in alloc;
        (int(BitWidth::Eight, true), 1),
        (int(BitWidth::Sixteen, false), 2),
        (int(BitWidth::ThirtyTwo, true), 4),
        (int(BitWidth::SixtyFour, false), 8),
        (
            Ty::FloatingPoint {
                precision: Precision::Half
            },
            2
        ),
        (
            Ty::FloatingPoint {
                precision: Precision::Single
            },
            4
        ),
        (
            Ty::FloatingPoint {
                precision: Precision::Double
            },
            8
        ),
        (Ty::FixedSizeBinary { byte_width: 5 }, 5),
    ]?;
    Ok(types)
}

/// The types of decimal numbers, and how many bytes each has.
pub(crate) fn decimals(alloc: Global) -> Result<Vec<(Ty, u32)>, AllocError> {
    let types = vec![in alloc;
        (
            Ty::Decimal {
                precision: 38,
                scale: 2,
                bit_width: DecimalWidth::OneHundredTwentyEight
            },
            16
        ),
        (
            Ty::Decimal {
                precision: 76,
                scale: -2,
                bit_width: DecimalWidth::TwoHundredFiftySix
            },
            32
        ),
    ]?;
    Ok(types)
}

/// The types of dates and times, and how many bytes each has.
pub(crate) fn times(alloc: Global) -> Result<Vec<(Ty, u32)>, AllocError> {
    let timezone = Some(String::from_str(alloc, "UTC")?);
    let types = vec![in alloc;
        (
            Ty::Date {
                unit: DateUnit::Day
            },
            4
        ),
        (
            Ty::Date {
                unit: DateUnit::Millisecond
            },
            8
        ),
        (
            Ty::Time {
                unit: TimeUnit::Second
            },
            4
        ),
        (
            Ty::Time {
                unit: TimeUnit::Nanosecond
            },
            8
        ),
        (
            Ty::Timestamp {
                unit: TimeUnit::Microsecond,
                timezone
            },
            8
        ),
        (
            Ty::Timestamp {
                unit: TimeUnit::Second,
                timezone: None
            },
            8
        ),
        (
            Ty::Duration {
                unit: TimeUnit::Millisecond
            },
            8
        ),
    ]?;
    Ok(types)
}

/// Values of this type, which has so many bytes.
pub(crate) fn sized(alloc: Global, ty: Ty, size: u32) -> Result<Sample, Fail> {
    let field = plain(alloc, ty)?;
    let low = vec![in alloc; 1; size as usize]?;
    let high = vec![in alloc; 254; size as usize]?;
    let cells = [Some(low.as_slice()), None, Some(high.as_slice())];
    match Column::from_sized(alloc, size, &cells) {
        Ok(column) => Ok(Sample { field, column }),
        Err(_) => Err(Fail::from("no column")),
    }
}

/// Nulls.
pub(crate) fn nulls(alloc: Global) -> Result<Sample, Fail> {
    let field = plain(alloc, Ty::Null)?;
    let column = Column::nulls(alloc, 3);
    Ok(Sample { field, column })
}

/// Bits.
pub(crate) fn bits(alloc: Global) -> Result<Sample, Fail> {
    let field = plain(alloc, Ty::Bool)?;
    let column = Column::from_bits(alloc, &[Some(true), None, Some(false)])?;
    Ok(Sample { field, column })
}

/// Bytes.
pub(crate) fn binary(alloc: Global) -> Result<Sample, Fail> {
    let field = plain(alloc, Ty::Binary)?;
    match Column::from_binary(alloc, &[Some(&[0, 255]), None, Some(&[])]) {
        Ok(column) => Ok(Sample { field, column }),
        Err(_) => Err(Fail::from("no column")),
    }
}

/// Texts.
pub(crate) fn texts(alloc: Global) -> Result<Sample, Fail> {
    let field = plain(alloc, Ty::Utf8)?;
    match Column::from_texts(alloc, &[Some("žluť"), None, Some("")]) {
        Ok(column) => Ok(Sample { field, column }),
        Err(_) => Err(Fail::from("no column")),
    }
}

/// A cell of this one byte.
fn number(alloc: Global, value: u8) -> Result<Cell, AllocError> {
    Ok(Cell::Bytes(vec![in alloc; value]?))
}

/// Two numbers.
fn two(alloc: Global) -> Result<Vec<Cell>, AllocError> {
    let first = number(alloc, 7)?;
    let second = number(alloc, 9)?;
    let both = vec![in alloc; first, second]?;
    Ok(both)
}

/// The column of these cells.
fn nested(alloc: Global, field: Field, cells: &[Cell]) -> Result<Sample, Fail> {
    match column_of(alloc, &field, cells) {
        Ok(column) => Ok(Sample { field, column }),
        Err(_) => Err(Fail::from("no column")),
    }
}

/// Lists.
pub(crate) fn lists(alloc: Global) -> Result<Sample, Fail> {
    let field = around_numbers(alloc, Ty::List)?;
    let cells = [
        Cell::List(two(alloc)?),
        Cell::Null,
        Cell::List(Vec::new(alloc)),
    ];
    nested(alloc, field, &cells)
}

/// Lists of two elements.
pub(crate) fn pairs(alloc: Global) -> Result<Sample, Fail> {
    let field = around_numbers(alloc, Ty::FixedSizeList { list_size: 2 })?;
    let cells = [Cell::List(two(alloc)?), Cell::Null, Cell::List(two(alloc)?)];
    nested(alloc, field, &cells)
}

/// Structs.
pub(crate) fn structs(alloc: Global) -> Result<Sample, Fail> {
    let field = around_numbers(alloc, Ty::Struct)?;
    let one = vec![in alloc; number(alloc, 7)?]?;
    let none = vec![in alloc; Cell::Null]?;
    let cells = [Cell::Tuple(one), Cell::Null, Cell::Tuple(none)];
    nested(alloc, field, &cells)
}
