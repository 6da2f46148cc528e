//! Cells that no value of JSON tells: the first of them is reported, with its row and its column, and rows without one
//! have lines.

use crate::schemas::{alone, both, int, plain, with_one};
use batch_cells::Cell;
use batch_columns::Batch;
use column_building::column_of;
use header_types::{BitWidth, DateUnit, DecimalWidth, Field, Precision, Schema, TimeUnit, Ty};
use json_rows::{CellFault, JsonFault, read_rows, rows_text};
use std::alloc::{AllocError, Global};
use std::test::Fail;

/// The NaNs that are told, of four bytes and of eight.
const QUIET_SINGLE: u32 = 0x7fc0_0000;

const QUIET_DOUBLE: u64 = 0x7ff8_0000_0000_0000;

/// The same with a sign.
const SIGNED_DOUBLE: u64 = 0xfff8_0000_0000_0000;

/// The bits of 1.
const ONE_DOUBLE: u64 = 0x3ff0_0000_0000_0000;

/// Floats of four bytes.
const SINGLE: Ty = Ty::FloatingPoint {
    precision: Precision::Single,
};

/// Floats of eight bytes.
const DOUBLE: Ty = Ty::FloatingPoint {
    precision: Precision::Double,
};

/// Floats of two bytes, which are not carried.
const HALF: Ty = Ty::FloatingPoint {
    precision: Precision::Half,
};

/// Fails where it does not hold.
fn check(holds: bool, what: &'static str) -> Result<(), Fail> {
    if holds { Ok(()) } else { Err(Fail::from(what)) }
}

/// A cell of these bytes.
fn bytes_cell(alloc: Global, bytes: &[u8]) -> Result<Cell, AllocError> {
    Ok(Cell::Bytes(Vec::from_slice(alloc, bytes)?))
}

/// A cell of so many bytes like this one.
fn filled_cell(alloc: Global, byte: u8, size: usize) -> Result<Cell, AllocError> {
    Ok(Cell::Bytes(vec![in alloc; byte; size]?))
}

/// A float of eight bytes with these bits.
fn float_cell(alloc: Global, bits: u64) -> Result<Cell, AllocError> {
    bytes_cell(alloc, &bits.to_le_bytes())
}

/// A batch of so many rows of these cells of a field.
fn batch_of(alloc: Global, field: &Field, cells: &[Cell]) -> Result<Batch, Fail> {
    match column_of(alloc, field, cells) {
        Ok(column) => Ok(Batch {
            rows: cells.len() as u64,
            columns: vec![in alloc; column]?,
        }),
        Err(_) => Err(Fail::from("no column")),
    }
}

/// The fault that is told of these cells of a table of this field alone.
fn fault_of(alloc: Global, field: Field, cells: &[Cell]) -> Result<Option<JsonFault>, Fail> {
    let batch = batch_of(alloc, &field, cells)?;
    let schema = alone(alloc, field)?;
    Ok(rows_text(alloc, &schema, &batch).err())
}

/// The fault of a cell of the column at this place.
fn of_cell(line: u64, field: usize, fault: CellFault) -> Option<JsonFault> {
    Some(JsonFault::Cell { line, field, fault })
}

/// The same field, which may have no null.
fn strict(field: Field) -> Field {
    Field {
        nullable: false,
        ..field
    }
}

/// Whether this value and two nulls have lines where the field may have nulls, and where it may not, the second row is
/// at fault.
fn null_is_told(alloc: Global, field: Field, value: Cell) -> Result<bool, Fail> {
    let cells = [value, Cell::Null, Cell::Null];
    let batch = batch_of(alloc, &field, &cells)?;
    let mut schema = alone(alloc, field)?;
    let lenient = rows_text(alloc, &schema, &batch).err();
    let Some(field) = schema.fields.pop() else {
        return Err(Fail::from("no field"));
    };
    let schema = alone(alloc, strict(field))?;
    let fault = rows_text(alloc, &schema, &batch).err();
    Ok(lenient.is_none() && fault == of_cell(2, 0, CellFault::NullValue))
}

/// A whole number of this width.
fn whole(bit_width: BitWidth, is_signed: bool) -> Ty {
    Ty::Int {
        bit_width,
        is_signed,
    }
}

/// The types whose values are whole numbers or bytes of one size, but times, and how many bytes each has.
fn numbers(alloc: Global) -> Result<Vec<(Ty, usize)>, AllocError> {
    let types = vec![in alloc;
        (whole(BitWidth::Eight, true), 1),
        (whole(BitWidth::Eight, false), 1),
        (whole(BitWidth::Sixteen, true), 2),
        (whole(BitWidth::Sixteen, false), 2),
        (whole(BitWidth::ThirtyTwo, true), 4),
        (whole(BitWidth::ThirtyTwo, false), 4),
        (whole(BitWidth::SixtyFour, true), 8),
        (whole(BitWidth::SixtyFour, false), 8),
        (Ty::FixedSizeBinary { byte_width: 5 }, 5),
    ]?;
    Ok(types)
}

/// The types of dates and times, and how many bytes each has.
fn times(alloc: Global) -> Result<Vec<(Ty, usize)>, AllocError> {
    let timezone = Some(String::from_str(alloc, "UTC")?);
    let types = vec![in alloc;
        (
            Ty::Date {
                unit: DateUnit::Day
            },
            4
        ),
        (
            Ty::Date {
                unit: DateUnit::Millisecond
            },
            8
        ),
        (
            Ty::Time {
                unit: TimeUnit::Millisecond
            },
            4
        ),
        (
            Ty::Time {
                unit: TimeUnit::Microsecond
            },
            8
        ),
        (
            Ty::Timestamp {
                unit: TimeUnit::Second,
                timezone
            },
            8
        ),
        (
            Ty::Duration {
                unit: TimeUnit::Nanosecond
            },
            8
        ),
    ]?;
    Ok(types)
}

/// A null among the values of each of these types is told where the field may have none.
fn nulls_are_told(alloc: Global, types: Vec<(Ty, usize)>) -> Result<(), Fail> {
    for (ty, size) in types {
        let field = plain(alloc, "a", ty)?;
        let value = filled_cell(alloc, 1, size)?;
        check(
            null_is_told(alloc, field, value)?,
            "a null is told otherwise",
        )?;
    }
    Ok(())
}

#[test]
fn nulls_of_each_size_are_told_where_none_may_be(rt: HostRuntime) -> Result<(), Fail> {
    nulls_are_told(rt.alloc(), numbers(rt.alloc())?)?;
    nulls_are_told(rt.alloc(), times(rt.alloc())?)?;
    let floats = vec![in rt.alloc(); (SINGLE, 4), (DOUBLE, 8)]?;
    nulls_are_told(rt.alloc(), floats)
}

#[test]
fn nulls_of_bits_and_texts_are_told_where_none_may_be(rt: HostRuntime) -> Result<(), Fail> {
    let alloc = rt.alloc();
    let bits = plain(alloc, "a", Ty::Bool)?;
    assert!(rt; null_is_told(alloc, bits, Cell::Bit(true))?, "of bits");
    let texts = plain(alloc, "a", Ty::Utf8)?;
    assert!(rt;
        null_is_told(alloc, texts, bytes_cell(alloc, b"")?)?,
        "of texts"
    );
    let bytes = plain(alloc, "a", Ty::Binary)?;
    assert!(rt;
        null_is_told(alloc, bytes, bytes_cell(alloc, b"\xff")?)?,
        "of bytes"
    );
    let nulls = plain(alloc, "a", Ty::Null)?;
    assert!(rt;
        fault_of(alloc, nulls, &[Cell::Null])?.is_none(),
        "of nulls"
    );
    let none = strict(plain(alloc, "a", Ty::Null)?);
    assert!(rt;
        fault_of(alloc, none, &[Cell::Null, Cell::Null])? == of_cell(1, 0, CellFault::NullValue),
        "of no null"
    );
    Ok(())
}

/// A list of a whole number and what stands behind it.
fn list_cell(alloc: Global, second: Cell) -> Result<Cell, AllocError> {
    let first = filled_cell(alloc, 7, 1)?;
    Ok(Cell::List(vec![in alloc; first, second]?))
}

#[test]
fn nulls_of_lists_and_structs_are_told_where_none_may_be(rt: HostRuntime) -> Result<(), Fail> {
    let alloc = rt.alloc();
    let numbers = plain(alloc, "e", int(BitWidth::Eight))?;
    let lists = with_one(alloc, "a", Ty::List, numbers)?;
    let value = list_cell(alloc, Cell::Null)?;
    assert!(rt; null_is_told(alloc, lists, value)?, "of lists");
    let numbers = plain(alloc, "e", int(BitWidth::Eight))?;
    let pairs = with_one(alloc, "a", Ty::FixedSizeList { list_size: 2 }, numbers)?;
    let value = list_cell(alloc, Cell::Null)?;
    assert!(rt; null_is_told(alloc, pairs, value)?, "of pairs");
    let numbers = plain(alloc, "e", int(BitWidth::Eight))?;
    let structs = with_one(alloc, "a", Ty::Struct, numbers)?;
    let value = Cell::Tuple(vec![in alloc; Cell::Null]?);
    assert!(rt; null_is_told(alloc, structs, value)?, "of structs");
    Ok(())
}

/// Whether a float of this type with these bytes, behind one that has a line, is told or not.
fn float_fault(
    alloc: Global,
    ty: Ty,
    first: &[u8],
    second: &[u8],
) -> Result<Option<JsonFault>, Fail> {
    let field = plain(alloc, "a", ty)?;
    let cells = [
        bytes_cell(alloc, first)?,
        bytes_cell(alloc, second)?,
        bytes_cell(alloc, second)?,
    ];
    fault_of(alloc, field, &cells)
}

/// Whether these are the bits of a float of four bytes that has no line.
fn no_single(alloc: Global, bits: u32) -> Result<bool, Fail> {
    let first = QUIET_SINGLE.to_le_bytes();
    let fault = float_fault(alloc, SINGLE, &first, &bits.to_le_bytes())?;
    Ok(fault == of_cell(2, 0, CellFault::OutOfRange))
}

/// Whether these are the bits of one that has a line.
fn some_single(alloc: Global, bits: u32) -> Result<bool, Fail> {
    let first = QUIET_SINGLE.to_le_bytes();
    Ok(float_fault(alloc, SINGLE, &first, &bits.to_le_bytes())?.is_none())
}

/// The same of eight bytes.
fn no_double(alloc: Global, bits: u64) -> Result<bool, Fail> {
    let first = QUIET_DOUBLE.to_le_bytes();
    let fault = float_fault(alloc, DOUBLE, &first, &bits.to_le_bytes())?;
    Ok(fault == of_cell(2, 0, CellFault::OutOfRange))
}

fn some_double(alloc: Global, bits: u64) -> Result<bool, Fail> {
    let first = QUIET_DOUBLE.to_le_bytes();
    Ok(float_fault(alloc, DOUBLE, &first, &bits.to_le_bytes())?.is_none())
}

/// NaNs with other payloads, with a sign, and that signal.
#[test]
fn nans_of_other_bits_are_told(rt: HostRuntime) -> Result<(), Fail> {
    let alloc = rt.alloc();
    for bits in [
        0x7fc0_0001,
        0x7fff_ffff,
        0x7f80_0001,
        0xffc0_0000,
        0xff80_0001,
    ] {
        check(no_single(alloc, bits)?, "another float of four bytes")?;
    }
    for bits in [
        0x7ff8_0000_0000_0001,
        0x7fff_ffff_ffff_ffff,
        0x7ff0_0000_0000_0001,
        SIGNED_DOUBLE,
        0xfff0_0000_0000_0001,
    ] {
        check(no_double(alloc, bits)?, "another float of eight bytes")?;
    }
    Ok(())
}

/// The quiet NaN, the infinities, the largest and the smallest numbers, and the zeros.
#[test]
fn other_floats_have_lines(rt: HostRuntime) -> Result<(), Fail> {
    let alloc = rt.alloc();
    for bits in [
        QUIET_SINGLE,
        0x7f80_0000,
        0xff80_0000,
        0x7f7f_ffff,
        0xff7f_ffff,
        0x0080_0000,
        1,
        0,
        0x8000_0000,
    ] {
        check(some_single(alloc, bits)?, "a float of four bytes")?;
    }
    for bits in [
        QUIET_DOUBLE,
        0x7ff0_0000_0000_0000,
        0xfff0_0000_0000_0000,
        0x7fef_ffff_ffff_ffff,
        0xffef_ffff_ffff_ffff,
        0x0010_0000_0000_0000,
        1,
        0,
        0x8000_0000_0000_0000,
    ] {
        check(some_double(alloc, bits)?, "a float of eight bytes")?;
    }
    Ok(())
}

/// Whether a type is not carried: two nulls have lines where there may be nulls, and the second row has none where it
/// has a value.
fn is_not_carried(alloc: Global, field: Field, size: usize) -> Result<bool, Fail> {
    let nulls = batch_of(alloc, &field, &[Cell::Null, Cell::Null])?;
    let cells = [
        Cell::Null,
        filled_cell(alloc, 1, size)?,
        filled_cell(alloc, 0, size)?,
    ];
    let values = batch_of(alloc, &field, &cells)?;
    let schema = alone(alloc, field)?;
    let none = rows_text(alloc, &schema, &nulls).err();
    let fault = rows_text(alloc, &schema, &values).err();
    Ok(none.is_none() && fault == of_cell(2, 0, CellFault::Unsupported))
}

#[test]
fn values_of_types_that_are_not_carried_are_told(rt: HostRuntime) -> Result<(), Fail> {
    let alloc = rt.alloc();
    assert!(rt;
        is_not_carried(alloc, plain(alloc, "a", HALF)?, 2)?,
        "floats of two bytes"
    );
    let decimal = Ty::Decimal {
        precision: 38,
        scale: 2,
        bit_width: DecimalWidth::OneHundredTwentyEight,
    };
    assert!(rt;
        is_not_carried(alloc, plain(alloc, "a", decimal)?, 16)?,
        "decimals of 16 bytes"
    );
    let decimal = Ty::Decimal {
        precision: 76,
        scale: -2,
        bit_width: DecimalWidth::TwoHundredFiftySix,
    };
    assert!(rt;
        is_not_carried(alloc, plain(alloc, "a", decimal)?, 32)?,
        "decimals of 32 bytes"
    );
    Ok(())
}

/// The fault that is told of a column of whole numbers without nulls, and one of floats.
fn fault_of_both(
    alloc: Global,
    numbers: &[Cell],
    floats: &[Cell],
) -> Result<Option<JsonFault>, Fail> {
    let first = plain(alloc, "a", int(BitWidth::Eight))?;
    let second = plain(alloc, "b", DOUBLE)?;
    let mut batch = batch_of(alloc, &first, numbers)?;
    let mut other = batch_of(alloc, &second, floats)?;
    let Some(column) = other.columns.pop() else {
        return Err(Fail::from("no column"));
    };
    batch.columns.push(column)?;
    let schema = both(alloc, strict(first), second)?;
    Ok(rows_text(alloc, &schema, &batch).err())
}

/// The first row with a cell that is not told, and the first such cell of it.
#[test]
fn the_first_cell_that_is_not_told_is_at_fault(rt: HostRuntime) -> Result<(), Fail> {
    let alloc = rt.alloc();
    let number = filled_cell(alloc, 1, 1)?;
    let numbers = [number, Cell::Null, Cell::Null];
    let early = [
        float_cell(alloc, SIGNED_DOUBLE)?,
        float_cell(alloc, ONE_DOUBLE)?,
        Cell::Null,
    ];
    assert!(rt;
        fault_of_both(alloc, &numbers, &early)? == of_cell(1, 1, CellFault::OutOfRange),
        "the first row"
    );
    let late = [
        float_cell(alloc, ONE_DOUBLE)?,
        float_cell(alloc, SIGNED_DOUBLE)?,
        float_cell(alloc, SIGNED_DOUBLE)?,
    ];
    assert!(rt;
        fault_of_both(alloc, &numbers, &late)? == of_cell(2, 0, CellFault::NullValue),
        "the first column"
    );
    Ok(())
}

/// A null in a list, a NaN in a pair, and a float of two bytes in a struct; but nothing inside of a null.
#[test]
fn cells_inside_others_are_told_by_their_rows(rt: HostRuntime) -> Result<(), Fail> {
    let alloc = rt.alloc();
    let numbers = strict(plain(alloc, "e", int(BitWidth::Eight))?);
    let lists = with_one(alloc, "a", Ty::List, numbers)?;
    let whole = list_cell(alloc, filled_cell(alloc, 9, 1)?)?;
    let cells = [whole, Cell::Null, list_cell(alloc, Cell::Null)?];
    assert!(rt;
        fault_of(alloc, lists, &cells)? == of_cell(3, 0, CellFault::NullValue),
        "in a list"
    );
    let floats = plain(alloc, "e", DOUBLE)?;
    let pairs = with_one(alloc, "a", Ty::FixedSizeList { list_size: 2 }, floats)?;
    let pair = vec![in alloc;
        float_cell(alloc, ONE_DOUBLE)?,
        float_cell(alloc, SIGNED_DOUBLE)?,
    ]?;
    let cells = [Cell::Null, Cell::List(pair)];
    assert!(rt;
        fault_of(alloc, pairs, &cells)? == of_cell(2, 0, CellFault::OutOfRange),
        "in a pair"
    );
    Ok(())
}

#[test]
fn members_of_structs_are_told_by_their_rows(rt: HostRuntime) -> Result<(), Fail> {
    let alloc = rt.alloc();
    let structs = with_one(alloc, "a", Ty::Struct, plain(alloc, "e", HALF)?)?;
    let none = Cell::Tuple(vec![in alloc; Cell::Null]?);
    let half = Cell::Tuple(vec![in alloc; filled_cell(alloc, 0, 2)?]?);
    let cells = [none, Cell::Null, half];
    assert!(rt;
        fault_of(alloc, structs, &cells)? == of_cell(3, 0, CellFault::Unsupported),
        "in a struct"
    );
    let numbers = strict(plain(alloc, "e", int(BitWidth::Eight))?);
    let structs = with_one(alloc, "a", Ty::Struct, numbers)?;
    assert!(rt;
        fault_of(alloc, structs, &[Cell::Null])?.is_none(),
        "in a null"
    );
    Ok(())
}

/// Whether these rows have lines that are read as the same batch.
fn is_read_again(alloc: Global, schema: &Schema, batch: &Batch) -> Result<bool, JsonFault> {
    let text = rows_text(alloc, schema, batch)?;
    let batches = read_rows(alloc, schema, text.as_slice())?;
    match batches.as_slice() {
        [read] => Ok(*read == *batch),
        _ => Ok(false),
    }
}

/// Whether values of so many bytes at their ends, and a null, have lines that are read again as they stood.
fn ends_have_lines(alloc: Global, ty: Ty, size: usize) -> Result<bool, Fail> {
    let field = plain(alloc, "a", ty)?;
    let cells = [
        filled_cell(alloc, 0, size)?,
        filled_cell(alloc, 0xff, size)?,
        filled_cell(alloc, 0x7f, size)?,
        filled_cell(alloc, 0x80, size)?,
        Cell::Null,
    ];
    let batch = batch_of(alloc, &field, &cells)?;
    let schema = alone(alloc, field)?;
    Ok(is_read_again(alloc, &schema, &batch)?)
}

/// Values of each of these types have lines.
fn have_lines(alloc: Global, types: Vec<(Ty, usize)>) -> Result<(), Fail> {
    for (ty, size) in types {
        check(
            ends_have_lines(alloc, ty, size)?,
            "other rows are read again",
        )?;
    }
    Ok(())
}

#[test]
fn values_of_one_size_have_lines(rt: HostRuntime) -> Result<(), Fail> {
    have_lines(rt.alloc(), numbers(rt.alloc())?)?;
    have_lines(rt.alloc(), times(rt.alloc())?)
}
