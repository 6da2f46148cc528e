//! Lines that are read as one batch, and what is written of it.

use crate::schemas::{alone, both, int, plain, with_one};
use batch_cells::{Cell, cells_of};
use header_types::{BitWidth, DateUnit, Precision, Schema, TimeUnit, Ty};
use json_rows::{JsonFault, read_rows, rows_text};
use std::alloc::Global;
use std::test::Fail;

/// Whether the lines are read as one batch, of which these are written.
fn are_written(
    alloc: Global,
    schema: &Schema,
    lines: &str,
    wanted: &str,
) -> Result<bool, JsonFault> {
    let batches = read_rows(alloc, schema, lines.as_bytes())?;
    match batches.as_slice() {
        [batch] => Ok(rows_text(alloc, schema, batch)?.as_slice() == wanted.as_bytes()),
        _ => Ok(false),
    }
}

/// Whether lines of one field `a` of this type are read and written as they stand.
fn stand(alloc: Global, ty: Ty, lines: &str) -> Result<bool, JsonFault> {
    let schema = alone(alloc, plain(alloc, "a", ty)?)?;
    are_written(alloc, &schema, lines, lines)
}

#[test]
fn whole_numbers_stand_at_their_ends(rt: HostRuntime) -> Result<(), Fail> {
    let alloc = rt.alloc();
    let eight = "{\"a\":-128}\n{\"a\":127}\n{\"a\":0}\n{\"a\":null}\n";
    assert!(rt;
        stand(alloc, int(BitWidth::Eight), eight) == Ok(true),
        "of 8 bits"
    );
    let most = "{\"a\":-9223372036854775808}\n{\"a\":9223372036854775807}\n{\"a\":-1}\n";
    assert!(rt;
        stand(alloc, int(BitWidth::SixtyFour), most) == Ok(true),
        "of 64 bits"
    );
    let unsigned = Ty::Int {
        bit_width: BitWidth::SixtyFour,
        is_signed: false,
    };
    let largest = "{\"a\":18446744073709551615}\n";
    assert!(rt;
        stand(alloc, unsigned, largest) == Ok(true),
        "without a sign"
    );
    Ok(())
}

#[test]
fn times_stand_as_whole_numbers(rt: HostRuntime) -> Result<(), Fail> {
    let alloc = rt.alloc();
    let date = Ty::Date {
        unit: DateUnit::Day,
    };
    assert!(rt; stand(alloc, date, "{\"a\":19000}\n") == Ok(true), "a date");
    let timestamp = Ty::Timestamp {
        unit: TimeUnit::Nanosecond,
        timezone: None,
    };
    assert!(rt;
        stand(alloc, timestamp, "{\"a\":1700000000000000001}\n") == Ok(true),
        "a timestamp"
    );
    Ok(())
}

#[test]
fn floats_stand_in_their_digits(rt: HostRuntime) -> Result<(), Fail> {
    let alloc = rt.alloc();
    let double = Ty::FloatingPoint {
        precision: Precision::Double,
    };
    let doubles = "{\"a\":0.1}\n{\"a\":-0.0}\n{\"a\":5e-324}\n{\"a\":1.7976931348623157e+308}\n";
    assert!(rt; stand(alloc, double, doubles) == Ok(true), "of eight bytes");
    let single = Ty::FloatingPoint {
        precision: Precision::Single,
    };
    let schema = alone(alloc, plain(alloc, "a", single)?)?;
    assert!(rt;
        are_written(
            alloc,
            &schema,
            "{\"a\":0.1}\n{\"a\":2}\n",
            "{\"a\":0.10000000149011612}\n{\"a\":2.0}\n"
        ) == Ok(true),
        "of four bytes"
    );
    Ok(())
}

#[test]
fn floats_that_are_no_numbers_stand_as_texts(rt: HostRuntime) -> Result<(), Fail> {
    let alloc = rt.alloc();
    let lines = "{\"a\":\"NaN\"}\n{\"a\":\"Infinity\"}\n{\"a\":\"-Infinity\"}\n{\"a\":1.5}\n";
    let double = Ty::FloatingPoint {
        precision: Precision::Double,
    };
    assert!(rt; stand(alloc, double, lines) == Ok(true), "of eight bytes");
    let single = Ty::FloatingPoint {
        precision: Precision::Single,
    };
    assert!(rt; stand(alloc, single, lines) == Ok(true), "of four bytes");
    Ok(())
}

/// The bits of the floats of the first column of a batch that is read of these lines.
fn bits_of(alloc: Global, lines: &str) -> Result<Vec<u8>, Fail> {
    let double = Ty::FloatingPoint {
        precision: Precision::Double,
    };
    let schema = alone(alloc, plain(alloc, "a", double)?)?;
    let Ok(batches) = read_rows(alloc, &schema, lines.as_bytes()) else {
        return Err(Fail::from("no rows"));
    };
    let Some(column) = batches.first().and_then(|batch| batch.columns.first()) else {
        return Err(Fail::from("no column"));
    };
    let mut bytes = Vec::new(alloc);
    for cell in cells_of(alloc, column)?.iter() {
        if let Cell::Bytes(some) = cell {
            bytes.extend_from_slice(some)?;
        }
    }
    Ok(bytes)
}

#[test]
fn floats_that_are_no_numbers_have_their_bits(rt: HostRuntime) -> Result<(), Fail> {
    let alloc = rt.alloc();
    let lines = "{\"a\":\"NaN\"}\n{\"a\":\"Infinity\"}\n{\"a\":\"-Infinity\"}\n";
    // As Python's struct.pack("<3d", math.nan, math.inf, -math.inf) has them.
    let wanted = hex::decode(alloc, "000000000000f87f000000000000f07f000000000000f0ff")?;
    assert!(rt;
        bits_of(alloc, lines)?.as_slice() == wanted.as_slice(),
        "their bits"
    );
    Ok(())
}

#[test]
fn texts_and_bytes_stand(rt: HostRuntime) -> Result<(), Fail> {
    let alloc = rt.alloc();
    let texts = "{\"a\":\"a\\\"\\\\\\n\\u0001\u{e9}\"}\n{\"a\":\"\"}\n";
    assert!(rt; stand(alloc, Ty::Utf8, texts) == Ok(true), "texts");
    assert!(rt;
        stand(alloc, Ty::Binary, "{\"a\":\"00ff10\"}\n{\"a\":\"\"}\n") == Ok(true),
        "bytes"
    );
    let sized = Ty::FixedSizeBinary { byte_width: 2 };
    assert!(rt;
        stand(alloc, sized, "{\"a\":\"beef\"}\n") == Ok(true),
        "two bytes"
    );
    assert!(rt;
        stand(alloc, Ty::Bool, "{\"a\":true}\n{\"a\":false}\n") == Ok(true),
        "bits"
    );
    assert!(rt;
        stand(alloc, Ty::Null, "{\"a\":null}\n") == Ok(true),
        "nulls"
    );
    Ok(())
}

#[test]
fn lists_stand_as_arrays(rt: HostRuntime) -> Result<(), Fail> {
    let alloc = rt.alloc();
    let list = with_one(alloc, "a", Ty::List, plain(alloc, "e", Ty::Utf8)?)?;
    let lists = "{\"a\":[\"x\",null]}\n{\"a\":[]}\n{\"a\":null}\n";
    assert!(rt;
        are_written(alloc, &alone(alloc, list)?, lists, lists) == Ok(true),
        "of texts"
    );
    let size = Ty::FixedSizeList { list_size: 2 };
    let pair = with_one(alloc, "a", size, plain(alloc, "e", int(BitWidth::Eight))?)?;
    let pairs = "{\"a\":[1,2]}\n{\"a\":null}\n";
    assert!(rt;
        are_written(alloc, &alone(alloc, pair)?, pairs, pairs) == Ok(true),
        "of two numbers"
    );
    Ok(())
}

#[test]
fn members_are_written_in_the_order_of_the_schema(rt: HostRuntime) -> Result<(), Fail> {
    let alloc = rt.alloc();
    let inside = plain(alloc, "x", Ty::Bool)?;
    let first = with_one(alloc, "z", Ty::Struct, inside)?;
    let second = plain(alloc, "b", int(BitWidth::Sixteen))?;
    let schema = both(alloc, first, second)?;
    let lines = "{\"b\":1,\"z\":{\"x\":true}}\r\n {\"b\" : 2 , \"b\" : 3}\n{}";
    let wanted = "{\"z\":{\"x\":true},\"b\":1}\n{\"z\":null,\"b\":3}\n{\"z\":null,\"b\":null}\n";
    assert!(rt;
        are_written(alloc, &schema, lines, wanted) == Ok(true),
        "their rows"
    );
    Ok(())
}
