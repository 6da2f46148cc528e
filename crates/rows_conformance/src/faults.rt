//! The fault of each kind of line.

use crate::schemas::{alone, both, int, plain, with_one};
use batch_columns::{Batch, Column};
use header_types::{BitWidth, Field, Precision, Schema, Ty};
use json_rows::{CellFault, JsonFault, JsonLineFault, read_rows, rows_text};
use std::alloc::{AllocError, Global};
use std::test::Fail;

/// The fault that is told of these lines.
fn fault_of(alloc: Global, schema: &Schema, lines: &[u8]) -> Option<JsonFault> {
    read_rows(alloc, schema, lines).err()
}

/// A table of numbers of eight bits, which are never missing, in its second column.
fn numbers(alloc: Global) -> Result<Schema, AllocError> {
    let first = plain(alloc, "a", Ty::Utf8)?;
    let second = Field {
        nullable: false,
        ..plain(alloc, "b", int(BitWidth::Eight))?
    };
    both(alloc, first, second)
}

/// The fault of a cell of the second column.
fn of_second(line: u64, fault: CellFault) -> Option<JsonFault> {
    Some(JsonFault::Cell {
        line,
        field: 1,
        fault,
    })
}

#[test]
fn faults_of_members_are_told_where_they_stand(rt: HostRuntime) -> Result<(), Fail> {
    let alloc = rt.alloc();
    let schema = numbers(alloc)?;
    assert!(rt;
        fault_of(alloc, &schema, b"{\"b\":1}\n{\"b\":128}\n")
            == of_second(2, CellFault::OutOfRange),
        "a number too large"
    );
    assert!(rt;
        fault_of(alloc, &schema, b"{\"b\":\"1\"}\n") == of_second(1, CellFault::WrongKind),
        "a text for a number"
    );
    assert!(rt;
        fault_of(alloc, &schema, b"{\"b\":1.5}\n") == of_second(1, CellFault::WrongKind),
        "a number that is not whole"
    );
    assert!(rt;
        fault_of(alloc, &schema, b"{\"b\":1}\n{\"b\":2}\n{\"a\":\"x\"}\n")
            == of_second(3, CellFault::NullValue),
        "a missing member"
    );
    Ok(())
}

#[test]
fn texts_that_are_no_floats_are_refused(rt: HostRuntime) -> Result<(), Fail> {
    let alloc = rt.alloc();
    let double = Ty::FloatingPoint {
        precision: Precision::Double,
    };
    let schema = both(
        alloc,
        plain(alloc, "a", Ty::Utf8)?,
        plain(alloc, "b", double)?,
    )?;
    for text in ["nan", "inf", "+Infinity", "Infinity ", "1.5", ""] {
        let line = format!(in alloc; "{{\"b\":\"{text}\"}}\n")?;
        assert!(rt;
            fault_of(alloc, &schema, line.as_bytes()) == of_second(1, CellFault::WrongKind),
            "another text"
        );
    }
    Ok(())
}

/// A table whose second column has floats of this precision.
fn floats(alloc: Global, precision: Precision) -> Result<Schema, AllocError> {
    let first = plain(alloc, "a", Ty::Utf8)?;
    let second = plain(alloc, "b", Ty::FloatingPoint { precision })?;
    both(alloc, first, second)
}

/// What is told of this number in the second column.
fn fault_of_number(
    alloc: Global,
    schema: &Schema,
    number: &str,
) -> Result<Option<JsonFault>, Fail> {
    let line = format!(in alloc; "{{\"b\":{number}}}\n")?;
    Ok(fault_of(alloc, schema, line.as_bytes()))
}

#[test]
fn whole_numbers_that_no_float_of_eight_bytes_is_are_refused(rt: HostRuntime) -> Result<(), Fail> {
    let alloc = rt.alloc();
    let schema = floats(alloc, Precision::Double)?;
    // 2^53 + 1 and its negative, 2^54 + 2, 2^63 - 1 and 2^64 - 1.
    for number in [
        "9007199254740993",
        "-9007199254740993",
        "18014398509481986",
        "9223372036854775807",
        "18446744073709551615",
    ] {
        assert!(rt;
            fault_of_number(alloc, &schema, number)? == of_second(1, CellFault::OutOfRange),
            "a number that no float is"
        );
    }
    // 2^53 - 1, 2^53, 2^53 + 2, -2^63, 2^63, 2^64 - 2^11, and a number with a point.
    for number in [
        "0",
        "9007199254740991",
        "9007199254740992",
        "9007199254740994",
        "-9223372036854775808",
        "9223372036854775808",
        "18446744073709549568",
        "9007199254740993.0",
    ] {
        assert!(rt;
            fault_of_number(alloc, &schema, number)?.is_none(),
            "a number that a float is"
        );
    }
    Ok(())
}

#[test]
fn whole_numbers_that_no_float_of_four_bytes_is_are_refused(rt: HostRuntime) -> Result<(), Fail> {
    let alloc = rt.alloc();
    let schema = floats(alloc, Precision::Single)?;
    // 2^24 + 1 and its negative, and 2^25 + 2.
    for number in ["16777217", "-16777217", "33554434"] {
        assert!(rt;
            fault_of_number(alloc, &schema, number)? == of_second(1, CellFault::OutOfRange),
            "a number that no float is"
        );
    }
    // 2^24, 2^25 + 4, -2^53, and a number with a point.
    for number in ["16777216", "33554436", "-9007199254740992", "16777217.0"] {
        assert!(rt;
            fault_of_number(alloc, &schema, number)?.is_none(),
            "a number that a float is"
        );
    }
    Ok(())
}

/// A batch of one float of eight bytes with these bits.
fn of_bits(alloc: Global, bits: u64) -> Result<Batch, Fail> {
    match Column::from_sized(alloc, 8, &[Some(&bits.to_le_bytes())]) {
        Ok(column) => Ok(Batch {
            rows: 1,
            columns: vec![in alloc; column]?,
        }),
        Err(_) => Err(Fail::from("no column")),
    }
}

#[test]
fn one_nan_is_written_and_no_other(rt: HostRuntime) -> Result<(), Fail> {
    let alloc = rt.alloc();
    let double = Ty::FloatingPoint {
        precision: Precision::Double,
    };
    let schema = alone(alloc, plain(alloc, "a", double)?)?;
    let quiet = rows_text(alloc, &schema, &of_bits(alloc, 0x7ff8_0000_0000_0000)?);
    assert!(rt;
        quiet.is_ok_and(|text| text.as_slice() == b"{\"a\":\"NaN\"}\n".as_slice()),
        "the quiet one"
    );
    let other = JsonFault::Cell {
        line: 1,
        field: 0,
        fault: CellFault::OutOfRange,
    };
    let signed = rows_text(alloc, &schema, &of_bits(alloc, 0xfff8_0000_0000_0000)?);
    assert!(rt; signed.err() == Some(other), "one with a sign");
    Ok(())
}

/// The fault of a line.
fn of_line(line: u64, fault: JsonLineFault) -> Option<JsonFault> {
    Some(JsonFault::Line { line, fault })
}

#[test]
fn faults_of_lines_are_told_where_they_stand(rt: HostRuntime) -> Result<(), Fail> {
    let alloc = rt.alloc();
    let schema = numbers(alloc)?;
    assert!(rt;
        fault_of(alloc, &schema, b"{\"b\":1}\n{\"b\":1,\"c\":2}\n")
            == of_line(2, JsonLineFault::UnknownMember),
        "an unknown member"
    );
    assert!(rt;
        fault_of(alloc, &schema, b"[1]\n") == of_line(1, JsonLineFault::UnknownMember),
        "no object"
    );
    assert!(rt;
        fault_of(alloc, &schema, b"{\"b\":1}\n\n{\"b\":1}\n") == of_line(2, JsonLineFault::NotJson),
        "an empty line"
    );
    assert!(rt;
        fault_of(alloc, &schema, b"{\"b\":1}\n\"\xff\"\n") == of_line(2, JsonLineFault::NotUtf8),
        "a byte that begins no character"
    );
    assert!(rt; fault_of(alloc, &schema, b"").is_none(), "no line");
    Ok(())
}

#[test]
fn schemas_that_no_object_can_tell_are_refused(rt: HostRuntime) -> Result<(), Fail> {
    let alloc = rt.alloc();
    let twice = both(
        alloc,
        plain(alloc, "a", Ty::Utf8)?,
        plain(alloc, "a", Ty::Utf8)?,
    )?;
    assert!(rt;
        fault_of(alloc, &twice, b"{\"a\":\"x\"}\n") == Some(JsonFault::SameNames),
        "two fields of one name"
    );
    let half = Ty::FloatingPoint {
        precision: Precision::Half,
    };
    let halves = alone(alloc, plain(alloc, "a", half)?)?;
    let unsupported = JsonFault::Cell {
        line: 1,
        field: 0,
        fault: CellFault::Unsupported,
    };
    assert!(rt;
        fault_of(alloc, &halves, b"{\"a\":1}\n") == Some(unsupported),
        "floats of two bytes"
    );
    let odd = with_one(alloc, "a", Ty::Utf8, plain(alloc, "x", Ty::Utf8)?)?;
    assert!(rt;
        fault_of(alloc, &alone(alloc, odd)?, b"{}\n") == Some(JsonFault::BadSchema),
        "a field inside a text"
    );
    Ok(())
}
