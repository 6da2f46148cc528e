//! Lines that come without a schema.

use json_rows::{CellFault, JsonFault, read_rows, rows_text, schema_of_rows};
use std::alloc::Global;
use std::test::Fail;

/// Whether the lines, read with the schema that is made for them, are written so.
fn are_written(alloc: Global, lines: &str, wanted: &str) -> Result<bool, JsonFault> {
    let schema = schema_of_rows(alloc, lines.as_bytes())?;
    let batches = read_rows(alloc, &schema, lines.as_bytes())?;
    match batches.as_slice() {
        [batch] => Ok(rows_text(alloc, &schema, batch)?.as_slice() == wanted.as_bytes()),
        _ => Ok(false),
    }
}

/// The fault that is told of these lines.
fn fault_of(alloc: Global, lines: &str) -> Option<JsonFault> {
    schema_of_rows(alloc, lines.as_bytes()).err()
}

#[test]
fn types_come_from_all_lines(rt: HostRuntime) -> Result<(), Fail> {
    let alloc = rt.alloc();
    let lines = "{\"b\":1,\"a\":true}\n{\"b\":2.5,\"c\":\"x\"}\n{\"a\":null,\"d\":-3,\"e\":null}\n";
    let wanted = "{\"a\":true,\"b\":1.0,\"c\":null,\"d\":null,\"e\":null}\n\
        {\"a\":null,\"b\":2.5,\"c\":\"x\",\"d\":null,\"e\":null}\n\
        {\"a\":null,\"b\":null,\"c\":null,\"d\":-3,\"e\":null}\n";
    assert!(rt;
        are_written(alloc, lines, wanted) == Ok(true),
        "the columns of three lines"
    );
    Ok(())
}

#[test]
fn lines_that_want_a_schema_are_refused(rt: HostRuntime) -> Result<(), Fail> {
    let alloc = rt.alloc();
    assert!(rt; fault_of(alloc, "") == Some(JsonFault::NoRows), "no line");
    let kinds = JsonFault::Cell {
        line: 2,
        field: 0,
        fault: CellFault::WrongKind,
    };
    assert!(rt;
        fault_of(alloc, "{\"a\":1}\n{\"a\":\"1\"}\n") == Some(kinds),
        "a number and a text"
    );
    let array = JsonFault::Cell {
        line: 1,
        field: 0,
        fault: CellFault::Unsupported,
    };
    assert!(rt; fault_of(alloc, "{\"a\":[]}\n") == Some(array), "an array");
    Ok(())
}

#[test]
fn whole_numbers_beside_others_are_not_changed(rt: HostRuntime) -> Result<(), Fail> {
    let alloc = rt.alloc();
    let changed = JsonFault::Cell {
        line: 2,
        field: 0,
        fault: CellFault::OutOfRange,
    };
    assert!(rt;
        fault_of(alloc, "{\"a\":0.5}\n{\"a\":9007199254740993}\n") == Some(changed),
        "a number that no float is"
    );
    assert!(rt;
        are_written(
            alloc,
            "{\"a\":0.5}\n{\"a\":9007199254740994}\n",
            "{\"a\":0.5}\n{\"a\":9007199254740994.0}\n"
        ) == Ok(true),
        "a number that a float is"
    );
    Ok(())
}
