//! Scripts that are played against tables in memory.

use crate::support::{request, script, told_by};
use flight_calls::serve_call;
use run_files::ScriptCall;
use script_calls::{Told, asks_again};
use std::alloc::Global;
use std::hash::RandomState;
use std::test::Fail;
use table_backend::TableBackend;

/// The upload of docs/FORMATS.md, to the table t, with values 1, null and 3.
const FIRST: &str =
    r#"{"table":"t","id":"000102030405060708090a0b0c0d0e0f","values":[[1,null,3]]}"#;

/// The frames of version 1 of t: the message of its schema, of 152 bytes, and that of its batch with the upload's id, whose
/// header has 144 bytes and whose body has 16.
const VERSION: &str = "\
    000000009b129801100000000c00180004000600080010000c00000004000100200000000000000000000000000000000000\
    000000000a000c000000040000000a000000080000000000000001000000180000000000120018000400080009000c000000\
    100000001200000014000000010200001c0000002400000000000000010000006100000008000c0004000800080000000800\
    0000010000000000000000000000b8129001100000000c00180004000600080010000c000000040003002000000000000000\
    10000000000000000000000000000a0018000800040010000a00000018000000030000000000000024000000000000000000\
    0000010000000300000000000000010000000000000000000000020000000000000000000000010000000000000008000000\
    0000000003000000000000001a10000102030405060708090a0b0c0d0e0fc23e1005000000000000000100030000000000";

/// Tables that have taken nothing, at so many locations. They are in a box, since a test that held them as they are would be proved
/// long.
fn tables(rt: &HostRuntime, count: usize) -> Result<Box<TableBackend>, Fail> {
    let alloc = rt.alloc();
    let mut locations = Vec::new(alloc);
    for number in 0..count {
        locations.push(format!(in alloc; "plain+tcp://127.0.0.1:{number}")?)?;
    }
    let hashing = RandomState::new(rt)?;
    let backend = TableBackend::new(alloc, hashing, 100_000, locations);
    let boxed = Box::new(alloc, backend)?;
    Ok(boxed)
}

/// What the tables tell a call.
fn told(alloc: Global, tables: &mut TableBackend, call: &ScriptCall) -> Result<Told, Fail> {
    let request = request(alloc, call)?;
    let mut reader = request.as_slice();
    let mut answer = Vec::new(alloc);
    if serve_call(alloc, &mut reader, &mut answer, tables).is_err() {
        return Err(Fail::from("not served"));
    }
    match told_by(alloc, call, &answer) {
        Ok(told) => Ok(told),
        Err(_) => Err(Fail::from("no answer")),
    }
}

/// The lines of these calls, one after the other, to the tables. A call that would be asked again is followed by `again`.
fn lines(alloc: Global, tables: &mut TableBackend, calls: &str) -> Result<String, Fail> {
    let script = script(alloc, calls)?;
    let mut lines = String::new(alloc);
    for (number, call) in script.calls.iter().enumerate() {
        let told = told(alloc, tables, call)?;
        lines.push_str(told.line(alloc, number)?.as_str())?;
        if asks_again(&call.asked, &told) {
            lines.push_str("again\n")?;
        }
    }
    Ok(lines)
}

#[test]
fn tells_what_the_call_was_told(rt: HostRuntime) -> Result<(), Fail> {
    let alloc = rt.alloc();
    let mut tables = tables(&rt, 1)?;
    let calls = format!(in alloc; "[\"put\",0,{FIRST}],[\"get\",1,\"t\",1],[\"info\",2,\"t\"]")?;
    let wanted = format!(in alloc; "0 put 1\n1 get {VERSION}\n2 info 1 1\n")?;
    let lines = lines(alloc, &mut tables, &calls)?;
    assert!(rt; lines.as_str() == wanted.as_str(), "{lines}");
    Ok(())
}

/// Uploads that are taken, known already, of another schema, or of an id that another upload has.
const PUTS: &str = r#"
    ["put",0,{"table":"t","id":"00000000000000000000000000000001","values":[[1]]}],
    ["put",1,{"table":"t","id":"00000000000000000000000000000002","values":[[2],[3]]}],
    ["put",2,{"table":"t","id":"00000000000000000000000000000001","values":[[1]]}],
    ["put",0,{"table":"t","id":"00000000000000000000000000000003","values":[[1]],"name":"b"}],
    ["put",0,{"table":"t","id":"00000000000000000000000000000002","values":[[4]]}],
    ["put",0,{"table":"u","id":"00000000000000000000000000000004","values":[]}],
    ["info",0,"t"],
    ["info",0,"u"],
    ["info",0,"v"],
    ["get",0,"t",3],
    ["get",0,"v",1]"#;

#[test]
fn tells_each_refusal(rt: HostRuntime) -> Result<(), Fail> {
    let alloc = rt.alloc();
    let mut tables = tables(&rt, 5)?;
    let lines = lines(alloc, &mut tables, PUTS)?;
    let wanted =
        "0 put 1\n1 put 2\n2 put 1\n3 status 9 SchemaMismatch\n4 status 6 Conflict\n5 put 1\n6 info 2 5\n7 info 1 5\n8 status 5 NoTable\n9 status 14 Unavailable\nagain\n10 status 14 Unavailable\nagain\n";
    assert!(rt; lines.as_str() == wanted, "{lines}");
    Ok(())
}

/// So many uploads, behind each of which the table is asked about.
fn many_calls(alloc: Global, count: usize) -> Result<String, Fail> {
    let mut calls = String::new(alloc);
    for number in 0..count {
        if number > 0 {
            calls.push_str(",")?;
        }
        let call = format!(in alloc;
            "[\"put\",0,{{\"table\":\"t\",\"id\":\"{number:032x}\",\"values\":[[7]]}}],[\"info\",0,\"t\"]"
        )?;
        calls.push_str(&call)?;
    }
    Ok(calls)
}

/// Their lines, where there are two locations.
fn many_lines(alloc: Global, count: usize) -> Result<String, Fail> {
    let mut lines = String::new(alloc);
    for number in 0..count {
        let version = number + 1;
        let first = number.wrapping_mul(2);
        let second = first.wrapping_add(1);
        let both = format!(in alloc; "{first} put {version}\n{second} info {version} 2\n")?;
        lines.push_str(&both)?;
    }
    Ok(lines)
}

#[test]
fn tells_thousands_of_calls(rt: HostRuntime) -> Result<(), Fail> {
    let alloc = rt.alloc();
    let mut tables = tables(&rt, 2)?;
    let calls = many_calls(alloc, 1_500)?;
    let lines = lines(alloc, &mut tables, &calls)?;
    let wanted = many_lines(alloc, 1_500)?;
    assert!(rt; lines.as_str() == wanted.as_str());
    Ok(())
}
