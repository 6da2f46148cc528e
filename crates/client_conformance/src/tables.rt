//! What is told of tables.

use crate::scripted::Scripted;
use client_command::{get_run, info_run, list_run};
use std::alloc::Global;
use std::test::Fail;

/// The trailer of a call that was answered.
const OK: &str = "800000000100";

/// What is told of version 3 of the table `t`: a path of `t`, a ticket of `t` and 3 with the location `x:1`, 5 rows,
/// and bytes that are not known.
const THIRD: &str = "\
120508011a01741a100a070a050a0174100312050a03783a31200528ffffffffffffffffff01";

/// The same without what names the table.
const UNNAMED: &str = "1a100a070a050a0174100312050a03783a31200528ffffffffffffffffff01";

/// The schema of a table with the fields `shop: utf8` and `sold: int64 not null`, in an encapsulated message.
const SCHEMA: &str = "\
0af801fffffffff0000000100000000c00180004000600080010000c00000004000100200000000000000000000000000000000000000000\
000a000c000000040000000a0000000800000000000000020000002000000064000000000000000000120018000400080009000c00000010\
0000001200000014000000010500001c0000001c000000000000000400000073686f70000000000400040004000000000000000000000000\
00120018000400080009000c00000010000000120000001400000000020000240000002c0000000000000004000000736f6c640000000000\
00000008000c000400080008000000400000000100000000000000";

/// An answer with this message as often.
fn answer(alloc: Global, message: &str, count: usize) -> Result<String, Fail> {
    let length = message.len() / 2;
    let mut text = String::new(alloc);
    for _ in 0..count {
        let framed = format!(in alloc; "00{length:08x}{message}")?;
        text.push_str(&framed)?;
    }
    text.push_str(OK)?;
    Ok(text)
}

/// What listing prints and reports of this answer, behind its status.
fn listed(alloc: Global, answer: &str) -> Result<String, Fail> {
    let mut connect = Scripted::new(alloc, &[answer])?;
    let mut out = Vec::new(alloc);
    let mut err = Vec::new(alloc);
    let status = list_run(alloc, &mut connect, "127.0.0.1:1", &mut out, &mut err);
    told(alloc, status, out, err)
}

/// What is printed and reported of a table by this answer, behind the status.
fn informed(alloc: Global, table: &str, answer: &str) -> Result<String, Fail> {
    let mut connect = Scripted::new(alloc, &[answer])?;
    let mut out = Vec::new(alloc);
    let mut err = Vec::new(alloc);
    let status = info_run(
        alloc,
        &mut connect,
        "127.0.0.1:1",
        table,
        &mut out,
        &mut err,
    );
    told(alloc, status, out, err)
}

fn told(alloc: Global, status: u8, out: Vec<u8>, err: Vec<u8>) -> Result<String, Fail> {
    let (Ok(out), Ok(err)) = (String::from_utf8(out), String::from_utf8(err)) else {
        return Err(Fail::from("no text"));
    };
    Ok(format!(in alloc; "{status} {out}{err}")?)
}

/// The lines of tables, and of what tells of none.
#[test]
fn lists_tables(rt: HostRuntime) -> Result<(), Fail> {
    let alloc = rt.alloc();
    assert!(rt; listed(alloc, &answer(alloc, THIRD, 2)?)?.as_str() == "0 t 3 5 -1\nt 3 5 -1\n");
    assert!(rt; listed(alloc, OK)?.as_str() == "0 ");
    assert!(rt; listed(alloc, &answer(alloc, UNNAMED, 1)?)?.as_str() == "1 flightd: BadAnswer\n");
    Ok(())
}

/// The lines of one table, and of what tells of none, of another, or of no schema.
#[test]
fn tells_of_a_table(rt: HostRuntime) -> Result<(), Fail> {
    let alloc = rt.alloc();
    let lines =
        "0 version 3\nrows 5\nbytes -1\nlocation x:1\nfield shop: utf8\nfield sold: int64 not null\n";
    let none = "1 flightd: BadAnswer\n";
    let third = format!(in alloc; "{SCHEMA}{THIRD}")?;
    let unnamed = format!(in alloc; "{SCHEMA}{UNNAMED}")?;
    assert!(rt; informed(alloc, "t", &answer(alloc, &third, 1)?)?.as_str() == lines);
    assert!(rt; informed(alloc, "t", &answer(alloc, &unnamed, 1)?)?.as_str() == lines);
    assert!(rt; informed(alloc, "u", &answer(alloc, &third, 1)?)?.as_str() == none);
    assert!(rt; informed(alloc, "t", &answer(alloc, &third, 2)?)?.as_str() == none);
    assert!(rt; informed(alloc, "t", &answer(alloc, THIRD, 1)?)?.as_str() == none);
    Ok(())
}

/// Of a latest version there are two calls, the second with its ticket.
#[test]
fn asks_for_the_latest_version(rt: HostRuntime) -> Result<(), Fail> {
    let alloc = rt.alloc();
    let informs = answer(alloc, THIRD, 1)?;
    let mut connect = Scripted::new(alloc, &[&informs, "8000000003056e6f"])?;
    let mut out = Vec::new(alloc);
    let mut err = Vec::new(alloc);
    let status = get_run(
        alloc,
        &mut connect,
        "127.0.0.1:1",
        "t",
        None,
        &mut out,
        &mut err,
    );
    assert!(rt; told(alloc, status, out, err)?.as_str() == "5 flightd: no\n");
    let Some(asked) = connect.sent.pop() else {
        return Err(Fail::from("nothing sent"));
    };
    let ticket = "00000000070a050a017410038000000000";
    let digits = hex::encode(alloc, &asked)?;
    assert!(rt; digits.as_str().ends_with(ticket));
    Ok(())
}
