//! Rows that are put.

use crate::scripted::Scripted;
use client_command::{put_run, put_words};
use std::alloc::Global;
use std::test::Fail;

/// The id of an upload.
const ID: &str = "000102030405060708090a0b0c0d0e0f";

/// The answer that this upload made version 7.
const SEVENTH: &str = "00000000160a140a10000102030405060708090a0b0c0d0e0f1007800000000100";

/// The answer that an upload named by bytes of 9 made version 1.
const NINES: &str = "00000000160a140a10090909090909090909090909090909091001800000000100";

/// Whether these words of a put name nothing, and this is told.
fn are_refused(
    alloc: Global,
    address: &str,
    table: &str,
    id: Option<&str>,
    wanted: &str,
) -> Result<bool, Fail> {
    match put_words(address, table, id, [9; 16]) {
        Ok(_) => Ok(false),
        Err(fault) => Ok(fault.status() == 2 && format!(in alloc; "{fault}")?.as_str() == wanted),
    }
}

/// What a put of these rows ends with, at connections that are answered so: the status, how many connections were opened
/// and closed, what was printed, and what was reported.
fn put(
    alloc: Global,
    answers: &[&str],
    address: &str,
    id: Option<&str>,
    rows: &str,
) -> Result<String, Fail> {
    let Ok(words) = put_words(address, "t", id, [9; 16]) else {
        return Err(Fail::from("words that name nothing"));
    };
    let mut connect = Scripted::new(alloc, answers)?;
    let mut out = Vec::new(alloc);
    let mut err = Vec::new(alloc);
    let text = rows.as_bytes();
    let status = put_run(alloc, &mut connect, words, text, None, &mut out, &mut err);
    let closed = connect.sent.len();
    let opened = connect.ports.len();
    let (Ok(out), Ok(err)) = (String::from_utf8(out), String::from_utf8(err)) else {
        return Err(Fail::from("no text"));
    };
    Ok(format!(in alloc; "{status} {opened} {closed} {out}{err}")?)
}

/// Whether it ends so.
fn ends(
    alloc: Global,
    answers: &[&str],
    address: &str,
    id: Option<&str>,
    rows: &str,
    wanted: &str,
) -> Result<bool, Fail> {
    Ok(put(alloc, answers, address, id, rows)?.as_str() == wanted)
}

/// The line of an upload, by its id and by one that was drawn.
#[test]
fn prints_the_line_of_an_upload(rt: HostRuntime) -> Result<(), Fail> {
    let alloc = rt.alloc();
    let line = "0 1 1 000102030405060708090a0b0c0d0e0f 7\n";
    assert!(rt;
        ends(
            alloc,
            &[SEVENTH],
            "127.0.0.1:42000",
            Some(ID),
            "{\"a\":1}\n",
            line
        )?
    );
    assert!(rt;
        ends(
            alloc,
            &[SEVENTH],
            "localhost:1",
            Some(ID),
            "{\"a\":1}",
            line
        )?
    );
    let line = "0 1 1 09090909090909090909090909090909 1\n";
    assert!(rt;
        ends(
            alloc,
            &[NINES],
            "127.0.0.1:65535",
            None,
            "{\"a\":1}\n",
            line
        )?
    );
    Ok(())
}

/// Words that name nothing.
#[test]
fn reports_words_that_name_nothing(rt: HostRuntime) -> Result<(), Fail> {
    let alloc = rt.alloc();
    for address in [
        "",
        "127.0.0.1",
        "127.0.0.1:0",
        "127.0.0.1:65536",
        "host:1",
        "localhost:+1",
    ] {
        assert!(rt;
            are_refused(alloc, address, "t", Some(ID), "BadAddress")?,
            "{address}"
        );
    }
    for table in ["", "a/b", "t ", "\u{e4}"] {
        assert!(rt;
            are_refused(alloc, "127.0.0.1:1", table, None, "BadTable")?,
            "{table}"
        );
    }
    for id in ["", "00", "000102030405060708090A0B0C0D0E0F"] {
        assert!(rt;
            are_refused(alloc, "127.0.0.1:1", "t", Some(id), "BadId")?,
            "{id}"
        );
    }
    Ok(())
}

/// Whether a put of a row under its id ends so.
fn row_ends(alloc: Global, answers: &[&str], wanted: &str) -> Result<bool, Fail> {
    let at = "127.0.0.1:42000";
    ends(alloc, answers, at, None, "{\"a\":1}\n", wanted)
}

/// Rows that make no upload, which open no connection, and a server that is not there: nothing was sent.
#[test]
fn reports_what_was_not_sent(rt: HostRuntime) -> Result<(), Fail> {
    let alloc = rt.alloc();
    let at = "127.0.0.1:42000";
    assert!(rt; ends(alloc, &[], at, None, "", "1 0 0 flightd: NoRows\n")?);
    assert!(rt;
        ends(
            alloc,
            &[],
            at,
            None,
            "{\"a\":1}\n7\n",
            "1 0 0 flightd: line 2: UnknownMember\n"
        )?
    );
    assert!(rt; row_ends(alloc, &[], "1 1 0 flightd: Connect\n")?);
    Ok(())
}

/// Calls without an answer, whose upload may have been taken: the id to put it again by is told.
#[test]
fn says_how_to_put_again(rt: HostRuntime) -> Result<(), Fail> {
    let alloc = rt.alloc();
    let lost =
        "1 1 1 flightd: BadAnswer\nflightd: put it again with --id 09090909090909090909090909090909\n";
    assert!(rt; row_ends(alloc, &[""], lost)?);
    assert!(rt; row_ends(alloc, &[SEVENTH], lost)?);
    let down =
        "14 1 1 flightd: Down\nflightd: put it again with --id 09090909090909090909090909090909\n";
    assert!(rt; row_ends(alloc, &["80000000050e446f776e"], down)?);
    let stored =
        "13 1 1 flightd: no\nflightd: put it again with --id 09090909090909090909090909090909\n";
    assert!(rt; row_ends(alloc, &["80000000030d6e6f"], stored)?);
    Ok(())
}

/// A put that is refused for good.
#[test]
fn reports_a_refusal_alone(rt: HostRuntime) -> Result<(), Fail> {
    let alloc = rt.alloc();
    assert!(rt; row_ends(alloc, &["8000000003036e6f"], "3 1 1 flightd: no\n")?);
    assert!(rt; row_ends(alloc, &["8000000003056e6f"], "5 1 1 flightd: no\n")?);
    assert!(rt; row_ends(alloc, &["8000000003066e6f"], "6 1 1 flightd: no\n")?);
    assert!(rt; row_ends(alloc, &["8000000003096e6f"], "9 1 1 flightd: no\n")?);
    assert!(rt; row_ends(alloc, &["80000000030c6e6f"], "12 1 1 flightd: no\n")?);
    Ok(())
}
