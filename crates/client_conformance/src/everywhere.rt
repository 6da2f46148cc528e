//! Locations that give the same, and others.

use crate::scripted::Scripted;
use client_command::get_everywhere_run;
use std::alloc::Global;
use std::test::Fail;

/// The answer that there is a version 3 of the table `t`, at the locations `plain+tcp://127.0.0.1:2` and
/// `plain+tcp://localhost:3`.
const INFORMS: &str = "\
00000000411a3f0a070a050a0174100312190a17706c61696e2b7463703a2f2f3132372e302e302e313a3212190a17706c6169\
6e2b7463703a2f2f6c6f63616c686f73743a33800000000100";

/// An answer with one message, one without, and a refusal.
const ONE: &str = "0000000001ff800000000100";

const NONE: &str = "800000000100";

const REFUSED: &str = "8000000003056e6f";

/// Whether it is told so of these answers: the status, the ports of the servers that were asked, and what was reported.
fn ends(alloc: Global, answers: &[&str], wanted: &str) -> Result<bool, Fail> {
    let mut connect = Scripted::new(alloc, answers)?;
    let mut out = Vec::new(alloc);
    let mut err = Vec::new(alloc);
    let at = "127.0.0.1:1";
    let status = get_everywhere_run(alloc, &mut connect, at, "t", None, &mut out, &mut err);
    let ports = &connect.ports;
    let Ok(err) = String::from_utf8(err) else {
        return Err(Fail::from("no text"));
    };
    Ok(format!(in alloc; "{status} {ports:?} {err}")?.as_str() == wanted)
}

/// Each location has its line, and only what all gave is read.
#[test]
fn tells_of_each_location(rt: HostRuntime) -> Result<(), Fail> {
    let alloc = rt.alloc();
    let two = "plain+tcp://127.0.0.1:2";
    let three = "plain+tcp://localhost:3";
    let wanted = format!(in alloc;
        "1 [1, 1, 2, 3] {two} same\n{three} same\nflightd: BadAnswer\n"
    )?;
    assert!(rt; ends(alloc, &[INFORMS, ONE, ONE, ONE], &wanted)?);
    let wanted = format!(in alloc; "1 [1, 1, 2, 3] {two} Differs\n{three} no\nflightd: Differs\n")?;
    assert!(rt; ends(alloc, &[INFORMS, ONE, NONE, REFUSED], &wanted)?);
    let wanted = format!(in alloc;
        "1 [1, 1, 2, 3] {two} same\n{three} Connect\nflightd: Differs\n"
    )?;
    assert!(rt; ends(alloc, &[INFORMS, ONE, ONE], &wanted)?);
    assert!(rt; ends(alloc, &[INFORMS, REFUSED], "5 [1, 1] flightd: no\n")?);
    assert!(rt; ends(alloc, &[REFUSED], "5 [1] flightd: no\n")?);
    Ok(())
}
