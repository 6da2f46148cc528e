//! Rows that are got.

use crate::scripted::Scripted;
use client_command::get_run;
use std::alloc::Global;
use std::test::Fail;

/// Whether a get of this version ends so, at a connection that is answered so: the status, how many connections were
/// opened, how many bytes of the answer were left, and what was printed and reported.
fn ends(
    alloc: Global,
    answers: &[&str],
    address: &str,
    table: &str,
    version: Option<u64>,
    wanted: &str,
) -> Result<bool, Fail> {
    let mut connect = Scripted::new(alloc, answers)?;
    let mut out = Vec::new(alloc);
    let mut err = Vec::new(alloc);
    let status = get_run(
        alloc,
        &mut connect,
        address,
        table,
        version,
        &mut out,
        &mut err,
    );
    let opened = connect.ports.len();
    let left = connect.left;
    let (Ok(out), Ok(err)) = (String::from_utf8(out), String::from_utf8(err)) else {
        return Err(Fail::from("no text"));
    };
    Ok(format!(in alloc; "{status} {opened} {left} {out}{err}")?.as_str() == wanted)
}

/// Words that name nothing, and calls without an answer.
#[test]
fn reports_faults(rt: HostRuntime) -> Result<(), Fail> {
    let alloc = rt.alloc();
    let at = "127.0.0.1:42000";
    assert!(rt;
        ends(
            alloc,
            &[],
            "there:1",
            "t",
            Some(1),
            "2 0 0 flightd: BadAddress\n"
        )?
    );
    assert!(rt; ends(alloc, &[], at, "a/b", Some(1), "2 0 0 flightd: BadTable\n")?);
    assert!(rt; ends(alloc, &[], at, "a/b", None, "2 0 0 flightd: BadTable\n")?);
    assert!(rt; ends(alloc, &[], at, "t", Some(0), "2 0 0 flightd: BadTable\n")?);
    assert!(rt; ends(alloc, &[], at, "t", Some(1), "1 1 0 flightd: Connect\n")?);
    assert!(rt;
        ends(
            alloc,
            &["800000000100ff"],
            at,
            "t",
            Some(1),
            "1 1 1 flightd: BadAnswer\n"
        )?
    );
    let refusal = "8000000009056e6f2d7461626c65";
    assert!(rt;
        ends(
            alloc,
            &[refusal],
            at,
            "t",
            Some(1),
            "5 1 0 flightd: no-table\n"
        )?
    );
    Ok(())
}
