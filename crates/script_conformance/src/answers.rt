//! What calls make of the bytes that come back.

use crate::support::{only_call, told_by};
use call_protocol::CallFault;
use script_calls::{Told, Unanswered, ask, asks_again};
use std::alloc::Global;
use std::test::Fail;

const GET: &str = "[\"get\",0,\"t\",1]";

const INFO: &str = "[\"info\",0,\"t\"]";

const PUT: &str =
    "[\"put\",0,{\"table\":\"t\",\"id\":\"000102030405060708090a0b0c0d0e0f\",\"values\":[]}]";

/// The trailer of a call that was answered.
const OK: &str = "800000000100";

/// The bytes of all these digits.
fn bytes(alloc: Global, digits: &[&str]) -> Result<Vec<u8>, Fail> {
    let mut all = Vec::new(alloc);
    for some in digits {
        let Ok(bytes) = hex::decode(alloc, some.as_bytes()) else {
            return Err(Fail::from("no digits"));
        };
        all.extend_from_slice(&bytes)?;
    }
    Ok(all)
}

/// The line of this call over these bytes, with the number 7, or why there is none.
fn line(alloc: Global, call: &str, digits: &[&str]) -> Result<String, Fail> {
    let answer = bytes(alloc, digits)?;
    let call = only_call(alloc, call)?;
    let line = match told_by(alloc, &call, &answer) {
        Ok(told) => told.line(alloc, 7)?,
        Err(fault) => format!(in alloc; "{fault}")?,
    };
    Ok(line)
}

/// Whether the line over these bytes is this one, or this is why there is none.
fn is_line(alloc: Global, call: &str, digits: &[&str], wanted: &str) -> Result<bool, Fail> {
    Ok(line(alloc, call, digits)?.as_str() == wanted)
}

/// Results of the upload: version 1, version 2^64 - 1, of another id, and two messages.
#[test]
fn tells_the_version_of_an_upload(rt: HostRuntime) -> Result<(), Fail> {
    let alloc = rt.alloc();
    let first = "00000000160a140a10000102030405060708090a0b0c0d0e0f1001";
    let last = "000000001f0a1d0a10000102030405060708090a0b0c0d0e0f10ffffffffffffffffff01";
    let other = "00000000160a140a10000102030405060708090a0b0c0d0e001001";
    assert!(rt; is_line(alloc, PUT, &[first, OK], "7 put 1\n")?);
    assert!(rt; is_line(alloc, PUT, &[last, OK], "7 put 18446744073709551615\n")?);
    assert!(rt; is_line(alloc, PUT, &[other, OK], "BadAnswer")?);
    assert!(rt; is_line(alloc, PUT, &[first, first, OK], "BadAnswer")?);
    assert!(rt; is_line(alloc, PUT, &[OK], "BadAnswer")?);
    Ok(())
}

/// Frames of any messages, and of none.
#[test]
fn tells_the_frames_of_a_version(rt: HostRuntime) -> Result<(), Fail> {
    let alloc = rt.alloc();
    assert!(rt; is_line(alloc, GET, &[OK], "7 get \n")?);
    assert!(rt;
        is_line(
            alloc,
            GET,
            &["0000000002abcd", OK],
            "7 get 0000000002abcd\n"
        )?
    );
    let both = ["0000000000", "000000000100", OK, "ff"];
    assert!(rt; is_line(alloc, GET, &both, "7 get 0000000000000000000100\n")?);
    assert!(rt; is_line(alloc, GET, &["0000000002ab"], "BadAnswer")?);
    assert!(rt; is_line(alloc, GET, &["0000000000"], "BadAnswer")?);
    assert!(rt; is_line(alloc, GET, &["0100000000", OK], "BadAnswer")?);
    Ok(())
}

/// Whether the line of what is told by a FlightInfo of these fields is this one, or this is why there is none.
fn is_told(alloc: Global, fields: &str, wanted: &str) -> Result<bool, Fail> {
    let length = fields.len() / 2;
    let framed = format!(in alloc; "00{length:08x}{fields}")?;
    is_line(alloc, INFO, &[framed.as_str(), OK], wanted)
}

/// One endpoint with the ticket for version 5 of t: with one location, with none, with two, behind fields that are not
/// looked at. A ticket is a message in a field of its own, whose bytes are the table's name and the version.
#[test]
fn tells_the_latest_version_and_its_locations(rt: HostRuntime) -> Result<(), Fail> {
    let alloc = rt.alloc();
    assert!(rt; is_told(alloc, "1a0e0a070a050a0174100512030a0161", "7 info 5 1\n")?);
    assert!(rt; is_told(alloc, "1a090a070a050a01741005", "7 info 5 0\n")?);
    assert!(rt;
        is_told(
            alloc,
            "1a130a070a050a0174100512030a016112030a0162",
            "7 info 5 2\n"
        )?
    );
    assert!(rt; is_told(alloc, "200330ff011a090a070a050a01741005", "7 info 5 0\n")?);
    Ok(())
}

/// No endpoint, two, one without a ticket, and tickets of another table, of no version, of another encoding and of
/// nothing.
#[test]
fn takes_one_endpoint_of_the_table(rt: HostRuntime) -> Result<(), Fail> {
    let alloc = rt.alloc();
    for fields in [
        "2003",
        "1a090a070a050a017410051a090a070a050a01741005",
        "1a00",
        "1a020a00",
        "1a0512030a0161",
        "1a090a070a050a01751005",
        "1a070a050a030a0174",
        "1a090a070a0510050a0174",
        "1a0a0a080a060a0174108500",
    ] {
        assert!(rt; is_told(alloc, fields, "BadAnswer")?, "{fields}");
    }
    Ok(())
}

/// Statuses with a text, with an empty one and with one of several words, behind messages too.
#[test]
fn tells_a_refusal_as_it_came(rt: HostRuntime) -> Result<(), Fail> {
    let alloc = rt.alloc();
    for call in [PUT, GET, INFO] {
        let named = ["800000000c0e556e617661696c61626c65"];
        assert!(rt;
            is_line(alloc, call, &named, "7 status 14 Unavailable\n")?,
            "{call}"
        );
        assert!(rt;
            is_line(alloc, call, &["8000000001ff"], "7 status 255 \n")?,
            "{call}"
        );
        let several = ["0000000000", "800000000403612062"];
        assert!(rt;
            is_line(alloc, call, &several, "7 status 3 a b\n")?,
            "{call}"
        );
        assert!(rt;
            is_line(alloc, call, &["8000000000"], "BadAnswer")?,
            "{call}"
        );
        assert!(rt;
            is_line(alloc, call, &["80000000020061"], "BadAnswer")?,
            "{call}"
        );
        assert!(rt;
            is_line(alloc, call, &["800000000203ff"], "BadAnswer")?,
            "{call}"
        );
    }
    Ok(())
}

/// Whether this call is asked again where this is told.
fn is_again(alloc: Global, call: &str, told: &Told) -> Result<bool, Fail> {
    Ok(asks_again(&only_call(alloc, call)?.asked, told))
}

/// A version alone, and of status 14 alone.
#[test]
fn asks_again_for_a_version_that_is_not_served_yet(rt: HostRuntime) -> Result<(), Fail> {
    let alloc = rt.alloc();
    let unavailable = Told::Status(14, String::from_str(alloc, "Down")?);
    assert!(rt; is_again(alloc, GET, &unavailable)?);
    assert!(rt; !is_again(alloc, PUT, &unavailable)?);
    assert!(rt; !is_again(alloc, INFO, &unavailable)?);
    for status in 0..=u8::MAX {
        let told = Told::Status(status, String::new(alloc));
        assert!(rt; is_again(alloc, GET, &told)? == (status == 14), "{status}");
    }
    assert!(rt; !is_again(alloc, GET, &Told::Put(14))?);
    assert!(rt; !is_again(alloc, GET, &Told::Get(Vec::new(alloc)))?);
    assert!(rt; !is_again(alloc, GET, &Told::Info(14, 14))?);
    Ok(())
}

/// Whether the call into a writer of no room is told that a write failed, with nothing read.
fn fails_to_write(alloc: Global, call: &str) -> Result<bool, Fail> {
    let call = only_call(alloc, call)?;
    let mut reader: &[u8] = &[0x80, 0, 0, 0, 1, 0];
    let mut room: [u8; 0] = [];
    let mut writer = room.as_mut_slice();
    match ask(alloc, &mut reader, &mut writer, &call.asked) {
        Err(Unanswered::Call(CallFault::Write)) => Ok(reader.len() == 6),
        Err(_) | Ok(_) => Ok(false),
    }
}

#[test]
fn tells_a_request_that_can_not_be_written(rt: HostRuntime) -> Result<(), Fail> {
    for call in [PUT, GET, INFO] {
        assert!(rt; fails_to_write(rt.alloc(), call)?, "{call}");
    }
    Ok(())
}

/// How many of these bytes are left when the call has ended.
fn left(alloc: Global, call: &str, digits: &[&str]) -> Result<usize, Fail> {
    let answer = bytes(alloc, digits)?;
    let call = only_call(alloc, call)?;
    let mut reader = answer.as_slice();
    let told = ask(alloc, &mut reader, &mut Vec::new(alloc), &call.asked);
    drop(told);
    Ok(reader.len())
}

/// Nothing is read behind a trailer, whatever came before it, nor behind the five bytes in front of a payload that no
/// frame of an answer may have; and all that came of an answer that is cut short.
#[test]
fn reads_nothing_behind_what_ends_a_call(rt: HostRuntime) -> Result<(), Fail> {
    let alloc = rt.alloc();
    for call in [PUT, GET, INFO] {
        assert!(rt; left(alloc, call, &[OK, "ffff"])? == 2, "{call}");
        assert!(rt;
            left(alloc, call, &["00000000022003", OK, "ff"])? == 1,
            "{call}"
        );
        assert!(rt;
            left(alloc, call, &["0000000001ff", OK, OK])? == 6,
            "{call}"
        );
        assert!(rt;
            left(alloc, call, &["800000000c0e556e617661696c61626c65", OK])? == 6,
            "{call}"
        );
        assert!(rt; left(alloc, call, &["8000000000", OK])? == 6, "{call}");
        assert!(rt;
            left(alloc, call, &["0000000000", "0200000000", OK])? == 6,
            "{call}"
        );
        assert!(rt;
            left(alloc, call, &["0100000001", "ff", OK])? == 7,
            "{call}"
        );
        assert!(rt; left(alloc, call, &["0000400001", OK])? == 6, "{call}");
        assert!(rt;
            left(alloc, call, &["0000000001ff", "0000000002ab"])? == 0,
            "{call}"
        );
    }
    Ok(())
}
