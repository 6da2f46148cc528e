//! What a client writes, and what it makes of the bytes that come back.

use crate::support::{bytes, upload};
use client_calls::{ClientFault, call_info, call_put};
use std::alloc::Global;
use std::test::Fail;

/// The request of the put.
pub(crate) const PUT: &str = "\
    000000002a2f6172726f772e666c696768742e70726f746f636f6c2e466c69676874536572766963652f446f507574000000\
    00c40a2708011a01741a20303030313032303330343035303630373038303930613062306330643065306612980110000000\
    0c00180004000600080010000c00000004000100200000000000000000000000000000000000000000000a000c0000000400\
    00000a000000080000000000000001000000180000000000120018000400080009000c000000100000001200000014000000\
    010200001c0000002400000000000000010000006100000008000c0004000800080000000800000001000000000000000000\
    0000a6129001100000000c00180004000600080010000c000000040003002000000000000000100000000000000000000000\
    00000a0018000800040010000a00000018000000030000000000000024000000000000000000000001000000030000000000\
    0000010000000000000000000000020000000000000000000000010000000000000008000000000000000300000000000000\
    c23e10050000000000000001000300000000008000000000";

/// The request of what is told of t.
pub(crate) const INFO: &str = "\
    00000000322f6172726f772e666c696768742e70726f746f636f6c2e466c69676874536572766963652f476574466c696768\
    74496e666f000000000508011a01748000000000";

/// The frame of a PutResult with the upload's id and version 1, and of one with version 9.
pub(crate) const FIRST: &str = "00000000160a140a10000102030405060708090a0b0c0d0e0f1001";

const NINTH: &str = "00000000160a140a10000102030405060708090a0b0c0d0e0f1009";

/// The trailer of a call that was answered, and one of status 14.
pub(crate) const OK: &str = "800000000100";

pub(crate) const UNAVAILABLE: &str = "800000000c0e556e617661696c61626c65";

/// A FlightInfo in another spelling: ordered by 255, a field that is not known, and five rows.
pub(crate) const TOLD: &str = "0000000007200330ff012005";

/// What the put gives over these bytes, and whether its request is as it is to be and this is left of them.
fn put(alloc: Global, parts: &[&str], left: usize) -> Result<Result<u64, ClientFault>, Fail> {
    let input = bytes(alloc, parts)?;
    let mut reader = input.as_slice();
    let mut writer = Vec::new(alloc);
    let got = call_put(alloc, &mut reader, &mut writer, &upload(alloc)?);
    if writer.as_slice() != bytes(alloc, &[PUT])?.as_slice() {
        return Err(Fail::from("another request"));
    }
    if reader.len() != left {
        return Err(Fail::from("another rest"));
    }
    Ok(got)
}

/// Whether the put gives this version, and leaves what stands behind the trailer.
fn gives(alloc: Global, frame: &str, version: u64) -> Result<bool, Fail> {
    match put(alloc, &[frame, OK, "ffff"], 2)? {
        Ok(given) => Ok(given == version),
        Err(_) => Ok(false),
    }
}

/// Whether these bytes are no answer to the put.
fn is_no_answer(alloc: Global, parts: &[&str]) -> Result<bool, Fail> {
    match put(alloc, parts, 0)? {
        Err(ClientFault::BadAnswer) => Ok(true),
        _ => Ok(false),
    }
}

#[test]
fn a_put_gives_the_version_that_is_told(rt: HostRuntime) -> Result<(), Fail> {
    assert!(rt; gives(rt.alloc(), FIRST, 1)?);
    assert!(rt; gives(rt.alloc(), NINTH, 9)?);
    Ok(())
}

#[test]
fn a_put_takes_one_result_and_a_trailer(rt: HostRuntime) -> Result<(), Fail> {
    assert!(rt; is_no_answer(rt.alloc(), &[NINTH, FIRST, OK])?);
    assert!(rt; is_no_answer(rt.alloc(), &[OK])?);
    assert!(rt; is_no_answer(rt.alloc(), &[FIRST])?);
    Ok(())
}

#[test]
fn a_trailer_of_an_answer_has_no_text(rt: HostRuntime) -> Result<(), Fail> {
    assert!(rt; is_no_answer(rt.alloc(), &[FIRST, "80000000020041"])?);
    Ok(())
}

/// The status and the text that the put tells.
fn refusal(alloc: Global) -> Result<(u8, String), Fail> {
    match put(alloc, &[FIRST, UNAVAILABLE], 0)? {
        Err(ClientFault::Status(status, text)) => Ok((status, text)),
        _ => Err(Fail::from("no refusal")),
    }
}

#[test]
fn a_refusal_is_told_behind_messages_too(rt: HostRuntime) -> Result<(), Fail> {
    let (status, text) = refusal(rt.alloc())?;
    assert!(rt; status == 14);
    assert!(rt; text.as_str() == "Unavailable");
    Ok(())
}

/// How many rows are told of t over these bytes, where they are in order, and whether the request is as it is to be.
fn rows_told(alloc: Global) -> Result<i64, Fail> {
    let input = bytes(alloc, &[TOLD, OK])?;
    let mut reader = input.as_slice();
    let mut writer = Vec::new(alloc);
    let got = call_info(alloc, &mut reader, &mut writer, "t");
    if writer.as_slice() != bytes(alloc, &[INFO])?.as_slice() {
        return Err(Fail::from("another request"));
    }
    match got {
        Ok(info) if info.ordered => Ok(info.total_records),
        _ => Err(Fail::from("nothing told")),
    }
}

#[test]
fn what_is_told_of_a_table_is_read_in_any_spelling(rt: HostRuntime) -> Result<(), Fail> {
    let rows = rows_told(rt.alloc())?;
    assert!(rt; rows == 5);
    Ok(())
}
