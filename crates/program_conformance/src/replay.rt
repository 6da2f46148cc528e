//! Schedules, played into writers that fail.

use crate::streams::Narrow;
use replay_command::replay_run;
use std::alloc::Global;
use std::hash::RandomState;
use std::test::Fail;

/// A schedule in which an upload of three rows is decided with no message lost, and two nodes are asked for it.
const SCHEDULE: &str =
    r#"{"members":3,"slot_limit":2,"uploads":[{"table":"t","id":"000102030405060708090a0b0c0d0e0f","values":[[1,null,3]]}],"events":[["put",0,0],["tick",0,0],["deliver",0,0],["deliver",1,0],["deliver",0,1],["deliver",0,2],["deliver",0,3],["deliver",1,3],["deliver",0,4],["deliver",0,5],["outcome",0,0],["get",2,"t",1]]}"#;

/// The lines of that.
const LINES: &str =
    "0 done\n1 sent 0\n2 sent 1\n3 sent 2\n4 sent -\n5 sent 3\n6 sent 4\n7 sent 5\n8 sent -\n9 sent -\n10 applied 1\n11 unavailable\n";

/// Whether a replay fails into a writer of this room, with the first bytes of its lines gone out. Where all of them are
/// taken, the flush fails.
fn is_lost(alloc: Global, hashing: RandomState, file: &[u8], room: usize) -> bool {
    let mut writer = Narrow::new(alloc, room, 0);
    let mut said = Vec::new(alloc);
    let status = replay_run(alloc, hashing, file, &mut writer, &mut said);
    let is_cut = LINES.as_bytes().get(..room) == Some(writer.written.as_slice());
    status == 1 && is_cut && said.as_slice() == b"flightd: Io\n".as_slice()
}

#[test]
fn tells_lines_that_are_lost(rt: HostRuntime) -> Result<(), Fail> {
    let hashing = RandomState::new(&rt)?;
    for room in 0..=LINES.len() {
        assert!(rt;
            is_lost(rt.alloc(), hashing, SCHEDULE.as_bytes(), room),
            "in {room} bytes"
        );
    }
    Ok(())
}

/// Whether the replay of a file that tells no schedule fails where its lines' room is this, with the first bytes said.
fn is_cut_line(alloc: Global, hashing: RandomState, lines: &[u8], room: usize) -> bool {
    let mut output = Vec::new(alloc);
    let mut said = Narrow::new(alloc, room, 0);
    let status = replay_run(alloc, hashing, b"{}", &mut output, &mut said);
    let is_cut = lines.get(..room) == Some(said.written.as_slice());
    status == 1 && output.is_empty() && is_cut
}

#[test]
fn fails_where_its_fault_cannot_be_told(rt: HostRuntime) -> Result<(), Fail> {
    let hashing = RandomState::new(&rt)?;
    let lines =
        b"flightd: BadSchedule\nflightd: `members` is missing or not a whole number from 1 to 7\n";
    for room in 0..=lines.len() {
        assert!(rt;
            is_cut_line(rt.alloc(), hashing, lines, room),
            "in {room} bytes"
        );
    }
    Ok(())
}

/// What is wrong with files that tell no schedule, as it is said of each.
const NO_SCHEDULES: [(&[u8], &str); 10] = [
    (b"{\"members\":3}\xff", "the file is not UTF-8"),
    (b"{\"members\":3", "the file is not one JSON value"),
    (
        b"{\"members\":8,\"slot_limit\":0}",
        "`members` is missing or not a whole number from 1 to 7",
    ),
    (
        b"{\"members\":3,\"slot_limit\":0}",
        "`slot_limit` is missing or not a whole number from 1 to 1,000,000",
    ),
    (
        b"{\"members\":3,\"slot_limit\":2,\"uploads\":{},\"events\":{}}",
        "`uploads` is missing or not an array",
    ),
    (
        b"{\"members\":3,\"slot_limit\":2,\"uploads\":[7]}",
        "`events` is missing or not an array",
    ),
    (
        b"{\"members\":3,\"slot_limit\":2,\"uploads\":[7],\"events\":[7]}",
        "upload 0 of `uploads` is not a valid upload",
    ),
    (
        b"{\"members\":3,\"slot_limit\":2,\"uploads\":[],\"events\":[[\"put\",0,0]]}",
        "event 0 of `events` is not an array of a word, a node's number and that word's arguments",
    ),
    (
        b"{\"members\":3,\"slot_limit\":2,\"uploads\":[],\"events\":[[\"restart\",0],[\"tick\",0,256],[\"x\"]]}",
        "event 1 of `events` is not an array of a word, a node's number and that word's arguments",
    ),
    (
        b"{\"members\":3,\"slot_limit\":2,\"uploads\":[],\"events\":[[\"restart\",0],[\"tick\",0,255],[]]}",
        "event 2 of `events` is not an array of a word, a node's number and that word's arguments",
    ),
];

#[test]
fn says_what_is_wrong_with_a_file(rt: HostRuntime) -> Result<(), Fail> {
    let alloc = rt.alloc();
    let hashing = RandomState::new(&rt)?;
    for (file, flaw) in NO_SCHEDULES {
        let mut output = Vec::new(alloc);
        let mut said = Vec::new(alloc);
        let status = replay_run(alloc, hashing, file, &mut output, &mut said);
        let lines = format!(in alloc; "flightd: BadSchedule\nflightd: {flaw}\n")?;
        assert!(rt; status == 1 && output.is_empty(), "{flaw}");
        assert!(rt; said.as_slice() == lines.as_bytes(), "{flaw}");
    }
    Ok(())
}
