//! Judgements of recorded runs into writers that fail.

use crate::streams::Narrow;
use audit_command::audit_run;
use std::alloc::Global;

/// Slot 0: nodes 0 and 1 promise ballot (1, 0) and nodes 1 and 2 promise (2, 1), at which node 1 proposes a Noop and
/// node 0 accepts it. Then node 0 proposes at (1, 0).
const OVERTAKEN: &str =
    r#"{"members":3,"sent":["08012801","08022801","080210012801","0801100128023001","0802100128023001","0802100228023001","0804100128023001","080528023001","08042801"]}"#;

/// And then it accepts that, below what it has accepted at (2, 1).
const ACCEPTED_BELOW: &str =
    r#"{"members":3,"sent":["08012801","08022801","080210012801","0801100128023001","0802100128023001","0802100228023001","0804100128023001","080528023001","08042801","08052801"]}"#;

/// Whether the audit of the file, whose line is this, fails into a writer of this room, with the line's first bytes gone
/// out. Where all of the line is taken, the flush fails.
fn is_lost(alloc: Global, file: &str, line: &str, room: usize) -> bool {
    let mut writer = Narrow::new(alloc, room, 0);
    let mut said = Vec::new(alloc);
    let status = audit_run(alloc, file.as_bytes(), &mut writer, &mut said);
    let is_cut = line.as_bytes().get(..room) == Some(writer.written.as_slice());
    status == 1 && is_cut && said.as_slice() == b"flightd: Io\n".as_slice()
}

#[test]
fn tells_a_judgement_that_is_lost(rt: HostRuntime) {
    for room in 0..=7 {
        assert!(rt;
            is_lost(rt.alloc(), OVERTAKEN, "lawful\n", room),
            "in {room} bytes"
        );
    }
    for room in 0..=9 {
        assert!(rt;
            is_lost(rt.alloc(), ACCEPTED_BELOW, "unlawful\n", room),
            "in {room} bytes"
        );
    }
}

/// Whether the audit of a file that tells no run fails where its lines' room is this, with the first bytes said.
fn is_cut_line(alloc: Global, lines: &[u8], room: usize) -> bool {
    let mut output = Vec::new(alloc);
    let mut said = Narrow::new(alloc, room, 0);
    let status = audit_run(alloc, b"{}", &mut output, &mut said);
    let is_cut = lines.get(..room) == Some(said.written.as_slice());
    status == 1 && output.is_empty() && is_cut
}

#[test]
fn fails_where_its_fault_cannot_be_said(rt: HostRuntime) {
    let lines =
        b"flightd: BadTrace\nflightd: `members` is missing or not a whole number from 1 to 7\n";
    for room in 0..=lines.len() {
        assert!(rt; is_cut_line(rt.alloc(), lines, room), "in {room} bytes");
    }
}

/// A judgement says nothing, so it needs no room.
#[test]
fn judges_where_nothing_can_be_said(rt: HostRuntime) {
    let mut output = Vec::new(rt.alloc());
    let mut said = Narrow::new(rt.alloc(), 0, 0);
    let status = audit_run(rt.alloc(), OVERTAKEN.as_bytes(), &mut output, &mut said);
    assert!(rt; status == 0);
    assert!(rt; output.as_slice() == b"lawful\n".as_slice());
}
