//! Records of three nodes, worked by hand, and some thousands of slots.
//!
//! A record of an acceptance is written as four characters: the slot, the ballot's round and its node, and the value. A
//! value `-` is a Noop; a letter is an upload that has it as its id, up to `m` to the table `t` and behind it to the
//! table `u`.

use ballots::{Acceptance, Ballot, Members, NodeId, Record, Slot, UploadBytes, Value};
use folder_report::{FolderReport, ReportFault, SlotState, report_of, write_report};
use header_types::{Field, Schema, Ty};
use std::alloc::{AllocError, Global};
use std::hash::RandomState;
use uploads::Upload;

// The number that the digit shows.
fn number(digit: u8) -> u8 {
    digit.wrapping_sub(b'0')
}

fn ballot(round: u32, node: u8) -> Option<Ballot> {
    Ballot::new(round, NodeId::new(node)?)
}

// A schema of one column of Binary.
fn schema(alloc: Global) -> Result<Schema, AllocError> {
    let field = Field {
        name: String::from_str(alloc, "a")?,
        nullable: true,
        ty: Ty::Binary,
        children: Vec::new(alloc),
        metadata: Vec::new(alloc),
    };
    let mut fields = Vec::new(alloc);
    fields.push(field)?;
    let metadata = Vec::new(alloc);
    Ok(Schema { fields, metadata })
}

// The upload of this letter.
fn upload(alloc: Global, letter: u8) -> Option<Value> {
    let table = if letter <= b'm' { "t" } else { "u" };
    let schema = schema(alloc).ok()?;
    let upload = Upload::new(alloc, table, [letter; 16], &schema, &[]).ok()?;
    let bytes = UploadBytes::new(upload.into_bytes())?;
    Some(Value::Upload(bytes))
}

fn value(alloc: Global, letter: u8) -> Option<Value> {
    match letter {
        b'-' => Some(Value::Noop),
        _ => upload(alloc, letter),
    }
}

// The record of these four characters.
fn accepted(alloc: Global, row: [u8; 4]) -> Option<Record> {
    let [at, round, node, letter] = row;
    let slot = Slot::new(u32::from(number(at)))?;
    let ballot = ballot(u32::from(number(round)), number(node))?;
    let value = value(alloc, letter)?;
    Some(Record::Accepted(slot, Acceptance { ballot, value }))
}

// The records of a node: a promise for a slot of its own, those of the row, and a promise of all slots from slot 1 on.
fn node_records(alloc: Global, row: &[[u8; 4]]) -> Option<Vec<Record>> {
    let mut records = Vec::new(alloc);
    let promised = Record::Promised(Slot::new(9)?, ballot(1, 0)?);
    records.push(promised).ok()?;
    for place in 0..row.len() {
        records.push(accepted(alloc, row[place])?).ok()?;
    }
    let promised = Record::PromisedFrom(Slot::new(1)?, ballot(3, 2)?);
    records.push(promised).ok()?;
    Some(records)
}

// The report of three nodes with these records.
fn report_of_three(
    rt: &HostRuntime,
    records: &[Vec<Record>; 3],
) -> Option<Result<FolderReport, ReportFault>> {
    let members = Members::new(3)?;
    let hashing = RandomState::new(rt).ok()?;
    Some(report_of(rt.alloc(), hashing, members, records))
}

// The report of three nodes with the records of these rows.
fn report_of_rows(
    rt: &HostRuntime,
    first: &[[u8; 4]],
    second: &[[u8; 4]],
    third: &[[u8; 4]],
) -> Option<Result<FolderReport, ReportFault>> {
    let alloc = rt.alloc();
    let records = [
        node_records(alloc, first)?,
        node_records(alloc, second)?,
        node_records(alloc, third)?,
    ];
    report_of_three(rt, &records)
}

// Whether these lines are written of the report.
fn is_written(alloc: Global, report: &FolderReport, lines: &str) -> bool {
    let mut text = Vec::new(alloc);
    let written = write_report(alloc, report, &mut text);
    written.is_ok() && text.as_slice() == lines.as_bytes()
}

// Whether of three nodes with the records of these rows these lines are told.
fn tells(
    rt: &HostRuntime,
    first: &[[u8; 4]],
    second: &[[u8; 4]],
    third: &[[u8; 4]],
    lines: &str,
) -> bool {
    match report_of_rows(rt, first, second, third) {
        Some(Ok(report)) => is_written(rt.alloc(), &report, lines),
        _ => false,
    }
}

// Of promises alone, also of all slots from slot 1 on, there is none.
#[test]
fn nothing_is_served_of_nothing(rt: HostRuntime) {
    assert!(rt; tells(&rt, &[], &[], &[], "slots 0\n"));
}

#[test]
fn a_table_has_two_uploads(rt: HostRuntime) {
    let lines = "slots 2\ntable t version 2\n";
    assert!(rt; tells(&rt, &[*b"010a", *b"110b"], &[*b"010a"], &[*b"110b"], lines));
}

// Slot 0 has nothing, and slot 3 the upload of slot 2 once more.
#[test]
fn tables_stand_in_the_order_of_their_first_uploads(rt: HostRuntime) {
    let first = [*b"010-", *b"110z", *b"210a", *b"310a"];
    let third = [*b"310a", *b"210a", *b"110z", *b"010-"];
    let lines = "slots 4\ntable u version 1\ntable t version 1\n";
    assert!(rt; tells(&rt, &first, &[], &third, lines));
}

#[test]
fn a_slot_that_one_node_accepted_is_undecided(rt: HostRuntime) {
    let lines = "slots 1\ntable t version 1\nslot 1 undecided\n";
    assert!(rt; tells(&rt, &[*b"010a"], &[*b"010a"], &[*b"110b"], lines));
}

#[test]
fn a_majority_at_two_ballots_is_none(rt: HostRuntime) {
    let lines = "slots 0\nslot 0 undecided\n";
    assert!(rt; tells(&rt, &[*b"010a"], &[*b"021a"], &[], lines));
}

#[test]
fn a_slot_behind_a_gap_waits(rt: HostRuntime) {
    let first = [*b"010a", *b"410b", *b"310c"];
    let second = [*b"010a", *b"221c", *b"310c"];
    let lines =
        "slots 1\ntable t version 1\nslot 2 undecided\nslot 3 decided, and served once the slots before it are\nslot 4 undecided\n";
    assert!(rt; tells(&rt, &first, &second, &[*b"310c"], lines));
}

#[test]
fn two_values_at_one_ballot_differ(rt: HostRuntime) {
    let told = report_of_rows(&rt, &[*b"010a", *b"110a"], &[*b"010a"], &[*b"110b"]);
    let fault = told.and_then(Result::err);
    assert!(rt; fault.is_some() && fault == Slot::new(1).map(ReportFault::Differ));
}

// Records of so many slots without slot 2500, from the last slot on where they fall.
fn many_records(alloc: Global, slots: u32, falling: bool) -> Option<Vec<Record>> {
    let mut records = Vec::new(alloc);
    let ballot = ballot(1, 0)?;
    for place in 0..slots {
        let number = if falling { slots - 1 - place } else { place };
        let slot = Slot::new(number)?;
        let value = Value::Noop;
        if number != 2500 {
            let kept = Record::Accepted(slot, Acceptance { ballot, value });
            records.push(kept).ok()?;
        }
    }
    Some(records)
}

// Whether the slots behind slot 2500 wait, in order.
fn wait(report: &FolderReport) -> bool {
    for place in 0..report.slots.len() {
        let told = report.slots[place];
        if told.slot.number() as usize != place.wrapping_add(2501) {
            return false;
        }
        if told.state != SlotState::Waiting {
            return false;
        }
    }
    report.slots.len() == 2499
}

// The report of thousands of slots.
fn report_of_many(rt: &HostRuntime) -> Option<Result<FolderReport, ReportFault>> {
    let alloc = rt.alloc();
    let records = [
        many_records(alloc, 5000, true)?,
        Vec::new(alloc),
        many_records(alloc, 5000, false)?,
    ];
    report_of_three(rt, &records)
}

#[test]
fn thousands_of_slots_wait(rt: HostRuntime) {
    let waits = match report_of_many(&rt) {
        Some(Ok(report)) => report.decided == 2500 && wait(&report),
        _ => false,
    };
    assert!(rt; waits);
}
