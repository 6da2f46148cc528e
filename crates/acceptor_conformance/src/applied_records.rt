//! Records that are applied one by one, where room was made for each: the last step that memory can be refused to. Run with
//! every allocation refused in turn, the test ends as before or for want of memory.

ghost use Rattle.std.specs.Prelude.{◌<◌, OnOk};

use crate::support::slot;
use crate::told::{Told, are_left, record};
use acceptor::Acceptor;
use std::test::Fail;

const NUMBERS: [u32; 10] = [0, 1, 2, 3, 4, 5, 6, 7, 999_998, 999_999];

const RECORDS: [Told; 9] = [
    Told::PromisedFrom(3, 4),
    Told::Promised(1, 2),
    Told::PromisedFrom(5, 6),
    Told::PromisedFrom(0, 3),
    Told::Accepted(6, 7),
    Told::PromisedFrom(2, 5),
    Told::PromisedFrom(4, 5),
    Told::PromisedFrom(999_999, 1),
    Told::PromisedFrom(1, 8),
];

// Makes room for a record. Where memory is refused, the slots are as these records left them, and it asks again.
fn make_room(acceptor: &mut Acceptor, before: &[Told]) -> Result<(), Fail>
    ensures { OnOk result (0 < acceptor.new.room) }
{
    match acceptor.make_room(slot(0)?) {
        Ok(()) => Ok(()),
        Err(_) => {
            if !are_left(acceptor, before, &NUMBERS)? {
                return Err(Fail::from("changed"));
            }
            acceptor.make_room(slot(0)?)?;
            Ok(())
        }
    }
}

// Whether the record, applied behind those before, leaves what all of them leave.
fn is_applied(acceptor: &mut Acceptor, list: &[Told], place: usize) -> Result<bool, Fail> {
    if place >= list.len() {
        return Ok(false);
    }
    let next = record(list[place])?;
    make_room(acceptor, &list[..place])?;
    acceptor.apply(next);
    are_left(acceptor, &list[..place + 1], &NUMBERS)
}

#[test]
fn records_are_applied_without_memory(rt: HostRuntime) -> Result<(), Fail> {
    let mut acceptor = Acceptor::new(rt.alloc());
    for place in 0..9 {
        assert!(rt; is_applied(&mut acceptor, &RECORDS, place)?, "at {place}");
    }
    Ok(())
}
