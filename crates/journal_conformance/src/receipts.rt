//! Receipts that a journal confirms, and such as it does not.

use crate::support::{check, config, journal, seat, serve_in, take_in, ticket, upload};
use node_events::{Event, EventResult};
use seats::{Journal, Query, Receipt, Seat, SeatFault, SeatInput};
use stable_records::MemoryStable;
use std::alloc::Global;
use std::hash::RandomState;
use std::test::Fail;
use table_versions::Outcome;

fn got(alloc: Global, given: Result<Receipt, SeatFault>) -> Result<Box<Receipt>, Fail> {
    match given {
        Ok(receipt) => Ok(Box::new(alloc, receipt)?),
        Err(_) => Err(Fail::from("no receipt")),
    }
}

// The receipt of this number that says this outcome of the upload.
fn told(
    alloc: Global,
    number: u64,
    upload_number: u64,
    outcome: Outcome,
) -> Result<Box<Receipt>, Fail> {
    let event = Event::Outcome(0, upload(alloc, upload_number)?);
    let answer = EventResult::Outcome(outcome);
    Ok(Box::new(
        alloc,
        Receipt {
            number,
            event,
            answer,
        },
    )?)
}

// Whether the journal confirms it.
fn confirms(
    alloc: Global,
    journal: &Journal,
    number: u64,
    upload_number: u64,
    outcome: Outcome,
) -> Result<bool, Fail> {
    let told = told(alloc, number, upload_number, outcome)?;
    Ok(journal.confirm(&told))
}

// The journal confirms of the second entry what it has, and nothing else.
fn confirms_the_second(alloc: Global, journal: &Journal) -> Result<(), Fail> {
    let unknown = Outcome::Unknown;
    check(
        !confirms(alloc, journal, 2, 1, unknown)?,
        "of another entry",
    )?;
    check(!confirms(alloc, journal, 3, 1, unknown)?, "of no entry")?;
    check(
        !confirms(alloc, journal, 1, 2, unknown)?,
        "of another upload",
    )?;
    check(
        !confirms(alloc, journal, 1, 1, Outcome::Applied(1))?,
        "of another outcome",
    )?;
    check(
        confirms(alloc, journal, 1, 1, unknown)?,
        "it is not confirmed",
    )
}

// Whether one that says another number meets this one, or is met by it.
fn meets(alloc: Global, journal: &Journal, other: &Receipt) -> Result<bool, Fail> {
    let late = told(alloc, 2, 1, Outcome::Unknown)?;
    Ok(journal.meet(&late, other) || journal.meet(other, &late))
}

// The receipts of a put, of a query for its outcome, and of a version that there is not.
fn three_receipts(
    alloc: Global,
    seat: &mut Seat<MemoryStable>,
    journal: &mut Journal,
) -> Result<(Box<Receipt>, Box<Receipt>, Box<Receipt>), Fail> {
    let put = got(
        alloc,
        take_in(seat, journal, SeatInput::Put(upload(alloc, 1)?)),
    )?;
    let asked = Query::Outcome(upload(alloc, 1)?);
    let told = got(alloc, serve_in(seat, journal, asked))?;
    let none = got(
        alloc,
        serve_in(seat, journal, Query::Get(ticket(alloc, 1)?)),
    )?;
    Ok((put, told, none))
}

#[test]
fn a_changed_receipt_is_not_confirmed(rt: HostRuntime) -> Result<(), Fail> {
    let alloc = rt.alloc();
    let config = config(3, 100)?;
    let hashing = RandomState::new(&rt)?;
    let mut journal = journal(alloc, config)?;
    let mut seat = seat(alloc, hashing, 0, config, MemoryStable::new(alloc))?;
    let (put, told, none) = three_receipts(alloc, &mut seat, &mut journal)?;
    assert!(rt; journal.confirm(&put) && journal.confirm(&told) && journal.confirm(&none));
    assert!(rt; journal.meet(&told, &none) && journal.meet(&none, &put));
    assert!(rt; !meets(alloc, &journal, &none)?);
    confirms_the_second(alloc, &journal)
}
