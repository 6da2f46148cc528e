//! A journal that takes three entries: the fourth is refused, and changes nothing.

use crate::support::{
    Gave, check, config, deliver, journal, restart, seat, serve, take, ticket, upload,
};
use seats::{Query, SeatFault, SeatInput};
use stable_records::MemoryStable;
use std::hash::RandomState;
use std::test::Fail;

const FULL: Gave = Gave::Failed(SeatFault::JournalFull);

#[test]
fn a_full_journal_takes_no_entry(rt: HostRuntime) -> Result<(), Fail> {
    let alloc = rt.alloc();
    let config = config(3, 3)?;
    let mut journal = journal(alloc, config)?;
    let mut seat = seat(
        alloc,
        RandomState::new(&rt)?,
        0,
        config,
        MemoryStable::new(alloc),
    )?;
    assert!(rt;
        take(&mut seat, &mut journal, SeatInput::Put(upload(alloc, 1)?)) == Gave::Entered(0)
    );
    assert!(rt; take(&mut seat, &mut journal, SeatInput::Tick(0)) == Gave::Entered(1));
    assert!(rt; deliver(&mut seat, &mut journal, 0)? == Gave::Entered(2));
    let sent = journal.trace().sent().len();
    assert!(rt; journal.is_full() && sent == 2);
    assert!(rt; take(&mut seat, &mut journal, SeatInput::Tick(0)) == FULL);
    assert!(rt; deliver(&mut seat, &mut journal, 1)? == FULL);
    assert!(rt; serve(&mut seat, &mut journal, Query::Get(ticket(alloc, 1)?)) == FULL);
    assert!(rt; restart(&mut seat, &mut journal) == FULL);
    assert!(rt; journal.trace().steps().len() == 3 && journal.trace().sent().len() == sent);
    check(
        seat.agrees(&journal) && seat.node().is_ok(),
        "the seat is not as before",
    )
}
