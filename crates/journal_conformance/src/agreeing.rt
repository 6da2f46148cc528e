//! A seat and a journal that agree or not, and messages that the journal has or not.

use crate::support::{Gave, config, deliver, journal, restart, seat, serve, take, ticket, upload};
use ballots::{Body, Message};
use seats::{Query, SeatFault, SeatInput};
use stable_records::MemoryStable;
use std::hash::RandomState;
use std::test::Fail;

const STRANGE: Gave = Gave::Failed(SeatFault::Strange);

const NOT_SENT: Gave = Gave::Failed(SeatFault::NotSent);

#[test]
fn a_seat_of_another_journal_is_strange(rt: HostRuntime) -> Result<(), Fail> {
    let alloc = rt.alloc();
    let config = config(3, 100)?;
    let mut mine = journal(alloc, config)?;
    let mut other = journal(alloc, config)?;
    let mut seat = seat(
        alloc,
        RandomState::new(&rt)?,
        0,
        config,
        MemoryStable::new(alloc),
    )?;
    // Both are without an entry, so the seat agrees with either.
    assert!(rt; seat.agrees(&mine) && seat.agrees(&other));
    let put = SeatInput::Put(upload(alloc, 1)?);
    assert!(rt; take(&mut seat, &mut mine, put) == Gave::Entered(0));
    assert!(rt; seat.agrees(&mine) && !seat.agrees(&other));
    let put = SeatInput::Put(upload(alloc, 2)?);
    assert!(rt; take(&mut seat, &mut other, put) == STRANGE);
    assert!(rt; serve(&mut seat, &mut other, Query::Get(ticket(alloc, 1)?)) == STRANGE);
    assert!(rt; restart(&mut seat, &mut other) == STRANGE);
    assert!(rt; other.trace().steps().is_empty() && mine.trace().steps().len() == 1);
    assert!(rt; take(&mut seat, &mut mine, SeatInput::Tick(0)) == Gave::Entered(1));
    Ok(())
}

#[test]
fn seats_that_did_the_same_agree(rt: HostRuntime) -> Result<(), Fail> {
    let alloc = rt.alloc();
    let hashing = RandomState::new(&rt)?;
    let config = config(3, 100)?;
    let mut journal = journal(alloc, config)?;
    let mut other = crate::support::journal(alloc, config)?;
    let mut seat = seat(alloc, hashing, 0, config, MemoryStable::new(alloc))?;
    let mut twin = crate::support::seat(alloc, hashing, 0, config, MemoryStable::new(alloc))?;
    let put = SeatInput::Put(upload(alloc, 1)?);
    assert!(rt; take(&mut seat, &mut journal, put) == Gave::Entered(0));
    assert!(rt; !twin.agrees(&journal));
    let put = SeatInput::Put(upload(alloc, 1)?);
    assert!(rt; take(&mut twin, &mut other, put) == Gave::Entered(0));
    // By what their entries hold, each agrees with the other's journal.
    assert!(rt; twin.agrees(&journal) && seat.agrees(&other));
    assert!(rt; take(&mut twin, &mut journal, SeatInput::Tick(0)) == Gave::Entered(1));
    assert!(rt; take(&mut seat, &mut journal, SeatInput::Tick(0)) == STRANGE);
    Ok(())
}

#[test]
fn another_configuration_is_strange(rt: HostRuntime) -> Result<(), Fail> {
    let alloc = rt.alloc();
    let mut journal = journal(alloc, config(3, 100)?)?;
    let seat = seat(
        alloc,
        RandomState::new(&rt)?,
        0,
        config(3, 99)?,
        MemoryStable::new(alloc),
    );
    let mut seat = seat?;
    assert!(rt; take(&mut seat, &mut journal, SeatInput::Tick(0)) == STRANGE);
    Ok(())
}

#[test]
fn only_messages_of_the_journal_are_taken(rt: HostRuntime) -> Result<(), Fail> {
    let alloc = rt.alloc();
    let config = config(3, 100)?;
    let mut journal = journal(alloc, config)?;
    let mut seat = seat(
        alloc,
        RandomState::new(&rt)?,
        0,
        config,
        MemoryStable::new(alloc),
    )?;
    let put = SeatInput::Put(upload(alloc, 1)?);
    assert!(rt; take(&mut seat, &mut journal, put) == Gave::Entered(0));
    assert!(rt; take(&mut seat, &mut journal, SeatInput::Tick(0)) == Gave::Entered(1));
    let prepare = Box::new(alloc, journal.message(0).ok_or("no message")?.clone()?)?;
    // Under a number that has no message, and another message under a number that has one.
    let late = SeatInput::Deliver(1, (*prepare).clone()?);
    assert!(rt; take(&mut seat, &mut journal, late) == NOT_SENT);
    let ask = Message {
        sender: prepare.sender,
        slot: prepare.slot,
        body: Body::Ask,
    };
    assert!(rt; take(&mut seat, &mut journal, SeatInput::Deliver(0, ask)) == NOT_SENT);
    assert!(rt; journal.trace().steps().len() == 2 && journal.message(1).is_none());
    assert!(rt;
        take(
            &mut seat,
            &mut journal,
            SeatInput::Deliver(0, (*prepare).clone()?)
        ) == Gave::Entered(2)
    );
    assert!(rt; deliver(&mut seat, &mut journal, 0)? == Gave::Entered(3));
    Ok(())
}
