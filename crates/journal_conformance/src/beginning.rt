//! Seats that begin over a node, and what a journal shows of nodes that started with nothing.

ghost use Rattle.std.specs.Prelude.{◌≡◌, []};

use crate::from_nothing::{is_shown, steps_of};
use crate::support::{Gave, config, deliver, journal, restart, seat, take, upload};
use agreement::AgreementConfig;
use ballots::NodeId;
use schedule_runner::Config;
use seats::{Beginning, Seat, SeatFault, SeatInput};
use stable_records::MemoryStable;
use std::alloc::Global;
use std::hash::RandomState;
use std::test::Fail;
use stored_nodes::StoredNode;

/// The seat of the member of this number that begins over a node that was opened.
fn begun<J: Beginning>(
    alloc: Global,
    hashing: RandomState,
    number: u8,
    config: Config,
) -> Result<Box<Seat<MemoryStable, J>>, Fail>
    requires { J.start ≡ [] }
{
    let me = NodeId::new(number).ok_or("no node")?;
    if !config.is_within_limits() || number >= config.members.count() {
        return Err(Fail::from("no member of a configuration"));
    }
    let agreed = AgreementConfig::new(config.members, config.slot_limit).ok_or("no configuration")?;
    match StoredNode::open(alloc, hashing, me, agreed, MemoryStable::new(alloc)) {
        Ok(Some(node)) => Ok(Box::new(alloc, Seat::begin(alloc, config, node))?),
        _ => Err(Fail::from("no node is opened")),
    }
}

#[test]
fn a_seat_begins_as_one_that_is_opened(rt: HostRuntime) -> Result<(), Fail> {
    let alloc = rt.alloc();
    let hashing = RandomState::new(&rt)?;
    let config = config(3, 100)?;
    let mut one = journal(alloc, config)?;
    let mut other = journal(alloc, config)?;
    let mut begun = begun(alloc, hashing, 1, config)?;
    let mut opened = seat(alloc, hashing, 1, config, MemoryStable::new(alloc))?;
    assert!(rt; begun.me() == opened.me() && begun.config() == config && begun.node().is_ok());
    assert!(rt; is_shown(&begun, &one) && is_shown(&opened, &other));
    let put = SeatInput::Put(upload(alloc, 1)?);
    assert!(rt; take(&mut begun, &mut one, put) == Gave::Entered(0));
    let put = SeatInput::Put(upload(alloc, 1)?);
    assert!(rt; take(&mut opened, &mut other, put) == Gave::Entered(0));
    assert!(rt; take(&mut begun, &mut one, SeatInput::Tick(0)) == Gave::Entered(1));
    assert!(rt; take(&mut opened, &mut other, SeatInput::Tick(0)) == Gave::Entered(1));
    assert!(rt; deliver(&mut begun, &mut one, 0)? == Gave::Entered(2));
    assert!(rt; deliver(&mut opened, &mut other, 0)? == Gave::Entered(2));
    assert!(rt; steps_of(&one).sent() == steps_of(&other).sent());
    // By what their entries hold, each is shown by the other's journal.
    assert!(rt; is_shown(&begun, &other) && is_shown(&opened, &one));
    Ok(())
}

#[test]
fn a_journal_shows_who_has_its_entries(rt: HostRuntime) -> Result<(), Fail> {
    let alloc = rt.alloc();
    let hashing = RandomState::new(&rt)?;
    let config = config(3, 100)?;
    let mut journal = journal(alloc, config)?;
    let mut seat = begun(alloc, hashing, 0, config)?;
    let mut twin = begun(alloc, hashing, 0, config)?;
    assert!(rt; steps_of(&journal).steps().is_empty() && steps_of(&journal).sent().is_empty());
    let put = SeatInput::Put(upload(alloc, 1)?);
    assert!(rt; take(&mut seat, &mut journal, put) == Gave::Entered(0));
    assert!(rt; steps_of(&journal).steps().len() == 1);
    assert!(rt; is_shown(&seat, &journal) && !is_shown(&twin, &journal));
    let tick = SeatInput::Tick(0);
    assert!(rt; take(&mut twin, &mut journal, tick) == Gave::Failed(SeatFault::Strange));
    assert!(rt; restart(&mut seat, &mut journal) == Gave::Entered(1));
    assert!(rt; is_shown(&seat, &journal) && steps_of(&journal).steps().len() == 2);
    Ok(())
}
