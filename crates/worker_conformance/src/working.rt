//! What a worker does in one step, over a workplace in memory.

use crate::fake::{Fake, Seen, UNREADABLE};
use crate::support::{Why, check, members, told};
use ballots::NodeId;
use node_worker::{End, Next, Note, Pace, WorkplaceFault, step};
use stable_records::StoreFault;
use std::alloc::Global;
use std::test::Fail;

// A workplace where these puts wait and the node meets this fault.
fn place(alloc: Global, puts: [Option<u64>; 4], fault: Option<WorkplaceFault>) -> Fake {
    Fake {
        seen: Vec::new(alloc),
        puts,
        fault,
    }
}

fn pace() -> Result<Pace, Why> {
    Ok(Pace::new(NodeId::new(1).ok_or("no node")?, members()?))
}

// What a step does that hears this note, where no time passes.
fn does(fake: &mut Fake, note: Note, seen: &[Seen]) -> Result<(), Why> {
    let next = step(fake, &mut pace()?, 0, Some(note));
    check(next == Next::Wait, "it is over")?;
    check(fake.seen.as_slice() == seen, "something else is done")
}

fn hands_and_tells(alloc: Global) -> Result<(), Why> {
    let told = [
        Seen::Delivered(4),
        Seen::Told(0, 7),
        Seen::Told(1, 7),
        Seen::Told(2, 7),
        Seen::Told(0, 8),
        Seen::Told(1, 8),
        Seen::Told(2, 8),
    ];
    let none = [None, None, None, None];
    does(&mut place(alloc, none, None), Note::Message(4), &told)?;
    does(
        &mut place(alloc, none, None),
        Note::Message(UNREADABLE),
        &[],
    )?;
    let refused = Some(WorkplaceFault::OutOfMemory);
    does(
        &mut place(alloc, none, refused),
        Note::Message(4),
        &told[..1],
    )
}

fn answers_what_was_entered(alloc: Global) -> Result<(), Why> {
    let mut fake = place(alloc, [Some(6), Some(2), None, Some(5)], None);
    let seen = [
        Seen::Entered(6),
        Seen::Settled(6, 60),
        Seen::Entered(2),
        Seen::Ended(2, End::JournalFull),
        Seen::Entered(5),
        Seen::Settled(5, 50),
    ];
    does(&mut fake, Note::Look, &seen)?;
    check(fake.puts == [None, None, None, None], "one waits still")
}

// Puts of which nothing is known wait on, and so the node is given a tick.
fn ticks_for_those_that_wait(alloc: Global) -> Result<(), Why> {
    let mut fake = place(
        alloc,
        [None, Some(1), Some(3), None],
        Some(WorkplaceFault::NotSent),
    );
    let seen = [
        Seen::Entered(1),
        Seen::Entered(3),
        Seen::Ticked(0),
        Seen::Entered(1),
        Seen::Entered(3),
    ];
    does(&mut fake, Note::Look, &seen)?;
    check(fake.puts == [None, Some(1), Some(3), None], "one is gone")
}

// How both puts end where the node meets this fault, which wait on where it ends none.
fn ends_by(alloc: Global, fault: WorkplaceFault, end: End) -> Result<(), Why> {
    let mut fake = place(alloc, [Some(1), None, None, Some(3)], Some(fault));
    let seen = [Seen::Delivered(4), Seen::Ended(1, end), Seen::Ended(3, end)];
    does(&mut fake, Note::Message(4), &seen)
}

fn ends_all(alloc: Global) -> Result<(), Why> {
    ends_by(alloc, WorkplaceFault::Down, End::Down)?;
    ends_by(alloc, WorkplaceFault::SlotsSpent, End::SlotsSpent)?;
    ends_by(alloc, WorkplaceFault::RoundsSpent, End::RoundsSpent)?;
    ends_by(alloc, WorkplaceFault::JournalFull, End::JournalFull)?;
    let device = StoreFault::Device;
    ends_by(alloc, WorkplaceFault::Store(device), End::Store(device))?;
    let damaged = End::Store(StoreFault::Damaged);
    ends_by(alloc, WorkplaceFault::Strange, damaged)?;
    ends_by(alloc, WorkplaceFault::Lost, damaged)
}

fn stops(alloc: Global) -> Result<(), Why> {
    let mut fake = place(alloc, [Some(1), Some(5), None, None], None);
    let next = step(&mut fake, &mut pace()?, 0, Some(Note::Stop));
    check(next == Next::End, "it goes on")?;
    let seen = [Seen::Ended(1, End::Down), Seen::Ended(5, End::Down)];
    check(
        fake.seen.as_slice() == seen.as_slice(),
        "something else is done",
    )
}

// Where nothing is heard a tick is due after 50 ms, then after 100 ms, since an Ask went out.
fn ticks_in_time(alloc: Global) -> Result<(), Why> {
    let mut fake = place(alloc, [None, None, None, None], None);
    let mut pace = pace()?;
    for waited in [49, 1, 50, 49, 1] {
        let _ = step(&mut fake, &mut pace, waited, None);
    }
    let ticks = fake.seen.iter().filter(|seen| **seen == Seen::Ticked(0));
    check(ticks.count() == 2, "another number of ticks")
}

fn all(alloc: Global) -> Result<(), Why> {
    hands_and_tells(alloc)?;
    answers_what_was_entered(alloc)?;
    ticks_for_those_that_wait(alloc)?;
    ends_all(alloc)?;
    stops(alloc)?;
    ticks_in_time(alloc)
}

#[test]
fn a_step_hands_tells_and_answers(rt: HostRuntime) -> Result<(), Fail> {
    told(all(rt.alloc()))
}
