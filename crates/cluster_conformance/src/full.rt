//! A journal that has as many entries as it may have.

ghost use Rattle.std.specs.Prelude.{◌≡◌, []};

use crate::support::{Nodes, Why, check, had, three_up_to, ticket, told, upload};
use client_calls::call_put;
use flight_service::{
    Beginning, NoReceipts, OpenGate, OwnEntry, Patient, SeatFault, SeatInput, serve_connection,
};
use ghost_log::Opened;
use node_threads::{Query, Taken};
use std::alloc::Global;
use std::hash::RandomState;
use std::marker::Brand;
use std::sync::Wait;
use std::test::Fail;
use std::time::Clock;

/// The trailer of status 8 and the message `JournalFull` (docs/FORMATS.md, "Flight calls").
const FULL: &[u8] = &[
    0x80, 0, 0, 0, 0x0c, 0x08, 0x4a, 0x6f, 0x75, 0x72, 0x6e, 0x61, 0x6c, 0x46, 0x75, 0x6c, 0x6c,
];

// Fails where an input is not taken.
fn is_taken(taken: Result<Taken, SeatFault>) -> Result<(), Why> {
    match taken {
        Ok(taken) => {
            drop(taken);
            Ok(())
        }
        Err(_) => Err("an input is not taken"),
    }
}

// Fails where a call is not refused since the journal is full.
fn is_refused<T: Drop>(done: Result<T, SeatFault>) -> Result<(), Why> {
    match done {
        Ok(done) => {
            drop(done);
            Err("an entry behind the last")
        }
        Err(fault) => check(fault == SeatFault::JournalFull, "another fault"),
    }
}

// An upload, a tick and the message that it sends are as many entries as the journal may have.
fn fills<R: Wait, J: Beginning>(
    rt: &R,
    alloc: Global,
    nodes: &Nodes<J, OpenGate>,
) -> Result<(), Why> {
    let upload = upload(alloc, 1)?;
    is_taken(nodes.take_input(rt, 0, SeatInput::Put(upload)))?;
    is_taken(nodes.take_input(rt, 0, SeatInput::Tick(0)))?;
    is_taken(nodes.cluster().deliver(rt, &OpenGate, 0, 0))
}

// Each further input, and each query, is refused.
fn refuses<R: Wait, J: Beginning>(
    rt: &R,
    alloc: Global,
    nodes: &Nodes<J, OpenGate>,
) -> Result<(), Why> {
    is_refused(nodes.take_input(rt, 0, SeatInput::Tick(0)))?;
    is_refused(nodes.cluster().deliver(rt, &OpenGate, 1, 0))?;
    let ticket = ticket(alloc, 1)?;
    is_refused(nodes.cluster().ask(rt, &OpenGate, 0, Query::Get(ticket)))
}

// A client's upload over bytes is answered by the trailer alone.
fn answers<R: Wait + Clock, J: Beginning>(
    rt: &R,
    alloc: Global,
    nodes: &Nodes<J, OpenGate>,
) -> Result<(), Why> {
    let upload = had(Box::new(alloc, upload(alloc, 2)?))?;
    let (mut request, mut answer) = (Vec::new(alloc), Vec::new(alloc));
    let mut nothing: &[u8] = &[];
    drop(call_put(alloc, &mut nothing, &mut request, &upload));
    let mut input = request.as_slice();
    let served = serve_connection(
        alloc,
        rt,
        nodes,
        &NoReceipts,
        &Patient,
        0,
        &[],
        &mut input,
        &mut answer,
    );
    check(served.is_ok(), "a call is not served")?;
    check(answer.as_slice() == FULL, "another answer")?;
    check(!nodes.waits(rt, 0), "an upload waits that was refused")
}

// How many entries and messages the journal has.
fn counts<R: Wait, J: Beginning>(rt: &R, nodes: &Nodes<J, OpenGate>) -> (u64, u64) {
    let journal = nodes.cluster().journal().lock(rt);
    (journal.step_count(), journal.sent_count())
}

fn plays<R: Wait + Clock, J: Beginning>(
    rt: &R,
    alloc: Global,
    hashing: RandomState,
    log: Opened<OwnEntry>,
) -> Result<(), Why>
    requires named { log ≡ J.book }
    requires start { J.start ≡ [] }
{
    let (nodes, notes) = three_up_to::<R, J, OpenGate>(rt, alloc, hashing, log, OpenGate, 3)?;
    drop(notes);
    fills(rt, alloc, &nodes)?;
    let full = counts(rt, &nodes);
    check(full.0 == 3, "another number of entries")?;
    refuses(rt, alloc, &nodes)?;
    answers(rt, alloc, &nodes)?;
    check(counts(rt, &nodes) == full, "a full journal grows")
}

#[test]
fn a_full_journal_answers_a_put_by_its_name(rt: HostRuntime) -> Result<(), Fail> {
    told(plays::<_, Brand>(&rt, rt.alloc(), RandomState::new(&rt)?, Opened::new()))
}
