//! Connections to three nodes, one step after the other.

ghost use Rattle.std.specs.Prelude.{◌≡◌, []};

use crate::support::{Nodes, Why, check, had, three, ticket, told, upload};
use call_protocol::BackFault;
use client_calls::call_info;
use flight_calls::Backend;
use flight_service::{
    AllReceipts, Beginning, Caller, ClusterBackend, OpenGate, OwnEntry, Patient, SeatFault,
    SeatInput, serve_connection,
};
use ghost_log::Opened;
use std::alloc::Global;
use std::hash::RandomState;
use std::marker::Brand;
use std::sync::Wait;
use std::test::Fail;
use std::time::Clock;
use table_versions::{Answer, Outcome};

/// More messages than an upload takes.
const MANY: u64 = 100;

/// A caller that leaves as soon as it is asked.
struct Leaving;

impl Caller for Leaving {
    ghost may_leave = { Unit {0} };

    fn leaves(&self, _waited: u64) -> bool {
        true
    }
}

// Gives the node a tick, and hands each message that is sent then on to each node, until no more are sent.
fn decide<R: Wait, J: Beginning>(rt: &R, nodes: &Nodes<J, OpenGate>) -> Result<(), Why> {
    let journal = nodes.cluster().journal().lock(rt);
    let first = journal.sent_count();
    drop(journal);
    match nodes.take_input(rt, 0, SeatInput::Tick(0)) {
        Ok(taken) => drop(taken),
        Err(_) => return Err("a tick is not taken"),
    }
    for number in first..first.saturating_add(MANY) {
        for node in 0..3 {
            match nodes.cluster().deliver(rt, &OpenGate, node, number) {
                Ok(taken) => drop(taken),
                Err(SeatFault::NotSent) => return Ok(()),
                Err(_) => return Err("a message is not taken"),
            }
        }
    }
    Err("messages without end")
}

// What a connection to this node is answered to the ticket for this version.
fn got<R: Wait + Clock, J: Beginning>(
    rt: &R,
    alloc: Global,
    nodes: &Nodes<J, OpenGate>,
    receipts: &AllReceipts,
    node: usize,
    version: u64,
) -> Result<Result<Answer, BackFault>, Why> {
    let ticket = ticket(alloc, version)?;
    let mut backend = ClusterBackend::new(alloc, rt, nodes, receipts, &Patient, node, &[]);
    Ok(backend.get(alloc, &ticket))
}

// An upload is put and decided.
fn puts<R: Wait + Clock, J: Beginning>(
    rt: &R,
    alloc: Global,
    nodes: &Nodes<J, OpenGate>,
    receipts: &AllReceipts,
) -> Result<(), Why> {
    let upload = had(Box::new(alloc, upload(alloc, 1)?))?;
    let mut backend = ClusterBackend::new(alloc, rt, nodes, receipts, &Patient, 0, &[]);
    let is_unknown = matches!(backend.outcome(&upload), Err(BackFault::Unavailable));
    let is_put = backend.put(&upload).is_ok();
    let decided = decide(rt, nodes);
    nodes.settle_all(rt, 0);
    let is_applied = matches!(backend.outcome(&upload), Ok(Outcome::Applied(1)));
    drop(backend);
    drop(upload);
    decided?;
    check(is_unknown, "an outcome of what was not put")?;
    check(is_put, "a put fails")?;
    check(is_applied, "another outcome")
}

// The caller of a second put leaves before it is decided: the upload waits no more, and is decided even so.
fn leaves<R: Wait + Clock, J: Beginning>(
    rt: &R,
    alloc: Global,
    nodes: &Nodes<J, OpenGate>,
    receipts: &AllReceipts,
) -> Result<(), Why> {
    let upload = had(Box::new(alloc, upload(alloc, 2)?))?;
    let mut backend = ClusterBackend::new(alloc, rt, nodes, receipts, &Leaving, 0, &[]);
    let is_put = backend.put(&upload).is_ok();
    let is_waiting = nodes.waits(rt, 0);
    let is_left = matches!(backend.outcome(&upload), Err(BackFault::Unavailable));
    drop(backend);
    drop(upload);
    check(is_put, "a second put fails")?;
    check(is_waiting, "an upload does not wait")?;
    check(is_left, "who leaves has an outcome")?;
    check(!nodes.waits(rt, 0), "an upload waits whose caller has left")?;
    decide(rt, nodes)?;
    check(
        got(rt, alloc, nodes, receipts, 1, 2)?.is_ok(),
        "the second upload is not decided",
    )
}

// What this node answers to the ticket for the first version.
fn first_version<R: Wait + Clock, J: Beginning>(
    rt: &R,
    alloc: Global,
    nodes: &Nodes<J, OpenGate>,
    receipts: &AllReceipts,
    node: usize,
) -> Result<Box<Answer>, Why> {
    let answer = had(got(rt, alloc, nodes, receipts, node, 1)?)?;
    had(Box::new(alloc, answer))
}

// Each node is asked for the upload, and for versions that it has not.
fn gets<R: Wait + Clock, J: Beginning>(
    rt: &R,
    alloc: Global,
    nodes: &Nodes<J, OpenGate>,
    receipts: &AllReceipts,
) -> Result<(), Why> {
    let first = first_version(rt, alloc, nodes, receipts, 0)?;
    let second = first_version(rt, alloc, nodes, receipts, 1)?;
    let third = first_version(rt, alloc, nodes, receipts, 2)?;
    let is_one = *first == *second && *second == *third;
    drop(first);
    drop(second);
    drop(third);
    check(is_one, "answers differ")?;
    check(
        matches!(
            got(rt, alloc, nodes, receipts, 0, 2)?,
            Err(BackFault::Unavailable)
        ),
        "there is a second version",
    )?;
    check(
        matches!(got(rt, alloc, nodes, receipts, 3, 1)?, Err(BackFault::Down)),
        "there is a fourth node",
    )
}

// Whether the table is described as it is, and its schema is the same by itself.
fn describes_the_table<R: Wait + Clock, J: Beginning>(
    rt: &R,
    alloc: Global,
    nodes: &Nodes<J, OpenGate>,
    receipts: &AllReceipts,
    locations: &[String],
) -> bool {
    let mut backend = ClusterBackend::new(alloc, rt, nodes, receipts, &Patient, 1, locations);
    match (backend.info(alloc, "t"), backend.schema(alloc, "t")) {
        (Ok(found), Ok(schema)) => {
            found.info.version == 1
                && found.locations.as_slice() == locations
                && schema == found.info.schema
        }
        _ => false,
    }
}

// What is told of the table, and of all tables.
fn describes<R: Wait + Clock, J: Beginning>(
    rt: &R,
    alloc: Global,
    nodes: &Nodes<J, OpenGate>,
    receipts: &AllReceipts,
) -> Result<(), Why> {
    let mut locations = Vec::new(alloc);
    had(locations.push(had(String::from_str(alloc, "plain+tcp://127.0.0.1:42000"))?))?;
    let is_described = describes_the_table(rt, alloc, nodes, receipts, &locations);
    let mut backend = ClusterBackend::new(alloc, rt, nodes, receipts, &Patient, 1, &locations);
    let is_listed = match backend.list(alloc) {
        Ok(all) => all.len() == 1,
        Err(_) => false,
    };
    let is_alone = matches!(backend.info(alloc, "u"), Err(BackFault::NoTable));
    drop(backend);
    check(is_described, "another table")?;
    check(is_listed, "another list")?;
    check(is_alone, "there is another table")
}

// A client's request over bytes, and the answer.
fn answers<R: Wait + Clock, J: Beginning>(
    rt: &R,
    alloc: Global,
    nodes: &Nodes<J, OpenGate>,
    receipts: &AllReceipts,
) -> Result<(), Why> {
    let mut request = Vec::new(alloc);
    let mut nothing: &[u8] = &[];
    drop(call_info(alloc, &mut nothing, &mut request, "t"));
    let mut input = request.as_slice();
    let mut answer = Vec::new(alloc);
    let served = serve_connection(
        alloc,
        rt,
        nodes,
        receipts,
        &Patient,
        2,
        &[],
        &mut input,
        &mut answer,
    );
    check(served.is_ok(), "a call is not served")?;
    let mut output = answer.as_slice();
    let mut unread = Vec::new(alloc);
    match call_info(alloc, &mut output, &mut unread, "t") {
        Ok(info) => check(info.ordered, "another info"),
        Err(_) => Err("no info"),
    }
}

fn plays<R: Wait + Clock, J: Beginning>(
    rt: &R,
    alloc: Global,
    hashing: RandomState,
    log: Opened<OwnEntry>,
) -> Result<(), Why>
    requires named { log ≡ J.book }
    requires start { J.start ≡ [] }
{
    let (nodes, notes) = three::<R, J, OpenGate>(rt, alloc, hashing, log, OpenGate)?;
    drop(notes);
    let receipts = AllReceipts::new(alloc);
    puts(rt, alloc, &nodes, &receipts)?;
    gets(rt, alloc, &nodes, &receipts)?;
    describes(rt, alloc, &nodes, &receipts)?;
    answers(rt, alloc, &nodes, &receipts)?;
    leaves(rt, alloc, &nodes, &receipts)?;
    let journal = nodes.cluster().journal().lock(rt);
    check(
        receipts.are_confirmed(rt, &journal),
        "a receipt is not confirmed",
    )
}

#[test]
fn a_connection_puts_and_gets(rt: HostRuntime) -> Result<(), Fail> {
    told(plays::<_, Brand>(&rt, rt.alloc(), RandomState::new(&rt)?, Opened::new()))
}
