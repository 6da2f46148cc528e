//! Calls of a cluster and of its running nodes, and what each returns.

use crate::support::{Why, had, ticket, upload};
use ballots::Message;
use node_threads::{Beginning, Cluster, OpenGate, Query, Retention, Running, SeatFault, SeatInput};
use stable_records::Stable;
use std::alloc::{AllocError, Global};
use std::sync::Wait;

/// A call at a node: the first eight of `Cluster`, the others of `Running`.
#[derive(Clone, Copy)]
pub(crate) enum Call {
    /// `take` of the upload of this number.
    TakePut(u64),
    /// `take` of a tick that leaves this number of slots to others.
    TakeTick(u8),
    /// `take` of a copy of the journal's first message, as the one of this number.
    TakeFirst(u64),
    /// `deliver` of the message of this number.
    Deliver(u64),
    /// `ask` for the first version.
    Ask,
    /// `get` of the first version.
    Get,
    /// `settle` of the upload of this number.
    Settle(u64),
    /// `restart`.
    Restart,
    /// `put` of the upload of this number. Nobody waits for its end.
    Put(u64),
    /// `take_input` of a tick.
    TakeInput,
    /// `get` of the first version.
    RunningGet,
    /// `restart`.
    RunningRestart,
}

/// What a call returned, in short.
#[derive(Clone, Copy, PartialEq, Eq)]
pub(crate) enum Gave {
    /// It was done.
    Done,
    /// It was done, and there is nothing to report.
    Nothing,
    /// It failed.
    Failed(SeatFault),
}

/// The call's name, for whoever reads why a test fails.
pub(crate) fn name_of(call: Call) -> &'static str {
    match call {
        Call::TakePut(_) => "Cluster::take of a put",
        Call::TakeTick(_) => "Cluster::take of a tick",
        Call::TakeFirst(_) => "Cluster::take of a message",
        Call::Deliver(_) => "Cluster::deliver",
        Call::Ask => "Cluster::ask",
        Call::Get => "Cluster::get",
        Call::Settle(_) => "Cluster::settle",
        Call::Restart => "Cluster::restart",
        Call::Put(_) => "Running::put",
        Call::TakeInput => "Running::take_input",
        Call::RunningGet => "Running::get",
        Call::RunningRestart => "Running::restart",
    }
}

// What a call returned whose answer is dropped.
fn what_came<T: Drop>(given: Result<T, SeatFault>) -> Gave {
    match given {
        Ok(answer) => {
            drop(answer);
            Gave::Done
        }
        Err(fault) => Gave::Failed(fault),
    }
}

// What a call returned that may find nothing.
fn what_was_found<T: Drop>(given: Result<Option<T>, SeatFault>) -> Gave {
    match given {
        Ok(Some(found)) => {
            drop(found);
            Gave::Done
        }
        Ok(None) => Gave::Nothing,
        Err(fault) => Gave::Failed(fault),
    }
}

// A copy of the journal's first message.
fn first_message<R: Wait, S: Stable + Drop, J: Beginning, M: Retention>(
    rt: &R,
    cluster: &Cluster<3, S, J, M>,
) -> Result<Message, Why> {
    let journal = cluster.journal().lock(rt);
    let message = journal.message(0).ok_or("no message")?;
    let copy: Result<Message, AllocError> = message.clone();
    had(copy)
}

// The input that the call hands to its node, `None` where it hands it none.
fn input_of<R: Wait, S: Stable + Drop, J: Beginning, M: Retention>(
    rt: &R,
    alloc: Global,
    cluster: &Cluster<3, S, J, M>,
    call: Call,
) -> Result<Option<SeatInput>, Why> {
    match call {
        Call::TakePut(number) => Ok(Some(SeatInput::Put(upload(alloc, number)?))),
        Call::TakeTick(left) => Ok(Some(SeatInput::Tick(left))),
        Call::TakeFirst(number) => {
            Ok(Some(SeatInput::Deliver(number, first_message(rt, cluster)?)))
        }
        _ => Ok(None),
    }
}

// Makes a call of the cluster, `None` where it is none.
fn made_of_cluster<R: Wait, S: Stable + Drop, J: Beginning, M: Retention>(
    rt: &R,
    alloc: Global,
    cluster: &Cluster<3, S, J, M>,
    node: usize,
    call: Call,
) -> Result<Option<Gave>, Why> {
    let gave = match call {
        Call::Deliver(number) => what_came(cluster.deliver(rt, &OpenGate, node, number)),
        Call::Ask => {
            let query = Query::Get(ticket(alloc, 1)?);
            what_came(cluster.ask(rt, &OpenGate, node, query))
        }
        Call::Get => what_was_found(cluster.get(rt, &OpenGate, node, ticket(alloc, 1)?)),
        Call::Settle(number) => {
            let upload = upload(alloc, number)?;
            what_was_found(cluster.settle(rt, &OpenGate, node, &upload))
        }
        Call::Restart => what_came(cluster.restart(rt, &OpenGate, node)),
        _ => return Ok(None),
    };
    Ok(Some(gave))
}

// Makes a call of the running nodes.
fn made_of_running<R: Wait, S: Stable + Drop, J: Beginning, M: Retention>(
    rt: &R,
    alloc: Global,
    nodes: &Running<3, S, J, OpenGate, M>,
    node: usize,
    call: Call,
) -> Result<Gave, Why> {
    match call {
        Call::Put(number) => {
            let upload = upload(alloc, number)?;
            Ok(what_came(nodes.put(rt, node, &upload)))
        }
        Call::TakeInput => Ok(what_came(nodes.take_input(rt, node, SeatInput::Tick(0)))),
        Call::RunningGet => Ok(what_was_found(nodes.get(rt, node, ticket(alloc, 1)?))),
        Call::RunningRestart => Ok(what_came(nodes.restart(rt, node))),
        _ => Err("no call of running nodes"),
    }
}

/// Makes the call at the node.
pub(crate) fn made<R: Wait, S: Stable + Drop, J: Beginning, M: Retention>(
    rt: &R,
    alloc: Global,
    nodes: &Running<3, S, J, OpenGate, M>,
    node: usize,
    call: Call,
) -> Result<Gave, Why> {
    let cluster = nodes.cluster();
    if let Some(input) = input_of(rt, alloc, cluster, call)? {
        return Ok(what_came(cluster.take(rt, &OpenGate, node, input)));
    }
    if let Some(gave) = made_of_cluster(rt, alloc, cluster, node, call)? {
        return Ok(gave);
    }
    made_of_running(rt, alloc, nodes, node, call)
}
