//! Messages that a node hears again.

ghost use Rattle.std.specs.Prelude.{◌≡◌, ◌↔◌, [], IfOk, IsTrue, List, Ok, length, map};
ghost use Rattle.std.specs.List.{All};
ghost use Rattle.ballots.specs.declared.record.Record.{Record as Held};
ghost use Rattle.agreement_rules.specs.Views.{Views, started_with};
ghost use Rattle.resumed_histories.specs.StartingOver.{TellsOfAValue};
ghost use Rattle.stored_nodes.specs.State.{IsPlaced, StandsUp};
ghost use Rattle.resumed_nodes.specs.declared.fault.HearFault.TheVariants.{OutOfMemory};
ghost use Rattle.resumed_nodes.specs.Starting.{AreStarted, HasHeardAgain, IsStarted, MayBeTold, records_at_nodes};
ghost use Rattle.resumed_nodes.specs.Hearing.{HearAnswers, HearLeaves, IsHearFaultFor, HearAllAnswers};

use crate::fault::HearFault;
use crate::pushing::push;
use ballots::{Body, Message};
use node_core::{AgreementConfig, Input};
use node_events::Reason;
use stable_records::Stable;
use std::alloc::{AllocError, Global};
use std::thread::{Threads, map_vec};
use stored_nodes::StoredNode;

/// Hands the node, which is up, a message again that tells which value was accepted or decided: its learner is told,
/// and it has seen the message's round (Lamport, *Paxos Made Simple*, sections 2.3 and 2.5). Nothing is kept or sent.
///
/// [`HearFault::NoValue`] comes exactly where the message tells of no value, [`HearFault::Down`] only where the node is
/// down, which then hears nothing, and [`HearFault::OutOfRange`] only where the message names a node that is none or a
/// slot that there is not. After each of these, and where memory is refused, the node stands as it stood.
/// [`HearFault::Store`] never comes for a node that stands up by its rules.
pub fn hear<S: Stable + Drop>(seat: &mut StoredNode<S>, message: &Message) -> Result<(), HearFault>
    ensures gives { (views : Views) → IsPlaced seat.old → StandsUp seat.old views
        → HearAnswers seat.old seat.new views message.now result }
    ensures leaves { HearLeaves seat.old seat.new result }
{
    if !tells_of_a_value(&message.body) {
        return Err(HearFault::NoValue);
    }
    match message.clone() {
        Ok(copy) => hear_copy(seat, copy),
        Err(_) => Err(HearFault::OutOfMemory),
    }
}

// Whether it tells which value was accepted or decided.
fn tells_of_a_value(body: &Body) -> bool
    ensures { IsTrue result ↔ TellsOfAValue body.now }
{
    match body {
        Body::Prepare { .. } => false,
        Body::Promise { .. } => false,
        Body::Nack { .. } => false,
        Body::Accept(_) => false,
        Body::Accepted(_) => true,
        Body::Ask => false,
        Body::Decided { .. } => true,
    }
}

// Does what is due to a message that tells of a value.
fn hear_copy<S: Stable + Drop>(seat: &mut StoredNode<S>, message: Message) -> Result<(), HearFault>
    requires { TellsOfAValue message.body }
    ensures gives { (views : Views) → IsPlaced seat.old → StandsUp seat.old views
        → HearAnswers seat.old seat.new views message result }
    ensures leaves { HearLeaves seat.old seat.new result }
{
    let plan = match seat.plan(Input::Deliver(message)) {
        Ok(plan) => plan,
        Err(reason) => return Err(fault_for(reason)),
    };
    match seat.take(plan) {
        Ok(()) => Ok(()),
        Err(fault) => Err(HearFault::Store(fault)),
    }
}

// Why nothing is planned for a message.
fn fault_for(reason: Reason) -> HearFault
    ensures { IsHearFaultFor reason result }
{
    match reason {
        Reason::OutOfMemory => HearFault::OutOfMemory,
        Reason::Down => HearFault::Down,
        _ => HearFault::OutOfRange,
    }
}

/// Hands a node that was started with its records these messages again, one after the other: it has then learned what
/// they tell, and nothing else has changed (Lamport, *Paxos Made Simple*, sections 2.3 and 2.5).
///
/// The faults are those of [`hear`], of the first message that meets one; the node has heard those before it.
pub fn hear_all<S: Stable + Drop>(
    seat: &mut StoredNode<S>,
    told: &[Message],
) -> Result<(), HearFault>
    ensures { (records : List Held) → IsPlaced seat.old → StandsUp seat.old (started_with records)
        → HearAllAnswers seat.old seat.new records told.now result }
{
    for message in told {
        match hear(seat, message) {
            Ok(()) => {}
            Err(fault) => return Err(fault),
        }
    }
    Ok(())
}

// Hands these messages to a node that was started with its records, and gives it back.
fn hear_own<S: Stable + Drop>(
    config: AgreementConfig,
    node: StoredNode<S>,
    told: &[Message],
) -> Result<StoredNode<S>, AllocError>
    requires started { IsStarted config [] node.me node }
    requires may { All (MayBeTold config) told.now }
    ensures { IfOk result (HasHeardAgain config told.now node) }
{
    let mut node = node;
    match hear_all(&mut node, told) {
        Ok(()) => Ok(node),
        Err(fault) => {
            drop(node);
            Err(refused(fault))
        }
    }
}

// The one fault of a node that hears what it may be told.
fn refused(fault: HearFault) -> AllocError
    requires { fault ≡ OutOfMemory }
{
    match fault {
        HearFault::OutOfMemory => AllocError,
        _ => unreachable!(),
    }
}

/// Hands these messages to nodes that have started again, each at the place of its number, and in a thread of its own where one can
/// be made: each has then learned what they tell, and has the records that it had. The messages are such as [`chosen_by`] gives.
///
/// [`AllocError`] says that memory was refused; the nodes are let go then.
///
/// [`chosen_by`]: crate::chosen_by
#[tactic(auto, using(crate::proofs::Restarted::job_started))]
pub fn hear_together<R: Threads + Sync, S: Stable + Drop + Send>(
    rt: &R,
    alloc: Global,
    config: AgreementConfig,
    nodes: Vec<StoredNode<S>>,
    told: &[Message],
) -> Result<Vec<StoredNode<S>>, AllocError>
    requires started { AreStarted config [] nodes.items }
    requires may { All (MayBeTold config) told.now }
    ensures heard { IfOk result (λ heard. AreStarted config told.now heard.items) }
    ensures records { IfOk result (λ heard. records_at_nodes heard.items ≡ records_at_nodes nodes.items) }
    ensures all { IfOk result (λ heard. length heard.items ≡ length nodes.items) }
{
    let hear = |node: StoredNode<S>| -> Result<StoredNode<S>, AllocError>
        requires { IsStarted config [] node.me node × All (MayBeTold config) told.now }
        ensures { IfOk result (HasHeardAgain config told.entry.now node) }
    { hear_own(config, node, told) };
    all_ok(alloc, map_vec(rt, nodes, &hear)?)
}

// All nodes, where each has heard the messages.
fn all_ok<S: Stable + Drop>(
    alloc: Global,
    results: Vec<Result<StoredNode<S>, AllocError>>,
) -> Result<Vec<StoredNode<S>>, AllocError>
    ensures { IfOk result (λ nodes. map (λ node. Ok node) nodes.items ≡ results.items) }
{
    let mut nodes = Vec::with_capacity(alloc, results.len())?;
    for heard in results {
        match heard {
            Ok(node) => push(&mut nodes, node)?,
            Err(_) => return Err(AllocError),
        }
    }
    Ok(nodes)
}
