//! Runs and plans that are refused memory: a run ends for want of it or is lawful, and a plan that is refused changes
//! nothing. Run with every allocation refused in turn, each test ends as before or for want of memory.

ghost use Rattle.std.specs.Prelude.{IfOk};
ghost use Rattle.node_core.specs.Plans.{CanCommit};

use crate::chosen::is_chosen_twice;
use crate::duel::{push_duel, push_end};
use crate::nodes::{node, send};
use crate::support::{answers_are_one, members, push_attempt, ticket, upload};
use agreement::Refusal;
use ballots::Message;
use node_core::{Input, Node, Plan};
use node_events::Reason;
use schedule_runner::{Config, Event, EventResult, RunFault, Step, Trace, audit, run};
use std::alloc::Global;
use std::hash::RandomState;
use std::test::Fail;
use table_versions::Outcome;

// Node 0 has two uploads decided and is asked. It goes down in the midst of a delivery, and starts again.
fn events(alloc: Global) -> Result<Vec<Event>, Fail> {
    let mut events = Vec::new(alloc);
    for number in 0..2 {
        events.push(Event::Put(0, upload(alloc, number)?))?;
        events.push(Event::Tick(0, 0))?;
        push_attempt(&mut events, number.saturating_mul(6))?;
    }
    events.push(Event::Get(0, ticket(alloc, 1)?))?;
    events.push(Event::Outcome(0, upload(alloc, 0)?))?;
    events.push(Event::DeliverCut(0, 3))?;
    events.push(Event::Restart(0))?;
    events.push(Event::Tick(0, 0))?;
    Ok(events)
}

// What is left of a run where memory is refused.
#[derive(Drop)]
enum Rest {
    Wanting,
    Whole(Trace),
}

fn ran(alloc: Global, hashing: RandomState, events: &[Event]) -> Result<Rest, Fail> {
    let config = Config {
        members: members(3)?,
        slot_limit: 4,
        journal_limit: 1,
    };
    match run(alloc, hashing, config, events) {
        Ok(trace) => Ok(Rest::Whole(trace)),
        Err(RunFault::OutOfMemory) => Ok(Rest::Wanting),
        Err(RunFault::BadConfig) => Err(Fail::from("BadConfig")),
    }
}

// Whether each refusal in the run is for want of memory or comes of one before.
fn is_of_memory(step: &Step) -> bool {
    match &step.result {
        EventResult::Refused(reason) => matches!(
            reason,
            Reason::OutOfMemory | Reason::NotSent | Reason::Down
        ),
        _ => true,
    }
}

#[test]
fn a_run_is_lawful_or_wants_memory(rt: HostRuntime) -> Result<(), Fail> {
    let hashing = RandomState::new(&rt)?;
    let events = events(rt.alloc())?;
    match ran(rt.alloc(), hashing, events.as_slice())? {
        Rest::Whole(trace) => {
            let whole = trace.steps().len() == events.len();
            assert!(rt; whole && audit(&trace) && answers_are_one(&trace));
            assert!(rt; trace.steps().iter().all(is_of_memory));
        }
        Rest::Wanting => {}
    }
    Ok(())
}

#[test]
fn a_duel_is_lawful_or_wants_memory(rt: HostRuntime) -> Result<(), Fail> {
    let hashing = RandomState::new(&rt)?;
    let mut events = Vec::new(rt.alloc());
    push_duel(&mut events, rt.alloc())?;
    push_end(&mut events, rt.alloc())?;
    match ran(rt.alloc(), hashing, events.as_slice())? {
        Rest::Whole(trace) => {
            let twice = is_chosen_twice(trace.members(), trace.sent());
            assert!(rt; !twice && audit(&trace));
            assert!(rt; trace.steps().iter().all(is_of_memory));
        }
        Rest::Wanting => {}
    }
    Ok(())
}

// What comes to a node.
#[derive(Clone, Copy)]
enum Coming {
    Put,
    Tick,
    Message(usize),
}

// The input that it is.
fn input_of(alloc: Global, sent: &[Message], coming: Coming) -> Result<Input, Fail> {
    match coming {
        Coming::Put => Ok(Input::Put(upload(alloc, 1)?)),
        Coming::Tick => Ok(Input::Tick(0)),
        Coming::Message(number) => {
            let message = sent.get(number).ok_or("not sent")?;
            Ok(Input::Deliver(message.clone()?))
        }
    }
}

// What is due to an input. Where memory is refused the same input is planned again.
fn planned(alloc: Global, node: &mut Node, sent: &[Message], coming: Coming) -> Result<Plan, Fail>
    ensures can { IfOk result (CanCommit node.new) }
{
    match node.plan(input_of(alloc, sent, coming)?) {
        Ok(plan) => return Ok(plan),
        Err(Refusal::OutOfMemory) => {}
        Err(_) => return Err(Fail::from("refused")),
    }
    match node.plan(input_of(alloc, sent, coming)?) {
        Ok(plan) => Ok(plan),
        Err(_) => Err(Fail::from("refused")),
    }
}

// Lets the node do what is due to an input: how many records that are.
fn take(
    alloc: Global,
    node: &mut Node,
    sent: &mut Vec<Message>,
    coming: Coming,
) -> Result<usize, Fail> {
    let plan = planned(alloc, node, sent.as_slice(), coming)?;
    let kept = usize::from(plan.record().is_some());
    match send(sent, plan.sends()) {
        Ok(()) => {
            node.commit(plan);
            Ok(kept)
        }
        Err(fail) => {
            drop(plan);
            Err(fail)
        }
    }
}

// Hands the node the upload, and lets time pass.
fn begin(alloc: Global, node: &mut Node, sent: &mut Vec<Message>) -> Result<usize, Fail> {
    let put = take(alloc, node, sent, Coming::Put)?;
    let ticked = take(alloc, node, sent, Coming::Tick)?;
    Ok(put.saturating_add(ticked))
}

// The messages of these numbers come to the node: how many records are kept.
fn come_all(
    alloc: Global,
    node: &mut Node,
    sent: &mut Vec<Message>,
    numbers: &[usize],
) -> Result<usize, Fail> {
    let mut kept = 0_usize;
    for number in numbers {
        let more = take(alloc, node, sent, Coming::Message(*number))?;
        kept = kept.saturating_add(more);
    }
    Ok(kept)
}

// How many records are kept at each turn, where node 0 has its upload decided with node 1.
fn kept_in_turn(
    alloc: Global,
    first: &mut Node,
    second: &mut Node,
    sent: &mut Vec<Message>,
) -> Result<[usize; 6], Fail> {
    Ok([
        begin(alloc, first, sent)?,
        come_all(alloc, first, sent, &[0])?,
        come_all(alloc, second, sent, &[0])?,
        come_all(alloc, first, sent, &[1, 2, 3])?,
        come_all(alloc, second, sent, &[3])?,
        come_all(alloc, first, sent, &[4, 5])?,
    ])
}

#[test]
fn a_plan_that_is_refused_is_made_again(rt: HostRuntime) -> Result<(), Fail> {
    let alloc = rt.alloc();
    let hashing = RandomState::new(&rt)?;
    let mut first = node(alloc, hashing, 0, &[])?;
    let mut second = node(alloc, hashing, 1, &[])?;
    let mut sent = Vec::new(alloc);
    let kept = kept_in_turn(alloc, &mut first, &mut second, &mut sent)?;
    assert!(rt; kept == [1, 1, 1, 1, 1, 0]);
    assert!(rt; sent.len() == 6 && first.outcome(&upload(alloc, 1)?) == Outcome::Applied(1));
    Ok(())
}
