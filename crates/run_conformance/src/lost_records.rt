//! Nodes that start again, with all their records and without the last: what they then send is lawful, and is not.

use crate::nodes::Three;
use crate::support::{members, upload};
use lawful_histories::are_lawful;
use node_core::Input;
use std::alloc::Global;
use std::hash::RandomState;
use std::test::Fail;

// The node of this number is handed the upload of this number, and begins for it.
fn begin(three: &mut Three, alloc: Global, node: usize, number: u64) -> Result<(), Fail> {
    three.happen(node, Input::Put(upload(alloc, number)?))?;
    three.happen(node, Input::Tick(0))
}

// Node 1 accepts the upload of node 0 and starts again. It is asked for a promise by node 2, message 5, and has to report
// what it accepted.
fn reports(alloc: Global, hashing: RandomState, forgets: bool) -> Result<Three, Fail> {
    let mut three = Three::new(alloc, hashing)?;
    begin(&mut three, alloc, 0, 1)?;
    three.deliver(&[(0, 0), (1, 0), (0, 1), (0, 2), (1, 3)])?;
    three.restart(1, forgets)?;
    begin(&mut three, alloc, 2, 2)?;
    three.deliver(&[(1, 5)])?;
    Ok(three)
}

// Node 0 proposes, message 3. Before that comes to node 1, the latter promises a higher ballot of node 2 and starts again.
// It has to refuse what node 0 proposed.
fn refuses(alloc: Global, hashing: RandomState, forgets: bool) -> Result<Three, Fail> {
    let mut three = Three::new(alloc, hashing)?;
    begin(&mut three, alloc, 0, 1)?;
    three.deliver(&[(0, 0), (1, 0), (0, 1), (0, 2)])?;
    begin(&mut three, alloc, 2, 2)?;
    three.deliver(&[(1, 4)])?;
    three.restart(1, forgets)?;
    three.deliver(&[(1, 3)])?;
    Ok(three)
}

// Node 0 begins, has the promises of the others and proposes. It starts again and begins for another upload: not at the
// ballot that it had, at which its promises would let it propose a second value.
fn begins_above(alloc: Global, hashing: RandomState, forgets: bool) -> Result<Three, Fail> {
    let mut three = Three::new(alloc, hashing)?;
    begin(&mut three, alloc, 0, 1)?;
    three.deliver(&[(1, 0), (2, 0), (0, 1), (0, 2)])?;
    three.restart(0, forgets)?;
    begin(&mut three, alloc, 0, 2)?;
    three.deliver(&[(0, 1), (0, 2)])?;
    Ok(three)
}

#[test]
fn with_its_acceptance_a_node_reports_it(rt: HostRuntime) -> Result<(), Fail> {
    let three = reports(rt.alloc(), RandomState::new(&rt)?, false)?;
    let lawful = are_lawful(members(3)?, three.sent());
    assert!(rt; lawful && three.sent().len() == 7);
    Ok(())
}

#[test]
fn without_its_acceptance_it_breaks_the_rules(rt: HostRuntime) -> Result<(), Fail> {
    let three = reports(rt.alloc(), RandomState::new(&rt)?, true)?;
    let lawful = are_lawful(members(3)?, three.sent());
    assert!(rt; !lawful && three.sent().len() == 7);
    Ok(())
}

#[test]
fn with_its_promise_a_node_refuses_what_is_below(rt: HostRuntime) -> Result<(), Fail> {
    let three = refuses(rt.alloc(), RandomState::new(&rt)?, false)?;
    let lawful = are_lawful(members(3)?, three.sent());
    assert!(rt; lawful && three.sent().len() == 7);
    Ok(())
}

#[test]
fn without_its_promise_it_breaks_the_rules(rt: HostRuntime) -> Result<(), Fail> {
    let three = refuses(rt.alloc(), RandomState::new(&rt)?, true)?;
    let lawful = are_lawful(members(3)?, three.sent());
    assert!(rt; !lawful && three.sent().len() == 7);
    Ok(())
}

#[test]
fn with_its_ballot_a_node_begins_above_it(rt: HostRuntime) -> Result<(), Fail> {
    let three = begins_above(rt.alloc(), RandomState::new(&rt)?, false)?;
    let lawful = are_lawful(members(3)?, three.sent());
    assert!(rt; lawful && three.sent().len() == 5);
    Ok(())
}

#[test]
fn without_its_ballot_it_breaks_the_rules(rt: HostRuntime) -> Result<(), Fail> {
    let three = begins_above(rt.alloc(), RandomState::new(&rt)?, true)?;
    let lawful = are_lawful(members(3)?, three.sent());
    assert!(rt; !lawful && three.sent().len() == 6);
    Ok(())
}
