//! Slots and ballots by their numbers, and acceptors that have accepted in many slots.

use acceptor::{Acceptor, Answer};
use ballots::{Acceptance, Ballot, NodeId, Slot, Value};
use std::alloc::Global;
use std::test::Fail;

pub(crate) fn slot(number: u32) -> Result<Slot, Fail> {
    Ok(Slot::new(number).ok_or("no slot")?)
}

pub(crate) fn ballot(round: u32) -> Result<Ballot, Fail> {
    let node = NodeId::new(1).ok_or("no node")?;
    Ok(Ballot::new(round, node).ok_or("no ballot")?)
}

/// Accepts in the slot of this number, at the ballot of the round that is the number and one.
fn accept(acceptor: &mut Acceptor, number: u32) -> Result<(), Fail> {
    let proposal = Acceptance {
        ballot: ballot(number.saturating_add(1))?,
        value: Value::Noop,
    };
    match acceptor.on_accept(slot(number)?, proposal)? {
        Answer::Granted => Ok(()),
        _ => Err(Fail::from("not granted")),
    }
}

/// An acceptor that has accepted in so many slots from 0 on, the last one first.
pub(crate) fn accepting(alloc: Global, count: u32) -> Result<Acceptor, Fail> {
    let mut acceptor = Acceptor::new(alloc);
    for further in 0..count {
        accept(
            &mut acceptor,
            count.saturating_sub(further).saturating_sub(1),
        )?;
    }
    Ok(acceptor)
}

/// Whether the report is of the slot of this number, and is what [`accepting`] accepted there.
fn is_report_of(number: u32, report: &(Slot, Acceptance)) -> Result<bool, Fail> {
    let (of, Acceptance { ballot: at, value }) = report;
    Ok(*of == slot(number)? && *at == ballot(number.saturating_add(1))? && *value == Value::Noop)
}

/// Whether the reports are those of the slots from the first one on, up to the last in which was accepted, in order.
pub(crate) fn are_reports(
    reports: &[(Slot, Acceptance)],
    first: u32,
    count: u32,
) -> Result<bool, Fail> {
    let mut number = first;
    for report in reports {
        if !is_report_of(number, report)? {
            return Ok(false);
        }
        number = number.saturating_add(1);
    }
    Ok(number == count)
}
