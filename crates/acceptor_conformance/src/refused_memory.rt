//! Promises of all slots from a first one on that are refused memory: the acceptor is as before, and the call is made
//! again. Run with every allocation refused in turn, the test ends as before or for want of memory.

use crate::support::{accepting, are_reports, ballot, slot};
use acceptor::{Acceptor, Answer};
use std::test::Fail;

// Of how many slots the acceptor has accepted a value.
const COUNT: u32 = 9;

// What binds slots of an acceptor: slots from a first one on have promised the ballot of a round.
#[derive(Clone, Copy)]
struct Bound {
    first: u32,
    round: u32,
}

// Whether the slot of this number is bound so, or else by what it accepted itself, and has accepted what it had.
fn is_as(acceptor: &Acceptor, bound: Bound, number: u32) -> Result<bool, Fail> {
    let own = number.saturating_add(1);
    let due = if number >= bound.first {
        Some(ballot(bound.round)?)
    } else if number < COUNT {
        Some(ballot(own)?)
    } else {
        None
    };
    let has_accepted = acceptor.accepted(slot(number)?).is_some();
    Ok(acceptor.promised(slot(number)?) == due && has_accepted == (number < COUNT))
}

// Whether that holds of the first slots, and of the last one.
fn are_as(acceptor: &Acceptor, bound: Bound) -> Result<bool, Fail> {
    for number in 0..COUNT + 5 {
        if !is_as(acceptor, bound, number)? {
            return Ok(false);
        }
    }
    is_as(acceptor, bound, 999_999)
}

// Promises as it is bound then. Where memory is refused, the slots are as before, and it promises again.
fn promise(acceptor: &mut Acceptor, before: Bound, then: Bound) -> Result<Answer, Fail> {
    let (first, round) = (slot(then.first)?, ballot(then.round)?);
    match acceptor.on_prepare_from(first, round) {
        Ok(answer) => Ok(answer),
        Err(_) => {
            if !are_as(acceptor, before)? {
                return Err(Fail::from("changed"));
            }
            Ok(acceptor.on_prepare_from(first, round)?)
        }
    }
}

// Whether it promises, reports what these slots have accepted, and leaves the slots bound so.
fn promises(acceptor: &mut Acceptor, before: Bound, then: Bound) -> Result<bool, Fail> {
    let is_reported = match promise(acceptor, before, then)? {
        Answer::PromiseFrom(reports) => are_reports(reports.as_slice(), then.first, COUNT)?,
        _ => false,
    };
    Ok(is_reported && are_as(acceptor, then)?)
}

#[test]
fn all_slots_are_promised_again(rt: HostRuntime) -> Result<(), Fail> {
    let mut acceptor = accepting(rt.alloc(), COUNT)?;
    let none = Bound {
        first: 1_000_000,
        round: 1,
    };
    let some = Bound {
        first: 4,
        round: 20,
    };
    let all = Bound {
        first: 0,
        round: 21,
    };
    assert!(rt; promises(&mut acceptor, none, some)?);
    assert!(rt; promises(&mut acceptor, some, all)?);
    Ok(())
}
