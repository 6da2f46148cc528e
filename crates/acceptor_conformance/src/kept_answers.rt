//! Answers whose records are kept: an acceptor that starts again from these has back all that it answered by.

use crate::support::{ballot, slot};
use crate::told::{Told, are_left, proposal, restored};
use acceptor::{Acceptor, Answer};
use std::alloc::Global;
use std::test::Fail;

const NUMBERS: [u32; 10] = [0, 1, 2, 3, 4, 5, 6, 7, 999_998, 999_999];

// What is asked.
const ASKED: [Told; 14] = [
    Told::PromisedFrom(3, 4),
    Told::PromisedFrom(5, 4),
    Told::PromisedFrom(0, 3),
    Told::Promised(2, 3),
    Told::Accepted(4, 3),
    Told::Accepted(4, 4),
    Told::Accepted(6, 7),
    Told::PromisedFrom(5, 6),
    Told::PromisedFrom(7, 6),
    Told::Promised(999_999, 6),
    Told::Promised(999_999, 7),
    Told::PromisedFrom(1, 8),
    Told::PromisedFrom(999_999, 9),
    Told::Promised(0, 1),
];

// Whether that is promised or granted.
const GIVEN: [bool; 14] = [
    true, false, false, true, false, true, true, false, true, false, true, true, true, true,
];

// Whether it is promised or granted.
fn is_given(acceptor: &mut Acceptor, asked: Told) -> Result<bool, Fail> {
    let answer = match asked {
        Told::Promised(number, round) => acceptor.on_prepare(slot(number)?, ballot(round)?)?,
        Told::Accepted(number, round) => acceptor.on_accept(slot(number)?, proposal(round)?)?,
        Told::PromisedFrom(first, round) => acceptor.on_prepare_from(slot(first)?, ballot(round)?)?,
    };
    Ok(!matches!(answer, Answer::Nack(_)))
}

// Asks what stands at this place, keeps the record of what is given, and says whether the answer is as it should be.
fn is_answered(acceptor: &mut Acceptor, kept: &mut Vec<Told>, place: usize) -> Result<bool, Fail> {
    if place >= 14 {
        return Ok(false);
    }
    let given = is_given(acceptor, ASKED[place])?;
    if given {
        kept.push(ASKED[place])?;
    }
    Ok(given == GIVEN[place])
}

fn are_answered(acceptor: &mut Acceptor, kept: &mut Vec<Told>) -> Result<bool, Fail> {
    for place in 0..14 {
        if !is_answered(acceptor, kept, place)? {
            return Ok(false);
        }
    }
    Ok(true)
}

// Whether an acceptor that starts again from these records has what they leave.
fn are_restored(alloc: Global, kept: &[Told]) -> Result<bool, Fail> {
    are_left(&restored(alloc, kept)?, kept, &NUMBERS)
}

#[test]
fn what_is_answered_is_restored(rt: HostRuntime) -> Result<(), Fail> {
    let mut acceptor = Acceptor::new(rt.alloc());
    let mut kept = Vec::new(rt.alloc());
    assert!(rt; are_answered(&mut acceptor, &mut kept)?);
    assert!(rt; are_left(&acceptor, &kept, &NUMBERS)?);
    assert!(rt; are_restored(rt.alloc(), &kept)?);
    Ok(())
}
