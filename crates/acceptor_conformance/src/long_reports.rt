//! Promises that report thousands of acceptances.

use crate::support::{accepting, are_reports, ballot, slot};
use acceptor::{Acceptor, Answer};
use std::test::Fail;

// Of how many slots the acceptor has accepted a value.
const COUNT: u32 = 5_000;

// Whether a promise of all slots from the first one on, at the ballot of this round, reports all that is accepted there.
fn reports_all(acceptor: &mut Acceptor, first: u32, round: u32) -> Result<bool, Fail> {
    match acceptor.on_prepare_from(slot(first)?, ballot(round)?)? {
        Answer::PromiseFrom(reports) => are_reports(reports.as_slice(), first, COUNT),
        _ => Err(Fail::from("not promised")),
    }
}

#[test]
fn thousands_of_acceptances_are_reported_in_order(rt: HostRuntime) -> Result<(), Fail> {
    let mut acceptor = accepting(rt.alloc(), COUNT)?;
    assert!(rt; reports_all(&mut acceptor, 1_000, COUNT + 1)?);
    assert!(rt; reports_all(&mut acceptor, 0, COUNT + 2)?);
    assert!(rt; reports_all(&mut acceptor, COUNT, COUNT + 3)?);
    Ok(())
}
