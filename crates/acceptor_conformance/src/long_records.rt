//! Thousands of records of promises of all slots from a first one on.

use crate::told::{Told, is_left, restored};
use acceptor::Acceptor;
use std::alloc::Global;
use std::test::Fail;

// Records that rise, as a running node keeps them, one in seven slots, and then some that fall.
fn records(alloc: Global, rising: u32, falling: u32) -> Result<Vec<Told>, Fail> {
    let mut list = Vec::new(alloc);
    for number in 0..rising {
        let first = number.saturating_mul(7);
        list.push(Told::PromisedFrom(first, number.saturating_add(1_000)))?;
    }
    for number in 0..falling {
        let first = 34_000_u32.saturating_sub(number.saturating_mul(100));
        let round = 5_990_u32.saturating_sub(number.saturating_mul(3));
        list.push(Told::PromisedFrom(first, round))?;
    }
    Ok(list)
}

// Of how many of the slots that are looked at, from 0 on and so far apart, the acceptor has what the records leave.
fn count_left(acceptor: &Acceptor, list: &[Told], apart: u32) -> Result<u32, Fail> {
    let mut count: u32 = 0;
    for further in 0..400_u32 {
        if is_left(acceptor, list, further.saturating_mul(apart))? {
            count = count.saturating_add(1);
        }
    }
    Ok(count)
}

#[test]
fn thousands_of_ranges_in_order_are_restored(rt: HostRuntime) -> Result<(), Fail> {
    let list = records(rt.alloc(), 5_000, 0)?;
    let acceptor = restored(rt.alloc(), &list)?;
    assert_eq!(rt; count_left(&acceptor, &list, 97)?, 400);
    assert!(rt; is_left(&acceptor, &list, 999_999)?);
    Ok(())
}

#[test]
fn hundreds_of_ranges_that_fall_are_restored(rt: HostRuntime) -> Result<(), Fail> {
    let list = records(rt.alloc(), 5_000, 300)?;
    let acceptor = restored(rt.alloc(), &list)?;
    assert_eq!(rt; count_left(&acceptor, &list, 97)?, 400);
    assert_eq!(rt; count_left(&acceptor, &list, 50)?, 400);
    assert!(rt; is_left(&acceptor, &list, 999_999)?);
    Ok(())
}
