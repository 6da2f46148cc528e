//! Records of promises of all slots from a first one on, between others and in any order.

use crate::told::{Told, are_left, restored};
use std::alloc::Global;
use std::test::Fail;

// Whether an acceptor that starts again from these records has in each of these slots what they leave there.
fn are_restored(alloc: Global, list: &[Told], numbers: &[u32]) -> Result<bool, Fail> {
    are_left(&restored(alloc, list)?, list, numbers)
}

// First slots, those beside them, the first slot that there is and the last.
const NUMBERS: [u32; 16] = [
    0, 1, 4, 5, 6, 8, 9, 10, 11, 19, 20, 21, 500_000, 999_998, 999_999, 7,
];

#[test]
fn ranges_that_rise_are_restored(rt: HostRuntime) -> Result<(), Fail> {
    let list = [
        Told::PromisedFrom(0, 1),
        Told::PromisedFrom(5, 2),
        Told::Accepted(7, 2),
        Told::PromisedFrom(10, 4),
        Told::Promised(9, 3),
        Told::PromisedFrom(20, 6),
        Told::Accepted(20, 6),
        Told::PromisedFrom(999_999, 8),
    ];
    assert!(rt; are_restored(rt.alloc(), &list, &NUMBERS)?);
    Ok(())
}

#[test]
fn ranges_that_fall_are_restored(rt: HostRuntime) -> Result<(), Fail> {
    let list = [
        Told::PromisedFrom(999_999, 8),
        Told::Promised(7, 7),
        Told::PromisedFrom(20, 6),
        Told::PromisedFrom(10, 4),
        Told::Accepted(10, 4),
        Told::PromisedFrom(5, 2),
        Told::Promised(4, 1),
        Told::PromisedFrom(0, 1),
    ];
    assert!(rt; are_restored(rt.alloc(), &list, &NUMBERS)?);
    Ok(())
}

#[test]
fn ranges_in_no_order_are_restored(rt: HostRuntime) -> Result<(), Fail> {
    let list = [
        Told::PromisedFrom(10, 5),
        Told::PromisedFrom(20, 9),
        Told::Accepted(8, 3),
        Told::PromisedFrom(5, 7),
        Told::PromisedFrom(5, 6),
        Told::Promised(21, 8),
        Told::PromisedFrom(9, 7),
        Told::PromisedFrom(999_999, 2),
        Told::PromisedFrom(20, 10),
        Told::PromisedFrom(0, 1),
    ];
    assert!(rt; are_restored(rt.alloc(), &list, &NUMBERS)?);
    Ok(())
}

// Every record that the lists below are made of.
const RECORDS: [Told; 11] = [
    Told::PromisedFrom(0, 1),
    Told::PromisedFrom(0, 2),
    Told::PromisedFrom(0, 3),
    Told::PromisedFrom(1, 1),
    Told::PromisedFrom(1, 2),
    Told::PromisedFrom(1, 3),
    Told::PromisedFrom(3, 1),
    Told::PromisedFrom(3, 2),
    Told::PromisedFrom(3, 3),
    Told::Promised(1, 2),
    Told::Accepted(3, 2),
];

// The list of this number, of all that four of these records can make.
fn list_of(code: usize) -> [Told; 4] {
    [
        RECORDS[code % 11],
        RECORDS[code / 11 % 11],
        RECORDS[code / 121 % 11],
        RECORDS[code / 1_331 % 11],
    ]
}

#[test]
fn every_order_of_four_records_is_restored(rt: HostRuntime) -> Result<(), Fail> {
    let mut count: u32 = 0;
    for code in 0..14_641 {
        if are_restored(rt.alloc(), &list_of(code), &[0, 1, 2, 3, 4, 999_999])? {
            count = count.saturating_add(1);
        }
    }
    assert_eq!(rt; count, 14_641);
    Ok(())
}
