//! Thousands of bits: a bitmap that gave up after a few bytes would pass every short case.

ghost use Rattle.std.specs.Prelude.{◌<◌};

use super::plain::put_bits;
use super::putting::{bitmap_of, extend, is_list, push_run};
use std::alloc::{AllocError, Global};
use std::test::Fail;

/// How many bits are put one by one.
const PUSHED: u32 = 5_000;

/// How many bits are put as one run.
const RUN: usize = 100_000;

/// So many bits, the same ones each time.
fn list(alloc: Global, count: u32) -> Result<Vec<bool>, AllocError> {
    let mut list = Vec::new(alloc);
    let mut state = 12_345_u32;
    for _ in 0..count {
        state = state.wrapping_mul(1_103_515_245).wrapping_add(12_345);
        list.push(state >> 16 & 1 == 1)?;
    }
    Ok(list)
}

/// Bytes with as many bits as the run and eight more, the same ones each time.
fn bytes(alloc: Global) -> Result<Vec<u8>, AllocError> {
    let mut bytes = Vec::new(alloc);
    let mut state = 54_321_u32;
    for _ in 0..=RUN / 8 {
        state = state.wrapping_mul(1_103_515_245).wrapping_add(12_345);
        bytes.push((state >> 16 & 0xff) as u8)?;
    }
    Ok(bytes)
}

#[test]
fn holds_thousands_of_bits_one_by_one(rt: HostRuntime) -> Result<(), Fail> {
    let list = list(rt.alloc(), PUSHED)?;
    let bitmap = bitmap_of(rt.alloc(), list.as_slice())?;
    let is_list = is_list(rt.alloc(), &bitmap, list.as_slice())?;
    assert!(rt; is_list);
    Ok(())
}

/// Whether the long run from this bit on is right, put behind so many bits.
fn is_run(alloc: Global, bytes: &[u8], length: u32, start: usize) -> Result<bool, AllocError>
    requires { start < 8 }
{
    let mut list = list(alloc, length)?;
    let mut bitmap = bitmap_of(alloc, list.as_slice())?;
    extend(&mut bitmap, bytes, start, RUN)?;
    put_bits(&mut list, bytes, start, RUN)?;
    is_list(alloc, &bitmap, list.as_slice())
}

#[test]
fn holds_a_run_of_a_hundred_thousand_bits(rt: HostRuntime) -> Result<(), Fail> {
    let bytes = bytes(rt.alloc())?;
    for (length, start) in [(0, 0), (0, 3), (5, 0), (5, 3), (8, 7)] {
        let is_run = is_run(rt.alloc(), bytes.as_slice(), length, start)?;
        assert!(rt; is_run, "{length} {start}");
    }
    Ok(())
}

#[test]
fn holds_a_run_of_thousands_of_equal_bits(rt: HostRuntime) -> Result<(), Fail> {
    let mut list = list(rt.alloc(), 9)?;
    let mut bitmap = bitmap_of(rt.alloc(), list.as_slice())?;
    push_run(&mut bitmap, true, RUN)?;
    for _ in 0..RUN {
        list.push(true)?;
    }
    let is_list = is_list(rt.alloc(), &bitmap, list.as_slice())?;
    assert!(rt; is_list);
    Ok(())
}

#[test]
fn refuses_a_list_of_two_to_the_sixty_fourth_bits(rt: HostRuntime) -> Result<(), Fail> {
    let list = list(rt.alloc(), 9)?;
    let bytes = bytes(rt.alloc())?;
    let mut bitmap = bitmap_of(rt.alloc(), list.as_slice())?;
    let is_extended = bitmap
        .extend_from(bytes.as_slice(), 0, usize::MAX - 8)
        .is_ok();
    let is_longer = bitmap.push_run(true, usize::MAX - 8).is_ok();
    assert!(rt; !is_extended && !is_longer);
    let is_list = is_list(rt.alloc(), &bitmap, list.as_slice())?;
    assert!(rt; is_list);
    Ok(())
}
