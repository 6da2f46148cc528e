//! What files mean, beside a plain reader of them.

use crate::support::{accepted, four_records, push_record};
use ballots::Record;
use disk_records::read_records;
use stable_records::StoreFault;
use std::alloc::Global;
use std::test::Fail;

// How many records a file means, read by places; none where it has no meaning.
fn counted(alloc: Global, file: &[u8]) -> Option<usize> {
    let (mut at, mut count) = (0usize, 0usize);
    if file.len() <= 1 {
        return Some(0);
    }
    for _ in 0..file.len() {
        if *file.get(at)? != 1 {
            return Some(count);
        }
        let start = at.checked_add(5)?;
        let head = file.get(at..start)?;
        let length = u32::from_le_bytes([head[1], head[2], head[3], head[4]]) as usize;
        let end = start.checked_add(length)?;
        if Record::decode(alloc, file.get(start..end)?).is_err() {
            return None;
        }
        at = end;
        count = count.saturating_add(1);
    }
    None
}

// Whether what is read is what the plain reader counts.
fn agrees(alloc: Global, file: &[u8]) -> bool {
    match (read_records(alloc, file), counted(alloc, file)) {
        (Ok(read), Some(count)) => read.records.len() == count,
        (Err(fault), None) => fault == StoreFault::Damaged,
        _ => false,
    }
}

#[test]
fn files_that_are_cut_off(rt: HostRuntime) -> Result<(), Fail> {
    let alloc = rt.alloc();
    let file = four_records(alloc)?;
    let mut whole = 0u8;
    for count in 0..file.len() {
        let front = &file[..count];
        assert!(rt; agrees(alloc, front), "{count} bytes");
        whole = whole.saturating_add(u8::from(counted(alloc, front).is_some()));
    }
    // The file without a byte, and that of one.
    assert_eq!(rt; whole, 2);
    assert!(rt; agrees(alloc, &file) && counted(alloc, &file) == Some(4));
    Ok(())
}

#[test]
fn files_with_another_byte(rt: HostRuntime) -> Result<(), Fail> {
    let alloc = rt.alloc();
    let file = four_records(alloc)?;
    for place in 0..file.len() {
        for byte in [0, 1, 2, 8, 0x18, 0x7f, 0x80, 0xff] {
            let mut other = file.clone()?;
            other[place] = byte;
            assert!(rt; agrees(alloc, &other), "{byte} at {place}");
        }
    }
    Ok(())
}

#[test]
fn ten_thousand_records(rt: HostRuntime) -> Result<(), Fail> {
    let alloc = rt.alloc();
    let mut file = [0].to_vec(alloc)?;
    for slot in 0..10_000 {
        push_record(alloc, &mut file, &accepted(alloc, slot, 20)?)?;
    }
    let read = read_records(alloc, &file)?;
    assert_eq!(rt; read.records.len(), 10_000);
    assert_eq!(rt; read.gate + 1, file.len());
    assert!(rt; read.records[9_999] == accepted(alloc, 9_999, 20)?);
    file.pop();
    assert!(rt; read_records(alloc, &file).err() == Some(StoreFault::Damaged));
    Ok(())
}

#[test]
fn the_longest_record(rt: HostRuntime) -> Result<(), Fail> {
    let alloc = rt.alloc();
    let longest = accepted(alloc, 999_999, 16_777_216)?;
    let mut file = [0].to_vec(alloc)?;
    push_record(alloc, &mut file, &longest)?;
    let read = read_records(alloc, &file)?;
    assert!(rt; read.records.as_slice() == [longest].as_slice());
    // A length that no file of this size has.
    if let Some(byte) = file.get_mut(4) {
        *byte = 0xff;
    }
    assert!(rt; read_records(alloc, &file).err() == Some(StoreFault::Damaged));
    Ok(())
}
