//! Rows of lengths, worked by hand, and a folder of real files.

use cluster_folder::{
    FolderFault, FolderState, check_mark, judge, mark_of_file, open_folder, put_down,
};
use cluster_identity::{FileMark, mark_of};
use disk_records::MemoryDisk;
use file_disk::FileDisk;
use std::alloc::Global;
use std::fs;
use std::test::Fail;

const FOLDER: &str = "cluster_folder_test";

const FILE: &str = "cluster_folder_test/node-1.rec";

const SUMS: &str = "cluster_folder_test/node-1.sum";

const SUMS_FOLDER: &str = "cluster_folder_sums_test";

const HELD_SUMS: &str = "cluster_folder_sums_test/node-1.sum";

/// Two records, a closed gate, and what a crash left behind it.
const TORN: [u8; 23] = [
    1, 4, 0, 0, 0, 8, 1, 0x18, 1, 1, 4, 0, 0, 0, 8, 2, 0x18, 1, 0, 4, 0, 0, 0,
];

/// How many bytes of it stand before the gate.
const KEPT_BYTES: usize = 18;

// So many bytes were marked.
fn marked(length: u64) -> FileMark {
    FileMark {
        length,
        digest: [0; 32],
    }
}

#[test]
fn lengths_say_what_stands_there(rt: HostRuntime) {
    let new = [Some(1), None, Some(0), None, None];
    assert!(rt; judge(3, &new, None) == Ok(FolderState::New));
    let old = [Some(9), Some(1), Some(10), None, None];
    assert!(rt; judge(3, &old, None) == Ok(FolderState::Old));
    assert!(rt; judge(5, &old, None) == Err(FolderFault::Missing(3)));
    let five = [Some(9), Some(1), Some(10), Some(9), Some(9)];
    assert!(rt; judge(3, &five, None) == Err(FolderFault::Members));
    let cut = [Some(9), Some(0), Some(0), None, None];
    assert!(rt; judge(3, &cut, None) == Err(FolderFault::Truncated(1)));
}

#[test]
fn marks_say_how_long_files_were(rt: HostRuntime) {
    let marks = [marked(0), marked(8), marked(8)];
    let old = [Some(1), Some(9), Some(9), None, None];
    assert!(rt; judge(3, &old, Some(&marks)) == Ok(FolderState::Old));
    assert!(rt; judge(5, &old, Some(&marks)) == Err(FolderFault::Members));
    let cut = [Some(1), Some(9), Some(8), None, None];
    assert!(rt; judge(3, &cut, Some(&marks)) == Err(FolderFault::Truncated(2)));
    let gone = [None, None, None, None, None];
    assert!(rt; judge(3, &gone, Some(&marks)) == Err(FolderFault::Missing(0)));
}

// Why the folder is not taken, if it is not, and what is put down of it otherwise.
fn fault_of(rt: &HostRuntime, folder: &str, is_resumed: bool) -> Option<FolderFault> {
    match open_folder(rt, rt.alloc(), 3, folder, is_resumed, [7; 16]) {
        Ok(opened) => put_down(rt, rt.alloc(), folder, &opened.identity).err(),
        Err(fault) => Some(fault),
    }
}

#[test]
fn a_folder_is_known_again(rt: HostRuntime) -> Result<(), Fail> {
    let _ = fs::remove_dir_all(&rt, FOLDER);
    assert!(rt; fault_of(&rt, FOLDER, false).is_none());
    assert!(rt; fs::read(&rt, SUMS)?.is_empty());
    fs::remove_file(&rt, SUMS)?;
    // A record, a closed gate, and what a crash left behind it.
    fs::write(&rt, FILE, [1, 4, 0, 0, 0, 8, 1, 0x18, 1, 0, 9, 9])?;
    fs::write(&rt, "cluster_folder_test/node-0.rec", [0])?;
    fs::write(&rt, "cluster_folder_test/node-2.rec", [0])?;
    assert!(rt; fault_of(&rt, FOLDER, true).is_none());
    // Another record takes the place of what stood behind the gate.
    fs::write(
        &rt,
        FILE,
        [
            1, 4, 0, 0, 0, 8, 1, 0x18, 1, 1, 4, 0, 0, 0, 8, 1, 0x18, 2, 0,
        ],
    )?;
    assert!(rt; fault_of(&rt, FOLDER, true).is_none());
    fs::write(
        &rt,
        FILE,
        [
            1, 4, 0, 0, 0, 8, 1, 0x18, 3, 1, 4, 0, 0, 0, 8, 1, 0x18, 2, 0,
        ],
    )?;
    assert!(rt; fault_of(&rt, FOLDER, true) == Some(FolderFault::Foreign(1)));
    fs::write(&rt, FILE, [1, 4, 0, 0, 0, 8, 1, 0x18, 1, 0])?;
    assert!(rt; fault_of(&rt, FOLDER, true) == Some(FolderFault::Truncated(1)));
    fs::remove_file(&rt, FILE)?;
    fs::remove_file(&rt, SUMS)?;
    assert!(rt; fault_of(&rt, FOLDER, true) == Some(FolderFault::Missing(1)));
    assert!(rt; fs::metadata(&rt, SUMS).is_err());
    fs::remove_dir_all(&rt, FOLDER)?;
    Ok(())
}

#[test]
fn sums_that_cannot_be_had_are_told(rt: HostRuntime) -> Result<(), Fail> {
    let _ = fs::remove_dir_all(&rt, SUMS_FOLDER);
    fs::create_dir(&rt, SUMS_FOLDER)?;
    let held = FileDisk::open(&rt, HELD_SUMS)?;
    assert!(rt; fault_of(&rt, SUMS_FOLDER, false) == Some(FolderFault::SumsLocked(1)));
    drop(held);
    fs::remove_file(&rt, HELD_SUMS)?;
    fs::create_dir(&rt, HELD_SUMS)?;
    assert!(rt; fault_of(&rt, SUMS_FOLDER, true) == Some(FolderFault::SumsOpen(1)));
    fs::remove_dir_all(&rt, SUMS_FOLDER)?;
    Ok(())
}

// The mark of these bytes, which are few.
fn mark_of_all(bytes: &[u8]) -> FileMark {
    mark_of(bytes.len() as u64, bytes, bytes)
}

// A disk with these bytes.
fn disk_of(alloc: Global, bytes: &[u8]) -> Result<MemoryDisk, Fail> {
    Ok(MemoryDisk::new(alloc, bytes.to_vec(alloc)?))
}

#[test]
fn a_mark_is_of_the_bytes_before_the_gate(rt: HostRuntime) -> Result<(), Fail> {
    let alloc = rt.alloc();
    let mut disk = disk_of(alloc, &TORN)?;
    let mark = mark_of_file(alloc, 1, &mut disk);
    assert!(rt; mark == Ok(mark_of_all(&TORN[..KEPT_BYTES])));
    let mut new = disk_of(alloc, &TORN[..1])?;
    assert!(rt; mark_of_file(alloc, 1, &mut new) == Ok(mark_of_all(&[])));
    disk.calls_left = Some(1);
    assert!(rt; mark_of_file(alloc, 1, &mut disk) == Err(FolderFault::Device(1)));
    Ok(())
}

#[test]
fn a_file_is_held_against_its_mark(rt: HostRuntime) -> Result<(), Fail> {
    let alloc = rt.alloc();
    let mark = mark_of_all(&TORN[..KEPT_BYTES]);
    let mut disk = disk_of(alloc, &TORN)?;
    assert!(rt; check_mark(alloc, 1, &mut disk, mark) == Ok(()));
    assert!(rt; check_mark(alloc, 1, &mut disk, marked(18)) == Err(FolderFault::Foreign(1)));
    assert!(rt; check_mark(alloc, 1, &mut disk, marked(24)) == Err(FolderFault::Truncated(1)));
    Ok(())
}
