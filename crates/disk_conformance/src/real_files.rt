//! A store over a file, opened again.

use ballots::{Ballot, NodeId, Record};
use disk_records::DiskStable;
use file_disk::FileDisk;
use stable_records::{Stable, StoreFault};
use std::fs;
use std::fs::OpenOptions;
use std::test::Fail;

const FOLDER: &str = "file_disk_test";

const PATH: &str = "file_disk_test/records";

const CUT_FOLDER: &str = "cut_file_test";

const CUT_PATH: &str = "cut_file_test/records";

fn began() -> Result<Record, Fail> {
    let node = NodeId::new(0).ok_or("no node")?;
    Ok(Record::Began(Ballot::new(1, node).ok_or("no ballot")?))
}

#[test]
fn a_kept_record_is_in_the_file(rt: HostRuntime) -> Result<(), Fail> {
    let alloc = rt.alloc();
    let _ = fs::remove_dir_all(&rt, FOLDER);
    fs::create_dir(&rt, FOLDER)?;
    let mut store = DiskStable::new(alloc, FileDisk::open(&rt, PATH)?);
    assert_eq!(rt; store.recall(alloc)?.len(), 0);
    store.keep(&began()?)?;
    assert!(rt; FileDisk::open(&rt, PATH).is_err());
    drop(store);
    let bytes = fs::read(&rt, PATH)?;
    assert_eq!(rt;
        bytes.as_slice(),
        [1, 4, 0, 0, 0, 8, 1, 0x18, 1, 0].as_slice()
    );
    let mut again = DiskStable::new(alloc, FileDisk::open(&rt, PATH)?);
    assert_eq!(rt; again.recall(alloc)?.len(), 1);
    fs::remove_dir_all(&rt, FOLDER)?;
    Ok(())
}

#[test]
fn a_file_that_was_cut_takes_no_record(rt: HostRuntime) -> Result<(), Fail> {
    let alloc = rt.alloc();
    let _ = fs::remove_dir_all(&rt, CUT_FOLDER);
    fs::create_dir(&rt, CUT_FOLDER)?;
    let mut store = DiskStable::new(alloc, FileDisk::open(&rt, CUT_PATH)?);
    assert_eq!(rt; store.recall(alloc)?.len(), 0);
    store.keep(&began()?)?;
    OpenOptions::new()
        .write(true)
        .open(&rt, CUT_PATH)?
        .set_len(4)?;
    assert!(rt; store.keep(&began()?) == Err(StoreFault::Device));
    assert_eq!(rt; fs::read(&rt, CUT_PATH)?.len(), 4);
    assert!(rt; matches!(store.recall(alloc), Err(StoreFault::Damaged)));
    fs::remove_dir_all(&rt, CUT_FOLDER)?;
    Ok(())
}
