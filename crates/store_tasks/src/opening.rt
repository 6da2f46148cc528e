//! A store over a file that has been recalled once.

use disk_records::DiskStable;
use file_disk::FileDisk;
use part_tasks::TaskFault;
use stable_records::{Stable, StoreFault};
use std::alloc::{Alloc, Global};
use std::fs::{File, Files};

/// The store of a node on a disk.
pub(crate) type FileStore = DiskStable<FileDisk>;

/// What ends a task where a store has this fault.
pub(crate) fn fault_of(fault: StoreFault) -> TaskFault {
    match fault {
        StoreFault::Device | StoreFault::Broken => TaskFault::Io,
        StoreFault::Damaged => TaskFault::Records,
        StoreFault::OutOfMemory => TaskFault::OutOfMemory,
    }
}

/// A store over the file at this path, which is made where it is missing. It is ready.
pub(crate) fn open_store<R: Files<File = File> + Alloc>(
    files: &R,
    alloc: Global,
    path: &str,
) -> Result<FileStore, TaskFault> {
    let disk = FileDisk::open(files, path)?;
    let mut store = DiskStable::new(alloc, disk);
    match store.recall(alloc) {
        Ok(records) => drop(records),
        Err(fault) => return Err(fault_of(fault)),
    }
    Ok(store)
}
