//! The stores of the nodes.

use crate::fault::ServeFault;
use disk_records::DiskStable;
use file_disk::FileDisk;
use record_sums::SummedStable;
use shared_values::{HeldValues, SharingStable};
use std::alloc::Global;

/// The store of a node: its records in one file, and the sum of each in another. Its recall can share values that another node
/// has in memory already.
pub type FileStore = SharingStable<SummedStable<DiskStable<FileDisk>, FileDisk>>;

// The store over the last of these files.
fn store(
    alloc: Global,
    records: &mut Vec<FileDisk>,
    sums: &mut Vec<FileDisk>,
) -> Result<FileStore, ServeFault> {
    let Some(records) = records.pop() else {
        return Err(ServeFault::Members);
    };
    let Some(sums) = sums.pop() else {
        drop(records);
        return Err(ServeFault::Members);
    };
    let summed = SummedStable::new(alloc, DiskStable::new(alloc, records), sums);
    Ok(SharingStable::new(summed, HeldValues::none(alloc)))
}

/// The stores over the files of so many nodes, in their order.
pub(crate) fn stores_over(
    alloc: Global,
    records: Vec<FileDisk>,
    sums: Vec<FileDisk>,
) -> Result<Vec<FileStore>, ServeFault> {
    let mut records = records;
    let mut sums = sums;
    let mut stores = Vec::new(alloc);
    for _ in 0..records.len() {
        let next = store(alloc, &mut records, &mut sums)?;
        if stores.push(next).is_err() {
            return Err(ServeFault::OutOfMemory);
        }
    }
    stores.reverse();
    Ok(stores)
}
