//! The files of the nodes.

use crate::fault::FolderFault;
use crate::judging::{FolderState, MOST_NODES, judge};
use crate::paths::{record_path, sums_path};
use cluster_identity::FileMark;
use file_disk::FileDisk;
use std::alloc::{Alloc, Global};
use std::fs::{File, Files, metadata};
use std::io;

/// Which of a node's two files.
#[derive(Clone, Copy)]
pub(crate) enum NodeFile {
    /// Its records.
    Records,
    /// The sums of its records.
    Sums,
}

impl NodeFile {
    // The path of this file of the node of this number.
    fn path(self, alloc: Global, folder: &str, number: u8) -> Result<String, FolderFault> {
        match self {
            NodeFile::Records => record_path(alloc, folder, number),
            NodeFile::Sums => sums_path(alloc, folder, number),
        }
    }

    // The fault where another process has this file of the node of this number.
    fn locked(self, number: u8) -> FolderFault {
        match self {
            NodeFile::Records => FolderFault::Locked(number),
            NodeFile::Sums => FolderFault::SumsLocked(number),
        }
    }

    // The fault where this file of the node of this number can't be opened or made.
    fn shut(self, number: u8) -> FolderFault {
        match self {
            NodeFile::Records => FolderFault::Open(number),
            NodeFile::Sums => FolderFault::SumsOpen(number),
        }
    }

    // The fault where this file of the node of this number can't be had for this error.
    fn open_fault(self, number: u8, error: &io::Error) -> FolderFault {
        match error.kind() {
            io::ErrorKind::WouldBlock => self.locked(number),
            io::ErrorKind::OutOfMemory => FolderFault::OutOfMemory,
            _ => self.shut(number),
        }
    }
}

// How many bytes the records of the node of this number have, `None` where their file is not there.
fn size_of<R: Files<File = File> + Alloc>(
    files: &R,
    alloc: Global,
    folder: &str,
    number: u8,
) -> Result<Option<u64>, FolderFault> {
    let path = record_path(alloc, folder, number)?;
    match metadata(files, path.as_str()) {
        Ok(found) => Ok(Some(found.len())),
        Err(error) => match error.kind() {
            io::ErrorKind::NotFound => Ok(None),
            _ => Err(NodeFile::Records.open_fault(number, &error)),
        },
    }
}

/// What stands in a folder for a server of so many nodes, at most [`MOST_NODES`], as [`judge`] tells it of the lengths of
/// the files of records and these marks of them. Nothing is opened, made or changed.
///
/// The faults are those of [`judge`], [`FolderFault::Open`] where a file can't be looked at, and [`FolderFault::OutOfMemory`].
pub(crate) fn look_at<R: Files<File = File> + Alloc>(
    files: &R,
    alloc: Global,
    count: u8,
    folder: &str,
    marks: Option<&[FileMark]>,
) -> Result<FolderState, FolderFault> {
    let mut sizes = [None; MOST_NODES as usize];
    for number in 0..MOST_NODES {
        sizes[usize::from(number)] = size_of(files, alloc, folder, number)?;
    }
    if count > MOST_NODES {
        return Err(FolderFault::Members);
    }
    judge(count, &sizes, marks)
}

// This file of the node of this number.
fn open_disk<R: Files<File = File> + Alloc>(
    files: &R,
    alloc: Global,
    which: NodeFile,
    folder: &str,
    number: u8,
) -> Result<FileDisk, FolderFault> {
    let path = which.path(alloc, folder, number)?;
    match FileDisk::open(files, path.as_str()) {
        Ok(disk) => Ok(disk),
        Err(error) => Err(which.open_fault(number, &error)),
    }
}

/// This file of each of so many nodes, the last node's first. One that is missing is made.
///
/// Where another process has one, it is [`FolderFault::Locked`] or [`FolderFault::SumsLocked`], and where one can't be opened or
/// made, [`FolderFault::Open`] or [`FolderFault::SumsOpen`].
pub(crate) fn open_disks<R: Files<File = File> + Alloc>(
    files: &R,
    alloc: Global,
    which: NodeFile,
    count: u8,
    folder: &str,
) -> Result<Vec<FileDisk>, FolderFault> {
    let mut disks = Vec::new(alloc);
    for before in 0..count {
        let disk = open_disk(files, alloc, which, folder, count - 1 - before)?;
        if disks.push(disk).is_err() {
            return Err(FolderFault::OutOfMemory);
        }
    }
    Ok(disks)
}
