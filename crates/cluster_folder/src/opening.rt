//! A folder that a server starts over.

use crate::fault::FolderFault;
use crate::files::{NodeFile, look_at, open_disks};
use crate::folder::make_folder;
use crate::identity::identity_in;
use crate::marking::{check_mark, mark_of_file};
use cluster_identity::{FileMark, Identity};
use file_disk::FileDisk;
use std::alloc::{Alloc, Global};
use std::fs::{File, Files};

/// The files of a cluster, which no other process can open, and what is to be put down of it once its nodes have started
/// ([`put_down`](crate::put_down)).
#[derive(Drop)]
pub struct OpenFolder {
    /// The nodes' files of records, the last node's first.
    pub disks: Vec<FileDisk>,
    /// The nodes' files of sums, the last node's first.
    pub sums: Vec<FileDisk>,
    /// What the cluster is, with the mark of each file of records as it stands.
    pub identity: Identity,
}

/// The folder of a cluster of so many nodes, which is made where it is missing. A new cluster has this name.
///
/// Where its nodes go on over what an earlier server left, no file is made or changed before it was seen that none is missing,
/// cut or another's, as far as the lengths of the files of records say, and what the last server put down of them. The files of
/// sums are opened behind all this, and nothing is asked of what stands in them. The faults are those of [`look_at`],
/// [`identity_in`], [`check_mark`] and [`open_disks`].
pub fn open_folder<R: Files<File = File> + Alloc<A = Global>>(
    files: &R,
    alloc: Global,
    nodes: u8,
    folder: &str,
    is_resumed: bool,
    id: [u8; 16],
) -> Result<OpenFolder, FolderFault> {
    make_folder(files, folder)?;
    let (disks, identity) = open_records(files, alloc, nodes, folder, is_resumed, id)?;
    let sums = open_disks(files, alloc, NodeFile::Sums, nodes, folder)?;
    Ok(OpenFolder {
        disks,
        sums,
        identity,
    })
}

// The files of records of a cluster of so many nodes, the last node's first, and what the cluster is.
fn open_records<R: Files<File = File> + Alloc<A = Global>>(
    files: &R,
    alloc: Global,
    nodes: u8,
    folder: &str,
    is_resumed: bool,
    id: [u8; 16],
) -> Result<(Vec<FileDisk>, Identity), FolderFault> {
    if !is_resumed {
        let disks = open_disks(files, alloc, NodeFile::Records, nodes, folder)?;
        return marked(alloc, disks, id);
    }
    let last = identity_in(files, alloc, folder)?;
    let Some(last) = last else {
        look_at(files, alloc, nodes, folder, None)?;
        let disks = open_disks(files, alloc, NodeFile::Records, nodes, folder)?;
        return marked(alloc, disks, id);
    };
    look_at(files, alloc, nodes, folder, Some(last.files.as_slice()))?;
    let mut disks = open_disks(files, alloc, NodeFile::Records, nodes, folder)?;
    check_marks(alloc, disks.as_mut_slice(), last.files.as_slice())?;
    marked(alloc, disks, last.id)
}

// Whether each file begins as its mark has it, where these are the files of as many nodes, the last node's first.
fn check_marks(
    alloc: Global,
    disks: &mut [FileDisk],
    marks: &[FileMark],
) -> Result<(), FolderFault> {
    let Ok(count) = u8::try_from(marks.len()) else {
        return Err(FolderFault::Members);
    };
    if disks.len() != marks.len() {
        return Err(FolderFault::Members);
    }
    for node in 0..count {
        let disk = &mut disks[usize::from(count - 1 - node)];
        check_mark(alloc, node, disk, marks[usize::from(node)])?;
    }
    Ok(())
}

// The files of records of a cluster with this name, the last node's first, and what the cluster is with their marks.
fn marked(
    alloc: Global,
    disks: Vec<FileDisk>,
    id: [u8; 16],
) -> Result<(Vec<FileDisk>, Identity), FolderFault> {
    let mut disks = disks;
    let marks = marks_of(alloc, disks.as_mut_slice())?;
    match Identity::new(id, marks) {
        Some(identity) => Ok((disks, identity)),
        None => Err(FolderFault::Members),
    }
}

// The marks of files, the last node's first, in the order of the nodes' numbers.
fn marks_of(alloc: Global, disks: &mut [FileDisk]) -> Result<Vec<FileMark>, FolderFault> {
    let Ok(count) = u8::try_from(disks.len()) else {
        return Err(FolderFault::Members);
    };
    let mut marks = Vec::new(alloc);
    for node in 0..count {
        let disk = &mut disks[usize::from(count - 1 - node)];
        let mark = mark_of_file(alloc, node, disk)?;
        if marks.push(mark).is_err() {
            return Err(FolderFault::OutOfMemory);
        }
    }
    Ok(marks)
}
