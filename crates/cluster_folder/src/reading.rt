//! A folder whose files are read, and neither opened for a server nor changed.

use crate::fault::FolderFault;
use crate::files::look_at;
use crate::identity::identity_in;
use crate::judging::{FolderState, MOST_NODES};
use crate::paths::record_path;
use cluster_identity::{FileMark, digested_parts, mark_of};
use record_sums::NodeFiles;
use std::alloc::{Alloc, Global};
use std::fs::{self, File, Files};
use std::io;

/// How many nodes the smaller of the clusters has that are served.
const FEWEST_NODES: u8 = 3;

// The bytes of a file, none where it is not there.
fn bytes_in<R: Files<File = File> + Alloc<A = Global>>(
    files: &R,
    alloc: Global,
    path: &str,
) -> io::Result<Vec<u8>> {
    match fs::read(files, path) {
        Ok(bytes) => Ok(bytes),
        Err(error) => match error.kind() {
            io::ErrorKind::NotFound => Ok(Vec::new(alloc)),
            _ => Err(error),
        },
    }
}

// The path of the file of sums beside a file of records: its ending `rec` is `sum` there.
fn path_beside(alloc: Global, path: &str) -> io::Result<Option<String>> {
    let Some(stem) = path.strip_suffix(".rec") else {
        return Ok(None);
    };
    Ok(Some(format!(in alloc; "{stem}.sum")?))
}

/// The bytes of a node's file of records at this path, and of the file of their sums beside it, whose name ends in `.sum` where the
/// other's ends in `.rec`. Where there is no such file, there are no sums.
pub fn node_files<R: Files<File = File> + Alloc<A = Global>>(
    files: &R,
    alloc: Global,
    path: &str,
) -> io::Result<NodeFiles> {
    let sums = match path_beside(alloc, path)? {
        Some(beside) => bytes_in(files, alloc, beside.as_str())?,
        None => Vec::new(alloc),
    };
    let records = fs::read(files, path)?;
    Ok(NodeFiles { sums, records })
}

// The fault of a node whose files can't be read.
fn read_fault(node: u8, error: &io::Error) -> FolderFault {
    match error.kind() {
        io::ErrorKind::OutOfMemory => FolderFault::OutOfMemory,
        io::ErrorKind::NotFound => FolderFault::Missing(node),
        _ => FolderFault::Device(node),
    }
}

// Whether the records begin as the mark has them.
fn begins_so(records: &[u8], mark: FileMark) -> bool {
    let parts = digested_parts(mark.length);
    let (count, last_from) = (parts.count as usize, parts.last_from as usize);
    let (Some(first), Some(rest)) = (records.get(..count), records.get(last_from..)) else {
        return false;
    };
    match rest.get(..count) {
        Some(last) => mark_of(mark.length, first, last) == mark,
        None => false,
    }
}

// The files of the node of this number, which the last server marked so.
fn files_of<R: Files<File = File> + Alloc<A = Global>>(
    files: &R,
    alloc: Global,
    folder: &str,
    node: u8,
    marks: Option<&[FileMark]>,
) -> Result<NodeFiles, FolderFault> {
    let path = record_path(alloc, folder, node)?;
    let read = match node_files(files, alloc, path.as_str()) {
        Ok(read) => read,
        Err(error) => return Err(read_fault(node, &error)),
    };
    let mark = match marks {
        Some(marks) => marks.get(usize::from(node)),
        None => None,
    };
    match mark {
        Some(mark) if !begins_so(read.records.as_slice(), *mark) => Err(FolderFault::Foreign(node)),
        _ => Ok(read),
    }
}

// How many nodes the cluster has of which no server put down anything: 3, unless there is a file of a node that these have not.
fn count_in<R: Files<File = File> + Alloc>(
    files: &R,
    alloc: Global,
    folder: &str,
) -> Result<u8, FolderFault> {
    for node in FEWEST_NODES..MOST_NODES {
        let path = record_path(alloc, folder, node)?;
        if files.metadata(path.as_str()).is_ok() {
            return Ok(MOST_NODES);
        }
    }
    Ok(FEWEST_NODES)
}

// The files of so many nodes, in order.
fn all_files<R: Files<File = File> + Alloc<A = Global>>(
    files: &R,
    alloc: Global,
    folder: &str,
    count: u8,
    standing: FolderState,
    marks: Option<&[FileMark]>,
) -> Result<Vec<NodeFiles>, FolderFault> {
    let mut nodes = Vec::new(alloc);
    for node in 0..count {
        let read = match standing {
            FolderState::New => NodeFiles {
                sums: Vec::new(alloc),
                records: Vec::new(alloc),
            },
            FolderState::Old => files_of(files, alloc, folder, node, marks)?,
        };
        if nodes.push(read).is_err() {
            return Err(FolderFault::OutOfMemory);
        }
    }
    Ok(nodes)
}

/// The bytes of the files of all nodes of the cluster in this folder, in order, which stand as a server that resumes would take them. It
/// has as many nodes as the last server put down; of a cluster of which none did, 5 where there is a file of node 3 or 4, and else 3. Where
/// no file has records, none has a byte. A folder that a server has open can be read too, and nothing is opened for writing, made or
/// changed.
///
/// The faults are those of a server that resumes: [`FolderFault::Members`], [`FolderFault::Missing`], [`FolderFault::Truncated`],
/// [`FolderFault::Foreign`], [`FolderFault::IdentityDamaged`], and [`FolderFault::Device`], [`FolderFault::Open`] and
/// [`FolderFault::IdentityDevice`] where a file can't be read.
pub fn read_folder<R: Files<File = File> + Alloc<A = Global>>(
    files: &R,
    alloc: Global,
    folder: &str,
) -> Result<Vec<NodeFiles>, FolderFault> {
    let Some(last) = identity_in(files, alloc, folder)? else {
        let count = count_in(files, alloc, folder)?;
        let standing = look_at(files, alloc, count, folder, None)?;
        return all_files(files, alloc, folder, count, standing, None);
    };
    let marks = last.files.as_slice();
    let Ok(count) = u8::try_from(marks.len()) else {
        return Err(FolderFault::Members);
    };
    let standing = look_at(files, alloc, count, folder, Some(marks))?;
    all_files(files, alloc, folder, count, standing, Some(marks))
}
